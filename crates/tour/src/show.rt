// Lines of output.
use clock::{Clock, Refusal};
use std::io;

pub(crate) fn show_count(rt: &impl Print, what: &str, n: u64) -> io::Result<()> {
    println!(rt; "{what}: {n}")
}

// A clock's label, and what a reading tells: the microseconds of the second, and the status.
pub(crate) fn show_clock(rt: &impl Print, what: &str, c: Clock) -> io::Result<()> {
    let mut text = [0u8; 20];
    // A clock that is refused has no label.
    let _ = label::write(c, &mut text);
    let label = str::from_utf8(&text).unwrap_or_default();
    let told = clock::read(c).reading;
    println!(rt;
        "{what}: {label} and {} us, status {}",
        told.micros.0, told.status
    )
}

// A refusal by its number, as answers hold it, and its words. 0 is no refusal's.
pub(crate) fn show_refusal(rt: &impl Print, what: &str, n: u8) -> io::Result<()> {
    match Refusal::try_from(n) {
        Ok(refusal) => println!(rt; "{what}: refused with {n}, {refusal}"),
        Err(_) => println!(rt; "{what}: accepted"),
    }
}
