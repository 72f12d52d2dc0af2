// One field of a record: a number at a place, and its range. Bytes and place are two parameters, as
// `number::read` takes them: a struct of both would be taken apart again at each call.
ghost use Rattle.std.specs.Prelude.{◌≡◌, leb};
ghost use Rattle.number.specs.Layout.{field_at, place_at, mapped_range};
ghost use Rattle.number.specs.Mapping.{unmapped};
ghost use Rattle.record.specs.Inner.{told_field, up_to, between_z};
ghost use Rattle.record.specs.Layout.{known_version};

use crate::layout::VERSION;
use state::Refusal;

// The last version that is read, as wide as the numbers that are.
const LAST_VERSION: u64 = VERSION as u64;

// What was read at a place, a field or a group of them, and the place after it. A signed field is the number
// that it is mapped to.
#[derive(Clone, Copy)]
pub(crate) struct Read<T> {
    pub value: T,
    pub next: usize,
}

// The version, which is a record's first number.
pub(crate) fn version(bytes: &[u8]) -> Result<Read<u32>, Refusal>
    ensures { told_field result ≡ field_at known_version bytes.now 0 }
{
    let number = number::read(bytes, 0)?;
    if number.value == 0 || LAST_VERSION < number.value {
        return Err(Refusal::Field);
    }
    Ok(Read {
        value: number.value as u32,
        next: number.next,
    })
}

// The field at `at` whose values are 0 to `most`.
pub(crate) fn plain(bytes: &[u8], at: usize, most: u32) -> Result<Read<u32>, Refusal>
    ensures { told_field result ≡ field_at (up_to most) bytes.now at }
{
    let number = number::read(bytes, at)?;
    if u64::from(most) < number.value {
        return Err(Refusal::Field);
    }
    Ok(Read {
        value: number.value as u32,
        next: number.next,
    })
}

// The same, where `most` and so the field is of one byte.
pub(crate) fn small(bytes: &[u8], at: usize, most: u8) -> Result<Read<u8>, Refusal>
    ensures { told_field result ≡ field_at (up_to most) bytes.now at }
{
    let field = plain(bytes, at, u32::from(most))?;
    Ok(Read {
        value: field.value as u8,
        next: field.next,
    })
}

// The field of `plain` in a record that holds it from version `first` on: in an older one it takes no byte
// and is 0.
pub(crate) fn since(
    first: u32,
    version: u32,
    bytes: &[u8],
    at: usize,
    most: u32,
) -> Result<Read<u32>, Refusal>
    ensures { told_field result ≡ place_at (leb first version) (up_to most) bytes.now at }
{
    if version < first {
        return Ok(Read { value: 0, next: at });
    }
    plain(bytes, at, most)
}

// The mapped field at `at` whose values are `least` to `most`.
pub(crate) fn signed(bytes: &[u8], at: usize, least: i32, most: i32) -> Result<Read<u32>, Refusal>
    ensures { told_field result ≡ field_at (mapped_range (between_z least most)) bytes.now at }
{
    let number = number::read(bytes, at)?;
    let z = number::unmap(number.value);
    let least = i64::from(least);
    let most = i64::from(most);
    if (least <= z) & (z <= most) {
        return Ok(Read {
            value: number.value as u32,
            next: number.next,
        });
    }
    Err(Refusal::Field)
}

// The signed number that a field's number is mapped from.
pub(crate) fn unmapped_of(n: u32) -> i32
    ensures { result ≡ unmapped n }
{
    number::unmap(u64::from(n)) as i32
}
