// The status that a program ends with.
ghost use Rattle.std.specs.IoError.{error_kind};
ghost use Rattle.program.specs.Status.{EndsWith};

use std::io;
use std::io::ErrorKind;
use std::process::ExitCode;

// 128 and the number of the signal SIGPIPE.
const BROKEN_PIPE: u8 = 141;

// A pipe that nobody reads any more ends a program with the status that a shell has for the signal of that,
// which std holds back. Any other write that fails leaves the status as it is: 0.
pub fn status_of(written: io::Result<()>) -> ExitCode
    ensures { EndsWith error_kind ErrorKind.BrokenPipe written result }
{
    match written {
        Err(error) if error.kind() == ErrorKind::BrokenPipe => ExitCode::from(BROKEN_PIPE),
        _ => ExitCode::SUCCESS,
    }
}
