//! A file that is read.
ghost use Rattle.std.specs.Prelude.{◌≡◌, IfErr};

use crate::printing::{FAULT_STATUS, print_unopened};
use std::fs::OpenFile;
use std::io::ErrorKind;
use std::rt::Files;
use std::{fs, io};

// Where the system says what standard input is.
const STANDARD_INPUT: &str = "/dev/stdin";

// Opens a file that isn't a folder.
fn open_file<P: Files>(rt: &P, name: &str) -> io::Result<P::File> {
    let file = fs::open(rt, name)?;
    if file.metadata()?.is_dir() {
        return Err(io::Error::from(ErrorKind::IsADirectory));
    }
    Ok(file)
}

/// Opens a file to be read. Where it can't be opened, or is a folder, a line on standard error says so, and the exit
/// status is answered.
pub fn open_input<P: Files + Eprint>(rt: &P, program: &str, name: &str) -> Result<P::File, u8>
    ensures { IfErr result (λ status. status ≡ FAULT_STATUS) }
{
    match open_file(rt, name) {
        Ok(file) => Ok(file),
        Err(why) => Err(print_unopened(rt, program, name, why)),
    }
}

/// Looks at standard input. Where it is a folder a line on standard error says so, and the exit status is answered.
pub fn look_at_input<P: Files + Eprint>(rt: &P, program: &str) -> Result<(), u8>
    ensures { IfErr result (λ status. status ≡ FAULT_STATUS) }
{
    match fs::metadata(rt, STANDARD_INPUT) {
        Ok(known) if known.is_dir() => {
            let why = io::Error::from(ErrorKind::IsADirectory);
            Err(print_unopened(rt, program, "standard input", why))
        }
        _ => Ok(()),
    }
}
