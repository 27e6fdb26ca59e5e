//! The file of a listing that is loaded first.
ghost use Rattle.std.specs.Prelude.{◌≡◌, IfErr};

use crate::input_file::open_input;
use crate::printing::{FAULT_STATUS, NO_MEMORY, path_of, print_bad_name, print_unloaded};
use crate::words::NamePlace;
use listing::{Counted, InputFault, read_all};
use std::rt::Files;

/// A listing, and the name of its file; both are empty where none is asked for.
#[derive(Drop)]
pub struct ListingFile<'a> {
    /// The name of the file.
    pub name: &'a str,
    /// What it holds.
    pub text: Vec<u8>,
}

// What a file of this name holds.
fn read_file<P: Files + Eprint + AllocGlobal>(
    rt: &P,
    program: &str,
    name: &str,
) -> Result<Vec<u8>, u8>
    ensures { IfErr result (λ status. status ≡ FAULT_STATUS) }
{
    let file = match open_input(rt, program, name) {
        Ok(file) => file,
        Err(status) => return Err(status),
    };
    match read_all(rt.alloc(), &mut Counted::new(file)) {
        Ok(text) => Ok(text),
        Err(InputFault::Read) => Err(print_unloaded(rt, program, name, "cannot read input")),
        Err(InputFault::Memory) => Err(print_unloaded(rt, program, name, NO_MEMORY)),
    }
}

/// Reads the listing whose name stands there among the arguments, where one is asked for. Where it can't be read a line
/// on standard error says why, and the exit status is answered.
pub fn read_listing<'a, P: Files + Eprint + AllocGlobal>(
    rt: &P,
    program: &str,
    arguments: &'a [Vec<u8>],
    load: Option<NamePlace>,
) -> Result<ListingFile<'a>, u8>
    ensures { IfErr result (λ status. status ≡ FAULT_STATUS) }
{
    let Some(place) = load else {
        return Ok(ListingFile {
            name: "",
            text: Vec::new(rt.alloc()),
        });
    };
    let Some(name) = place.name_in(arguments).and_then(path_of) else {
        return Err(print_bad_name(rt, program));
    };
    match read_file(rt, program, name) {
        Ok(text) => Ok(ListingFile { name, text }),
        Err(status) => Err(status),
    }
}
