//! A listing as an engine.
ghost use Rattle.std.specs.Prelude.{IfErr, IfOk};
ghost use Rattle.std.specs.Prelude.{OnOk};
ghost use Rattle.embedded.specs.Loads.{IsFaultTold, IsLoadedEngine, IsNoFaultTold, IsUnloaded};

use crate::Embedded;
use crate::copied::copy_text;
use loading::{LoadFault, load};
use refusal::Refusal;
use std::alloc::Global;

// Tells where a text is at fault, and what is expected there; the refusal.
fn tell_fault(
    fault: LoadFault,
    line: &mut u64,
    column: &mut usize,
    expected: &mut [u8],
    wanted: &mut usize,
) -> Refusal
    requires { IsNoFaultTold line.old column.old expected.old expected.old wanted.old }
    ensures { IsFaultTold fault result line.new column.new expected.old expected.new wanted.new }
{
    match fault {
        LoadFault::Line(at) => {
            *line = at.number;
            *column = at.column;
            copy_text(at.expected.text().as_bytes(), expected, wanted);
            at.refusal
        }
        LoadFault::Memory => Refusal::OutOfMemory,
    }
}

impl Embedded {
    /// An engine of a listing, as `loading::load` reads it: each of its lines is a SET of job 1, so a unit of the
    /// journal, in order. It has no reply yet. `line`, `column` and `wanted` come to be 0.
    ///
    /// Refusals, after which nothing of the text is kept: that of the first line that sets nothing, whose number is
    /// told, with the column of its fault and the length of the text that says what is expected there; that text is
    /// copied where the buffer has room for it. `OutOfMemory`, where memory was refused before such a line was found,
    /// and then no line is told.
    pub fn load(
        alloc: Global,
        text: &[u8],
        line: &mut u64,
        column: &mut usize,
        expected: &mut [u8],
        wanted: &mut usize,
    ) -> Result<Embedded, Refusal>
        ensures loaded { IfOk result (IsLoadedEngine text.now) }
        ensures sound { OnOk result (IsNoFaultTold line.new column.new expected.old expected.new wanted.new) }
        ensures refused { IfErr result (λ refusal. IsUnloaded text.now refusal line.new column.new expected.old expected.new wanted.new) }
    {
        *line = 0;
        *column = 0;
        *wanted = 0;
        match load(alloc, text) {
            Ok(core) => Ok(Embedded::of(alloc, core)),
            Err(fault) => Err(tell_fault(fault, line, column, expected, wanted)),
        }
    }
}
