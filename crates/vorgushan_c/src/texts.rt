//! What C calls to load a listing, and to read the journal's lines. Each of them is declared in
//! `include/vorgushan.h`, with its meaning for a C programmer.
ghost use Rattle.std.specs.Prelude.{◌≡◌, ⊤, None};
ghost use Rattle.embedded.specs.JournalReads.{IsJournalCall, IsJournalFrom};
ghost use Rattle.vorgushan_c.specs.Exports.{IsCalled};
ghost use Rattle.vorgushan_c.specs.Texts.{IsFaultLeft, IsLoadCall, IsPut};

use crate::handle::VgEngine;
use embedded::{Embedded, Outcome};
use refusal::Refusal;
use std::alloc::Global;

// Puts an engine where none is, or tells that memory is refused for it.
fn put_new(alloc: Global, engine: &mut VgEngine, made: Embedded) -> Outcome
    requires { engine.old.inside ≡ None }
    ensures { IsPut made engine.new.inside result }
{
    match Box::new(alloc, made) {
        Ok(made) => {
            engine.put(made);
            Outcome::Done
        }
        Err(_) => Outcome::Refused(Refusal::OutOfMemory),
    }
}

/// Makes an engine of a listing where none is: each line is a SET of job 1. `line`, `column` and `wanted` come to be 0.
///
/// Refusals, and then none is there: that of the first line that sets nothing, whose number and column are told, and
/// the length of the text that says what is expected there, which is copied where it fits; `OutOfMemory`. `EngineThere`
/// where one is, and then nothing has changed.
#[unsafe(no_mangle)]
pub extern "C" fn vorgushan_load(
    alloc: Global,
    engine: &mut VgEngine,
    text: &[u8],
    line: &mut u64,
    column: &mut usize,
    expected: &mut [u8],
    wanted: &mut usize,
) -> u32
    ensures { IsLoadCall text.now engine.old.inside engine.new.inside result (IsFaultLeft line.old column.old expected.old wanted.old line.new column.new expected.new wanted.new) line.new column.new expected.old expected.new wanted.new }
{
    if let Some(there) = engine.take(alloc) {
        engine.put(there);
        return Outcome::EngineThere.number();
    }
    match Embedded::load(alloc, text, line, column, expected, wanted) {
        Ok(made) => put_new(alloc, engine, made).number(),
        Err(refusal) => Outcome::Refused(refusal).number(),
    }
}

/// The next lines of the journal to copy are those of the units behind this number.
#[unsafe(no_mangle)]
pub extern "C" fn vorgushan_journal_from(alloc: Global, engine: &mut VgEngine, number: u64) -> u32
    ensures { IsCalled engine.old.inside engine.new.inside result ⊤
        (λ before after outcome. IsJournalFrom number before after × (outcome ≡ Outcome.Done)) }
{
    let Some(mut there) = engine.take(alloc) else {
        return Outcome::NoEngine.number();
    };
    there.journal_from(alloc, number);
    engine.put(there);
    Outcome::Done.number()
}

/// Copies the lines of the journal's next unit, and of as many more as there are room and memory for.
///
/// Outcomes: as of `Embedded::copy_journal_lines`; `NoEngine`.
#[unsafe(no_mangle)]
pub extern "C" fn vorgushan_journal_next(
    alloc: Global,
    engine: &mut VgEngine,
    lines: &mut [u8],
    wanted: &mut usize,
) -> u32
    ensures { IsCalled engine.old.inside engine.new.inside result ((lines.new ≡ lines.old) × (wanted.new ≡ wanted.old))
        (λ before after outcome. IsJournalCall before after outcome lines.old lines.new wanted.new) }
{
    let Some(mut there) = engine.take(alloc) else {
        return Outcome::NoEngine.number();
    };
    let outcome = there.copy_journal_lines(lines, wanted);
    engine.put(there);
    outcome.number()
}
