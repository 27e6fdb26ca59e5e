//! What C calls. Each of them is declared in `include/vorgushan.h`, with its meaning for a C programmer.
ghost use Rattle.std.specs.Prelude.{◌≡◌, ⊤, None, length};
ghost use Rattle.std.specs.Option.{MatchOption};
ghost use Rattle.embedded.specs.Calls.{IsCheckpointCall, IsCollectCall, IsLineCall, IsListCall, IsReplyCall, IsRestart};
ghost use Rattle.embedded.specs.Outcomes.{outcome_number};
ghost use Rattle.vorgushan_c.specs.Exports.{IsMade, IsCalled, IsCounted, IsNamedBy};

use crate::handle::VgEngine;
use crate::sessions::BUSY;
use embedded::{Embedded, Outcome, copied_as, name_outcome};
use refusal::Refusal;
use std::alloc::Global;

/// What an engine holds, for C.
#[repr(C)]
#[derive(Clone, Copy)]
pub struct VgStatistics {
    /// How many units the journal has.
    pub units: u64,
    /// How many bytes those of them take that no checkpoint dropped.
    pub journal_bytes: u64,
    /// How many nodes have a value.
    pub nodes: u64,
}

/// The version of the library: 10,000 times its first number, 100 times its second, and its third.
#[unsafe(no_mangle)]
pub extern "C" fn vorgushan_version() -> u32
    ensures { result ≡ 200 }
{
    200
}

/// Makes an engine, whose database is empty, where none is.
///
/// `EngineThere` where one is, `OutOfMemory`: then nothing has changed.
#[unsafe(no_mangle)]
pub extern "C" fn vorgushan_new(alloc: Global, engine: &mut VgEngine) -> u32
    ensures { IsMade engine.old.inside engine.new.inside result }
{
    if let Some(there) = engine.take(alloc) {
        engine.put(there);
        return Outcome::EngineThere.number();
    }
    match Box::new(alloc, Embedded::new(alloc)) {
        Ok(made) => {
            engine.put(made);
            Outcome::Done.number()
        }
        Err(_) => Outcome::Refused(Refusal::OutOfMemory).number(),
    }
}

/// Ends an engine: its memory is given back, and none is there.
///
/// `NoEngine` where none was.
#[unsafe(no_mangle)]
pub extern "C" fn vorgushan_end(alloc: Global, engine: &mut VgEngine) -> u32
    ensures ended { engine.new.inside ≡ None }
    ensures told { MatchOption engine.old.inside (result ≡ outcome_number Outcome.NoEngine) (λ _. result ≡ outcome_number Outcome.Done) }
{
    match engine.take(alloc) {
        Some(there) => {
            drop(there);
            Outcome::Done.number()
        }
        None => Outcome::NoEngine.number(),
    }
}

/// Runs a line, keeps its reply, and copies the reply's line where the buffer is long enough.
///
/// Outcomes: as of `Embedded::copy_reply`; `NoEngine`, where nothing was run.
#[unsafe(no_mangle)]
pub extern "C" fn vorgushan_line(
    alloc: Global,
    engine: &mut VgEngine,
    line: &[u8],
    reply: &mut [u8],
    wanted: &mut usize,
) -> u32
    ensures { IsCalled engine.old.inside engine.new.inside result ((reply.new ≡ reply.old) × (wanted.new ≡ wanted.old))
        (λ before after outcome. IsLineCall line.now before after outcome reply.old reply.new wanted.new) }
{
    let Some(mut there) = engine.take(alloc) else {
        return Outcome::NoEngine.number();
    };
    let outcome = there.line(alloc, line, reply, wanted);
    engine.put(there);
    outcome.number()
}

/// Copies the last line's reply once more.
///
/// Outcomes: as of `Embedded::copy_reply`; `NoEngine`.
#[unsafe(no_mangle)]
pub extern "C" fn vorgushan_reply(
    alloc: Global,
    engine: &mut VgEngine,
    reply: &mut [u8],
    wanted: &mut usize,
) -> u32
    ensures { IsCalled engine.old.inside engine.new.inside result ((reply.new ≡ reply.old) × (wanted.new ≡ wanted.old))
        (λ before after outcome. IsReplyCall before after outcome reply.old reply.new wanted.new) }
{
    let Some(mut there) = engine.take(alloc) else {
        return Outcome::NoEngine.number();
    };
    let outcome = there.copy_reply(reply, wanted);
    engine.put(there);
    outcome.number()
}

/// The next node to list is the first.
#[unsafe(no_mangle)]
pub extern "C" fn vorgushan_list_from_start(alloc: Global, engine: &mut VgEngine) -> u32
    ensures { IsCalled engine.old.inside engine.new.inside result ⊤
        (λ before after outcome. IsRestart before after × (outcome ≡ Outcome.Done)) }
{
    let Some(mut there) = engine.take(alloc) else {
        return Outcome::NoEngine.number();
    };
    there.list_from_start();
    engine.put(there);
    Outcome::Done.number()
}

/// Copies the line of the node behind the one that was listed last, in the database of a moment.
///
/// Outcomes: as of `Embedded::copy_next_node`; `NoEngine`.
#[unsafe(no_mangle)]
pub extern "C" fn vorgushan_list_next(
    alloc: Global,
    engine: &mut VgEngine,
    moment: u64,
    node: &mut [u8],
    wanted: &mut usize,
) -> u32
    ensures { IsCalled engine.old.inside engine.new.inside result ((node.new ≡ node.old) × (wanted.new ≡ wanted.old))
        (λ before after outcome. IsListCall moment before after outcome node.old node.new wanted.new) }
{
    let Some(mut there) = engine.take(alloc) else {
        return Outcome::NoEngine.number();
    };
    let outcome = there.copy_next_node(moment, node, wanted);
    engine.put(there);
    outcome.number()
}

/// Lets the collector look at so many nodes, from where it stopped. No reply and no listing depends on it.
///
/// Outcomes: as of `Embedded::collect`; `NoEngine`.
#[unsafe(no_mangle)]
pub extern "C" fn vorgushan_collect(alloc: Global, engine: &mut VgEngine, limit: usize) -> u32
    ensures { IsCalled engine.old.inside engine.new.inside result ⊤ (λ before after outcome. IsCollectCall before after outcome) }
{
    let Some(mut there) = engine.take(alloc) else {
        return Outcome::NoEngine.number();
    };
    let outcome = there.collect(limit);
    engine.put(there);
    outcome.number()
}

/// Lets the journal drop its units up to the least start of an open transaction, or all where none is open. No reply
/// and no listing depends on it.
///
/// Outcomes: as of `Embedded::checkpoint`; `NoEngine`.
#[unsafe(no_mangle)]
pub extern "C" fn vorgushan_checkpoint(alloc: Global, engine: &mut VgEngine) -> u32
    ensures { IsCalled engine.old.inside engine.new.inside result ⊤ (λ before after outcome. IsCheckpointCall before after outcome) }
{
    let Some(mut there) = engine.take(alloc) else {
        return Outcome::NoEngine.number();
    };
    let outcome = there.checkpoint();
    engine.put(there);
    outcome.number()
}

/// What an engine holds: walks over all nodes.
///
/// `NoEngine` where none is; then nothing is written.
#[unsafe(no_mangle)]
pub extern "C" fn vorgushan_statistics(
    alloc: Global,
    engine: &mut VgEngine,
    statistics: &mut VgStatistics,
) -> u32
    ensures { IsCalled engine.old.inside engine.new.inside result (statistics.new ≡ statistics.old)
        (λ before after outcome. IsCounted before after outcome statistics.new) }
{
    let Some(there) = engine.take(alloc) else {
        return Outcome::NoEngine.number();
    };
    let counted = there.statistics();
    *statistics = VgStatistics {
        units: counted.units,
        journal_bytes: counted.journal_bytes,
        nodes: counted.nodes,
    };
    engine.put(there);
    Outcome::Done.number()
}

/// Tells how many units the journal has, those too that a checkpoint dropped.
///
/// `NoEngine` where none is; then nothing is written.
#[unsafe(no_mangle)]
pub extern "C" fn vorgushan_units(alloc: Global, engine: &mut VgEngine, number: &mut u64) -> u32
    ensures { IsCalled engine.old.inside engine.new.inside result (number.new ≡ number.old)
        (λ before after outcome. (after ≡ before) × ((number.new ≡ length before.core.machine.units) × (outcome ≡ Outcome.Done))) }
{
    let Some(there) = engine.take(alloc) else {
        return Outcome::NoEngine.number();
    };
    *number = there.units();
    engine.put(there);
    Outcome::Done.number()
}

/// Copies the name of the outcome with this number, as `OutOfMemory` or, of 43, `Busy`, where the buffer is long enough.
///
/// `UnknownNumber` where no outcome has it, `BufferTooShort`: then nothing is copied.
#[unsafe(no_mangle)]
pub extern "C" fn vorgushan_outcome_name(number: u32, name: &mut [u8], wanted: &mut usize) -> u32
    ensures { IsNamedBy number result name.old name.new wanted.new }
{
    if number == BUSY {
        return copied_as(Outcome::Done, b"Busy", name, wanted).number();
    }
    name_outcome(number, name, wanted).number()
}
