//! Looks at the database of a moment by keys, and the views that such a moment may be.
ghost use Rattle.std.specs.Prelude.{◌≡◌, false};
ghost use Rattle.command.specs.declared.request.Command.TheVariants.{Level, Restarts};
ghost use Rattle.command.specs.declared.request.Reply.{Reply};
ghost use Rattle.journal.specs.Story.{told};
ghost use Rattle.typed_calls.specs.Looks.{IsAsked, IsChildrenLook, IsNumberLook, IsOrderLook, IsQueryLook, IsViewBegun};

use crate::commands::place_at;
use crate::keys::place_below;
use crate::steps::{number_of, run_step};
use collation::{Direction, Job};
use command::Command;
use embedded::{Embedded, Outcome};
use key_codec::Key;
use std::alloc::Global;

/// Begins a view for a job that has no open transaction: a TSTART, after which the job's number is a moment for looks.
/// What they see stays as it is now, until the transaction is over; a TROLLBACK ends it. Neither leaves a unit.
///
/// Outcomes: those of `run_command`; `TransactionOpen` where the job has an open transaction already, and then nothing
/// has changed.
pub fn begin_view(engine: &mut Embedded, job: u64) -> Outcome
    ensures { IsViewBegun job engine.old engine.new result }
{
    match Job::new(job) {
        Ok(job) => {
            if engine.core.is_inside(job) {
                Outcome::TransactionOpen
            } else {
                run_step(engine, job, Command::Start)
            }
        }
        Err(refusal) => Outcome::Refused(refusal),
    }
}

/// Copies the bytes of the subscript that `order` would answer, in the database of a moment; it is no command.
///
/// Outcomes: those of `Embedded::look_order`; before the look those of `order`.
pub fn look_order(
    engine: &Embedded,
    alloc: Global,
    moment: u64,
    level: &Key,
    start: &[u8],
    direction: Direction,
    buffer: &mut [u8],
    wanted: &mut usize,
) -> Outcome
    ensures { IsOrderLook moment engine.now.core.machine level.now start.now direction result buffer.old buffer.new wanted.new }
{
    match place_below(alloc, level, start) {
        Ok(place) => engine.look_order(alloc, moment, &place, direction, buffer, wanted),
        Err(refusal) => {
            *wanted = 0;
            Outcome::Refused(refusal)
        }
    }
}

/// Moves the key to the node that `query` would answer, in the database of a moment; it is no command.
///
/// Outcomes: those of `Embedded::look_query`; before the look those of `query`.
pub fn look_query(
    engine: &Embedded,
    moment: u64,
    key: &mut Key,
    is_open: bool,
    direction: Direction,
) -> Outcome
    ensures { IsQueryLook moment engine.now.core.machine key.old is_open direction key.new result }
{
    match place_at(key, is_open) {
        Ok(place) => engine.look_query(moment, &place, direction, key),
        Err(refusal) => Outcome::Refused(refusal),
    }
}

/// Copies the children of a key that come after `start`, in the database of a moment, as many as the buffer has room for:
/// of each its subscript, its value, and what $DATA tells of it. `start` need not be there; an empty one asks for the
/// first. It is no command.
///
/// Outcomes: those of `Embedded::copy_children`; before the look those of `order`.
pub fn look_children(
    engine: &mut Embedded,
    alloc: Global,
    moment: u64,
    level: &Key,
    start: &[u8],
    buffer: &mut [u8],
    wanted: &mut usize,
) -> Outcome
    ensures { IsChildrenLook moment level.now start.now engine.old engine.new result buffer.old buffer.new wanted.new }
{
    match place_below(alloc, level, start) {
        Ok(place) => engine.copy_children(alloc, moment, &place, buffer, wanted),
        Err(refusal) => {
            *wanted = 0;
            Outcome::Refused(refusal)
        }
    }
}

// Tells what a job's command is replied that changes nothing, and doesn't keep the reply.
fn ask(engine: &mut Embedded, job: Job, command: Command, number: &mut u64) -> Outcome
    requires { (reply : Reply) → told job command reply engine.old.core.machine ≡ engine.old.core.machine }
    ensures { IsAsked job command engine.old engine.new result number.new }
{
    let reply = engine.core.step(job, command);
    *number = number_of(&reply);
    Outcome::of(&reply)
}

/// Tells a job's $TLEVEL: how deep its transaction is, 1 to 127, and 0 where it has none. It is no command: no unit,
/// and the last reply stays. Takes no memory.
///
/// `BadJob` where the job isn't 1 to 4,096: then 0 is told.
///
/// Source: ISO/IEC 11756:1999, $TLEVEL.
pub fn level(engine: &mut Embedded, job: u64, number: &mut u64) -> Outcome
    ensures { IsNumberLook job Level engine.old engine.new result number.new }
{
    match Job::new(job) {
        Ok(job) => ask(engine, job, Command::Level, number),
        Err(refusal) => {
            *number = 0;
            Outcome::Refused(refusal)
        }
    }
}

/// Tells a job's $TRESTART: how often its transaction was restarted, and 0 where it has none. It is no command, as
/// `level`. The count saturates at 2^64 - 1.
///
/// `BadJob` where the job isn't 1 to 4,096: then 0 is told.
///
/// Source: ISO/IEC 11756:1999, $TRESTART.
pub fn restarts(engine: &mut Embedded, job: u64, number: &mut u64) -> Outcome
    ensures { IsNumberLook job Restarts engine.old engine.new result number.new }
{
    match Job::new(job) {
        Ok(job) => ask(engine, job, Command::Restarts, number),
        Err(refusal) => {
            *number = 0;
            Outcome::Refused(refusal)
        }
    }
}
