//! Calls of a session on keys.
ghost use Rattle.std.specs.Prelude.{◌≡◌, ⊤, IfErr, IfOk, OnOk};
ghost use Rattle.command.specs.declared.request.Command.{Command};
ghost use Rattle.typed_calls.specs.Commands.{data_command as data_of, get_command as get_of, increment_command as increment_of, merge_command as merge_of, name_command as name_of, order_command as order_of, query_command as query_of, set_command as set_of};
ghost use Rattle.typed_calls.specs.Typed.{IsFoundTaken, IsMemory, IsNameCause, IsNameCopied, IsNumberCause, IsPlaceCause, IsQueryCause, IsValueCause, IsValueCopied, IsWithin, last_number as number_in, last_outcome as outcome_in};
ghost use Rattle.session_calls.specs.Calls.{IsCall, IsNoCause, IsStepOrNone};

use crate::seat::Seat;
use crate::steps::step;
use collation::{Direction, LONGEST_VALUE, Text};
use command::{Command, DataCommand, Extent};
use embedded::{Answered, Outcome};
use hub::Busy;
use key_codec::Key;
use refusal::Refusal;
use std::alloc::Global;
use typed_calls::{
    copy_name, copy_value, data_command, get_command, increment_command, kill_command, last_number,
    merge_command, name_command, order_command, query_command, take_found,
};

// Does a command of the session, and keeps its reply in the place of the last one; tells whether there is a session.
fn keep(seat: &mut Seat, command: Command) -> Result<bool, Busy>
    ensures { IsStepOrNone command seat.old seat.new result }
{
    let Some(session) = &mut seat.session else {
        drop(command);
        return Ok(false);
    };
    let job = session.job();
    let reply = step(session, command)?;
    seat.last = Some(Answered {
        job: Some(job),
        reply,
    });
    Ok(true)
}

// What the last reply tells.
fn told(last: &Option<Answered>) -> Outcome
    ensures { result ≡ outcome_in last.now }
{
    match last {
        Some(answered) => Outcome::of(&answered.reply),
        None => Outcome::NoReply,
    }
}

/// Does a command of the session, and keeps its reply in the place of the last one.
///
/// Outcomes: the reply's own; HALT is none of these commands, and is refused as `BadLine`. `NoEngine` where the seat has
/// no session, `Busy` where the command needs what all share and others are at that, and then nothing has changed.
pub fn run(seat: &mut Seat, command: Command) -> Result<Outcome, Busy>
    ensures { IsCall IsNoCause command (λ last outcome. outcome ≡ outcome_in last) ⊤ seat.old seat.new result }
{
    if keep(seat, command)? {
        Ok(told(&seat.last))
    } else {
        Ok(Outcome::NoEngine)
    }
}

/// Does a command of the session as `run`, and tells the number that its reply has: 1 where the names of a LOCK were
/// had, the level that TSTART or an inner TCOMMIT leaves, how often a transaction was restarted. 0 where it has none.
pub fn run_numbered(seat: &mut Seat, command: Command, number: &mut u64) -> Result<Outcome, Busy>
    ensures { IsCall IsNoCause command (λ last outcome. (outcome ≡ outcome_in last) × (number.new ≡ number_in last)) (number.new ≡ 0) seat.old seat.new result }
{
    *number = 0;
    if keep(seat, command)? {
        *number = last_number(&seat.last);
        Ok(told(&seat.last))
    } else {
        Ok(Outcome::NoEngine)
    }
}

// SET of a copy of these bytes.
fn set_command(alloc: Global, key: &Key, value: &[u8]) -> Result<Command, Refusal>
    ensures ok { IfOk result (λ command. command ≡ set_of key.now value.now) }
    ensures within { OnOk result (IsWithin (λ refusal. IsValueCause value.now refusal)) }
    ensures err { IfErr result (λ refusal. IsValueCause value.now refusal) }
{
    if value.len() > LONGEST_VALUE {
        return Err(Refusal::ValueTooLong);
    }
    let key = key.clone()?;
    let value = Text::from_slice(alloc, value)?;
    Ok(Command::Access(DataCommand::Set(key, value)))
}

/// Gives the reference this value, whose bytes are copied.
///
/// Outcomes: those of `run`; before the step `ValueTooLong` over 32,767 bytes, and `OutOfMemory`.
pub fn set(seat: &mut Seat, alloc: Global, key: &Key, value: &[u8]) -> Result<Outcome, Busy>
    ensures { IsCall (IsValueCause value.now) (set_of key.now value.now) (λ last outcome. outcome ≡ outcome_in last) ⊤ seat.old seat.new result }
{
    match set_command(alloc, key, value) {
        Ok(command) => run(seat, command),
        Err(refusal) => Ok(Outcome::Refused(refusal)),
    }
}

/// Removes what the extent takes of the reference and its descendants.
///
/// Outcomes: those of `run`; before the step `OutOfMemory`.
pub fn kill(seat: &mut Seat, key: &Key, extent: Extent) -> Result<Outcome, Busy>
    ensures { IsCall IsMemory (Command.Access (DataCommand.Kill key.now extent)) (λ last outcome. outcome ≡ outcome_in last) ⊤ seat.old seat.new result }
{
    match kill_command(key, extent) {
        Ok(command) => run(seat, command),
        Err(refusal) => Ok(Outcome::Refused(refusal)),
    }
}

/// Copies what is at and under `from` to the same places under `to`.
///
/// Outcomes: those of `run`; before the step `OutOfMemory`.
pub fn merge(seat: &mut Seat, to: &Key, from: &Key) -> Result<Outcome, Busy>
    ensures { IsCall IsMemory (merge_of to.now from.now) (λ last outcome. outcome ≡ outcome_in last) ⊤ seat.old seat.new result }
{
    match merge_command(to, from) {
        Ok(command) => run(seat, command),
        Err(refusal) => Ok(Outcome::Refused(refusal)),
    }
}

/// Tells 1 where the reference has a value, and 10 more where a descendant has one.
///
/// Outcomes: those of `run`; before the step `OutOfMemory`. 0 is told where it is refused.
pub fn data(seat: &mut Seat, key: &Key, number: &mut u64) -> Result<Outcome, Busy>
    ensures { IsCall IsMemory (data_of key.now) (λ last outcome. (outcome ≡ outcome_in last) × (number.new ≡ number_in last)) (number.new ≡ 0) seat.old seat.new result }
{
    match data_command(key) {
        Ok(command) => run_numbered(seat, command, number),
        Err(refusal) => {
            *number = 0;
            Ok(Outcome::Refused(refusal))
        }
    }
}

// Does a command of the session, and copies the value that its reply has.
fn run_valued(
    seat: &mut Seat,
    command: Command,
    buffer: &mut [u8],
    wanted: &mut usize,
) -> Result<Outcome, Busy>
    ensures { IsCall IsNoCause command (λ last outcome. IsValueCopied last outcome buffer.old buffer.new wanted.new) ((buffer.new ≡ buffer.old) × (wanted.new ≡ 0)) seat.old seat.new result }
{
    *wanted = 0;
    if keep(seat, command)? {
        Ok(copy_value(&seat.last, buffer, wanted))
    } else {
        Ok(Outcome::NoEngine)
    }
}

/// Copies the bytes of the reference's value, or none where it has none, and tells how many they are.
///
/// Outcomes: those of `run` and `copy_value`; before the step `OutOfMemory`. After `BufferTooShort` the value is kept,
/// and `copy_value` copies it.
pub fn get(
    seat: &mut Seat,
    key: &Key,
    buffer: &mut [u8],
    wanted: &mut usize,
) -> Result<Outcome, Busy>
    ensures { IsCall IsMemory (get_of key.now) (λ last outcome. IsValueCopied last outcome buffer.old buffer.new wanted.new) ((buffer.new ≡ buffer.old) × (wanted.new ≡ 0)) seat.old seat.new result }
{
    match get_command(key) {
        Ok(command) => run_valued(seat, command, buffer, wanted),
        Err(refusal) => {
            *wanted = 0;
            Ok(Outcome::Refused(refusal))
        }
    }
}

/// Adds a canonic number to the number that the reference's value begins with, copies the bytes of the sum, which is
/// the value from then on, and tells how many they are.
///
/// Outcomes: those of `run`, as `SumTooLong`, and `copy_value`; before the step `BadLine` where the number isn't
/// canonic, `ValueTooLong` over 32,767 bytes, and `OutOfMemory`. After `BufferTooShort` the sum is kept, and `copy_value`
/// copies it.
pub fn increment(
    seat: &mut Seat,
    alloc: Global,
    key: &Key,
    number: &[u8],
    buffer: &mut [u8],
    wanted: &mut usize,
) -> Result<Outcome, Busy>
    ensures { IsCall (IsNumberCause number.now) (increment_of key.now number.now) (λ last outcome. IsValueCopied last outcome buffer.old buffer.new wanted.new) ((buffer.new ≡ buffer.old) × (wanted.new ≡ 0)) seat.old seat.new result }
{
    match increment_command(alloc, key, number) {
        Ok(command) => run_valued(seat, command, buffer, wanted),
        Err(refusal) => {
            *wanted = 0;
            Ok(Outcome::Refused(refusal))
        }
    }
}

/// Copies the bytes of the subscript one level below the key that comes next to `start`, or none where there is none,
/// and tells how many they are. `start` need not be there; an empty one asks for the first, backward for the last.
///
/// Outcomes: those of `run` and `copy_value`; before the step `TooManySubscripts` below a key with 31,
/// `SubscriptTooLong` where `start` has over 255 bytes, and `OutOfMemory`. After `BufferTooShort` the subscript is
/// kept, and `copy_value` copies it.
pub fn order(
    seat: &mut Seat,
    alloc: Global,
    level: &Key,
    start: &[u8],
    direction: Direction,
    buffer: &mut [u8],
    wanted: &mut usize,
) -> Result<Outcome, Busy>
    ensures { IsCall (IsPlaceCause level.now start.now) (order_of level.now start.now direction) (λ last outcome. IsValueCopied last outcome buffer.old buffer.new wanted.new) ((buffer.new ≡ buffer.old) × (wanted.new ≡ 0)) seat.old seat.new result }
{
    match order_command(alloc, level, start, direction) {
        Ok(command) => run_valued(seat, command, buffer, wanted),
        Err(refusal) => {
            *wanted = 0;
            Ok(Outcome::Refused(refusal))
        }
    }
}

// Does a command of the session, and puts the reference that its reply has in the key's place.
fn run_found(seat: &mut Seat, command: Command, key: &mut Key) -> Result<Outcome, Busy>
    ensures { IsCall IsNoCause command (λ last outcome. IsFoundTaken last key.old key.new outcome) (key.new ≡ key.old) seat.old seat.new result }
{
    if keep(seat, command)? {
        Ok(take_found(&seat.last, key))
    } else {
        Ok(Outcome::NoEngine)
    }
}

/// Moves the key to the nearest node with a value, in the same name. Where `is_open`, an empty subscript follows the
/// key: backward that is behind all under it, forward it makes no difference.
///
/// Outcomes: those of `run`; before the step `TooManySubscripts` where an empty subscript would follow a key with 31, and
/// `OutOfMemory`; `AtEnd` where no node is left; `ReplyKept` where memory is refused for a key of over 38 bytes: the step
/// is done. After all of these the key is as it was.
pub fn query(
    seat: &mut Seat,
    key: &mut Key,
    is_open: bool,
    direction: Direction,
) -> Result<Outcome, Busy>
    ensures { IsCall (IsQueryCause key.old is_open) (query_of key.old is_open direction) (λ last outcome. IsFoundTaken last key.old key.new outcome) (key.new ≡ key.old) seat.old seat.new result }
{
    match query_command(key, is_open, direction) {
        Ok(command) => run_found(seat, command, key),
        Err(refusal) => Ok(Outcome::Refused(refusal)),
    }
}

// Does a command of the session, and copies the name of the reference that its reply has.
fn run_named(
    seat: &mut Seat,
    command: Command,
    buffer: &mut [u8],
    wanted: &mut usize,
) -> Result<Outcome, Busy>
    ensures { IsCall IsNoCause command (λ last outcome. IsNameCopied last outcome buffer.old buffer.new wanted.new) ((buffer.new ≡ buffer.old) × (wanted.new ≡ 0)) seat.old seat.new result }
{
    *wanted = 0;
    if keep(seat, command)? {
        Ok(copy_name(&seat.last, buffer, wanted))
    } else {
        Ok(Outcome::NoEngine)
    }
}

/// Copies the next name after `start`, or backward the one before it, under which a node has a value, without its caret,
/// and tells how long it is, at most 31. `start` needs no node; an empty one asks for the first, backward for the last.
///
/// Outcomes: those of `run`; before the step `BadName` where `start` is neither empty nor a name, and `OutOfMemory`;
/// `AtEnd` where no name is left; `BufferTooShort`: the step is done, and nothing is copied.
pub fn next_name(
    seat: &mut Seat,
    alloc: Global,
    start: &[u8],
    direction: Direction,
    buffer: &mut [u8],
    wanted: &mut usize,
) -> Result<Outcome, Busy>
    ensures { IsCall (IsNameCause start.now) (name_of start.now direction) (λ last outcome. IsNameCopied last outcome buffer.old buffer.new wanted.new) ((buffer.new ≡ buffer.old) × (wanted.new ≡ 0)) seat.old seat.new result }
{
    match name_command(alloc, start, direction) {
        Ok(command) => run_named(seat, command, buffer, wanted),
        Err(refusal) => {
            *wanted = 0;
            Ok(Outcome::Refused(refusal))
        }
    }
}
