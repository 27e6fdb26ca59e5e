//! Typed calls on keys.
ghost use Rattle.std.specs.Prelude.{◌≡◌, ◌++◌, ◌∷◌, [], IfErr, OnErr, OnOk};
ghost use Rattle.typed_calls.specs.Commands.{caret_name, data_command as data_of, get_command as get_of, increment_command as increment_of, kill_command as kill_of, kill_subscripts_command as kill_subscripts_of, kill_value_command as kill_value_of, lock_command as lock_of_key, lock_of, merge_command as merge_of, name_command as name_of, order_command as order_of, query_command as query_of, set_command as set_of};
ghost use Rattle.typed_calls.specs.Typed.{IsCauseBefore, IsFoundCall, IsJobCause, IsMemory, IsNameCall, IsNameCause, IsNoList, IsNumberCall, IsNumberCause, IsPlaceCause, IsQueryCause, IsRefusedNumber, IsTypedCall, IsValueCall, IsValueCause};

use crate::commands::{
    LockForm, data_command, get_command, increment_command, kill_command, lock_command,
    lock_names_command, merge_command, name_command, order_command, query_command,
};
use crate::steps::{
    run_command, run_found, run_named, run_numbered, run_step, run_valued, set_lent,
};
use collation::{Direction, Job, LONGEST_VALUE};
use command::{Command, Extent};
use embedded::{Embedded, Outcome};
use key_codec::Key;
use lock_name::LockName;
use refusal::Refusal;
use std::alloc::Global;

/// Gives the reference this value, whose bytes are copied.
///
/// Outcomes: those of `run_command`; before the step `ValueTooLong` over 32,767 bytes, and `OutOfMemory`.
pub fn set(engine: &mut Embedded, alloc: Global, job: u64, key: &Key, value: &[u8]) -> Outcome
    ensures { IsTypedCall (λ refusal. IsCauseBefore (IsValueCause value.now) job refusal) job (set_of key.now value.now) engine.old engine.new result }
{
    if value.len() > LONGEST_VALUE {
        return Outcome::Refused(Refusal::ValueTooLong);
    }
    match Job::new(job) {
        Ok(job) => set_lent(engine, alloc, job, key, value),
        Err(refusal) => Outcome::Refused(refusal),
    }
}

/// Removes the reference and all below it.
///
/// Outcomes: those of `run_command`; before the step `OutOfMemory`.
pub fn kill(engine: &mut Embedded, job: u64, key: &Key) -> Outcome
    ensures { IsTypedCall (λ refusal. IsCauseBefore IsMemory job refusal) job (kill_of key.now) engine.old engine.new result }
{
    match kill_command(key, Extent::All) {
        Ok(command) => run_command(engine, job, command),
        Err(refusal) => Outcome::Refused(refusal),
    }
}

/// Removes the reference's value, and nothing below it.
///
/// Outcomes: those of `run_command`; before the step `OutOfMemory`.
pub fn kill_value(engine: &mut Embedded, job: u64, key: &Key) -> Outcome
    ensures { IsTypedCall (λ refusal. IsCauseBefore IsMemory job refusal) job (kill_value_of key.now) engine.old engine.new result }
{
    match kill_command(key, Extent::Value) {
        Ok(command) => run_command(engine, job, command),
        Err(refusal) => Outcome::Refused(refusal),
    }
}

/// Removes all below the reference, and not its value.
///
/// Outcomes: those of `run_command`; before the step `OutOfMemory`.
pub fn kill_subscripts(engine: &mut Embedded, job: u64, key: &Key) -> Outcome
    ensures { IsTypedCall (λ refusal. IsCauseBefore IsMemory job refusal) job (kill_subscripts_of key.now) engine.old engine.new result }
{
    match kill_command(key, Extent::Below) {
        Ok(command) => run_command(engine, job, command),
        Err(refusal) => Outcome::Refused(refusal),
    }
}

/// Copies what is at and under `from` to the same places under `to`.
///
/// Outcomes: those of `run_command`; before the step `OutOfMemory`.
pub fn merge(engine: &mut Embedded, job: u64, to: &Key, from: &Key) -> Outcome
    ensures { IsTypedCall (λ refusal. IsCauseBefore IsMemory job refusal) job (merge_of to.now from.now) engine.old engine.new result }
{
    match merge_command(to, from) {
        Ok(command) => run_command(engine, job, command),
        Err(refusal) => Outcome::Refused(refusal),
    }
}

/// Tells 1 where the reference has a value, and 10 more where a descendant has one.
///
/// Outcomes: those of `run_command`; before the step `OutOfMemory`. 0 is told where it is refused.
pub fn data(engine: &mut Embedded, job: u64, key: &Key, number: &mut u64) -> Outcome
    ensures { IsNumberCall (λ refusal. IsCauseBefore IsMemory job refusal) job (data_of key.now) engine.old engine.new result number.new }
{
    match data_command(key) {
        Ok(command) => run_numbered(engine, job, command, number),
        Err(refusal) => {
            *number = 0;
            Outcome::Refused(refusal)
        }
    }
}

/// Does a LOCK of the key's name, with its caret, and tells 1 where it was had and 0 where another job is in the way.
/// It answers at once.
///
/// Outcomes: those of `run_command`; before the step `OutOfMemory`. 0 is told where it is refused.
pub fn lock(
    engine: &mut Embedded,
    alloc: Global,
    job: u64,
    form: LockForm,
    key: &Key,
    had: &mut u64,
) -> Outcome
    ensures { IsNumberCall (λ refusal. IsCauseBefore IsMemory job refusal) job (lock_of_key form key.now) engine.old engine.new result had.new }
{
    match lock_command(alloc, form, key) {
        Ok(command) => run_numbered(engine, job, command, had),
        Err(refusal) => {
            *had = 0;
            Outcome::Refused(refusal)
        }
    }
}

/// Puts a key's name, with its caret, behind those of a list for `lock_names`.
///
/// `OutOfMemory`, and the list is as it was.
pub fn push_name(names: &mut Vec<LockName>, key: &Key) -> Result<(), Refusal>
    ensures pushed { OnOk result (names.new.items ≡ names.old.items ++ caret_name key.now ∷ []) }
    ensures kept { OnErr result (names.new.items ≡ names.old.items) }
    ensures refused { IfErr result (λ refusal. IsMemory refusal) }
{
    let key = key.clone()?;
    names.push(LockName::new(true, key))?;
    Ok(())
}

/// Does a LOCK of names at once, and tells 1 where all of them were had. Where another job is in the way of one, it
/// tells 0, and none was had. It answers at once.
///
/// Outcomes: those of `run_numbered`; before the step `BadLine` where there are no names, since such a LOCK has no line.
pub fn lock_names(
    engine: &mut Embedded,
    job: u64,
    form: LockForm,
    names: Vec<LockName>,
    had: &mut u64,
) -> Outcome
    ensures called { (names.items ≡ [] → ⊥) → IsNumberCall (λ refusal. IsJobCause job refusal) job (Command.Lock (lock_of form names.items)) engine.old engine.new result had.new }
    ensures unnamed { names.items ≡ [] → IsRefusedNumber IsNoList engine.old engine.new result had.new }
{
    if names.is_empty() {
        *had = 0;
        return Outcome::Refused(Refusal::BadLine);
    }
    run_numbered(engine, job, lock_names_command(form, names), had)
}

/// Copies the bytes of the reference's value, or none where it has none, and tells how many they are.
///
/// Outcomes: those of `run_command` and `copy_value`; before the step `OutOfMemory`. After `BufferTooShort` the value
/// is kept, and `copy_value` copies it.
pub fn get(
    engine: &mut Embedded,
    job: u64,
    key: &Key,
    buffer: &mut [u8],
    wanted: &mut usize,
) -> Outcome
    ensures { IsValueCall (λ refusal. IsCauseBefore IsMemory job refusal) job (get_of key.now) engine.old engine.new result buffer.old buffer.new wanted.new }
{
    match get_command(key) {
        Ok(command) => run_valued(engine, job, command, buffer, wanted),
        Err(refusal) => {
            *wanted = 0;
            Outcome::Refused(refusal)
        }
    }
}

/// Adds a canonic number to the number that the reference's value begins with, copies the bytes of the sum, which is
/// the value from then on, and tells how many they are.
///
/// Outcomes: those of `run_command`, as `SumTooLong`, and `copy_value`; before the step `BadLine` where the number isn't
/// canonic, `ValueTooLong` over 32,767 bytes, and `OutOfMemory`. After `BufferTooShort` the sum is kept, and `copy_value`
/// copies it.
pub fn increment(
    engine: &mut Embedded,
    alloc: Global,
    job: u64,
    key: &Key,
    number: &[u8],
    buffer: &mut [u8],
    wanted: &mut usize,
) -> Outcome
    ensures { IsValueCall (λ refusal. IsCauseBefore (IsNumberCause number.now) job refusal) job (increment_of key.now number.now) engine.old engine.new result buffer.old buffer.new wanted.new }
{
    match increment_command(alloc, key, number) {
        Ok(command) => run_valued(engine, job, command, buffer, wanted),
        Err(refusal) => {
            *wanted = 0;
            Outcome::Refused(refusal)
        }
    }
}

/// Copies the bytes of the subscript one level below the key that comes next to `start`, or none where there is none,
/// and tells how many they are. `start` need not be there; an empty one asks for the first, backward for the last.
///
/// Outcomes: those of `run_command` and `copy_value`; before the step `TooManySubscripts` below a key with 31,
/// `SubscriptTooLong` where `start` has over 255 bytes, and `OutOfMemory`. After `BufferTooShort` the subscript is
/// kept, and `copy_value` copies it.
pub fn order(
    engine: &mut Embedded,
    alloc: Global,
    job: u64,
    level: &Key,
    start: &[u8],
    direction: Direction,
    buffer: &mut [u8],
    wanted: &mut usize,
) -> Outcome
    ensures { IsValueCall (λ refusal. IsCauseBefore (IsPlaceCause level.now start.now) job refusal) job (order_of level.now start.now direction) engine.old engine.new result buffer.old buffer.new wanted.new }
{
    match order_command(alloc, level, start, direction) {
        Ok(command) => run_valued(engine, job, command, buffer, wanted),
        Err(refusal) => {
            *wanted = 0;
            Outcome::Refused(refusal)
        }
    }
}

/// Moves the key to the nearest node with a value, in the same name. Where `is_open`, an empty subscript follows the
/// key: backward that is behind all under it, forward it makes no difference.
///
/// Outcomes: those of `run_command`; before the step `TooManySubscripts` where an empty subscript would follow a key with
/// 31, and `OutOfMemory`; `AtEnd` where no node is left; `ReplyKept` where memory is refused for a key of over 38 bytes:
/// the step is done. After all of these the key is as it was.
pub fn query(
    engine: &mut Embedded,
    job: u64,
    key: &mut Key,
    is_open: bool,
    direction: Direction,
) -> Outcome
    ensures { IsFoundCall (λ refusal. IsCauseBefore (IsQueryCause key.old is_open) job refusal) job (query_of key.old is_open direction) engine.old engine.new key.old key.new result }
{
    match query_command(key, is_open, direction) {
        Ok(command) => run_found(engine, job, command, key),
        Err(refusal) => Outcome::Refused(refusal),
    }
}

/// Copies the next name after `start`, or backward the one before it, under which a node has a value, without its caret,
/// and tells how long it is, at most 31. `start` needs no node; an empty one asks for the first, backward for the last.
///
/// Outcomes: those of `run_command`; before the step `BadName` where `start` is neither empty nor a name, and
/// `OutOfMemory`; `AtEnd` where no name is left; `BufferTooShort`: the step is done, and nothing is copied.
pub fn next_name(
    engine: &mut Embedded,
    alloc: Global,
    job: u64,
    start: &[u8],
    direction: Direction,
    buffer: &mut [u8],
    wanted: &mut usize,
) -> Outcome
    ensures { IsNameCall (λ refusal. IsCauseBefore (IsNameCause start.now) job refusal) job (name_of start.now direction) engine.old engine.new result buffer.old buffer.new wanted.new }
{
    match name_command(alloc, start, direction) {
        Ok(command) => run_named(engine, job, command, buffer, wanted),
        Err(refusal) => {
            *wanted = 0;
            Outcome::Refused(refusal)
        }
    }
}
