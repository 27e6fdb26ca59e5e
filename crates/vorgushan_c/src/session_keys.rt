//! What C calls on a session of many threads and keys. Each of them is declared in `include/vorgushan_threads.h`, with its
//! meaning for a C programmer.
ghost use Rattle.std.specs.Prelude.{◌≡◌, ⊤};
ghost use Rattle.command.specs.declared.request.Command.{Command};
ghost use Rattle.command.specs.declared.access.DataCommand.{DataCommand};
ghost use Rattle.typed_calls.specs.Commands.{data_command, get_command, increment_command, merge_command, name_command, order_command, query_command, set_command};
ghost use Rattle.typed_calls.specs.Typed.{IsFoundTaken, IsMemory, IsNameCause, IsNameCopied, IsNumberCause, IsPlaceCause, IsQueryCause, IsValueCause, IsValueCopied, last_number, last_outcome};
ghost use Rattle.session_calls.specs.Calls.{IsCall};
ghost use Rattle.vorgushan_c.specs.Keys as keys;
ghost use Rattle.vorgushan_c.specs.Keys.{IsMoved};
ghost use Rattle.vorgushan_c.specs.Sessions as spec;
ghost use Rattle.vorgushan_c.specs.Sessions.{IsSeatCalled, IsSeatKeyCalled, IsSeatKeysCalled};

use crate::key_handle::VgKey;
use crate::seat_handle::VgSession;
use crate::sessions::number_of;
use crate::typed::direction_of;
use command::Extent;
use embedded::Outcome;
use session_calls::{data, get, increment, kill, merge, next_name, order, query, set};
use std::alloc::Global;
use typed_calls::copy_value;

/// Gives a key's reference a value, whose bytes are copied.
///
/// Outcomes: as of `session_calls::set`; `NoEngine`, `NoKey`, and nothing has changed.
#[unsafe(no_mangle)]
pub extern "C" fn vorgushan_s_set(
    alloc: Global,
    session: &mut VgSession,
    key: &mut VgKey,
    value: &[u8],
) -> u32
    ensures called { IsSeatKeyCalled session.old.inside session.new.inside key.old.inside result ⊤ (λ reference before after answered.
        IsCall (IsValueCause value.now) (set_command reference value.now) (λ last outcome. outcome ≡ last_outcome last) ⊤ before after answered) }
    ensures key { key.new.inside ≡ key.old.inside }
{
    let Some(mut there) = session.take(alloc) else {
        return Outcome::NoEngine.number();
    };
    let Some(at) = key.take(alloc) else {
        session.put(there);
        return Outcome::NoKey.number();
    };
    let answered = set(&mut there, alloc, &at, value);
    key.put(at);
    session.put(there);
    number_of(answered)
}

// 0 is KILL, 1 KVALUE, and any other number KSUBSCRIPTS.
fn extent_of(extent: u32) -> Extent
    ensures { result ≡ spec.extent_of extent }
{
    match extent {
        0 => Extent::All,
        1 => Extent::Value,
        _ => Extent::Below,
    }
}

/// KILL, KVALUE or KSUBSCRIPTS (0, 1, and any other number) of a key's reference.
///
/// Outcomes: as of `session_calls::kill`; `NoEngine`, `NoKey`, and nothing has changed.
#[unsafe(no_mangle)]
pub extern "C" fn vorgushan_s_kill(
    alloc: Global,
    session: &mut VgSession,
    extent: u32,
    key: &mut VgKey,
) -> u32
    ensures called { IsSeatKeyCalled session.old.inside session.new.inside key.old.inside result ⊤ (λ reference before after answered.
        IsCall IsMemory (Command.Access (DataCommand.Kill reference (spec.extent_of extent))) (λ last outcome. outcome ≡ last_outcome last) ⊤ before after answered) }
    ensures key { key.new.inside ≡ key.old.inside }
{
    let Some(mut there) = session.take(alloc) else {
        return Outcome::NoEngine.number();
    };
    let Some(at) = key.take(alloc) else {
        session.put(there);
        return Outcome::NoKey.number();
    };
    let extent = extent_of(extent);
    let answered = kill(&mut there, &at, extent);
    key.put(at);
    session.put(there);
    number_of(answered)
}

/// Copies the bytes of the value of a key's reference, none where it has none.
///
/// Outcomes: as of `session_calls::get`; `NoEngine`, `NoKey`, and nothing has changed.
#[unsafe(no_mangle)]
pub extern "C" fn vorgushan_s_get(
    alloc: Global,
    session: &mut VgSession,
    key: &mut VgKey,
    value: &mut [u8],
    wanted: &mut usize,
) -> u32
    ensures called { IsSeatKeyCalled session.old.inside session.new.inside key.old.inside result ((value.new ≡ value.old) × (wanted.new ≡ wanted.old)) (λ reference before after answered.
        IsCall IsMemory (get_command reference) (λ last outcome. IsValueCopied last outcome value.old value.new wanted.new) ((value.new ≡ value.old) × (wanted.new ≡ 0)) before after answered) }
    ensures key { key.new.inside ≡ key.old.inside }
{
    let Some(mut there) = session.take(alloc) else {
        return Outcome::NoEngine.number();
    };
    let Some(at) = key.take(alloc) else {
        session.put(there);
        return Outcome::NoKey.number();
    };
    let answered = get(&mut there, &at, value, wanted);
    key.put(at);
    session.put(there);
    number_of(answered)
}

/// Copies the value of the last reply once more: what `vorgushan_s_get`, `_increment` or `_order` had no room for.
///
/// Outcomes: as of `typed_calls::copy_value`; `NoEngine`.
#[unsafe(no_mangle)]
pub extern "C" fn vorgushan_s_copy(
    alloc: Global,
    session: &mut VgSession,
    value: &mut [u8],
    wanted: &mut usize,
) -> u32
    ensures { IsSeatCalled session.old.inside session.new.inside result ((value.new ≡ value.old) × (wanted.new ≡ wanted.old)) (λ before after answered.
        (after ≡ before) × spec.IsCopiedAgain before.last answered value.old value.new wanted.new) }
{
    let Some(there) = session.take(alloc) else {
        return Outcome::NoEngine.number();
    };
    let outcome = copy_value(&there.last, value, wanted);
    session.put(there);
    outcome.number()
}

/// Copies what is at and under one key's reference to the same places under another's.
///
/// Outcomes: as of `session_calls::merge`; `NoEngine`, `NoKey`, and nothing has changed.
#[unsafe(no_mangle)]
pub extern "C" fn vorgushan_s_merge(
    alloc: Global,
    session: &mut VgSession,
    to: &mut VgKey,
    from: &mut VgKey,
) -> u32
    ensures called { IsSeatKeysCalled session.old.inside session.new.inside to.old.inside from.old.inside result (λ target source before after answered.
        IsCall IsMemory (merge_command target source) (λ last outcome. outcome ≡ last_outcome last) ⊤ before after answered) }
    ensures to { to.new.inside ≡ to.old.inside }
    ensures from { from.new.inside ≡ from.old.inside }
{
    let Some(mut there) = session.take(alloc) else {
        return Outcome::NoEngine.number();
    };
    let Some(target) = to.take(alloc) else {
        session.put(there);
        return Outcome::NoKey.number();
    };
    let Some(source) = from.take(alloc) else {
        to.put(target);
        session.put(there);
        return Outcome::NoKey.number();
    };
    let answered = merge(&mut there, &target, &source);
    from.put(source);
    to.put(target);
    session.put(there);
    number_of(answered)
}

/// Tells 1 where a key's reference has a value, and 10 more where a descendant has one.
///
/// Outcomes: as of `session_calls::data`; `NoEngine`, `NoKey`, and nothing has changed.
#[unsafe(no_mangle)]
pub extern "C" fn vorgushan_s_data(
    alloc: Global,
    session: &mut VgSession,
    key: &mut VgKey,
    number: &mut u64,
) -> u32
    ensures called { IsSeatKeyCalled session.old.inside session.new.inside key.old.inside result (number.new ≡ number.old) (λ reference before after answered.
        IsCall IsMemory (data_command reference) (λ last outcome. (outcome ≡ last_outcome last) × (number.new ≡ last_number last)) (number.new ≡ 0) before after answered) }
    ensures key { key.new.inside ≡ key.old.inside }
{
    let Some(mut there) = session.take(alloc) else {
        return Outcome::NoEngine.number();
    };
    let Some(at) = key.take(alloc) else {
        session.put(there);
        return Outcome::NoKey.number();
    };
    let answered = data(&mut there, &at, number);
    key.put(at);
    session.put(there);
    number_of(answered)
}

/// Adds a canonic number to the number that the value of a key's reference begins with, and copies the bytes of the sum.
///
/// Outcomes: as of `session_calls::increment`; `NoEngine`, `NoKey`, and nothing has changed.
#[unsafe(no_mangle)]
pub extern "C" fn vorgushan_s_increment(
    alloc: Global,
    session: &mut VgSession,
    key: &mut VgKey,
    number: &[u8],
    sum: &mut [u8],
    wanted: &mut usize,
) -> u32
    ensures called { IsSeatKeyCalled session.old.inside session.new.inside key.old.inside result ((sum.new ≡ sum.old) × (wanted.new ≡ wanted.old)) (λ reference before after answered.
        IsCall (IsNumberCause number.now) (increment_command reference number.now) (λ last outcome. IsValueCopied last outcome sum.old sum.new wanted.new) ((sum.new ≡ sum.old) × (wanted.new ≡ 0)) before after answered) }
    ensures key { key.new.inside ≡ key.old.inside }
{
    let Some(mut there) = session.take(alloc) else {
        return Outcome::NoEngine.number();
    };
    let Some(at) = key.take(alloc) else {
        session.put(there);
        return Outcome::NoKey.number();
    };
    let answered = increment(&mut there, alloc, &at, number, sum, wanted);
    key.put(at);
    session.put(there);
    number_of(answered)
}

/// Copies the bytes of the subscript one level below a key that comes next to `start`, none where there is none. Backward
/// where `backward` isn't 0.
///
/// Outcomes: as of `session_calls::order`; `NoEngine`, `NoKey`, and nothing has changed.
#[unsafe(no_mangle)]
pub extern "C" fn vorgushan_s_order(
    alloc: Global,
    session: &mut VgSession,
    key: &mut VgKey,
    start: &[u8],
    backward: u32,
    subscript: &mut [u8],
    wanted: &mut usize,
) -> u32
    ensures called { IsSeatKeyCalled session.old.inside session.new.inside key.old.inside result ((subscript.new ≡ subscript.old) × (wanted.new ≡ wanted.old)) (λ reference before after answered.
        IsCall (IsPlaceCause reference start.now) (order_command reference start.now (keys.direction_of backward)) (λ last outcome. IsValueCopied last outcome subscript.old subscript.new wanted.new) ((subscript.new ≡ subscript.old) × (wanted.new ≡ 0)) before after answered) }
    ensures key { key.new.inside ≡ key.old.inside }
{
    let Some(mut there) = session.take(alloc) else {
        return Outcome::NoEngine.number();
    };
    let Some(at) = key.take(alloc) else {
        session.put(there);
        return Outcome::NoKey.number();
    };
    let direction = direction_of(backward);
    let answered = order(&mut there, alloc, &at, start, direction, subscript, wanted);
    key.put(at);
    session.put(there);
    number_of(answered)
}

/// Moves a key to the nearest node with a value in the same name. Backward where `backward` isn't 0; where `is_open` isn't
/// 0 an empty subscript follows the key, as of `vorgushan_query`.
///
/// Outcomes: as of `session_calls::query`; `NoEngine`, `NoKey`, and nothing has changed.
#[unsafe(no_mangle)]
pub extern "C" fn vorgushan_s_query(
    alloc: Global,
    session: &mut VgSession,
    key: &mut VgKey,
    is_open: u32,
    backward: u32,
) -> u32
    ensures { IsSeatKeyCalled session.old.inside session.new.inside key.old.inside result (key.new.inside ≡ key.old.inside) (λ reference before after answered.
        IsMoved key.new.inside (λ found. IsCall (IsQueryCause reference (keys.is_not_0 is_open)) (query_command reference (keys.is_not_0 is_open) (keys.direction_of backward)) (λ last outcome. IsFoundTaken last reference found outcome) (found ≡ reference) before after answered)) }
{
    let Some(mut there) = session.take(alloc) else {
        return Outcome::NoEngine.number();
    };
    let Some(mut at) = key.take(alloc) else {
        session.put(there);
        return Outcome::NoKey.number();
    };
    let direction = direction_of(backward);
    let answered = query(&mut there, &mut at, is_open != 0, direction);
    key.put(at);
    session.put(there);
    number_of(answered)
}

/// Copies the next name after `start`, or the one before it where `backward` isn't 0, under which a node has a value.
///
/// Outcomes: as of `session_calls::next_name`; `NoEngine`, and nothing has changed.
#[unsafe(no_mangle)]
pub extern "C" fn vorgushan_s_next_name(
    alloc: Global,
    session: &mut VgSession,
    start: &[u8],
    backward: u32,
    name: &mut [u8],
    wanted: &mut usize,
) -> u32
    ensures { IsSeatCalled session.old.inside session.new.inside result ((name.new ≡ name.old) × (wanted.new ≡ wanted.old)) (λ before after answered.
        IsCall (IsNameCause start.now) (name_command start.now (keys.direction_of backward)) (λ last outcome. IsNameCopied last outcome name.old name.new wanted.new) ((name.new ≡ name.old) × (wanted.new ≡ 0)) before after answered) }
{
    let Some(mut there) = session.take(alloc) else {
        return Outcome::NoEngine.number();
    };
    let direction = direction_of(backward);
    let answered = next_name(&mut there, alloc, start, direction, name, wanted);
    session.put(there);
    number_of(answered)
}
