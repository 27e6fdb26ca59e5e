//! What C calls on keys. Each of them is declared in `include/vorgushan.h`, with its meaning for a C programmer.
ghost use Rattle.std.specs.Prelude.{◌≡◌, ◌⊎◌, ⊤};
ghost use Rattle.embedded.specs.Outcomes.{outcome_number};
ghost use Rattle.typed_calls.specs.Commands.{data_command, get_command, kill_command, lock_command, merge_command, order_command, query_command, set_command};
ghost use Rattle.typed_calls.specs.Typed.{IsCauseBefore, IsFoundCall, IsMemory, IsNumberCall, IsPlaceCause, IsQueryCause, IsTypedCall, IsValueCall, IsValueCause};
ghost use Rattle.vorgushan_c.specs.Keys as spec;
ghost use Rattle.vorgushan_c.specs.Keys.{IsKeyCalled, IsKeysCalled, IsMoved};

use crate::handle::VgEngine;
use crate::key_handle::VgKey;
use collation::Direction;
use embedded::Outcome;
use std::alloc::Global;
use typed_calls::{LockForm, data, get, kill, lock, merge, order, query, set};

/// Gives a key's reference a value, whose bytes are copied, in a step of a job.
///
/// Outcomes: as of `typed_calls::set`; `NoEngine`, `NoKey`, and nothing has changed.
#[unsafe(no_mangle)]
pub extern "C" fn vorgushan_set(
    alloc: Global,
    engine: &mut VgEngine,
    job: u64,
    key: &mut VgKey,
    value: &[u8],
) -> u32
    ensures called { IsKeyCalled engine.old.inside engine.new.inside key.old.inside result ⊤ (λ reference before after outcome.
        IsTypedCall (λ refusal. IsCauseBefore (IsValueCause value.now) job refusal) job (set_command reference value.now) before after outcome) }
    ensures key { key.new.inside ≡ key.old.inside }
{
    let Some(mut there) = engine.take(alloc) else {
        return Outcome::NoEngine.number();
    };
    let Some(at) = key.take(alloc) else {
        engine.put(there);
        return Outcome::NoKey.number();
    };
    let outcome = set(&mut there, alloc, job, &at, value);
    key.put(at);
    engine.put(there);
    outcome.number()
}

/// Removes a key's reference and all below it, in a step of a job.
///
/// Outcomes: as of `typed_calls::kill`; `NoEngine`, `NoKey`, and nothing has changed.
#[unsafe(no_mangle)]
pub extern "C" fn vorgushan_kill(
    alloc: Global,
    engine: &mut VgEngine,
    job: u64,
    key: &mut VgKey,
) -> u32
    ensures called { IsKeyCalled engine.old.inside engine.new.inside key.old.inside result ⊤ (λ reference before after outcome.
        IsTypedCall (λ refusal. IsCauseBefore IsMemory job refusal) job (kill_command reference) before after outcome) }
    ensures key { key.new.inside ≡ key.old.inside }
{
    let Some(mut there) = engine.take(alloc) else {
        return Outcome::NoEngine.number();
    };
    let Some(at) = key.take(alloc) else {
        engine.put(there);
        return Outcome::NoKey.number();
    };
    let outcome = kill(&mut there, job, &at);
    key.put(at);
    engine.put(there);
    outcome.number()
}

/// Copies the bytes of the value of a key's reference, none where it has none, in a step of a job.
///
/// Outcomes: as of `typed_calls::get`; `NoEngine`, `NoKey`, and nothing has changed.
#[unsafe(no_mangle)]
pub extern "C" fn vorgushan_get(
    alloc: Global,
    engine: &mut VgEngine,
    job: u64,
    key: &mut VgKey,
    value: &mut [u8],
    wanted: &mut usize,
) -> u32
    ensures called { IsKeyCalled engine.old.inside engine.new.inside key.old.inside result ((value.new ≡ value.old) × (wanted.new ≡ wanted.old)) (λ reference before after outcome.
        IsValueCall (λ refusal. IsCauseBefore IsMemory job refusal) job (get_command reference) before after outcome value.old value.new wanted.new) }
    ensures key { key.new.inside ≡ key.old.inside }
{
    let Some(mut there) = engine.take(alloc) else {
        return Outcome::NoEngine.number();
    };
    let Some(at) = key.take(alloc) else {
        engine.put(there);
        return Outcome::NoKey.number();
    };
    let outcome = get(&mut there, job, &at, value, wanted);
    key.put(at);
    engine.put(there);
    outcome.number()
}

/// Copies what is at and under one key's reference to the same places under another's, in a step of a job.
///
/// Outcomes: as of `typed_calls::merge`; `NoEngine`, `NoKey`, and nothing has changed.
#[unsafe(no_mangle)]
pub extern "C" fn vorgushan_merge(
    alloc: Global,
    engine: &mut VgEngine,
    job: u64,
    to: &mut VgKey,
    from: &mut VgKey,
) -> u32
    ensures called { IsKeysCalled engine.old.inside engine.new.inside to.old.inside from.old.inside result (λ target source before after outcome.
        IsTypedCall (λ refusal. IsCauseBefore IsMemory job refusal) job (merge_command target source) before after outcome) }
    ensures to { to.new.inside ≡ to.old.inside }
    ensures from { from.new.inside ≡ from.old.inside }
{
    let Some(mut there) = engine.take(alloc) else {
        return Outcome::NoEngine.number();
    };
    let Some(target) = to.take(alloc) else {
        engine.put(there);
        return Outcome::NoKey.number();
    };
    let Some(source) = from.take(alloc) else {
        to.put(target);
        engine.put(there);
        return Outcome::NoKey.number();
    };
    let outcome = merge(&mut there, job, &target, &source);
    from.put(source);
    to.put(target);
    engine.put(there);
    outcome.number()
}

/// Tells 1 where a key's reference has a value, and 10 more where a descendant has one, in a step of a job.
///
/// Outcomes: as of `typed_calls::data`; `NoEngine`, `NoKey`, and nothing has changed.
#[unsafe(no_mangle)]
pub extern "C" fn vorgushan_data(
    alloc: Global,
    engine: &mut VgEngine,
    job: u64,
    key: &mut VgKey,
    number: &mut u64,
) -> u32
    ensures called { IsKeyCalled engine.old.inside engine.new.inside key.old.inside result (number.new ≡ number.old) (λ reference before after outcome.
        IsNumberCall (λ refusal. IsCauseBefore IsMemory job refusal) job (data_command reference) before after outcome number.new) }
    ensures key { key.new.inside ≡ key.old.inside }
{
    let Some(mut there) = engine.take(alloc) else {
        return Outcome::NoEngine.number();
    };
    let Some(at) = key.take(alloc) else {
        engine.put(there);
        return Outcome::NoKey.number();
    };
    let outcome = data(&mut there, job, &at, number);
    key.put(at);
    engine.put(there);
    outcome.number()
}

// 0 is forward, and any other number backward.
pub(crate) fn direction_of(backward: u32) -> Direction
    ensures { result ≡ spec.direction_of backward }
{
    if backward == 0 {
        Direction::Forward
    } else {
        Direction::Backward
    }
}

/// Copies the bytes of the subscript one level below a key that comes next to `start`, none where there is none, in a
/// step of a job. Backward where `backward` isn't 0.
///
/// Outcomes: as of `typed_calls::order`; `NoEngine`, `NoKey`, and nothing has changed.
#[unsafe(no_mangle)]
pub extern "C" fn vorgushan_order(
    alloc: Global,
    engine: &mut VgEngine,
    job: u64,
    key: &mut VgKey,
    start: &[u8],
    backward: u32,
    subscript: &mut [u8],
    wanted: &mut usize,
) -> u32
    ensures called { IsKeyCalled engine.old.inside engine.new.inside key.old.inside result ((subscript.new ≡ subscript.old) × (wanted.new ≡ wanted.old)) (λ reference before after outcome.
        IsValueCall (λ refusal. IsCauseBefore (IsPlaceCause reference start.now) job refusal) job (order_command reference start.now (spec.direction_of backward)) before after outcome subscript.old subscript.new wanted.new) }
    ensures key { key.new.inside ≡ key.old.inside }
{
    let Some(mut there) = engine.take(alloc) else {
        return Outcome::NoEngine.number();
    };
    let Some(at) = key.take(alloc) else {
        engine.put(there);
        return Outcome::NoKey.number();
    };
    let direction = direction_of(backward);
    let outcome = order(
        &mut there, alloc, job, &at, start, direction, subscript, wanted,
    );
    key.put(at);
    engine.put(there);
    outcome.number()
}

/// Moves a key to the nearest node with a value in the same name, in a step of a job. Backward where `backward` isn't
/// 0; where `is_open` isn't 0 an empty subscript follows the key, so that backward it starts behind all under it.
///
/// Outcomes: as of `typed_calls::query`; `NoEngine`, `NoKey`, and nothing has changed.
#[unsafe(no_mangle)]
pub extern "C" fn vorgushan_query(
    alloc: Global,
    engine: &mut VgEngine,
    job: u64,
    key: &mut VgKey,
    is_open: u32,
    backward: u32,
) -> u32
    ensures { IsKeyCalled engine.old.inside engine.new.inside key.old.inside result (key.new.inside ≡ key.old.inside) (λ reference before after outcome.
        IsMoved key.new.inside (λ found. IsFoundCall (λ refusal. IsCauseBefore (IsQueryCause reference (spec.is_not_0 is_open)) job refusal) job (query_command reference (spec.is_not_0 is_open) (spec.direction_of backward)) before after reference found outcome)) }
{
    let Some(mut there) = engine.take(alloc) else {
        return Outcome::NoEngine.number();
    };
    let Some(mut at) = key.take(alloc) else {
        engine.put(there);
        return Outcome::NoKey.number();
    };
    let outcome = query(
        &mut there,
        job,
        &mut at,
        is_open != 0,
        direction_of(backward),
    );
    key.put(at);
    engine.put(there);
    outcome.number()
}

// Does a LOCK of a key's name in this form.
fn lock_as(
    alloc: Global,
    engine: &mut VgEngine,
    job: u64,
    form: LockForm,
    key: &mut VgKey,
    had: &mut u64,
) -> u32
    ensures called { IsKeyCalled engine.old.inside engine.new.inside key.old.inside result (had.new ≡ had.old) (λ reference before after outcome.
        IsNumberCall (λ refusal. IsCauseBefore IsMemory job refusal) job (lock_command form reference) before after outcome had.new) }
    ensures key { key.new.inside ≡ key.old.inside }
{
    let Some(mut there) = engine.take(alloc) else {
        return Outcome::NoEngine.number();
    };
    let Some(at) = key.take(alloc) else {
        engine.put(there);
        return Outcome::NoKey.number();
    };
    let outcome = lock(&mut there, alloc, job, form, &at, had);
    key.put(at);
    engine.put(there);
    outcome.number()
}

/// LOCK of a key's name: a job's names are released, and then this one is asked for. Tells 1 where it was had, else 0.
///
/// Outcomes: as of `typed_calls::lock`; `NoEngine`, `NoKey`, and nothing has changed.
#[unsafe(no_mangle)]
pub extern "C" fn vorgushan_lock(
    alloc: Global,
    engine: &mut VgEngine,
    job: u64,
    key: &mut VgKey,
    had: &mut u64,
) -> u32
    ensures called { IsKeyCalled engine.old.inside engine.new.inside key.old.inside result (had.new ≡ had.old) (λ reference before after outcome.
        IsNumberCall (λ refusal. IsCauseBefore IsMemory job refusal) job (lock_command LockForm.Only reference) before after outcome had.new) }
    ensures key { key.new.inside ≡ key.old.inside }
{
    lock_as(alloc, engine, job, LockForm::Only, key, had)
}

/// LOCK with +: a key's name is asked for beside those that the job has. Tells 1 where it was had, else 0.
///
/// Outcomes: as of `typed_calls::lock`; `NoEngine`, `NoKey`, and nothing has changed.
#[unsafe(no_mangle)]
pub extern "C" fn vorgushan_lock_more(
    alloc: Global,
    engine: &mut VgEngine,
    job: u64,
    key: &mut VgKey,
    had: &mut u64,
) -> u32
    ensures called { IsKeyCalled engine.old.inside engine.new.inside key.old.inside result (had.new ≡ had.old) (λ reference before after outcome.
        IsNumberCall (λ refusal. IsCauseBefore IsMemory job refusal) job (lock_command LockForm.More reference) before after outcome had.new) }
    ensures key { key.new.inside ≡ key.old.inside }
{
    lock_as(alloc, engine, job, LockForm::More, key, had)
}

/// LOCK with -: one count of a key's name is given back. Tells 1.
///
/// Outcomes: as of `typed_calls::lock`; `NoEngine`, `NoKey`, and nothing has changed.
#[unsafe(no_mangle)]
pub extern "C" fn vorgushan_lock_fewer(
    alloc: Global,
    engine: &mut VgEngine,
    job: u64,
    key: &mut VgKey,
    had: &mut u64,
) -> u32
    ensures called { IsKeyCalled engine.old.inside engine.new.inside key.old.inside result (had.new ≡ had.old) (λ reference before after outcome.
        IsNumberCall (λ refusal. IsCauseBefore IsMemory job refusal) job (lock_command LockForm.Fewer reference) before after outcome had.new) }
    ensures key { key.new.inside ≡ key.old.inside }
{
    lock_as(alloc, engine, job, LockForm::Fewer, key, had)
}
