//! $INCREMENT, the kills that take a part, and $ORDER of names, called from C, as those of `typed.rt`.
ghost use Rattle.std.specs.Prelude.{◌≡◌, ◌⊎◌, ⊤};
ghost use Rattle.embedded.specs.Outcomes.{outcome_number};
ghost use Rattle.typed_calls.specs.Commands.{increment_command, kill_subscripts_command, kill_value_command, name_command};
ghost use Rattle.typed_calls.specs.Typed.{IsCauseBefore, IsMemory, IsNameCall, IsNameCause, IsNumberCause, IsTypedCall, IsValueCall};
ghost use Rattle.vorgushan_c.specs.Exports.{IsCalled};
ghost use Rattle.vorgushan_c.specs.Keys as spec;
ghost use Rattle.vorgushan_c.specs.Keys.{IsKeyCalled};

use crate::handle::VgEngine;
use crate::key_handle::VgKey;
use crate::typed::direction_of;
use embedded::Outcome;
use std::alloc::Global;
use typed_calls::{increment, kill_subscripts, kill_value, next_name};

/// Removes the value of a key's reference and nothing below it, in a step of a job.
///
/// Outcomes: as of `typed_calls::kill_value`; `NoEngine`, `NoKey`, and nothing has changed.
#[unsafe(no_mangle)]
pub extern "C" fn vorgushan_kill_value(
    alloc: Global,
    engine: &mut VgEngine,
    job: u64,
    key: &mut VgKey,
) -> u32
    ensures called { IsKeyCalled engine.old.inside engine.new.inside key.old.inside result ⊤ (λ reference before after outcome.
        IsTypedCall (λ refusal. IsCauseBefore IsMemory job refusal) job (kill_value_command reference) before after outcome) }
    ensures key { key.new.inside ≡ key.old.inside }
{
    let Some(mut there) = engine.take(alloc) else {
        return Outcome::NoEngine.number();
    };
    let Some(at) = key.take(alloc) else {
        engine.put(there);
        return Outcome::NoKey.number();
    };
    let outcome = kill_value(&mut there, job, &at);
    key.put(at);
    engine.put(there);
    outcome.number()
}

/// Removes all below a key's reference and not its value, in a step of a job.
///
/// Outcomes: as of `typed_calls::kill_subscripts`; `NoEngine`, `NoKey`, and nothing has changed.
#[unsafe(no_mangle)]
pub extern "C" fn vorgushan_kill_subscripts(
    alloc: Global,
    engine: &mut VgEngine,
    job: u64,
    key: &mut VgKey,
) -> u32
    ensures called { IsKeyCalled engine.old.inside engine.new.inside key.old.inside result ⊤ (λ reference before after outcome.
        IsTypedCall (λ refusal. IsCauseBefore IsMemory job refusal) job (kill_subscripts_command reference) before after outcome) }
    ensures key { key.new.inside ≡ key.old.inside }
{
    let Some(mut there) = engine.take(alloc) else {
        return Outcome::NoEngine.number();
    };
    let Some(at) = key.take(alloc) else {
        engine.put(there);
        return Outcome::NoKey.number();
    };
    let outcome = kill_subscripts(&mut there, job, &at);
    key.put(at);
    engine.put(there);
    outcome.number()
}

/// Adds a canonic number to the number that the value of a key's reference begins with, and copies the bytes of the sum,
/// in a step of a job.
///
/// Outcomes: as of `typed_calls::increment`; `NoEngine`, `NoKey`, and nothing has changed.
#[unsafe(no_mangle)]
pub extern "C" fn vorgushan_increment(
    alloc: Global,
    engine: &mut VgEngine,
    job: u64,
    key: &mut VgKey,
    number: &[u8],
    sum: &mut [u8],
    wanted: &mut usize,
) -> u32
    ensures called { IsKeyCalled engine.old.inside engine.new.inside key.old.inside result ((sum.new ≡ sum.old) × (wanted.new ≡ wanted.old)) (λ reference before after outcome.
        IsValueCall (λ refusal. IsCauseBefore (IsNumberCause number.now) job refusal) job (increment_command reference number.now) before after outcome sum.old sum.new wanted.new) }
    ensures key { key.new.inside ≡ key.old.inside }
{
    let Some(mut there) = engine.take(alloc) else {
        return Outcome::NoEngine.number();
    };
    let Some(at) = key.take(alloc) else {
        engine.put(there);
        return Outcome::NoKey.number();
    };
    let outcome = increment(&mut there, alloc, job, &at, number, sum, wanted);
    key.put(at);
    engine.put(there);
    outcome.number()
}

/// Copies the next name after `start`, or the one before it where `backward` isn't 0, under which a node has a value, in
/// a step of a job.
///
/// Outcomes: as of `typed_calls::next_name`; `NoEngine`, and nothing has changed.
#[unsafe(no_mangle)]
pub extern "C" fn vorgushan_next_name(
    alloc: Global,
    engine: &mut VgEngine,
    job: u64,
    start: &[u8],
    backward: u32,
    name: &mut [u8],
    wanted: &mut usize,
) -> u32
    ensures { IsCalled engine.old.inside engine.new.inside result ((name.new ≡ name.old) × (wanted.new ≡ wanted.old)) (λ before after outcome.
        IsNameCall (λ refusal. IsCauseBefore (IsNameCause start.now) job refusal) job (name_command start.now (spec.direction_of backward)) before after outcome name.old name.new wanted.new) }
{
    let Some(mut there) = engine.take(alloc) else {
        return Outcome::NoEngine.number();
    };
    let direction = direction_of(backward);
    let outcome = next_name(&mut there, alloc, job, start, direction, name, wanted);
    engine.put(there);
    outcome.number()
}
