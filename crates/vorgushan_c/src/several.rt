//! What C calls on several keys at once. Each of them is declared in `include/vorgushan.h`, with its meaning for a C
//! programmer.
ghost use Rattle.std.specs.Prelude.{◌≡◌, [], None, IfErr, IfOk, IfSome};
ghost use Rattle.std.specs.Option.{MatchOption};
ghost use Rattle.typed_calls.specs.Typed.{IsMemory};
ghost use Rattle.vorgushan_c.specs.Exports.{IsCalled};
ghost use Rattle.vorgushan_c.specs.Several as spec;
ghost use Rattle.vorgushan_c.specs.Several.{AreTheirs, IsAllLocked, IsNameAdded, asked_keys, held_in};

use crate::draft_handle::VgDraft;
use crate::handle::VgEngine;
use crate::key_handle::VgKey;
use embedded::{Embedded, Outcome};
use lock_name::LockName;
use refusal::Refusal;
use std::alloc::Global;
use typed_calls::{LockForm, lock_names, push_name};

/// A key as C keeps it: with the draft behind it in which it is spelled.
#[repr(C)]
#[derive(Drop)]
pub struct VgWholeKey {
    /// The key.
    pub key: VgKey,
    /// Its draft.
    pub draft: VgDraft,
}

// Puts a key's name behind those of a list, and tells whether the key is there.
fn add_name(alloc: Global, key: &mut VgKey, names: &mut Vec<LockName>) -> Result<bool, Refusal>
    ensures key { key.new.inside ≡ key.old.inside }
    ensures added { IfOk result (λ is_there. IsNameAdded key.old.inside is_there names.old.items names.new.items) }
    ensures refused { IfErr result (λ refusal. IsMemory refusal) }
{
    let Some(there) = key.take(alloc) else {
        return Ok(false);
    };
    let pushed = push_name(names, &there);
    key.put(there);
    match pushed {
        Ok(()) => Ok(true),
        Err(refusal) => Err(refusal),
    }
}

// The names of keys, where all are there.
pub(crate) fn names_of(
    alloc: Global,
    keys: &mut [VgWholeKey],
) -> Result<Option<Vec<LockName>>, Refusal>
    ensures keys { held_in keys.new ≡ held_in keys.old }
    ensures named { IfOk result (λ found. MatchOption found (asked_keys (held_in keys.old) ≡ None) (λ names. AreTheirs (asked_keys (held_in keys.old)) names.items)) }
    ensures some { IfOk result (λ found. IfSome found (λ names. names.items ≡ [] → ⊥)) }
    ensures refused { IfErr result (λ refusal. IsMemory refusal) }
{
    let mut names = Vec::new(alloc);
    for whole in keys.iter_mut() {
        match add_name(alloc, &mut whole.key, &mut names) {
            Ok(true) => {}
            Ok(false) => return Ok(None),
            Err(refusal) => return Err(refusal),
        }
    }
    if names.is_empty() {
        Ok(None)
    } else {
        Ok(Some(names))
    }
}

// 0 is without a sign, 1 is +, and any other number -.
pub(crate) fn form_of(form: u32) -> LockForm
    ensures { result ≡ spec.form_of form }
{
    match form {
        0 => LockForm::Only,
        1 => LockForm::More,
        _ => LockForm::Fewer,
    }
}

// Does a LOCK of the names of keys, where there are some and all of them are there.
fn lock_there(
    there: &mut Embedded,
    alloc: Global,
    job: u64,
    form: LockForm,
    keys: &mut [VgWholeKey],
    had: &mut u64,
) -> Outcome
    ensures keys { held_in keys.new ≡ held_in keys.old }
    ensures locked { IsAllLocked job form (asked_keys (held_in keys.old)) there.old there.new result had.old had.new }
{
    match names_of(alloc, keys) {
        Ok(Some(names)) => lock_names(there, job, form, names, had),
        Ok(None) => Outcome::NoKey,
        Err(refusal) => {
            *had = 0;
            Outcome::Refused(refusal)
        }
    }
}

/// LOCK of the names of keys, with their carets, at once: tells 1 where all of them were had, and 0 where another job
/// is in the way of one, and then none was. The form is 0 for LOCK, 1 for LOCK with +, and any other for LOCK with -.
///
/// Outcomes: as of `typed_calls::lock_names`; `NoEngine`, `NoKey` where no key is given or one isn't there, and nothing
/// has changed.
#[unsafe(no_mangle)]
pub extern "C" fn vorgushan_lock_all(
    alloc: Global,
    engine: &mut VgEngine,
    job: u64,
    form: u32,
    keys: &mut [VgWholeKey],
    had: &mut u64,
) -> u32
    ensures called { IsCalled engine.old.inside engine.new.inside result (had.new ≡ had.old) (λ before after outcome.
        IsAllLocked job (spec.form_of form) (asked_keys (held_in keys.old)) before after outcome had.old had.new) }
    ensures keys { held_in keys.new ≡ held_in keys.old }
{
    let Some(mut there) = engine.take(alloc) else {
        return Outcome::NoEngine.number();
    };
    let form = form_of(form);
    let outcome = lock_there(&mut there, alloc, job, form, keys, had);
    engine.put(there);
    outcome.number()
}
