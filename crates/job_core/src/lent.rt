//! A SET, a KILL, a $GET and a $ORDER outside a transaction, of which key or place and the value are lent.
ghost use Rattle.std.specs.Prelude.{◌≡◌, ◌≤◌, ◌<◌, ◌^◌, ◌-◌, ℕ, List, [], ◌∷◌, ◌++◌, None, Some, max, length, unwrap_or, IfSome, IfOk, OnOk, OnErr, IfErr, IsErrOf};
ghost use Rattle.std.specs.Option.{option_copied};
ghost use Rattle.refusal.specs.declared.Refusal.{Refusal};
ghost use Rattle.collation.specs.Reference.{Reference};
ghost use Rattle.collation.specs.Answers.{is_forward, order_of};
ghost use Rattle.command.specs.Data.{look_refusal};
ghost use Rattle.globals.specs.Answering.{IsRuleOrMemory};
ghost use Rattle.stretches.specs.Empty.{AreEmpty};
ghost use Rattle.job_core.specs.Causes.{IsCauseOf};
ghost use Rattle.command.specs.declared.access.DataCommand.TheVariants.{Set, Kill, Look};
ghost use Rattle.command.specs.declared.access.Extent.TheVariants.{All};
ghost use Rattle.command.specs.declared.access.Look.TheVariants.{Get, Order};
ghost use Rattle.command.specs.declared.access.Answer.TheVariants.{Done, Value};
ghost use Rattle.journal.specs.declared.unit.Unit.TheVariants.{Lone};
ghost use Rattle.journal.specs.Kept.{HasNoRoom};
ghost use Rattle.version_store.specs.Versions.{content_now, versions_of, AddsNoneBare};
ghost use Rattle.validate_commit.specs.Agreement.{Agreement};
ghost use Rattle.job_core.specs.Changes.{row_done};
ghost use Rattle.job_core.specs.Lent.{value_at};

use collation::{Direction, Job, Text};
use command::Extent;
use globals::{OrderedView, order};
use journal::{Journal, Receipt};
use key_codec::{Key, Place};
use refusal::Refusal;
use std::alloc::Global;
use stretches::{Skipping, Stretches};
use validate_commit::{write_kill, write_set};
use version_store::KeyedStore;

/// A SET of a job outside a transaction, on a store and a journal that agree: as `lone` of that command, but the value
/// is taken out of where it lies.
///
/// Refusals: `StampsUsedUp`, where the journal is full; `OutOfMemory`. They leave database, versions, cut and journal
/// as they were; the value may be gone.
#[inline(always)]
pub(crate) fn set_lent(
    alloc: Global,
    store: &mut KeyedStore,
    journal: &mut Journal,
    job: Job,
    key: &Key,
    value: &mut Text,
    oldest: Option<u64>,
) -> Result<Receipt, Refusal>
    requires agreed { Agreement store.old journal.old.units }
    requires oldest { IfSome oldest (λ stamp. stamp ≤ length journal.old.units) }
    ensures unit { OnOk result (journal.new.units ≡ journal.old.units ++ Lone job (Set key.now value.old) Done ∷ []) }
    ensures receipt { IfOk result (λ receipt. receipt ≡ record { job = job; number = length journal.new.units; unit = Lone job (Set key.now value.old) Done }) }
    ensures base { journal.new.base ≡ journal.old.base }
    ensures ends { journal.new.ends ≡ journal.old.ends }
    ensures refused { OnErr result (journal.new.units ≡ journal.old.units) }
    ensures cause { IfErr result (λ refusal. HasNoRoom refusal 1 (length journal.old.units)) }
    ensures agreed { Agreement store.new journal.new.units }
    ensures left { OnOk result (store.new.cut ≡ max store.old.cut (unwrap_or oldest (length journal.new.units))) }
    ensures same_cut { OnErr result (store.new.cut ≡ store.old.cut) }
    ensures written { OnOk result ((x : Reference) → versions_of store.new.versions x ≡ row_done (Set key.now value.old) oldest (length journal.new.units) store.new.cut store.old x) }
    ensures rows { OnErr result ((x : Reference) → versions_of store.new.versions x ≡ versions_of store.old.versions x) }
    ensures bare { AddsNoneBare store.old.versions store.new.versions }
    ensures mark { store.new.mark ≡ store.old.mark }
    ensures taken { OnOk result (value.new ≡ []) }
{
    match journal.prepare_set(job, key, value.as_slice()) {
        Ok(()) => match write_set(alloc, store, journal, key, value, oldest) {
            Ok(receipt) => Ok(receipt),
            Err(_) => Err(Refusal::OutOfMemory),
        },
        Err(refusal) => Err(refusal),
    }
}

/// A KILL of a job outside a transaction, on a store and a journal that agree, where no stamp before now is asked for:
/// no list of its nodes is made.
///
/// Refusals: `StampsUsedUp`, where the journal is full; `OutOfMemory`, for its unit alone. They leave all as it was.
pub(crate) fn kill_lent(
    store: &mut KeyedStore,
    journal: &mut Journal,
    job: Job,
    key: &Key,
) -> Result<Receipt, Refusal>
    requires { Agreement store.old journal.old.units }
    ensures unit { OnOk result (journal.new.units ≡ journal.old.units ++ Lone job (Kill key.now All) Done ∷ []) }
    ensures receipt { IfOk result (λ receipt. receipt ≡ record { job = job; number = length journal.new.units; unit = Lone job (Kill key.now All) Done }) }
    ensures counted { OnOk result (length journal.old.units < 2 ^ 64 - 1) }
    ensures base { journal.new.base ≡ journal.old.base }
    ensures ends { journal.new.ends ≡ journal.old.ends }
    ensures refused { OnErr result (journal.new.units ≡ journal.old.units) }
    ensures cause { IfErr result (λ refusal. HasNoRoom refusal 1 (length journal.old.units)) }
    ensures agreed { Agreement store.new journal.new.units }
    ensures left { OnOk result (store.new.cut ≡ max store.old.cut (length journal.new.units)) }
    ensures written { OnOk result ((x : Reference) → versions_of store.new.versions x ≡ row_done (Kill key.now All) None (length journal.new.units) store.new.cut store.old x) }
    ensures same { OnErr result (store.new ≡ store.old) }
    ensures bare { AddsNoneBare store.old.versions store.new.versions }
    ensures mark { store.new.mark ≡ store.old.mark }
{
    match journal.prepare_kill(job, key, Extent::All) {
        Ok(()) => Ok(write_kill(store, journal, key)),
        Err(refusal) => Err(refusal),
    }
}

/// Writes the unit of a $GET of a job outside a transaction, behind the units, and answers how many bytes its value
/// has.
///
/// Refusals: those of `prepare_get`.
pub(crate) fn prepare_got(
    store: &KeyedStore,
    journal: &mut Journal,
    job: Job,
    key: &Key,
) -> Result<usize, Refusal>
    ensures units { journal.new.units ≡ journal.old.units }
    ensures base { journal.new.base ≡ journal.old.base }
    ensures ends { journal.new.ends ≡ journal.old.ends }
    ensures prepared { OnOk result (journal.new.prepared ≡ Some (Lone job (Look (Get key.now None)) (Value (value_at key.now (content_now store.now))))) }
    ensures counted { OnOk result (length journal.old.units < 2 ^ 64 - 1) }
    ensures size { IfOk result (λ size. size ≡ length (value_at key.now (content_now store.now))) }
    ensures cause { IfErr result (λ refusal. HasNoRoom refusal 1 (length journal.old.units)) }
{
    let view = store.view_now();
    let value = bytes_of(view.get(key));
    match journal.prepare_get(job, key, value) {
        Ok(()) => Ok(value.len()),
        Err(refusal) => Err(refusal),
    }
}

/// The same, with the value copied behind these: all of it, or nothing.
pub(crate) fn prepare_copied(
    store: &KeyedStore,
    journal: &mut Journal,
    job: Job,
    key: &Key,
    values: &mut Vec<u8>,
) -> Result<usize, Refusal>
    ensures units { journal.new.units ≡ journal.old.units }
    ensures base { journal.new.base ≡ journal.old.base }
    ensures ends { journal.new.ends ≡ journal.old.ends }
    ensures prepared { OnOk result (journal.new.prepared ≡ Some (Lone job (Look (Get key.now None)) (Value (value_at key.now (content_now store.now))))) }
    ensures counted { OnOk result (length journal.old.units < 2 ^ 64 - 1) }
    ensures size { IfOk result (λ size. size ≡ length (value_at key.now (content_now store.now))) }
    ensures cause { IfErr result (λ refusal. HasNoRoom refusal 1 (length journal.old.units)) }
    ensures copied { OnOk result (values.new.items ≡ values.old.items ++ value_at key.now (content_now store.now)) }
    ensures uncopied { OnErr result (values.new.items ≡ values.old.items) }
{
    let view = store.view_now();
    let found = bytes_of(view.get(key));
    let before = values.len();
    values.extend_from_slice(found)?;
    match journal.prepare_get(job, key, found) {
        Ok(()) => Ok(found.len()),
        Err(refusal) => {
            values.truncate(before);
            Err(refusal)
        }
    }
}

// The answer of a $ORDER, on a store of which no node stands in the stretches.
fn order_past(
    alloc: Global,
    store: &KeyedStore,
    stretches: &Stretches,
    place: &Place,
    direction: Direction,
) -> Result<Option<Text>, Refusal>
    requires { AreEmpty stretches.now (content_now store.now) }
    ensures answer { IfOk result (λ answer. unwrap_or answer [] ≡ order_of (is_forward direction) place.now (content_now store.now)) }
    ensures accepted { OnOk result (look_refusal (Order place.now direction) ≡ None) }
    ensures early { (refusal : Refusal) → look_refusal (Order place.now direction) ≡ Some refusal → IsErrOf result refusal }
    ensures cause { IfErr result (λ refusal. IsRuleOrMemory refusal (look_refusal (Order place.now direction))) }
{
    let view = store.view_now();
    if stretches.are_none() {
        return order(alloc, &view, place, direction);
    }
    order(alloc, &Skipping::new(&view, stretches), place, direction)
}

/// Writes the unit of a $ORDER of a job outside a transaction, behind the units, and answers how many bytes its answer
/// has. No node of the store stands in the stretches.
///
/// Refusals: `NeedSubscript`, where the place has no subscript; then those of `prepare_order`.
pub(crate) fn prepare_ordered(
    alloc: Global,
    store: &KeyedStore,
    journal: &mut Journal,
    stretches: &Stretches,
    job: Job,
    place: &Place,
    direction: Direction,
) -> Result<usize, Refusal>
    requires { AreEmpty stretches.now (content_now store.now) }
    ensures units { journal.new.units ≡ journal.old.units }
    ensures base { journal.new.base ≡ journal.old.base }
    ensures ends { journal.new.ends ≡ journal.old.ends }
    ensures prepared { OnOk result (journal.new.prepared ≡ Some (Lone job (Look (Order place.now direction)) (Value (order_of (is_forward direction) place.now (content_now store.now))))) }
    ensures counted { OnOk result (length journal.old.units < 2 ^ 64 - 1) }
    ensures accepted { OnOk result (look_refusal (Order place.now direction) ≡ None) }
    ensures size { IfOk result (λ size. size ≡ length (order_of (is_forward direction) place.now (content_now store.now))) }
    ensures early { (refusal : Refusal) → look_refusal (Order place.now direction) ≡ Some refusal → IsErrOf result refusal }
    ensures cause { IfErr result (λ refusal. IsCauseOf refusal (Look (Order place.now direction)) (content_now store.now) (length journal.old.units)) }
{
    let answer = order_past(alloc, store, stretches, place, direction)?;
    let bytes = bytes_of(answer.as_ref());
    match journal.prepare_order(job, place, direction, bytes) {
        Ok(()) => Ok(bytes.len()),
        Err(refusal) => Err(refusal),
    }
}

// The bytes of a value, and none where there is none.
pub(crate) fn bytes_of(found: Option<&Text>) -> &[u8]
    ensures { result.now ≡ unwrap_or (option_copied found.entry) [] }
{
    match found {
        Some(value) => value.as_slice(),
        None => &[],
    }
}

/// The last so many bytes.
pub(crate) fn last_of(bytes: &[u8], size: usize) -> &[u8]
    ensures { (front last : List ℕ) → bytes.now ≡ front ++ last → size ≡ length last → result.now ≡ last }
{
    let start = bytes.len().saturating_sub(size);
    let (_, last) = bytes.split_at(start);
    last
}
