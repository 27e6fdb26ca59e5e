//! Many $GETs of a job outside a transaction in two parts: their values are read and gathered with their units' bytes, and
//! the units are written later in one go, where nothing was written meanwhile.
ghost use Rattle.std.specs.Prelude.{◌≡◌, ◌≤◌, ◌∷◌, ◌++◌, [], true, length, IfSome, IfOk, IfErr, OnOk, OnErr};
ghost use Rattle.journal.specs.Gathered.{got};
ghost use Rattle.journal.specs.History.{initial, after};
ghost use Rattle.journal.specs.Kept.{HasNoRoom};
ghost use Rattle.serial.specs.Machine.{state_at};
ghost use Rattle.validate_commit.specs.Agreement.{Agreement};
ghost use Rattle.validate_commit.specs.Gathering.{AreRightGets};
ghost use Rattle.version_store.specs.Versions.{content_now};
ghost use Rattle.job_core.specs.Common.{HaveAdded};
ghost use Rattle.job_core.specs.Lent.{value_at};

use crate::kernel::Core;
use crate::lent::bytes_of;
use globals::OrderedView;
use journal::{Gets, Receipts};
use key_codec::Key;
use refusal::Refusal;
use std::alloc::AllocError;
use validate_commit::write_gets;
use version_store::KeyedStore;

// Gathers a $GET of the value that a reference has, and puts the value behind these bytes: both, or neither.
fn gather(
    store: &KeyedStore,
    key: &Key,
    gets: &mut Gets,
    values: &mut Vec<u8>,
) -> Result<usize, AllocError>
    ensures gathered { OnOk result (gets.new ≡ record { job = gets.old.job; units = gets.old.units ++ got gets.old.job key.now (value_at key.now (content_now store.now)) ∷ [] }) }
    ensures copied { OnOk result (values.new.items ≡ values.old.items ++ value_at key.now (content_now store.now)) }
    ensures size { IfOk result (λ size. size ≡ length (value_at key.now (content_now store.now))) }
    ensures refused { OnErr result ((gets.new ≡ gets.old) × (values.new.items ≡ values.old.items)) }
{
    let view = store.view_now();
    let value = bytes_of(view.get(key));
    let before = values.len();
    values.extend_from_slice(value)?;
    match gets.push(key, value) {
        Ok(()) => Ok(value.len()),
        Err(AllocError) => {
            values.truncate(before);
            Err(AllocError)
        }
    }
}

impl Core {
    /// Gathers a $GET, answered with the value that the reference has now, or the empty one, and puts that value behind
    /// these bytes. Answers how many bytes it has. It is no command yet, and nothing is kept of it here.
    ///
    /// `AllocError` where there is no memory for it: then neither has changed.
    pub fn gather_get(
        &self,
        key: &Key,
        gets: &mut Gets,
        values: &mut Vec<u8>,
    ) -> Result<usize, AllocError>
        ensures gathered { OnOk result (gets.new ≡ record { job = gets.old.job; units = gets.old.units ++ got gets.old.job key.now (value_at key.now (after self.now.units initial).map) ∷ [] }) }
        ensures copied { OnOk result (values.new.items ≡ values.old.items ++ value_at key.now (after self.now.units initial).map) }
        ensures size { IfOk result (λ size. size ≡ length (value_at key.now (after self.now.units initial).map)) }
        ensures refused { OnErr result ((gets.new ≡ gets.old) × (values.new.items ≡ values.old.items)) }
    {
        gather(&self.store, key, gets, values)
    }

    /// Whether the database is known to be as it was when there were so many units: nothing was written since. Takes no
    /// look-up and no memory.
    pub fn is_as_at(&self, number: u64) -> bool
        ensures { result ≡ true → (after self.now.units initial).map ≡ (state_at number self.now.units).map }
    {
        if self.store.now() < number {
            return false;
        }
        if number < self.store.cut() {
            return false;
        }
        self.store.latest() <= number
    }

    /// Makes $GETs that were gathered units, in their order: as `get_lone` of each, in one go. Each was answered what the
    /// database answers now. Nothing is looked up.
    ///
    /// Refusals, after which nothing has changed: `StampsUsedUp` where the journal has no number for each of them;
    /// `OutOfMemory`.
    pub fn add_gets(&mut self, gets: &Gets, oldest: Option<u64>) -> Result<Receipts, Refusal>
        requires some { 1 ≤ length gets.now.units }
        requires right { AreRightGets (after self.old.units initial).map gets.now.units }
        requires oldest { IfSome oldest (λ stamp. stamp ≤ length self.old.units) }
        ensures added { IfOk result (λ receipts. HaveAdded gets.now.units receipts oldest self.old self.new) }
        ensures versions { OnOk result (self.new.store.versions ≡ self.old.store.versions) }
        ensures refused { OnErr result (self.new ≡ self.old) }
        ensures cause { IfErr result (λ refusal. HasNoRoom refusal (length gets.now.units) (length self.old.units)) }
        ensures agreed { Agreement self.new.store self.new.units }
    {
        write_gets(&mut self.store, &mut self.journal, gets, oldest)
    }
}
