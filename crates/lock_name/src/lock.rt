//! Lock names and the forms of LOCK.
ghost use Rattle.std.specs.Prelude.{◌≡◌};

use key_codec::Key;
use std::alloc::AllocError;
use std::cmp::Ordering;
use std::marker::Model;

/// A lock name: it is written like a reference, with the caret or without. What stands after the caret is kept as a key: a
/// name takes 48 bytes, and memory only where its key is over 38.
#[derive(Debug, Drop)]
pub struct LockName {
    has_caret: bool,
    key: Key,
}

impl Model for LockName {
    ghost use Rattle.collation.specs.Reference.{Resource};

    ghost Value = { Resource };

    ghost view = { λ n. record { has_caret = n.has_caret; reference = n.key } };
}

impl PartialEq for LockName {
    ghost use Rattle.lock_name.specs.Locks.{resource_eq};
    ghost use Rattle.lock_name.specs.laws.Resources.{resource_eq_laws};
    ghost use Rattle.std.specs.Cmp.{partial_equiv_from_equiv};

    ghost eq = { resource_eq };

    ghost laws = { partial_equiv_from_equiv resource_eq_laws };

    fn eq(&self, other: &LockName) -> bool {
        self.has_caret == other.has_caret && self.key == other.key
    }
}

impl Eq for LockName {
    ghost use Rattle.lock_name.specs.laws.Resources.{resource_eq_laws};

    ghost laws = { resource_eq_laws };
}

impl Ord for LockName {
    ghost use Rattle.std.specs.Prelude.{refl};
    ghost use Rattle.lock_name.specs.Locks.{resource_cmp};
    ghost use Rattle.lock_name.specs.laws.Counting.{resource_cmp_total};
    ghost use Rattle.lock_name.specs.laws.Resources.{resource_ties};

    ghost cmp = { resource_cmp };

    ghost total = { resource_cmp_total };

    ghost matches_partial_cmp = { λ _ _. refl };

    ghost matches_eq = { resource_ties };

    #[tactic(auto, unfolding(crate::specs::Locks::resource_cmp))]
    fn cmp(&self, other: &LockName) -> Ordering {
        let carets = self.has_caret.cmp(&other.has_caret);
        carets.then_with(|| self.key.cmp(&other.key))
    }
}

impl PartialOrd for LockName {
    ghost use Rattle.std.specs.Prelude.{refl};
    ghost use Rattle.std.specs.Ordering.{as_partial_cmp};
    ghost use Rattle.std.specs.Cmp.{partial_order_from_agreeing_total};
    ghost use Rattle.lock_name.specs.Locks.{resource_cmp};
    ghost use Rattle.lock_name.specs.laws.Counting.{resource_cmp_total};
    ghost use Rattle.lock_name.specs.laws.Resources.{resource_ties};

    ghost partial_cmp = { as_partial_cmp resource_cmp };

    ghost laws = { partial_order_from_agreeing_total resource_cmp resource_cmp_total (λ _ _. refl) resource_ties };

    fn partial_cmp(&self, other: &LockName) -> Option<Ordering> {
        Some(self.cmp(other))
    }
}

impl Clone for LockName {
    ghost use Rattle.std.specs.Prelude.{◌≡◌};

    ghost is_clone = { λ a b. a ≡ b };

    fn clone(&self) -> Result<LockName, AllocError> {
        let key = self.key.clone()?;
        Ok(LockName {
            has_caret: self.has_caret,
            key,
        })
    }
}

impl LockName {
    /// The lock name of this key's reference, with the caret or without. Takes no memory.
    pub fn new(has_caret: bool, key: Key) -> LockName
        ensures caret { result.has_caret ≡ has_caret }
        ensures reference { result.reference ≡ key }
    {
        LockName { has_caret, key }
    }

    /// Whether it has a caret.
    pub fn has_caret(&self) -> bool
        ensures { result ≡ self.now.has_caret }
    {
        self.has_caret
    }

    /// The key of what stands after the caret.
    pub fn key(&self) -> &Key
        ensures { result.now ≡ self.now.reference }
    {
        &self.key
    }
}

/// A list of lock names.
#[derive(Debug, Drop)]
pub struct LockNames {
    names: Vec<LockName>,
}

impl Model for LockNames {
    ghost use Rattle.std.specs.Prelude.{List};
    ghost use Rattle.collation.specs.Reference.{Resource};

    ghost Value = { List Resource };

    ghost view = { λ n. n.names.items };
}

impl PartialEq for LockNames {
    ghost use Rattle.std.specs.Cmp.Lexicographic.{pointwise, lists_equiv};
    ghost use Rattle.lock_name.specs.Locks.{resource_eq};
    ghost use Rattle.lock_name.specs.laws.Resources.{resource_eq_laws};
    ghost use Rattle.std.specs.Cmp.{partial_equiv_from_equiv};

    ghost eq = { pointwise resource_eq };

    ghost laws = { partial_equiv_from_equiv (lists_equiv resource_eq_laws) };

    fn eq(&self, other: &LockNames) -> bool {
        self.names.as_slice() == other.names.as_slice()
    }
}

impl Eq for LockNames {
    ghost use Rattle.std.specs.Cmp.Lexicographic.{lists_equiv};
    ghost use Rattle.lock_name.specs.laws.Resources.{resource_eq_laws};

    ghost laws = { lists_equiv resource_eq_laws };
}

impl LockNames {
    /// These names. Takes no memory.
    pub fn new(names: Vec<LockName>) -> LockNames
        ensures { result ≡ names.items }
    {
        LockNames { names }
    }

    /// The names, in their order.
    pub fn as_slice(&self) -> &[LockName]
        ensures { result.now ≡ self.now }
    {
        &self.names
    }
}

/// The forms of LOCK.
#[derive(Debug, Drop, PartialEq, Eq)]
pub enum LockCommand {
    /// LOCK without names: all names of the job are released.
    Release,
    /// LOCK with names: all names of the job are released, and then these are asked for.
    Only(LockNames),
    /// LOCK with +: these are asked for too.
    More(LockNames),
    /// LOCK with -: one count of each is given back.
    Fewer(LockNames),
}
