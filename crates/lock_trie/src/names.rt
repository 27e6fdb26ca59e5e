//! Lock names as points in their order, and which of them are beginnings of others. All that depends on how a name is kept
//! stands here.
ghost use Rattle.std.specs.Prelude.{◌≡◌, length};
ghost use Rattle.collation.specs.Database.{is_under};
ghost use Rattle.collation.specs.Order.{ref_cmp};
ghost use Rattle.lock_name.specs.Locks.{resource_cmp};
ghost use Rattle.lock_trie.specs.Names.{beginning, is_at_or_under as is_at_or_under_spec};

use btree::Point;
use lock_name::LockName;
use std::cmp::Ordering;
use std::marker::Model;

/// The beginning of a lock name: its caret or none, its name and the first so many of its subscripts.
///
/// It lends the bytes of the name's key up to the end of the last of these. Contracts see the lock name that it is.
#[derive(Drop)]
pub struct Beginning<'a> {
    has_caret: bool,
    bytes: &'a [u8],
}

impl<'a> Model for Beginning<'a> {
    ghost use Rattle.collation.specs.Reference.{Resource};
    ghost use Rattle.key_codec.specs.Back.{reference_of};
    ghost use Rattle.key_codec.specs.Kept.{Keeps};

    ghost Value = { Resource };

    ghost view = { λ b. record { has_caret = b.has_caret; reference = reference_of b.bytes.now } };

    ghost invariant = { λ b. Keeps b.bytes.now (reference_of b.bytes.now) };
}

impl<'a> Beginning<'a> {
    /// The first so many subscripts of a name, or all where it has no more.
    pub fn of(name: &'a LockName, len: usize) -> Beginning<'a>
        ensures { result ≡ beginning name.now len }
    {
        Beginning {
            has_caret: name.has_caret(),
            bytes: name.key().front(len),
        }
    }

    // Compares what stands after a name's caret to what stands after this beginning's.
    fn compare_reference(&self, name: &LockName) -> Ordering
        ensures { result ≡ ref_cmp name.now.reference self.now.reference }
    {
        let bytes = name.key().as_slice();
        bytes.cmp(&self.bytes)
    }

    /// Compares a name to this beginning.
    #[tactic(auto, unfolding(lock_name::specs::Locks::resource_cmp))]
    pub fn compare(&self, name: &LockName) -> Ordering
        ensures { result ≡ resource_cmp name.now self.now }
    {
        let carets = name.has_caret().cmp(&self.has_caret);
        match carets {
            Ordering::Equal => self.compare_reference(name),
            _ => carets,
        }
    }

    // Whether what stands after a name's caret goes on from what stands after this beginning's.
    fn begins_reference(&self, name: &LockName) -> bool
        ensures { result ≡ is_under self.now.reference name.now.reference }
    {
        name.key().as_slice().starts_with(self.bytes)
    }

    /// Whether a name is this beginning, or goes on from it.
    pub fn begins(&self, name: &LockName) -> bool
        ensures { result ≡ is_at_or_under_spec self.now name.now }
    {
        self.has_caret == name.has_caret() && self.begins_reference(name)
    }
}

impl<'a> Point<LockName> for Beginning<'a> {
    ghost use Rattle.std.specs.Ordering.{is_lt};
    ghost use Rattle.lock_name.specs.Locks.{resource_cmp};
    ghost use Rattle.lock_trie.specs.laws.Named.{before_earlier};
    ghost use Rattle.std.proofs.Common.{ap};
    ghost use Rattle.lock_name.specs.laws.Counting.{resource_cmp-IsAntisymmetric};

    ghost before = { λ p x. is_lt (resource_cmp x p) };

    ghost downward = { λ p x y l h. before_earlier p x y l h };

    ghost tied = { λ p x y e. ap (λ z. is_lt (resource_cmp z p)) (resource_cmp-IsAntisymmetric x y e) };

    fn is_after(&self, key: &LockName) -> bool {
        self.compare(key).is_lt()
    }
}

/// A whole lock name as a point: names compare to it as to the name.
#[derive(Clone, Copy)]
pub struct Whole<'a> {
    pub name: &'a LockName,
}

impl<'a> Point<LockName> for Whole<'a> {
    ghost use Rattle.std.specs.Ordering.{is_lt};
    ghost use Rattle.lock_name.specs.Locks.{resource_cmp};
    ghost use Rattle.lock_trie.specs.laws.Named.{before_earlier};
    ghost use Rattle.std.proofs.Common.{ap};
    ghost use Rattle.lock_name.specs.laws.Counting.{resource_cmp-IsAntisymmetric};

    ghost before = { λ p x. is_lt (resource_cmp x p.name.now) };

    ghost downward = { λ p x y l h. before_earlier p.name.now x y l h };

    ghost tied = { λ p x y e. ap (λ z. is_lt (resource_cmp z p.name.now)) (resource_cmp-IsAntisymmetric x y e) };

    fn is_after(&self, key: &LockName) -> bool {
        key.cmp(self.name).is_lt()
    }
}

/// How many subscripts a name has.
pub fn depth(name: &LockName) -> usize
    ensures { result ≡ length name.now.reference.subscripts }
{
    name.key().depth()
}

/// Whether a name is the other, or goes on from it.
pub fn is_at_or_under(name: &LockName, root: &LockName) -> bool
    ensures { result ≡ is_at_or_under_spec root.now name.now }
{
    root.has_caret() == name.has_caret() && name.key().is_under(root.key())
}
