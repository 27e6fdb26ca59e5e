//! Keys: references that are kept as their key bytes.
ghost use Rattle.std.specs.Prelude.{◌≡◌, None, [], ◌∷◌, ◌++◌, ◌≢◌, ◌≤◌, ◌⊎◌, List, ℕ, IfNone, IfOk, IfSome, IsOk, MatchResult, false, true, length, take, nat_lt};
ghost use Rattle.collation.specs.Limits.{most_subscripts};
ghost use Rattle.collation.specs.Reference.{Reference};
ghost use Rattle.collation.specs.Name.{is_name};
ghost use Rattle.collation.specs.Database.{is_under as is_under_spec};
ghost use Rattle.collation.specs.Answers.{moved as moved_spec};
ghost use Rattle.collation.specs.Levels.{is_before};
ghost use Rattle.key_codec.specs.Back.{reference_of};
ghost use Rattle.key_codec.specs.Kept.{Keeps};
ghost use Rattle.key_codec.specs.Key as spec;
ghost use Rattle.key_codec.specs.Key.{IsFaultless};

use crate::END;
use crate::bytes::KeyBytes;
use crate::count::{count_subscripts, past_subscripts};
use crate::read::{read_reference, split_at_end};
use crate::shown::{KeySubscripts, subscripts_of};
use crate::write::{most_subscript_bytes, push_subscript, roomy_copy, write_key};
use collation::{MOST_SUBSCRIPTS, Ref, Text};
use refusal::Refusal;
use std::alloc::{AllocError, Global};
use std::cmp::Ordering;
use std::marker::Model;

/// A reference that is kept as its key bytes. A `Key` takes 40 bytes, and memory only where its bytes are over 38.
///
/// Contracts see the reference. Keys compare by their bytes alone, and that is the order of references.
#[derive(Debug, Drop)]
pub struct Key {
    bytes: KeyBytes,
}

impl Model for Key {
    ghost use Rattle.collation.specs.Reference.{Reference};
    ghost use Rattle.key_codec.specs.Back.{reference_of};
    ghost use Rattle.key_codec.specs.Kept.{Keeps};

    ghost Value = { Reference };

    ghost view = { λ k. reference_of k.bytes };

    ghost invariant = { λ k. Keeps k.bytes (reference_of k.bytes) };
}

impl Key {
    /// The key of a reference.
    pub fn of(alloc: Global, reference: &Ref) -> Result<Key, AllocError>
        ensures { IfOk result (λ key. key ≡ reference.now) }
    {
        let bytes = write_key(alloc, reference, 0)?;
        Ok(Key {
            bytes: KeyBytes::from_vec(bytes),
        })
    }

    /// The key with these bytes, which are known to be a reference's. Takes memory only past 38 bytes.
    pub fn from_slice(alloc: Global, bytes: &[u8]) -> Result<Key, AllocError>
        requires { Keeps bytes.now (reference_of bytes.now) }
        ensures key { IfOk result (λ key. key ≡ reference_of bytes.now) }
        ensures short { length bytes.now ≤ 38 → IsOk result }
    {
        let bytes = KeyBytes::from_slice(alloc, bytes)?;
        Ok(Key { bytes })
    }

    /// The key of the name alone, without subscripts. It has at most 32 bytes, so it is never refused.
    pub fn root(&self, alloc: Global) -> Result<Key, AllocError>
        ensures sure { IsOk result }
        ensures key { IfOk result (λ key. key ≡ record { name = self.now.name; subscripts = [] }) }
    {
        let bytes = KeyBytes::joined(alloc, self.name(), &[END])?;
        Ok(Key { bytes })
    }

    /// The key one level below this one, by this subscript.
    pub fn below(&self, alloc: Global, subscript: &Text) -> Result<Key, AllocError>
        requires { IsFaultless (record { name = self.now.name; subscripts = self.now.subscripts ++ subscript.now ∷ [] }) }
        ensures { IfOk result (λ key. key ≡ record { name = self.now.name; subscripts = self.now.subscripts ++ subscript.now ∷ [] }) }
    {
        let mut bytes = roomy_copy(
            alloc,
            self.as_slice(),
            most_subscript_bytes(subscript.as_slice()),
        )?;
        push_subscript(&mut bytes, subscript.as_slice())?;
        Ok(Key {
            bytes: KeyBytes::from_vec(bytes),
        })
    }

    /// Its bytes: the key of the reference, as `encode` writes it.
    pub fn as_slice(&self) -> &[u8]
        ensures value { result.now ≡ spec.key_of self.now }
        ensures form { IsFaultless self.now }
    {
        self.bytes.as_slice()
    }

    /// The reference, written out.
    pub fn reference(&self, alloc: Global) -> Result<Ref, AllocError>
        ensures { IfOk result (λ reference. reference ≡ self.now) }
    {
        match read_reference(alloc, self.as_slice())? {
            Some(reference) => Ok(reference),
            None => unreachable!(),
        }
    }

    /// The bytes of the reference's name.
    pub fn name(&self) -> &[u8]
        ensures value { result.now ≡ self.now.name }
        ensures form { is_name self.now.name ≡ true }
    {
        match split_at_end(self.as_slice(), END) {
            Some((name, _)) => name,
            None => unreachable!(),
        }
    }

    /// The subscripts, which are lent from the key. Takes no memory.
    pub fn subscripts(&self) -> KeySubscripts<'_>
        ensures { result ≡ self.now.subscripts }
    {
        match split_at_end(self.as_slice(), END) {
            Some((_, keys)) => subscripts_of(keys),
            None => unreachable!(),
        }
    }

    // What stands after the other key, where this one begins with it.
    fn behind(&self, root: &Key) -> Option<&[u8]>
        ensures some { IfSome result (λ rest. spec.key_of self.now ≡ spec.key_of root.now ++ rest.now) }
        ensures none { IfNone result ((rest : List ℕ) → spec.key_of self.now ≢ spec.key_of root.now ++ rest) }
        ensures form { IsFaultless self.now }
        ensures root_form { IsFaultless root.now }
    {
        self.as_slice().strip_prefix(root.as_slice())
    }

    /// How many subscripts the reference has. Takes no memory.
    pub fn depth(&self) -> usize
        ensures depth { result ≡ length self.now.subscripts }
        ensures few { result ≤ most_subscripts }
    {
        match split_at_end(self.as_slice(), END) {
            Some((_, rest)) => count_subscripts(rest),
            None => unreachable!(),
        }
    }

    /// The key bytes of the reference of the first so many subscripts, or all bytes where it has no more. Takes no memory.
    pub fn front(&self, len: usize) -> &[u8]
        ensures value { result.now ≡ spec.key_of (record { name = self.now.name; subscripts = take len self.now.subscripts }) }
        ensures form { IsFaultless (record { name = self.now.name; subscripts = take len self.now.subscripts }) }
    {
        let bytes = self.as_slice();
        match split_at_end(bytes, END) {
            Some((_, keys)) => &bytes[..bytes.len() - past_subscripts(keys, len).len()],
            None => unreachable!(),
        }
    }

    /// Whether the reference is the root's or a descendant of it.
    pub fn is_under(&self, root: &Key) -> bool
        ensures { result ≡ is_under_spec root.now self.now }
    {
        self.behind(root).is_some()
    }

    /// Whether the reference stands before the end of all that is the root or under it: one comparison of the bytes.
    pub fn stands_before_past(&self, root: &Key) -> bool
        ensures { result ≡ is_before true root.now self.now }
    {
        self.bytes.stand_before_past(&root.bytes)
    }

    /// The reference that stands to `to` as this one, at or under `from`, stands to `from`.
    ///
    /// Refusals: `TooManySubscripts` where it would have over 31; `OutOfMemory`.
    pub fn moved(&self, alloc: Global, from: &Key, to: &Key) -> Result<Key, Refusal>
        requires { is_under_spec from.now self.now ≡ true }
        ensures { MatchResult result
            (λ copy. (copy ≡ moved_spec to.now from.now self.now) × (nat_lt most_subscripts (length copy.subscripts) ≡ false))
            (λ refusal. (refusal ≡ Refusal.OutOfMemory) ⊎ ((refusal ≡ Refusal.TooManySubscripts) × (nat_lt most_subscripts (length (moved_spec to.now from.now self.now).subscripts) ≡ true))) }
    {
        let Some(rest) = self.behind(from) else {
            unreachable!()
        };
        let subscripts = to.depth() + count_subscripts(rest);
        if subscripts > MOST_SUBSCRIPTS {
            return Err(Refusal::TooManySubscripts);
        }
        let bytes = KeyBytes::joined(alloc, to.as_slice(), rest)?;
        Ok(Key { bytes })
    }
}

impl Clone for Key {
    ghost use Rattle.std.specs.Prelude.{◌≡◌, ◌≤◌, length};
    ghost use Rattle.key_codec.specs.Key.{key_of};

    ghost is_clone = { λ a b. a ≡ b };

    ghost is_infallible = { λ k. length (key_of k) ≤ 38 };

    /// A copy. Fails only for want of memory, and never where the key has at most 38 bytes.
    fn clone(&self) -> Result<Key, AllocError> {
        let bytes = self.bytes.clone()?;
        Ok(Key { bytes })
    }
}

impl PartialEq for Key {
    ghost use Rattle.collation.specs.Order.{ref_eq};
    ghost use Rattle.collation.specs.laws.Order.{ref_eq_laws};
    ghost use Rattle.std.specs.Cmp.{partial_equiv_from_equiv};

    ghost eq = { ref_eq };

    ghost laws = { partial_equiv_from_equiv ref_eq_laws };

    fn eq(&self, other: &Key) -> bool {
        self.as_slice() == other.as_slice()
    }
}

impl Eq for Key {
    ghost use Rattle.collation.specs.laws.Order.{ref_eq_laws};

    ghost laws = { ref_eq_laws };
}

impl Ord for Key {
    ghost use Rattle.std.specs.Prelude.{refl};
    ghost use Rattle.collation.specs.Order.{ref_cmp};
    ghost use Rattle.collation.specs.laws.Order.{ref_cmp_total, ref_ties};

    ghost cmp = { ref_cmp };

    ghost total = { ref_cmp_total };

    ghost matches_partial_cmp = { λ _ _. refl };

    ghost matches_eq = { ref_ties };

    fn cmp(&self, other: &Key) -> Ordering {
        self.bytes.compare(&other.bytes)
    }
}

impl PartialOrd for Key {
    ghost use Rattle.std.specs.Prelude.{refl};
    ghost use Rattle.std.specs.Ordering.{as_partial_cmp};
    ghost use Rattle.std.specs.Cmp.{partial_order_from_agreeing_total};
    ghost use Rattle.collation.specs.Order.{ref_cmp};
    ghost use Rattle.collation.specs.laws.Order.{ref_cmp_total, ref_ties};

    ghost partial_cmp = { as_partial_cmp ref_cmp };

    ghost laws = { partial_order_from_agreeing_total ref_cmp ref_cmp_total (λ _ _. refl) ref_ties };

    fn partial_cmp(&self, other: &Key) -> Option<Ordering> {
        Some(self.cmp(other))
    }
}
