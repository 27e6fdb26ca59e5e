//! Old keys: references that are kept as their old key bytes.
ghost use Rattle.std.specs.Prelude.{◌≡◌, ◌⊎◌, false, IfErr, IfOk};
ghost use Rattle.key_codec.specs.Short as old;
ghost use Rattle.key_codec.specs.Short.{short_key_of, IsShortReference};

use crate::Key;
use crate::bytes::KeyBytes;
use crate::lengthen::lengthen;
use crate::short::encode_short;
use collation::Ref;
use refusal::Refusal;
use std::alloc::{AllocError, Global};
use std::cmp::Ordering;
use std::marker::Model;

/// A reference that is kept as its old key. Contracts see the reference. Old keys compare by their bytes alone, and that
/// is the order of references.
#[derive(Drop)]
pub struct ShortKey {
    bytes: KeyBytes,
}

impl Model for ShortKey {
    ghost use Rattle.collation.specs.Reference.{Reference};
    ghost use Rattle.key_codec.specs.Short.{short_reference_of, KeepsShort};

    ghost Value = { Reference };

    ghost view = { λ k. short_reference_of k.bytes };

    ghost invariant = { λ k. KeepsShort k.bytes (short_reference_of k.bytes) };
}

impl ShortKey {
    /// The old key of a reference.
    ///
    /// Refusals: `SubscriptTooLong` where a subscript has over 127 bytes; `OutOfMemory`.
    pub fn of(alloc: Global, reference: &Ref) -> Result<ShortKey, Refusal>
        ensures key { IfOk result (λ key. key ≡ reference.now) }
        ensures refused { IfErr result (λ refusal. (refusal ≡ Refusal.OutOfMemory) ⊎ ((refusal ≡ Refusal.SubscriptTooLong) × (old.are_short reference.now.subscripts ≡ false))) }
    {
        match encode_short(alloc, reference) {
            Ok(bytes) => Ok(ShortKey {
                bytes: KeyBytes::from_vec(bytes),
            }),
            Err(refusal) => Err(refusal),
        }
    }

    /// Its bytes: the old key of the reference, as `encode_short` writes it.
    pub fn as_slice(&self) -> &[u8]
        ensures value { result.now ≡ short_key_of self.now }
        ensures form { IsShortReference self.now }
    {
        self.bytes.as_slice()
    }

    /// The key of the same reference.
    pub fn to_key(&self, alloc: Global) -> Result<Key, AllocError>
        ensures { IfOk result (λ key. key ≡ self.now) }
    {
        let bytes = lengthen(alloc, self.as_slice())?;
        Key::from_slice(alloc, bytes.as_slice())
    }
}

impl Clone for ShortKey {
    ghost use Rattle.std.specs.Prelude.{◌≡◌};

    ghost is_clone = { λ a b. a ≡ b };

    /// A copy. Fails only for want of memory.
    fn clone(&self) -> Result<ShortKey, AllocError> {
        let bytes = self.bytes.clone()?;
        Ok(ShortKey { bytes })
    }
}

impl PartialEq for ShortKey {
    ghost use Rattle.collation.specs.Order.{ref_eq};
    ghost use Rattle.collation.specs.laws.Order.{ref_eq_laws};
    ghost use Rattle.std.specs.Cmp.{partial_equiv_from_equiv};

    ghost eq = { ref_eq };

    ghost laws = { partial_equiv_from_equiv ref_eq_laws };

    fn eq(&self, other: &ShortKey) -> bool {
        self.as_slice() == other.as_slice()
    }
}

impl Eq for ShortKey {
    ghost use Rattle.collation.specs.laws.Order.{ref_eq_laws};

    ghost laws = { ref_eq_laws };
}

impl Ord for ShortKey {
    ghost use Rattle.std.specs.Prelude.{refl};
    ghost use Rattle.collation.specs.Order.{ref_cmp};
    ghost use Rattle.collation.specs.laws.Order.{ref_cmp_total, ref_ties};

    ghost cmp = { ref_cmp };

    ghost total = { ref_cmp_total };

    ghost matches_partial_cmp = { λ _ _. refl };

    ghost matches_eq = { ref_ties };

    fn cmp(&self, other: &ShortKey) -> Ordering {
        self.bytes.compare(&other.bytes)
    }
}

impl PartialOrd for ShortKey {
    ghost use Rattle.std.specs.Prelude.{refl};
    ghost use Rattle.std.specs.Ordering.{as_partial_cmp};
    ghost use Rattle.std.specs.Cmp.{partial_order_from_agreeing_total};
    ghost use Rattle.collation.specs.Order.{ref_cmp};
    ghost use Rattle.collation.specs.laws.Order.{ref_cmp_total, ref_ties};

    ghost partial_cmp = { as_partial_cmp ref_cmp };

    ghost laws = { partial_order_from_agreeing_total ref_cmp ref_cmp_total (λ _ _. refl) ref_ties };

    fn partial_cmp(&self, other: &ShortKey) -> Option<Ordering> {
        Some(self.cmp(other))
    }
}
