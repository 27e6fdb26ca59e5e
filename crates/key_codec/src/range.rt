//! Ranges of keys.
ghost use Rattle.std.specs.Prelude.{◌≡◌, ◌↔◌, ◌∷◌, ◌++◌, [], true, IfErr, IfOk, None, Some};
ghost use Rattle.std.specs.Option.{option_map};
ghost use Rattle.collation.specs.Reference.{Reference};
ghost use Rattle.collation.specs.Database.{IsUnder};
ghost use Rattle.key_codec.specs.Key.{key_of, IsFaultless};
ghost use Rattle.key_codec.specs.Range as spec;

use crate::bounds::{sibling_after, sibling_before};
use collation::Ref;
use refusal::Refusal;
use std::alloc::Global;
use std::marker::Model;

/// The keys from a least one on and before a first one beyond, or to the end where there is none.
///
/// Both bounds may be any bytes. Where the first beyond isn't after the least, no key lies in the range.
#[derive(Debug, Drop)]
pub struct KeyRange {
    low: Vec<u8>,
    high: Option<Vec<u8>>,
}

impl Model for KeyRange {
    ghost use Rattle.std.specs.Option.{option_map};
    ghost use Rattle.key_codec.specs.Range.{Range};

    ghost Value = { Range };

    ghost view = { λ r. record { low = r.low.items; high = option_map (λ high. high.items) r.high } };
}

impl KeyRange {
    /// The range from `low` on and before `high`. Takes no memory.
    pub fn new(low: Vec<u8>, high: Option<Vec<u8>>) -> KeyRange
        ensures low { result.low ≡ low.items }
        ensures high { result.high ≡ option_map (λ bytes. bytes.items) high }
    {
        KeyRange { low, high }
    }

    /// The range in which the keys of everything under a reference lie, and no other reference's.
    ///
    /// Refusals: `OutOfMemory`.
    pub fn under(alloc: Global, reference: &Ref) -> Result<KeyRange, Refusal>
        ensures bounds { IfOk result (λ range. (range.low ≡ key_of reference.now) × (range.high ≡ Some (key_of reference.now ++ 6 ∷ []))) }
        ensures members { IfOk result (λ range. (x : Reference) → IsFaultless x → IsUnder reference.now x ↔ (spec.is_within range (key_of x) ≡ true)) }
        ensures refused { IfErr result (λ refusal. refusal ≡ Refusal.OutOfMemory) }
    {
        let low = sibling_before(alloc, reference)?;
        let high = sibling_after(alloc, reference)?;
        Ok(KeyRange::new(low, Some(high)))
    }

    /// The least key.
    pub fn low(&self) -> &[u8]
        ensures { result.now ≡ self.now.low }
    {
        self.low.as_slice()
    }

    /// The first key beyond, or none where the range goes to the end.
    pub fn high(&self) -> Option<&[u8]>
        ensures { option_map (λ high. high.now) result ≡ self.now.high }
    {
        match &self.high {
            Some(high) => Some(high.as_slice()),
            None => None,
        }
    }

    /// Whether a key lies in the range. Takes any bytes.
    pub fn contains(&self, key: &[u8]) -> bool
        ensures { result ≡ spec.is_within self.now key.now }
    {
        !key.cmp(&self.low()).is_lt() && self.is_before_high(key)
    }

    fn is_before_high(&self, key: &[u8]) -> bool
        ensures { result ≡ spec.is_below_bound key.now self.now.high }
    {
        match self.high() {
            Some(high) => key.cmp(&high).is_lt(),
            None => true,
        }
    }
}
