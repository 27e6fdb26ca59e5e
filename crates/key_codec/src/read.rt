//! The reference of a key.
ghost use Rattle.std.specs.Prelude.{◌≡◌, ◌++◌, ◌∷◌, IfErr, IfNone, IfOk, IfSome, List, ℕ, not, nat_eq, true};
ghost use Rattle.std.specs.List.{list_all, position};
ghost use Rattle.collation.specs.Reference.{Reference};
ghost use Rattle.key_codec.specs.Key as spec;
ghost use Rattle.key_codec.specs.Key.{long_form, IsFaultless, AreSubscriptsWithin};

use crate::END;
use crate::read_subscript::read_subscript;
use collation::{Name, Ref, Subscripts, Text};
use refusal::Refusal;
use smallvec::SmallVec;
use std::alloc::{AllocError, Global};

/// The reference with these key bytes; none exactly where no reference has them.
///
/// Takes any bytes, and looks at each a few times; no key is written again to compare.
/// Refusals: `OutOfMemory`.
pub fn decode(alloc: Global, bytes: &[u8]) -> Result<Option<Ref>, Refusal>
    ensures some { IfOk result (λ found. IfSome found (λ r. spec.key_of r ≡ bytes.now)) }
    ensures form { IfOk result (λ found. IfSome found IsFaultless) }
    ensures none { IfOk result (λ found. IfNone found ((x : Reference) → IsFaultless x → bytes.now ≡ spec.key_of x → ⊥)) }
    ensures refused { IfErr result (λ refusal. refusal ≡ Refusal.OutOfMemory) }
{
    let found = read_reference(alloc, bytes)?;
    Ok(found)
}

// The reference with these key bytes, where there is one.
pub(crate) fn read_reference(alloc: Global, bytes: &[u8]) -> Result<Option<Ref>, AllocError>
    ensures some { IfOk result (λ found. IfSome found (λ r. spec.key_of r ≡ bytes.now)) }
    ensures form { IfOk result (λ found. IfSome found IsFaultless) }
    ensures none { IfOk result (λ found. IfNone found ((x : Reference) → IsFaultless x → bytes.now ≡ spec.key_of x → ⊥)) }
{
    let Some((front, rest)) = split_at_end(bytes, END) else {
        return Ok(None);
    };
    let front = Text::from_slice(alloc, front)?;
    let Ok(name) = Name::new(front) else {
        return Ok(None);
    };
    let Some(subscripts) = read_subscripts(alloc, rest)? else {
        return Ok(None);
    };
    match Ref::new(name, subscripts) {
        Ok(reference) => Ok(Some(reference)),
        Err(_) => Ok(None),
    }
}

fn position_of(bytes: &[u8], end: u8) -> Option<usize>
    ensures { result ≡ position (λ b. nat_eq b end) bytes.now }
{
    bytes.iter().position(|byte| *byte == end)
}

// What stands before the first such byte, and what after it.
pub(crate) fn split_at_end(bytes: &[u8], end: u8) -> Option<(&[u8], &[u8])>
    ensures some { IfSome result (λ p. (list_all (λ b. not (nat_eq b end)) p.0.now ≡ true) × (bytes.now ≡ p.0.now ++ end ∷ p.1.now)) }
    ensures none { IfNone result ((xs u : List ℕ) → bytes.now ≡ xs ++ end ∷ u → ⊥) }
{
    match position_of(bytes, end) {
        Some(index) => Some((&bytes[..index], &bytes[index + 1..])),
        None => None,
    }
}

fn read_subscripts(alloc: Global, bytes: &[u8]) -> Result<Option<Subscripts>, AllocError>
    ensures some { IfOk result (λ found. IfSome found (λ ss. AreSubscriptsWithin long_form ss.items × (bytes.now ≡ spec.subscripts_key long_form ss.items))) }
    ensures none { IfOk result (λ found. IfNone found ((ss : List (List ℕ)) → AreSubscriptsWithin long_form ss → bytes.now ≡ spec.subscripts_key long_form ss → ⊥)) }
{
    let mut found = SmallVec::new(alloc);
    let mut rest = bytes;
    while !rest.is_empty() {
        let Some((text, more)) = read_subscript(alloc, rest)? else {
            return Ok(None);
        };
        found.push(text)?;
        rest = more;
    }
    Ok(Some(found))
}
