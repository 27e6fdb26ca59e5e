//! Bounds between which everything under a reference lies.
ghost use Rattle.std.specs.Prelude.{◌≡◌, ◌++◌, ◌∷◌, [], IfErr, IfOk};
ghost use Rattle.key_codec.specs.Key.{key_of};
ghost use Rattle.key_codec.specs.Bounds.{IsPrefixOf, AreBounds};

use crate::ABOVE_TAGS;
use crate::write::write_key;
use collation::Ref;
use refusal::Refusal;
use std::alloc::Global;

/// What the keys of all that lies under a reference begin with, and no other key does: the reference's key.
///
/// Refusals: `OutOfMemory`.
pub fn subtree_prefix(alloc: Global, reference: &Ref) -> Result<Vec<u8>, Refusal>
    ensures key { IfOk result (λ prefix. prefix.items ≡ key_of reference.now) }
    ensures prefix { IfOk result (λ prefix. IsPrefixOf reference.now prefix.items) }
    ensures refused { IfErr result (λ refusal. refusal ≡ Refusal.OutOfMemory) }
{
    let prefix = write_key(alloc, reference, 0)?;
    Ok(prefix)
}

/// The bound below: from it on, and before `sibling_after`, lies all that is under a reference, and nothing else.
///
/// It is the reference's key; what lies under an earlier sibling stands before it. Refusals: `OutOfMemory`.
pub fn sibling_before(alloc: Global, reference: &Ref) -> Result<Vec<u8>, Refusal>
    ensures key { IfOk result (λ low. low.items ≡ key_of reference.now) }
    ensures bounds { IfOk result (λ low. AreBounds reference.now low.items (key_of reference.now ++ 6 ∷ [])) }
    ensures refused { IfErr result (λ refusal. refusal ≡ Refusal.OutOfMemory) }
{
    let low = write_key(alloc, reference, 0)?;
    Ok(low)
}

/// The bound above: before it, and from `sibling_before` on, lies all that is under a reference, and nothing else.
///
/// It is no reference's key; what lies under a later sibling stands after it. Refusals: `OutOfMemory`.
pub fn sibling_after(alloc: Global, reference: &Ref) -> Result<Vec<u8>, Refusal>
    ensures key { IfOk result (λ high. high.items ≡ key_of reference.now ++ 6 ∷ []) }
    ensures bounds { IfOk result (λ high. AreBounds reference.now (key_of reference.now) high.items) }
    ensures refused { IfErr result (λ refusal. refusal ≡ Refusal.OutOfMemory) }
{
    let mut high = write_key(alloc, reference, 1)?;
    high.push(ABOVE_TAGS)?;
    Ok(high)
}
