//! Copies of keys, which part nodes.
ghost use Rattle.std.specs.Prelude.{◌≡◌, IfOk, IsOk};
ghost use Rattle.std.specs.declared.cmp.Ordering.TheVariants.{Equal};
ghost use Rattle.btree.specs.Parts.{IsSure};

use std::alloc::AllocError;
use std::cmp::Ordering;

/// A copy of a key, which ties with it.
///
/// Refused where there is no memory for it. A copy that didn't tie would be of no use, and counts as refused.
pub fn copy_of<K: Ord + Clone>(key: &K) -> Result<K, AllocError>
    ensures tied { IfOk result (λ copy. K.cmp copy key.now ≡ Equal) }
    ensures sure { IsSure K.cmp K.is_clone K.is_infallible key.now → IsOk result }
{
    let copy = key.clone()?;
    if copy.cmp(key) != Ordering::Equal {
        return Err(AllocError);
    }
    Ok(copy)
}
