//! What MERGE copies.
ghost use Rattle.std.specs.Prelude.{◌≡◌, ◌⊎◌, Some, None, true, false, IfOk, IsOk, IsErrOf, MatchResult};
ghost use Rattle.std.specs.List.{list_any};
ghost use Rattle.collation.specs.Answers.{merged};
ghost use Rattle.command.specs.Data.{data_refusal};
ghost use Rattle.collation.specs.Levels.{overlap};
ghost use Rattle.collation.specs.Order.{ref_eq};
ghost use Rattle.command.specs.declared.access.DataCommand.TheVariants.{Merge as merge_command};
ghost use Rattle.globals.specs.Copies.{all_copies, is_deep};

use crate::OrderedView;
use crate::levels::is_below;
use crate::walk::subtree;
use collation::Text;
use key_codec::Key;
use refusal::Refusal;
use std::alloc::Global;

// Whether one of the references is a proper descendant of the other.
fn is_overlap(a: &Key, b: &Key) -> bool
    ensures { result ≡ overlap a.now b.now }
{
    is_below(a, b) || is_below(b, a)
}

// Each member at or under the source, moved to the target, with its value, in order.
fn copies_of<V: OrderedView>(
    alloc: Global,
    view: &V,
    target: &Key,
    source: &Key,
) -> Result<Vec<(Key, Text)>, Refusal>
    ensures copies { IfOk result (λ copies. copies.items ≡ all_copies target.now source.now (V.content view.now)) }
    ensures refused { MatchResult result (λ _. list_any is_deep (all_copies target.now source.now (V.content view.now)) ≡ false)
        (λ refusal. (refusal ≡ Refusal.OutOfMemory) ⊎ ((refusal ≡ Refusal.TooManySubscripts) × (list_any is_deep (all_copies target.now source.now (V.content view.now)) ≡ true))) }
{
    let mut copies = Vec::new(alloc);
    for (key, value) in subtree(view, source) {
        match key.moved(alloc, source, target) {
            Ok(copy) => copies.push((copy, value.clone()?))?,
            Err(refusal) => return Err(refusal),
        }
    }
    Ok(copies)
}

/// What MERGE sets: each member at or under `source`, moved to `target`, with its value, in order. Where the references
/// are one it sets nothing, and nothing is refused.
///
/// Refusals: `MergeOverlap` where one of the references is a proper descendant of the other, before
/// `TooManySubscripts` where a copy would have over 31; `OutOfMemory`.
///
/// Source: ISO/IEC 11756:1999, MERGE. The refusals: docs/RULES.md, "Profile".
#[inline(never)]
pub fn merge_list<V: OrderedView>(
    alloc: Global,
    view: &V,
    target: &Key,
    source: &Key,
) -> Result<Vec<(Key, Text)>, Refusal>
    ensures copies { IfOk result (λ copies. copies.items ≡ merged target.now source.now (V.content view.now)) }
    ensures itself { ref_eq target.now source.now ≡ true → IsOk result }
    ensures overlaps { overlap target.now source.now ≡ true → IsErrOf result Refusal.MergeOverlap }
    ensures refused { MatchResult result (λ _. data_refusal (merge_command target.now source.now) (V.content view.now) ≡ None)
        (λ refusal. (refusal ≡ Refusal.OutOfMemory) ⊎ (data_refusal (merge_command target.now source.now) (V.content view.now) ≡ Some refusal)) }
{
    if is_overlap(target, source) {
        return Err(Refusal::MergeOverlap);
    }
    if target == source {
        return Ok(Vec::new(alloc));
    }
    copies_of(alloc, view, target, source)
}
