//! `$ORDER`.
ghost use Rattle.std.specs.Prelude.{◌≡◌, ◌⊎◌, true, false, Some, None, [], unwrap_or, IfOk, IfSome, IsErrOf, MatchResult};
ghost use Rattle.collation.specs.Levels.{below, has_level as has_level_spec, parent_of};
ghost use Rattle.collation.specs.Answers.{is_forward, order_of};
ghost use Rattle.key_codec.specs.Key.{IsFaultless};
ghost use Rattle.command.specs.Data.{look_refusal};
ghost use Rattle.command.specs.declared.access.Look.TheVariants.{Order as order_command};

use crate::OrderedView;
use crate::levels::has_level;
use crate::starts::order_start;
use crate::view::key_at;
use collation::{Direction, Text};
use key_codec::Place;
use refusal::Refusal;
use std::alloc::{AllocError, Global};

// The nearest subscript at the level of the place's last one, from the place on.
fn nearest_sibling<V: OrderedView>(
    alloc: Global,
    view: &V,
    place: &Place,
    direction: Direction,
) -> Result<Option<Text>, AllocError>
    requires { has_level_spec place.now ≡ true }
    ensures answer { IfOk result (λ answer. unwrap_or answer [] ≡ order_of (is_forward direction) place.now (V.content view.now)) }
    ensures fits { IfOk result (λ answer. IfSome answer (λ s. IsFaultless (below (parent_of place.now) s))) }
{
    match key_at(view, order_start(place, direction), direction) {
        Some(key) => place.child_toward(alloc, key),
        None => Ok(None),
    }
}

/// The nearest subscript at the level of the place's last one that stands beyond it and has a value or
/// descendants. None where there is no such subscript.
///
/// An empty last subscript starts before the first, and backward after the last. Takes memory only for an answer of
/// over 14 bytes.
/// Refusals: `NeedSubscript` where the place has no subscript; `OutOfMemory`, which no such place gets.
///
/// Source: ISO/IEC 11756:1999, $ORDER. That a bare name is refused: docs/RULES.md, "Profile".
#[inline(never)]
pub fn order<V: OrderedView>(
    alloc: Global,
    view: &V,
    place: &Place,
    direction: Direction,
) -> Result<Option<Text>, Refusal>
    ensures answer { IfOk result (λ answer. unwrap_or answer [] ≡ order_of (is_forward direction) place.now (V.content view.now)) }
    ensures fits { IfOk result (λ answer. IfSome answer (λ s. IsFaultless (below (parent_of place.now) s))) }
    ensures bare { has_level_spec place.now ≡ false → IsErrOf result Refusal.NeedSubscript }
    ensures refused { MatchResult result (λ _. look_refusal (order_command place.now direction) ≡ None)
        (λ refusal. (refusal ≡ Refusal.OutOfMemory) ⊎ (look_refusal (order_command place.now direction) ≡ Some refusal)) }
{
    if !has_level(place) {
        return Err(Refusal::NeedSubscript);
    }
    let answer = nearest_sibling(alloc, view, place, direction)?;
    Ok(answer)
}
