//! What data commands are answered on a view.
ghost use Rattle.std.specs.Prelude.{◌≡◌, Some, [], ◌∷◌, None, IfOk, OnOk, IfErr, IsErrOf, unwrap_or};
ghost use Rattle.std.specs.Option.{option_copied};
ghost use Rattle.command.specs.Data.{data_refusal, data_reply, look_refusal, look_reply, found_reply, sum_at};
ghost use Rattle.command.specs.declared.access.Answer.TheVariants.{Value};
ghost use Rattle.command.specs.declared.access.DataCommand.TheVariants.{Increment as increment_command};
ghost use Rattle.command.specs.declared.access.Look.TheVariants.{Order as order_command};
ghost use Rattle.globals.specs.Answering.{IsRuleOrMemory, early_refusal, copies_of};
ghost use Rattle.globals.specs.Fitting.{IsAnswerOf, IsLookAnswer, IsOrderAnswer};

use crate::{OrderedView, data, increment, merge_list, next_name, order, query};
use collation::{Direction, Text};
use command::{Answer, DataCommand, Look};
use key_codec::{Key, Place};
use refusal::Refusal;
use std::alloc::{AllocError, Global};

/// The answer of a command that only looks, on a view.
///
/// Refusals: `NeedSubscript` where $ORDER's place has no subscript; `OutOfMemory`, which no such $ORDER gets.
pub fn look<V: OrderedView>(alloc: Global, view: &V, look: &Look) -> Result<Answer, Refusal>
    ensures answer { IfOk result (λ answer. answer ≡ look_reply look.now (V.content view.now)) }
    ensures fits { IfOk result (λ answer. IsLookAnswer look.now answer) }
    ensures accepted { OnOk result (look_refusal look.now ≡ None) }
    ensures early { (refusal : Refusal) → look_refusal look.now ≡ Some refusal → IsErrOf result refusal }
    ensures cause { IfErr result (λ refusal. IsRuleOrMemory refusal (look_refusal look.now)) }
{
    match look {
        Look::Data(key) => Ok(Answer::Number(data(view, key))),
        Look::Get(key, default) => {
            let value = found_or(alloc, view.get(key), default)?;
            Ok(Answer::Value(value))
        }
        Look::Order(place, direction) => sibling_answer(alloc, view, place, *direction),
        Look::Query(place, direction) => {
            let found = found_answer(alloc, query(view, place, *direction))?;
            Ok(found)
        }
        Look::Name(start, direction) => {
            let found = next_name(alloc, view, start, *direction)?;
            Ok(name_answer(alloc, found))
        }
    }
}

// The name, or the empty string.
fn name_answer(alloc: Global, found: Option<Key>) -> Answer
    ensures { result ≡ found_reply found }
{
    match found {
        Some(key) => Answer::Found(key),
        None => Answer::Value(Text::new(alloc)),
    }
}

// The value, the default, or the empty string.
fn found_or(alloc: Global, found: Option<&Text>, default: &Option<Text>) -> Result<Text, AllocError>
    ensures { IfOk result (λ text. text ≡ unwrap_or (option_copied found.entry) (unwrap_or default.now [])) }
{
    match found {
        Some(value) => value.clone(),
        None => match default {
            Some(value) => value.clone(),
            None => Ok(Text::new(alloc)),
        },
    }
}

// The reference, or the empty string.
fn found_answer(alloc: Global, found: Option<&Key>) -> Result<Answer, AllocError>
    ensures { IfOk result (λ answer. answer ≡ found_reply (option_copied found.entry)) }
{
    match found {
        Some(key) => {
            let key = key.clone()?;
            Ok(Answer::Found(key))
        }
        None => Ok(Answer::Value(Text::new(alloc))),
    }
}

fn sibling_answer<V: OrderedView>(
    alloc: Global,
    view: &V,
    place: &Place,
    direction: Direction,
) -> Result<Answer, Refusal>
    ensures answer { IfOk result (λ answer. answer ≡ look_reply (order_command place.now direction) (V.content view.now)) }
    ensures fits { IfOk result (λ answer. IsOrderAnswer place.now answer) }
    ensures accepted { OnOk result (look_refusal (order_command place.now direction) ≡ None) }
    ensures early { (refusal : Refusal) → look_refusal (order_command place.now direction) ≡ Some refusal → IsErrOf result refusal }
    ensures cause { IfErr result (λ refusal. IsRuleOrMemory refusal (look_refusal (order_command place.now direction))) }
{
    match order(alloc, view, place, direction) {
        Ok(Some(subscript)) => Ok(Answer::Value(subscript)),
        Ok(None) => Ok(Answer::Value(Text::new(alloc))),
        Err(refusal) => Err(refusal),
    }
}

// $INCREMENT's answer, and the reference with the sum.
fn sum_answer<V: OrderedView>(
    alloc: Global,
    view: &V,
    key: &Key,
    number: &Text,
) -> Result<(Answer, Vec<(Key, Text)>), Refusal>
    ensures answer { IfOk result (λ r. r.0 ≡ Value (sum_at key.now number.now (V.content view.now))) }
    ensures copies { IfOk result (λ r. r.1.items ≡ (key.now, sum_at key.now number.now (V.content view.now)) ∷ []) }
    ensures accepted { OnOk result (data_refusal (increment_command key.now number.now) (V.content view.now) ≡ None) }
    ensures cause { IfErr result (λ refusal. IsRuleOrMemory refusal (data_refusal (increment_command key.now number.now) (V.content view.now))) }
{
    match increment(alloc, view, key, number) {
        Ok(sum) => match sum_copy(alloc, key, &sum) {
            Ok(copies) => Ok((Answer::Value(sum), copies)),
            Err(AllocError) => {
                drop(sum);
                Err(Refusal::OutOfMemory)
            }
        },
        Err(refusal) => Err(refusal),
    }
}

// The reference with the sum, alone.
fn sum_copy(alloc: Global, key: &Key, sum: &Text) -> Result<Vec<(Key, Text)>, AllocError>
    ensures { IfOk result (λ copies. copies.items ≡ (key.now, sum.now) ∷ []) }
{
    let mut copies = Vec::with_capacity(alloc, 1)?;
    let key = key.clone()?;
    let sum = sum.clone()?;
    copies.push_reserved((key, sum));
    Ok(copies)
}

/// The answer of a data command on a view, and what MERGE and $INCREMENT set there; the view stays as it is.
///
/// Refusals: the command's own rule (`NeedSubscript`, `MergeOverlap`, `TooManySubscripts`, `SumTooLong`); `OutOfMemory`,
/// which never hides a rule that is looked at before memory is asked for (`early_refusal`).
pub fn answer<V: OrderedView>(
    alloc: Global,
    view: &V,
    command: &DataCommand,
) -> Result<(Answer, Vec<(Key, Text)>), Refusal>
    ensures answer { IfOk result (λ r. r.0 ≡ data_reply command.now (V.content view.now)) }
    ensures fits { IfOk result (λ r. IsAnswerOf command.now r.0) }
    ensures copies { IfOk result (λ r. r.1.items ≡ copies_of command.now (V.content view.now)) }
    ensures accepted { OnOk result (data_refusal command.now (V.content view.now) ≡ None) }
    ensures early { (refusal : Refusal) → early_refusal command.now ≡ Some refusal → IsErrOf result refusal }
    ensures cause { IfErr result (λ refusal. IsRuleOrMemory refusal (data_refusal command.now (V.content view.now))) }
{
    match command {
        DataCommand::Set(_, _) | DataCommand::Kill(_, _) => Ok((Answer::Done, Vec::new(alloc))),
        DataCommand::Merge(target, source) => match merge_list(alloc, view, target, source) {
            Ok(copies) => Ok((Answer::Done, copies)),
            Err(refusal) => Err(refusal),
        },
        DataCommand::Increment(key, number) => sum_answer(alloc, view, key, number),
        DataCommand::Look(asked) => match look(alloc, view, asked) {
            Ok(answer) => Ok((answer, Vec::new(alloc))),
            Err(refusal) => Err(refusal),
        },
    }
}
