//! The sum of `$INCREMENT`.
ghost use Rattle.std.specs.Prelude.{◌≡◌, ◌⊎◌, Some, None, [], unwrap_or, length, IfOk, IfErr, MatchResult};
ghost use Rattle.std.specs.Option.{option_copied};
ghost use Rattle.command.specs.Data.{data_refusal, sum_at};
ghost use Rattle.command.specs.declared.access.DataCommand.TheVariants.{Increment as increment_command};
ghost use Rattle.decimal_sum.specs.Sums.{sum_of};

use crate::OrderedView;
use collation::{LONGEST_VALUE, Text};
use key_codec::Key;
use refusal::Refusal;
use std::alloc::Global;

// The sum of the numbers that a value, or the empty string, and a text begin with.
fn sum_with(alloc: Global, found: Option<&Text>, number: &Text) -> Result<Vec<u8>, Refusal>
    ensures sum { IfOk result (λ sum. sum.items ≡ sum_of (unwrap_or (option_copied found.entry) []) number.now) }
    ensures refused { IfErr result (λ refusal. refusal ≡ Refusal.OutOfMemory) }
{
    match found {
        Some(value) => decimal_sum::sum(alloc, value.as_slice(), number.as_slice()),
        None => decimal_sum::sum(alloc, b"", number.as_slice()),
    }
}

/// The sum of the number that the reference's value begins with, which is 0 where it has none, and of the number that a
/// text begins with: exact, in canonic form.
///
/// Refusals: `SumTooLong` where it would have more than 32,767 bytes; `OutOfMemory`.
///
/// Source: an extension that every M system has, and the standard hasn't.
#[inline(never)]
pub fn increment<V: OrderedView>(
    alloc: Global,
    view: &V,
    key: &Key,
    number: &Text,
) -> Result<Text, Refusal>
    ensures sum { IfOk result (λ sum. sum ≡ sum_at key.now number.now (V.content view.now)) }
    ensures refused { MatchResult result (λ _. data_refusal (increment_command key.now number.now) (V.content view.now) ≡ None)
        (λ refusal. (refusal ≡ Refusal.OutOfMemory) ⊎ (data_refusal (increment_command key.now number.now) (V.content view.now) ≡ Some refusal)) }
{
    let sum = sum_with(alloc, view.get(key), number)?;
    if sum.len() > LONGEST_VALUE {
        return Err(Refusal::SumTooLong);
    }
    match Text::from_vec(sum) {
        Ok(text) => Ok(text),
        Err(_) => Err(Refusal::OutOfMemory),
    }
}
