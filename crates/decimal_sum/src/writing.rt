//! The canonic text of digits.
ghost use Rattle.std.specs.Prelude.{◌≡◌, ◌≤◌, length, IfErr, IfOk};
ghost use Rattle.canonic_number.specs.Literal as literal;
ghost use Rattle.decimal_sum.specs.Sums.{parted};
ghost use Rattle.refusal.specs.declared.Refusal.{Refusal};

use crate::digits::{after_zeros, before_zeros};
use refusal::Refusal;
use std::alloc::Global;

// The text with these digits before the point and after it, the first and the last not zero.
pub(crate) fn write_shortest(
    alloc: Global,
    negative: bool,
    whole: &[u8],
    fraction: &[u8],
) -> Result<Vec<u8>, Refusal>
    ensures text { IfOk result (λ text. text.items ≡ literal.shortest negative whole.now fraction.now) }
    ensures refused { IfErr result (λ refusal. refusal ≡ Refusal.OutOfMemory) }
{
    if whole.is_empty() && fraction.is_empty() {
        let text = Vec::from_slice(alloc, b"0")?;
        return Ok(text);
    }
    let digits = whole.len().saturating_add(fraction.len());
    let mut text = Vec::with_capacity(alloc, digits.saturating_add(2))?;
    if negative {
        text.push(b'-')?;
    }
    text.extend_from_slice(whole)?;
    if !fraction.is_empty() {
        text.push(b'.')?;
        text.extend_from_slice(fraction)?;
    }
    Ok(text)
}

// The text of digits of which so many stand before the point.
pub(crate) fn write_parted(
    alloc: Global,
    negative: bool,
    whole: usize,
    digits: &[u8],
) -> Result<Vec<u8>, Refusal>
    requires { whole ≤ length digits.now }
    ensures text { IfOk result (λ text. text.items ≡ parted negative whole digits.now) }
    ensures refused { IfErr result (λ refusal. refusal ≡ Refusal.OutOfMemory) }
{
    let (before, after) = digits.split_at(whole);
    write_shortest(alloc, negative, after_zeros(before), before_zeros(after))
}
