//! The order of subscripts.
ghost use Rattle.std.specs.Prelude.{◌≡◌, ◌≤◌, length};
ghost use Rattle.canonic_number.specs.Number.{limit};
ghost use Rattle.collation.specs.Order.{subscript_cmp};

use canonic_number::{cmp_numerals, read_numeral};
use std::cmp::Ordering;

/// Compares two subscripts: canonic numbers by value, then other texts by their bytes.
pub fn cmp_subscript(a: &[u8], b: &[u8]) -> Ordering
    requires a_short { length a.now ≤ limit }
    requires b_short { length b.now ≤ limit }
    ensures { result ≡ subscript_cmp a.now b.now }
{
    match (read_numeral(a), read_numeral(b)) {
        (Some(x), Some(y)) => cmp_numerals(&x, &y),
        (Some(_), None) => Ordering::Less,
        (None, Some(_)) => Ordering::Greater,
        (None, None) => a.cmp(&b),
    }
}
