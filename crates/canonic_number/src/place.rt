//! A canonic number as its sign, the place of its point and its digits.
ghost use Rattle.std.specs.Prelude.{◌≡◌, ◌++◌, true, IfSome, is_some};
ghost use Rattle.std.specs.Char.{is_ascii_digit};
ghost use Rattle.std.specs.List.{list_all};
ghost use Rattle.canonic_number.specs.Number as number;
ghost use Rattle.canonic_number.specs.Place as place;
ghost use Rattle.canonic_number.specs.Parts.{is_ended};
ghost use Rattle.canonic_number.specs.PartsOf.{IsPartsOf};

use crate::digits::{after_zeros, before_zeros};
use crate::read::read_whole;
use crate::{Numeral, read_numeral};

/// A canonic number as its sign and 0.d1 d2 .. dk times 10^p, where d1 and dk aren't zero.
///
/// p is `whole` less `zeros`, one of which is 0. The digits are those of `first` and then those of `second`;
/// zero has none.
#[derive(Clone, Copy, Debug)]
pub struct NumberParts<'a> {
    pub negative: bool,
    /// How many digits stand before the point.
    pub whole: usize,
    /// How many zeros stand between the point and the first other digit, where no digit stands before it.
    pub zeros: usize,
    pub first: &'a [u8],
    pub second: &'a [u8],
}

/// The parts of a canonic number, lent from its text; none where the text isn't canonic.
pub fn parts(text: &[u8]) -> Option<NumberParts<'_>>
    ensures canonic { is_some result ≡ number.is_canonic text.now }
    ensures parts { IfSome result (IsPartsOf text.now) }
{
    let Numeral {
        negative,
        whole,
        fraction,
    } = read_numeral(text)?;
    let significant = after_zeros(fraction);
    if whole.is_empty() {
        return Some(NumberParts {
            negative,
            whole: 0,
            zeros: fraction.len() - significant.len(),
            first: whole,
            second: significant,
        });
    }
    let first = first_digits(whole, fraction);
    Some(NumberParts {
        negative,
        whole: whole.len(),
        zeros: 0,
        first,
        second: fraction,
    })
}

/// As `parts`, of a text that is known to be digits alone: they aren't looked at once more.
pub fn whole_parts(digits: &[u8]) -> Option<NumberParts<'_>>
    requires { list_all is_ascii_digit digits.now ≡ true }
    ensures canonic { is_some result ≡ number.is_canonic digits.now }
    ensures parts { IfSome result (IsPartsOf digits.now) }
{
    let Numeral {
        negative,
        whole,
        fraction,
    } = read_whole(digits)?;
    Some(NumberParts {
        negative,
        whole: whole.len(),
        zeros: 0,
        first: before_zeros(whole),
        second: fraction,
    })
}

// The digits of the whole part, without zeros at the end where no fraction follows.
fn first_digits<'a>(whole: &'a [u8], fraction: &[u8]) -> &'a [u8]
    requires { is_ended fraction.now ≡ true }
    ensures { result.now ++ fraction.now ≡ place.before_zeros (whole.now ++ fraction.now) }
{
    if fraction.is_empty() {
        before_zeros(whole)
    } else {
        whole
    }
}
