//! Tests of digits, and digits without the zeros at one end.
ghost use Rattle.std.specs.Prelude.{◌≡◌};
ghost use Rattle.std.specs.Char.{is_ascii_digit};
ghost use Rattle.std.specs.List.{list_all};
ghost use Rattle.canonic_number.specs.Number as number;
ghost use Rattle.canonic_number.specs.Place as place;

pub(crate) fn are_digits(bytes: &[u8]) -> bool
    ensures { result ≡ list_all is_ascii_digit bytes.now }
{
    bytes.iter().all(u8::is_ascii_digit)
}

pub(crate) fn begins_with_0(digits: &[u8]) -> bool
    ensures { result ≡ number.begins_with_0 digits.now }
{
    matches!(digits, [b'0', ..])
}

#[tactic(auto, using(crate::proofs::Ends::ends_above_0_last))]
fn ends_above_0(digits: &[u8]) -> bool
    ensures { result ≡ number.ends_above_0 digits.now }
{
    !digits.is_empty() && digits[digits.len() - 1] != b'0'
}

fn ends_with_0(digits: &[u8]) -> bool
    ensures { result ≡ place.ends_with_0 digits.now }
{
    !digits.is_empty() && !ends_above_0(digits)
}

// Digits, the last not 0.
pub(crate) fn is_fraction(digits: &[u8]) -> bool
    ensures { result ≡ number.is_fraction digits.now }
{
    are_digits(digits) && ends_above_0(digits)
}

// The digits without the zeros in front.
pub(crate) fn after_zeros(digits: &[u8]) -> &[u8]
    ensures { result.now ≡ place.after_zeros digits.now }
{
    let mut rest = digits;
    while let [b'0', more @ ..] = rest {
        rest = more;
    }
    rest
}

// The digits without the zeros at the end.
pub(crate) fn before_zeros(digits: &[u8]) -> &[u8]
    ensures { result.now ≡ place.before_zeros digits.now }
{
    let mut rest = digits;
    while ends_with_0(rest) {
        rest = &rest[..rest.len() - 1];
    }
    rest
}
