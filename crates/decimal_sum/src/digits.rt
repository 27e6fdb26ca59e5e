//! Digits without the zeros at one end.
ghost use Rattle.std.specs.Prelude.{◌≡◌};
ghost use Rattle.canonic_number.specs.Number as number;
ghost use Rattle.canonic_number.specs.Place as place;

#[tactic(auto, using(crate::proofs::Zeros::ends_above_0_last))]
fn ends_with_0(digits: &[u8]) -> bool
    ensures { result ≡ place.ends_with_0 digits.now }
{
    !digits.is_empty() && digits[digits.len() - 1] == b'0'
}

// The digits without the zeros in front.
pub(crate) fn after_zeros(digits: &[u8]) -> &[u8]
    ensures { result.now ≡ place.after_zeros digits.now }
{
    let mut rest = digits;
    while let [b'0', more @ ..] = rest {
        rest = more;
    }
    rest
}

// The digits without the zeros at the end.
pub(crate) fn before_zeros(digits: &[u8]) -> &[u8]
    ensures { result.now ≡ place.before_zeros digits.now }
{
    let mut rest = digits;
    while ends_with_0(rest) {
        rest = &rest[..rest.len() - 1];
    }
    rest
}
