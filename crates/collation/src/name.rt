//! Names.
ghost use Rattle.std.specs.Prelude.{◌≡◌, MatchResult, true, false};
ghost use Rattle.std.specs.List.{list_all};
ghost use Rattle.collation.specs.Name.{is_name as name_ok, is_letter_or_digit as letter_or_digit};

use crate::{LONGEST_NAME, Text};
use refusal::Refusal;
use std::alloc::AllocError;
use std::marker::Model;

/// The name of a global: `%` or a letter, then letters and digits, at most 31 bytes.
#[derive(Debug, Drop)]
pub struct Name {
    bytes: Text,
}

impl Model for Name {
    ghost use Rattle.std.specs.Prelude.{List, ℕ, IsTrue};
    ghost use Rattle.collation.specs.Name.{is_name};

    ghost Value = { List ℕ };

    ghost view = { λ n. n.bytes };

    ghost invariant = { λ n. IsTrue (is_name n.bytes) };
}

fn is_letter_or_digit(byte: &u8) -> bool
    ensures { result ≡ letter_or_digit byte.now }
{
    byte.is_ascii_alphabetic() || byte.is_ascii_digit()
}

fn are_letters_or_digits(bytes: &[u8]) -> bool
    ensures { result ≡ list_all letter_or_digit bytes.now }
{
    bytes.iter().all(is_letter_or_digit)
}

/// Whether these bytes are a name. Takes any bytes.
pub fn is_name(bytes: &[u8]) -> bool
    ensures { result ≡ name_ok bytes.now }
{
    match bytes {
        [] => false,
        [first, rest @ ..] => {
            (*first == b'%' || first.is_ascii_alphabetic())
                && are_letters_or_digits(rest)
                && bytes.len() <= LONGEST_NAME
        }
    }
}

impl Name {
    /// The name of these bytes. Refused, `BadName`, where they are none.
    pub fn new(bytes: Text) -> Result<Name, Refusal>
        ensures { MatchResult result (λ name. (name_ok bytes ≡ true) × (name ≡ bytes))
            (λ refusal. (name_ok bytes ≡ false) × (refusal ≡ Refusal.BadName)) }
    {
        if is_name(bytes.as_slice()) {
            Ok(Name { bytes })
        } else {
            Err(Refusal::BadName)
        }
    }

    /// Its bytes, from 1 to 31.
    pub fn as_slice(&self) -> &[u8]
        ensures value { result.now ≡ self.now }
        ensures form { name_ok self.now ≡ true }
    {
        self.bytes.as_slice()
    }
}

impl Clone for Name {
    ghost use Rattle.std.specs.Prelude.{◌≡◌};

    ghost is_clone = { λ a b. a ≡ b };

    fn clone(&self) -> Result<Name, AllocError> {
        let bytes = self.bytes.clone()?;
        Ok(Name { bytes })
    }
}

impl PartialEq for Name {
    ghost use Rattle.std.specs.Prelude.{nat_eq};
    ghost use Rattle.std.specs.Cmp.{partial_equiv_from_equiv, nat_eq_equiv};
    ghost use Rattle.std.specs.Cmp.Lexicographic.{pointwise, lists_equiv};

    ghost eq = { pointwise nat_eq };

    ghost laws = { partial_equiv_from_equiv (lists_equiv nat_eq_equiv) };

    fn eq(&self, other: &Name) -> bool {
        self.as_slice() == other.as_slice()
    }
}

impl Eq for Name {
    ghost use Rattle.std.specs.Cmp.{nat_eq_equiv};
    ghost use Rattle.std.specs.Cmp.Lexicographic.{lists_equiv};

    ghost laws = { lists_equiv nat_eq_equiv };
}
