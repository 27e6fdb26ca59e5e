//! The subscripts of a key, one after another, as its bytes show them.
ghost use Rattle.std.specs.Prelude.{◌≡◌, ◌≤◌, ◌∷◌, ◌++◌, List, ℕ, IfOk, IfSome, OnOk, false, length, map};
ghost use Rattle.canonic_number.specs.Number.{is_canonic, scale};
ghost use Rattle.canonic_number.specs.Place.{pointed, written_at};
ghost use Rattle.collation.specs.Levels.{without_last};
ghost use Rattle.key_codec.specs.Grown.{GoesOnFrom};
ghost use Rattle.key_codec.specs.Key.{long_form, subscripts_key, AreSubscriptsWithin};
ghost use Rattle.key_codec.specs.Back.{first_subscript_of, first_number as first_number_spec, subscripts_up_to, unescaped};
ghost use Rattle.key_codec.specs.Reading.{tag_of, digit_of as digit_of_byte};
ghost use Rattle.key_codec.specs.Shown.{HasFirst, AreKeys, first};

use crate::escapes::push_unescaped;
use crate::number_bytes::{digit_of, place_from, push_number};
use crate::read::split_at_end;
use crate::read_subscript::{end_of, take_byte, take_word};
use crate::{ABOVE_ZERO, BELOW_ZERO, END, MOST_FRACTION_DIGITS, TEXT, ZERO};
use collation::Text;
use std::alloc::{AllocError, Global};
use std::marker::Model;

// The parts of a subscript's key: of a number, whether it is below zero, the number for its place and the bytes of its
// digits; of another text, its escaped bytes.
#[derive(Drop)]
enum Shown<'k> {
    Zero,
    Number(bool, u16, &'k [u8]),
    Other(&'k [u8]),
}

/// A subscript of a key, which is lent. Contracts see the subscript.
#[derive(Drop)]
pub struct KeySubscript<'k> {
    shown: Shown<'k>,
}

impl<'k> Model for KeySubscript<'k> {
    ghost use Rattle.std.specs.Prelude.{List, ℕ};
    ghost use Rattle.key_codec.specs.Shown.{shown_text, IsShown};

    ghost Value = { List ℕ };

    ghost view = { λ s. shown_text s.shown };

    ghost invariant = { λ s. IsShown s.shown };
}

impl KeySubscript<'_> {
    /// Whether it is a canonic number.
    pub fn is_number(&self) -> bool
        ensures { result ≡ is_canonic self.now }
    {
        match self.shown {
            Shown::Zero => true,
            Shown::Number(_, _, _) => true,
            Shown::Other(_) => false,
        }
    }

    /// Its bytes, where they stand in the key as they are: no number does.
    pub fn as_slice(&self) -> Option<&[u8]>
        ensures { IfSome result (λ bytes. bytes.now ≡ self.now) }
    {
        match self.shown {
            Shown::Zero => None,
            Shown::Number(_, _, _) => None,
            Shown::Other(escaped) => {
                if has_escapes(escaped) {
                    None
                } else {
                    Some(escaped)
                }
            }
        }
    }

    /// Writes it at the end of `out`.
    ///
    /// Where memory is refused a part may stand after what stood in `out`.
    pub fn push_to(&self, out: &mut Vec<u8>) -> Result<(), AllocError>
        ensures ok { OnOk result (out.new.items ≡ out.old.items ++ self.now) }
        ensures kept { GoesOnFrom out.old.items out.new.items }
    {
        match self.shown {
            Shown::Zero => {
                out.push(b'0')?;
                Ok(())
            }
            Shown::Number(negative, word, digits) => {
                push_number(out, negative, place_from(negative, word), digits)
            }
            Shown::Other(escaped) => push_unescaped(out, escaped),
        }
    }

    /// A copy of it.
    pub fn to_text(&self, alloc: Global) -> Result<Text, AllocError>
        ensures { IfOk result (λ text. text ≡ self.now) }
    {
        match self.as_slice() {
            Some(bytes) => Text::from_slice(alloc, bytes),
            None => text_of(alloc, self),
        }
    }
}

// A whole number above zero with so many digits, of which those that aren't in the bytes are zeros. It takes no memory:
// so many bytes lie in the text.
fn small_whole(alloc: Global, whole: usize, digits: &[u8]) -> Result<Text, AllocError>
    requires small { whole ≤ 14 }
    requires all { length digits.now ≤ whole }
    ensures { IfOk result (λ text. text ≡ pointed whole (map (digit_of_byte false) digits.now)) }
{
    let mut room = [b'0'; 14];
    for at in 0..digits.len() {
        room[at] = digit_of(false, digits[at]);
    }
    Text::from_slice(alloc, &room[..whole])
}

// A number above zero by the place of its point and the bytes of its digits.
fn above_zero(alloc: Global, place: usize, digits: &[u8]) -> Result<Text, AllocError>
    ensures { IfOk result (λ text. text ≡ written_at scale place (map (digit_of_byte false) digits.now)) }
{
    if place > MOST_FRACTION_DIGITS {
        let whole = place - MOST_FRACTION_DIGITS;
        if whole <= 14 && digits.len() <= whole {
            return small_whole(alloc, whole, digits);
        }
    }
    let mut draft = Vec::new(alloc);
    push_number(&mut draft, false, place, digits)?;
    Text::from_slice(alloc, draft.as_slice())
}

// The bytes, written out.
fn text_of(alloc: Global, subscript: &KeySubscript<'_>) -> Result<Text, AllocError>
    ensures { IfOk result (λ text. text ≡ subscript.now) }
{
    if let Shown::Number(false, word, digits) = subscript.shown {
        return above_zero(alloc, place_from(false, word), digits);
    }
    let mut draft = Vec::new(alloc);
    subscript.push_to(&mut draft)?;
    Text::from_slice(alloc, draft.as_slice())
}

// Whether some byte of escaped bytes stands for another.
fn has_escapes(escaped: &[u8]) -> bool
    ensures { result ≡ false → unescaped escaped.now ≡ escaped.now }
{
    escaped.contains(&1)
}

// The number whose key stands in front, less its first byte, and what follows it.
fn first_number(negative: bool, bytes: &[u8]) -> (KeySubscript<'_>, &[u8])
    requires { HasFirst (tag_of negative ∷ bytes.now) }
    ensures subscript { result.0 ≡ (first_number_spec negative bytes.now).subscript }
    ensures rest { result.1.now ≡ (first_number_spec negative bytes.now).rest }
{
    let Some((word, behind)) = take_word(bytes) else {
        unreachable!()
    };
    let Some((digits, rest)) = split_at_end(behind, end_of(negative)) else {
        unreachable!()
    };
    let shown = Shown::Number(negative, word, digits);
    (KeySubscript { shown }, rest)
}

// The other string whose key stands in front, less its first byte, and what follows it.
fn first_other(bytes: &[u8]) -> (KeySubscript<'_>, &[u8])
    requires { HasFirst (5 ∷ bytes.now) }
    ensures subscript { result.0 ≡ (first_subscript_of (5 ∷ bytes.now)).subscript }
    ensures rest { result.1.now ≡ (first_subscript_of (5 ∷ bytes.now)).rest }
{
    let Some((escaped, rest)) = split_at_end(bytes, END) else {
        unreachable!()
    };
    let shown = Shown::Other(escaped);
    (KeySubscript { shown }, rest)
}

// The subscript whose key stands in front, and what follows it.
fn first_subscript(bytes: &[u8]) -> (KeySubscript<'_>, &[u8])
    requires { HasFirst bytes.now }
    ensures subscript { result.0 ≡ (first_subscript_of bytes.now).subscript }
    ensures rest { result.1.now ≡ (first_subscript_of bytes.now).rest }
{
    let Some((tag, behind)) = take_byte(bytes) else {
        unreachable!()
    };
    match tag {
        BELOW_ZERO => first_number(true, behind),
        ZERO => {
            let shown = Shown::Zero;
            (KeySubscript { shown }, behind)
        }
        ABOVE_ZERO => first_number(false, behind),
        TEXT => first_other(behind),
        _ => unreachable!(),
    }
}

/// The subscripts of a key, or what is left of them, in order. It takes no memory, and is seen as their list.
#[derive(Drop)]
pub struct KeySubscripts<'k> {
    bytes: &'k [u8],
}

impl<'k> Model for KeySubscripts<'k> {
    ghost use Rattle.std.specs.Prelude.{List, ℕ, length};
    ghost use Rattle.key_codec.specs.Back.{subscripts_up_to};
    ghost use Rattle.key_codec.specs.Shown.{AreKeys};

    ghost Value = { List (List ℕ) };

    ghost view = { λ s. subscripts_up_to (length s.bytes.now) s.bytes.now };

    ghost invariant = { λ s. AreKeys s.bytes.now };
}

// The subscripts with these keys.
pub(crate) fn subscripts_of(bytes: &[u8]) -> KeySubscripts<'_>
    requires { AreKeys bytes.now }
    ensures { result ≡ subscripts_up_to (length bytes.now) bytes.now }
{
    KeySubscripts { bytes }
}

impl<'k> Iterator for KeySubscripts<'k> {
    ghost use Rattle.std.specs.Iterator.{YieldsFirstBy, item_count};

    type Item = KeySubscript<'k>;

    ghost next_gives = { YieldsFirstBy (λ s. s) (λ w. w) };

    ghost remaining = { item_count (λ w. w) };

    fn next(&mut self) -> Option<KeySubscript<'k>> {
        if self.bytes.is_empty() {
            return None;
        }
        let (subscript, rest) = first_subscript(self.bytes);
        self.bytes = rest;
        Some(subscript)
    }
}

// The first of the subscripts with these keys, written out.
pub(crate) fn first_child(alloc: Global, keys: &[u8]) -> Result<Option<Text>, AllocError>
    requires { AreKeys keys.now }
    ensures { IfOk result (λ child. child ≡ first (subscripts_up_to (length keys.now) keys.now)) }
{
    match subscripts_of(keys).next() {
        Some(child) => {
            let text = child.to_text(alloc)?;
            Ok(Some(text))
        }
        None => Ok(None),
    }
}

// The key of the last subscript, and nothing where there is none.
pub(crate) fn last_key(keys: &[u8]) -> &[u8]
    requires { AreKeys keys.now }
    ensures { (ss : List (List ℕ)) → AreSubscriptsWithin long_form ss → keys.now ≡ subscripts_key long_form ss → keys.now ≡ subscripts_key long_form (without_last ss) ++ result.now }
{
    if keys.is_empty() {
        return keys;
    }
    let (_, rest) = first_subscript(keys);
    if rest.is_empty() {
        keys
    } else {
        last_key(rest)
    }
}
