//! Strings of bytes, short ones without an allocation.
ghost use Rattle.std.specs.Prelude.{◌≡◌, ◌==◌, ◌++◌, ◌+◌, ◌≤◌, ◌<◌, [], length, IsOk, IfOk, OnOk, OnErr};

use std::alloc::{AllocError, Global};
use std::cmp::Ordering;
use std::default::MadeWith;
use std::fmt;
use std::hash::{Hash, Hasher};
use std::marker::Model;

// How many bytes lie in the value: with their number and what tells a short text from a long one they make 16.
const MOST_SHORT: usize = 14;

// Short bytes lie at the front of the room; longer ones lie behind one word, so that the value is no larger for them.
// Number and room are two fields, and no struct: so a move takes them in pieces that don't lap over one another.
#[derive(Drop)]
enum Held {
    Short(u8, [u8; 14]),
    Long(Box<Vec<u8>>),
}

/// A string of bytes that takes 16 bytes. Up to 14 lie in the value itself, since most subscripts and values are that
/// short.
#[derive(Drop)]
pub struct Text {
    alloc: Global,
    held: Held,
}

impl Model for Text {
    ghost use Rattle.std.specs.Prelude.{List, ℕ};
    ghost use Rattle.collation.specs.Held.{bytes_of, IsHeld};

    ghost Value = { List ℕ };

    ghost view = { λ t. bytes_of t.held };

    ghost invariant = { λ t. IsHeld t.held };
}

// These bytes in the value.
fn short(alloc: Global, bytes: &[u8]) -> Text
    requires { length bytes.now ≤ 14 }
    ensures { result ≡ bytes.now }
{
    let mut room = [0; 14];
    room[..bytes.len()].copy_from_slice(bytes);
    Text {
        alloc,
        held: Held::Short(bytes.len() as u8, room),
    }
}

// The one, and the other after it, in the value.
fn short_joined(alloc: Global, first: &[u8], second: &[u8]) -> Text
    requires { length first.now + length second.now ≤ 14 }
    ensures { result ≡ first.now ++ second.now }
{
    let len = first.len() + second.len();
    let mut room = [0; 14];
    room[..first.len()].copy_from_slice(first);
    room[first.len()..len].copy_from_slice(second);
    Text {
        alloc,
        held: Held::Short(len as u8, room),
    }
}

// These bytes in a box, where memory is had for it.
fn boxed(alloc: Global, bytes: Vec<u8>) -> Result<Text, AllocError>
    requires { 14 < length bytes.items }
    ensures { IfOk result (λ text. text ≡ bytes.items) }
{
    let bytes = Box::new(alloc, bytes)?;
    Ok(Text {
        alloc,
        held: Held::Long(bytes),
    })
}

// The one, and the other after it; longer ones in an allocation of their size.
fn joined(alloc: Global, first: &[u8], second: &[u8]) -> Result<Text, AllocError>
    ensures ok { IfOk result (λ text. text ≡ first.now ++ second.now) }
    ensures short { length first.now + length second.now ≤ 14 → IsOk result }
{
    let len = first.len().saturating_add(second.len());
    if len <= MOST_SHORT {
        return Ok(short_joined(alloc, first, second));
    }
    let mut bytes = Vec::with_capacity(alloc, len)?;
    bytes.extend_from_slice(first)?;
    bytes.extend_from_slice(second)?;
    boxed(alloc, bytes)
}

impl Text {
    /// The empty string. Takes no memory.
    pub fn new(alloc: Global) -> Text
        ensures { result ≡ [] }
    {
        short(alloc, &[])
    }

    /// A copy of these bytes. Fails only for want of memory, and never at 14 bytes or fewer.
    pub fn from_slice(alloc: Global, bytes: &[u8]) -> Result<Text, AllocError>
        ensures ok { IfOk result (λ text. text ≡ bytes.now) }
        ensures short { length bytes.now ≤ 14 → IsOk result }
    {
        if bytes.len() > MOST_SHORT {
            return boxed(alloc, Vec::from_slice(alloc, bytes)?);
        }
        Ok(short(alloc, bytes))
    }

    /// The bytes of a list, which is let go of in any case: where they are short they are copied into the value, and where
    /// memory is refused nothing is left of them. Fails only for want of memory, and never at 14 bytes or fewer.
    pub fn from_vec(bytes: Vec<u8>) -> Result<Text, AllocError>
        ensures ok { IfOk result (λ text. text ≡ bytes.items) }
        ensures short { length bytes.items ≤ 14 → IsOk result }
    {
        let alloc = *bytes.allocator();
        if bytes.len() > MOST_SHORT {
            return boxed(alloc, bytes);
        }
        Ok(short(alloc, bytes.as_slice()))
    }

    /// Its bytes.
    pub fn as_slice(&self) -> &[u8]
        ensures { result.now ≡ self.now }
    {
        match &self.held {
            Held::Short(len, room) => &room[..*len as usize],
            Held::Long(bytes) => bytes.as_slice(),
        }
    }

    /// How many bytes it has.
    pub fn len(&self) -> usize
        ensures { result ≡ length self.now }
    {
        self.as_slice().len()
    }

    /// Whether it is the empty string.
    pub fn is_empty(&self) -> bool
        ensures { result ≡ (length self.now == 0) }
    {
        self.len() == 0
    }

    /// Puts these bytes at its end. Where memory is refused it stays as it was; a text that stays within 14 bytes needs none.
    pub fn extend_from_slice(&mut self, more: &[u8]) -> Result<(), AllocError>
        ensures ok { OnOk result (self.new ≡ self.old ++ more.now) }
        ensures err { OnErr result (self.new ≡ self.old) }
        ensures short { length self.old + length more.now ≤ 14 → IsOk result }
    {
        if let Held::Long(bytes) = &mut self.held {
            return bytes.extend_from_slice(more);
        }
        *self = joined(self.alloc, self.as_slice(), more)?;
        Ok(())
    }
}

impl MadeWith<Global> for Text {
    ghost use Rattle.std.specs.Prelude.{◌≡◌, []};

    ghost is_made_with = { λ text. text ≡ [] };

    fn made_with(alloc: Global) -> Text {
        Text::new(alloc)
    }
}

// Of the room only the bytes are shown.
impl fmt::Debug for Text {
    fn fmt<W: fmt::Write>(&self, f: &mut fmt::Formatter<W>) -> fmt::Result {
        f.debug_struct("Text")
            .field("bytes", &self.as_slice())
            .finish()
    }
}

impl Clone for Text {
    ghost use Rattle.std.specs.Prelude.{◌≡◌, ◌≤◌, length};

    ghost is_clone = { λ a b. a ≡ b };

    ghost is_infallible = { λ t. length t ≤ 14 };

    /// A copy. Fails only for want of memory, and never at 14 bytes or fewer.
    fn clone(&self) -> Result<Text, AllocError> {
        match &self.held {
            Held::Short(len, room) => Ok(Text {
                alloc: self.alloc,
                held: Held::Short(*len, *room),
            }),
            Held::Long(bytes) => Text::from_slice(self.alloc, bytes),
        }
    }
}

impl PartialEq for Text {
    ghost use Rattle.std.specs.Prelude.{nat_eq};
    ghost use Rattle.std.specs.Cmp.{partial_equiv_from_equiv, nat_eq_equiv};
    ghost use Rattle.std.specs.Cmp.Lexicographic.{pointwise, lists_equiv};

    ghost eq = { pointwise nat_eq };

    ghost laws = { partial_equiv_from_equiv (lists_equiv nat_eq_equiv) };

    fn eq(&self, other: &Text) -> bool {
        self.as_slice() == other.as_slice()
    }
}

impl Eq for Text {
    ghost use Rattle.std.specs.Cmp.{nat_eq_equiv};
    ghost use Rattle.std.specs.Cmp.Lexicographic.{lists_equiv};

    ghost laws = { lists_equiv nat_eq_equiv };
}

// By bytes; M's order of subscripts is `cmp_subscript`.
impl Ord for Text {
    ghost use Rattle.std.specs.Prelude.{refl};
    ghost use Rattle.std.specs.Ordering.{nat_cmp};
    ghost use Rattle.std.specs.Cmp.Lexicographic.{slice_cmp, nat_list_cmp_total, texts_ties};

    ghost cmp = { slice_cmp nat_cmp };

    ghost total = { nat_list_cmp_total };

    ghost matches_partial_cmp = { λ _ _. refl };

    ghost matches_eq = { texts_ties };

    fn cmp(&self, other: &Text) -> Ordering {
        self.as_slice().cmp(&other.as_slice())
    }
}

impl PartialOrd for Text {
    ghost use Rattle.std.specs.Prelude.{refl};
    ghost use Rattle.std.specs.Ordering.{nat_cmp, as_partial_cmp};
    ghost use Rattle.std.specs.Cmp.{partial_order_from_agreeing_total};
    ghost use Rattle.std.specs.Cmp.Lexicographic.{slice_cmp, nat_list_cmp_total, texts_ties};

    ghost partial_cmp = { as_partial_cmp (slice_cmp nat_cmp) };

    ghost laws = { partial_order_from_agreeing_total (slice_cmp nat_cmp) nat_list_cmp_total (λ _ _. refl) texts_ties };

    fn partial_cmp(&self, other: &Text) -> Option<Ordering> {
        Some(self.cmp(other))
    }
}

impl Hash for Text {
    ghost use Rattle.std.specs.Hash as fed;
    ghost use Rattle.std.specs.Hash.{same_Alike};
    ghost use Rattle.std.specs.Cmp.Lexicographic.{bytes_decides};

    ghost hash_input = { fed.slice fed.u8 };

    ghost respects_eq = { (same_Alike (fed.slice fed.u8) bytes_decides).fed };

    fn hash<H: Hasher>(&self, state: &mut H) {
        self.as_slice().hash(state);
    }
}
