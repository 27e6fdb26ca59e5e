//! Strings of bytes, of which the short ones lie in the value itself.
ghost use Rattle.std.specs.Prelude.{◌≡◌, ℕ, ◌+◌, ◌≤◌, ◌++◌, length, take, drop, IfOk, IsOk};
ghost use Rattle.std.specs.Ordering.{nat_cmp, is_le};
ghost use Rattle.std.specs.Cmp.Lexicographic.{slice_cmp};
ghost use Rattle.key_codec.specs.Held.{IsFilled};

use crate::order::{before_past, compare, compare_eight, eight_before_past};
use std::alloc::{AllocError, Global};
use std::cmp::Ordering;
use std::marker::Model;

// How many bytes lie in the value: with them it is as large as with 24, and keys of a name and two or three usual
// subscripts fit.
const MOST_SHORT: usize = 38;

// Short bytes lie at the front of the room, and after them it is zeros: so two rooms are compared whole.
#[derive(Debug, Drop)]
enum Held {
    Short(u8, [u8; 38]),
    Long(Vec<u8>),
}

/// A string of bytes that takes 40 bytes, and memory only where it has over 38.
#[derive(Debug, Drop)]
pub(crate) struct KeyBytes {
    held: Held,
}

impl Model for KeyBytes {
    ghost use Rattle.std.specs.Prelude.{List, ℕ};
    ghost use Rattle.key_codec.specs.Held.{bytes_of, IsHeld};

    ghost Value = { List ℕ };

    ghost view = { λ k. bytes_of k.held };

    ghost invariant = { λ k. IsHeld k.held };
}

// The bytes in the value.
fn short(bytes: &[u8]) -> KeyBytes
    requires { length bytes.now ≤ 38 }
    ensures { result ≡ bytes.now }
{
    let mut room = [0; 38];
    room[..bytes.len()].copy_from_slice(bytes);
    KeyBytes {
        held: Held::Short(bytes.len() as u8, room),
    }
}

// The one, and the other after it, in the value.
fn short_joined(first: &[u8], second: &[u8]) -> KeyBytes
    requires { length first.now + length second.now ≤ 38 }
    ensures { result ≡ first.now ++ second.now }
{
    let len = first.len() + second.len();
    let mut room = [0; 38];
    room[..first.len()].copy_from_slice(first);
    room[first.len()..len].copy_from_slice(second);
    KeyBytes {
        held: Held::Short(len as u8, room),
    }
}

// The one, and the other after it, in an allocation of their size.
fn long(alloc: Global, first: &[u8], second: &[u8]) -> Result<Vec<u8>, AllocError>
    ensures { IfOk result (λ bytes. bytes.items ≡ first.now ++ second.now) }
{
    let mut bytes = Vec::with_capacity(alloc, first.len().saturating_add(second.len()))?;
    bytes.extend_from_slice(first)?;
    bytes.extend_from_slice(second)?;
    Ok(bytes)
}

// The eight bytes from a place on.
fn eight_at(room: &[u8; 38], at: usize) -> [u8; 8]
    requires { at ≤ 30 }
    ensures { result ≡ take 8 (drop at room.now) }
{
    [
        room[at],
        room[at + 1],
        room[at + 2],
        room[at + 3],
        room[at + 4],
        room[at + 5],
        room[at + 6],
        room[at + 7],
    ]
}

// How two rooms compare: by eight bytes at a time, at last by those from 30 on, of which two were compared before.
fn compare_rooms(first: &[u8; 38], second: &[u8; 38]) -> Ordering
    ensures { result ≡ slice_cmp nat_cmp first.now second.now }
{
    for word in 0..4usize {
        match compare_eight(&eight_at(first, 8 * word), &eight_at(second, 8 * word)) {
            Ordering::Equal => {}
            unequal => return unequal,
        }
    }
    compare_eight(&eight_at(first, 30), &eight_at(second, 30))
}

// Whether the first so many bytes of one room, as many as are counted, compare less than or equal to those of the other.
fn room_before_past(first: &[u8; 38], second: &[u8; 38], len: usize) -> bool
    requires { len ≤ 38 }
    ensures { result ≡ is_le (slice_cmp nat_cmp (take len first.now) (take len second.now)) }
{
    for word in 0..4usize {
        let here = eight_at(first, 8 * word);
        let there = eight_at(second, 8 * word);
        match compare_eight(&here, &there) {
            Ordering::Equal => {}
            _ => return eight_before_past(&here, &there, len.saturating_sub(8 * word)),
        }
    }
    eight_before_past(
        &eight_at(first, 30),
        &eight_at(second, 30),
        len.saturating_sub(30),
    )
}

// The same of bytes in the value: the zeros after the shorter ones don't decide.
fn short_before_past(room: &[u8; 38], root_len: u8, root: &[u8; 38]) -> bool
    requires { IsFilled root_len root.now }
    ensures { (len : ℕ) → IsFilled len room.now → result ≡ is_le (slice_cmp nat_cmp (take (length (take root_len root.now)) (take len room.now)) (take root_len root.now)) }
{
    room_before_past(room, root, root_len as usize)
}

// Rooms compare as the bytes in them, since both are zeros after these: where the rooms are equal, the shorter bytes
// stand first.
fn compare_short(len: u8, room: &[u8; 38], other_len: u8, other_room: &[u8; 38]) -> Ordering
    requires first { IsFilled len room.now }
    requires second { IsFilled other_len other_room.now }
    ensures { result ≡ slice_cmp nat_cmp (take len room.now) (take other_len other_room.now) }
{
    match compare_rooms(room, other_room) {
        Ordering::Less => Ordering::Less,
        Ordering::Equal => len.cmp(&other_len),
        Ordering::Greater => Ordering::Greater,
    }
}

impl KeyBytes {
    /// The one, and the other after it. Takes memory only past 38 bytes.
    pub(crate) fn joined(alloc: Global, first: &[u8], second: &[u8]) -> Result<KeyBytes, AllocError>
        ensures bytes { IfOk result (λ bytes. bytes ≡ first.now ++ second.now) }
        ensures short { length first.now + length second.now ≤ 38 → IsOk result }
    {
        if first.len().saturating_add(second.len()) <= MOST_SHORT {
            return Ok(short_joined(first, second));
        }
        let held = Held::Long(long(alloc, first, second)?);
        Ok(KeyBytes { held })
    }

    /// The bytes of a slice. Takes memory only past 38 bytes.
    pub(crate) fn from_slice(alloc: Global, bytes: &[u8]) -> Result<KeyBytes, AllocError>
        ensures bytes { IfOk result (λ copy. copy ≡ bytes.now) }
        ensures short { length bytes.now ≤ 38 → IsOk result }
    {
        if bytes.len() > MOST_SHORT {
            let held = Held::Long(Vec::from_slice(alloc, bytes)?);
            return Ok(KeyBytes { held });
        }
        Ok(short(bytes))
    }

    /// The bytes of a list, whose allocation is let go of where they are short.
    pub(crate) fn from_vec(bytes: Vec<u8>) -> KeyBytes
        ensures { result ≡ bytes.items }
    {
        if bytes.len() <= MOST_SHORT {
            return short(bytes.as_slice());
        }
        KeyBytes {
            held: Held::Long(bytes),
        }
    }

    pub(crate) fn as_slice(&self) -> &[u8]
        ensures { result.now ≡ self.now }
    {
        match &self.held {
            Held::Short(len, room) => &room[..*len as usize],
            Held::Long(bytes) => bytes.as_slice(),
        }
    }

    /// How the bytes compare, one after the other, a beginning first.
    pub(crate) fn compare(&self, other: &KeyBytes) -> Ordering
        ensures { result ≡ slice_cmp nat_cmp self.now other.now }
    {
        match (&self.held, &other.held) {
            (Held::Short(len, room), Held::Short(other_len, other_room)) => {
                compare_short(*len, room, *other_len, other_room)
            }
            _ => compare(self.as_slice(), other.as_slice()),
        }
    }

    /// Whether the bytes begin with the root's or stand before them.
    pub(crate) fn stand_before_past(&self, root: &KeyBytes) -> bool
        ensures { result ≡ is_le (slice_cmp nat_cmp (take (length root.now) self.now) root.now) }
    {
        match (&self.held, &root.held) {
            (Held::Short(_, room), Held::Short(root_len, root_room)) => {
                short_before_past(room, *root_len, root_room)
            }
            _ => before_past(self.as_slice(), root.as_slice()),
        }
    }
}

impl Clone for KeyBytes {
    ghost use Rattle.std.specs.Prelude.{◌≡◌, ◌≤◌, length};

    ghost is_clone = { λ a b. a ≡ b };

    ghost is_infallible = { λ b. length b ≤ 38 };

    fn clone(&self) -> Result<KeyBytes, AllocError> {
        match &self.held {
            Held::Short(len, room) => Ok(KeyBytes {
                held: Held::Short(*len, *room),
            }),
            Held::Long(bytes) => {
                let bytes = bytes.clone()?;
                Ok(KeyBytes {
                    held: Held::Long(bytes),
                })
            }
        }
    }
}
