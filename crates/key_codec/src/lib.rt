//! References as key bytes, which compare byte by byte as the references do.
//!
//! Callers see a key as a list of bytes: `key_of` of its reference (`specs/Key.antt`). The name, 00, then each
//! subscript after a byte that tells its kind, and each with an end, so that no subscript's bytes begin another's.
//!
//! `Key` is a reference that is kept as these bytes; callers see it as the reference. A `Place` is a key and whether an empty
//! subscript follows it. A `KeyDraft` is what is read of either so far, whatever faults it has.
//!
//! (1) Keys compare as references, a beginning first, and no two references have one key.
//! (2) A key begins with another exactly where its reference is the other or lies under it. So the keys
//!     of the references above one are beginnings of its key, which `Key::front` lends.
//! (3) From a reference's key on, and before its key with byte 06 after it, lie the keys of what is under it.
//!
//! `^A(10,0)` has the key 41 00 04 01 02 02 00 03: the name and its end; a number above zero whose point stands
//! after two digits, its digit 1, its end; zero.
//!
//! Read `specs/Key.antt`, `specs/Back.antt` and `specs/Bounds.antt`, then `write.rt`, `read.rt`, `key.rt`, `order.rt`,
//! `bounds.rt`, `range.rt`. The laws of order, beginnings and bounds hold over any limit of subscripts and any width
//! of a point's place (`KeyForm`, `specs/Form.antt`); the form in use has subscripts of at most 255 bytes and a place
//! of two bytes. The old form (`short.rt`, `short_key.rt`, `specs/Short.antt`) has 127 bytes and one; it is read by the
//! bytes of the form in use that stand for it (`lengthen.rt`). Lemmas for the crates above: `specs/laws/Key.antt`,
//! `specs/laws/Back.antt`, `specs/laws/Bounds.antt`, `specs/laws/Range.antt`, `specs/laws/Short.antt`.
#![tactic(auto)]

pub use bounds::{sibling_after, sibling_before, subtree_prefix};
pub use draft::KeyDraft;
pub use key::Key;
pub use laws::{keys_are_as_references, old_keys_are_as_references};
pub use place::Place;
pub use range::KeyRange;
pub use read::decode;
pub use short::{LONGEST_SHORT_SUBSCRIPT, decode_short, encode_short};
pub use short_key::ShortKey;
pub use shown::{KeySubscript, KeySubscripts};
pub use write::encode;

mod bounds;
mod bytes;
mod count;
mod draft;
mod escapes;
mod key;
mod laws;
mod lengthen;
mod number_bytes;
mod order;
mod place;
mod range;
mod read;
mod read_subscript;
mod short;
mod short_key;
mod shown;
mod write;

// The first byte of the key of a number below zero.
const BELOW_ZERO: u8 = 2;

// The key of zero.
const ZERO: u8 = 3;

// The first byte of the key of a number above zero.
const ABOVE_ZERO: u8 = 4;

// The first byte of the key of any other subscript.
const TEXT: u8 = 5;

// What ends a name and a text.
const END: u8 = 0;

// What ends the digits of a number above zero: less than any digit's byte.
const END_ABOVE_ZERO: u8 = 0;

// What ends the digits of a number below zero: greater than any digit's byte.
const END_BELOW_ZERO: u8 = 255;

// The most digits of a fraction: a point's place is counted from as many places before it.
const MOST_FRACTION_DIGITS: usize = 254;

// Greater than the first byte of each subscript's key.
const ABOVE_TAGS: u8 = 6;
