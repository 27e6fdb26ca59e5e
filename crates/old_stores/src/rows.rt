//! The references: those of the table of docs/FORMATS.md, "Key bytes".
use collation::{Name, Ref, Subscripts, Text};
use key_codec::{Key, ShortKey};
use refusal::Refusal;
use std::alloc::Global;

/// A name, and subscripts.
pub(crate) type Row = (&'static [u8], &'static [&'static [u8]]);

/// In their order.
pub(crate) const ROWS: [Row; 15] = [
    (b"A", &[]),
    (b"A", &[b"-1.5"]),
    (b"A", &[b"-1"]),
    (b"A", &[b"-.5"]),
    (b"A", &[b"0"]),
    (b"A", &[b".5"]),
    (b"A", &[b"7"]),
    (b"A", &[b"9"]),
    (b"A", &[b"10"]),
    (b"A", &[b"10", b"0"]),
    (b"A", &[b"12"]),
    (b"A", &[b"\0\x01b"]),
    (b"A", &[b"007"]),
    (b"A", &[b"x"]),
    (b"AB", &[b"1"]),
];

fn reference(alloc: Global, row: &Row) -> Result<Ref, Refusal> {
    let name = Name::new(Text::from_slice(alloc, row.0)?)?;
    let mut subscripts = Subscripts::new(alloc);
    for text in row.1 {
        let text = Text::from_slice(alloc, text)?;
        subscripts.push(text)?;
    }
    Ref::new(name, subscripts)
}

pub(crate) fn old_key(alloc: Global, row: &Row) -> Result<ShortKey, Refusal> {
    let reference = reference(alloc, row)?;
    ShortKey::of(alloc, &reference)
}

pub(crate) fn new_key(alloc: Global, row: &Row) -> Result<Key, Refusal> {
    let reference = reference(alloc, row)?;
    let key = Key::of(alloc, &reference);
    drop(reference);
    Ok(key?)
}
