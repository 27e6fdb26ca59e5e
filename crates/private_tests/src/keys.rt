//! Keys and maps from short spellings: `A13` is `^A(1,3)`.
use collation::{Name, Ref, Subscripts, Text};
use globals::{Cut, OrderedView, walk_from};
use key_codec::Key;
use key_map::KeyMap;
use refusal::Refusal;
use std::alloc::Global;

fn push_digit(alloc: Global, texts: &mut Subscripts, digit: u8) -> Result<(), Refusal> {
    let text = Text::from_slice(alloc, &[digit])?;
    texts.push(text)?;
    Ok(())
}

fn subscripts(alloc: Global, digits: &[u8]) -> Result<Subscripts, Refusal> {
    let mut texts = Subscripts::new(alloc);
    for digit in digits {
        push_digit(alloc, &mut texts, *digit)?;
    }
    Ok(texts)
}

fn name(alloc: Global, letter: u8) -> Result<Name, Refusal> {
    Name::new(Text::from_slice(alloc, &[letter])?)
}

fn reference(alloc: Global, letter: u8, digits: &[u8]) -> Result<Ref, Refusal> {
    let texts = subscripts(alloc, digits)?;
    Ref::new(name(alloc, letter)?, texts)
}

pub fn key_of(alloc: Global, spelled: &[u8]) -> Result<Key, Refusal> {
    let [letter, digits @ ..] = spelled else {
        return Err(Refusal::BadName);
    };
    let reference = reference(alloc, *letter, digits)?;
    match Key::of(alloc, &reference) {
        Ok(key) => Ok(key),
        Err(_) => Err(Refusal::OutOfMemory),
    }
}

pub fn text(alloc: Global, byte: u8) -> Result<Text, Refusal> {
    let text = Text::from_slice(alloc, &[byte])?;
    Ok(text)
}

pub fn put(
    alloc: Global,
    map: &mut KeyMap<Text>,
    spelled: &[u8],
    value: u8,
) -> Result<(), Refusal> {
    let key = key_of(alloc, spelled)?;
    put_key(alloc, map, key, value)
}

fn put_key(alloc: Global, map: &mut KeyMap<Text>, key: Key, value: u8) -> Result<(), Refusal> {
    match text(alloc, value) {
        Ok(value) => {
            drop(map.insert(alloc, key, value)?);
            Ok(())
        }
        Err(refusal) => {
            drop(key);
            Err(refusal)
        }
    }
}

pub fn is_key(alloc: Global, key: &Key, spelled: &[u8]) -> Result<bool, Refusal> {
    let other = key_of(alloc, spelled)?;
    let same = *key == other;
    drop(other);
    Ok(same)
}

// Whether a walk over the view meets just these.
pub fn shows<V: OrderedView>(alloc: Global, view: &V, wanted: &[&[u8]]) -> Result<bool, Refusal> {
    let mut walk = walk_from(view, Cut::Start);
    for spelled in wanted {
        match walk.next() {
            Some((key, _)) => {
                if !is_key(alloc, key, spelled)? {
                    return Ok(false);
                }
            }
            None => return Ok(false),
        }
    }
    Ok(walk.next().is_none())
}
