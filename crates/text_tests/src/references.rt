//! References for the other tests, made from their bytes, and the limits of docs/RULES.md, "Limits".
use collation::{Job, Name, Ref, Subscripts, Text};
use command::{Command, Reply};
use refusal::Refusal;
use std::alloc::Global;
use std::hash::{BuildHasher, BuildHasherDefault, FoldHasher};
use std::mem::size_of;
use std::test::Fail;

fn name_of(alloc: Global, bytes: &[u8]) -> Result<Name, Refusal> {
    Name::new(Text::from_slice(alloc, bytes)?)
}

fn push_text(alloc: Global, subscripts: &mut Subscripts, text: &[u8]) -> Result<(), Refusal> {
    subscripts.push(Text::from_slice(alloc, text)?)?;
    Ok(())
}

fn subscripts_of(alloc: Global, texts: &[&[u8]]) -> Result<Subscripts, Refusal> {
    let mut subscripts = Subscripts::new(alloc);
    for text in texts {
        push_text(alloc, &mut subscripts, text)?;
    }
    Ok(subscripts)
}

pub fn reference(alloc: Global, name: &[u8], texts: &[&[u8]]) -> Result<Ref, Refusal> {
    let subscripts = subscripts_of(alloc, texts)?;
    Ref::new(name_of(alloc, name)?, subscripts)
}

// Whether the bytes are kept as a name, or refused as no name.
fn is_name(alloc: Global, bytes: &[u8]) -> Result<bool, Refusal> {
    match name_of(alloc, bytes) {
        Ok(name) => Ok(name.as_slice() == bytes),
        Err(Refusal::BadName) => Ok(false),
        Err(refusal) => Err(refusal),
    }
}

const NAMES: [(&[u8], bool); 11] = [
    (b"%", true),
    (b"A", true),
    (b"%1a", true),
    (b"z9", true),
    (&[b'n'; 31], true),
    (b"", false),
    (b"1A", false),
    (b"A%", false),
    (b"A b", false),
    (b"\xc3\xa9", false),
    (&[b'n'; 32], false),
];

#[test]
fn names_within_their_limits_alone_are_kept(rt: HostRuntime) -> Result<(), Fail> {
    for (name, kept) in &NAMES {
        assert!(rt; is_name(rt.alloc(), name)? == *kept, "{name:?}");
    }
    Ok(())
}

const ONE: &[u8] = b"1";

const LONGEST: &[u8] = &[b'9'; 255];

const TOO_LONG: &[u8] = &[b'9'; 256];

fn refusal_of(alloc: Global, texts: &[&[u8]]) -> Option<Refusal> {
    reference(alloc, b"A", texts).err()
}

const LIMITS: [(&[&[u8]], Option<Refusal>); 7] = [
    (&[LONGEST], None),
    (&[ONE; 31], None),
    (&[ONE; 32], Some(Refusal::TooManySubscripts)),
    (&[b""], Some(Refusal::EmptySubscript)),
    (&[TOO_LONG], Some(Refusal::SubscriptTooLong)),
    (&[b"", TOO_LONG], Some(Refusal::EmptySubscript)),
    (&[TOO_LONG, b""], Some(Refusal::SubscriptTooLong)),
];

#[test]
fn references_are_refused_past_their_limits(rt: HostRuntime) {
    for (texts, refusal) in &LIMITS {
        assert!(rt; refusal_of(rt.alloc(), texts) == *refusal);
    }
}

fn is_job(number: u64) -> bool {
    match Job::new(number) {
        Ok(job) => u64::from(job.number()) == number,
        Err(_) => false,
    }
}

fn is_no_job(number: u64) -> bool {
    Job::new(number).err() == Some(Refusal::BadJob)
}

#[test]
fn jobs_run_from_1_to_4096(rt: HostRuntime) {
    assert!(rt; is_job(1) && is_job(2) && is_job(4096));
    assert!(rt; is_no_job(0) && is_no_job(4097) && is_no_job(u64::MAX));
}

fn hash_of(reference: &Ref) -> u64 {
    let hasher: BuildHasherDefault<FoldHasher> = BuildHasherDefault::new();
    hasher.hash_one(reference)
}

// Whether a copy is equal, hashes alike and has the name and as many subscripts.
fn is_copy(copy: &Ref, reference: &Ref, name: &[u8], depth: usize) -> bool {
    reference == copy
        && hash_of(reference) == hash_of(copy)
        && copy.name() == name
        && copy.subscripts().len() == depth
}

fn is_copied(reference: &Ref, name: &[u8], depth: usize) -> Result<bool, Refusal> {
    let copy = reference.clone()?;
    Ok(is_copy(&copy, reference, name, depth))
}

// Four subscripts, so that the list doesn't lie in the value, one of them too long to lie there itself.
#[test]
fn copies_are_equal_and_hash_alike(rt: HostRuntime) -> Result<(), Fail> {
    let made = reference(rt.alloc(), b"Accounts", &[b"1", b"a", b"2", &[b'x'; 40]])?;
    assert!(rt; is_copied(&made, b"Accounts", 4)?);
    Ok(())
}

fn grown(alloc: Global, pieces: &[&[u8]]) -> Result<Text, Refusal> {
    let mut text = Text::new(alloc);
    for piece in pieces {
        text.extend_from_slice(piece)?;
    }
    Ok(text)
}

fn is_grown_to(alloc: Global, pieces: &[&[u8]], want: &[u8]) -> Result<bool, Refusal> {
    let text = grown(alloc, pieces)?;
    Ok(text.as_slice() == want && text.len() == want.len() && text.is_empty() == want.is_empty())
}

const LONG: &[u8] = b"forty bytes, of which no two at 14 meet.";

// Pieces, and the text that grows by them: past 13, 14 and 15 bytes among others.
const GROWN: [(&[&[u8]], &[u8]); 11] = [
    (&[], b""),
    (&[b"ab", b"", b"c"], b"abc"),
    (&[b"forty byte", b"s, "], b"forty bytes, "),
    (&[b"forty bytes, ", b"of which no two at 14 meet."], LONG),
    (
        &[b"forty byte", b"s, ", b"of which no two at 14 meet."],
        LONG,
    ),
    (&[b"forty byte", b"s, o"], b"forty bytes, o"),
    (&[b"forty bytes, o", b"f which no two at 14 meet."], LONG),
    (
        &[b"forty byte", b"s, o", b"f which no two at 14 meet."],
        LONG,
    ),
    (&[b"forty byte", b"s, of"], b"forty bytes, of"),
    (&[b"forty bytes, of", b" which no two at 14 meet."], LONG),
    (
        &[b"forty byte", b"s, of", b" which no two at 14 meet."],
        LONG,
    ),
];

#[test]
fn texts_grow_past_their_room(rt: HostRuntime) -> Result<(), Fail> {
    for (pieces, want) in &GROWN {
        assert!(rt; is_grown_to(rt.alloc(), pieces, want)?, "{want:?}");
    }
    Ok(())
}

fn copied(alloc: Global, bytes: &[u8]) -> Result<Text, Refusal> {
    let text = Text::from_slice(alloc, bytes)?;
    let copy = text.clone()?;
    drop(text);
    Ok(copy)
}

// Whether the bytes of a list, the copy of a slice and the copy of a text are these bytes, and equal.
fn is_made_of(alloc: Global, bytes: &[u8]) -> Result<bool, Refusal> {
    let copy = copied(alloc, bytes)?;
    let made = Text::from_vec(Vec::from_slice(alloc, bytes)?)?;
    Ok(made.as_slice() == bytes && copy.as_slice() == bytes && made == copy)
}

#[test]
fn texts_are_made_of_lists_and_slices(rt: HostRuntime) -> Result<(), Fail> {
    let texts: &[&[u8]] = &[
        b"",
        b"f",
        b"forty bytes, ",
        b"forty bytes, o",
        b"forty bytes, of",
        LONG,
    ];
    for text in texts {
        assert!(rt; is_made_of(rt.alloc(), text)?, "{text:?}");
    }
    Ok(())
}

// What a value takes in each version of a chain.
#[test]
fn a_text_takes_16_bytes(rt: HostRuntime) {
    let found = [
        size_of::<Text>(),
        size_of::<Subscripts>(),
        size_of::<Ref>(),
        size_of::<Command>(),
        size_of::<Reply>(),
    ];
    assert!(rt; found == [16, 32, 48, 96, 56]);
}
