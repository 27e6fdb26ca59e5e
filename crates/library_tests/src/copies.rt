//! What calls copy, for the other tests.
use crate::keys::child;
use embedded::{Embedded, Outcome};
use key_codec::Key;
use refusal::Refusal;
use std::alloc::Global;
use typed_calls::{get, set};

/// Whether this text was copied, and its length told.
pub fn holds(buffer: &[u8], wanted: usize, want: &[u8]) -> bool {
    wanted == want.len() && buffer.starts_with(want)
}

/// Whether a job reads this value.
pub fn is_read(engine: &mut Embedded, job: u64, key: &Key, want: &[u8]) -> bool {
    let mut buffer = [0; 32];
    let mut wanted = 99;
    let outcome = get(engine, job, key, &mut buffer, &mut wanted);
    outcome == Outcome::Done && holds(&buffer, wanted, want)
}

/// Whether a job reads this value of a name with one subscript.
pub fn is_at(
    alloc: Global,
    engine: &mut Embedded,
    job: u64,
    name: &[u8],
    subscript: &[u8],
    want: &[u8],
) -> Result<bool, Refusal> {
    let key = child(alloc, name, subscript)?;
    Ok(is_read(engine, job, &key, want))
}

/// Sets a value of a name with one subscript, and answers whether it is set.
pub fn put(
    alloc: Global,
    engine: &mut Embedded,
    job: u64,
    name: &[u8],
    subscript: &[u8],
    value: &[u8],
) -> Result<bool, Refusal> {
    let key = child(alloc, name, subscript)?;
    Ok(set(engine, alloc, job, &key, value) == Outcome::Done)
}
