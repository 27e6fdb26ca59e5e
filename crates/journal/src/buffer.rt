//! Room in a buffer, and numbers and heads of units written into it. A refusal leaves what stands there.
ghost use Rattle.std.specs.Prelude.{◌≡◌, ◌≤◌, ◌+◌, ◌++◌, [], ◌∷◌, length, OnOk, IsOk, vec_len, vec_capacity};
ghost use Rattle.collation.specs.Limits.{most_jobs};
ghost use Rattle.key_codec.specs.Grown.{GoesOnFrom};
ghost use Rattle.journal.specs.Format as format;

use collation::Job;
use std::alloc::AllocError;

// Makes room for so many bytes more, where there is too little: twice the memory, or where that is refused as much as is needed.
#[inline(never)]
fn grow(bytes: &mut Vec<u8>, more: usize) -> Result<(), AllocError>
    ensures items { bytes.new.items ≡ bytes.old.items }
    ensures len { vec_len bytes.new ≡ vec_len bytes.old }
    ensures room { OnOk result (vec_len bytes.new + more ≤ vec_capacity bytes.new) }
    ensures capacity { vec_capacity bytes.old ≤ vec_capacity bytes.new }
{
    match bytes.reserve(more) {
        Ok(()) => Ok(()),
        Err(_) => bytes.reserve_exact(more),
    }
}

// Room for so many bytes more.
pub(crate) fn make_room(bytes: &mut Vec<u8>, more: usize) -> Result<(), AllocError>
    ensures items { bytes.new.items ≡ bytes.old.items }
    ensures len { vec_len bytes.new ≡ vec_len bytes.old }
    ensures room { OnOk result (vec_len bytes.new + more ≤ vec_capacity bytes.new) }
    ensures sure { vec_len bytes.old + more ≤ vec_capacity bytes.old → IsOk result }
    ensures capacity { vec_capacity bytes.old ≤ vec_capacity bytes.new }
{
    if more <= bytes.capacity() - bytes.len() {
        return Ok(());
    }
    grow(bytes, more)
}

// These bytes, where there is room for them.
pub(crate) fn write_bytes(bytes: &mut Vec<u8>, more: &[u8])
    requires { vec_len bytes.old + length more.now ≤ vec_capacity bytes.old }
    ensures items { bytes.new.items ≡ bytes.old.items ++ more.now }
    ensures len { vec_len bytes.new ≡ vec_len bytes.old + length more.now }
    ensures capacity { vec_capacity bytes.old ≤ vec_capacity bytes.new }
{
    match bytes.extend_from_slice(more) {
        Ok(()) => {}
        Err(_) => unreachable!(),
    }
}

// A number of more than one byte, where there is room for nine.
#[inline(never)]
#[tactic(auto, unfolding(crate::specs::Format::number_bytes))]
fn write_wide(bytes: &mut Vec<u8>, number: u64)
    requires wide { 254 ≤ number }
    requires room { vec_len bytes.old + 9 ≤ vec_capacity bytes.old }
    ensures items { bytes.new.items ≡ bytes.old.items ++ format.number_bytes number }
    ensures len { vec_len bytes.new ≤ vec_len bytes.old + 9 }
    ensures capacity { vec_capacity bytes.old ≤ vec_capacity bytes.new }
{
    if number < 65536 {
        bytes.push_reserved(254);
        write_bytes(bytes, &(number as u16).to_be_bytes());
    } else {
        bytes.push_reserved(255);
        write_bytes(bytes, &number.to_be_bytes());
    }
}

// A number, where there is room for nine bytes.
#[tactic(auto, unfolding(crate::specs::Format::number_bytes))]
pub(crate) fn write_number(bytes: &mut Vec<u8>, number: u64)
    requires { vec_len bytes.old + 9 ≤ vec_capacity bytes.old }
    ensures items { bytes.new.items ≡ bytes.old.items ++ format.number_bytes number }
    ensures len { vec_len bytes.new ≤ vec_len bytes.old + 9 }
    ensures capacity { vec_capacity bytes.old ≤ vec_capacity bytes.new }
{
    if number < 254 {
        bytes.push_reserved(number as u8);
    } else {
        write_wide(bytes, number);
    }
}

// A unit's job and tag, where there is room for ten bytes.
pub(crate) fn write_head(bytes: &mut Vec<u8>, job: Job, tag: u8)
    requires { vec_len bytes.old + 10 ≤ vec_capacity bytes.old }
    ensures items { bytes.new.items ≡ bytes.old.items ++ (format.number_bytes job ++ tag ∷ []) }
    ensures len { vec_len bytes.new ≤ vec_len bytes.old + 10 }
    ensures capacity { vec_capacity bytes.old ≤ vec_capacity bytes.new }
    ensures low { 1 ≤ job }
    ensures high { job ≤ most_jobs }
{
    write_number(bytes, u64::from(job.number()));
    bytes.push_reserved(tag);
}

pub(crate) fn push_byte(bytes: &mut Vec<u8>, byte: u8) -> Result<(), AllocError>
    ensures bytes { OnOk result (bytes.new.items ≡ bytes.old.items ++ byte ∷ []) }
    ensures kept { GoesOnFrom bytes.old.items bytes.new.items }
    ensures sure { vec_len bytes.old + 1 ≤ vec_capacity bytes.old → IsOk result }
    ensures capacity { vec_capacity bytes.old ≤ vec_capacity bytes.new }
{
    make_room(bytes, 1)?;
    bytes.push_reserved(byte);
    Ok(())
}

pub(crate) fn push_number(bytes: &mut Vec<u8>, number: u64) -> Result<(), AllocError>
    ensures bytes { OnOk result (bytes.new.items ≡ bytes.old.items ++ format.number_bytes number) }
    ensures kept { GoesOnFrom bytes.old.items bytes.new.items }
    ensures sure { vec_len bytes.old + 9 ≤ vec_capacity bytes.old → IsOk result }
    ensures capacity { vec_capacity bytes.old ≤ vec_capacity bytes.new }
{
    make_room(bytes, 9)?;
    write_number(bytes, number);
    Ok(())
}

pub(crate) fn push_head(bytes: &mut Vec<u8>, job: Job, tag: u8) -> Result<(), AllocError>
    ensures bytes { OnOk result (bytes.new.items ≡ bytes.old.items ++ (format.number_bytes job ++ tag ∷ [])) }
    ensures low { OnOk result (1 ≤ job) }
    ensures high { OnOk result (job ≤ most_jobs) }
    ensures kept { GoesOnFrom bytes.old.items bytes.new.items }
    ensures sure { vec_len bytes.old + 10 ≤ vec_capacity bytes.old → IsOk result }
    ensures capacity { vec_capacity bytes.old ≤ vec_capacity bytes.new }
{
    make_room(bytes, 10)?;
    write_head(bytes, job, tag);
    Ok(())
}
