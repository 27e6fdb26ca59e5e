//! Scripts of LOCK: who has what, in transactions and outside. From docs/RULES.md, "Locks".
use crate::scripts::{first_other, has_end};
use std::alloc::{AllocError, Global};
use std::test::Fail;
use worked_rows::{INSIDE, OUTSIDE};

#[test]
fn locks_keep_other_jobs_off(rt: HostRuntime) -> Result<(), Fail> {
    assert_eq!(rt; first_other(rt.alloc(), &OUTSIDE)?, None);
    Ok(())
}

#[test]
fn locks_in_transactions_are_held_to_the_end(rt: HostRuntime) -> Result<(), Fail> {
    assert_eq!(rt; first_other(rt.alloc(), &INSIDE)?, None);
    Ok(())
}

// One LOCK that takes A so often.
fn push_lock(script: &mut Vec<u8>, count: usize) -> Result<(), AllocError> {
    script.extend_from_slice(b"1 LOCK +(A")?;
    for _ in 1..count {
        script.extend_from_slice(b",A")?;
    }
    script.extend_from_slice(b")\n")
}

// Job 1 takes A 65,535 times, and then once more.
fn full_script(alloc: Global) -> Result<Vec<u8>, Fail> {
    let mut script = Vec::new(alloc);
    for _ in 0..15 {
        push_lock(&mut script, 4369)?;
    }
    script.extend_from_slice(b"1 LOCK +A\n1 LOCK +(B,A)\n2 LOCK +B\n2 LOCK +A\n")?;
    script.extend_from_slice(b"1 LOCK A\n1 LOCK -A\n2 LOCK +A\n")?;
    Ok(script)
}

// A refused LOCK takes nothing of its list, and a LOCK without a sign counts from nothing.
#[test]
fn counts_go_to_65535(rt: HostRuntime) -> Result<(), Fail> {
    let script = full_script(rt.alloc())?;
    let end =
        b"1 1\n1 error 11 LockCountFull\n1 error 11 LockCountFull\n2 1\n2 0\n1 1\n1 1\n2 1\n--\n";
    assert!(rt; has_end(rt.alloc(), &script, end)?);
    Ok(())
}
