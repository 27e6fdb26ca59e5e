//! LOCK by typed calls: docs/RULES.md, "Locks".
use crate::keys::child;
use command::Command;
use embedded::{Embedded, Outcome};
use lock_name::{LockCommand, LockName};
use refusal::Refusal;
use std::alloc::Global;
use std::test::*;
use typed_calls::{LockForm, lock, lock_names, push_name, run_command};

// What a LOCK of ^A(7) tells: 1 where it was had, 0 where another job is in the way.
fn had(alloc: Global, engine: &mut Embedded, job: u64, form: LockForm) -> Result<u64, Refusal> {
    let key = child(alloc, b"A", b"7")?;
    let mut number = 99;
    match lock(engine, alloc, job, form, &key, &mut number) {
        Outcome::Done => Ok(number),
        _ => Ok(77),
    }
}

#[test]
fn a_lock_is_had_by_one_job(rt: HostRuntime) -> Result<(), Fail> {
    let mut engine = Embedded::new(rt.alloc());
    let first = had(rt.alloc(), &mut engine, 1, LockForm::More);
    let other = had(rt.alloc(), &mut engine, 2, LockForm::More);
    let back = had(rt.alloc(), &mut engine, 1, LockForm::Fewer);
    let then = had(rt.alloc(), &mut engine, 2, LockForm::Only);
    drop(engine);
    assert_eq!(rt; (first, other), (Ok(1), Ok(0)));
    assert_eq!(rt; (back, then), (Ok(1), Ok(1)));
    Ok(())
}

#[test]
fn all_locks_are_released(rt: HostRuntime) -> Result<(), Fail> {
    let mut engine = Embedded::new(rt.alloc());
    let first = had(rt.alloc(), &mut engine, 1, LockForm::Only);
    let outcome = run_command(&mut engine, 1, Command::Lock(LockCommand::Release));
    let then = had(rt.alloc(), &mut engine, 2, LockForm::More);
    drop(engine);
    assert_eq!(rt; outcome, Outcome::Done);
    assert_eq!(rt; (first, then), (Ok(1), Ok(1)));
    Ok(())
}

fn push_child(alloc: Global, names: &mut Vec<LockName>, name: &[u8]) -> Result<(), Refusal> {
    let key = child(alloc, name, b"7")?;
    push_name(names, &key)
}

// What a LOCK of ^A(7) and ^B(7) at once tells, as `had`.
fn had_both(
    alloc: Global,
    engine: &mut Embedded,
    job: u64,
    form: LockForm,
) -> Result<u64, Refusal> {
    let mut names = Vec::new(alloc);
    push_child(alloc, &mut names, b"A")?;
    push_child(alloc, &mut names, b"B")?;
    let mut number = 99;
    match lock_names(engine, job, form, names, &mut number) {
        Outcome::Done => Ok(number),
        _ => Ok(77),
    }
}

#[test]
fn several_names_are_had_all_or_none(rt: HostRuntime) -> Result<(), Fail> {
    let mut engine = Embedded::new(rt.alloc());
    let first = had_both(rt.alloc(), &mut engine, 1, LockForm::More);
    let one = had(rt.alloc(), &mut engine, 2, LockForm::More);
    let both = had_both(rt.alloc(), &mut engine, 2, LockForm::More);
    let back = had_both(rt.alloc(), &mut engine, 1, LockForm::Fewer);
    let then = had_both(rt.alloc(), &mut engine, 2, LockForm::Only);
    drop(engine);
    assert_eq!(rt; (first, one, both), (Ok(1), Ok(0), Ok(0)));
    assert_eq!(rt; (back, then), (Ok(1), Ok(1)));
    Ok(())
}

#[test]
fn a_lock_of_no_names_is_refused(rt: HostRuntime) -> Result<(), Fail> {
    let mut engine = Embedded::new(rt.alloc());
    let mut number = 99;
    let names = Vec::new(rt.alloc());
    let outcome = lock_names(&mut engine, 1, LockForm::Only, names, &mut number);
    drop(engine);
    assert_eq!(rt; (outcome, number), (Outcome::Refused(Refusal::BadLine), 0));
    Ok(())
}
