//! Scripts of transactions: what each job is answered, and what is left. From docs/RULES.md, "Transactions" and "Jobs".
use crate::scripts::{first_other, has_end};
use std::alloc::Global;
use std::test::Fail;
use worked_rows::{COMMITS, LEVELS};

#[test]
fn transactions_are_answered_as_if_alone(rt: HostRuntime) -> Result<(), Fail> {
    assert_eq!(rt; first_other(rt.alloc(), &COMMITS)?, None);
    Ok(())
}

#[test]
fn levels_and_restarts_are_counted(rt: HostRuntime) -> Result<(), Fail> {
    assert_eq!(rt; first_other(rt.alloc(), &LEVELS)?, None);
    Ok(())
}

// The 128th TSTART of a job, and what its level is then.
fn deep_script(alloc: Global) -> Result<Vec<u8>, Fail> {
    let mut script = Vec::new(alloc);
    for _ in 0..128 {
        script.extend_from_slice(b"1 TSTART\n")?;
    }
    script.extend_from_slice(b"1 $TLEVEL\n1 TCOMMIT\n")?;
    Ok(script)
}

#[test]
fn levels_go_to_127(rt: HostRuntime) -> Result<(), Fail> {
    let script = deep_script(rt.alloc())?;
    let end = b"1 level 127\n1 error 10 LevelTooDeep\n1 127\n1 level 126\n--\n";
    assert!(rt; has_end(rt.alloc(), &script, end)?);
    Ok(())
}

// A transaction that asks once more than it may, then sets, and commits.
fn long_script(alloc: Global) -> Result<Vec<u8>, Fail> {
    let mut script = Vec::new(alloc);
    script.extend_from_slice(b"1 TSTART\n")?;
    for _ in 0..65536 {
        script.extend_from_slice(b"1 $GET(^X)\n")?;
    }
    script.extend_from_slice(b"1 SET ^X=1\n1 TCOMMIT\n1 $GET(^X)\n")?;
    Ok(script)
}

// What is refused for the length isn't done, and the rest commits.
#[test]
fn transactions_hold_65535_data_commands(rt: HostRuntime) -> Result<(), Fail> {
    let script = long_script(rt.alloc())?;
    let end =
        b"1 \"\"\n1 error 13 TransactionTooLong\n1 error 13 TransactionTooLong\n1 committed\n1 \"\"\n--\n";
    assert!(rt; has_end(rt.alloc(), &script, end)?);
    Ok(())
}
