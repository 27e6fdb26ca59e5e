//! What a line asks, as `read_line` reads it: LOCK in all its forms, and the commands that are their word alone; and
//! the texts of their replies. From docs/FORMATS.md, "Grammar of lines", "Which refusal a line gets", "Doubtful lines"
//! and "Replies".
use command::{Command, Reply};
use lock_name::{LockCommand, LockName, LockNames};
use script::{Drafts, read_line, write_reply};
use std::alloc::{AllocError, Global};
use std::test::Fail;

// A line, and what it asks; or the name of its refusal.
type Row = (&'static str, &'static str);

// A caret where there is one, the name, and each subscript after a stroke.
fn push_name(name: &LockName, out: &mut Vec<u8>) -> Result<(), AllocError> {
    if name.has_caret() {
        out.push(b'^')?;
    }
    out.extend_from_slice(name.key().name())?;
    for subscript in name.key().subscripts() {
        out.push(b'/')?;
        subscript.push_to(out)?;
    }
    Ok(())
}

fn push_names(word: &[u8], names: &LockNames, out: &mut Vec<u8>) -> Result<(), AllocError> {
    out.extend_from_slice(word)?;
    for name in names.as_slice() {
        out.push(b' ')?;
        push_name(name, out)?;
    }
    Ok(())
}

fn push_lock(command: &LockCommand, out: &mut Vec<u8>) -> Result<(), AllocError> {
    match command {
        LockCommand::Release => out.extend_from_slice(b"release"),
        LockCommand::Only(names) => push_names(b"only", names, out),
        LockCommand::More(names) => push_names(b"more", names, out),
        LockCommand::Fewer(names) => push_names(b"fewer", names, out),
    }
}

fn push_command(command: &Command, out: &mut Vec<u8>) -> Result<(), AllocError> {
    match command {
        Command::Access(_) => out.extend_from_slice(b"data"),
        Command::Lock(command) => push_lock(command, out),
        Command::Start => out.extend_from_slice(b"start"),
        Command::Commit => out.extend_from_slice(b"commit"),
        Command::Rollback => out.extend_from_slice(b"rollback"),
        Command::Restart => out.extend_from_slice(b"restart"),
        Command::Level => out.extend_from_slice(b"level"),
        Command::Restarts => out.extend_from_slice(b"restarts"),
        Command::Halt => out.extend_from_slice(b"halt"),
    }
}

// What the line asks, in place of what stood in `out`.
fn push_reading(
    alloc: Global,
    drafts: &mut Drafts,
    line: &[u8],
    out: &mut Vec<u8>,
) -> Result<(), AllocError> {
    out.clear();
    match read_line(alloc, line, drafts) {
        Ok((_, command)) => {
            let pushed = push_command(&command, out);
            drop(command);
            pushed
        }
        Err(fault) => out.extend_from_slice(fault.refusal.name().as_bytes()),
    }
}

// The number of the first row whose line is read as something else, all lines with the same drafts; or none.
fn first_other(alloc: Global, rows: &[Row]) -> Result<Option<usize>, AllocError> {
    let mut drafts = Drafts::new(alloc);
    let mut out = Vec::new(alloc);
    for (i, (line, asked)) in rows.iter().enumerate() {
        push_reading(alloc, &mut drafts, line.as_bytes(), &mut out)?;
        if out.as_slice() != asked.as_bytes() {
            return Ok(Some(i));
        }
    }
    Ok(None)
}

// The number of the first line that doesn't get BadLine; or none.
fn first_better(alloc: Global, lines: &[&str]) -> Result<Option<usize>, AllocError> {
    let mut drafts = Drafts::new(alloc);
    let mut out = Vec::new(alloc);
    for (i, line) in lines.iter().enumerate() {
        push_reading(alloc, &mut drafts, line.as_bytes(), &mut out)?;
        if out.as_slice() != b"BadLine".as_slice() {
            return Ok(Some(i));
        }
    }
    Ok(None)
}

#[test]
fn words_alone_are_read_short_and_long_in_any_case(rt: HostRuntime) -> Result<(), Fail> {
    let rows: &[Row] = &[
        ("1 TSTART", "start"),
        ("1 ts", "start"),
        ("1 TCommit", "commit"),
        ("1 TC", "commit"),
        ("1 TROLLBACK", "rollback"),
        ("1 Tro", "rollback"),
        ("1 trestart", "restart"),
        ("1 TRE", "restart"),
        ("1 Halt\t ", "halt"),
        ("00001 h", "halt"),
        ("1 $TLEVEL", "level"),
        ("1 $tl ", "level"),
        ("1 $TRestart", "restarts"),
        ("1 $TR", "restarts"),
        ("1 Lock", "release"),
        ("1 l", "release"),
        ("0 HALT", "BadJob"),
        ("4097 HALT", "BadJob"),
        ("99999999999999999999999 HALT", "BadJob"),
    ];
    assert_eq!(rt; first_other(rt.alloc(), rows)?, None);
    Ok(())
}

#[test]
fn words_alone_have_nothing_behind_them(rt: HostRuntime) -> Result<(), Fail> {
    let lines: &[&str] = &[
        "1 TSTART x",
        "1 TCOMMIT5",
        "1 HALT ^A",
        "1 HALT:1",
        "1 $TLEVEL()",
        "1 $TLEVEL(^A)",
        "1 TLEVEL",
        "1 TR",
        "1 $TRE",
        "1 $TSTART",
        "1 $HALT",
        "1 $LOCK",
        "1 $LOCK(^A)",
        "1 TSTARTS",
    ];
    assert_eq!(rt; first_better(rt.alloc(), lines)?, None);
    Ok(())
}

#[test]
fn locks_are_read_in_all_their_forms(rt: HostRuntime) -> Result<(), Fail> {
    let rows: &[Row] = &[
        ("1 LOCK ", "release"),
        ("1 L \t", "release"),
        ("1 LOCK ^A", "only ^A"),
        ("1 lock A", "only A"),
        ("1 L \t +^A(1)", "more ^A/1"),
        ("1 L -%B(\"x\",01.50)  ", "fewer %B/x/1.5"),
        ("1 LOCK (^A)", "only ^A"),
        ("1 LOCK (^A,B,^A)", "only ^A B ^A"),
        ("1 LOCK +(A(1,2),^B)", "more A/1/2 ^B"),
        ("1 LOCK -(^A(\"b,c\"),A)", "fewer ^A/b,c A"),
        ("1 LOCK ^A:0", "only ^A"),
        ("1 LOCK +(^A,B):123456789 ", "more ^A B"),
        ("1 LOCK -A(1):5", "fewer A/1"),
        ("1 LOCK ^A:1.5", "only ^A"),
        ("1 LOCK ^A:.123456789 ", "only ^A"),
        ("1 LOCK", "release"),
    ];
    assert_eq!(rt; first_other(rt.alloc(), rows)?, None);
    Ok(())
}

#[test]
fn lines_that_are_no_locks_get_bad_line(rt: HostRuntime) -> Result<(), Fail> {
    let lines: &[&str] = &[
        "1 LOCK()",
        "1 LOCK ()",
        "1 LOCK (^A,)",
        "1 LOCK (,^A)",
        "1 LOCK (^A",
        "1 LOCK ((^A))",
        "1 LOCK ^A,^B",
        "1 LOCK (^A, ^B)",
        "1 LOCK (+^A)",
        "1 LOCK +",
        "1 LOCK + ^A",
        "1 LOCK +-^A",
        "1 LOCK ^",
        "1 LOCK ^^A",
        "1 LOCK ^A()",
        "1 LOCK \"A\"",
        "1 LOCK^A",
        "1 LOCK5",
        "1 LOCK:5",
        "1 LOCK :5",
        "1 LOCK ^A:",
        "1 LOCK ^A :5",
        "1 LOCK ^A:1234567890",
        "1 LOCK ^A:5.",
        "1 LOCK ^A:.",
        "1 LOCK ^A:1.5.5",
        "1 LOCK ^A:1.1234567890",
        "1 LOCK ^A:1234567890.5",
        "1 LOCK ^A:5x",
        "4097 LOCK 5 x",
    ];
    assert_eq!(rt; first_better(rt.alloc(), lines)?, None);
    Ok(())
}

// The limits are those of references; a name taken from the line before would show after a fault.
#[test]
fn the_first_fault_of_lock_names_decides(rt: HostRuntime) -> Result<(), Fail> {
    let rows: &[Row] = &[
        ("1 LOCK 5", "BadName"),
        ("1 LOCK -5", "BadName"),
        ("1 LOCK +1A", "BadName"),
        ("4097 LOCK 5", "BadJob"),
        ("1 LOCK ^1A(\"\")", "BadName"),
        ("1 LOCK A2345678901234567890123456789012", "BadName"),
        (
            "1 LOCK A234567890123456789012345678901",
            "only A234567890123456789012345678901",
        ),
        ("1 LOCK ^A(\"\")", "EmptySubscript"),
        ("1 LOCK A(1,\"\")", "EmptySubscript"),
        ("1 LOCK (^A,^B(\"\"),^1C)", "EmptySubscript"),
        ("1 LOCK -(^A,1B,^C(\"\"))", "BadName"),
        ("1 LOCK ^A", "only ^A"),
        (
            "1 LOCK +(B,A(9999999999999999999999999999999999999999999999999999999999999999999999999999999999999999999999999999999999999999999999999999999999999999999999999999999999999999999999999999999999999999999999999999999999999999999999999999999999999999999999999999999999999999))",
            "SubscriptTooLong",
        ),
        (
            "1 LOCK ^A(\"\",1,1,1,1,1,1,1,1,1,1,1,1,1,1,1,1,1,1,1,1,1,1,1,1,1,1,1,1,1,1,1)",
            "TooManySubscripts",
        ),
        ("1 LOCK (B)", "only B"),
    ];
    assert_eq!(rt; first_other(rt.alloc(), rows)?, None);
    Ok(())
}

// Whether the reply, without a job, is written as this text.
fn is_written(alloc: Global, reply: Reply, text: &str) -> Result<bool, AllocError> {
    let mut out = Vec::new(alloc);
    let written = write_reply(None, &reply, &mut out);
    drop(reply);
    written?;
    Ok(out.as_slice() == text.as_bytes())
}

#[test]
fn replies_of_locks_and_transactions_have_their_texts(rt: HostRuntime) -> Result<(), Fail> {
    let alloc = rt.alloc();
    assert!(rt; is_written(alloc, Reply::Finished, "0 ok\n")?);
    assert!(rt; is_written(alloc, Reply::Had(true), "0 1\n")?);
    assert!(rt; is_written(alloc, Reply::Had(false), "0 0\n")?);
    assert!(rt; is_written(alloc, Reply::Count(127), "0 127\n")?);
    assert!(rt; is_written(alloc, Reply::AtLevel(1), "0 level 1\n")?);
    assert!(rt; is_written(alloc, Reply::Committed, "0 committed\n")?);
    assert!(rt;
        is_written(
            alloc,
            Reply::Restarted(u64::MAX),
            "0 restart 18446744073709551615\n"
        )?
    );
    Ok(())
}
