//! Lines that nobody would write: cut at each byte, of one byte, of all bytes, at and past each limit. From
//! docs/FORMATS.md, "Grammar of lines", "Which refusal a line gets" and "Written literals".
use crate::lines::{Stretched, first_other_stretched, is_answered, stretched};
use crate::scripts::is_output;
use collation::Job;
use refusal::Refusal;
use script::{Drafts, read_line};
use std::alloc::{AllocError, Global};
use std::test::Fail;

// The job's number, or 0 where there is none.
fn number_of(job: Option<Job>) -> u16 {
    match job {
        Some(job) => job.number(),
        None => 0,
    }
}

// Whether the line is refused BadLine, with this job before it.
fn is_bad(alloc: Global, drafts: &mut Drafts, line: &[u8], job: u16) -> bool {
    match read_line(alloc, line, drafts) {
        Ok((_, command)) => {
            drop(command);
            false
        }
        Err(fault) => fault.refusal == Refusal::BadLine && number_of(fault.job) == job,
    }
}

// The length of the first beginning that is a line where it should be none, or the other way round; or none.
fn first_other_beginning(alloc: Global, line: &[u8], whole: &[usize]) -> Option<usize> {
    let mut drafts = Drafts::new(alloc);
    for end in 1..line.len() {
        if is_bad(alloc, &mut drafts, &line[..end], 1) == whole.contains(&end) {
            return Some(end);
        }
    }
    None
}

// A beginning is a line where a part of the value ends, or after it: after `"value"`, `$CHAR(10)`, and wherever the
// last text has an even number of quotes. The other is a line as `L`, as `LOCK`, after its list, and with each digit.
#[test]
fn each_beginning_of_a_long_line_is_refused_unless_it_is_a_line(
    rt: HostRuntime,
) -> Result<(), Fail> {
    let set =
        b"1 SET ^%b(-01.50,\"a\"\"b\",$C(0,255)_\"x\")=\"value\"_$CHAR(10)_\" \"\"end\"\"\" \t";
    let lock = b"1 LOCK +(^A(01.50,\"x\"),Desk):123456789 ";
    let set_ends: &[usize] = &[46, 56, 60, 65, 67, 68];
    let lock_ends: &[usize] = &[3, 6, 7, 28, 30, 31, 32, 33, 34, 35, 36, 37, 38];
    assert_eq!(rt; first_other_beginning(rt.alloc(), set, set_ends), None);
    assert_eq!(rt; first_other_beginning(rt.alloc(), lock, lock_ends), None);
    Ok(())
}

// The first byte that, as a line, isn't refused BadLine with the job that it spells; or none.
fn first_other_byte(alloc: Global) -> Option<u8> {
    let mut drafts = Drafts::new(alloc);
    for byte in 0..=255u8 {
        let job = if byte.is_ascii_digit() {
            byte - b'0'
        } else {
            0
        };
        if !is_bad(alloc, &mut drafts, &[byte], job.into()) {
            return Some(byte);
        }
    }
    None
}

#[test]
fn each_byte_alone_is_no_line(rt: HostRuntime) -> Result<(), Fail> {
    assert_eq!(rt; first_other_byte(rt.alloc()), None);
    Ok(())
}

// All bytes from the one to the other, but for byte 10; quotes are doubled.
fn push_bytes(out: &mut Vec<u8>, low: u8, high: u8) -> Result<(), AllocError> {
    for byte in low..=high {
        if byte == b'"' {
            out.push(byte)?;
        }
        if byte != 10 {
            out.push(byte)?;
        }
    }
    Ok(())
}

fn push_codes(alloc: Global, out: &mut Vec<u8>, low: u8, high: u8) -> Result<(), AllocError> {
    out.extend_from_slice(b"$C(")?;
    for byte in low..=high {
        if byte > low && byte != 10 {
            out.push(b',')?;
        }
        if byte != 10 {
            out.extend_from_slice(byte.to_string(alloc)?.as_bytes())?;
        }
    }
    out.push(b')')?;
    Ok(())
}

// A value of all bytes but byte 10, which ends a line.
fn script_of_bytes(alloc: Global) -> Result<Vec<u8>, AllocError> {
    let mut script = Vec::from_slice(alloc, b"1 SET ^A=\"")?;
    push_bytes(&mut script, 0, 255)?;
    script.extend_from_slice(b"\"\n")?;
    Ok(script)
}

fn output_of_bytes(alloc: Global) -> Result<Vec<u8>, AllocError> {
    let mut output = Vec::from_slice(alloc, b"1 ok\n--\n^A=")?;
    push_codes(alloc, &mut output, 0, 31)?;
    output.extend_from_slice(b"_\"")?;
    push_bytes(&mut output, 32, 126)?;
    output.extend_from_slice(b"\"_")?;
    push_codes(alloc, &mut output, 127, 255)?;
    output.push(b'\n')?;
    Ok(output)
}

#[test]
fn a_value_may_have_all_bytes_but_the_end_of_a_line(rt: HostRuntime) -> Result<(), Fail> {
    let script = script_of_bytes(rt.alloc())?;
    let want = output_of_bytes(rt.alloc())?;
    assert!(rt; is_output(rt.alloc(), &script, &want, false)?);
    Ok(())
}

fn all_bytes(alloc: Global) -> Result<Vec<u8>, AllocError> {
    let mut script = Vec::new(alloc);
    for byte in 0..=255u8 {
        script.push(byte)?;
    }
    Ok(script)
}

// Byte 10 parts the two lines.
#[test]
fn all_bytes_in_a_row_are_two_bad_lines(rt: HostRuntime) -> Result<(), Fail> {
    let script = all_bytes(rt.alloc())?;
    let want = b"0 error 1 BadLine\n0 error 1 BadLine\n--\n";
    assert!(rt; is_output(rt.alloc(), &script, want, true)?);
    Ok(())
}

const NAMES_AND_TEXTS: [Stretched; 10] = [
    (b"1 SET ^", b'A', 31, b"=1", b"1 ok"),
    (b"1 SET ^", b'A', 32, b"=1", b"1 error 2 BadName"),
    (b"1 MERGE ^A=^%", b'9', 30, b"", b"1 ok"),
    (b"1 MERGE ^A=^%", b'9', 31, b"", b"1 error 2 BadName"),
    (b"1 $ORDER(^A(\"", b'x', 255, b"\"),-1)", b"1 \"\""),
    (
        b"1 $ORDER(^A(\"",
        b'x',
        256,
        b"\"),-1)",
        b"1 error 4 SubscriptTooLong",
    ),
    (b"1 LOCK +(A,^B(\"", b'x', 255, b"\"))", b"1 1"),
    (
        b"1 LOCK +(A,^B(\"",
        b'x',
        256,
        b"\"))",
        b"1 error 4 SubscriptTooLong",
    ),
    (b"1 KILL ^A(1", b'0', 254, b")", b"1 ok"),
    (
        b"1 KILL ^A(1",
        b'0',
        255,
        b")",
        b"1 error 4 SubscriptTooLong",
    ),
];

#[test]
fn names_and_texts_are_taken_up_to_their_limits(rt: HostRuntime) -> Result<(), Fail> {
    assert_eq!(rt; first_other_stretched(rt.alloc(), &NAMES_AND_TEXTS)?, None);
    Ok(())
}

// What stands before and after a text subscript, wherever a line can have one, and the line's reply.
const PLACES: [(&[u8], &[u8], &[u8]); 14] = [
    (b"1 SET ^A(\"", b"\")=1", b"1 ok"),
    (b"1 KILL ^A(1,\"", b"\")", b"1 ok"),
    (b"1 MERGE ^A(\"", b"\")=^B", b"1 ok"),
    (b"1 MERGE ^B=^A(\"", b"\",1)", b"1 ok"),
    (b"1 LOCK ^A(\"", b"\")", b"1 1"),
    (b"1 LOCK -A(\"", b"\")", b"1 1"),
    (b"1 LOCK +(^B,A(0,\"", b"\")):5", b"1 1"),
    (b"1 $DATA(^A(\"", b"\"))", b"1 0"),
    (b"1 $GET(^A(\"", b"\"),7)", b"1 7"),
    (b"1 $ORDER(^A(\"", b"\"))", b"1 \"\""),
    (b"1 $ORDER(^A(\"", b"\",\"\"),-1)", b"1 \"\""),
    (b"1 $QUERY(^A(\"", b"\"))", b"1 \"\""),
    (b"1 $QUERY(^A(\"", b"\",\"\"),-1)", b"1 \"\""),
    (b"1 $QUERY(^A(1,\"", b"\"),1)", b"1 \"\""),
];

// Whether a line with a text subscript of so many bytes has this reply.
fn is_answered_at(
    alloc: Global,
    front: &[u8],
    count: usize,
    back: &[u8],
    reply: &[u8],
) -> Result<bool, Fail> {
    let line = stretched(alloc, front, b'x', count, back)?;
    is_answered(alloc, &line, reply)
}

// Whether a place takes subscripts of up to 255 bytes, and no longer ones.
fn takes_255(alloc: Global, front: &[u8], back: &[u8], reply: &[u8]) -> Result<bool, Fail> {
    for count in [127, 128, 254, 255] {
        if !is_answered_at(alloc, front, count, back, reply)? {
            return Ok(false);
        }
    }
    is_answered_at(alloc, front, 256, back, b"1 error 4 SubscriptTooLong")
}

// The first place that doesn't; or none.
fn first_other_place(alloc: Global) -> Result<Option<usize>, Fail> {
    for (i, (front, back, reply)) in PLACES.iter().enumerate() {
        if !takes_255(alloc, front, back, reply)? {
            return Ok(Some(i));
        }
    }
    Ok(None)
}

#[test]
fn subscripts_have_up_to_255_bytes_wherever_they_stand(rt: HostRuntime) -> Result<(), Fail> {
    assert_eq!(rt; first_other_place(rt.alloc())?, None);
    Ok(())
}

// A SET of a reference with so many subscripts, each a text of so many bytes.
fn set_line(alloc: Global, count: usize, size: usize) -> Result<Vec<u8>, Fail> {
    let mut line = Vec::from_slice(alloc, b"1 SET ^A(")?;
    for at in 0..count {
        line.extend_from_slice(if at == 0 { b"\"" } else { b",\"" })?;
        for _ in 0..size {
            line.push(b'x')?;
        }
        line.push(b'"')?;
    }
    line.extend_from_slice(b")=1")?;
    Ok(line)
}

// How many subscripts of how many bytes, and the reply to their SET.
const SUBSCRIPTS: [(usize, usize, &[u8]); 4] = [
    (31, 255, b"1 ok"),
    (31, 256, b"1 error 4 SubscriptTooLong"),
    (32, 255, b"1 error 5 TooManySubscripts"),
    (32, 0, b"1 error 5 TooManySubscripts"),
];

fn is_set(alloc: Global, count: usize, size: usize, reply: &[u8]) -> Result<bool, Fail> {
    let line = set_line(alloc, count, size)?;
    is_answered(alloc, &line, reply)
}

#[test]
fn references_have_up_to_31_subscripts_of_255_bytes(rt: HostRuntime) -> Result<(), Fail> {
    for (count, size, reply) in &SUBSCRIPTS {
        assert!(rt;
            is_set(rt.alloc(), *count, *size, reply)?,
            "{count} of {size}"
        );
    }
    Ok(())
}
