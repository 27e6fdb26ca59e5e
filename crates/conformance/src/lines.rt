//! One line and its reply: docs/FORMATS.md, "Grammar of lines", "Which refusal a line gets" and "Limits and literals".
use crate::scripts::output_of;
use std::alloc::Global;
use std::test::Fail;

/// Whether the line, alone on an empty database, gets this reply.
pub fn is_answered(alloc: Global, line: &[u8], reply: &[u8]) -> Result<bool, Fail> {
    let (text, _) = output_of(alloc, line)?;
    Ok(begins_with(&text, reply))
}

// Whether a script's output is this reply and a listing.
fn begins_with(output: &[u8], reply: &[u8]) -> bool {
    match output.strip_prefix(reply) {
        Some(listing) => listing.starts_with(b"\n--\n".as_slice()),
        None => false,
    }
}

// A line and its reply.
type Row = (&'static [u8], &'static [u8]);

// The first row whose line gets another reply; or none.
fn first_other(alloc: Global, rows: &[Row]) -> Result<Option<usize>, Fail> {
    for (i, (line, reply)) in rows.iter().enumerate() {
        if !is_answered(alloc, line, reply)? {
            return Ok(Some(i));
        }
    }
    Ok(None)
}

const DOUBTFUL: [Row; 37] = [
    (b"1", b"1 error 1 BadLine"),
    (b" ", b"0 error 1 BadLine"),
    (b"5000 FOO", b"0 error 1 BadLine"),
    (b"1x SET ^A=1", b"0 error 1 BadLine"),
    (b"x SET ^A=1", b"0 error 1 BadLine"),
    (b"1 SET ^A=1.", b"1 error 1 BadLine"),
    (b"1 SET ^A=+1", b"1 error 1 BadLine"),
    (b"1 SET ^A=\"a\"_1", b"1 error 1 BadLine"),
    (b"1 SET ^A=$C(256)", b"1 error 1 BadLine"),
    (b"1 SET ^A(\"x", b"1 error 1 BadLine"),
    (b"1 SET ^A = 1", b"1 error 1 BadLine"),
    (b"1 SET ^A=1\r", b"1 error 1 BadLine"),
    (b"1\r", b"0 error 1 BadLine"),
    (b"1 SETS ^A=1", b"1 error 1 BadLine"),
    (b"1 SET ^1A(\"\"=1", b"1 error 1 BadLine"),
    (b"1 SET ^1A=1 x", b"1 error 1 BadLine"),
    (b"4097 KILL ^1A x", b"0 error 1 BadLine"),
    (b"1 $ORDER(^A(1),2)", b"1 error 1 BadLine"),
    (b"1 $ORDER(^A(1),\"01\")", b"1 error 1 BadLine"),
    (b"1 $ORDER(^1A,2)", b"1 error 1 BadLine"),
    (b"1 $GET (^A)", b"1 error 1 BadLine"),
    (b"0 KILL ^A", b"0 error 12 BadJob"),
    (b"4097 KILL ^A", b"0 error 12 BadJob"),
    (b"4097 KILL ^1A", b"0 error 12 BadJob"),
    (b"4294967297 KILL ^A", b"0 error 12 BadJob"),
    (b"18446744073709551617 KILL ^A", b"0 error 12 BadJob"),
    (b"4097 HALT", b"0 error 12 BadJob"),
    (b"99999999999999999999999 HALT", b"0 error 12 BadJob"),
    (b"1 TSTART x", b"1 error 1 BadLine"),
    (b"1 LOCK +1A", b"1 error 2 BadName"),
    (b"1 LOCK (^A,B(1,\"\"),^1C)", b"1 error 3 EmptySubscript"),
    (b"1 $DATA(^A(\"\"))", b"1 error 3 EmptySubscript"),
    (b"1 $ORDER(^A(\"\",1))", b"1 error 3 EmptySubscript"),
    (b"1 $ORDER(^A(\"\",\"\"))", b"1 error 3 EmptySubscript"),
    (b"1 SET ^1A(\"\")=1", b"1 error 2 BadName"),
    (
        b"7 KILL ^A2345678901234567890123456789012",
        b"7 error 2 BadName",
    ),
    (
        b"1 KILL ^A(\"\",1,1,1,1,1,1,1,1,1,1,1,1,1,1,1,1,1,1,1,1,1,1,1,1,1,1,1,1,1,1,1)",
        b"1 error 5 TooManySubscripts",
    ),
];

#[test]
fn doubtful_lines_get_the_replies_of_the_table(rt: HostRuntime) -> Result<(), Fail> {
    assert_eq!(rt; first_other(rt.alloc(), &DOUBTFUL)?, None);
    Ok(())
}

const WORDS: [Row; 31] = [
    (b"00001 KILL ^A", b"1 ok"),
    (b"4096 SET ^A=1  ", b"4096 ok"),
    (b"1 \t set ^A=1\t", b"1 ok"),
    (b"1 s ^A=1", b"1 ok"),
    (b"1 k ^A", b"1 ok"),
    (b"1 Merge ^B=^A", b"1 ok"),
    (b"1 m ^B=^A(1)", b"1 ok"),
    (b"1 $data(^A)", b"1 0"),
    (b"1 $D(^A(1,2))", b"1 0"),
    (b"1 $g(^A)", b"1 \"\""),
    (b"1 $get(^A,\"none\")", b"1 \"none\""),
    (b"1 $ORDER(^Z(1),\"-1\")", b"1 \"\""),
    (b"1 $o(^A(\"\"),01)", b"1 \"\""),
    (b"1 $ORDER(^A(1),-1.0)", b"1 \"\""),
    (b"1 $ORDER(^A(1),$C(49))", b"1 \"\""),
    (b"1 $ORDER(^A)", b"1 error 7 NeedSubscript"),
    (b"1 $q(^A(\"\"),-1)", b"1 \"\""),
    (b"00001 HALT", b"1 ok"),
    (b"4096 h\t", b"4096 ok"),
    (b"7 ts", b"7 level 1"),
    (b"1 $TL", b"1 0"),
    (b"1 $tr ", b"1 0"),
    (b"1 l", b"1 ok"),
    (b"1 Lock +(^A,B)", b"1 1"),
    (b"1 kv ^A", b"1 ok"),
    (b"1 KSubscripts ^A(1)", b"1 ok"),
    (b"1 $i(^A)", b"1 1"),
    (b"1 $Increment(^A,-01.50)", b"1 -1.5"),
    (b"1 $I(^A(1),\"-.5\")", b"1 -.5"),
    (b"1 $o(^$g(\"\"))", b"1 \"\""),
    (b"1 $Order(^$Global(\"^A\"),-1.0)", b"1 \"\""),
];

#[test]
fn words_are_read_in_any_case_and_short(rt: HostRuntime) -> Result<(), Fail> {
    assert_eq!(rt; first_other(rt.alloc(), &WORDS)?, None);
    Ok(())
}

/// A line with a stretch of one byte in its midst.
pub fn stretched(
    alloc: Global,
    front: &[u8],
    byte: u8,
    count: usize,
    back: &[u8],
) -> Result<Vec<u8>, Fail> {
    let mut line = Vec::from_slice(alloc, front)?;
    for _ in 0..count {
        line.push(byte)?;
    }
    line.extend_from_slice(back)?;
    Ok(line)
}

/// A line with a stretch of one byte in its midst, so long, and its reply.
pub type Stretched = (&'static [u8], u8, usize, &'static [u8], &'static [u8]);

fn is_answered_as(alloc: Global, row: &Stretched) -> Result<bool, Fail> {
    let (front, byte, count, back, reply) = *row;
    let line = stretched(alloc, front, byte, count, back)?;
    is_answered(alloc, &line, reply)
}

/// The first row whose line gets another reply; or none.
pub fn first_other_stretched(alloc: Global, rows: &[Stretched]) -> Result<Option<usize>, Fail> {
    for (i, row) in rows.iter().enumerate() {
        if !is_answered_as(alloc, row)? {
            return Ok(Some(i));
        }
    }
    Ok(None)
}

const LIMITS: [Stretched; 15] = [
    (b"1 SET ^A=\"", b'x', 32767, b"\"", b"1 ok"),
    (
        b"1 SET ^A=\"",
        b'x',
        32768,
        b"\"",
        b"1 error 6 ValueTooLong",
    ),
    (
        b"1 $GET(^A,\"",
        b'x',
        32768,
        b"\")",
        b"1 error 6 ValueTooLong",
    ),
    (b"1 $I(^A,", b'9', 32768, b")", b"1 error 6 ValueTooLong"),
    (
        b"1 SET ^A=",
        b'9',
        32767,
        b"\n1 $I(^A)",
        b"1 ok\n1 error 19 SumTooLong",
    ),
    (b"1 SET ^A=", b'0', 40000, b"7", b"1 ok"),
    (b"1 SET ^A=", b'9', 300, b"", b"1 ok"),
    (b"1 SET ^A(", b'0', 400, b"1)=1", b"1 ok"),
    (b"1 SET ^A(", b'9', 255, b")=1", b"1 ok"),
    (
        b"1 SET ^A(",
        b'9',
        256,
        b")=1",
        b"1 error 4 SubscriptTooLong",
    ),
    (b"1 SET ^A(-", b'9', 254, b")=1", b"1 ok"),
    (
        b"1 SET ^A(-",
        b'9',
        255,
        b")=1",
        b"1 error 4 SubscriptTooLong",
    ),
    (b"1 SET ^A(.", b'0', 253, b"1)=1", b"1 ok"),
    (
        b"1 SET ^A(.",
        b'0',
        254,
        b"1)=1",
        b"1 error 4 SubscriptTooLong",
    ),
    (
        b"1 SET ^A(\"\",",
        b'9',
        300,
        b")=1",
        b"1 error 3 EmptySubscript",
    ),
];

#[test]
fn limits_measure_the_string_that_a_literal_stands_for(rt: HostRuntime) -> Result<(), Fail> {
    assert_eq!(rt; first_other_stretched(rt.alloc(), &LIMITS)?, None);
    Ok(())
}
