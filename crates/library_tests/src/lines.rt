//! Lines and their replies: docs/FORMATS.md, "Lines" and "Replies".
use crate::copies::holds;
use embedded::{Embedded, Outcome};
use refusal::Refusal;
use std::alloc::Global;
use std::test::*;

/// Whether a line has this outcome, and this text is copied.
pub fn is_answered(
    alloc: Global,
    engine: &mut Embedded,
    line: &[u8],
    outcome: Outcome,
    text: &[u8],
) -> bool {
    let mut buffer = [0; 32];
    let mut wanted = 99;
    let told = engine.line(alloc, line, &mut buffer, &mut wanted);
    told == outcome && holds(&buffer, wanted, text)
}

// Lines, their outcomes and their replies.
const ROWS: [(&[u8], Outcome, &[u8]); 5] = [
    (b"1 SET ^A(7)=5", Outcome::Done, b"1 ok\n"),
    (b"2 $GET(^A(7))", Outcome::Done, b"2 5\n"),
    (
        b"1 FOO",
        Outcome::Refused(Refusal::BadLine),
        b"1 error 1 BadLine\n",
    ),
    (b"1 TSTART", Outcome::Done, b"1 level 1\n"),
    (b"1 TRESTART", Outcome::Restarted, b"1 restart 1\n"),
];

fn are_answered(alloc: Global, engine: &mut Embedded) -> bool {
    for (line, outcome, text) in &ROWS {
        if !is_answered(alloc, engine, line, *outcome, text) {
            return false;
        }
    }
    true
}

#[test]
fn lines_are_answered(rt: HostRuntime) -> Result<(), Fail> {
    let mut engine = Embedded::new(rt.alloc());
    let went = are_answered(rt.alloc(), &mut engine);
    drop(engine);
    assert!(rt; went);
    Ok(())
}

// Whether a reply that had no room is copied into a longer buffer.
fn is_kept(alloc: Global, engine: &mut Embedded) -> bool {
    let mut wanted = 0;
    let mut short = [0; 4];
    let is_short = engine.line(alloc, b"1 SET ^A=1", &mut short, &mut wanted)
        == Outcome::BufferTooShort;
    let mut longer = [0; 5];
    let outcome = engine.copy_reply(&mut longer, &mut wanted);
    is_short && short == [0; 4] && outcome == Outcome::Done && holds(&longer, wanted, b"1 ok\n")
}

#[test]
fn a_reply_is_kept_for_a_longer_buffer(rt: HostRuntime) -> Result<(), Fail> {
    let mut engine = Embedded::new(rt.alloc());
    let went = is_kept(rt.alloc(), &mut engine);
    drop(engine);
    assert!(rt; went);
    Ok(())
}

#[test]
fn there_is_no_reply_before_the_first_line(rt: HostRuntime) -> Result<(), Fail> {
    let mut engine = Embedded::new(rt.alloc());
    let mut wanted = 99;
    let outcome = engine.copy_reply(&mut [], &mut wanted);
    drop(engine);
    assert_eq!(rt; (outcome, wanted), (Outcome::NoReply, 0));
    Ok(())
}
