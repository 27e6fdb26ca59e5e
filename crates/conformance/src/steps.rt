//! Lists of steps, from docs/RULES.md: their replies, the journal and the content that they leave; and long lists,
//! which end within the runner's limit.
use crate::answers::{Acts, answers, goes};
use command::Reply;
use job_core::{JobCore, Step, run_from_nothing};
use listing::{Counted, ListingFault, write_listing};
use refusal::Refusal;
use script::{Drafts, read_line, write_reply};
use std::alloc::{AllocError, Global};
use std::test::Fail;

fn push_step(alloc: Global, steps: &mut Vec<Step>, line: &str) -> Result<(), Refusal> {
    let mut drafts = Drafts::new(alloc);
    match read_line(alloc, line.as_bytes(), &mut drafts) {
        Ok((job, command)) => {
            steps.push(Step::Do(job, command))?;
            Ok(())
        }
        Err(fault) => Err(fault.refusal),
    }
}

fn steps_of(alloc: Global, lines: &[&str]) -> Result<Vec<Step>, Refusal> {
    let mut steps = Vec::new(alloc);
    for line in lines {
        push_step(alloc, &mut steps, line)?;
    }
    Ok(steps)
}

const LINES: [&str; 8] = [
    "1 SET ^A(1)=\"a\"",
    "1 SET ^A(12)=\"b\"",
    "1 SET ^A(1,\"x\")=\"c\"",
    "2 KILL ^A(1)",
    "2 $DATA(^A)",
    "2 $GET(^A(1))",
    "2 $ORDER(^A(1))",
    "2 $ORDER(^A)",
];

// Whether the replies are this text, all with the job 0.
fn are_written(alloc: Global, replies: &[Reply], want: &[u8]) -> Result<bool, AllocError> {
    let mut text = Vec::new(alloc);
    for reply in replies {
        write_reply(None, reply, &mut text)?;
    }
    Ok(text.as_slice() == want)
}

// Whether every step but the refused one is in the journal, and ^A(12) alone is left.
fn is_left(alloc: Global, core: &JobCore) -> Result<bool, ListingFault> {
    Ok(core.journal().len() == 7 && is_listed_as(alloc, core, b"^A(12)=\"b\"\n")?)
}

// Whether the steps have these replies, and leave what they should.
fn are_done(alloc: Global, steps: Vec<Step>, want: &[u8]) -> Result<(bool, bool), Fail> {
    let (core, replies) = run_from_nothing(alloc, steps)?;
    let written = are_written(alloc, &replies, want);
    let left = is_left(alloc, &core);
    drop(replies);
    drop(core);
    Ok((written?, left?))
}

#[test]
fn a_worked_list_has_its_replies_and_leaves_its_content(rt: HostRuntime) -> Result<(), Fail> {
    let steps = steps_of(rt.alloc(), &LINES)?;
    let want = b"0 ok\n0 ok\n0 ok\n0 ok\n0 10\n0 \"\"\n0 12\n0 error 7 NeedSubscript\n";
    assert_eq!(rt; are_done(rt.alloc(), steps, want)?, (true, true));
    Ok(())
}

fn is_listed_as(alloc: Global, core: &JobCore, want: &[u8]) -> Result<bool, ListingFault> {
    let mut writer = Counted::new(Vec::new(alloc));
    write_listing(alloc, &core.content(), &mut writer)?;
    Ok(writer.inner().as_slice() == want)
}

fn is_answered(
    alloc: Global,
    core: &mut JobCore,
    parts: [&[u8]; 4],
    want: &[u8],
) -> Result<bool, Refusal> {
    let mut line = Vec::new(alloc);
    for part in parts {
        line.extend_from_slice(part)?;
    }
    answers(alloc, core, &line, want)
}

fn is_got(alloc: Global, core: &mut JobCore, digits: &[u8]) -> Result<bool, Refusal> {
    let mut want = Vec::from_slice(alloc, b"2 ")?;
    want.extend_from_slice(digits)?;
    is_answered(alloc, core, [b"2 $GET(^A(", digits, b"))", b""], &want)
}

// Sets ^A(n) = n and gets it again.
fn is_set_and_got(alloc: Global, core: &mut JobCore, n: u32) -> Result<bool, Refusal> {
    let digits = n.to_string(alloc)?;
    let n = digits.as_bytes();
    let is_set = is_answered(alloc, core, [b"1 SET ^A(", n, b")=", n], b"1 ok")?;
    Ok(is_set && is_got(alloc, core, n)?)
}

const MANY: u32 = 100_000;

// The first of many subscripts that isn't set and got; or none. An odd factor, so that no number below 2^20 comes
// twice.
fn first_lost(alloc: Global, core: &mut JobCore, factor: u32) -> Result<Option<u32>, Refusal> {
    for i in 0..MANY {
        let n = i.wrapping_mul(factor) & 0xf_ffff;
        if !is_set_and_got(alloc, core, n)? {
            return Ok(Some(n));
        }
    }
    Ok(None)
}

// 100,000 nodes, each of them set and got.
#[derive(Clone, Copy)]
enum Case {
    Rising,
    Shuffled,
}

impl Acts for Case {
    fn act(self, alloc: Global, core: &mut JobCore) -> Result<bool, Refusal> {
        match self {
            Case::Rising => Ok(
                first_lost(alloc, core, 1)?.is_none()
                    && core.journal().len() == 2 * u64::from(MANY),
            ),
            Case::Shuffled => Ok(
                first_lost(alloc, core, 646_957)?.is_none()
                    && answers(alloc, core, b"1 $DATA(^A)", b"1 10")?,
            ),
        }
    }
}

#[test]
fn many_rising_subscripts_are_set_and_got(rt: HostRuntime) {
    assert!(rt; goes(rt.alloc(), &[], Case::Rising));
}

#[test]
fn many_shuffled_subscripts_are_set_and_got(rt: HostRuntime) {
    assert!(rt; goes(rt.alloc(), &[], Case::Shuffled));
}
