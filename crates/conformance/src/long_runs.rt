//! Long scripts, whose checkpoints come where they cost little.
use job_core::JobCore;
use listing::Counted;
use refusal::Refusal;
use script_run::{Fault, Outcome, Pace, RunLog, Upkeep, run_with};
use std::alloc::{AllocError, Global};
use std::test::Fail;

// How many units the journal has at the end, and how many of them it has dropped.
#[derive(Clone, Copy, Debug, PartialEq, Eq)]
struct Kept {
    units: u64,
    dropped: u64,
}

impl RunLog for Kept {
    fn refused(&mut self, _number: u64, _line: &[u8], _refusal: Refusal) {}

    fn done(&mut self, _number: u64, _line: &[u8]) -> bool {
        false
    }

    fn shown(&mut self, _core: &JobCore) {}

    fn ended(&mut self, core: &JobCore, _is_whole: bool) {
        self.units = core.journal().len();
        self.dropped = core.base().number();
    }
}

const BY_ITSELF: Upkeep = Upkeep {
    collector: Pace::WhereCheap,
    checkpoints: Pace::WhereCheap,
};

// What is done once, what is done again and again, how often, and what is done last.
#[derive(Clone, Copy)]
struct Long {
    first: &'static [u8],
    again: &'static [u8],
    times: usize,
    last: &'static [u8],
}

fn text_of(alloc: Global, long: &Long) -> Result<Vec<u8>, AllocError> {
    let mut text = Vec::from_slice(alloc, long.first)?;
    for _ in 0..long.times {
        text.extend_from_slice(long.again)?;
    }
    text.extend_from_slice(long.last)?;
    Ok(text)
}

// What a script writes, and what its journal keeps.
fn run_long(
    alloc: Global,
    upkeep: Upkeep,
    text: &[u8],
) -> (Result<Outcome, Fault>, Counted<Vec<u8>>, Kept) {
    let mut reader = Counted::new(text);
    let mut writer = Counted::new(Vec::new(alloc));
    let mut kept = Kept {
        units: 0,
        dropped: 0,
    };
    let outcome = run_with(alloc, true, upkeep, &mut reader, &mut writer, &mut kept);
    (outcome, writer, kept)
}

// What its journal keeps.
fn kept_by(alloc: Global, upkeep: Upkeep, long: &Long) -> Result<Kept, Fail> {
    let text = text_of(alloc, long)?;
    let (_, _, kept) = run_long(alloc, upkeep, &text);
    Ok(kept)
}

// SETs of one node, and HALT of job 1 at the end.
const SETS: Long = Long {
    first: b"",
    again: b"1 SET ^A=1\n",
    times: 2000,
    last: b"",
};

// One is due after 1,024 lines, and the next would be after 1,024 more.
#[test]
fn journal_drops_what_it_can_where_that_costs_little(rt: HostRuntime) -> Result<(), Fail> {
    let want = Kept {
        units: 2001,
        dropped: 1024,
    };
    assert_eq!(rt; kept_by(rt.alloc(), BY_ITSELF, &SETS)?, want);
    Ok(())
}

#[test]
fn journal_keeps_all_without_checkpoints(rt: HostRuntime) -> Result<(), Fail> {
    let want = Kept {
        units: 2001,
        dropped: 0,
    };
    assert_eq!(rt; kept_by(rt.alloc(), Upkeep::none(), &SETS)?, want);
    Ok(())
}

// The same, while job 2 has a transaction open.
const BESIDE: Long = Long {
    first: b"2 TSTART\n2 $GET(^B)\n",
    ..SETS
};

#[test]
fn journal_keeps_all_beside_an_open_transaction(rt: HostRuntime) -> Result<(), Fail> {
    let kept = kept_by(rt.alloc(), BY_ITSELF, &BESIDE)?;
    assert_eq!(rt; kept.dropped, 0);
    Ok(())
}

// The same, and job 2's transaction ends; then job 1 sets the node once more, and both jobs halt.
const UNTIL: Long = Long {
    last: b"2 TROLLBACK\n1 SET ^A=2\n",
    ..BESIDE
};

#[test]
fn checkpoint_stays_due_until_the_transaction_ends(rt: HostRuntime) -> Result<(), Fail> {
    let want = Kept {
        units: 2003,
        dropped: 2000,
    };
    assert_eq!(rt; kept_by(rt.alloc(), BY_ITSELF, &UNTIL)?, want);
    Ok(())
}

// Transactions that conflict, nodes that are set and killed beside them, and a lock.
const MIXED: Long = Long {
    first: b"1 SET ^A=0\n3 LOCK ^A\n",
    again: b"2 TSTART\n2 $GET(^A)\n1 SET ^A=7\n1 SET ^B(1)=1\n1 KILL ^B\n2 SET ^C=1\n2 TCOMMIT\n\
2 $GET(^A)\n2 SET ^C=2\n2 TCOMMIT\n4 $GET(^C)\n4 LOCK +^A(1)\n4 $ORDER(^A)\n",
    times: 400,
    last: b"3 LOCK\n4 LOCK +^A(1)\n",
};

// Whether the script writes the same with this upkeep as with none.
fn is_written_alike(alloc: Global, upkeep: Upkeep, text: &[u8]) -> bool {
    let (outcome, written, _) = run_long(alloc, upkeep, text);
    let (plain_outcome, plain, _) = run_long(alloc, Upkeep::none(), text);
    outcome == plain_outcome && written.inner().as_slice() == plain.inner().as_slice()
}

fn are_alike(alloc: Global) -> Result<bool, Fail> {
    let text = text_of(alloc, &MIXED)?;
    Ok(is_written_alike(alloc, BY_ITSELF, &text))
}

fn drops_some_of_the_mixed(alloc: Global) -> Result<bool, Fail> {
    let kept = kept_by(alloc, BY_ITSELF, &MIXED)?;
    Ok(kept.dropped > 0)
}

#[test]
fn replies_and_listing_are_the_same_by_itself(rt: HostRuntime) -> Result<(), Fail> {
    assert!(rt; are_alike(rt.alloc())?);
    assert!(rt; drops_some_of_the_mixed(rt.alloc())?);
    Ok(())
}
