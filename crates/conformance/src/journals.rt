//! Journals written as scripts: docs/FORMATS.md, "A journal as a script". Random ones are done again by
//! `tests/random_steps`.
use crate::answers::answer;
use job_core::JobCore;
use journal_lines::write_journal;
use listing::{Counted, write_listing};
use refusal::Refusal;
use std::alloc::Global;

// A script, and the lines that its journal is written as.
type Pair = (&'static str, &'static str);

const ROWS: [Pair; 12] = [
    // each data command, in capitals and in its one spelling; what is refused is no unit
    (
        "1 s ^A( 1)=1\n1 s ^A(01)=\"x\"\n2 kill ^A(2)\n3 M ^B=^A\n1 $d(^A)\n1 $g(^A(1))\n1 $g(^A(9),\"07\")\n",
        "1 SET ^A(1)=\"x\"\n2 KILL ^A(2)\n3 MERGE ^B=^A\n1 $DATA(^A)\n1 $GET(^A(1))\n1 $GET(^A(9),\"07\")\n",
    ),
    // places: closed and open, forward and backward
    (
        "1 $O(^A(1))\n1 $O(^A(\"\"),1)\n1 $O(^A(1,\"\"),-1)\n1 $Q(^A)\n1 $Q(^A(\"\"))\n\
1 $Q(^A(\"b\",2),\"-1\")\n1 $Q(^A(\"b\",\"\"),-1)\n",
        "1 $ORDER(^A(1))\n1 $ORDER(^A(\"\"))\n1 $ORDER(^A(1,\"\"),-1)\n1 $QUERY(^A)\n1 $QUERY(^A(\"\"))\n\
1 $QUERY(^A(\"b\",2),-1)\n1 $QUERY(^A(\"b\",\"\"),-1)\n",
    ),
    // strings with quotes and other bytes
    (
        "4096 SET ^%a(\"a\"\"b\",$C(10))=$C(0)_\"z\"\n",
        "4096 SET ^%a(\"a\"\"b\",$C(10))=$C(0)_\"z\"\n",
    ),
    // LOCKs outside transactions, had or not; a timeout isn't kept
    (
        "1 LOCK ^A\n2 LOCK +(^A(1),A):5\n2 L -A\n2 L (B(1,\"x\"),^C)\n1 L\n",
        "1 LOCK ^A\n2 LOCK +(^A(1),A)\n2 LOCK -A\n2 LOCK (B(1,\"x\"),^C)\n1 LOCK\n",
    ),
    // a transaction is a unit where it commits, whatever its levels; one that is rolled back is none
    (
        "1 TSTART\n1 SET ^A=1\n2 SET ^B=1\n1 TSTART\n1 $GET(^A)\n1 TCOMMIT\n1 TCOMMIT\n2 TSTART\n2 SET ^C=1\n\
2 TROLLBACK\n",
        "2 SET ^B=1\n1 TSTART\n1 SET ^A=1\n1 $GET(^A)\n1 TCOMMIT\n",
    ),
    // a transaction without commands
    ("1 TSTART\n1 TCOMMIT\n", "1 TSTART\n1 TCOMMIT\n"),
    // a LOCK inside begins its transaction; at the commit it is done once more
    (
        "1 TSTART\n1 LOCK +^A\n2 SET ^B=1\n1 LOCK +^C\n1 SET ^A=1\n1 TCOMMIT\n1 LOCK\n",
        "1 TSTART\n1 LOCK +^A\n2 SET ^B=1\n1 LOCK +^C\n1 TRESTART\n1 LOCK +^A\n1 LOCK +^C\n1 SET ^A=1\n\
1 TCOMMIT\n1 LOCK\n",
    ),
    // once more only what has changed something: of a LOCK that hadn't its names that the others were released
    (
        "2 LOCK ^X\n1 TSTART\n1 LOCK +^X\n1 LOCK ^X\n1 LOCK -^Y\n1 TCOMMIT\n",
        "2 LOCK ^X\n1 TSTART\n1 LOCK +^X\n1 LOCK ^X\n1 LOCK -^Y\n1 TRESTART\n1 LOCK\n1 LOCK -^Y\n1 TCOMMIT\n",
    ),
    // a rollback and a restart of one with a LOCK are both TROLLBACK
    (
        "1 TSTART\n1 LOCK +^A\n1 SET ^A=1\n1 TRESTART\n1 LOCK +^B\n1 TROLLBACK\n1 TSTART\n1 SET ^A=2\n1 TCOMMIT\n",
        "1 TSTART\n1 LOCK +^A\n1 TROLLBACK\n1 TSTART\n1 LOCK +^B\n1 TROLLBACK\n1 TSTART\n1 SET ^A=2\n1 TCOMMIT\n",
    ),
    // one that is overtaken goes back
    (
        "1 TSTART\n1 $GET(^A)\n1 LOCK +^A\n2 SET ^A=1\n1 TCOMMIT\n1 TCOMMIT\n",
        "1 TSTART\n1 LOCK +^A\n2 SET ^A=1\n1 TROLLBACK\n1 TSTART\n1 TCOMMIT\n",
    ),
    // the end of a session, in a transaction too
    (
        "1 HALT\n2 TSTART\n2 SET ^A=1\n2 LOCK +^A\n2 HALT\n2 TSTART\n2 TCOMMIT\n2 HALT\n",
        "1 HALT\n2 TSTART\n2 LOCK +^A\n2 HALT\n2 TSTART\n2 TCOMMIT\n2 HALT\n",
    ),
    // two jobs' transactions at once
    (
        "1 TSTART\n2 TSTART\n1 LOCK +^A\n2 LOCK +^B\n2 LOCK +^A\n1 TCOMMIT\n2 TCOMMIT\n",
        "1 TSTART\n1 LOCK +^A\n2 TSTART\n2 LOCK +^B\n2 LOCK +^A\n1 TRESTART\n1 LOCK +^A\n1 TCOMMIT\n2 TRESTART\n\
2 LOCK +^B\n2 TCOMMIT\n",
    ),
];

// Does the lines that aren't empty, whatever they are answered.
fn do_lines(alloc: Global, core: &mut JobCore, lines: &[u8]) -> Result<(), Refusal> {
    let mut replies = Vec::new(alloc);
    for line in lines.split(|byte| *byte == b'\n') {
        if !line.is_empty()
            && answer(alloc, core, line, &mut replies) == Err(Refusal::OutOfMemory)
        {
            return Err(Refusal::OutOfMemory);
        }
    }
    Ok(())
}

// Whether the lines of the core's journal are these.
fn is_written(alloc: Global, core: &JobCore, lines: &[u8]) -> bool {
    let mut writer = Counted::new(Vec::new(alloc));
    write_journal(alloc, core.journal(), &mut writer).is_ok() && writer.inner().as_slice() == lines
}

// Puts the listing of the core's content into an empty text; whether there was memory for it.
fn is_listed(alloc: Global, core: &JobCore, out: &mut Counted<Vec<u8>>) -> bool {
    write_listing(alloc, &core.content(), out).is_ok()
}

fn are_listed_alike(alloc: Global, core: &JobCore, again: &JobCore) -> bool {
    let mut one = Counted::new(Vec::new(alloc));
    let mut other = Counted::new(Vec::new(alloc));
    is_listed(alloc, core, &mut one)
        && is_listed(alloc, again, &mut other)
        && one.inner().as_slice() == other.inner().as_slice()
}

// Whether a script's journal is written as these lines, which leave the same listing on another core.
fn is_alike(
    alloc: Global,
    core: &mut JobCore,
    again: &mut JobCore,
    script: &[u8],
    lines: &[u8],
) -> Result<bool, Refusal> {
    do_lines(alloc, core, script)?;
    do_lines(alloc, again, lines)?;
    Ok(is_written(alloc, core, lines) && are_listed_alike(alloc, core, again))
}

fn is_row_alike(alloc: Global, script: &[u8], lines: &[u8]) -> Result<bool, Refusal> {
    let mut core = JobCore::new(alloc);
    let mut again = JobCore::new(alloc);
    let alike = is_alike(alloc, &mut core, &mut again, script, lines);
    drop(again);
    drop(core);
    alike
}

// The number of the first row whose journal is written otherwise; or none.
fn first_other(alloc: Global, rows: &[Pair]) -> Result<Option<usize>, Refusal> {
    for (i, (script, lines)) in rows.iter().enumerate() {
        if !is_row_alike(alloc, script.as_bytes(), lines.as_bytes())? {
            return Ok(Some(i));
        }
    }
    Ok(None)
}

#[test]
fn journals_are_written_as_lines_that_do_the_same(rt: HostRuntime) {
    assert!(rt; first_other(rt.alloc(), &ROWS) == Ok(None));
}
