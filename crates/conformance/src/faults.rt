//! A reader or a writer that fails at each call in turn, input in pieces, and what is written when.
use crate::streams::{Heard, Pieces, Taken, Watching};
use job_core::JobCore;
use listing::Counted;
use refusal::Refusal;
use script_run::{Fault, NoLog, Outcome, RunLog, Upkeep, run_script, run_with};
use std::alloc::{AllocError, Global};
use std::cell::Cell;
use std::test::Fail;
use worked_rows::{ANSWERED, COMMITS, INSIDE, LEVELS, OUTSIDE, REFUSED, Row};

// How a script went, what was written, and how many reads and writes there were.
#[derive(Drop)]
struct Went {
    outcome: Result<Outcome, Fault>,
    text: Vec<u8>,
    reads: u64,
    writes: u64,
    read_failures: u64,
    write_failures: u64,
}

// What fails: a read or a write by its number, or a write that takes nothing (0: none).
#[derive(Clone, Copy)]
struct Failing {
    read: u64,
    write: u64,
    nothing_at: u64,
}

const NONE: Failing = Failing {
    read: 0,
    write: 0,
    nothing_at: 0,
};

fn reader_of(script: &[u8], size: usize, failing: Failing) -> Counted<Pieces<'_>> {
    Counted::new(Pieces {
        text: script,
        size,
        fails_at: failing.read,
        calls: 0,
    })
}

fn writer_of(alloc: Global, size: usize, failing: Failing) -> Counted<Taken> {
    Counted::new(Taken {
        text: Vec::new(alloc),
        size,
        fails_at: failing.write,
        nothing_at: failing.nothing_at,
        calls: 0,
        largest: 0,
    })
}

fn run_pieces(alloc: Global, script: &str, size: usize, failing: Failing) -> Result<Went, Fail> {
    let mut reader = reader_of(script.as_bytes(), size, failing);
    let mut writer = writer_of(alloc, size, failing);
    let outcome = run_script(alloc, Upkeep::none(), &mut reader, &mut writer);
    let text = Vec::from_slice(alloc, &writer.inner().text)?;
    Ok(Went {
        outcome,
        text,
        reads: reader.inner().calls,
        writes: writer.inner().calls,
        read_failures: reader.failures(),
        write_failures: writer.failures(),
    })
}

fn is_whole(alloc: Global, row: &Row, size: usize) -> Result<bool, Fail> {
    let (script, output) = *row;
    let run = run_pieces(alloc, script, size, NONE)?;
    let refused = output.contains("error");
    Ok(run.outcome == ample_run(refused) && run.text.as_slice() == output.as_bytes())
}

// A read that fails is the last call of the reader, is counted once, and leaves just the replies of lines that ended.
fn ends_at_read(alloc: Global, row: &Row, size: usize, call: u64) -> Result<bool, Fail> {
    let (script, output) = *row;
    let failing = Failing { read: call, ..NONE };
    let went = run_pieces(alloc, script, size, failing)?;
    Ok(
        went.outcome == Err(Fault::Read)
            && went.reads == call
            && went.read_failures == 1
            && went.write_failures == 0
            && output.as_bytes().starts_with(&went.text)
            && went.text.len() + 3 <= output.len(),
    )
}

// A write that fails, or takes nothing, is the last call of the writer, and is counted once.
fn ends_at_write(alloc: Global, row: &Row, size: usize, failing: Failing) -> Result<bool, Fail> {
    let (script, output) = *row;
    let went = run_pieces(alloc, script, size, failing)?;
    Ok(
        went.outcome == Err(Fault::Write)
            && went.writes == failing.write.max(failing.nothing_at)
            && went.write_failures == 1
            && went.read_failures == 0
            && output.as_bytes().starts_with(&went.text),
    )
}

// How many reads and writes there are where none fails.
fn calls_of(alloc: Global, row: &Row, size: usize) -> Result<(u64, u64), Fail> {
    let (script, _) = *row;
    let went = run_pieces(alloc, script, size, NONE)?;
    Ok((went.reads, went.writes))
}

// The first read whose failing ends the run otherwise; or none.
fn first_other_read(
    alloc: Global,
    row: &Row,
    size: usize,
    reads: u64,
) -> Result<Option<u64>, Fail> {
    for call in 1..=reads {
        if !ends_at_read(alloc, row, size, call)? {
            return Ok(Some(call));
        }
    }
    Ok(None)
}

// The first write whose failing, or taking nothing, ends the run otherwise; or none.
fn first_other_write(
    alloc: Global,
    row: &Row,
    size: usize,
    writes: u64,
) -> Result<Option<u64>, Fail> {
    for call in 1..=writes {
        let fails = Failing {
            write: call,
            ..NONE
        };
        let takes_nothing = Failing {
            nothing_at: call,
            ..NONE
        };
        if !ends_at_write(alloc, row, size, fails)?
            || !ends_at_write(alloc, row, size, takes_nothing)?
        {
            return Ok(Some(call));
        }
    }
    Ok(None)
}

fn bears_pieces(alloc: Global, row: &Row, size: usize) -> Result<bool, Fail> {
    let (reads, writes) = calls_of(alloc, row, size)?;
    Ok(
        reads > 0
            && writes > 0
            && is_whole(alloc, row, size)?
            && first_other_read(alloc, row, size, reads)?.is_none()
            && first_other_write(alloc, row, size, writes)?.is_none(),
    )
}

// The number of the first script that writes something else than its output in pieces of 1, 7 or 4,096 bytes, or whose
// run, when one of its reads or writes fails, doesn't end there with a beginning written; or none.
fn first_failing(alloc: Global, rows: &[Row]) -> Result<Option<usize>, Fail> {
    for (i, row) in rows.iter().enumerate() {
        for size in [1, 7, 4096] {
            if !bears_pieces(alloc, row, size)? {
                return Ok(Some(i));
            }
        }
    }
    Ok(None)
}

#[test]
fn scripts_end_at_each_failing_call(rt: HostRuntime) -> Result<(), Fail> {
    assert_eq!(rt; first_failing(rt.alloc(), &ANSWERED)?, None);
    assert_eq!(rt; first_failing(rt.alloc(), &REFUSED)?, None);
    Ok(())
}

#[test]
fn transactions_end_at_each_failing_call(rt: HostRuntime) -> Result<(), Fail> {
    assert_eq!(rt; first_failing(rt.alloc(), &COMMITS)?, None);
    assert_eq!(rt; first_failing(rt.alloc(), &LEVELS)?, None);
    Ok(())
}

#[test]
fn locks_end_at_each_failing_call(rt: HostRuntime) -> Result<(), Fail> {
    assert_eq!(rt; first_failing(rt.alloc(), &OUTSIDE)?, None);
    assert_eq!(rt; first_failing(rt.alloc(), &INSIDE)?, None);
    Ok(())
}

// How many reads came before the replies of the lines that had ended were written, or after more than these were.
fn reads_out_of_turn(alloc: Global, size: usize) -> Result<u64, Fail> {
    let written = Cell::new(0);
    let mut reader = Counted::new(Watching {
        text: b"1 SET ^A=1\n1 SET ^B=2\n1 KILL ^A\n1 SET ^C(1)=3\n1 KILL ^B\n",
        size,
        ended: 0,
        written: &written,
        out_of_turn: 0,
    });
    let mut writer = Counted::new(Heard { written: &written });
    let outcome = run_script(alloc, Upkeep::none(), &mut reader, &mut writer);
    Ok(if outcome.is_ok() {
        reader.inner().out_of_turn
    } else {
        u64::MAX
    })
}

#[test]
fn replies_come_before_the_next_read(rt: HostRuntime) -> Result<(), Fail> {
    for size in [1, 7, 4096] {
        let out_of_turn = reads_out_of_turn(rt.alloc(), size)?;
        assert!(rt; out_of_turn == 0, "{out_of_turn} reads in pieces of {size}");
    }
    Ok(())
}

// One value of 32,767 bytes, and 60 times its text.
fn long_script(alloc: Global) -> Result<Vec<u8>, AllocError> {
    let mut script = Vec::from_slice(alloc, b"1 SET ^A=\"")?;
    for _ in 0..32767 {
        script.push(b'x')?;
    }
    script.extend_from_slice(b"\"\n")?;
    for _ in 0..60 {
        script.extend_from_slice(b"1 $GET(^A)\n")?;
    }
    Ok(script)
}

// The most that is written at once of a script that is read at once.
fn largest_of(alloc: Global, script: &[u8]) -> usize {
    let mut reader = reader_of(script, script.len(), NONE);
    let mut writer = writer_of(alloc, usize::MAX, NONE);
    let outcome = run_script(alloc, Upkeep::none(), &mut reader, &mut writer);
    if outcome.is_ok() {
        writer.inner().largest
    } else {
        0
    }
}

fn largest_write(alloc: Global) -> Result<usize, Fail> {
    let script = long_script(alloc)?;
    Ok(largest_of(alloc, &script))
}

// A pipe takes such a piece whole or not at all.
#[test]
fn output_goes_in_pieces(rt: HostRuntime) -> Result<(), Fail> {
    let largest = largest_write(rt.alloc())?;
    assert!(rt; largest == 4096, "a write of {largest}");
    Ok(())
}

// What was told of refused lines, and how many units there were at the end.
#[derive(Drop)]
struct Told {
    lines: u64,
    bytes: usize,
    refusals: u64,
    units: u64,
}

impl RunLog for Told {
    fn refused(&mut self, number: u64, line: &[u8], refusal: Refusal) {
        self.lines = number;
        self.bytes = line.len();
        if refusal == Refusal::BadLine {
            self.refusals = self.refusals.saturating_add(1);
        }
    }

    fn done(&mut self, _number: u64, _line: &[u8]) -> bool {
        false
    }

    fn shown(&mut self, _core: &JobCore) {}

    fn ended(&mut self, core: &JobCore, _is_whole: bool) {
        self.units = core.journal().len();
    }
}

// Asks to be shown the core at an empty line. How many bytes were written then, how many units there were, and which
// line was done last.
#[derive(Drop)]
struct Looking<'a> {
    written: &'a Cell<usize>,
    bytes: usize,
    units: u64,
    lines: u64,
}

impl RunLog for Looking<'_> {
    fn refused(&mut self, _number: u64, _line: &[u8], _refusal: Refusal) {}

    fn done(&mut self, number: u64, line: &[u8]) -> bool {
        self.lines = number;
        line.is_empty()
    }

    fn shown(&mut self, core: &JobCore) {
        self.bytes = self.written.get();
        self.units = core.journal().len();
    }

    fn ended(&mut self, _core: &JobCore, _is_whole: bool) {}
}

// What such a log finds: lines, bytes, units.
fn looked(alloc: Global) -> Result<(u64, usize, u64), Fail> {
    let written = Cell::new(0);
    let mut reader = reader_of(b"1 SET ^A=1\n1 SET ^B=1\n\n2 SET ^C=1\n", 100, NONE);
    let mut writer = Counted::new(Heard { written: &written });
    let mut log = Looking {
        written: &written,
        bytes: 0,
        units: 0,
        lines: 0,
    };
    let outcome = run_with(
        alloc,
        false,
        Upkeep::none(),
        &mut reader,
        &mut writer,
        &mut log,
    );
    if outcome != ample_run(false) {
        return Ok((0, 0, 0));
    }
    Ok((log.lines, log.bytes, log.units))
}

#[test]
fn a_log_is_shown_the_core_after_the_replies(rt: HostRuntime) -> Result<(), Fail> {
    assert_eq!(rt; looked(rt.alloc())?, (4, 10, 2));
    Ok(())
}

// A run without a want of memory.
fn ample_run(refused: bool) -> Result<Outcome, Fault> {
    Ok(Outcome {
        refused,
        wanting: false,
    })
}

// The text of a run without a listing, and what was told.
fn unlisted(alloc: Global) -> Result<(Vec<u8>, Told), Fail> {
    let mut reader = reader_of(b"1 SET ^A=1\n\n1 FOO\r\n2 $GET(^A)", 7, NONE);
    let mut writer = writer_of(alloc, 7, NONE);
    let mut told = Told {
        lines: 0,
        bytes: 0,
        refusals: 0,
        units: 0,
    };
    let outcome = run_with(
        alloc,
        false,
        Upkeep::none(),
        &mut reader,
        &mut writer,
        &mut told,
    );
    let text = if outcome == ample_run(true) {
        Vec::from_slice(alloc, &writer.inner().text)?
    } else {
        Vec::new(alloc)
    };
    Ok((text, told))
}

// Whether the replies alone are written, and the refused line is told.
fn is_unlisted(alloc: Global) -> Result<bool, Fail> {
    let (text, told) = unlisted(alloc)?;
    let is_text = text.as_slice() == b"1 ok\n1 error 1 BadLine\n2 1\n".as_slice();
    Ok(is_text && (told.lines, told.bytes, told.refusals, told.units) == (3, 5, 1, 4))
}

#[test]
fn run_without_listing_prints_replies_alone(rt: HostRuntime) -> Result<(), Fail> {
    assert!(rt; is_unlisted(rt.alloc())?);
    Ok(())
}

// What a run prints with a log that keeps nothing.
fn listed(alloc: Global) -> Result<Vec<u8>, Fail> {
    let mut reader = reader_of(b"1 SET ^A=1", 7, NONE);
    let mut writer = writer_of(alloc, 7, NONE);
    let outcome = run_with(
        alloc,
        true,
        Upkeep::none(),
        &mut reader,
        &mut writer,
        &mut NoLog,
    );
    Ok(if outcome == ample_run(false) {
        Vec::from_slice(alloc, &writer.inner().text)?
    } else {
        Vec::new(alloc)
    })
}

#[test]
fn run_with_listing_is_the_script_s_run(rt: HostRuntime) -> Result<(), Fail> {
    let text = listed(rt.alloc())?;
    assert_eq!(rt; text.as_slice(), b"1 ok\n--\n^A=1\n".as_slice());
    Ok(())
}
