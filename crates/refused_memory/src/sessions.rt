//! Two sessions of a shared engine where memory is refused: what is refused for it is done again, and then all is as if
//! it hadn't been refused: each reply, the numbers of the receipts, the units and the listing.
ghost use Rattle.std.specs.Prelude.{◌≡◌};

use collation::Job;
use command::Reply;
use job_core::Core;
use lines::{FIRST, LINES, LISTING, SECOND, UNITS};
use listing::{Counted, ListingFault, write_listing};
use pin_board::{Blank, SEATS};
use refusal::Refusal;
use script::write_reply;
use session_acts::{command_of, reply_to};
use shared_engine::{BoardName, Closed, Pass, Session, Shared};
use std::alloc::Global;
use std::marker::Brand;
use std::sync::Wait;

mod lines;

// How many keys a turn of the collector looks at.
const KEYS: usize = 8;

// How many calls of the engine were refused memory, and how many of them were HALTs, which take none.
#[derive(Clone, Copy, Debug)]
struct Tried {
    refused: u64,
    halts: u64,
}

impl Tried {
    fn note(&mut self) {
        self.refused = self.refused.wrapping_add(1);
    }

    fn note_halt(&mut self) {
        self.halts = self.halts.wrapping_add(1);
    }
}

// A session of a job, at the second try where memory is refused.
fn open<B: BoardName, R: Wait>(
    rt: &R,
    alloc: Global,
    engine: &Shared<B>,
    number: u64,
    tried: &mut Tried,
) -> Result<Session<B>, Refusal> {
    let job = Job::new(number)?;
    match engine.open(rt, alloc, job) {
        Ok(session) => Ok(session),
        Err(_) => {
            tried.note();
            engine.open(rt, alloc, job)
        }
    }
}

// The reply to a line in its session.
fn reply_to_line<B: BoardName, R: Wait>(
    rt: &R,
    alloc: Global,
    engine: &Shared<B>,
    session: &mut Session<B>,
    line: &str,
) -> Result<Reply, Refusal> {
    match command_of(alloc, line) {
        Some(command) => Ok(reply_to(rt, engine, session, command)),
        None => Err(Refusal::OutOfMemory),
    }
}

// The same, at the second try where memory is refused.
fn insist<B: BoardName, R: Wait>(
    rt: &R,
    alloc: Global,
    engine: &Shared<B>,
    session: &mut Session<B>,
    line: &str,
    tried: &mut Tried,
) -> Result<Reply, Refusal> {
    match reply_to_line(rt, alloc, engine, session, line)? {
        Reply::Refused(Refusal::OutOfMemory) => {
            tried.note();
            reply_to_line(rt, alloc, engine, session, line)
        }
        reply => Ok(reply),
    }
}

// Whether a reply is written so.
fn is_text(alloc: Global, reply: &Reply, want: &str) -> Result<bool, Refusal> {
    let mut text = Vec::new(alloc);
    write_reply(None, reply, &mut text)?;
    Ok(text.as_slice() == want.as_bytes())
}

// Does a line in the session of its job. Whether the reply is as it should be.
fn is_answered<B: BoardName, R: Wait>(
    rt: &R,
    alloc: Global,
    engine: &Shared<B>,
    session: &mut Session<B>,
    row: &(&'static str, &'static str),
    tried: &mut Tried,
) -> Result<bool, Refusal> {
    let (line, want) = row;
    let reply = insist(rt, alloc, engine, session, line, tried)?;
    let is_right = is_text(alloc, &reply, want);
    drop(reply);
    is_right
}

// Does all lines. The first whose reply is another than it should be.
fn first_other<B: BoardName, R: Wait>(
    rt: &R,
    alloc: Global,
    engine: &Shared<B>,
    first: &mut Session<B>,
    second: &mut Session<B>,
    tried: &mut Tried,
) -> Result<Option<&'static str>, Refusal> {
    for row in &LINES {
        let is_right = if row.0.as_bytes().starts_with(b"1") {
            is_answered(rt, alloc, engine, first, row, tried)?
        } else {
            is_answered(rt, alloc, engine, second, row, tried)?
        };
        if !is_right {
            return Ok(Some(row.0));
        }
    }
    Ok(None)
}

// A turn of the collector, at the second try where memory is refused.
fn collect<B: BoardName, R: Wait>(
    rt: &R,
    engine: &Shared<B>,
    tried: &mut Tried,
) -> Result<(), Refusal> {
    if engine.collect(rt, KEYS).is_err() {
        tried.note();
        let _ = engine.collect(rt, KEYS)?;
    }
    Ok(())
}

// Ends a session. It is noted where that is refused.
fn halt<B: BoardName, R: Wait>(
    rt: &R,
    engine: &Shared<B>,
    session: Session<B>,
    tried: &mut Tried,
) -> Result<Pass<B>, Refusal> {
    match engine.halt(rt, session) {
        Ok(pass) => Ok(pass),
        Err((session, _)) => {
            tried.note_halt();
            match engine.halt(rt, session) {
                Ok(pass) => Ok(pass),
                Err((_, refusal)) => Err(refusal),
            }
        }
    }
}

// Whether a database is listed so.
fn is_listed(alloc: Global, core: &Core, want: &str) -> Result<bool, Refusal> {
    let mut writer = Counted::new(Vec::new(alloc));
    match write_listing(alloc, &core.content(), &mut writer) {
        Ok(()) => Ok(writer.inner().as_slice() == want.as_bytes()),
        Err(ListingFault::Memory) | Err(ListingFault::Write) => Err(Refusal::OutOfMemory),
    }
}

// Ends a session, and keeps its pass.
fn end<B: BoardName, R: Wait>(
    rt: &R,
    engine: &Shared<B>,
    session: Session<B>,
    passes: &mut Vec<Pass<B>>,
    tried: &mut Tried,
) -> Result<(), Refusal> {
    let pass = halt(rt, engine, session, tried)?;
    passes.push(pass)?;
    Ok(())
}

// Does the lines and a turn of the collector. The first line whose reply is another than it should be.
fn use_both<B: BoardName, R: Wait>(
    rt: &R,
    alloc: Global,
    engine: &Shared<B>,
    first: &mut Session<B>,
    second: &mut Session<B>,
    tried: &mut Tried,
) -> Result<Option<&'static str>, Refusal> {
    let other = first_other(rt, alloc, engine, first, second, tried)?;
    collect(rt, engine, tried)?;
    Ok(other)
}

// The same with a second session, which ends then.
fn with_second<B: BoardName, R: Wait>(
    rt: &R,
    alloc: Global,
    engine: &Shared<B>,
    first: &mut Session<B>,
    passes: &mut Vec<Pass<B>>,
    tried: &mut Tried,
) -> Result<Option<&'static str>, Refusal> {
    let mut second = open(rt, alloc, engine, 2, tried)?;
    let other = use_both(rt, alloc, engine, first, &mut second, tried);
    end(rt, engine, second, passes, tried)?;
    other
}

// The same with both sessions.
fn use_sessions<B: BoardName, R: Wait>(
    rt: &R,
    alloc: Global,
    engine: &Shared<B>,
    passes: &mut Vec<Pass<B>>,
    tried: &mut Tried,
) -> Result<Option<&'static str>, Refusal> {
    let mut first = open(rt, alloc, engine, 1, tried)?;
    let other = with_second(rt, alloc, engine, &mut first, passes, tried);
    end(rt, engine, first, passes, tried)?;
    other
}

// Whether a job's receipts have these numbers.
fn has_numbers<B: BoardName>(passes: &[Pass<B>], job: u64, numbers: &[u64]) -> bool {
    passes.iter().any(|pass| pass.job().number() as u64 == job && pass.numbers() == numbers)
}

// What differs in the closed engine, if anything does.
fn closed_difference(alloc: Global, closed: &Closed) -> Result<Option<&'static str>, Refusal> {
    if closed.core.now() != UNITS || closed.sessions != 2 {
        return Ok(Some("units"));
    }
    if is_listed(alloc, &closed.core, LISTING)? {
        Ok(None)
    } else {
        Ok(Some("the listing"))
    }
}

// Runs the two sessions on an engine of their own. What differs from what should be, if anything does.
fn run<B: BoardName, R: Wait>(
    rt: &R,
    alloc: Global,
    blank: Blank,
    tried: &mut Tried,
) -> Result<Option<&'static str>, Refusal>
    requires { (blank.seat.table_id ≡ B.table) × (blank.words.seats ≡ 4096) }
{
    let engine = Shared::<B>::new(alloc, blank);
    let mut passes = Vec::new(alloc);
    let other = use_sessions(rt, alloc, &engine, &mut passes, tried);
    let has_receipts = has_numbers(&passes, 1, &FIRST) && has_numbers(&passes, 2, &SECOND);
    let closed = engine.finish(rt, passes);
    match other {
        Ok(None) if tried.halts > 0 => Ok(Some("a HALT")),
        Ok(None) if has_receipts => closed_difference(alloc, &closed),
        Ok(None) => Ok(Some("receipts")),
        other => other,
    }
}

/// What differs from what the sessions should come to, if anything does.
pub fn difference<R: Wait>(
    rt: &R,
    alloc: Global,
    refused: &mut u64,
) -> Result<Option<&'static str>, Refusal> {
    let blank = Blank::new(alloc, SEATS)?;
    let mut tried = Tried {
        refused: 0,
        halts: 0,
    };
    let what = run::<Brand, _>(rt, alloc, blank, &mut tried)?;
    *refused = refused.saturating_add(tried.refused);
    Ok(what)
}
