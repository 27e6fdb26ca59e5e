//! The worked rows, done by the calls of sessions, with a turn of the collector at the end.
ghost use Rattle.std.specs.Prelude.{◌≡◌};

use collation::Job;
use command::{Command, Reply};
use job_core::Core;
use listing::{Counted, write_listing_after};
use pin_board::{Blank, SEATS};
use script::{Drafts, read_line, write_reply};
use session_acts::reply_to;
use shared_engine::{BoardName, Pass, Session, Shared};
use std::alloc::Global;
use std::marker::Brand;
use std::sync::Wait;
use std::test::*;
use worked_rows::{COMMITS, INSIDE, LEVELS, OUTSIDE, Row};

// Which of the worked rows.
#[derive(Clone, Copy, Debug)]
enum Rows {
    Commits,
    Levels,
    Outside,
    Inside,
}

impl Rows {
    fn all(self) -> &'static [Row] {
        match self {
            Rows::Commits => &COMMITS,
            Rows::Levels => &LEVELS,
            Rows::Outside => &OUTSIDE,
            Rows::Inside => &INSIDE,
        }
    }
}

// Room for the sessions of the jobs 1 to 3.
fn add_rooms<B: BoardName>(sessions: &mut Vec<Option<Session<B>>>) -> bool {
    let mut made = 0u64;
    for _ in 0..4 {
        if sessions.push(None).is_ok() {
            made = made.wrapping_add(1);
        }
    }
    made == 4
}

// Ends the session that is here.
fn halt<B: BoardName, R: Wait>(
    rt: &R,
    engine: &Shared<B>,
    room: &mut Option<Session<B>>,
    passes: &mut Vec<Pass<B>>,
) -> bool {
    match room.take() {
        Some(session) => match engine.halt(rt, session) {
            Ok(pass) => passes.push(pass).is_ok(),
            Err(_) => false,
        },
        None => true,
    }
}

// Does a command in the session that is here.
fn do_here<B: BoardName, R: Wait>(
    rt: &R,
    engine: &Shared<B>,
    room: &mut Option<Session<B>>,
    command: Command,
) -> Option<Reply> {
    match room {
        Some(session) => Some(reply_to(rt, engine, session, command)),
        None => {
            drop(command);
            None
        }
    }
}

// The job's session begins here where it has none.
fn enter<B: BoardName, R: Wait>(
    rt: &R,
    alloc: Global,
    engine: &Shared<B>,
    room: &mut Option<Session<B>>,
    job: Job,
) {
    if room.is_none() {
        *room = engine.open(rt, alloc, job).ok();
    }
}

// Does a job's command.
fn step<B: BoardName, R: Wait>(
    rt: &R,
    alloc: Global,
    engine: &Shared<B>,
    room: &mut Option<Session<B>>,
    passes: &mut Vec<Pass<B>>,
    job: Job,
    command: Command,
) -> Option<Reply> {
    enter(rt, alloc, engine, room, job);
    if !matches!(&command, Command::Halt) {
        return do_here(rt, engine, room, command);
    }
    drop(command);
    if halt(rt, engine, room, passes) {
        Some(Reply::Finished)
    } else {
        None
    }
}

fn write_step<B: BoardName, R: Wait>(
    rt: &R,
    alloc: Global,
    engine: &Shared<B>,
    room: &mut Option<Session<B>>,
    passes: &mut Vec<Pass<B>>,
    job: Job,
    command: Command,
    text: &mut Vec<u8>,
) -> bool {
    match step(rt, alloc, engine, room, passes, job, command) {
        Some(reply) => write_reply(Some(job), &reply, text).is_ok(),
        None => false,
    }
}

// Does a line, and appends the reply.
fn do_line<B: BoardName, R: Wait>(
    rt: &R,
    alloc: Global,
    engine: &Shared<B>,
    sessions: &mut Vec<Option<Session<B>>>,
    passes: &mut Vec<Pass<B>>,
    line: &str,
    text: &mut Vec<u8>,
) -> bool {
    let mut drafts = Drafts::new(alloc);
    match read_line(alloc, line.as_bytes(), &mut drafts) {
        Ok((job, command)) => match sessions.get_mut(job.number() as usize) {
            Some(room) => write_step(rt, alloc, engine, room, passes, job, command, text),
            None => false,
        },
        Err(fault) => write_reply(fault.job, &Reply::Refused(fault.refusal), text).is_ok(),
    }
}

// Does all lines. Whether there was memory for each.
fn do_lines<B: BoardName, R: Wait>(
    rt: &R,
    alloc: Global,
    engine: &Shared<B>,
    sessions: &mut Vec<Option<Session<B>>>,
    passes: &mut Vec<Pass<B>>,
    script: &str,
    text: &mut Vec<u8>,
) -> bool {
    for line in script.lines() {
        if !do_line(rt, alloc, engine, sessions, passes, line, text) {
            return false;
        }
    }
    true
}

// Ends all sessions.
fn end_all<B: BoardName, R: Wait>(
    rt: &R,
    engine: &Shared<B>,
    sessions: &mut Vec<Option<Session<B>>>,
    passes: &mut Vec<Pass<B>>,
) -> bool {
    let mut ended = 0usize;
    for room in sessions.iter_mut() {
        if halt(rt, engine, room, passes) {
            ended = ended.wrapping_add(1);
        }
    }
    ended == 4
}

// Does a script, ends its jobs, and lets the collector go round.
fn do_all<B: BoardName, R: Wait>(
    rt: &R,
    alloc: Global,
    engine: &Shared<B>,
    passes: &mut Vec<Pass<B>>,
    script: &str,
    text: &mut Vec<u8>,
) -> bool {
    let mut sessions = Vec::new(alloc);
    add_rooms(&mut sessions)
        && do_lines(rt, alloc, engine, &mut sessions, passes, script, text)
        && end_all(rt, engine, &mut sessions, passes)
        && engine.collect(rt, 1_000).is_ok()
        && text.extend_from_slice(b"--\n").is_ok()
}

// Whether the database is listed so behind the text.
fn is_listed(alloc: Global, core: &Core, text: &mut Vec<u8>, output: &str) -> bool {
    let mut writer = Counted::new(Vec::new(alloc));
    let is_ok = write_listing_after(&core.content(), text, &mut writer).is_ok();
    is_ok && writer.inner().as_slice() == output.as_bytes()
}

// Whether a script writes what it should, as `mrun` does.
fn writes<B: BoardName, R: Wait>(rt: &R, alloc: Global, blank: Blank, rows: Rows, i: usize) -> bool
    requires { (blank.seat.table_id ≡ B.table) × (blank.words.seats ≡ 4096) }
{
    let Some((script, output)) = rows.all().get(i) else {
        return false;
    };
    let engine = Shared::<B>::new(alloc, blank);
    let mut passes = Vec::new(alloc);
    let mut text = Vec::new(alloc);
    let is_done = do_all(rt, alloc, &engine, &mut passes, script, &mut text);
    let closed = engine.finish(rt, passes);
    is_done && is_listed(alloc, &closed.core, &mut text, output)
}

// Whether a script writes what it should, on a board of its own.
fn is_right<R: Wait>(rt: &R, alloc: Global, rows: Rows, i: usize) -> Result<bool, Fail> {
    let blank = Blank::new(alloc, SEATS)?;
    let is_right = writes::<Brand, _>(rt, alloc, blank, rows, i);
    Ok(is_right)
}

// The number of the first script that writes something else than its output; or none.
fn first_other<R: Wait>(rt: &R, alloc: Global, rows: Rows) -> Result<Option<usize>, Fail> {
    for i in 0..rows.all().len() {
        if !is_right(rt, alloc, rows, i)? {
            return Ok(Some(i));
        }
    }
    Ok(None)
}

#[test]
fn transactions_commit_and_begin_anew(rt: HostRuntime) -> Result<(), Fail> {
    assert_eq!(rt; first_other(&rt, rt.alloc(), Rows::Commits)?, None);
    Ok(())
}

#[test]
fn levels_go_up_and_down(rt: HostRuntime) -> Result<(), Fail> {
    assert_eq!(rt; first_other(&rt, rt.alloc(), Rows::Levels)?, None);
    Ok(())
}

#[test]
fn locks_are_had_or_not(rt: HostRuntime) -> Result<(), Fail> {
    assert_eq!(rt; first_other(&rt, rt.alloc(), Rows::Outside)?, None);
    assert_eq!(rt; first_other(&rt, rt.alloc(), Rows::Inside)?, None);
    Ok(())
}
