//! Lines under one hold of the lock: each kind of hold.
ghost use Rattle.std.specs.Prelude.{◌≡◌, ◌≤◌, ◌+◌, [], OnSome};

use command::{Answer, Command, DataCommand, Look};
use pin_board::{Blank, SEATS};
use refusal::Refusal;
use session_acts::{command_of, is_replied, opened};
use shared_engine::{BoardName, Hold, Session, Shared, Told, Turn};
use std::alloc::Global;
use std::marker::Brand;
use std::sync::Wait;
use std::test::*;

/// One line more: a data command, or one that is refused.
pub(crate) fn push_line(alloc: Global, hold: &mut Hold, line: &str) -> Option<()>
    requires { 1 ≤ hold.old.room }
    ensures room { OnSome result (hold.new.room + 1 ≡ hold.old.room) }
    ensures served { hold.new.served ≡ hold.old.served }
{
    match command_of(alloc, line)? {
        Command::Access(DataCommand::Set(key, text)) => hold.push_set(key, text),
        Command::Access(DataCommand::Look(Look::Get(key, None))) => hold.push_get(key),
        Command::Access(command) => hold.push_other(command).ok()?,
        command => {
            drop(command);
            hold.push_refused(Refusal::NoTransaction);
        }
    }
    Some(())
}

// Four lines.
fn gather(alloc: Global, hold: &mut Hold, lines: &[&str; 4]) -> Option<()>
    ensures { OnSome result (hold.new.served ≡ []) }
{
    hold.begin(alloc, 4).ok()?;
    push_line(alloc, hold, lines[0])?;
    push_line(alloc, hold, lines[1])?;
    push_line(alloc, hold, lines[2])?;
    push_line(alloc, hold, lines[3])
}

/// Whether a line was told so.
pub(crate) fn is_told(told: Option<Told<'_>>, want: &str) -> bool {
    match told {
        Some(Told::Done) => want == "ok",
        Some(Told::Value(value)) => value == want.as_bytes(),
        Some(Told::Answer(Answer::Number(number))) => *number == 1 && want == "1",
        Some(Told::Answer(_)) => false,
        Some(Told::Refused(_)) => want == "refused",
        None => false,
    }
}

// Whether the lines were told so; of one that is refused before it is "refused".
fn are_told(hold: &Hold, wants: &[&str; 4]) -> bool {
    let mut served = hold.served();
    let mut good = 0usize;
    for (place, want) in hold.places().iter().zip(wants) {
        let is_right = match place {
            Some(_) => *want == "refused line",
            None => is_told(served.next(), want),
        };
        good = good.wrapping_add(is_right as usize);
    }
    good == 4 && served.next().is_none()
}

fn lone<B: BoardName, R: Wait>(
    rt: &R,
    alloc: Global,
    engine: &Shared<B>,
    session: &mut Session<B>,
    hold: &mut Hold,
) -> Option<bool> {
    gather(
        alloc,
        hold,
        &["1 SET ^X=3", "1 TCOMMIT", "1 $GET(^X)", "1 $DATA(^X)"],
    )?;
    if session.tlevel() != 0 {
        return None;
    }
    engine.hold_lone(rt, session, hold, &mut Turn::NotDue);
    Some(are_told(hold, &["ok", "refused line", "3", "1"]))
}

fn inside<B: BoardName, R: Wait>(
    rt: &R,
    alloc: Global,
    engine: &Shared<B>,
    session: &mut Session<B>,
    hold: &mut Hold,
) -> Option<bool> {
    gather(
        alloc,
        hold,
        &["1 SET ^Y=45", "1 $GET(^X)", "1 $GET(^Y)", "1 $GET(^Z)"],
    )?;
    if session.tlevel() == 0 {
        return None;
    }
    engine.hold_read(rt, session, hold);
    Some(are_told(hold, &["ok", "3", "45", ""]))
}

// A hold outside a transaction, and one in it, while another job sets what it reads.
fn both_kinds<B: BoardName, R: Wait>(rt: &R, alloc: Global, blank: Blank) -> Option<(bool, bool)>
    requires { (blank.seat.table_id ≡ B.table) × (blank.words.seats ≡ 4096) }
{
    let engine = Shared::<B>::new(alloc, blank);
    let mut mine = opened(rt, alloc, &engine, 1)?;
    let mut other = opened(rt, alloc, &engine, 2)?;
    let mut hold = Hold::new(alloc);
    let first = lone(rt, alloc, &engine, &mut mine, &mut hold)?;
    let begun = is_replied(rt, alloc, &engine, &mut mine, "1 TSTART", "0 level 1\n")
        && is_replied(rt, alloc, &engine, &mut other, "2 SET ^X=4", "0 ok\n");
    let second = inside(rt, alloc, &engine, &mut mine, &mut hold)?;
    Some((first, begun && second))
}

#[test]
fn holds_tell_each_line(rt: HostRuntime) -> Result<(), Fail> {
    let blank = Blank::new(rt.alloc(), SEATS)?;
    let told = both_kinds::<Brand, _>(&rt, rt.alloc(), blank);
    assert_eq!(rt; told, Some((true, true)));
    Ok(())
}
