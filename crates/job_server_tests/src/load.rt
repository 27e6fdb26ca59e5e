//! Many blocks on few nodes: 8 jobs on 8 workers, whose journal a plain map replays.
use crate::gates::Yielding;
use collation::Text;
use command::{Answer, DataCommand, Extent, Look};
use job_core::Core;
use job_scripts::scripts_of;
use job_server::{Served, serve};
use journal::{Exchange, Journal, Unit};
use key_codec::Key;
use listing::{Counted, ListingFault, write_listing};
use loading::NoLog;
use std::alloc::{AllocError, Global};
use std::collections::BTreeMap;
use std::sync::Wait;
use std::test::Fail;
use std::thread::Threads;

const JOBS: u64 = 8;

const BLOCKS: u64 = 100;

fn push_block(alloc: Global, text: &mut Vec<u8>, job: u64) -> Result<(), AllocError> {
    let block = format!(in alloc;
        "{job} TSTART\n{job} $GET(^X)\n{job} SET ^X={job}\n{job} KILL ^Y\n{job} TCOMMIT\n"
    )?;
    text.extend_from_slice(block.as_bytes())
}

// The blocks of all jobs, block by block.
fn script(alloc: Global) -> Result<Vec<u8>, AllocError> {
    let mut text = Vec::new(alloc);
    for _ in 0..BLOCKS {
        for job in 1..=JOBS {
            push_block(alloc, &mut text, job)?;
        }
    }
    Ok(text)
}

// A plain map from the bytes of keys to values.
type Plain = BTreeMap<Vec<u8>, Vec<u8>>;

// The value of a key in the plain map, or the empty string.
fn value_of<'a>(map: &'a Plain, key: &Key) -> &'a [u8] {
    match map.get(key.as_slice()) {
        Some(value) => value.as_slice(),
        None => b"",
    }
}

fn is_value(answer: &Answer, want: &[u8]) -> bool {
    match answer {
        Answer::Value(value) => value.as_slice() == want,
        _ => false,
    }
}

fn put(alloc: Global, map: &mut Plain, key: &[u8], value: &[u8]) -> Result<(), AllocError> {
    let key = Vec::from_slice(alloc, key)?;
    let value = Vec::from_slice(alloc, value)?;
    map.insert(key, value)?;
    Ok(())
}

// Does an exchange of the load on the plain map. Whether its answer is right there.
fn replays(alloc: Global, map: &mut Plain, exchange: &Exchange) -> Result<bool, AllocError> {
    match &exchange.command {
        DataCommand::Set(key, value) => {
            put(alloc, map, key.as_slice(), value.as_slice())?;
            Ok(exchange.answer == Answer::Done)
        }
        DataCommand::Kill(key, Extent::All) => {
            map.remove(key.as_slice());
            Ok(exchange.answer == Answer::Done)
        }
        DataCommand::Look(Look::Get(key, None)) => {
            Ok(is_value(&exchange.answer, value_of(map, key)))
        }
        _ => Ok(false),
    }
}

// What a journal holds: whole transactions, ends of sessions, others, and answers that are wrong in the plain map.
#[derive(Clone, Copy, Debug, PartialEq, Eq)]
struct Held {
    whole: [u64; JOBS as usize],
    ends: u64,
    others: u64,
    wrong: u64,
}

fn note_whole(
    alloc: Global,
    held: &mut Held,
    map: &mut Plain,
    exchanges: &[Exchange],
) -> Result<(), AllocError> {
    for exchange in exchanges {
        if !replays(alloc, map, exchange)? {
            held.wrong = held.wrong.saturating_add(1);
        }
    }
    Ok(())
}

// Replays a unit.
fn note(alloc: Global, held: &mut Held, map: &mut Plain, unit: &Unit) -> Result<(), AllocError> {
    match unit {
        Unit::Whole(job, exchanges) => {
            let at = job.number() as usize % held.whole.len();
            held.whole[at] = held.whole[at].saturating_add(1);
            note_whole(alloc, held, map, exchanges.as_slice())?;
        }
        Unit::End(_) => held.ends = held.ends.saturating_add(1),
        _ => held.others = held.others.saturating_add(1),
    }
    Ok(())
}

// The units of a journal, replayed.
fn held_by(alloc: Global, journal: &Journal, map: &mut Plain) -> Result<Held, AllocError> {
    let mut held = Held {
        whole: [0; JOBS as usize],
        ends: 0,
        others: 0,
        wrong: 0,
    };
    for unit in journal.units() {
        let unit = unit?;
        let noted = note(alloc, &mut held, map, &unit);
        drop(unit);
        noted?;
    }
    Ok(held)
}

fn served<R: Threads + Wait + Sync>(rt: &R, alloc: Global) -> Result<Served, Fail> {
    let text = script(alloc)?;
    let scripts = scripts_of(alloc, &text)?;
    let workers = JOBS as usize;
    let served = serve(rt, alloc, b"", &mut NoLog, scripts, workers, &Yielding)?;
    Ok(served)
}

// The listing of the plain map with one node at most.
fn listing_of(alloc: Global, map: &Plain) -> Result<Vec<u8>, AllocError> {
    let mut text = Vec::new(alloc);
    for (key, value) in map {
        text.push(b'^')?;
        text.extend_from_slice(key.strip_suffix(&[0]).unwrap_or(key))?;
        text.push(b'=')?;
        text.extend_from_slice(value)?;
        text.push(b'\n')?;
    }
    Ok(text)
}

// Whether the core's listing is this.
fn is_listed(alloc: Global, core: &Core, want: &[u8]) -> Result<bool, ListingFault> {
    let mut writer = Counted::new(Vec::new(alloc));
    write_listing(alloc, &core.content(), &mut writer)?;
    Ok(writer.inner().as_slice() == want)
}

fn is_listed_as_the_map(alloc: Global, core: &Core, map: &Plain) -> Result<bool, Fail> {
    let listing = listing_of(alloc, map)?;
    Ok(is_listed(alloc, core, &listing)?)
}

// Whether the journal holds all blocks with right answers, and the map is left.
fn is_plain_story(alloc: Global, core: &Core) -> Result<bool, Fail> {
    let want = Held {
        whole: [BLOCKS; JOBS as usize],
        ends: JOBS,
        others: 0,
        wrong: 0,
    };
    let mut map = BTreeMap::new(alloc);
    Ok(
        held_by(alloc, core.journal(), &mut map)? == want
            && is_listed_as_the_map(alloc, core, &map)?,
    )
}

// How many replies there are, whether one is a refusal, and how many sessions there were.
fn told(served: &Served) -> (usize, bool, u64) {
    let mut replies = 0usize;
    let mut refused = false;
    for report in &served.reports {
        replies = report.count().saturating_add(replies);
        refused = refused || report.refused();
    }
    (replies, refused, served.closed.sessions)
}

#[test]
fn a_journal_of_many_blocks_is_a_plain_map_s_story(rt: HostRuntime) -> Result<(), Fail> {
    let served = served(&rt, rt.alloc())?;
    let is_plain = is_plain_story(rt.alloc(), &served.closed.core);
    drop(served);
    assert!(rt; is_plain?);
    Ok(())
}

#[test]
fn each_line_of_many_blocks_has_its_reply(rt: HostRuntime) -> Result<(), Fail> {
    let served = served(&rt, rt.alloc())?;
    let found = told(&served);
    drop(served);
    assert_eq!(rt; found, (4000, false, JOBS));
    Ok(())
}
