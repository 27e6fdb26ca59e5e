//! The lock table against plain counts by name: 26 names of three levels, with the caret and without, and 20 jobs, in
//! transactions and outside. Expected answers are those of docs/RULES.md, "Locks", told by arrays.
use collation::{Job, Name, Ref, Subscripts, Text};
use key_codec::Key;
use lock_name::{LockName, LockNames};
use lock_table::LockTable;
use refusal::Refusal;
use smallvec::SmallVec;
use std::alloc::Global;

const NAMES: usize = 26;

const JOBS: usize = 20;

// ---- names by number: A, A(1) to A(3), A(1,1) to A(3,3); from 13 on with the caret

fn first(name: usize) -> usize {
    match name % 13 {
        0 => 0,
        short if short <= 3 => short,
        long => (long - 4) / 3 + 1,
    }
}

fn second(name: usize) -> usize {
    match name % 13 {
        short if short <= 3 => 0,
        long => (long - 4) % 3 + 1,
    }
}

// Whether the one is the other or an ancestor of it.
fn is_above(a: usize, b: usize) -> bool {
    first(a) == 0 || (first(a) == first(b) && (second(a) == 0 || second(a) == second(b)))
}

fn are_in_conflict(a: usize, b: usize) -> bool {
    (a < 13) == (b < 13) && (is_above(a, b) || is_above(b, a))
}

fn push_subscript(alloc: Global, list: &mut Subscripts, number: usize) -> Result<(), Refusal> {
    if number > 0 {
        let text = Text::from_slice(alloc, &[b'0' + (number % 10) as u8])?;
        list.push(text)?;
    }
    Ok(())
}

fn reference(alloc: Global, name: usize) -> Result<Ref, Refusal> {
    let mut list = SmallVec::new(alloc);
    push_subscript(alloc, &mut list, first(name))?;
    push_subscript(alloc, &mut list, second(name))?;
    match Text::from_slice(alloc, b"A") {
        Ok(text) => Ref::new(Name::new(text)?, list),
        Err(_) => {
            drop(list);
            Err(Refusal::OutOfMemory)
        }
    }
}

fn push_name(alloc: Global, names: &mut Vec<LockName>, name: usize) -> Result<(), Refusal> {
    names.reserve(1)?;
    let reference = reference(alloc, name)?;
    let key = Key::of(alloc, &reference)?;
    names.push_reserved(LockName::new(name >= 13, key));
    Ok(())
}

fn lock_names(alloc: Global, numbers: &[usize]) -> Result<LockNames, Refusal> {
    let mut names = Vec::new(alloc);
    for number in numbers {
        push_name(alloc, &mut names, *number)?;
    }
    Ok(LockNames::new(names))
}

// ---- plain counts

#[derive(Drop)]
struct Plain {
    want: [u32; JOBS * NAMES],
    held: [u32; JOBS * NAMES],
    start: [u32; JOBS * NAMES],
    is_open: [bool; JOBS],
    has_start: [bool; JOBS],
}

fn count(list: &[u32], job: usize, name: usize) -> u32 {
    match list.get(job % JOBS * NAMES + name % NAMES) {
        Some(count) => *count,
        None => 0,
    }
}

fn put(list: &mut [u32], job: usize, name: usize, count: u32) {
    if let Some(place) = list.get_mut(job % JOBS * NAMES + name % NAMES) {
        *place = count;
    }
}

fn is_blocked(plain: &Plain, job: usize, name: usize) -> bool {
    for other in 0..JOBS {
        for held in 0..NAMES {
            if other != job && are_in_conflict(name, held) && count(&plain.held, other, held) > 0 {
                return true;
            }
        }
    }
    false
}

fn are_free(plain: &Plain, job: usize, names: &[usize]) -> bool {
    for name in names {
        if is_blocked(plain, job, *name) {
            return false;
        }
    }
    true
}

// Outside a transaction what is wanted is held; inside what was held stays too, and the start is remembered once.
fn settle(plain: &mut Plain, job: usize, before: &[u32]) {
    let job = job % JOBS;
    let inside = plain.is_open[job];
    for name in 0..NAMES {
        let want = count(&plain.want, job, name);
        let held = count(&plain.held, job, name);
        put(
            &mut plain.held,
            job,
            name,
            if inside { held.max(want) } else { want },
        );
        if inside && !plain.has_start[job] {
            put(&mut plain.start, job, name, count(before, 0, name));
        }
    }
    plain.has_start[job] = inside;
}

fn ends_transaction(plain: &mut Plain, job: usize, goes_back: bool) {
    let job = job % JOBS;
    for name in 0..NAMES {
        if goes_back && plain.has_start[job] {
            let start = count(&plain.start, job, name);
            put(&mut plain.want, job, name, start);
        }
        let want = count(&plain.want, job, name);
        put(&mut plain.held, job, name, want);
    }
    plain.has_start[job] = false;
    plain.is_open[job] = false;
}

fn release(plain: &mut Plain, job: usize) {
    for name in 0..NAMES {
        put(&mut plain.want, job, name, 0);
    }
}

fn wanted(plain: &Plain, job: usize) -> [u32; NAMES] {
    let mut counts = [0; NAMES];
    for name in 0..NAMES {
        counts[name] = count(&plain.want, job, name);
    }
    counts
}

fn add(plain: &mut Plain, job: usize, names: &[usize]) {
    for name in names {
        let more = count(&plain.want, job, *name).saturating_add(1);
        put(&mut plain.want, job, *name, more);
    }
}

// ---- steps on both

// A LOCK that asks for names, on the plain counts; whether they are had.
fn wants(plain: &mut Plain, number: usize, numbers: &[usize], plus: bool) -> bool {
    let before = wanted(plain, number);
    let had = are_free(plain, number, numbers);
    if !plus {
        release(plain, number);
    }
    if had {
        add(plain, number, numbers);
    }
    settle(plain, number, &before);
    had
}

// A LOCK that asks for names; whether both answer alike.
fn asks(
    table: &mut LockTable,
    plain: &mut Plain,
    job: Job,
    number: usize,
    names: &LockNames,
    numbers: &[usize],
    plus: bool,
) -> Result<bool, Refusal> {
    let inside = plain.is_open[number % JOBS];
    let had = wants(plain, number, numbers, plus);
    let answer = if plus {
        table.plus(job, inside, names)
    } else {
        table.lock_all(job, inside, names)
    };
    Ok(answer? == had)
}

fn gives_back(
    table: &mut LockTable,
    plain: &mut Plain,
    job: Job,
    number: usize,
    names: &LockNames,
    numbers: &[usize],
) -> Result<(), Refusal> {
    let inside = plain.is_open[number % JOBS];
    let before = wanted(plain, number);
    for name in numbers {
        let fewer = count(&plain.want, number, *name).saturating_sub(1);
        put(&mut plain.want, number, *name, fewer);
    }
    settle(plain, number, &before);
    table.minus(job, inside, names)
}

fn clears(
    table: &mut LockTable,
    plain: &mut Plain,
    job: Job,
    number: usize,
) -> Result<(), Refusal> {
    let inside = plain.is_open[number % JOBS];
    let before = wanted(plain, number);
    release(plain, number);
    settle(plain, number, &before);
    table.clear(job, inside)
}

fn halts(table: &mut LockTable, plain: &mut Plain, job: Job, number: usize) {
    release(plain, number);
    ends_transaction(plain, number, false);
    table.end_job(job);
}

// One step of a seed; whether both answer alike.
fn is_step_alike(
    alloc: Global,
    table: &mut LockTable,
    plain: &mut Plain,
    seed: u64,
) -> Result<bool, Refusal> {
    let number = (seed / 16 % JOBS as u64) as usize;
    let job = Job::new(number as u64 + 1)?;
    let numbers = [
        (seed / 512 % NAMES as u64) as usize,
        (seed / 16_384 % NAMES as u64) as usize,
    ];
    let len: usize = if seed % 3 == 0 { 2 } else { 1 };
    let asked = &numbers[..len];
    match seed % 16 {
        0 => clears(table, plain, job, number)?,
        1 => halts(table, plain, job, number),
        2 | 3 => plain.is_open[number % JOBS] = true,
        4 => {
            ends_transaction(plain, number, false);
            table.commit_job(job);
        }
        5 => {
            ends_transaction(plain, number, true);
            table.back_job(job);
        }
        6..=9 => {
            let names = lock_names(alloc, asked)?;
            gives_back(table, plain, job, number, &names, asked)?;
        }
        kind => {
            let names = lock_names(alloc, asked)?;
            return asks(table, plain, job, number, &names, asked, kind > 10);
        }
    }
    Ok(true)
}

// The first step at which they differ.
fn first_difference(
    alloc: Global,
    table: &mut LockTable,
    plain: &mut Plain,
    steps: u64,
) -> Result<Option<u64>, Refusal> {
    let mut random: u64 = 1;
    for step in 0..steps {
        random = random
            .wrapping_mul(6_364_136_223_846_793_005)
            .wrapping_add(1_442_695_040_888_963_407);
        if !is_step_alike(alloc, table, plain, random >> 33)? {
            return Ok(Some(step));
        }
    }
    Ok(None)
}

fn difference_of_new_ones(alloc: Global, steps: u64) -> Result<Option<u64>, Refusal> {
    let mut table = LockTable::new(alloc);
    let mut plain = Plain {
        want: [0; JOBS * NAMES],
        held: [0; JOBS * NAMES],
        start: [0; JOBS * NAMES],
        is_open: [false; JOBS],
        has_start: [false; JOBS],
    };
    let difference = first_difference(alloc, &mut table, &mut plain, steps);
    drop(table);
    difference
}

#[test]
fn twenty_thousand_locks_of_twenty_jobs_answer_as_plain_counts(rt: HostRuntime) {
    assert!(rt; difference_of_new_ones(rt.alloc(), 20_000) == Ok(None));
}

// ---- full counts: 13 is ^A, 0 is A without the caret

fn many_names(alloc: Global, name: usize, times: u32) -> Result<LockNames, Refusal> {
    let mut names = Vec::new(alloc);
    for _ in 0..times {
        push_name(alloc, &mut names, name)?;
    }
    Ok(LockNames::new(names))
}

fn takes(
    alloc: Global,
    table: &mut LockTable,
    job: u64,
    numbers: &[usize],
    plus: bool,
) -> Result<bool, Refusal> {
    let names = lock_names(alloc, numbers)?;
    let job = Job::new(job)?;
    if plus {
        table.plus(job, false, &names)
    } else {
        table.lock_all(job, false, &names)
    }
}

fn fills(alloc: Global, table: &mut LockTable) -> Result<bool, Refusal> {
    let names = many_names(alloc, 13, 65_535)?;
    table.plus(Job::new(1)?, false, &names)
}

fn gives_one(alloc: Global, table: &mut LockTable) -> Result<(), Refusal> {
    let names = lock_names(alloc, &[13])?;
    table.minus(Job::new(1)?, false, &names)
}

// Whether a full count refuses one more, alone and in a list of which nothing is taken.
fn is_full_count_told(alloc: Global, table: &mut LockTable) -> Result<bool, Refusal> {
    let filled = fills(alloc, table)?;
    let alone = takes(alloc, table, 1, &[13], true) == Err(Refusal::LockCountFull);
    let listed = takes(alloc, table, 1, &[0, 13], true) == Err(Refusal::LockCountFull);
    let free = takes(alloc, table, 2, &[0], true)?;
    let kept = !takes(alloc, table, 2, &[14], true)?;
    Ok(filled && alone && listed && free && kept)
}

// Whether the count is 1 after a plain LOCK.
fn is_one_after_plain_lock(alloc: Global, table: &mut LockTable) -> Result<bool, Refusal> {
    let plain = takes(alloc, table, 1, &[13], false)?;
    gives_one(alloc, table)?;
    let once = takes(alloc, table, 2, &[14], true)?;
    Ok(plain && once)
}

fn full_count(alloc: Global) -> [Result<bool, Refusal>; 2] {
    let mut table = LockTable::new(alloc);
    let told = is_full_count_told(alloc, &mut table);
    let one = is_one_after_plain_lock(alloc, &mut table);
    drop(table);
    [told, one]
}

#[test]
fn plus_at_a_full_count_is_refused_and_takes_nothing(rt: HostRuntime) {
    assert!(rt; full_count(rt.alloc()) == [Ok(true); 2]);
}
