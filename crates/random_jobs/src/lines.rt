//! Random lines of jobs.
use std::alloc::{AllocError, Global};

/// How many jobs there are, and how many lines each has.
#[derive(Clone, Copy, Debug)]
pub struct Size {
    pub jobs: u64,
    pub lines: u64,
}

/// Whether jobs meet.
#[derive(Clone, Copy, PartialEq, Eq)]
pub enum Names {
    /// All jobs have the same globals and lock names.
    Shared,
    /// Each job has its own.
    Own,
}

// The commands, by kinds: n stands for a name, i for a subscript, v for a digit; nB is the next name, which n begins.
// Each LOCK that asks for names has the timeout 0, which is one try: jobs that wait for each other's names wait for
// ever.
const WRITES: [&str; 8] = [
    "SET ^n(i)=1vv",
    "SET ^n(i)=1vv",
    "SET ^n(i,i)=1vv",
    "SET ^n(i,i)=\"a text of more bytes: 1vv\"",
    "KILL ^n(i)",
    "KILL ^n",
    "MERGE ^n(i)=^n(i)",
    "MERGE ^nB(i)=^n(i)",
];

const LOOKS: [&str; 19] = [
    "$GET(^n(i))",
    "$GET(^n(i))",
    "$GET(^n(i,i),1vv)",
    "$DATA(^n)",
    "$DATA(^n(i))",
    "$ORDER(^n(\"\"))",
    "$ORDER(^n(i))",
    "$ORDER(^n(i,\"\"))",
    "$ORDER(^n(\"\"),-1)",
    "$ORDER(^n(i),-1)",
    "$ORDER(^n(i,i),-1)",
    "$ORDER(^n(i,\"\"),-1)",
    "$QUERY(^n)",
    "$QUERY(^n(i))",
    "$QUERY(^n(i,\"\"))",
    "$QUERY(^n(i),-1)",
    "$QUERY(^n(i,i),-1)",
    "$QUERY(^n(i,\"\"),-1)",
    "$QUERY(^nB(i),-1)",
];

const LOCKS: [&str; 10] = [
    "LOCK +^n:0",
    "LOCK +^n(i):0",
    "LOCK +n(i,i):0",
    "LOCK +(^n(i),^n(i,i)):0",
    "LOCK ^n(i):0",
    "LOCK (^n(i,i),n(i)):0",
    "LOCK -^n",
    "LOCK -^n(i)",
    "LOCK -(^n(i),n(i,i))",
    "LOCK",
];

const STEPS: [&str; 11] = [
    "TSTART",
    "TSTART",
    "TSTART",
    "TCOMMIT",
    "TCOMMIT",
    "TCOMMIT",
    "TROLLBACK",
    "TRESTART",
    "$TLEVEL",
    "$TRESTART",
    "HALT",
];

const SUBSCRIPTS: [&str; 4] = ["-1.5", "0", "10", "\"x\""];

// Numbers that look random: the same for the same seed.
#[derive(Clone, Copy, Debug)]
struct Numbers {
    state: u64,
}

impl Numbers {
    fn new(seed: u64) -> Numbers {
        Numbers {
            state: seed.wrapping_mul(0x9E37_79B9_7F4A_7C15),
        }
    }

    // A number below the count, which is not 0.
    fn below(&mut self, count: u64) -> u64 {
        self.state = self
            .state
            .wrapping_mul(6_364_136_223_846_793_005)
            .wrapping_add(1_442_695_040_888_963_407);
        let high = self.state >> 33;
        if count == 0 { 0 } else { high % count }
    }

    fn digit(&mut self) -> u8 {
        match b"0123456789".get(self.below(10) as usize) {
            Some(digit) => *digit,
            None => b'0',
        }
    }

    fn one_of(&mut self, texts: &[&'static str]) -> &'static str {
        match texts.get(self.below(texts.len() as u64) as usize) {
            Some(text) => *text,
            None => "",
        }
    }

    fn command(&mut self) -> &'static str {
        match self.below(8) {
            0 | 1 => self.one_of(&WRITES),
            2 | 3 => self.one_of(&LOOKS),
            4 | 5 => self.one_of(&LOCKS),
            _ => self.one_of(&STEPS),
        }
    }
}

// The name of a job's global, without its caret.
fn name_of(alloc: Global, job: u64, names: Names) -> Result<String, AllocError> {
    match names {
        Names::Shared => format!(in alloc; "A"),
        Names::Own => format!(in alloc; "J{job}"),
    }
}

// Puts a command at the end, of this name and with random subscripts and digits.
fn push_command(
    numbers: &mut Numbers,
    name: &str,
    command: &str,
    out: &mut Vec<u8>,
) -> Result<(), AllocError> {
    for byte in command.as_bytes() {
        match *byte {
            b'n' => out.extend_from_slice(name.as_bytes())?,
            b'i' => out.extend_from_slice(numbers.one_of(&SUBSCRIPTS).as_bytes())?,
            b'v' => out.push(numbers.digit())?,
            other => out.push(other)?,
        }
    }
    Ok(())
}

// Puts a job's next line at the end.
fn push_line(
    alloc: Global,
    numbers: &mut Numbers,
    job: u64,
    names: Names,
    out: &mut Vec<u8>,
) -> Result<(), AllocError> {
    let front = format!(in alloc; "{job} ")?;
    out.extend_from_slice(front.as_bytes())?;
    let name = name_of(alloc, job, names)?;
    let command = numbers.command();
    push_command(numbers, name.as_str(), command, out)?;
    out.push(b'\n')?;
    Ok(())
}

/// A script of so many jobs, with so many lines each, line by line.
pub fn push_script(
    alloc: Global,
    seed: u64,
    names: Names,
    size: Size,
    out: &mut Vec<u8>,
) -> Result<(), AllocError> {
    let mut numbers = Numbers::new(seed);
    for _ in 0..size.lines {
        for job in 1..=size.jobs {
            push_line(alloc, &mut numbers, job, names, out)?;
        }
    }
    Ok(())
}
