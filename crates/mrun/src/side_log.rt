//! What is told beside a script's output, on standard error.
use crate::PROGRAM;
use crate::look::print_look;
use job_core::JobCore;
use program_front::{
    Drafts, Keeping, MrunArgs, Statistics, Ticker, print_greeting, print_mark, print_refused,
    print_statistics,
};
use refusal::Refusal;
use script_run::RunLog;
use std::io::Write;
use std::rt::{Clock, Files};

/// How refused lines are told on standard error.
#[derive(Clone, Copy, Debug, PartialEq, Eq)]
pub enum Telling {
    /// Not at all.
    Nothing,
    /// By the line's number, the column, the refusal and what was expected there.
    ByNumber,
    /// By a mark under the line, which has just been typed, and what was expected there.
    UnderLine,
}

// How refused lines of standard input are told. Where they are typed, by a mark under each.
fn greeted(rt: &impl Eprint, args: MrunArgs, typed: bool) -> Telling {
    if typed {
        print_greeting(rt, PROGRAM, args.listed);
    }
    match (args.errors, typed) {
        (true, _) => Telling::ByNumber,
        (false, true) => Telling::UnderLine,
        (false, false) => Telling::Nothing,
    }
}

/// Where a script comes from.
#[derive(Clone, Copy, Debug, PartialEq, Eq)]
pub struct Source<'a> {
    /// Whether it is typed.
    pub typed: bool,
    /// The name of its file.
    pub name: &'a str,
    /// Whether it is told how far it is.
    pub tells: bool,
}

/// Tells on standard error of refused lines, of what stands there where Enter alone is typed, of progress, and at the
/// end of what the engine holds, and writes what is kept then, if the run has gone well. What can't be printed there is
/// left out; what was written can be taken.
pub struct SideLog<'a, P, F> {
    rt: &'a P,
    telling: Telling,
    typed: bool,
    last: Vec<u8>,
    ticker: Ticker<'a, P>,
    statistics: bool,
    keeping: Option<Keeping<'a, F>>,
    kept: Option<Result<Drafts<'a>, u8>>,
}

impl<'a, P: Eprint + AllocGlobal + Clock, F: Write + Drop> SideLog<'a, P, F> {
    /// Of a script that begins now. Where it is typed, how that is done is printed.
    pub fn new(
        rt: &'a P,
        args: MrunArgs,
        source: Source<'a>,
        keeping: Keeping<'a, F>,
    ) -> SideLog<'a, P, F> {
        SideLog {
            rt,
            telling: greeted(rt, args, source.typed),
            typed: source.typed,
            last: Vec::new(rt.alloc()),
            ticker: Ticker::new(rt, PROGRAM, source.name, source.tells),
            statistics: args.statistics,
            keeping: Some(keeping),
            kept: None,
        }
    }

    /// How refused lines are told.
    pub fn telling(&self) -> Telling {
        self.telling
    }

    /// What was written at the end, or the exit status where it couldn't be; none where no end that went well was told of.
    pub fn take_kept(&mut self) -> Option<Result<Drafts<'a>, u8>> {
        self.kept.take()
    }
}

impl<'a, P, F: Drop> Drop for SideLog<'a, P, F> {
    fn drop(self) {
        let SideLog {
            rt: _,
            telling: _,
            typed: _,
            last: _,
            ticker: _,
            statistics: _,
            keeping,
            kept,
        } = self;
        drop(keeping);
        drop(kept);
    }
}

// Keeps a typed line, or none where memory is refused.
fn keep_line(last: &mut Vec<u8>, line: &[u8]) {
    last.clear();
    if last.extend_from_slice(line).is_err() {
        last.clear();
    }
}

impl<'a, P: Files + Eprint + AllocGlobal + Clock, F: Write + Drop> RunLog for SideLog<'a, P, F> {
    fn refused(&mut self, number: u64, line: &[u8], refusal: Refusal) {
        match self.telling {
            Telling::Nothing => {}
            Telling::ByNumber => print_refused(self.rt, PROGRAM, number, line, refusal),
            Telling::UnderLine => print_mark(self.rt, line, refusal),
        }
    }

    fn done(&mut self, number: u64, line: &[u8]) -> bool {
        self.ticker.tick(number);
        if self.typed && !line.is_empty() {
            keep_line(&mut self.last, line);
        }
        self.typed && line.is_empty()
    }

    fn shown(&mut self, core: &JobCore) {
        print_look(self.rt, PROGRAM, core, &self.last);
    }

    fn ended(&mut self, core: &JobCore, is_whole: bool) {
        self.ticker.clear();
        if self.statistics {
            let held = Statistics::of(
                &core.content(),
                core.versions(),
                core.journal(),
                core.base().number(),
            );
            print_statistics(self.rt, PROGRAM, &held);
        }
        let Some(keeping) = self.keeping.take() else {
            return;
        };
        if is_whole {
            let written = keeping.write(self.rt, PROGRAM, core.journal(), &core.content());
            self.kept = Some(written);
        }
    }
}
