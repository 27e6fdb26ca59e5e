//! The words of `mjobs`.
ghost use Rattle.std.specs.Prelude.{◌≡◌, ◌<◌, ◌≤◌, ℕ, true, None, is_some, IfOk};

use crate::in_use::{file_conflict, name_conflict};
use crate::words::{
    DROPPED, FileNames, NamePlace, VERSION, checkpoint_word, collect_word, errors_word, file_of,
    file_place, file_word, journal_of, journal_word, load_of, load_word, no_listing_word, save_of,
    save_word, stats_word, texts_of, upkeep_of,
};
use clap::builder::ValueParser;
use clap::error::ErrorKind;
use clap::{Arg, ArgAction, ArgMatches, Command, Error};
use script_run::{Pace, Upkeep};
use std::alloc::Global;
use std::rt::Files;

// The most workers that may be asked for.
const MOST_WORKERS: u64 = 16;

// How many workers there are where none are asked for.
const USUAL_WORKERS: u64 = 2;

// What `--errors` does.
const ERRORS: &str = "Print the number, column and fault of each line{n}that can't be read";

// What is said where the upkeep of a live run is asked for without one.
const LIVE_ALONE: &str =
    "'--collect-every <N>' and '--checkpoint-every <M>' other than 0 are for '--live' alone";

// What is said where the word for workers has another value.
const WORKERS: &str = "'--workers <N>' takes a number from 1 to 16, or auto";

/// How many workers are asked for.
#[derive(Clone, Copy, Debug, PartialEq, Eq)]
pub enum Workers {
    /// So many, 1 to 16.
    Number(u64),
    /// As many as there are processors, and at most 16.
    Processors,
}

impl Workers {
    /// How many there are, where there are so many processors, or their number isn't known: at least one where it isn't
    /// asked for none.
    pub fn count(self, processors: Option<usize>) -> usize
        ensures asked { (n : ℕ) → self ≡ Workers.Number n → result ≡ n }
        ensures some { self ≡ Workers.Processors → 0 < result }
        ensures most { self ≡ Workers.Processors → result ≤ MOST_WORKERS }
    {
        match (self, processors) {
            (Workers::Number(number), _) => number as usize,
            (Workers::Processors, Some(processors)) => processors.min(MOST_WORKERS as usize).max(1),
            (Workers::Processors, None) => USUAL_WORKERS as usize,
        }
    }
}

// What `--help` prints under the options.
const LINES: &str = "Each line is a job, 1 to 4096, a blank, and a command or a function, as
mrun --help names them:

  1 TSTART
  1 SET ^Stock(\"apples\")=3
  1 TCOMMIT
  2 $GET(^Stock(\"apples\"))

Without --live all input is read first. A job's lines are done in order by one
worker, different jobs at the same time. A transaction that has a conflict is
done again by itself, with the same constants, so a script that sends its
commands again is for mrun. A LOCK waits until it has its names, with `:5` for
some 5 seconds at most.

Replies are printed by job, in order of the jobs' first lines, then `--` and the
listing of the database. Where jobs use the same nodes, replies and listing
depend on which job was first.

With --live, or where lines are typed, a line is done as it comes, by one
worker, and its reply is printed at once: programs can talk through one run. A
LOCK then waits with its job until it has its names or its time is over, while
other jobs go on. A TCOMMIT that has a conflict is answered `restart n`, as in
mrun, and its lines have to be sent again. --collect-every and
--checkpoint-every are for such runs, and as in mrun.

At the top of the repository, or of the package, four jobs share a queue:

  ./mjobs --load examples/mjobs/queue.txt --workers 4 examples/mjobs/workers.txt

To keep a database from run to run:

  mjobs --load kept.txt --save kept.txt today.txt

--load starts from a listing instead of an empty database: lines
^Stock(\"apples\")=3, as they are printed or as GT.M and YottaDB write them in
ZWR form. They are read before the first job; if one can't be read, nothing
runs.
--save puts the listing in a file, --journal what was done, in its order: after
mjobs --journal done.txt today.txt, mrun done.txt leaves the same listing.
Each is written to a new file in the same folder, named as it is with .new-1
behind, which takes its place once the run has ended well. If the run ends with
status 2, what the file held stays. Where the file is the script or what is
printed to, by whatever name, nothing runs; nor where both are one file, or the
journal is the listing that is loaded.
--errors prints of each line that can't be read its number, the column of its
fault, the refusal and what was expected there, on standard error; live of each
refused line. --stats prints there at the end what is held, as in mrun.

Exit status: 0, all replies are accepted; 1, a reply is an `error`; 2, input
can't be read, output, the listing or the journal can't be written, memory ran
out, a listing can't be loaded, a report is missing, all jobs wait for names
that others of them hold, at the end with --live, or an option or its value is
wrong.";

/// What the arguments of `mjobs` ask for.
#[derive(Clone, Copy, Debug, PartialEq, Eq)]
pub struct MjobsArgs {
    /// Which of the arguments is the file, or none for standard input.
    pub file: Option<usize>,
    /// Where the name of the listing stands that is loaded first, or none.
    pub load: Option<NamePlace>,
    /// Where the name of the file stands that the listing is saved to, or none.
    pub save: Option<NamePlace>,
    /// Where the name of the file stands that the journal is written to, or none.
    pub journal: Option<NamePlace>,
    /// Whether `--` and the listing are printed.
    pub listed: bool,
    /// Whether each line that can't be read is told on standard error.
    pub errors: bool,
    /// How many workers there are.
    pub workers: Workers,
    /// Whether lines are done as they come.
    pub live: bool,
    /// Whether what the engine holds at the end is told on standard error.
    pub statistics: bool,
    /// When the collector passes over the database, and when a checkpoint is taken, where lines are done as they come.
    pub upkeep: Upkeep,
}

impl MjobsArgs {
    /// The files that they name.
    pub fn names(self) -> FileNames {
        FileNames {
            script: file_place(self.file),
            load: self.load,
            save: self.save,
            journal: self.journal,
        }
    }
}

fn command<'a>(alloc: Global) -> Result<Command<'a>, Error> {
    let workers = Arg::new(alloc, "workers")
        .long("workers")
        .action(ArgAction::Set)
        .value_name("N")
        .value_parser(ValueParser::string())
        .default_value("2")
        .help(
            "How many jobs are done at the same time, 1 to 16;{n}auto is the number of processors",
        );
    let live = Arg::new(alloc, "live")
        .long("live")
        .action(ArgAction::SetTrue)
        .help(
            "Do lines as they come, with one worker, and print{n}each reply at once; so it is where lines are typed",
        );
    let command = Command::new(alloc, "mjobs")
        .version(VERSION)
        .about(
            "Runs the jobs of a script at the same time on M globals, and prints replies by{n}job and a listing",
        )
        .after_help(LINES)
        .arg(file_word(alloc))?
        .arg(load_word(alloc))?
        .arg(save_word(alloc))?
        .arg(journal_word(alloc))?
        .arg(no_listing_word(alloc))?
        .arg(errors_word(alloc, ERRORS))?
        .arg(workers)?
        .arg(live)?
        .arg(stats_word(alloc))?
        .arg(collect_word(alloc))?
        .arg(checkpoint_word(alloc))?;
    Ok(command)
}

// An error of words that are wrong.
fn error_of(alloc: Global, kind: ErrorKind, why: &str) -> Result<Error, Error> {
    let error = command(alloc)?.error(kind, why)?;
    Ok(error)
}

// The workers that a word asks for, or none where it has neither a number from 1 to 16 nor `auto`.
fn workers_in(word: &str) -> Option<Workers> {
    if word == "auto" {
        return Some(Workers::Processors);
    }
    match word.parse::<u64>() {
        Ok(number) => {
            if 1 <= number && number <= MOST_WORKERS {
                Some(Workers::Number(number))
            } else {
                None
            }
        }
        Err(_) => None,
    }
}

// The workers that the words ask for.
fn workers_of(alloc: Global, matches: &ArgMatches<'_>) -> Result<Workers, Error> {
    let asked = match matches.get_str("workers") {
        Some(word) => workers_in(word),
        None => Some(Workers::Number(USUAL_WORKERS)),
    };
    match asked {
        Some(workers) => Ok(workers),
        None => Err(error_of(alloc, ErrorKind::ValueValidation, WORKERS)?),
    }
}

// Whether words ask for the collector or checkpoints after so many lines.
fn is_asked_for(upkeep: Upkeep) -> bool {
    match (upkeep.collector, upkeep.checkpoints) {
        (Pace::Every(_), _) => true,
        (_, Pace::Every(_)) => true,
        _ => false,
    }
}

// Why the words don't go together, if they alone show it.
fn conflict_in(arguments: &[Vec<u8>], args: MjobsArgs) -> Option<&'static str>
    ensures { result ≡ None → is_some args.journal ≡ true → args.upkeep.checkpoints ≡ Pace.Never }
{
    if !args.live && is_asked_for(args.upkeep) {
        return Some(LIVE_ALONE);
    }
    if args.journal.is_some() && args.upkeep.checkpoints != Pace::Never {
        return Some(DROPPED);
    }
    name_conflict(arguments, args.names())
}

// What the arguments ask for. Lines that are typed are done as they come.
fn args_for(alloc: Global, arguments: &[Vec<u8>], typed: bool) -> Result<MjobsArgs, Error>
    ensures { IfOk result (λ args. is_some args.journal ≡ true → args.upkeep.checkpoints ≡ Pace.Never) }
{
    let texts = texts_of(alloc, arguments)?;
    let matches = command(alloc)?.try_get_matches_from(&texts)?;
    let file = file_of(&matches, &texts);
    let journal = journal_of(&matches, &texts);
    let args = MjobsArgs {
        file,
        load: load_of(&matches, &texts),
        save: save_of(&matches, &texts),
        journal,
        listed: !matches.get_flag("no-listing"),
        errors: matches.get_flag("errors"),
        workers: workers_of(alloc, &matches)?,
        live: matches.get_flag("live") || (typed && file.is_none()),
        statistics: matches.get_flag("stats"),
        upkeep: upkeep_of(&matches, journal),
    };
    match conflict_in(arguments, args) {
        Some(why) => Err(error_of(alloc, ErrorKind::ArgumentConflict, why)?),
        None => Ok(args),
    }
}

/// What the arguments of `mjobs` ask for; the first is the program's name. Where a journal is kept no checkpoint is
/// taken, which would cut it. An error's text is for the user: help and the version too.
pub fn mjobs_args_of(alloc: Global, arguments: &[Vec<u8>]) -> Result<MjobsArgs, Error>
    ensures { IfOk result (λ args. is_some args.journal ≡ true → args.upkeep.checkpoints ≡ Pace.Never) }
{
    args_for(alloc, arguments, false)
}

/// What the arguments of `mjobs` ask for, as `mjobs_args_of` answers, but live where standard input is typed and no file
/// is named; or an error where the journal or the listing would take the place of a file that is read under another
/// name, or as standard input, or is printed to; or where the script or the listing that is loaded is printed to.
pub fn mjobs_args_with(
    rt: &(impl Files + AllocGlobal),
    arguments: &[Vec<u8>],
    typed: bool,
) -> Result<MjobsArgs, Error>
    ensures { IfOk result (λ args. is_some args.journal ≡ true → args.upkeep.checkpoints ≡ Pace.Never) }
{
    let args = args_for(rt.alloc(), arguments, typed)?;
    match file_conflict(rt, arguments, args.names()) {
        Some(why) => Err(error_of(rt.alloc(), ErrorKind::ArgumentConflict, why)?),
        None => Ok(args),
    }
}
