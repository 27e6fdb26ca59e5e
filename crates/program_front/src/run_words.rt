//! The words of `mrun`.
ghost use Rattle.std.specs.Prelude.{◌≡◌, true, None, is_some, IfOk};

use crate::in_use::{file_conflict, name_conflict};
use crate::words::{
    DROPPED, FileNames, NamePlace, VERSION, checkpoint_word, collect_word, errors_word, file_of,
    file_place, file_word, journal_of, journal_word, load_of, load_word, no_listing_word, save_of,
    save_word, stats_word, texts_of, upkeep_of,
};
use clap::error::ErrorKind;
use clap::{ArgMatches, Command, Error};
use script_run::{Pace, Upkeep};
use std::alloc::Global;
use std::rt::Files;

// What `--errors` does.
const ERRORS: &str = "Print each refused line's number, column and fault";

// What `--help` prints under the options.
const LINES: &str = "Each line is a job, 1 to 4096, a blank, and SET, KILL, KVALUE, KSUBSCRIPTS,
MERGE, LOCK, TSTART, TCOMMIT, TROLLBACK, TRESTART or HALT, or a function: $DATA,
$GET, $INCREMENT, $ORDER, $QUERY, $TLEVEL or $TRESTART:

  1 SET ^Fruit(\"apple\",\"price\")=1.2
  1 $GET(^Fruit(\"apple\",\"price\"))
  2 $ORDER(^Fruit(\"\"))

A reply is printed for each line that isn't empty: its job, and `ok`, a value
or `error` with a number and a name. At the end of input follow `--` and the
listing of the database, which starts empty and is kept in memory.

Lines can be typed: each gets its reply at once. Enter alone shows what is
committed at and below the reference that the line before names, or, where it
names none or is refused, what comes first: 100 nodes at most. Ctrl-D on an
empty line ends the input.

To keep a database from run to run:

  mrun --load kept.txt --save kept.txt today.txt

--load starts from a listing instead: lines ^Fruit(\"apple\",\"price\")=1.2, as
they are printed or as GT.M and YottaDB write them in ZWR form. If a line of it
can't be read, nothing runs.
--save puts the listing in a file, --journal what was done: after
mrun --journal done.txt script.txt, mrun done.txt leaves the same listing.
Each is written to a new file in the same folder, named as it is with .new-1
behind, which takes its place once the run has ended well. If the run ends with
status 2, what the file held stays. Where the file is the script or what is
printed to, by whatever name, nothing runs; nor where both are one file, or the
journal is the listing that is loaded.

--errors prints a refused line's number, the column of its fault, the refusal
and what was expected there, on standard error.
Old versions of values that no transaction can see any more are dropped, and
while no transaction is open what the journal keeps, each by itself where it
costs little. --collect-every and --checkpoint-every say when instead; 0 keeps
all, and so does --journal of what it keeps. No reply depends on either.
--stats prints at the end, on standard error, how much is held: nodes, the bytes
of their keys and values, versions, and the units of the journal, how many of
them were dropped and the bytes that the others take.

Exit status: 0, all replies are accepted; 1, a reply is an `error`; 2, input
can't be read, output, the listing or the journal can't be written, memory ran
out, a listing can't be loaded, or an option or its value is wrong.";

/// What the arguments of `mrun` ask for.
#[derive(Clone, Copy, Debug, PartialEq, Eq)]
pub struct MrunArgs {
    /// Which of the arguments is the file, or none for standard input.
    pub file: Option<usize>,
    /// Where the name of the listing stands that is loaded first, or none.
    pub load: Option<NamePlace>,
    /// Where the name of the file stands that the listing is saved to, or none.
    pub save: Option<NamePlace>,
    /// Where the name of the file stands that the journal is written to, or none.
    pub journal: Option<NamePlace>,
    /// Whether `--` and the listing are printed.
    pub listed: bool,
    /// Whether each refused line is told on standard error.
    pub errors: bool,
    /// Whether what the engine holds at the end is told there.
    pub statistics: bool,
    /// When the collector passes over the database, and when a checkpoint is taken.
    pub upkeep: Upkeep,
}

impl MrunArgs {
    /// The files that they name.
    pub fn names(self) -> FileNames {
        FileNames {
            script: file_place(self.file),
            load: self.load,
            save: self.save,
            journal: self.journal,
        }
    }
}

fn command<'a>(alloc: Global) -> Result<Command<'a>, Error> {
    let command = Command::new(alloc, "mrun")
        .version(VERSION)
        .about(
            "Runs a script of numbered jobs' commands on M globals, and prints replies and{n}a listing",
        )
        .after_help(LINES)
        .arg(file_word(alloc))?
        .arg(load_word(alloc))?
        .arg(save_word(alloc))?
        .arg(journal_word(alloc))?
        .arg(no_listing_word(alloc))?
        .arg(errors_word(alloc, ERRORS))?
        .arg(stats_word(alloc))?
        .arg(collect_word(alloc))?
        .arg(checkpoint_word(alloc))?;
    Ok(command)
}

// An error of words that don't go together.
fn conflict(alloc: Global, why: &str) -> Result<Error, Error> {
    let error = command(alloc)?.error(ErrorKind::ArgumentConflict, why)?;
    Ok(error)
}

// Why the words for files don't go with the others, if their names alone show it.
fn conflict_in(arguments: &[Vec<u8>], args: MrunArgs) -> Option<&'static str>
    ensures { result ≡ None → is_some args.journal ≡ true → args.upkeep.checkpoints ≡ Pace.Never }
{
    if args.journal.is_some() && args.upkeep.checkpoints != Pace::Never {
        return Some(DROPPED);
    }
    name_conflict(arguments, args.names())
}

// What the matches ask for.
fn args_in(matches: &ArgMatches<'_>, texts: &[String]) -> MrunArgs {
    let journal = journal_of(matches, texts);
    MrunArgs {
        file: file_of(matches, texts),
        load: load_of(matches, texts),
        save: save_of(matches, texts),
        journal,
        listed: !matches.get_flag("no-listing"),
        errors: matches.get_flag("errors"),
        statistics: matches.get_flag("stats"),
        upkeep: upkeep_of(matches, journal),
    }
}

/// What the arguments of `mrun` ask for; the first is the program's name. Where a journal is kept no checkpoint is taken,
/// which would cut it. An error's text is for the user: help and the version too.
pub fn mrun_args_of(alloc: Global, arguments: &[Vec<u8>]) -> Result<MrunArgs, Error>
    ensures { IfOk result (λ args. is_some args.journal ≡ true → args.upkeep.checkpoints ≡ Pace.Never) }
{
    let texts = texts_of(alloc, arguments)?;
    let matches = command(alloc)?.try_get_matches_from(&texts)?;
    let args = args_in(&matches, &texts);
    match conflict_in(arguments, args) {
        Some(why) => Err(conflict(alloc, why)?),
        None => Ok(args),
    }
}

/// What the arguments of `mrun` ask for, as `mrun_args_of` answers, or an error where the journal or the listing would
/// take the place of a file that is read under another name, or as standard input, or is printed to; or where the script
/// or the listing that is loaded is printed to.
pub fn mrun_args_with(
    rt: &(impl Files + AllocGlobal),
    arguments: &[Vec<u8>],
) -> Result<MrunArgs, Error>
    ensures { IfOk result (λ args. is_some args.journal ≡ true → args.upkeep.checkpoints ≡ Pace.Never) }
{
    let args = mrun_args_of(rt.alloc(), arguments)?;
    match file_conflict(rt, arguments, args.names()) {
        Some(why) => Err(conflict(rt.alloc(), why)?),
        None => Ok(args),
    }
}
