//! The words that both programs know, and the arguments as texts.
ghost use Rattle.std.specs.Prelude.{◌≡◌, ◌==◌, if◌then◌else◌, MatchOption};

use clap::builder::ValueParser;
use clap::{Arg, ArgAction, ArgMatches, Error};
use script_run::{Pace, Upkeep};
use std::alloc::{AllocError, Global};

/// Where a file's name stands among the arguments.
#[derive(Clone, Copy, Debug, PartialEq, Eq)]
pub struct NamePlace {
    /// In which of them.
    pub argument: usize,
    /// From which of its bytes on.
    pub from: usize,
}

impl NamePlace {
    /// The name that stands there among these arguments, or none where they are no such.
    pub fn name_in<'a>(&self, arguments: &'a [Vec<u8>]) -> Option<&'a [u8]> {
        let argument = arguments.get(self.argument)?;
        argument.get(self.from..)
    }
}

/// The files that a program's words name.
#[derive(Clone, Copy, Debug, PartialEq, Eq)]
pub struct FileNames {
    /// Where the name of the script stands, or none for standard input.
    pub script: Option<NamePlace>,
    /// Where the name of the listing stands that is loaded first, or none.
    pub load: Option<NamePlace>,
    /// Where the name of the file stands that the listing is saved to, or none.
    pub save: Option<NamePlace>,
    /// Where the name of the file stands that the journal is written to, or none.
    pub journal: Option<NamePlace>,
}

impl FileNames {
    /// Whether something is to be kept.
    pub(crate) fn keep_something(self) -> bool {
        self.save.is_some() || self.journal.is_some()
    }
}

/// The version of both programs.
pub(crate) const VERSION: &str = "0.2.0";

/// What is said where a journal is asked for that would drop its beginning.
pub(crate) const DROPPED: &str =
    "'--journal <JOURNAL>' cannot be used with '--checkpoint-every <M>' other than 0, by which the journal drops its beginning";

// The most printed lines from one pass of the collector, or one checkpoint, to the next that may be asked for.
const MOST_LINES: u64 = 1000000;

// A word for something that is done after each so many printed lines.
fn every_word<'a>(alloc: Global, name: &'a str, value: &'a str, help: &'a str) -> Arg<'a> {
    Arg::new(alloc, name)
        .long(name)
        .action(ArgAction::Set)
        .value_name(value)
        .value_parser(ValueParser::unsigned(0, MOST_LINES))
        .help(help)
}

/// The word for passes of the collector.
pub(crate) fn collect_word<'a>(alloc: Global) -> Arg<'a> {
    every_word(
        alloc,
        "collect-every",
        "N",
        "Let the collector pass after each Nth printed{n}line, 0 to 1000000; 0 is never; by itself where{n}it costs little",
    )
}

/// The word for checkpoints.
pub(crate) fn checkpoint_word<'a>(alloc: Global) -> Arg<'a> {
    every_word(
        alloc,
        "checkpoint-every",
        "M",
        "Let the journal drop its beginning after each{n}Mth printed line, 0 to 1000000; 0 is{n}never; by itself where it costs little, but{n}never with --journal",
    )
}

// When something is done for which this number is asked; as usual where none is.
fn pace_of(asked: Option<u64>, usual: Pace) -> Pace
    ensures { MatchOption asked (result ≡ usual) (λ lines. result ≡ if lines == 0 then Pace.Never else Pace.Every lines) }
{
    match asked {
        Some(0) => Pace::Never,
        Some(lines) => Pace::Every(lines),
        None => usual,
    }
}

// When checkpoints are taken where no number is asked for: never where a journal is kept, which they would cut.
fn usual_checkpoints(journal: Option<NamePlace>) -> Pace
    ensures { MatchOption journal (result ≡ Pace.WhereCheap) (λ _. result ≡ Pace.Never) }
{
    match journal {
        Some(_) => Pace::Never,
        None => Pace::WhereCheap,
    }
}

/// When the collector drops old versions and checkpoints are taken.
pub(crate) fn upkeep_of(matches: &ArgMatches<'_>, journal: Option<NamePlace>) -> Upkeep {
    Upkeep {
        collector: pace_of(matches.get_one("collect-every"), Pace::WhereCheap),
        checkpoints: pace_of(
            matches.get_one("checkpoint-every"),
            usual_checkpoints(journal),
        ),
    }
}

/// The word for the script's file.
pub(crate) fn file_word<'a>(alloc: Global) -> Arg<'a> {
    Arg::new(alloc, "FILE").action(ArgAction::Set).help(
        "The script; without it, or with -, standard input is read",
    )
}

// A word for a file, with its help.
fn name_word<'a>(alloc: Global, word: &'a str, value: &'a str, help: &'a str) -> Arg<'a> {
    Arg::new(alloc, word)
        .long(word)
        .action(ArgAction::Set)
        .value_name(value)
        .help(help)
}

/// The word for a listing that is loaded first.
pub(crate) fn load_word<'a>(alloc: Global) -> Arg<'a> {
    name_word(
        alloc,
        "load",
        "LISTING",
        "Start from this listing, ours or in ZWR form",
    )
}

/// The word for the file that the listing is saved to.
pub(crate) fn save_word<'a>(alloc: Global) -> Arg<'a> {
    name_word(
        alloc,
        "save",
        "LISTING",
        "Put the listing in this file at the end",
    )
}

/// The word for the file that the journal is written to.
pub(crate) fn journal_word<'a>(alloc: Global) -> Arg<'a> {
    name_word(
        alloc,
        "journal",
        "JOURNAL",
        "Put what was done in this file at the end,{n}as a script that leaves the same listing",
    )
}

/// The word that leaves out the listing.
pub(crate) fn no_listing_word<'a>(alloc: Global) -> Arg<'a> {
    Arg::new(alloc, "no-listing")
        .long("no-listing")
        .action(ArgAction::SetTrue)
        .help("Print replies only, without -- and listing")
}

/// The word that asks for refused lines on standard error, with its help.
pub(crate) fn errors_word<'a>(alloc: Global, help: &'a str) -> Arg<'a> {
    Arg::new(alloc, "errors")
        .long("errors")
        .action(ArgAction::SetTrue)
        .help(help)
}

/// The word that asks for what the engine holds at the end, on standard error.
pub(crate) fn stats_word<'a>(alloc: Global) -> Arg<'a> {
    Arg::new(alloc, "stats")
        .long("stats")
        .action(ArgAction::SetTrue)
        .help("Print at the end what is held, in numbers")
}

/// The arguments as texts, with each sequence that isn't UTF-8 replaced.
pub(crate) fn texts_of(alloc: Global, arguments: &[Vec<u8>]) -> Result<Vec<String>, AllocError> {
    let mut texts = Vec::new(alloc);
    for argument in arguments {
        texts.push(String::from_utf8_lossy(alloc, argument)?)?;
    }
    Ok(texts)
}

// The first argument of this text. The program's name comes before it, and only options and their values can have the
// same text; they are of ASCII, so then their bytes are the file's too.
fn place_of(arguments: &[String], text: &str) -> Option<usize> {
    for i in 1..arguments.len() {
        if arguments[i].as_str() == text {
            return Some(i);
        }
    }
    None
}

/// Which of the arguments is the file, or none for standard input.
pub(crate) fn file_of(matches: &ArgMatches<'_>, arguments: &[String]) -> Option<usize> {
    match matches.get_str("FILE") {
        Some("-") | None => None,
        Some(text) => place_of(arguments, text),
    }
}

// Where the value of a word stands, which has this text: in the argument behind it, or behind `=` in its own.
fn value_place(arguments: &[String], word: &str, front: &str, text: &str) -> Option<NamePlace> {
    for argument in 1..arguments.len() {
        if arguments[argument].as_str().strip_prefix(front) == Some(text) {
            let from = front.len();
            return Some(NamePlace { argument, from });
        }
        if arguments[argument].as_str() == text && arguments[argument - 1].as_str() == word {
            return Some(NamePlace { argument, from: 0 });
        }
    }
    None
}

/// Where the name of the listing stands that is loaded first, or none.
pub(crate) fn load_of(matches: &ArgMatches<'_>, arguments: &[String]) -> Option<NamePlace> {
    let name = matches.get_str("load")?;
    value_place(arguments, "--load", "--load=", name)
}

/// Where the name of the file stands that the listing is saved to, or none.
pub(crate) fn save_of(matches: &ArgMatches<'_>, arguments: &[String]) -> Option<NamePlace> {
    let name = matches.get_str("save")?;
    value_place(arguments, "--save", "--save=", name)
}

/// Where the name of the file stands that the journal is written to, or none.
pub(crate) fn journal_of(matches: &ArgMatches<'_>, arguments: &[String]) -> Option<NamePlace> {
    let name = matches.get_str("journal")?;
    value_place(arguments, "--journal", "--journal=", name)
}

/// Where the name of the script's file stands, or none for standard input.
pub(crate) fn file_place(file: Option<usize>) -> Option<NamePlace> {
    match file {
        Some(argument) => Some(NamePlace { argument, from: 0 }),
        None => None,
    }
}
