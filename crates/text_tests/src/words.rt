//! The words of `mrun` and `mjobs`: what their command lines ask for. Expected from README and `--help`.
use clap::error::ErrorKind;
use program_front::{
    MjobsArgs, MrunArgs, NamePlace, Workers, mjobs_args_of, mrun_args_of, room_before,
};
use script_run::{Pace, Upkeep};
use std::alloc::Global;
use std::test::Fail;

// The program's name and these words.
fn arguments(alloc: Global, program: &[u8], words: &[&[u8]]) -> Result<Vec<Vec<u8>>, Fail> {
    let mut list = Vec::new(alloc);
    list.push(Vec::from_slice(alloc, program)?)?;
    for word in words {
        list.push(Vec::from_slice(alloc, word)?)?;
    }
    Ok(list)
}

// What these words ask `mrun` for.
fn asked(alloc: Global, words: &[&[u8]]) -> Result<Result<MrunArgs, ErrorKind>, Fail> {
    let list = arguments(alloc, b"mrun", words)?;
    Ok(match mrun_args_of(alloc, &list) {
        Ok(args) => Ok(args),
        Err(error) => Err(error.kind()),
    })
}

// What is done where no word asks for more.
const USUAL: Upkeep = Upkeep {
    collector: Pace::WhereCheap,
    checkpoints: Pace::WhereCheap,
};

// What is where a journal is kept.
const KEPT: Upkeep = Upkeep {
    checkpoints: Pace::Never,
    ..USUAL
};

const PLAIN: MrunArgs = MrunArgs {
    file: None,
    load: None,
    save: None,
    journal: None,
    listed: true,
    errors: false,
    statistics: false,
    upkeep: USUAL,
};

// Words, and what they ask `mrun` for.
type Row = (&'static [&'static [u8]], Result<MrunArgs, ErrorKind>);

fn asks(alloc: Global, words: &[&[u8]], want: Result<MrunArgs, ErrorKind>) -> Result<bool, Fail> {
    let found = asked(alloc, words)?;
    Ok(found == want)
}

// The first row whose words ask for something else.
fn first_other(alloc: Global, rows: &[Row]) -> Result<Option<usize>, Fail> {
    for (i, (words, want)) in rows.iter().enumerate() {
        if !asks(alloc, words, *want)? {
            return Ok(Some(i));
        }
    }
    Ok(None)
}

const FILES: [Row; 4] = [
    (&[], Ok(PLAIN)),
    (&[b"-"], Ok(PLAIN)),
    (
        &[b"a.txt"],
        Ok(MrunArgs {
            file: Some(1),
            ..PLAIN
        }),
    ),
    (
        &[b"--errors", b"\xff\xfe"],
        Ok(MrunArgs {
            file: Some(2),
            errors: true,
            ..PLAIN
        }),
    ),
];

#[test]
fn words_ask_for_a_file_or_standard_input(rt: HostRuntime) -> Result<(), Fail> {
    assert_eq!(rt; first_other(rt.alloc(), &FILES)?, None);
    Ok(())
}

const LISTINGS: [Row; 2] = [
    (
        &[b"a.txt", b"--load", b"b.txt"],
        Ok(MrunArgs {
            file: Some(1),
            load: Some(NamePlace {
                argument: 3,
                from: 0,
            }),
            ..PLAIN
        }),
    ),
    (
        &[b"--load=\xffb.txt"],
        Ok(MrunArgs {
            load: Some(NamePlace {
                argument: 1,
                from: 7,
            }),
            ..PLAIN
        }),
    ),
];

// Whether the words are refused, for whatever reason.
fn is_refused(alloc: Global, words: &[&[u8]]) -> Result<bool, Fail> {
    let found = asked(alloc, words)?;
    Ok(found.is_err())
}

#[test]
fn words_ask_for_a_listing(rt: HostRuntime) -> Result<(), Fail> {
    assert_eq!(rt; first_other(rt.alloc(), &LISTINGS)?, None);
    assert!(rt; is_refused(rt.alloc(), &[b"--load"])?);
    Ok(())
}

// Words, and where the journal's name stands by them: which of the words, and from which byte on.
type JournalRow = (&'static [&'static [u8]], usize, usize);

fn has_journal_at(
    alloc: Global,
    words: &[&[u8]],
    argument: usize,
    from: usize,
) -> Result<bool, Fail> {
    Ok(match asked(alloc, words)? {
        Ok(args) => {
            args.journal == Some(NamePlace { argument, from })
                && args.upkeep.checkpoints == Pace::Never
        }
        Err(_) => false,
    })
}

// The first row whose words name another journal or none, or take checkpoints.
fn first_other_journal(alloc: Global, rows: &[JournalRow]) -> Result<Option<usize>, Fail> {
    for (i, (words, argument, from)) in rows.iter().enumerate() {
        if !has_journal_at(alloc, words, *argument, *from)? {
            return Ok(Some(i));
        }
    }
    Ok(None)
}

const JOURNALS: [JournalRow; 3] = [
    (&[b"--journal", b"j.txt", b"a.txt"], 2, 0),
    (&[b"a.txt", b"--journal=j.txt"], 2, 10),
    (&[b"--load", b"\xff", b"--journal", b"\xfe"], 4, 0),
];

#[test]
fn words_ask_for_a_journal(rt: HostRuntime) -> Result<(), Fail> {
    assert_eq!(rt; first_other_journal(rt.alloc(), &JOURNALS)?, None);
    Ok(())
}

#[test]
fn a_journal_keeps_its_beginning(rt: HostRuntime) -> Result<(), Fail> {
    let dropped: &[&[u8]] = &[b"--journal", b"j.txt", b"--checkpoint-every", b"5"];
    assert!(rt; asks(rt.alloc(), dropped, Err(ErrorKind::ArgumentConflict))?);
    let kept: &[&[u8]] = &[b"--journal", b"j.txt", b"--checkpoint-every", b"0"];
    assert!(rt; !is_refused(rt.alloc(), kept)?);
    Ok(())
}

// Words, and where the name of the listing that is saved stands by them, with that of the one that is loaded.
const SAVES: [Row; 2] = [
    (
        &[b"--load", b"k", b"--save", b"k"],
        Ok(MrunArgs {
            load: Some(NamePlace {
                argument: 2,
                from: 0,
            }),
            save: Some(NamePlace {
                argument: 4,
                from: 0,
            }),
            ..PLAIN
        }),
    ),
    (
        &[b"--save=\xfe", b"--checkpoint-every=5"],
        Ok(MrunArgs {
            save: Some(NamePlace {
                argument: 1,
                from: 7,
            }),
            upkeep: Upkeep {
                checkpoints: Pace::Every(5),
                ..USUAL
            },
            ..PLAIN
        }),
    ),
];

#[test]
fn words_ask_for_a_listing_to_be_saved(rt: HostRuntime) -> Result<(), Fail> {
    assert_eq!(rt; first_other(rt.alloc(), &SAVES)?, None);
    assert!(rt; is_refused(rt.alloc(), &[b"--save"])?);
    Ok(())
}

const READ_AND_WRITTEN: [Row; 4] = [
    (
        &[b"--journal", b"a.txt", b"a.txt"],
        Err(ErrorKind::ArgumentConflict),
    ),
    (
        &[b"--journal=a.txt", b"--load", b"a.txt"],
        Err(ErrorKind::ArgumentConflict),
    ),
    (
        &[b"--save", b"a.txt", b"a.txt"],
        Err(ErrorKind::ArgumentConflict),
    ),
    (
        &[b"--save", b"a.txt", b"--journal=a.txt"],
        Err(ErrorKind::ArgumentConflict),
    ),
];

#[test]
fn a_file_that_is_written_is_no_other(rt: HostRuntime) -> Result<(), Fail> {
    assert_eq!(rt; first_other(rt.alloc(), &READ_AND_WRITTEN)?, None);
    Ok(())
}

const OPTIONS: [Row; 2] = [
    (
        &[b"--no-listing", b"--errors"],
        Ok(MrunArgs {
            listed: false,
            errors: true,
            ..PLAIN
        }),
    ),
    (
        &[b"--no-listing", b"--", b"--errors"],
        Ok(MrunArgs {
            file: Some(3),
            listed: false,
            ..PLAIN
        }),
    ),
];

#[test]
fn words_ask_for_options(rt: HostRuntime) -> Result<(), Fail> {
    assert_eq!(rt; first_other(rt.alloc(), &OPTIONS)?, None);
    Ok(())
}

const HELP_OR_WRONG: [Row; 4] = [
    (&[b"--help"], Err(ErrorKind::DisplayHelp)),
    (&[b"--version"], Err(ErrorKind::DisplayVersion)),
    (&[b"a", b"b"], Err(ErrorKind::UnknownArgument)),
    (&[b"--nothing"], Err(ErrorKind::UnknownArgument)),
];

#[test]
fn words_ask_for_help_or_are_wrong(rt: HostRuntime) -> Result<(), Fail> {
    assert_eq!(rt; first_other(rt.alloc(), &HELP_OR_WRONG)?, None);
    Ok(())
}

// Whether the word asks for a pass, and for a checkpoint, after so many printed lines, or is wrong for either.
fn is_every(alloc: Global, word: &[u8], want: Result<Pace, ErrorKind>) -> Result<bool, Fail> {
    let passes = asked(alloc, &[b"--collect-every", word])?;
    let checkpoints = asked(alloc, &[b"--checkpoint-every", word])?;
    Ok(
        passes.map(|args| args.upkeep.collector) == want
            && checkpoints.map(|args| args.upkeep.checkpoints) == want,
    )
}

// A word, and when it asks for something.
type PaceRow = (&'static [u8], Result<Pace, ErrorKind>);

const EVERY: [PaceRow; 8] = [
    (b"0", Ok(Pace::Never)),
    (b"7", Ok(Pace::Every(7))),
    (b"1000000", Ok(Pace::Every(1000000))),
    (b"1000001", Err(ErrorKind::ValueValidation)),
    (b"x", Err(ErrorKind::ValueValidation)),
    (b"1.5", Err(ErrorKind::ValueValidation)),
    (b"", Err(ErrorKind::ValueValidation)),
    (b"-1", Err(ErrorKind::UnknownArgument)),
];

#[test]
fn words_ask_for_the_collector_and_checkpoints(rt: HostRuntime) -> Result<(), Fail> {
    for (word, want) in &EVERY {
        assert!(rt; is_every(rt.alloc(), word, *want)?, "{word:?}");
    }
    Ok(())
}

const BOTH: [Row; 2] = [
    (
        &[b"--collect-every=5", b"--checkpoint-every=9", b"5"],
        Ok(MrunArgs {
            file: Some(3),
            upkeep: Upkeep {
                collector: Pace::Every(5),
                checkpoints: Pace::Every(9),
            },
            ..PLAIN
        }),
    ),
    (&[b"--collect-every"], Err(ErrorKind::InvalidValue)),
];

#[test]
fn words_ask_for_both_and_a_file(rt: HostRuntime) -> Result<(), Fail> {
    assert_eq!(rt; first_other(rt.alloc(), &BOTH)?, None);
    Ok(())
}

// What these words ask `mjobs` for.
fn asked_of_jobs(alloc: Global, words: &[&[u8]]) -> Result<Result<MjobsArgs, ErrorKind>, Fail> {
    let list = arguments(alloc, b"mjobs", words)?;
    Ok(match mjobs_args_of(alloc, &list) {
        Ok(args) => Ok(args),
        Err(error) => Err(error.kind()),
    })
}

const PLAIN_JOBS: MjobsArgs = MjobsArgs {
    file: None,
    load: None,
    save: None,
    journal: None,
    listed: true,
    errors: false,
    workers: Workers::Number(2),
    live: false,
    statistics: false,
    upkeep: USUAL,
};

// Words, and what they ask `mjobs` for.
type JobsRow = (&'static [&'static [u8]], Result<MjobsArgs, ErrorKind>);

fn asks_of_jobs(
    alloc: Global,
    words: &[&[u8]],
    want: Result<MjobsArgs, ErrorKind>,
) -> Result<bool, Fail> {
    let found = asked_of_jobs(alloc, words)?;
    Ok(found == want)
}

// The first row whose words ask for something else.
fn first_other_of_jobs(alloc: Global, rows: &[JobsRow]) -> Result<Option<usize>, Fail> {
    for (i, (words, want)) in rows.iter().enumerate() {
        if !asks_of_jobs(alloc, words, *want)? {
            return Ok(Some(i));
        }
    }
    Ok(None)
}

const JOBS: [JobsRow; 5] = [
    (&[], Ok(PLAIN_JOBS)),
    (
        &[b"--no-listing", b"--errors", b"a.txt"],
        Ok(MjobsArgs {
            file: Some(3),
            listed: false,
            errors: true,
            ..PLAIN_JOBS
        }),
    ),
    (
        &[b"--collect-every", b"1"],
        Err(ErrorKind::ArgumentConflict),
    ),
    (
        &[b"--checkpoint-every", b"1"],
        Err(ErrorKind::ArgumentConflict),
    ),
    (&[b"--help"], Err(ErrorKind::DisplayHelp)),
];

const LIVE_JOBS: [JobsRow; 3] = [
    (
        &[b"--live", b"-"],
        Ok(MjobsArgs {
            live: true,
            ..PLAIN_JOBS
        }),
    ),
    (
        &[b"--live", b"--collect-every=7", b"--checkpoint-every", b"9"],
        Ok(MjobsArgs {
            live: true,
            upkeep: Upkeep {
                collector: Pace::Every(7),
                checkpoints: Pace::Every(9),
            },
            ..PLAIN_JOBS
        }),
    ),
    (
        &[b"--live", b"--journal=j.txt", b"--checkpoint-every=1"],
        Err(ErrorKind::ArgumentConflict),
    ),
];

#[test]
fn words_ask_for_live_jobs(rt: HostRuntime) -> Result<(), Fail> {
    assert_eq!(rt; first_other_of_jobs(rt.alloc(), &LIVE_JOBS)?, None);
    Ok(())
}

#[test]
fn words_ask_for_jobs(rt: HostRuntime) -> Result<(), Fail> {
    assert_eq!(rt; first_other_of_jobs(rt.alloc(), &JOBS)?, None);
    Ok(())
}

const LISTINGS_OF_JOBS: [JobsRow; 3] = [
    (
        &[b"--load=\xffb.txt", b"a.txt"],
        Ok(MjobsArgs {
            file: Some(2),
            load: Some(NamePlace {
                argument: 1,
                from: 7,
            }),
            ..PLAIN_JOBS
        }),
    ),
    (
        &[b"--journal=a.txt", b"--load", b"a.txt"],
        Err(ErrorKind::ArgumentConflict),
    ),
    (
        &[b"--stats"],
        Ok(MjobsArgs {
            statistics: true,
            ..PLAIN_JOBS
        }),
    ),
];

#[test]
fn words_ask_for_a_listing_of_jobs(rt: HostRuntime) -> Result<(), Fail> {
    assert_eq!(rt; first_other_of_jobs(rt.alloc(), &LISTINGS_OF_JOBS)?, None);
    Ok(())
}

const JOURNALS_OF_JOBS: [JobsRow; 4] = [
    (
        &[b"--journal=\xff.txt", b"a.txt"],
        Ok(MjobsArgs {
            file: Some(2),
            journal: Some(NamePlace {
                argument: 1,
                from: 10,
            }),
            upkeep: KEPT,
            ..PLAIN_JOBS
        }),
    ),
    (
        &[b"a.txt", b"--journal", b"a.txt"],
        Err(ErrorKind::ArgumentConflict),
    ),
    (
        &[b"--load=a.txt", b"--save=a.txt"],
        Ok(MjobsArgs {
            load: Some(NamePlace {
                argument: 1,
                from: 7,
            }),
            save: Some(NamePlace {
                argument: 2,
                from: 7,
            }),
            ..PLAIN_JOBS
        }),
    ),
    (
        &[b"--save", b"a.txt", b"a.txt"],
        Err(ErrorKind::ArgumentConflict),
    ),
];

// Whether the words are taken, whatever they ask for.
fn is_taken_by_jobs(alloc: Global, words: &[&[u8]]) -> Result<bool, Fail> {
    let found = asked_of_jobs(alloc, words)?;
    Ok(found.is_ok())
}

#[test]
fn words_ask_for_a_journal_of_jobs_that_is_no_file_that_is_read(
    rt: HostRuntime,
) -> Result<(), Fail> {
    assert_eq!(rt; first_other_of_jobs(rt.alloc(), &JOURNALS_OF_JOBS)?, None);
    let other: &[&[u8]] = &[b"a.txt", b"--journal", b"./a.txt"];
    assert!(rt; is_taken_by_jobs(rt.alloc(), other)?);
    Ok(())
}

// Whether the word asks for so many workers, or is wrong.
fn are_workers(alloc: Global, word: &[u8], want: Result<Workers, ErrorKind>) -> Result<bool, Fail> {
    let found = asked_of_jobs(alloc, &[b"--workers", word])?;
    Ok(found.map(|args| args.workers) == want)
}

const WORKERS: [(&[u8], Result<Workers, ErrorKind>); 6] = [
    (b"1", Ok(Workers::Number(1))),
    (b"16", Ok(Workers::Number(16))),
    (b"auto", Ok(Workers::Processors)),
    (b"0", Err(ErrorKind::ValueValidation)),
    (b"17", Err(ErrorKind::ValueValidation)),
    (b"x", Err(ErrorKind::ValueValidation)),
];

#[test]
fn words_ask_for_workers(rt: HostRuntime) -> Result<(), Fail> {
    for (word, want) in &WORKERS {
        assert!(rt; are_workers(rt.alloc(), word, *want)?, "{word:?}");
    }
    assert_eq!(rt; Workers::Number(3).count(Some(8)), 3);
    assert_eq!(rt; Workers::Processors.count(Some(8)), 8);
    assert_eq!(rt; Workers::Processors.count(Some(64)), 16);
    assert_eq!(rt; Workers::Processors.count(None), 2);
    Ok(())
}

#[test]
fn a_mark_stands_under_its_column(rt: HostRuntime) -> Result<(), Fail> {
    let line = b"1\tSET ^Zo\xc3\xab=x";
    let room = room_before(rt.alloc(), line.as_slice(), 12)?;
    assert_eq!(rt; room.as_str(), " \t        ");
    Ok(())
}
