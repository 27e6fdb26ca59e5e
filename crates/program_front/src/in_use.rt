//! Whether a file that is written at the end is one that is read, or printed to, and whether one that is read is.
use crate::printing::path_of;
use crate::words::{FileNames, NamePlace};
use std::fs;
use std::fs::Metadata;
use std::os::unix::fs::{FileTypeExt, MetadataExt};
use std::rt::Files;

// What is said where the journal would take the place of a file that is read or printed to.
const JOURNAL_IN_USE: &str = "'--journal <JOURNAL>' cannot be a file that is read or printed to";

// What is said where the listing would take the place of the script, the journal, or what is printed to.
const SAVE_IN_USE: &str =
    "'--save <LISTING>' cannot be the script, the journal or a file that is printed to";

// What is said where replies or faults would go into a file that is read.
const READ_PRINTED_TO: &str =
    "the script and '--load <LISTING>' cannot be files that are printed to";

// Whether two names are there and the same. They are told apart by their bytes.
fn is_same_name(arguments: &[Vec<u8>], one: Option<NamePlace>, other: Option<NamePlace>) -> bool {
    match (one, other) {
        (Some(one), Some(other)) => one.name_in(arguments) == other.name_in(arguments),
        _ => false,
    }
}

/// Why a file that is written doesn't go with the others, if their names alone show it. What is saved may be what was
/// loaded.
pub(crate) fn name_conflict(arguments: &[Vec<u8>], names: FileNames) -> Option<&'static str> {
    if is_same_name(arguments, names.journal, names.script)
        || is_same_name(arguments, names.journal, names.load)
    {
        return Some(JOURNAL_IN_USE);
    }
    if is_same_name(arguments, names.save, names.script)
        || is_same_name(arguments, names.save, names.journal)
    {
        return Some(SAVE_IN_USE);
    }
    None
}

// Where the system says what the standard streams are.
const STANDARD_INPUT: &str = "/dev/stdin";

const STANDARD_OUTPUT: &str = "/dev/stdout";

const STANDARD_ERROR: &str = "/dev/stderr";

// What the system knows of the file whose name stands there among the arguments, if it is there.
fn known_of(rt: &impl Files, arguments: &[Vec<u8>], place: Option<NamePlace>) -> Option<Metadata> {
    let path = place?.name_in(arguments).and_then(path_of)?;
    fs::metadata(rt, path).ok()
}

// What the system knows of the script.
fn script_of(rt: &impl Files, arguments: &[Vec<u8>], names: FileNames) -> Option<Metadata> {
    match names.script {
        Some(_) => known_of(rt, arguments, names.script),
        None => fs::metadata(rt, STANDARD_INPUT).ok(),
    }
}

// Whether these are one file that bytes are kept in, or one pipe, whose reader would get one text behind the other.
// Terminals and other devices may be several at once.
fn is_same_file(kept: &Metadata, used: &Option<Metadata>) -> bool {
    match used {
        Some(used) => {
            (kept.is_file() || kept.file_type().is_fifo())
                && kept.dev() == used.dev()
                && kept.ino() == used.ino()
        }
        None => false,
    }
}

/// Whether these two names stand for one file that is there.
pub(crate) fn are_one_file(rt: &impl Files, one: &str, other: &str) -> bool {
    match fs::metadata(rt, one) {
        Ok(kept) => is_same_file(&kept, &fs::metadata(rt, other).ok()),
        Err(_) => false,
    }
}

// Whether replies or faults are printed to this file, in which bytes are kept. Printing to a pipe loses none.
fn is_printed_to(rt: &impl Files, known: &Metadata) -> bool {
    known.is_file()
        && (is_same_file(known, &fs::metadata(rt, STANDARD_OUTPUT).ok())
            || is_same_file(known, &fs::metadata(rt, STANDARD_ERROR).ok()))
}

// Whether this file, if it is there, is printed to. What is printed would be read as lines, without end.
fn is_read_printed_to(rt: &impl Files, read: Option<Metadata>) -> bool {
    match read {
        Some(read) => is_printed_to(rt, &read),
        None => false,
    }
}

// Whether the file for the journal is there and is the script, the listing that is loaded, or what is printed to.
fn is_journal_in_use(rt: &impl Files, arguments: &[Vec<u8>], names: FileNames) -> bool {
    match known_of(rt, arguments, names.journal) {
        Some(kept) => {
            is_same_file(&kept, &script_of(rt, arguments, names))
                || is_same_file(&kept, &known_of(rt, arguments, names.load))
                || is_printed_to(rt, &kept)
        }
        None => false,
    }
}

// Whether the file for the listing is there and is the script, the journal, or what is printed to.
fn is_save_in_use(rt: &impl Files, arguments: &[Vec<u8>], names: FileNames) -> bool {
    match known_of(rt, arguments, names.save) {
        Some(kept) => {
            is_same_file(&kept, &script_of(rt, arguments, names))
                || is_same_file(&kept, &known_of(rt, arguments, names.journal))
                || is_printed_to(rt, &kept)
        }
        None => false,
    }
}

// The folder that a path lies in, and its last name.
fn split_path(path: &str) -> (&str, &str) {
    match path.rsplit_once('/') {
        Some(("", name)) => ("/", name),
        Some((folder, name)) => (folder, name),
        None => (".", path),
    }
}

// Whether the journal and the listing, which aren't there yet, have one name in one folder.
fn is_one_place(rt: &impl Files, arguments: &[Vec<u8>], names: FileNames) -> Option<bool> {
    if known_of(rt, arguments, names.save).is_some() {
        return None;
    }
    let journal = names.journal?.name_in(arguments).and_then(path_of)?;
    let save = names.save?.name_in(arguments).and_then(path_of)?;
    let (journal_folder, journal_name) = split_path(journal);
    let (save_folder, save_name) = split_path(save);
    let one = fs::metadata(rt, journal_folder).ok()?;
    let other = fs::metadata(rt, save_folder).ok()?;
    Some(journal_name == save_name && one.dev() == other.dev() && one.ino() == other.ino())
}

/// Why a file that is written, printed to too, doesn't go with the others, if so: by whatever name, a link of any kind
/// too. Where no script is named it is standard input. It is looked at once: what becomes of the names later isn't seen.
pub(crate) fn file_conflict(
    rt: &impl Files,
    arguments: &[Vec<u8>],
    names: FileNames,
) -> Option<&'static str> {
    if is_journal_in_use(rt, arguments, names) {
        return Some(JOURNAL_IN_USE);
    }
    let is_one = is_one_place(rt, arguments, names).unwrap_or(false);
    if is_one || is_save_in_use(rt, arguments, names) {
        return Some(SAVE_IN_USE);
    }
    if is_read_printed_to(rt, script_of(rt, arguments, names))
        || is_read_printed_to(rt, known_of(rt, arguments, names.load))
    {
        return Some(READ_PRINTED_TO);
    }
    None
}
