//! Files that a run keeps something in: written anew beside their place, and put there once the run has ended well.
ghost use Rattle.std.specs.Prelude.{◌≡◌, ◌⊎◌, IfErr, OnOk};
ghost use Rattle.std.specs.Io.KnownBytes.{Appends};
ghost use Rattle.journal_lines.specs.Journals.{journal_text};
ghost use Rattle.listing.specs.Listing.{listing_text};

use crate::in_use::are_one_file;
use crate::piped::Piped;
use crate::printing::{FAULT_STATUS, path_of, print_left, print_unkept, print_unput};
use crate::words::{FileNames, NamePlace};
use globals::OrderedView;
use journal::Journal;
use journal_lines::{JournalFault, write_journal};
use listing::{Counted, ListingFault, write_listing};
use std::alloc::Global;
use std::fs::{Metadata, OpenFile, OpenOptions, Permissions};
use std::io::{ErrorKind, Write};
use std::os::unix::fs::{MetadataExt, OpenOptionsExt, PermissionsExt, lchown};
use std::rt::Files;
use std::{fs, io};

// How many names are tried for the new file: one that a killed run left is passed over.
const MOST_NAMES: usize = 9;

// What is said where all of them are there.
const ALL_THERE: &str = "remove those of .new-1 to .new-9 beside it that no run is writing";

// What is said where the listing's new file would be the journal's.
const WRITTEN_BESIDE: &str = "it is first written where the journal is to be";

// Whom a new file lets read and write it: its owner alone, until it has the mode of the file whose place it will take.
const OWNER_ALONE: u32 = 0o600;

// Or everybody, less the process's mask, where no file is there.
const EVERYBODY: u32 = 0o666;

// What a mode lets the file's group do.
const GROUP: u32 = 0o070;

// What is kept.
#[derive(Clone, Copy, Debug, PartialEq, Eq)]
enum Kept {
    // The journal, as a script.
    Journal,
    // The listing of the database.
    Listing,
}

impl Kept {
    // What is said before the file's name where it can't be kept.
    fn fault(self) -> &'static str {
        match self {
            Kept::Journal => "cannot write the journal",
            Kept::Listing => "cannot save the listing",
        }
    }
}

// How the text comes to its place.
#[derive(Drop)]
enum Way<F> {
    // A device or a pipe, which keeps no bytes: they go straight into it.
    Straight(F),
    // A new file takes the place of the one with this name, links followed, which needn't be there.
    Anew(String),
}

// Where something is kept once a run has ended.
#[derive(Drop)]
struct KeptPlace<'a, F> {
    what: Kept,
    name: &'a str,
    way: Way<F>,
}

// Opens a file that is there to be written to, as it is.
fn open_as_it_is<P: Files>(rt: &P, path: &str) -> io::Result<P::File> {
    OpenOptions::new().write(true).open(rt, path)
}

// Opens such a file by a number behind those of the standard streams, where its copy is. The number of one that is closed
// is free, and by it what is printed would go into the file.
fn open_behind_streams<P: Files>(rt: &P, path: &str) -> io::Result<P::File> {
    let file = open_as_it_is(rt, path)?;
    let copy = file.try_clone()?;
    drop(file);
    Ok(copy)
}

// A new file beside this place, with its name: the place's with `.new-1` behind, or a greater digit where that is there.
fn create_beside<P: Files + AllocGlobal>(
    rt: &P,
    place: &str,
    mode: u32,
) -> io::Result<(String, P::File)> {
    for i in 1..=MOST_NAMES {
        let name = format!(in rt.alloc(); "{place}.new-{i}")?;
        match OpenOptions::new()
            .write(true)
            .create_new(true)
            .mode(mode)
            .open(rt, name.as_str())
        {
            Ok(file) => return Ok((name, file)),
            Err(why) if why.kind() == ErrorKind::AlreadyExists => {}
            Err(why) => return Err(why),
        }
    }
    Err(io::Error::new(ErrorKind::AlreadyExists, ALL_THERE))
}

// Removes a new file. Where it can't be removed it stays.
fn remove(rt: &impl Files, name: &str) {
    let _ = fs::remove_file(rt, name);
}

// Finds out whether a new file can be created beside this place and removed again, and isn't the one that the journal's
// name stands for, where such a name is given. None is left there that can be removed.
fn try_beside(
    rt: &(impl Files + AllocGlobal),
    place: &str,
    journal: Option<&str>,
) -> io::Result<()> {
    let (name, file) = create_beside(rt, place, OWNER_ALONE)?;
    drop(file);
    let is_journal = match journal {
        Some(journal) => are_one_file(rt, journal, name.as_str()),
        None => false,
    };
    fs::remove_file(rt, name.as_str())?;
    if is_journal {
        return Err(io::Error::new(ErrorKind::Other, WRITTEN_BESIDE));
    }
    Ok(())
}

// The way to a file that bytes are kept in and that may be written to.
fn way_to_file<P: Files + AllocGlobal>(
    rt: &P,
    path: &str,
    journal: Option<&str>,
) -> io::Result<Way<P::File>> {
    let file = open_as_it_is(rt, path)?;
    drop(file);
    let place = fs::canonicalize(rt, path)?.into_string();
    try_beside(rt, place.as_str(), journal)?;
    Ok(Way::Anew(place))
}

// The way to a file that isn't there yet.
fn way_to_none<P: Files + AllocGlobal>(
    rt: &P,
    path: &str,
    journal: Option<&str>,
) -> io::Result<Way<P::File>> {
    let place = String::from_str(rt.alloc(), path)?;
    try_beside(rt, place.as_str(), journal)?;
    Ok(Way::Anew(place))
}

// The way to what is named so, as the system knows it now. What is first written beside it isn't to be the journal.
fn way_to<P: Files + AllocGlobal>(
    rt: &P,
    path: &str,
    journal: Option<&str>,
) -> io::Result<Way<P::File>> {
    match fs::metadata(rt, path) {
        Ok(known) if known.is_dir() => Err(io::Error::from(ErrorKind::IsADirectory)),
        Ok(known) if known.is_file() => way_to_file(rt, path, journal),
        Ok(_) => Ok(Way::Straight(open_behind_streams(rt, path)?)),
        Err(why) if why.kind() == ErrorKind::NotFound => way_to_none(rt, path, journal),
        Err(why) => Err(why),
    }
}

// The name that stands there among the arguments.
fn named_at(arguments: &[Vec<u8>], place: Option<NamePlace>) -> Option<&str> {
    place?.name_in(arguments).and_then(path_of)
}

// Where something is kept, if its name stands there among the arguments. It is looked whether it can be written; the
// file stays as it is. Where it can't be a line on standard error says why, and the exit status is answered.
fn place_of<'a, P: Files + Eprint + AllocGlobal>(
    rt: &P,
    program: &str,
    arguments: &'a [Vec<u8>],
    what: Kept,
    place: Option<NamePlace>,
    journal: Option<&str>,
) -> Result<Option<KeptPlace<'a, P::File>>, u8>
    ensures { IfErr result (λ status. status ≡ FAULT_STATUS) }
{
    if place.is_none() {
        return Ok(None);
    }
    let name = match named_at(arguments, place) {
        Some("") => return Err(print_unkept(rt, program, what.fault(), "its name is empty")),
        Some(name) => name,
        None => return Err(print_unkept(rt, program, what.fault(), "its name isn't UTF-8")),
    };
    match way_to(rt, name, journal) {
        Ok(way) => Ok(Some(KeptPlace { what, name, way })),
        Err(why) => Err(print_unput(rt, program, what.fault(), name, why)),
    }
}

// Gives a new file the owner and the group of the file whose place it will take, where the system lets it, or the group
// alone. No link is followed: whoever may write in the folder may have put one in the file's place.
fn take_owner(rt: &impl Files, name: &str, known: &Metadata) {
    if lchown(rt, name, Some(known.uid()), Some(known.gid())).is_err() {
        let _ = lchown(rt, name, None, Some(known.gid()));
    }
}

// The mode of the file whose place a new one will take, which lets the group do something only if it is that file's.
fn mode_after(known: &Metadata, new: &Metadata) -> u32 {
    let mode = known.permissions().mode();
    if new.gid() == known.gid() {
        mode
    } else {
        mode & !GROUP
    }
}

// Gives a new file the owner, the group and the mode of the file whose place it will take, as far as the system lets it.
fn take_after(
    rt: &impl Files,
    name: &str,
    file: &impl OpenFile,
    known: &Metadata,
) -> io::Result<()> {
    take_owner(rt, name, known);
    let new = file.metadata()?;
    file.set_permissions(Permissions::from_mode(mode_after(known, &new)))
}

// What the system knows of the file in this place, if one is there.
fn known_at(rt: &impl Files, place: &str) -> io::Result<Option<Metadata>> {
    match fs::metadata(rt, place) {
        Ok(known) => Ok(Some(known)),
        Err(why) if why.kind() == ErrorKind::NotFound => Ok(None),
        Err(why) => Err(why),
    }
}

// A new file for this place, with its name.
fn begin_beside<P: Files + AllocGlobal>(rt: &P, place: &str) -> io::Result<(String, P::File)> {
    let Some(known) = known_at(rt, place)? else {
        return create_beside(rt, place, EVERYBODY);
    };
    let (name, file) = create_beside(rt, place, OWNER_ALONE)?;
    match take_after(rt, name.as_str(), &file, &known) {
        Ok(()) => Ok((name, file)),
        Err(why) => {
            drop(file);
            remove(rt, name.as_str());
            Err(why)
        }
    }
}

// Why a write failed, as the file knows it.
fn write_error<F>(file: &Counted<Piped<F>>) -> io::Error {
    match file.inner().failure() {
        Some(why) => why,
        None => io::Error::new(ErrorKind::Other, "a write failed"),
    }
}

// Why the journal isn't written whole.
fn journal_error<F>(fault: JournalFault, file: &Counted<Piped<F>>) -> io::Error {
    match fault {
        JournalFault::Write => write_error(file),
        JournalFault::Memory => io::Error::from(ErrorKind::OutOfMemory),
        JournalFault::LetGo => io::Error::new(ErrorKind::Other, "its beginning was dropped"),
    }
}

// Why the listing isn't written whole.
fn listing_error<F>(fault: ListingFault, file: &Counted<Piped<F>>) -> io::Error {
    match fault {
        ListingFault::Write => write_error(file),
        ListingFault::Memory => io::Error::from(ErrorKind::OutOfMemory),
    }
}

// Writes the text of what is kept.
fn write_text<V: OrderedView, F: Write>(
    alloc: Global,
    what: Kept,
    journal: &Journal,
    content: &V,
    file: &mut Counted<Piped<F>>,
) -> io::Result<()>
    ensures journal { what ≡ Kept.Journal → OnOk result (Appends (F.contents file.old.inner.inner) (F.contents file.new.inner.inner) (journal_text journal.now.units)) }
    ensures listing { what ≡ Kept.Listing → OnOk result (Appends (F.contents file.old.inner.inner) (F.contents file.new.inner.inner) (listing_text (V.content content.now))) }
{
    match what {
        Kept::Journal => match write_journal(alloc, journal, file) {
            Ok(()) => Ok(()),
            Err(fault) => Err(journal_error(fault, file)),
        },
        Kept::Listing => match write_listing(alloc, content, file) {
            Ok(()) => Ok(()),
            Err(fault) => Err(listing_error(fault, file)),
        },
    }
}

// Writes the text into a file, and waits until the disk has it.
fn write_and_sync<V: OrderedView, F: Write + OpenFile + Drop>(
    alloc: Global,
    what: Kept,
    journal: &Journal,
    content: &V,
    file: F,
) -> io::Result<()> {
    let mut file = Counted::new(Piped::new(file));
    write_text(alloc, what, journal, content, &mut file)?;
    file.inner().inner().sync_all()
}

// Writes the text into a new file beside its place, and answers the new file's name. After an error there is none.
fn write_anew<V: OrderedView, P: Files + AllocGlobal>(
    rt: &P,
    what: Kept,
    journal: &Journal,
    content: &V,
    place: &str,
) -> io::Result<String> {
    let (name, file) = begin_beside(rt, place)?;
    match write_and_sync(rt.alloc(), what, journal, content, file) {
        Ok(()) => Ok(name),
        Err(why) => {
            remove(rt, name.as_str());
            Err(why)
        }
    }
}

// A text that lies in a new file beside its place.
#[derive(Drop)]
struct Draft<'a> {
    what: Kept,
    name: &'a str,
    new: String,
    place: String,
}

// Writes the text: straight to where it goes, or into a new file beside its place.
fn write_on_its_way<'a, V: OrderedView, P: Files + AllocGlobal, F: Write + Drop>(
    rt: &P,
    kept: KeptPlace<'a, F>,
    journal: &Journal,
    content: &V,
) -> io::Result<Option<Draft<'a>>> {
    let KeptPlace { what, name, way } = kept;
    match way {
        Way::Straight(file) => {
            let mut file = Counted::new(Piped::new(file));
            write_text(rt.alloc(), what, journal, content, &mut file)?;
            Ok(None)
        }
        Way::Anew(place) => {
            let new = write_anew(rt, what, journal, content, place.as_str())?;
            Ok(Some(Draft {
                what,
                name,
                new,
                place,
            }))
        }
    }
}

// Writes what is kept, if it is. Where it can't be written a line says why, and the exit status is answered.
fn write_kept<'a, V: OrderedView, P: Files + Eprint + AllocGlobal, F: Write + Drop>(
    rt: &P,
    program: &str,
    kept: Option<KeptPlace<'a, F>>,
    journal: &Journal,
    content: &V,
) -> Result<Option<Draft<'a>>, u8>
    ensures { IfErr result (λ status. status ≡ FAULT_STATUS) }
{
    let Some(kept) = kept else {
        return Ok(None);
    };
    let (fault, name) = (kept.what.fault(), kept.name);
    match write_on_its_way(rt, kept, journal, content) {
        Ok(draft) => Ok(draft),
        Err(why) => Err(print_unput(rt, program, fault, name, why)),
    }
}

// Whether the text goes straight to where it is kept.
fn is_straight<F>(kept: &Option<KeptPlace<'_, F>>) -> bool {
    match kept {
        Some(kept) => match &kept.way {
            Way::Straight(_) => true,
            Way::Anew(_) => false,
        },
        None => false,
    }
}

// Writes one text and then the other, if they are kept. Where one can't be written whole no new file is left, a line
// says why, and the exit status is answered.
fn write_both<'a, V: OrderedView, P: Files + Eprint + AllocGlobal, F: Write + Drop>(
    rt: &P,
    program: &str,
    one: Option<KeptPlace<'a, F>>,
    other: Option<KeptPlace<'a, F>>,
    journal: &Journal,
    content: &V,
) -> Result<(Option<Draft<'a>>, Option<Draft<'a>>), u8>
    ensures { IfErr result (λ status. status ≡ FAULT_STATUS) }
{
    let first = match write_kept(rt, program, one, journal, content) {
        Ok(draft) => draft,
        Err(status) => return Err(status),
    };
    match write_kept(rt, program, other, journal, content) {
        Ok(second) => Ok((first, second)),
        Err(status) => {
            remove_draft(rt, first);
            Err(status)
        }
    }
}

// Removes the new file, if there is one.
fn remove_draft(rt: &impl Files, draft: Option<Draft<'_>>) {
    if let Some(draft) = draft {
        remove(rt, draft.new.as_str());
    }
}

// Puts the new file, if there is one, in its place. Where that can't be done it stays where it is, and a line says so.
fn put<P: Files + Eprint>(rt: &P, program: &str, draft: Option<Draft<'_>>) -> Result<(), u8>
    ensures { IfErr result (λ status. status ≡ FAULT_STATUS) }
{
    let Some(draft) = draft else {
        return Ok(());
    };
    match fs::rename(rt, draft.new.as_str(), draft.place.as_str()) {
        Ok(()) => Ok(()),
        Err(why) => Err(print_left(
            rt,
            program,
            draft.what.fault(),
            draft.name,
            draft.new.as_str(),
            why,
        )),
    }
}

/// What a run keeps in files at its end: the journal, the listing of its database, both or nothing.
#[derive(Drop)]
pub struct Keeping<'a, F> {
    journal: Option<KeptPlace<'a, F>>,
    listing: Option<KeptPlace<'a, F>>,
}

/// What is written of it, but isn't in its place yet.
#[derive(Drop)]
pub struct Drafts<'a> {
    journal: Option<Draft<'a>>,
    listing: Option<Draft<'a>>,
}

/// What the arguments ask to be kept. It is looked whether it can be written where they say; what is there stays. Where
/// it can't be a line on standard error says why, and the exit status is answered.
pub fn keeping_of<'a, P: Files + Eprint + AllocGlobal>(
    rt: &P,
    program: &str,
    arguments: &'a [Vec<u8>],
    names: FileNames,
) -> Result<Keeping<'a, P::File>, u8>
    ensures { IfErr result (λ status. status ≡ FAULT_STATUS) }
{
    let journal = match place_of(rt, program, arguments, Kept::Journal, names.journal, None) {
        Ok(journal) => journal,
        Err(status) => return Err(status),
    };
    let beside = named_at(arguments, names.journal);
    match place_of(rt, program, arguments, Kept::Listing, names.save, beside) {
        Ok(listing) => Ok(Keeping { journal, listing }),
        Err(status) => Err(status),
    }
}

impl<'a, F: Write + Drop> Keeping<'a, F> {
    /// Writes the texts, each into a new file beside its place, but to devices and pipes straight, once what goes into a
    /// new file is there; of two such the journal comes first. What lies in its place stays as it was. Where one can't
    /// be written whole a line on standard error says why, no new file is left, and the exit status is answered.
    pub fn write<V: OrderedView, P: Files + Eprint + AllocGlobal>(
        self,
        rt: &P,
        program: &str,
        journal: &Journal,
        content: &V,
    ) -> Result<Drafts<'a>, u8>
        ensures { IfErr result (λ status. status ≡ FAULT_STATUS) }
    {
        let Keeping {
            journal: journal_place,
            listing: listing_place,
        } = self;
        if is_straight(&journal_place) && !is_straight(&listing_place) {
            match write_both(rt, program, listing_place, journal_place, journal, content) {
                Ok((listing, journal)) => Ok(Drafts { journal, listing }),
                Err(status) => Err(status),
            }
        } else {
            match write_both(rt, program, journal_place, listing_place, journal, content) {
                Ok((journal, listing)) => Ok(Drafts { journal, listing }),
                Err(status) => Err(status),
            }
        }
    }
}

impl<'a, F: Write + Drop> Keeping<'a, F> {
    /// Writes the texts and puts them in their places, at the end of a run whose exit status is this so far, and answers
    /// its last one.
    pub fn keep<V: OrderedView, P: Files + Eprint + AllocGlobal>(
        self,
        rt: &P,
        program: &str,
        journal: &Journal,
        content: &V,
        status: u8,
    ) -> u8
        ensures kept { (result ≡ status) ⊎ (result ≡ FAULT_STATUS) }
        ensures fault { status ≡ FAULT_STATUS → result ≡ FAULT_STATUS }
    {
        match self.write(rt, program, journal, content) {
            Ok(drafts) => drafts.end(rt, program, status),
            Err(fault) => fault,
        }
    }
}

impl<'a> Drafts<'a> {
    /// Ends a run whose exit status is this so far, and answers its last one. After a fault the new files are removed,
    /// and what lies in their place stays. Else each takes its place, the journal first; where one can't be put there, it
    /// stays where it is, and a line on standard error says so: then the listing isn't put in its place either.
    pub fn end(self, rt: &(impl Files + Eprint), program: &str, status: u8) -> u8
        ensures kept { (result ≡ status) ⊎ (result ≡ FAULT_STATUS) }
        ensures fault { status ≡ FAULT_STATUS → result ≡ FAULT_STATUS }
    {
        let Drafts { journal, listing } = self;
        if status == FAULT_STATUS {
            remove_draft(rt, journal);
            remove_draft(rt, listing);
            return status;
        }
        if let Err(fault) = put(rt, program, journal) {
            remove_draft(rt, listing);
            return fault;
        }
        match put(rt, program, listing) {
            Ok(()) => status,
            Err(fault) => fault,
        }
    }
}
