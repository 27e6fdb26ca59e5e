//! The listing that is loaded before the first job.
ghost use Rattle.std.specs.Prelude.{◌≡◌, ◌<◌, ◌-◌, ◌∷◌, ◌++◌, ℕ, [], List, None, Ok, true, get_or, length, IfOk, IfErr, IfSome, IfNone, OnOk};
ghost use Rattle.job_core.specs.Sessions.{idle};
ghost use Rattle.journal.specs.declared.unit.Unit.{Unit as JournalUnit};
ghost use Rattle.loading.specs.Settings.{Setting, before};
ghost use Rattle.loading.specs.Pending.{asked_of};
ghost use Rattle.shared_engine.specs.Sessions.{held};
ghost use Rattle.job_server.specs.Loads.{load_book, HasRunLoad, HasSet, HasSetAll, IsBookOf, IsLoaded, IsOfAnyLoad, IsUnservedOf, IsUnservedBy};

use crate::{ServerFault, Unserved};
use collation::Text;
use command::{Answer, DataCommand};
use key_codec::Key;
use loading::{LoadFault, LoadLog, SettingReader, loading_job};
use shared_engine::{BoardName, Pass, Session, Shared};
use std::alloc::Global;
use std::sync::Wait;

// Whether the last of these numbers is how many there are.
fn ends_at_count(numbers: &[u64]) -> bool
    ensures { result ≡ true → get_or numbers.now (length numbers.now - 1) 0 ≡ length numbers.now }
{
    let count = numbers.len();
    count == 0 || numbers[count - 1] == count as u64
}

// The next setting of a listing; none behind the last.
fn next_setting(settings: &mut SettingReader<'_>) -> Result<Option<(Key, Text)>, Unserved>
    ensures setting { IfOk result (λ next. IfSome next (λ setting. asked_of settings.old ≡ before (setting ∷ []) (asked_of settings.new))) }
    ensures shorter { IfOk result (λ next. IfSome next (λ setting. length settings.new.text < length settings.old.text)) }
    ensures end { IfOk result (λ next. IfNone next (asked_of settings.old ≡ Ok [])) }
    ensures fault { IfErr result (IsUnservedOf (asked_of settings.old)) }
{
    match settings.next() {
        Ok(next) => Ok(next),
        Err(fault) => Err(Unserved::Load(fault)),
    }
}

// Begins the session of the load.
fn open<B: BoardName, R: Wait>(
    rt: &R,
    alloc: Global,
    engine: &Shared<B>,
) -> Result<Session<B>, Unserved>
    ensures session { IfOk result (λ session. (units : List JournalUnit) × (session ≡ held (idle 1) None [] [] units)) }
    ensures fault { IfErr result IsOfAnyLoad }
{
    match engine.open(rt, alloc, loading_job()) {
        Ok(session) => Ok(session),
        Err(_) => Err(Unserved::Load(LoadFault::Memory)),
    }
}

// Does a setting. A journal that were full would refuse it, but no listing has so many lines.
fn set<B: BoardName, R: Wait>(
    rt: &R,
    engine: &Shared<B>,
    session: &mut Session<B>,
    key: Key,
    value: Text,
) -> Result<(), Unserved>
    requires { session.old.state.level ≡ 0 }
    ensures done { OnOk result ((earlier : List Setting) → HasSet earlier session.old → HasSet (earlier ++ (key, value) ∷ []) session.new) }
    ensures fault { IfErr result IsOfAnyLoad }
{
    match engine.lone(rt, session, DataCommand::Set(key, value)) {
        Ok(Answer::Done) => Ok(()),
        Ok(answer) => {
            drop(answer);
            Err(Unserved::Jobs(ServerFault::Missing))
        }
        Err(_) => Err(Unserved::Load(LoadFault::Memory)),
    }
}

// Does the first setting of a listing, and those that are left.
#[tactic(auto, using(crate::proofs::Loads::level_set, crate::proofs::Loads::first_set, crate::proofs::Loads::next_set, crate::proofs::Loads::last_set, crate::proofs::Loads::any_fault, crate::proofs::Loads::fault_left))]
fn set_all<B: BoardName, R: Wait, L: LoadLog>(
    rt: &R,
    engine: &Shared<B>,
    session: &mut Session<B>,
    first: (Key, Text),
    settings: &mut SettingReader<'_>,
    log: &mut L,
) -> Result<(), Unserved>
    requires { HasSet [] session.old }
    ensures done { OnOk result (HasSetAll first (asked_of settings.old) session.new) }
    ensures fault { IfErr result (IsUnservedOf (asked_of settings.old)) }
{
    let (key, value) = first;
    set(rt, engine, session, key, value)?;
    log.loaded(settings.lines_read());
    'settings: while let Some((key, value)) = next_setting(settings)? {
        set(rt, engine, session, key, value)?;
        log.loaded(settings.lines_read());
    }
    Ok(())
}

// The pass of the load's session, whose receipts are to be the first of the journal.
fn close<B: BoardName, R: Wait>(
    rt: &R,
    engine: &Shared<B>,
    session: Session<B>,
) -> Result<Pass<B>, Unserved>
    ensures booked { IfOk result (λ pass. (first : Setting) (more : List Setting) → HasSet (first ∷ more) session → (ended : List JournalUnit) × (pass ≡ load_book ended (first ∷ more)) × HasRunLoad (first ∷ more) (pass ∷ [])) }
    ensures fault { IfErr result IsOfAnyLoad }
{
    if !ends_at_count(session.numbers()) {
        return Err(Unserved::Jobs(ServerFault::Missing));
    }
    match engine.halt(rt, session) {
        Ok(pass) => Ok(pass),
        Err((session, _)) => {
            drop(session);
            Err(Unserved::Load(LoadFault::Memory))
        }
    }
}

// Does the first setting of a listing and those that are left in a session of their own.
#[tactic(auto, using(crate::proofs::Loads::none_set, crate::proofs::Loads::any_fault))]
fn load_from<B: BoardName, R: Wait, L: LoadLog>(
    rt: &R,
    alloc: Global,
    engine: &Shared<B>,
    first: (Key, Text),
    settings: &mut SettingReader<'_>,
    log: &mut L,
) -> Result<Pass<B>, Unserved>
    ensures booked { IfOk result (IsBookOf first (asked_of settings.old)) }
    ensures fault { IfErr result (IsUnservedOf (asked_of settings.old)) }
{
    let mut session = open(rt, alloc, engine)?;
    match set_all(rt, engine, &mut session, first, settings, log) {
        Ok(()) => close(rt, engine, session),
        Err(fault) => {
            drop(session);
            Err(fault)
        }
    }
}

/// Does the settings of a listing as SETs of job 1, in order, and answers the pass of their session; none where nothing
/// is set. Nothing was done in the engine before, so they are the first units of its journal.
///
/// Faults: `Load`, as of `loading::load`; `Jobs` where the units aren't the first ones.
#[tactic(auto, using(crate::proofs::Loads::none_loaded, crate::proofs::Loads::book_loaded))]
pub(crate) fn load_listing<B: BoardName, R: Wait, L: LoadLog>(
    rt: &R,
    alloc: Global,
    engine: &Shared<B>,
    listing: &[u8],
    log: &mut L,
) -> Result<Vec<Pass<B>>, Unserved>
    ensures loaded { IfOk result (λ passes. IsLoaded listing.now passes.items) }
    ensures fault { IfErr result (IsUnservedBy listing.now) }
{
    let mut settings = SettingReader::new(alloc, listing);
    let mut passes = Vec::new(alloc);
    if let Some(first) = next_setting(&mut settings)? {
        let pass = load_from(rt, alloc, engine, first, &mut settings, log)?;
        passes.push(pass)?;
    }
    Ok(passes)
}
