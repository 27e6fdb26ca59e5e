//! Texts as databases.
ghost use Rattle.std.specs.Prelude.{◌≡◌, [], ◌∷◌, IfOk, IfErr, OnOk};
ghost use Rattle.std.specs.FinMap as finmap;
ghost use Rattle.journal.specs.History.{initial, IsLegal};
ghost use Rattle.loading.specs.Settings.{settings_of};
ghost use Rattle.loading.specs.Pending.{asked_of};
ghost use Rattle.loading.specs.Loaded.{with_settings, is_answered, HasSetAll, IsLoaded, IsFaultOf};

use crate::{LoadFault, LoadLog, NoLog, SettingReader};
use collation::{Job, Text};
use command::{Command, DataCommand, Reply};
use job_core::JobCore;
use key_codec::Key;
use std::alloc::Global;

/// The job whose SETs the lines of a listing are: 1.
pub fn loading_job() -> Job
    ensures { result ≡ 1 }
{
    match Job::new(1) {
        Ok(job) => job,
        Err(_) => unreachable!(),
    }
}

fn is_answer(reply: &Reply) -> bool
    ensures { result ≡ is_answered reply.now }
{
    matches!(reply, Reply::Answered(_))
}

// Does a SET. A journal that were full would refuse it, but no text has so many lines.
fn set(core: &mut JobCore, key: Key, value: Text) -> Result<(), LoadFault>
    requires { core.old.machine.transactions ≡ finmap.empty }
    ensures ok { OnOk result (core.new.machine ≡ with_settings ((key, value) ∷ []) core.old.machine) }
    ensures err { IfErr result (λ fault. fault ≡ LoadFault.Memory) }
    ensures base { core.new.base ≡ core.old.base }
{
    let set = Command::Access(DataCommand::Set(key, value));
    let reply = core.step(loading_job(), set);
    let is_done = is_answer(&reply);
    drop(reply);
    if is_done {
        Ok(())
    } else {
        Err(LoadFault::Memory)
    }
}

// Does the settings that are left of a text.
fn load_settings(
    core: &mut JobCore,
    settings: &mut SettingReader<'_>,
    log: &mut impl LoadLog,
) -> Result<(), LoadFault>
    requires { core.old.machine.transactions ≡ finmap.empty }
    ensures ok { OnOk result (HasSetAll (asked_of settings.old) core.old.machine core.new.machine) }
    ensures err { IfErr result (IsFaultOf (asked_of settings.old)) }
    ensures base { core.new.base ≡ core.old.base }
{
    'settings: while let Some((key, value)) = settings.next()? {
        set(core, key, value)?;
        log.loaded(settings.lines_read());
    }
    Ok(())
}

/// Loads a text as `load` does, and tells the log of each line that sets something.
pub fn load_with(alloc: Global, text: &[u8], log: &mut impl LoadLog) -> Result<JobCore, LoadFault>
    ensures loaded { IfOk result (λ core. IsLoaded text.now core.machine) }
    ensures legal { IfOk result (λ core. IsLegal core.machine.units initial) }
    ensures closed { IfOk result (λ core. core.machine.transactions ≡ finmap.empty) }
    ensures whole { IfOk result (λ core. core.base ≡ 0) }
    ensures refused { IfErr result (IsFaultOf (settings_of text.now)) }
{
    let mut settings = SettingReader::new(alloc, text);
    let mut core = JobCore::new(alloc);
    let loaded = load_settings(&mut core, &mut settings, log);
    drop(settings);
    match loaded {
        Ok(()) => Ok(core),
        Err(fault) => {
            drop(core);
            Err(fault)
        }
    }
}

/// A core with the database of a text: each of its lines is a SET of job 1, in order, so that of a reference's values
/// the last stands. No transaction is open, no lock is held, and the journal keeps all units.
///
/// A line is a reference, `=` and a value, with blanks around them or none, as they stand after a SET; an empty line is
/// passed over. Two lines at the front are passed over as headers where the second ends with `ZWR` and neither begins
/// with `^`. Faults: `Line`, the first line that sets nothing, with its number and the column of its fault; its causes
/// are those of a SET's line: `BadLine`, `BadName`, `TooManySubscripts`, `EmptySubscript`, `SubscriptTooLong`,
/// `ValueTooLong`. And `Memory`, where memory was refused before one was found. After a fault there is no core: nothing
/// of the text is kept.
pub fn load(alloc: Global, text: &[u8]) -> Result<JobCore, LoadFault>
    ensures loaded { IfOk result (λ core. IsLoaded text.now core.machine) }
    ensures legal { IfOk result (λ core. IsLegal core.machine.units initial) }
    ensures closed { IfOk result (λ core. core.machine.transactions ≡ finmap.empty) }
    ensures whole { IfOk result (λ core. core.base ≡ 0) }
    ensures refused { IfErr result (IsFaultOf (settings_of text.now)) }
{
    load_with(alloc, text, &mut NoLog)
}
