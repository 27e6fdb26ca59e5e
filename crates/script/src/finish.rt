//! Commands of sentences, or the first fault of one.
ghost use Rattle.std.specs.Prelude.{◌≡◌, [], None, Some, false, true, IsErrOf, OnOk};
ghost use Rattle.refusal.specs.declared.Refusal.{Refusal};
ghost use Rattle.collation.specs.Reference.{Reference};
ghost use Rattle.key_codec.specs.Draft.{IsDraft, IsSpelled};
ghost use Rattle.command.specs.declared.access.DataCommand.{DataCommand as DataView};
ghost use Rattle.command.specs.declared.access.Extent.{Extent as ExtentView};
ghost use Rattle.command.specs.declared.request.Command.{Command as CommandView};
ghost use Rattle.m_text.specs.Reading.{Answers};
ghost use Rattle.m_text.specs.Place.{ref_fault, spot_fault, spot_of, unless};
ghost use Rattle.script.specs.Commands.{command_of as command_of_spec, value_fault, data_fault, command_fault};
ghost use Rattle.script.specs.Sentence.{HasNoNames, HasNoValue, IsOfOperands, Spells, SpellsData, SpellsSome, SomeData, has_value, leaves_names, leaves_value};

use crate::lock::locking;
use crate::sentence::{DataSentence, Drafts, Sentence};
use crate::word::AloneWord;
use collation::{Direction, LONGEST_VALUE, Name, Text};
use command::{Command, DataCommand, Extent, Look};
use key_codec::{Key, KeyDraft, Place};
use lock_name::LockCommand;
use refusal::Refusal;
use std::alloc::Global;
use std::mem;

fn key_of(alloc: Global, draft: &KeyDraft) -> Result<Key, Refusal>
    requires { IsSpelled draft.now }
    ensures { (r : Reference) → IsDraft draft.now r → Answers (λ key. key) result (unless (ref_fault r) r) }
{
    draft.key(alloc)
}

fn place_of(alloc: Global, draft: &KeyDraft) -> Result<Place, Refusal>
    requires { IsSpelled draft.now }
    ensures { (r : Reference) → IsDraft draft.now r → Answers (λ place. place) result (unless (spot_fault (spot_of r)) (spot_of r)) }
{
    draft.place(alloc)
}

// The value that is kept, which is taken out, or its fault.
fn value_of(alloc: Global, value: &mut Text) -> Result<Text, Refusal>
    ensures value { Answers (λ v. v) result (unless (value_fault value.old) value.old) }
    ensures taken { OnOk result (value.new ≡ []) }
{
    if value.len() > LONGEST_VALUE {
        Err(Refusal::ValueTooLong)
    } else {
        Ok(mem::replace(value, Text::new(alloc)))
    }
}

fn set(alloc: Global, draft: &KeyDraft, value: &mut Text) -> Result<DataCommand, Refusal>
    requires { IsSpelled draft.now }
    ensures command { (r : Reference) → IsDraft draft.now r → Answers (λ c. c) result (unless (data_fault (DataCommand.Set r value.old)) (DataCommand.Set r value.old)) }
    ensures taken { OnOk result (value.new ≡ []) }
{
    let key = key_of(alloc, draft)?;
    let value = value_of(alloc, value)?;
    Ok(DataCommand::Set(key, value))
}

fn kill(alloc: Global, draft: &KeyDraft, extent: Extent) -> Result<DataCommand, Refusal>
    requires { IsSpelled draft.now }
    ensures { (r : Reference) → IsDraft draft.now r → Answers (λ c. c) result (unless (data_fault (DataCommand.Kill r extent)) (DataCommand.Kill r extent)) }
{
    let key = key_of(alloc, draft)?;
    Ok(DataCommand::Kill(key, extent))
}

fn increment(alloc: Global, draft: &KeyDraft, number: &mut Text) -> Result<DataCommand, Refusal>
    requires { IsSpelled draft.now }
    ensures command { (r : Reference) → IsDraft draft.now r → Answers (λ c. c) result (unless (data_fault (DataCommand.Increment r number.old)) (DataCommand.Increment r number.old)) }
    ensures taken { OnOk result (number.new ≡ []) }
{
    let key = key_of(alloc, draft)?;
    let number = value_of(alloc, number)?;
    Ok(DataCommand::Increment(key, number))
}

fn name_from(alloc: Global, name: &mut Text, direction: Direction) -> Result<DataCommand, Refusal>
    ensures command { Answers (λ c. c) result (unless (data_fault (DataCommand.Look (Look.Name (Some name.old) direction))) (DataCommand.Look (Look.Name (Some name.old) direction))) }
    ensures taken { OnOk result (name.new ≡ []) }
{
    let name = Name::new(mem::replace(name, Text::new(alloc)))?;
    Ok(DataCommand::Look(Look::Name(Some(name), direction)))
}

fn merge(alloc: Global, target: &KeyDraft, source: &KeyDraft) -> Result<DataCommand, Refusal>
    requires target { IsSpelled target.now }
    requires source { IsSpelled source.now }
    ensures { (r s : Reference) → IsDraft target.now r → IsDraft source.now s → Answers (λ c. c) result (unless (data_fault (DataCommand.Merge r s)) (DataCommand.Merge r s)) }
{
    let target = key_of(alloc, target)?;
    let source = key_of(alloc, source)?;
    Ok(DataCommand::Merge(target, source))
}

fn data(alloc: Global, draft: &KeyDraft) -> Result<DataCommand, Refusal>
    requires { IsSpelled draft.now }
    ensures { (r : Reference) → IsDraft draft.now r → Answers (λ c. c) result (unless (data_fault (DataCommand.Look (Look.Data r))) (DataCommand.Look (Look.Data r))) }
{
    let key = key_of(alloc, draft)?;
    Ok(DataCommand::Look(Look::Data(key)))
}

/// The key of a $GET without a default, or its fault.
#[inline(always)]
pub(crate) fn get_key(alloc: Global, draft: &KeyDraft) -> Result<Key, Refusal>
    requires { IsSpelled draft.now }
    ensures { (r : Reference) → IsDraft draft.now r → Answers (λ key. DataCommand.Look (Look.Get key None)) result (unless (data_fault (DataCommand.Look (Look.Get r None))) (DataCommand.Look (Look.Get r None))) }
{
    draft.key(alloc)
}

/// The key of a KILL, KVALUE or KSUBSCRIPTS, or its fault.
pub(crate) fn kill_key(alloc: Global, draft: &KeyDraft) -> Result<Key, Refusal>
    requires { IsSpelled draft.now }
    ensures { (extent : ExtentView) → (r : Reference) → IsDraft draft.now r → Answers (λ key. DataCommand.Kill key extent) result (unless (data_fault (DataCommand.Kill r extent)) (DataCommand.Kill r extent)) }
{
    draft.key(alloc)
}

/// The place of a $ORDER, or its fault.
pub(crate) fn order_place(
    alloc: Global,
    draft: &KeyDraft,
    direction: Direction,
) -> Result<Place, Refusal>
    requires { IsSpelled draft.now }
    ensures { (r : Reference) → IsDraft draft.now r → Answers (λ place. DataCommand.Look (Look.Order place direction)) result (unless (data_fault (DataCommand.Look (Look.Order (spot_of r) direction))) (DataCommand.Look (Look.Order (spot_of r) direction))) }
{
    draft.place(alloc)
}

/// The key of a SET to this value, or the first fault of both.
#[inline(always)]
pub(crate) fn set_key(alloc: Global, draft: &KeyDraft, value: &Text) -> Result<Key, Refusal>
    requires { IsSpelled draft.now }
    ensures { (r : Reference) → IsDraft draft.now r → Answers (λ key. DataCommand.Set key value.now) result (unless (data_fault (DataCommand.Set r value.now)) (DataCommand.Set r value.now)) }
{
    let key = key_of(alloc, draft)?;
    if value.len() > LONGEST_VALUE {
        return Err(Refusal::ValueTooLong);
    }
    Ok(key)
}

fn get(alloc: Global, draft: &KeyDraft) -> Result<DataCommand, Refusal>
    requires { IsSpelled draft.now }
    ensures { (r : Reference) → IsDraft draft.now r → Answers (λ c. c) result (unless (data_fault (DataCommand.Look (Look.Get r None))) (DataCommand.Look (Look.Get r None))) }
{
    let key = key_of(alloc, draft)?;
    Ok(DataCommand::Look(Look::Get(key, None)))
}

fn get_or(alloc: Global, draft: &KeyDraft, default: &mut Text) -> Result<DataCommand, Refusal>
    requires { IsSpelled draft.now }
    ensures command { (r : Reference) → IsDraft draft.now r → Answers (λ c. c) result (unless (data_fault (DataCommand.Look (Look.Get r (Some default.old)))) (DataCommand.Look (Look.Get r (Some default.old)))) }
    ensures taken { OnOk result (default.new ≡ []) }
{
    let key = key_of(alloc, draft)?;
    let default = value_of(alloc, default)?;
    Ok(DataCommand::Look(Look::Get(key, Some(default))))
}

fn order(alloc: Global, draft: &KeyDraft, direction: Direction) -> Result<DataCommand, Refusal>
    requires { IsSpelled draft.now }
    ensures { (r : Reference) → IsDraft draft.now r → Answers (λ c. c) result (unless (data_fault (DataCommand.Look (Look.Order (spot_of r) direction))) (DataCommand.Look (Look.Order (spot_of r) direction))) }
{
    match place_of(alloc, draft) {
        Ok(place) => Ok(DataCommand::Look(Look::Order(place, direction))),
        Err(refusal) => Err(refusal),
    }
}

fn query(alloc: Global, draft: &KeyDraft, direction: Direction) -> Result<DataCommand, Refusal>
    requires { IsSpelled draft.now }
    ensures { (r : Reference) → IsDraft draft.now r → Answers (λ c. c) result (unless (data_fault (DataCommand.Look (Look.Query (spot_of r) direction))) (DataCommand.Look (Look.Query (spot_of r) direction))) }
{
    match place_of(alloc, draft) {
        Ok(place) => Ok(DataCommand::Look(Look::Query(place, direction))),
        Err(refusal) => Err(refusal),
    }
}

// The data command, or its first fault from left to right. A value is taken out of the drafts.
fn finish_data(
    alloc: Global,
    sentence: DataSentence,
    drafts: &mut Drafts,
) -> Result<DataCommand, Refusal>
    requires { SomeData drafts.old sentence }
    ensures command { (c : DataView) → SpellsData drafts.old sentence c → Answers (λ x. x) result (unless (data_fault c) c) }
    ensures value { OnOk result (has_value sentence ≡ true → HasNoValue drafts.new) }
    ensures value_kept { has_value sentence ≡ false → drafts.new.value ≡ drafts.old.value }
    ensures names { drafts.new.names ≡ drafts.old.names }
{
    match sentence {
        DataSentence::Set => set(alloc, &drafts.first, &mut drafts.value),
        DataSentence::Kill(extent) => kill(alloc, &drafts.first, extent),
        DataSentence::Merge => merge(alloc, &drafts.first, &drafts.second),
        DataSentence::Increment => increment(alloc, &drafts.first, &mut drafts.value),
        DataSentence::Data => data(alloc, &drafts.first),
        DataSentence::Get => get(alloc, &drafts.first),
        DataSentence::GetOr => get_or(alloc, &drafts.first, &mut drafts.value),
        DataSentence::Order(direction) => order(alloc, &drafts.first, direction),
        DataSentence::Query(direction) => query(alloc, &drafts.first, direction),
        DataSentence::NameFrom(direction) => name_from(alloc, &mut drafts.value, direction),
        DataSentence::EndName(direction) => Ok(DataCommand::Look(Look::Name(None, direction))),
    }
}

// The command that is its word alone.
fn command_of(word: AloneWord) -> Command
    ensures { result ≡ command_of_spec word }
{
    match word {
        AloneWord::Start => Command::Start,
        AloneWord::Commit => Command::Commit,
        AloneWord::Rollback => Command::Rollback,
        AloneWord::Restart => Command::Restart,
        AloneWord::Halt => Command::Halt,
        AloneWord::Level => Command::Level,
        AloneWord::Restarts => Command::Restarts,
    }
}

// The command, or its first fault from left to right. Lock names and a value are taken out of the drafts. A command
// without operands takes no memory.
pub(crate) fn finish(
    alloc: Global,
    sentence: Sentence,
    drafts: &mut Drafts,
) -> Result<Command, Refusal>
    requires { SpellsSome drafts.old sentence }
    ensures command { (c : CommandView) → Spells drafts.old sentence c → Answers (λ x. x) result (unless (command_fault c) c) }
    ensures operands { IsErrOf result Refusal.OutOfMemory → IsOfOperands sentence }
    ensures value { OnOk result (leaves_value sentence ≡ true → HasNoValue drafts.new) }
    ensures value_kept { leaves_value sentence ≡ false → drafts.new.value ≡ drafts.old.value }
    ensures names { OnOk result (leaves_names sentence ≡ true → HasNoNames drafts.new) }
    ensures names_kept { leaves_names sentence ≡ false → drafts.new.names ≡ drafts.old.names }
{
    match sentence {
        Sentence::Access(sentence) => match finish_data(alloc, sentence, drafts) {
            Ok(command) => Ok(Command::Access(command)),
            Err(refusal) => Err(refusal),
        },
        Sentence::Release => Ok(Command::Lock(LockCommand::Release)),
        Sentence::Lock(form) => match drafts.names.take(alloc) {
            Ok(names) => Ok(Command::Lock(locking(form, names))),
            Err(refusal) => Err(refusal),
        },
        Sentence::Alone(word) => Ok(command_of(word)),
    }
}
