//! Commands on keys, built for one step.
ghost use Rattle.std.specs.Prelude.{◌≡◌, false, IfErr, IfOk, OnOk};
ghost use Rattle.typed_calls.specs.Commands.{data_command as data_of, get_command as get_of, increment_command as increment_of, lock_command as lock_of_key, lock_of, merge_command as merge_of, name_command as name_of, order_command as order_of, query_command as query_of, start_of as start_by};
ghost use Rattle.typed_calls.specs.Typed.{IsMemory, IsNameCause, IsNumberCause, IsPlaceCause, IsQueryCause, IsWithin};

use crate::keys::{open_below, place_below};
use canonic_number::is_canonic;
use collation::{Direction, LONGEST_VALUE, Name, Text};
use command::{Command, DataCommand, Extent, Look};
use key_codec::{Key, Place};
use lock_name::{LockCommand, LockName, LockNames};
use refusal::Refusal;
use std::alloc::Global;

/// The forms of LOCK with a name.
#[derive(Clone, Copy, Debug, PartialEq, Eq)]
pub enum LockForm {
    /// Without a sign: all names of the job are released, and then the name is asked for.
    Only,
    /// With +: the name is asked for too.
    More,
    /// With -: one count of the name is given back.
    Fewer,
}

impl LockForm {
    // LOCK of these names in this form.
    fn of(self, names: LockNames) -> LockCommand
        ensures { result ≡ lock_of self names }
    {
        match self {
            LockForm::Only => LockCommand::Only(names),
            LockForm::More => LockCommand::More(names),
            LockForm::Fewer => LockCommand::Fewer(names),
        }
    }
}

/// KILL, KVALUE or KSUBSCRIPTS of the reference.
///
/// Refusals: `OutOfMemory`.
pub fn kill_command(key: &Key, extent: Extent) -> Result<Command, Refusal>
    ensures ok { IfOk result (λ command. command ≡ Command.Access (DataCommand.Kill key.now extent)) }
    ensures err { IfErr result (λ refusal. IsMemory refusal) }
{
    let key = key.clone()?;
    Ok(Command::Access(DataCommand::Kill(key, extent)))
}

/// MERGE of what is at and under `from` to `to`.
///
/// Refusals: `OutOfMemory`.
pub fn merge_command(to: &Key, from: &Key) -> Result<Command, Refusal>
    ensures ok { IfOk result (λ command. command ≡ merge_of to.now from.now) }
    ensures err { IfErr result (λ refusal. IsMemory refusal) }
{
    let to = to.clone()?;
    let from = from.clone()?;
    Ok(Command::Access(DataCommand::Merge(to, from)))
}

/// $INCREMENT by this number.
///
/// Refusals: `BadLine` where it isn't canonic, `ValueTooLong` over 32,767 bytes; `OutOfMemory`.
pub fn increment_command(alloc: Global, key: &Key, number: &[u8]) -> Result<Command, Refusal>
    ensures ok { IfOk result (λ command. command ≡ increment_of key.now number.now) }
    ensures within { OnOk result (IsWithin (λ refusal. IsNumberCause number.now refusal)) }
    ensures err { IfErr result (λ refusal. IsNumberCause number.now refusal) }
{
    if !is_canonic(number) {
        return Err(Refusal::BadLine);
    }
    if number.len() > LONGEST_VALUE {
        return Err(Refusal::ValueTooLong);
    }
    let key = key.clone()?;
    let number = Text::from_slice(alloc, number)?;
    Ok(Command::Access(DataCommand::Increment(key, number)))
}

/// $DATA of the reference.
///
/// Refusals: `OutOfMemory`.
pub fn data_command(key: &Key) -> Result<Command, Refusal>
    ensures ok { IfOk result (λ command. command ≡ data_of key.now) }
    ensures err { IfErr result (λ refusal. IsMemory refusal) }
{
    let key = key.clone()?;
    Ok(Command::Access(DataCommand::Look(Look::Data(key))))
}

/// $GET of the reference, without a default.
///
/// Refusals: `OutOfMemory`.
pub fn get_command(key: &Key) -> Result<Command, Refusal>
    ensures ok { IfOk result (λ command. command ≡ get_of key.now) }
    ensures err { IfErr result (λ refusal. IsMemory refusal) }
{
    let key = key.clone()?;
    Ok(Command::Access(DataCommand::Look(Look::Get(key, None))))
}

/// $ORDER from this subscript below the key; from an empty one, the first or, backward, the last.
///
/// Refusals: `TooManySubscripts` below a key with 31, `SubscriptTooLong` over 255 bytes; `OutOfMemory`.
pub fn order_command(
    alloc: Global,
    level: &Key,
    start: &[u8],
    direction: Direction,
) -> Result<Command, Refusal>
    ensures ok { IfOk result (λ command. command ≡ order_of level.now start.now direction) }
    ensures within { OnOk result (IsWithin (λ refusal. IsPlaceCause level.now start.now refusal)) }
    ensures err { IfErr result (λ refusal. IsPlaceCause level.now start.now refusal) }
{
    let place = place_below(alloc, level, start)?;
    Ok(Command::Access(DataCommand::Look(Look::Order(place, direction))))
}

// The place of the key.
fn closed_at(key: &Key) -> Result<Place, Refusal>
    ensures ok { IfOk result (λ place. place ≡ record { reference = key.now; is_open = false }) }
    ensures within { OnOk result (IsWithin (λ refusal. IsMemory refusal)) }
    ensures err { IfErr result (λ refusal. IsMemory refusal) }
{
    let key = key.clone()?;
    Ok(Place::new(key, false))
}

/// The place of the key, or of an empty subscript below it.
///
/// Refusals: `TooManySubscripts` where an empty subscript would follow a key with 31; `OutOfMemory`.
pub fn place_at(key: &Key, is_open: bool) -> Result<Place, Refusal>
    ensures ok { IfOk result (λ place. place ≡ record { reference = key.now; is_open = is_open }) }
    ensures within { OnOk result (IsWithin (λ refusal. IsQueryCause key.now is_open refusal)) }
    ensures err { IfErr result (λ refusal. IsQueryCause key.now is_open refusal) }
{
    if is_open {
        open_below(key)
    } else {
        closed_at(key)
    }
}

/// $QUERY from the key, or from an empty subscript below it.
///
/// Refusals: `TooManySubscripts` where an empty subscript would follow a key with 31; `OutOfMemory`.
pub fn query_command(key: &Key, is_open: bool, direction: Direction) -> Result<Command, Refusal>
    ensures ok { IfOk result (λ command. command ≡ query_of key.now is_open direction) }
    ensures within { OnOk result (IsWithin (λ refusal. IsQueryCause key.now is_open refusal)) }
    ensures err { IfErr result (λ refusal. IsQueryCause key.now is_open refusal) }
{
    let place = place_at(key, is_open)?;
    Ok(Command::Access(DataCommand::Look(Look::Query(place, direction))))
}

// The name of these bytes, and none where they are empty.
fn start_of(alloc: Global, start: &[u8]) -> Result<Option<Name>, Refusal>
    ensures ok { IfOk result (λ name. name ≡ start_by start.now) }
    ensures within { OnOk result (IsWithin (λ refusal. IsNameCause start.now refusal)) }
    ensures err { IfErr result (λ refusal. IsNameCause start.now refusal) }
{
    if start.is_empty() {
        return Ok(None);
    }
    let bytes = Text::from_slice(alloc, start)?;
    match Name::new(bytes) {
        Ok(name) => Ok(Some(name)),
        Err(refusal) => Err(refusal),
    }
}

/// $ORDER of names from this one; from an empty one, the first or, backward, the last.
///
/// Refusals: `BadName` where it is neither empty nor a name; `OutOfMemory`.
pub fn name_command(alloc: Global, start: &[u8], direction: Direction) -> Result<Command, Refusal>
    ensures ok { IfOk result (λ command. command ≡ name_of start.now direction) }
    ensures within { OnOk result (IsWithin (λ refusal. IsNameCause start.now refusal)) }
    ensures err { IfErr result (λ refusal. IsNameCause start.now refusal) }
{
    let name = start_of(alloc, start)?;
    Ok(Command::Access(DataCommand::Look(Look::Name(name, direction))))
}

/// LOCK of these names.
pub fn lock_names_command(form: LockForm, names: Vec<LockName>) -> Command
    ensures { result ≡ Command.Lock (lock_of form names.items) }
{
    Command::Lock(form.of(LockNames::new(names)))
}

/// LOCK of the key's reference, with its caret.
///
/// Refusals: `OutOfMemory`.
pub fn lock_command(alloc: Global, form: LockForm, key: &Key) -> Result<Command, Refusal>
    ensures ok { IfOk result (λ command. command ≡ lock_of_key form key.now) }
    ensures err { IfErr result (λ refusal. IsMemory refusal) }
{
    let key = key.clone()?;
    let mut names = Vec::new(alloc);
    names.push(LockName::new(true, key))?;
    Ok(Command::Lock(form.of(LockNames::new(names))))
}
