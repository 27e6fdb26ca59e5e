//! Units written as bytes, after what stands there. A refusal may leave a part of them.
ghost use Rattle.std.specs.Prelude.{◌≡◌, None, ◌≤◌, ◌+◌, ◌*◌, ◌++◌, [], ◌∷◌, length, OnOk, IsOk, vec_len, vec_capacity};
ghost use Rattle.std.specs.List.{flat_map};
ghost use Rattle.collation.specs.Limits.{most_jobs};
ghost use Rattle.key_codec.specs.Grown.{GoesOnFrom};
ghost use Rattle.journal.specs.Format as format;
ghost use Rattle.journal.specs.declared.unit.Unit.TheVariants.{Lone, Whole, Lock, Back, End};
ghost use Rattle.command.specs.declared.access.DataCommand.TheVariants.{Set, Kill};
ghost use Rattle.command.specs.declared.access.Answer.TheVariants.{Done, Value};
ghost use Rattle.journal.specs.Stored.{FitsUnit, FitsString, FitsReference, FitsName, FitNames, FitsLook, FitsCommand, FitsAnswer, FitsLock, Each};

use crate::buffer::{
    make_room, push_byte, push_head, push_number, write_bytes, write_head, write_number,
};
use crate::exchanges::ExchangeLog;
use collation::{Direction, Job, Name};
use command::{Answer, DataCommand, Extent, Look};
use key_codec::{Key, Place};
use lock_name::{LockCommand, LockName, LockNames};
use std::alloc::AllocError;

fn push_string(bytes: &mut Vec<u8>, string: &[u8]) -> Result<(), AllocError>
    ensures bytes { OnOk result (bytes.new.items ≡ bytes.old.items ++ format.string_bytes string.now) }
    ensures fits { FitsString string.now }
    ensures kept { GoesOnFrom bytes.old.items bytes.new.items }
    ensures sure { vec_len bytes.old + (length string.now + 9) ≤ vec_capacity bytes.old → IsOk result }
    ensures capacity { vec_capacity bytes.old ≤ vec_capacity bytes.new }
{
    make_room(bytes, string.len() + 9)?;
    write_number(bytes, string.len() as u64);
    write_bytes(bytes, string);
    Ok(())
}

// A key without its end byte 0, where it has one.
#[tactic(auto, unfolding(crate::specs::Format::without_end))]
fn without_end(key: &[u8]) -> &[u8]
    ensures { result.now ≡ format.without_end key.now }
{
    if key.ends_with(&[0]) {
        &key[..key.len() - 1]
    } else {
        key
    }
}

fn push_key(bytes: &mut Vec<u8>, key: &Key) -> Result<(), AllocError>
    ensures bytes { OnOk result (bytes.new.items ≡ bytes.old.items ++ format.reference_bytes key.now) }
    ensures fits { OnOk result (FitsReference key.now) }
    ensures kept { GoesOnFrom bytes.old.items bytes.new.items }
    ensures capacity { vec_capacity bytes.old ≤ vec_capacity bytes.new }
{
    push_string(bytes, without_end(key.as_slice()))
}

fn push_name(bytes: &mut Vec<u8>, name: &LockName) -> Result<(), AllocError>
    ensures bytes { OnOk result (bytes.new.items ≡ bytes.old.items ++ format.name_bytes name.now) }
    ensures fits { OnOk result (FitsName name.now) }
    ensures kept { GoesOnFrom bytes.old.items bytes.new.items }
    ensures capacity { vec_capacity bytes.old ≤ vec_capacity bytes.new }
{
    push_byte(bytes, u8::from(name.has_caret()))?;
    push_key(bytes, name.key())
}

fn push_each(bytes: &mut Vec<u8>, names: &[LockName]) -> Result<(), AllocError>
    ensures bytes { OnOk result (bytes.new.items ≡ bytes.old.items ++ flat_map format.name_bytes names.now) }
    ensures fits { OnOk result (Each FitsName names.now) }
    ensures kept { GoesOnFrom bytes.old.items bytes.new.items }
    ensures capacity { vec_capacity bytes.old ≤ vec_capacity bytes.new }
{
    for name in names {
        push_name(bytes, name)?;
    }
    Ok(())
}

fn push_names(bytes: &mut Vec<u8>, names: &LockNames) -> Result<(), AllocError>
    ensures bytes { OnOk result (bytes.new.items ≡ bytes.old.items ++ format.names_bytes names.now) }
    ensures fits { OnOk result (FitNames names.now) }
    ensures kept { GoesOnFrom bytes.old.items bytes.new.items }
    ensures capacity { vec_capacity bytes.old ≤ vec_capacity bytes.new }
{
    let names = names.as_slice();
    push_number(bytes, names.len() as u64)?;
    push_each(bytes, names)
}

fn order_kind(place: &Place, direction: Direction) -> u8
    ensures kind { result ≡ format.order_kind place.now.is_open direction }
    ensures low { result ≤ 9 }
{
    match direction {
        Direction::Forward => { if place.is_open() { 8 } else { 6 } }
        Direction::Backward => { if place.is_open() { 9 } else { 7 } }
    }
}

fn query_kind(place: &Place, direction: Direction) -> u8
    ensures { result ≡ format.query_kind place.now.is_open direction }
{
    match direction {
        Direction::Forward => { if place.is_open() { 12 } else { 10 } }
        Direction::Backward => { if place.is_open() { 13 } else { 11 } }
    }
}

#[tactic(auto, using(crate::specs::laws::Reading::look_low))]
fn look_kind(look: &Look) -> u8
    ensures kind { result ≡ format.look_kind look.now }
    ensures low { result ≤ 25 }
{
    match look {
        Look::Data(_) => 3,
        Look::Get(_, None) => 4,
        Look::Get(_, Some(_)) => 5,
        Look::Order(place, direction) => order_kind(place, *direction),
        Look::Query(place, direction) => query_kind(place, *direction),
        Look::Name(start, direction) => name_kind(start, *direction),
    }
}

fn name_kind(start: &Option<Name>, direction: Direction) -> u8
    ensures { result ≡ format.name_kind start.now direction }
{
    match (start, direction) {
        (Some(_), Direction::Forward) => 22,
        (Some(_), Direction::Backward) => 23,
        (None, Direction::Forward) => 24,
        (None, Direction::Backward) => 25,
    }
}

fn push_look(bytes: &mut Vec<u8>, look: &Look) -> Result<(), AllocError>
    ensures bytes { OnOk result (bytes.new.items ≡ bytes.old.items ++ format.look_bytes look.now) }
    ensures fits { OnOk result (FitsLook look.now) }
    ensures kept { GoesOnFrom bytes.old.items bytes.new.items }
    ensures capacity { vec_capacity bytes.old ≤ vec_capacity bytes.new }
{
    match look {
        Look::Data(key) => push_key(bytes, key),
        Look::Get(key, None) => push_key(bytes, key),
        Look::Get(key, Some(default)) => {
            push_key(bytes, key)?;
            push_string(bytes, default.as_slice())
        }
        Look::Order(place, _) => push_key(bytes, place.key()),
        Look::Query(place, _) => push_key(bytes, place.key()),
        Look::Name(Some(start), _) => push_string(bytes, start.as_slice()),
        Look::Name(None, _) => Ok(()),
    }
}

fn kill_kind(extent: Extent) -> u8
    ensures kind { result ≡ format.kill_kind extent }
    ensures low { result ≤ 20 }
{
    match extent {
        Extent::All => 1,
        Extent::Value => 19,
        Extent::Below => 20,
    }
}

fn command_kind(command: &DataCommand) -> u8
    ensures kind { result ≡ format.command_kind command.now }
    ensures low { result ≤ 25 }
{
    match command {
        DataCommand::Set(_, _) => 0,
        DataCommand::Kill(_, extent) => kill_kind(*extent),
        DataCommand::Merge(_, _) => 2,
        DataCommand::Increment(_, _) => 21,
        DataCommand::Look(look) => look_kind(look),
    }
}

fn push_command(bytes: &mut Vec<u8>, command: &DataCommand) -> Result<(), AllocError>
    ensures bytes { OnOk result (bytes.new.items ≡ bytes.old.items ++ format.command_bytes command.now) }
    ensures fits { OnOk result (FitsCommand command.now) }
    ensures kept { GoesOnFrom bytes.old.items bytes.new.items }
    ensures capacity { vec_capacity bytes.old ≤ vec_capacity bytes.new }
{
    match command {
        DataCommand::Set(key, value) => {
            push_key(bytes, key)?;
            push_string(bytes, value.as_slice())
        }
        DataCommand::Kill(key, _) => push_key(bytes, key),
        DataCommand::Merge(target, source) => {
            push_key(bytes, target)?;
            push_key(bytes, source)
        }
        DataCommand::Increment(key, number) => {
            push_key(bytes, key)?;
            push_string(bytes, number.as_slice())
        }
        DataCommand::Look(look) => push_look(bytes, look),
    }
}

fn answer_kind(answer: &Answer) -> u8
    ensures kind { result ≡ format.answer_kind answer.now }
    ensures low { result ≤ 3 }
{
    match answer {
        Answer::Done => 0,
        Answer::Value(_) => 1,
        Answer::Number(_) => 2,
        Answer::Found(_) => 3,
    }
}

fn push_answer(bytes: &mut Vec<u8>, answer: &Answer) -> Result<(), AllocError>
    ensures bytes { OnOk result (bytes.new.items ≡ bytes.old.items ++ format.answer_bytes answer.now) }
    ensures fits { OnOk result (FitsAnswer answer.now) }
    ensures kept { GoesOnFrom bytes.old.items bytes.new.items }
    ensures capacity { vec_capacity bytes.old ≤ vec_capacity bytes.new }
{
    match answer {
        Answer::Done => Ok(()),
        Answer::Value(text) => push_string(bytes, text.as_slice()),
        Answer::Number(number) => push_number(bytes, *number),
        Answer::Found(key) => push_key(bytes, key),
    }
}

// One tag for both kinds.
fn answered_tag(command: &DataCommand, answer: &Answer) -> u8
    ensures { result ≡ 4 * format.command_kind command.now + format.answer_kind answer.now }
{
    4 * command_kind(command) + answer_kind(answer)
}

// A command with its answer, after their tag.
fn push_tagged(
    bytes: &mut Vec<u8>,
    command: &DataCommand,
    answer: &Answer,
) -> Result<(), AllocError>
    ensures bytes { OnOk result (bytes.new.items ≡ bytes.old.items ++ (format.command_bytes command.now ++ format.answer_bytes answer.now)) }
    ensures command_fits { OnOk result (FitsCommand command.now) }
    ensures answer_fits { OnOk result (FitsAnswer answer.now) }
    ensures kept { GoesOnFrom bytes.old.items bytes.new.items }
    ensures capacity { vec_capacity bytes.old ≤ vec_capacity bytes.new }
{
    push_command(bytes, command)?;
    push_answer(bytes, answer)
}

// A command with its answer, and their tag before them.
pub(crate) fn push_answered(
    bytes: &mut Vec<u8>,
    command: &DataCommand,
    answer: &Answer,
) -> Result<(), AllocError>
    ensures bytes { OnOk result (bytes.new.items ≡ bytes.old.items ++ format.answered_bytes command.now answer.now) }
    ensures command_fits { OnOk result (FitsCommand command.now) }
    ensures answer_fits { OnOk result (FitsAnswer answer.now) }
    ensures kept { GoesOnFrom bytes.old.items bytes.new.items }
{
    push_byte(bytes, answered_tag(command, answer))?;
    push_tagged(bytes, command, answer)
}

fn lock_kind(command: &LockCommand) -> u8
    ensures kind { result ≡ format.lock_kind command.now }
    ensures low { result ≤ 18 }
{
    match command {
        LockCommand::Release => 15,
        LockCommand::Only(_) => 16,
        LockCommand::More(_) => 17,
        LockCommand::Fewer(_) => 18,
    }
}

fn lock_flags(inside: bool, had: bool) -> u8
    ensures flags { result ≡ format.lock_flags inside had }
    ensures low { result ≤ 3 }
{
    match (inside, had) {
        (false, false) => 0,
        (false, true) => 1,
        (true, false) => 2,
        (true, true) => 3,
    }
}

fn push_lock_names(bytes: &mut Vec<u8>, command: &LockCommand) -> Result<(), AllocError>
    ensures bytes { OnOk result (bytes.new.items ≡ bytes.old.items ++ format.lock_bytes command.now) }
    ensures fits { OnOk result (FitsLock command.now) }
    ensures kept { GoesOnFrom bytes.old.items bytes.new.items }
    ensures capacity { vec_capacity bytes.old ≤ vec_capacity bytes.new }
{
    match command {
        LockCommand::Release => Ok(()),
        LockCommand::Only(names) => push_names(bytes, names),
        LockCommand::More(names) => push_names(bytes, names),
        LockCommand::Fewer(names) => push_names(bytes, names),
    }
}

// The unit of a data command outside a transaction.
pub(crate) fn push_lone(
    bytes: &mut Vec<u8>,
    job: Job,
    command: &DataCommand,
    answer: &Answer,
) -> Result<(), AllocError>
    ensures bytes { OnOk result (bytes.new.items ≡ bytes.old.items ++ format.unit_bytes (Lone job command.now answer.now)) }
    ensures fits { OnOk result (FitsUnit (Lone job command.now answer.now)) }
    ensures kept { GoesOnFrom bytes.old.items bytes.new.items }
    ensures capacity { vec_capacity bytes.old ≤ vec_capacity bytes.new }
{
    match (command, answer) {
        (DataCommand::Set(key, value), Answer::Done) => {
            push_set(bytes, job, key, value.as_slice())
        }
        (DataCommand::Look(Look::Get(key, None)), Answer::Value(value)) => {
            push_get(bytes, job, key, value.as_slice())
        }
        (DataCommand::Look(Look::Order(place, direction)), Answer::Value(value)) => {
            push_order(bytes, job, place, *direction, value.as_slice())
        }
        (DataCommand::Kill(key, extent), Answer::Done) => push_kill(bytes, job, key, *extent),
        _ => push_other(bytes, job, command, answer),
    }
}

// The same, part after part.
fn push_other(
    bytes: &mut Vec<u8>,
    job: Job,
    command: &DataCommand,
    answer: &Answer,
) -> Result<(), AllocError>
    ensures bytes { OnOk result (bytes.new.items ≡ bytes.old.items ++ format.unit_bytes (Lone job command.now answer.now)) }
    ensures fits { OnOk result (FitsUnit (Lone job command.now answer.now)) }
    ensures kept { GoesOnFrom bytes.old.items bytes.new.items }
    ensures capacity { vec_capacity bytes.old ≤ vec_capacity bytes.new }
{
    push_head(bytes, job, answered_tag(command, answer))?;
    push_tagged(bytes, command, answer)
}

// A key without its end and a string, where there is room for them and for a length of nine bytes before each.
fn write_pair(bytes: &mut Vec<u8>, key: &[u8], value: &[u8])
    requires { vec_len bytes.old + (length key.now + length value.now + 18) ≤ vec_capacity bytes.old }
    ensures items { bytes.new.items ≡ bytes.old.items ++ (format.string_bytes key.now ++ format.string_bytes value.now) }
    ensures capacity { vec_capacity bytes.old ≤ vec_capacity bytes.new }
{
    write_number(bytes, key.len() as u64);
    write_bytes(bytes, key);
    write_number(bytes, value.len() as u64);
    write_bytes(bytes, value);
}

// A head, a key and a string, with one look for room.
fn push_pair(
    bytes: &mut Vec<u8>,
    job: Job,
    tag: u8,
    key: &Key,
    value: &[u8],
) -> Result<(), AllocError>
    ensures bytes { OnOk result (bytes.new.items ≡ bytes.old.items ++ (format.number_bytes job ++ tag ∷ (format.reference_bytes key.now ++ format.string_bytes value.now))) }
    ensures reference { OnOk result (FitsReference key.now) }
    ensures string { OnOk result (FitsString value.now) }
    ensures low { OnOk result (1 ≤ job) }
    ensures high { OnOk result (job ≤ most_jobs) }
    ensures kept { GoesOnFrom bytes.old.items bytes.new.items }
    ensures capacity { vec_capacity bytes.old ≤ vec_capacity bytes.new }
{
    let key = without_end(key.as_slice());
    let Some(more) = (key.len() + value.len()).checked_add(28) else {
        return Err(AllocError);
    };
    make_room(bytes, more)?;
    write_head(bytes, job, tag);
    write_pair(bytes, key, value);
    Ok(())
}

// A tag, a key and a string, with one look for room.
fn push_tagged_pair(bytes: &mut Vec<u8>, tag: u8, key: &Key, value: &[u8]) -> Result<(), AllocError>
    ensures bytes { OnOk result (bytes.new.items ≡ bytes.old.items ++ tag ∷ (format.reference_bytes key.now ++ format.string_bytes value.now)) }
    ensures reference { OnOk result (FitsReference key.now) }
    ensures string { OnOk result (FitsString value.now) }
    ensures kept { GoesOnFrom bytes.old.items bytes.new.items }
{
    let key = without_end(key.as_slice());
    let Some(more) = (key.len() + value.len()).checked_add(19) else {
        return Err(AllocError);
    };
    make_room(bytes, more)?;
    bytes.push_reserved(tag);
    write_pair(bytes, key, value);
    Ok(())
}

// The exchange of a SET, from its key and its value.
pub(crate) fn push_set_done(bytes: &mut Vec<u8>, key: &Key, value: &[u8]) -> Result<(), AllocError>
    ensures bytes { OnOk result (bytes.new.items ≡ bytes.old.items ++ format.answered_bytes (Set key.now value.now) Done) }
    ensures fits { OnOk result (FitsCommand (Set key.now value.now)) }
    ensures kept { GoesOnFrom bytes.old.items bytes.new.items }
{
    push_tagged_pair(bytes, 0, key, value)
}

// The exchange of a $GET without a default, from its key and what it was answered.
pub(crate) fn push_get_done(bytes: &mut Vec<u8>, key: &Key, value: &[u8]) -> Result<(), AllocError>
    ensures bytes { OnOk result (bytes.new.items ≡ bytes.old.items ++ format.answered_bytes (DataCommand.Look (Look.Get key.now None)) (Value value.now)) }
    ensures command_fits { OnOk result (FitsCommand (DataCommand.Look (Look.Get key.now None))) }
    ensures answer_fits { OnOk result (FitsAnswer (Value value.now)) }
    ensures kept { GoesOnFrom bytes.old.items bytes.new.items }
{
    push_tagged_pair(bytes, 17, key, value)
}

// The unit of a SET outside a transaction, from its key and its value.
pub(crate) fn push_set(
    bytes: &mut Vec<u8>,
    job: Job,
    key: &Key,
    value: &[u8],
) -> Result<(), AllocError>
    ensures bytes { OnOk result (bytes.new.items ≡ bytes.old.items ++ format.unit_bytes (Lone job (Set key.now value.now) Done)) }
    ensures fits { OnOk result (FitsUnit (Lone job (Set key.now value.now) Done)) }
    ensures kept { GoesOnFrom bytes.old.items bytes.new.items }
    ensures capacity { vec_capacity bytes.old ≤ vec_capacity bytes.new }
{
    push_pair(bytes, job, 0, key, value)
}

// The unit of a $GET without a default outside a transaction, from its key and what it was answered.
pub(crate) fn push_get(
    bytes: &mut Vec<u8>,
    job: Job,
    key: &Key,
    value: &[u8],
) -> Result<(), AllocError>
    ensures bytes { OnOk result (bytes.new.items ≡ bytes.old.items ++ format.unit_bytes (Lone job (DataCommand.Look (Look.Get key.now None)) (Value value.now))) }
    ensures fits { OnOk result (FitsUnit (Lone job (DataCommand.Look (Look.Get key.now None)) (Value value.now))) }
    ensures kept { GoesOnFrom bytes.old.items bytes.new.items }
    ensures capacity { vec_capacity bytes.old ≤ vec_capacity bytes.new }
{
    push_pair(bytes, job, 17, key, value)
}

// The unit of a $ORDER outside a transaction, from its place and what it was answered.
pub(crate) fn push_order(
    bytes: &mut Vec<u8>,
    job: Job,
    place: &Place,
    direction: Direction,
    value: &[u8],
) -> Result<(), AllocError>
    ensures bytes { OnOk result (bytes.new.items ≡ bytes.old.items ++ format.unit_bytes (Lone job (DataCommand.Look (Look.Order place.now direction)) (Value value.now))) }
    ensures fits { OnOk result (FitsUnit (Lone job (DataCommand.Look (Look.Order place.now direction)) (Value value.now))) }
    ensures kept { GoesOnFrom bytes.old.items bytes.new.items }
    ensures capacity { vec_capacity bytes.old ≤ vec_capacity bytes.new }
{
    let tag = 4 * order_kind(place, direction) + 1;
    push_pair(bytes, job, tag, place.key(), value)
}

// The unit of a KILL, KVALUE or KSUBSCRIPTS outside a transaction, from its key.
pub(crate) fn push_kill(
    bytes: &mut Vec<u8>,
    job: Job,
    key: &Key,
    extent: Extent,
) -> Result<(), AllocError>
    ensures bytes { OnOk result (bytes.new.items ≡ bytes.old.items ++ format.unit_bytes (Lone job (Kill key.now extent) Done)) }
    ensures fits { OnOk result (FitsUnit (Lone job (Kill key.now extent) Done)) }
    ensures kept { GoesOnFrom bytes.old.items bytes.new.items }
    ensures capacity { vec_capacity bytes.old ≤ vec_capacity bytes.new }
{
    push_head(bytes, job, 4 * kill_kind(extent))?;
    push_key(bytes, key)
}

// The unit of a LOCK.
pub(crate) fn push_lock(
    bytes: &mut Vec<u8>,
    job: Job,
    inside: bool,
    command: &LockCommand,
    had: bool,
) -> Result<(), AllocError>
    ensures bytes { OnOk result (bytes.new.items ≡ bytes.old.items ++ format.unit_bytes (Lock job inside command.now had)) }
    ensures fits { OnOk result (FitsUnit (Lock job inside command.now had)) }
    ensures kept { GoesOnFrom bytes.old.items bytes.new.items }
    ensures capacity { vec_capacity bytes.old ≤ vec_capacity bytes.new }
{
    push_head(bytes, job, 4 * lock_kind(command) + lock_flags(inside, had))?;
    push_lock_names(bytes, command)
}

// The unit of a rollback or restart.
pub(crate) fn push_back(bytes: &mut Vec<u8>, job: Job) -> Result<(), AllocError>
    ensures bytes { OnOk result (bytes.new.items ≡ bytes.old.items ++ format.unit_bytes (Back job)) }
    ensures fits { OnOk result (FitsUnit (Back job)) }
    ensures kept { GoesOnFrom bytes.old.items bytes.new.items }
    ensures capacity { vec_capacity bytes.old ≤ vec_capacity bytes.new }
{
    push_head(bytes, job, 57)
}

// The unit of a session's end.
pub(crate) fn push_end(bytes: &mut Vec<u8>, job: Job) -> Result<(), AllocError>
    ensures bytes { OnOk result (bytes.new.items ≡ bytes.old.items ++ format.unit_bytes (End job)) }
    ensures fits { OnOk result (FitsUnit (End job)) }
    ensures kept { GoesOnFrom bytes.old.items bytes.new.items }
    ensures capacity { vec_capacity bytes.old ≤ vec_capacity bytes.new }
{
    push_head(bytes, job, 58)
}

// The same, where there is room for ten bytes.
pub(crate) fn write_end(bytes: &mut Vec<u8>, job: Job)
    requires { vec_len bytes.old + 10 ≤ vec_capacity bytes.old }
    ensures bytes { bytes.new.items ≡ bytes.old.items ++ format.unit_bytes (End job) }
    ensures fits { FitsUnit (End job) }
    ensures len { vec_len bytes.new ≤ vec_len bytes.old + 10 }
    ensures capacity { vec_capacity bytes.old ≤ vec_capacity bytes.new }
{
    write_head(bytes, job, 58);
}

// The unit of a transaction, from its exchanges' bytes.
pub(crate) fn push_whole(
    bytes: &mut Vec<u8>,
    job: Job,
    exchanges: &ExchangeLog,
) -> Result<(), AllocError>
    ensures bytes { OnOk result (bytes.new.items ≡ bytes.old.items ++ format.unit_bytes (Whole job exchanges.now)) }
    ensures fits { OnOk result (FitsUnit (Whole job exchanges.now)) }
    ensures kept { GoesOnFrom bytes.old.items bytes.new.items }
    ensures capacity { vec_capacity bytes.old ≤ vec_capacity bytes.new }
{
    let text = exchanges.as_slice();
    make_room(bytes, text.len() + 19)?;
    write_head(bytes, job, 56);
    write_number(bytes, exchanges.len());
    write_bytes(bytes, text);
    Ok(())
}
