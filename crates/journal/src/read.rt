//! Units read back from bytes. Each reader answers what it read and the bytes after it.
ghost use Rattle.std.specs.Prelude.{◌≡◌, [], ◌∷◌, ◌++◌, None, Some, IfErr, IfOk};
ghost use Rattle.std.specs.Int.{w16, w64};
ghost use Rattle.journal.specs.Reading as reading;

use crate::unit::{Exchange, Exchanges, Unit};
use collation::{Direction, Job, Name, Ref, Text};
use command::{Answer, DataCommand, Extent, Look};
use key_codec::{Key, Place, decode};
use lock_name::{LockCommand, LockName, LockNames};
use smallvec::SmallVec;
use std::alloc::{AllocError, Global};

// Why nothing was read: memory was refused, or the bytes are no such thing.
pub(crate) enum Unread {
    Memory,
    Form,
}

impl From<AllocError> for Unread {
    ghost use Rattle.journal.specs.declared.read.Unread.{Unread};

    ghost from_gives = { λ _ e. e ≡ Unread.Memory };

    fn from(_: AllocError) -> Unread {
        Unread::Memory
    }
}

// A number, if it is at least so much: a smaller one has a shorter form.
fn at_least(least: u64, number: u64, rest: &[u8]) -> Result<(u64, &[u8]), Unread>
    ensures some { IfOk result (λ p. reading.at_least least number rest.now ≡ Some (p.0, p.1.now)) }
    ensures none { IfErr result (λ e. reading.at_least least number rest.now ≡ None) }
{
    if least <= number {
        Ok((number, rest))
    } else {
        Err(Unread::Form)
    }
}

fn read_two(bytes: &[u8]) -> Result<(u64, &[u8]), Unread>
    ensures some { IfOk result (λ p. reading.wide_at w16 254 bytes.now ≡ Some (p.0, p.1.now)) }
    ensures none { IfErr result (λ e. reading.wide_at w16 254 bytes.now ≡ None) }
{
    match bytes.split_first_chunk::<2>() {
        Some((head, rest)) => at_least(254, u64::from(u16::from_be_bytes(*head)), rest),
        None => Err(Unread::Form),
    }
}

fn read_eight(bytes: &[u8]) -> Result<(u64, &[u8]), Unread>
    ensures some { IfOk result (λ p. reading.wide_at w64 65536 bytes.now ≡ Some (p.0, p.1.now)) }
    ensures none { IfErr result (λ e. reading.wide_at w64 65536 bytes.now ≡ None) }
{
    match bytes.split_first_chunk::<8>() {
        Some((head, rest)) => at_least(65536, u64::from_be_bytes(*head), rest),
        None => Err(Unread::Form),
    }
}

#[tactic(auto, unfolding(crate::specs::Reading::number_at))]
fn read_number(bytes: &[u8]) -> Result<(u64, &[u8]), Unread>
    ensures some { IfOk result (λ p. reading.number_at bytes.now ≡ Some (p.0, p.1.now)) }
    ensures none { IfErr result (λ e. reading.number_at bytes.now ≡ None) }
{
    let [first, rest @ ..] = bytes else {
        return Err(Unread::Form);
    };
    if *first < 254 {
        return Ok((u64::from(*first), rest));
    }
    if *first == 254 {
        read_two(rest)
    } else {
        read_eight(rest)
    }
}

fn read_part(count: u64, bytes: &[u8]) -> Result<(&[u8], &[u8]), Unread>
    ensures some { IfOk result (λ p. reading.bytes_at count bytes.now ≡ Some (p.0.now, p.1.now)) }
    ensures none { IfErr result (λ e. reading.bytes_at count bytes.now ≡ None) }
{
    if count <= bytes.len() as u64 {
        Ok(bytes.split_at(count as usize))
    } else {
        Err(Unread::Form)
    }
}

#[tactic(auto, unfolding(crate::specs::Reading::string_at))]
fn read_string(bytes: &[u8]) -> Result<(&[u8], &[u8]), Unread>
    ensures some { IfOk result (λ p. reading.string_at bytes.now ≡ Some (p.0.now, p.1.now)) }
    ensures none { IfErr result (λ e. reading.string_at bytes.now ≡ None) }
{
    let (count, rest) = read_number(bytes)?;
    read_part(count, rest)
}

fn read_text(alloc: Global, bytes: &[u8]) -> Result<(Text, &[u8]), Unread>
    ensures some { IfOk result (λ p. reading.string_at bytes.now ≡ Some (p.0, p.1.now)) }
    ensures none { IfErr result (λ e. e ≡ Unread.Form → reading.string_at bytes.now ≡ None) }
{
    let (string, rest) = read_string(bytes)?;
    let text = Text::from_slice(alloc, string)?;
    Ok((text, rest))
}

// The bytes, and the end byte 0 behind them. Takes memory only past 38 bytes, as a `Key` does.
fn with_end(alloc: Global, bytes: &[u8]) -> Result<SmallVec<u8, 39>, AllocError>
    ensures { IfOk result (λ key. key.items ≡ bytes.now ++ 0 ∷ []) }
{
    let mut key = SmallVec::with_capacity(alloc, bytes.len().saturating_add(1))?;
    key.extend_from_slice(bytes)?;
    key.push(0)?;
    Ok(key)
}

// The reference of a whole key.
#[tactic(auto, using(crate::specs::laws::Reading::key_known, crate::specs::laws::Reading::key_unknown))]
fn decoded(alloc: Global, bytes: &[u8]) -> Result<Ref, Unread>
    ensures some { IfOk result (λ r. reading.key_at bytes.now ≡ Some r) }
    ensures none { IfErr result (λ e. e ≡ Unread.Form → reading.key_at bytes.now ≡ None) }
{
    match decode(alloc, bytes) {
        Ok(Some(reference)) => Ok(reference),
        Ok(None) => Err(Unread::Form),
        Err(_) => Err(Unread::Memory),
    }
}

#[tactic(auto, using(crate::specs::laws::Reading::key_keeps, crate::specs::laws::Reading::key_again))]
fn whole_key(alloc: Global, bytes: &[u8]) -> Result<Key, Unread>
    ensures some { IfOk result (λ key. reading.key_at bytes.now ≡ Some key) }
    ensures none { IfErr result (λ e. e ≡ Unread.Form → reading.key_at bytes.now ≡ None) }
{
    let reference = decoded(alloc, bytes)?;
    drop(reference);
    let key = Key::from_slice(alloc, bytes)?;
    Ok(key)
}

// The key, if the bytes are one that has no end byte 0.
#[tactic(auto, unfolding(crate::specs::Reading::endless_at))]
fn endless_key(alloc: Global, bytes: &[u8]) -> Result<Key, Unread>
    ensures some { IfOk result (λ key. reading.endless_at bytes.now ≡ Some key) }
    ensures none { IfErr result (λ e. e ≡ Unread.Form → reading.endless_at bytes.now ≡ None) }
{
    if bytes.ends_with(&[0]) {
        return Err(Unread::Form);
    }
    whole_key(alloc, bytes)
}

// The key that these bytes stand for, with its end byte put back.
#[tactic(auto, unfolding(crate::specs::Reading::ended_at))]
fn ended_key(alloc: Global, bytes: &[u8]) -> Result<Key, Unread>
    ensures some { IfOk result (λ key. reading.ended_at bytes.now ≡ Some key) }
    ensures none { IfErr result (λ e. e ≡ Unread.Form → reading.ended_at bytes.now ≡ None) }
{
    let ended = with_end(alloc, bytes)?;
    match whole_key(alloc, ended.as_slice()) {
        Ok(key) => Ok(key),
        Err(Unread::Memory) => Err(Unread::Memory),
        Err(Unread::Form) => endless_key(alloc, bytes),
    }
}

#[tactic(auto, unfolding(crate::specs::Reading::reference_at))]
fn read_key(alloc: Global, bytes: &[u8]) -> Result<(Key, &[u8]), Unread>
    ensures some { IfOk result (λ p. reading.reference_at bytes.now ≡ Some (p.0, p.1.now)) }
    ensures none { IfErr result (λ e. e ≡ Unread.Form → reading.reference_at bytes.now ≡ None) }
{
    let (string, rest) = read_string(bytes)?;
    let key = ended_key(alloc, string)?;
    Ok((key, rest))
}

#[tactic(auto, unfolding(crate::specs::Reading::name_at))]
fn read_name(alloc: Global, bytes: &[u8]) -> Result<(LockName, &[u8]), Unread>
    ensures some { IfOk result (λ p. reading.name_at bytes.now ≡ Some (p.0, p.1.now)) }
    ensures none { IfErr result (λ e. e ≡ Unread.Form → reading.name_at bytes.now ≡ None) }
{
    let [caret, behind @ ..] = bytes else {
        return Err(Unread::Form);
    };
    if *caret > 1 {
        return Err(Unread::Form);
    }
    let (key, rest) = read_key(alloc, behind)?;
    Ok((LockName::new(*caret == 1, key), rest))
}

// So many names, put after those that stand there.
fn read_each_name(alloc: Global, count: u64, bytes: &[u8]) -> Result<(Vec<LockName>, &[u8]), Unread>
    ensures some { IfOk result (λ p. reading.list_at reading.name_at count bytes.now ≡ Some (p.0.items, p.1.now)) }
    ensures none { IfErr result (λ e. e ≡ Unread.Form → reading.list_at reading.name_at count bytes.now ≡ None) }
{
    let mut names = Vec::new(alloc);
    let mut rest = bytes;
    for _ in 0..count {
        names.reserve(1)?;
        match read_name(alloc, rest) {
            Ok((name, behind)) => {
                names.push_reserved(name);
                rest = behind;
            }
            Err(unread) => return Err(unread),
        }
    }
    Ok((names, rest))
}

#[tactic(auto, unfolding(crate::specs::Reading::names_at))]
fn read_names(alloc: Global, bytes: &[u8]) -> Result<(LockNames, &[u8]), Unread>
    ensures some { IfOk result (λ p. reading.names_at bytes.now ≡ Some (p.0, p.1.now)) }
    ensures none { IfErr result (λ e. e ≡ Unread.Form → reading.names_at bytes.now ≡ None) }
{
    let (count, behind) = read_number(bytes)?;
    let (names, rest) = read_each_name(alloc, count, behind)?;
    Ok((LockNames::new(names), rest))
}

fn read_set(alloc: Global, bytes: &[u8]) -> Result<(DataCommand, &[u8]), Unread>
    ensures some { IfOk result (λ p. reading.set_at bytes.now ≡ Some (p.0, p.1.now)) }
    ensures none { IfErr result (λ e. e ≡ Unread.Form → reading.set_at bytes.now ≡ None) }
{
    let (key, behind) = read_key(alloc, bytes)?;
    match read_text(alloc, behind) {
        Ok((value, rest)) => Ok((DataCommand::Set(key, value), rest)),
        Err(unread) => {
            drop(key);
            Err(unread)
        }
    }
}

fn read_kill(alloc: Global, extent: Extent, bytes: &[u8]) -> Result<(DataCommand, &[u8]), Unread>
    ensures some { IfOk result (λ p. reading.kill_at extent bytes.now ≡ Some (p.0, p.1.now)) }
    ensures none { IfErr result (λ e. e ≡ Unread.Form → reading.kill_at extent bytes.now ≡ None) }
{
    let (key, rest) = read_key(alloc, bytes)?;
    Ok((DataCommand::Kill(key, extent), rest))
}

fn read_increment(alloc: Global, bytes: &[u8]) -> Result<(DataCommand, &[u8]), Unread>
    ensures some { IfOk result (λ p. reading.increment_at bytes.now ≡ Some (p.0, p.1.now)) }
    ensures none { IfErr result (λ e. e ≡ Unread.Form → reading.increment_at bytes.now ≡ None) }
{
    let (key, behind) = read_key(alloc, bytes)?;
    match read_text(alloc, behind) {
        Ok((number, rest)) => Ok((DataCommand::Increment(key, number), rest)),
        Err(unread) => {
            drop(key);
            Err(unread)
        }
    }
}

fn read_merge(alloc: Global, bytes: &[u8]) -> Result<(DataCommand, &[u8]), Unread>
    ensures some { IfOk result (λ p. reading.merge_at bytes.now ≡ Some (p.0, p.1.now)) }
    ensures none { IfErr result (λ e. e ≡ Unread.Form → reading.merge_at bytes.now ≡ None) }
{
    let (target, behind) = read_key(alloc, bytes)?;
    match read_key(alloc, behind) {
        Ok((source, rest)) => Ok((DataCommand::Merge(target, source), rest)),
        Err(unread) => {
            drop(target);
            Err(unread)
        }
    }
}

fn read_data(alloc: Global, bytes: &[u8]) -> Result<(Look, &[u8]), Unread>
    ensures some { IfOk result (λ p. reading.data_at bytes.now ≡ Some (p.0, p.1.now)) }
    ensures none { IfErr result (λ e. e ≡ Unread.Form → reading.data_at bytes.now ≡ None) }
{
    let (key, rest) = read_key(alloc, bytes)?;
    Ok((Look::Data(key), rest))
}

fn read_bare_get(alloc: Global, bytes: &[u8]) -> Result<(Look, &[u8]), Unread>
    ensures some { IfOk result (λ p. reading.get_at bytes.now ≡ Some (p.0, p.1.now)) }
    ensures none { IfErr result (λ e. e ≡ Unread.Form → reading.get_at bytes.now ≡ None) }
{
    let (key, rest) = read_key(alloc, bytes)?;
    Ok((Look::Get(key, None), rest))
}

fn read_get(alloc: Global, bytes: &[u8]) -> Result<(Look, &[u8]), Unread>
    ensures some { IfOk result (λ p. reading.get_else_at bytes.now ≡ Some (p.0, p.1.now)) }
    ensures none { IfErr result (λ e. e ≡ Unread.Form → reading.get_else_at bytes.now ≡ None) }
{
    let (key, behind) = read_key(alloc, bytes)?;
    match read_text(alloc, behind) {
        Ok((default, rest)) => Ok((Look::Get(key, Some(default)), rest)),
        Err(unread) => {
            drop(key);
            Err(unread)
        }
    }
}

fn read_order(
    alloc: Global,
    is_open: bool,
    direction: Direction,
    bytes: &[u8],
) -> Result<(Look, &[u8]), Unread>
    ensures some { IfOk result (λ p. reading.order_at is_open direction bytes.now ≡ Some (p.0, p.1.now)) }
    ensures none { IfErr result (λ e. e ≡ Unread.Form → reading.order_at is_open direction bytes.now ≡ None) }
{
    let (key, rest) = read_key(alloc, bytes)?;
    let place = Place::new(key, is_open);
    Ok((Look::Order(place, direction), rest))
}

fn read_query(
    alloc: Global,
    is_open: bool,
    direction: Direction,
    bytes: &[u8],
) -> Result<(Look, &[u8]), Unread>
    ensures some { IfOk result (λ p. reading.query_at is_open direction bytes.now ≡ Some (p.0, p.1.now)) }
    ensures none { IfErr result (λ e. e ≡ Unread.Form → reading.query_at is_open direction bytes.now ≡ None) }
{
    let (key, rest) = read_key(alloc, bytes)?;
    let place = Place::new(key, is_open);
    Ok((Look::Query(place, direction), rest))
}

// A name without its caret.
#[tactic(auto, unfolding(crate::specs::Reading::named_at))]
fn read_global(alloc: Global, bytes: &[u8]) -> Result<(Name, &[u8]), Unread>
    ensures some { IfOk result (λ p. reading.named_at bytes.now ≡ Some (p.0, p.1.now)) }
    ensures none { IfErr result (λ e. e ≡ Unread.Form → reading.named_at bytes.now ≡ None) }
{
    let (text, rest) = read_text(alloc, bytes)?;
    match Name::new(text) {
        Ok(name) => Ok((name, rest)),
        Err(_) => Err(Unread::Form),
    }
}

fn read_name_from(
    alloc: Global,
    direction: Direction,
    bytes: &[u8],
) -> Result<(Look, &[u8]), Unread>
    ensures some { IfOk result (λ p. reading.name_from_at direction bytes.now ≡ Some (p.0, p.1.now)) }
    ensures none { IfErr result (λ e. e ≡ Unread.Form → reading.name_from_at direction bytes.now ≡ None) }
{
    let (name, rest) = read_global(alloc, bytes)?;
    Ok((Look::Name(Some(name), direction), rest))
}

fn read_next_name(alloc: Global, kind: u8, bytes: &[u8]) -> Result<(Look, &[u8]), Unread>
    ensures some { IfOk result (λ p. reading.next_name_at kind bytes.now ≡ Some (p.0, p.1.now)) }
    ensures none { IfErr result (λ e. e ≡ Unread.Form → reading.next_name_at kind bytes.now ≡ None) }
{
    match kind {
        22 => read_name_from(alloc, Direction::Forward, bytes),
        23 => read_name_from(alloc, Direction::Backward, bytes),
        24 => Ok((Look::Name(None, Direction::Forward), bytes)),
        25 => Ok((Look::Name(None, Direction::Backward), bytes)),
        _ => Err(Unread::Form),
    }
}

fn read_traversal(alloc: Global, kind: u8, bytes: &[u8]) -> Result<(Look, &[u8]), Unread>
    ensures some { IfOk result (λ p. reading.traversal_at kind bytes.now ≡ Some (p.0, p.1.now)) }
    ensures none { IfErr result (λ e. e ≡ Unread.Form → reading.traversal_at kind bytes.now ≡ None) }
{
    match kind {
        6 => read_order(alloc, false, Direction::Forward, bytes),
        7 => read_order(alloc, false, Direction::Backward, bytes),
        8 => read_order(alloc, true, Direction::Forward, bytes),
        9 => read_order(alloc, true, Direction::Backward, bytes),
        10 => read_query(alloc, false, Direction::Forward, bytes),
        11 => read_query(alloc, false, Direction::Backward, bytes),
        12 => read_query(alloc, true, Direction::Forward, bytes),
        13 => read_query(alloc, true, Direction::Backward, bytes),
        _ => read_next_name(alloc, kind, bytes),
    }
}

#[tactic(auto, unfolding(crate::specs::Reading::looks_at))]
fn read_look(alloc: Global, kind: u8, bytes: &[u8]) -> Result<(Look, &[u8]), Unread>
    ensures some { IfOk result (λ p. reading.looks_at kind bytes.now ≡ Some (p.0, p.1.now)) }
    ensures none { IfErr result (λ e. e ≡ Unread.Form → reading.looks_at kind bytes.now ≡ None) }
{
    match kind {
        3 => read_data(alloc, bytes),
        4 => read_bare_get(alloc, bytes),
        5 => read_get(alloc, bytes),
        _ => read_traversal(alloc, kind, bytes),
    }
}

fn read_looking(alloc: Global, kind: u8, bytes: &[u8]) -> Result<(DataCommand, &[u8]), Unread>
    ensures some { IfOk result (λ p. reading.looking_at kind bytes.now ≡ Some (p.0, p.1.now)) }
    ensures none { IfErr result (λ e. e ≡ Unread.Form → reading.looking_at kind bytes.now ≡ None) }
{
    let (look, rest) = read_look(alloc, kind, bytes)?;
    Ok((DataCommand::Look(look), rest))
}

#[tactic(auto, unfolding(crate::specs::Reading::data_command_at))]
fn read_command(alloc: Global, kind: u8, bytes: &[u8]) -> Result<(DataCommand, &[u8]), Unread>
    ensures some { IfOk result (λ p. reading.data_command_at kind bytes.now ≡ Some (p.0, p.1.now)) }
    ensures none { IfErr result (λ e. e ≡ Unread.Form → reading.data_command_at kind bytes.now ≡ None) }
{
    match kind {
        0 => read_set(alloc, bytes),
        1 => read_kill(alloc, Extent::All, bytes),
        2 => read_merge(alloc, bytes),
        _ => read_later(alloc, kind, bytes),
    }
}

fn read_later(alloc: Global, kind: u8, bytes: &[u8]) -> Result<(DataCommand, &[u8]), Unread>
    ensures some { IfOk result (λ p. reading.later_command_at kind bytes.now ≡ Some (p.0, p.1.now)) }
    ensures none { IfErr result (λ e. e ≡ Unread.Form → reading.later_command_at kind bytes.now ≡ None) }
{
    match kind {
        19 => read_kill(alloc, Extent::Value, bytes),
        20 => read_kill(alloc, Extent::Below, bytes),
        21 => read_increment(alloc, bytes),
        _ => read_looking(alloc, kind, bytes),
    }
}

fn read_value(alloc: Global, bytes: &[u8]) -> Result<(Answer, &[u8]), Unread>
    ensures some { IfOk result (λ p. reading.value_answer_at bytes.now ≡ Some (p.0, p.1.now)) }
    ensures none { IfErr result (λ e. e ≡ Unread.Form → reading.value_answer_at bytes.now ≡ None) }
{
    let (text, rest) = read_text(alloc, bytes)?;
    Ok((Answer::Value(text), rest))
}

fn read_count(bytes: &[u8]) -> Result<(Answer, &[u8]), Unread>
    ensures some { IfOk result (λ p. reading.count_at bytes.now ≡ Some (p.0, p.1.now)) }
    ensures none { IfErr result (λ e. e ≡ Unread.Form → reading.count_at bytes.now ≡ None) }
{
    let (number, rest) = read_number(bytes)?;
    Ok((Answer::Number(number), rest))
}

fn read_found(alloc: Global, bytes: &[u8]) -> Result<(Answer, &[u8]), Unread>
    ensures some { IfOk result (λ p. reading.found_at bytes.now ≡ Some (p.0, p.1.now)) }
    ensures none { IfErr result (λ e. e ≡ Unread.Form → reading.found_at bytes.now ≡ None) }
{
    let (key, rest) = read_key(alloc, bytes)?;
    Ok((Answer::Found(key), rest))
}

#[tactic(auto, unfolding(crate::specs::Reading::answer_at))]
fn read_answer(alloc: Global, kind: u8, bytes: &[u8]) -> Result<(Answer, &[u8]), Unread>
    ensures some { IfOk result (λ p. reading.answer_at kind bytes.now ≡ Some (p.0, p.1.now)) }
    ensures none { IfErr result (λ e. e ≡ Unread.Form → reading.answer_at kind bytes.now ≡ None) }
{
    match kind {
        0 => Ok((Answer::Done, bytes)),
        1 => read_value(alloc, bytes),
        2 => read_count(bytes),
        _ => read_found(alloc, bytes),
    }
}

#[tactic(auto, unfolding(crate::specs::Reading::answered_at))]
fn read_answered(alloc: Global, tag: u8, bytes: &[u8]) -> Result<(Exchange, &[u8]), Unread>
    ensures some { IfOk result (λ p. reading.answered_at tag bytes.now ≡ Some (p.0, p.1.now)) }
    ensures none { IfErr result (λ e. e ≡ Unread.Form → reading.answered_at tag bytes.now ≡ None) }
{
    let (command, behind) = read_command(alloc, tag / 4, bytes)?;
    match read_answer(alloc, tag % 4, behind) {
        Ok((answer, rest)) => Ok((Exchange { command, answer }, rest)),
        Err(unread) => {
            drop(command);
            Err(unread)
        }
    }
}

#[tactic(auto, unfolding(crate::specs::Reading::exchange_at))]
fn read_exchange(alloc: Global, bytes: &[u8]) -> Result<(Exchange, &[u8]), Unread>
    ensures some { IfOk result (λ p. reading.exchange_at bytes.now ≡ Some (p.0, p.1.now)) }
    ensures none { IfErr result (λ e. e ≡ Unread.Form → reading.exchange_at bytes.now ≡ None) }
{
    match bytes {
        [] => Err(Unread::Form),
        [tag, rest @ ..] => read_answered(alloc, *tag, rest),
    }
}

// So many exchanges.
fn read_each_exchange(
    alloc: Global,
    count: u64,
    bytes: &[u8],
) -> Result<(Vec<Exchange>, &[u8]), Unread>
    ensures some { IfOk result (λ p. reading.list_at reading.exchange_at count bytes.now ≡ Some (p.0.items, p.1.now)) }
    ensures none { IfErr result (λ e. e ≡ Unread.Form → reading.list_at reading.exchange_at count bytes.now ≡ None) }
{
    let mut exchanges = Vec::new(alloc);
    let mut rest = bytes;
    for _ in 0..count {
        exchanges.reserve(1)?;
        match read_exchange(alloc, rest) {
            Ok((exchange, behind)) => {
                exchanges.push_reserved(exchange);
                rest = behind;
            }
            Err(unread) => return Err(unread),
        }
    }
    Ok((exchanges, rest))
}

#[tactic(auto, unfolding(crate::specs::Reading::exchanges_at))]
fn read_exchanges(alloc: Global, bytes: &[u8]) -> Result<(Exchanges, &[u8]), Unread>
    ensures some { IfOk result (λ p. reading.exchanges_at bytes.now ≡ Some (p.0, p.1.now)) }
    ensures none { IfErr result (λ e. e ≡ Unread.Form → reading.exchanges_at bytes.now ≡ None) }
{
    let (count, behind) = read_number(bytes)?;
    let (exchanges, rest) = read_each_exchange(alloc, count, behind)?;
    Ok((Exchanges::new(exchanges), rest))
}

fn named(kind: u8, names: LockNames) -> LockCommand
    ensures { result ≡ reading.named kind names }
{
    match kind {
        16 => LockCommand::Only(names),
        17 => LockCommand::More(names),
        _ => LockCommand::Fewer(names),
    }
}

fn read_named(alloc: Global, kind: u8, bytes: &[u8]) -> Result<(LockCommand, &[u8]), Unread>
    ensures some { IfOk result (λ p. reading.named_lock_at kind bytes.now ≡ Some (p.0, p.1.now)) }
    ensures none { IfErr result (λ e. e ≡ Unread.Form → reading.named_lock_at kind bytes.now ≡ None) }
{
    let (names, rest) = read_names(alloc, bytes)?;
    Ok((named(kind, names), rest))
}

#[tactic(auto, unfolding(crate::specs::Reading::lock_command_at))]
fn read_lock(alloc: Global, kind: u8, bytes: &[u8]) -> Result<(LockCommand, &[u8]), Unread>
    ensures some { IfOk result (λ p. reading.lock_command_at kind bytes.now ≡ Some (p.0, p.1.now)) }
    ensures none { IfErr result (λ e. e ≡ Unread.Form → reading.lock_command_at kind bytes.now ≡ None) }
{
    match kind {
        15 => Ok((LockCommand::Release, bytes)),
        16..=18 => read_named(alloc, kind, bytes),
        _ => Err(Unread::Form),
    }
}

fn read_lone(alloc: Global, job: Job, tag: u8, bytes: &[u8]) -> Result<(Unit, &[u8]), Unread>
    ensures some { IfOk result (λ p. reading.lone_at job tag bytes.now ≡ Some (p.0, p.1.now)) }
    ensures none { IfErr result (λ e. e ≡ Unread.Form → reading.lone_at job tag bytes.now ≡ None) }
{
    let (exchange, rest) = read_answered(alloc, tag, bytes)?;
    Ok((Unit::Lone(job, exchange.command, exchange.answer), rest))
}

fn read_whole(alloc: Global, job: Job, bytes: &[u8]) -> Result<(Unit, &[u8]), Unread>
    ensures some { IfOk result (λ p. reading.whole_at job bytes.now ≡ Some (p.0, p.1.now)) }
    ensures none { IfErr result (λ e. e ≡ Unread.Form → reading.whole_at job bytes.now ≡ None) }
{
    let (exchanges, rest) = read_exchanges(alloc, bytes)?;
    Ok((Unit::Whole(job, exchanges), rest))
}

fn read_locked(alloc: Global, job: Job, tag: u8, bytes: &[u8]) -> Result<(Unit, &[u8]), Unread>
    ensures some { IfOk result (λ p. reading.locked_at job tag bytes.now ≡ Some (p.0, p.1.now)) }
    ensures none { IfErr result (λ e. e ≡ Unread.Form → reading.locked_at job tag bytes.now ≡ None) }
{
    let (command, rest) = read_lock(alloc, tag / 4, bytes)?;
    let inside = tag % 4 >= 2;
    let had = tag % 4 % 2 == 1;
    Ok((Unit::Lock(job, inside, command, had), rest))
}

#[tactic(auto, unfolding(crate::specs::Reading::deed_at))]
fn read_deed(alloc: Global, job: Job, tag: u8, bytes: &[u8]) -> Result<(Unit, &[u8]), Unread>
    ensures some { IfOk result (λ p. reading.deed_at job tag bytes.now ≡ Some (p.0, p.1.now)) }
    ensures none { IfErr result (λ e. e ≡ Unread.Form → reading.deed_at job tag bytes.now ≡ None) }
{
    if tag < 56 {
        return read_lone(alloc, job, tag, bytes);
    }
    match tag {
        56 => read_whole(alloc, job, bytes),
        57 => Ok((Unit::Back(job), bytes)),
        58 => Ok((Unit::End(job), bytes)),
        59..=75 => read_locked(alloc, job, tag, bytes),
        _ => read_lone(alloc, job, tag, bytes),
    }
}

#[tactic(auto, unfolding(crate::specs::Reading::deed_of))]
fn read_tagged(alloc: Global, job: Job, bytes: &[u8]) -> Result<(Unit, &[u8]), Unread>
    ensures some { IfOk result (λ p. reading.deed_of job bytes.now ≡ Some (p.0, p.1.now)) }
    ensures none { IfErr result (λ e. e ≡ Unread.Form → reading.deed_of job bytes.now ≡ None) }
{
    match bytes {
        [] => Err(Unread::Form),
        [tag, rest @ ..] => read_deed(alloc, job, *tag, rest),
    }
}

/// The unit that stands in front.
#[tactic(auto, unfolding(crate::specs::Reading::unit_at))]
pub(crate) fn read_unit(alloc: Global, bytes: &[u8]) -> Result<(Unit, &[u8]), Unread>
    ensures some { IfOk result (λ p. reading.unit_at bytes.now ≡ Some (p.0, p.1.now)) }
    ensures none { IfErr result (λ e. e ≡ Unread.Form → reading.unit_at bytes.now ≡ None) }
{
    let (number, rest) = read_number(bytes)?;
    match Job::new(number) {
        Ok(job) => read_tagged(alloc, job, rest),
        Err(_) => Err(Unread::Form),
    }
}
