//! A plain map from the bytes of keys to values, and a plain lock table: the model that a journal is replayed on. The
//! map's order is the order of references, and each key of a node begins with those of the nodes above it.
use crate::Outcome;
use crate::beyond::Search;
use crate::plain_locks::PlainLocks;
use collation::{Direction, Name};
use command::{Answer, DataCommand, Extent, Look};
use journal::{Exchange, Journal, Unit};
use key_codec::{Key, decode};
use m_text::{write_key, write_literal};
use std::alloc::{AllocError, Global};
use std::collections::BTreeMap;

// Whether a kill takes what has these bytes behind those of its root.
fn takes(extent: Extent, rest: &[u8]) -> bool {
    match extent {
        Extent::All => true,
        Extent::Value => rest.is_empty(),
        Extent::Below => !rest.is_empty(),
    }
}

// The name at the front of a key's bytes.
fn name_of(key: &[u8]) -> &[u8] {
    let end = key.iter().position(|byte: &u8| -> bool { *byte == 0 });
    &key[..end.unwrap_or(key.len())]
}

// Whether a name comes after the start, or backward before it.
fn is_beyond(start: &Option<Name>, direction: Direction, name: &[u8]) -> bool {
    match (start, direction) {
        (None, _) => true,
        (Some(start), Direction::Forward) => start.as_slice() < name,
        (Some(start), Direction::Backward) => name < start.as_slice(),
    }
}

// The whole number that a text begins with.
fn whole_of(text: &[u8]) -> i64 {
    let (is_negative, digits) = match text {
        [b'-', digits @ ..] => (true, digits),
        _ => (false, text),
    };
    let mut number = 0i64;
    for digit in digits.iter().take(15) {
        if !digit.is_ascii_digit() {
            break;
        }
        number = number
            .wrapping_mul(10)
            .wrapping_add(i64::from(*digit - b'0'));
    }
    if is_negative {
        number.wrapping_neg()
    } else {
        number
    }
}

/// The map, and the locks.
#[derive(Drop)]
pub struct Plain {
    nodes: BTreeMap<Vec<u8>, Vec<u8>>,
    locks: PlainLocks,
}

impl Plain {
    pub fn new(alloc: Global) -> Plain {
        Plain {
            nodes: BTreeMap::new(alloc),
            locks: PlainLocks::new(alloc),
        }
    }

    fn set(&mut self, alloc: Global, key: &[u8], value: &[u8]) -> Result<(), AllocError> {
        let key = Vec::from_slice(alloc, key)?;
        let value = Vec::from_slice(alloc, value)?;
        match self.nodes.insert(key, value) {
            Ok(_) => Ok(()),
            Err(_) => Err(AllocError),
        }
    }

    // What stands at and under a root, by what follows the root in each key.
    fn under(&self, alloc: Global, root: &[u8]) -> Result<Vec<(Vec<u8>, Vec<u8>)>, AllocError> {
        let mut found = Vec::new(alloc);
        for (key, value) in &self.nodes {
            if let Some(rest) = key.strip_prefix(root) {
                let rest = Vec::from_slice(alloc, rest)?;
                found.push((rest, Vec::from_slice(alloc, value)?))?;
            }
        }
        Ok(found)
    }

    fn kill(&mut self, alloc: Global, root: &[u8], extent: Extent) -> Result<(), AllocError> {
        for (rest, _) in self.under(alloc, root)? {
            if !takes(extent, &rest) {
                continue;
            }
            let mut key = Vec::from_slice(alloc, root)?;
            key.extend_from_slice(&rest)?;
            self.nodes.remove(key.as_slice());
        }
        Ok(())
    }

    fn merge(&mut self, alloc: Global, to: &[u8], from: &[u8]) -> Result<(), AllocError> {
        for (rest, value) in self.under(alloc, from)? {
            let mut key = Vec::from_slice(alloc, to)?;
            key.extend_from_slice(&rest)?;
            self.set(alloc, &key, &value)?;
        }
        Ok(())
    }

    // What $DATA answers.
    fn data(&self, alloc: Global, root: &[u8]) -> Result<u64, AllocError> {
        let mut data = 0;
        for (rest, _) in self.under(alloc, root)? {
            data = if rest.is_empty() {
                1
            } else if data % 10 == 1 {
                11
            } else {
                10
            };
        }
        Ok(data)
    }

    // What $GET answers.
    fn get(&self, key: &[u8], default: &[u8], answer: &Answer) -> bool {
        match self.nodes.get(key) {
            Some(value) => is_value(answer, value.as_slice()),
            None => is_value(answer, default),
        }
    }

    // The key that is looked for, or nothing where there is none.
    fn nearest(&self, alloc: Global, search: &Search) -> Result<Vec<u8>, AllocError> {
        let mut nearest = Vec::new(alloc);
        for (key, _) in &self.nodes {
            if search.meets(key) && (nearest.is_empty() || !search.is_forward()) {
                nearest.clear();
                nearest.extend_from_slice(key)?;
            }
        }
        Ok(nearest)
    }

    // Whether $ORDER answers so: the nearest key's subscript at the level of the place's last one.
    fn is_order(
        &self,
        alloc: Global,
        search: &Search,
        answer: &Answer,
    ) -> Result<bool, AllocError> {
        let nearest = self.nearest(alloc, search)?;
        is_subscript(alloc, &nearest, search.level(), answer)
    }

    // Whether $QUERY answers so.
    fn is_query(
        &self,
        alloc: Global,
        search: &Search,
        answer: &Answer,
    ) -> Result<bool, AllocError> {
        let nearest = self.nearest(alloc, search)?;
        match answer {
            Answer::Found(key) => Ok(key.as_slice() == nearest.as_slice()),
            _ => Ok(nearest.is_empty() && is_value(answer, b"")),
        }
    }

    // Whether a command that only looks is answered so.
    fn is_look(&self, alloc: Global, look: &Look, answer: &Answer) -> Result<bool, AllocError> {
        match look {
            Look::Get(key, None) => Ok(self.get(key.as_slice(), b"", answer)),
            Look::Get(key, Some(default)) => {
                Ok(self.get(key.as_slice(), default.as_slice(), answer))
            }
            Look::Data(key) => {
                let data = self.data(alloc, key.as_slice())?;
                Ok(*answer == Answer::Number(data))
            }
            Look::Order(place, direction) => {
                self.is_order(alloc, &Search::order(place, *direction), answer)
            }
            Look::Query(place, direction) => {
                self.is_query(alloc, &Search::query(place, *direction), answer)
            }
            Look::Name(start, direction) => Ok(self.is_name(start, *direction, answer)),
        }
    }

    // The nearest name beyond a start.
    fn nearest_name(&self, start: &Option<Name>, direction: Direction) -> &[u8] {
        let mut nearest: &[u8] = &[];
        for key in self.nodes.keys() {
            let name = name_of(key);
            if is_beyond(start, direction, name) {
                if direction == Direction::Backward {
                    nearest = name;
                } else if nearest.is_empty() {
                    return name;
                }
            }
        }
        nearest
    }

    // Whether $ORDER of names answers so.
    fn is_name(&self, start: &Option<Name>, direction: Direction, answer: &Answer) -> bool {
        let nearest = self.nearest_name(start, direction);
        match answer {
            Answer::Found(key) => key.name() == nearest && key.depth() == 0,
            _ => nearest.is_empty() && is_value(answer, b""),
        }
    }

    // Does an $INCREMENT of whole numbers. Whether its answer is the map's.
    fn increments(
        &mut self,
        alloc: Global,
        key: &[u8],
        number: &[u8],
        answer: &Answer,
    ) -> Result<bool, AllocError> {
        let before = match self.nodes.get(key) {
            Some(value) => whole_of(value),
            None => 0,
        };
        let Answer::Value(sum) = answer else {
            return Ok(false);
        };
        let is_sum = whole_of(sum.as_slice()) == before.wrapping_add(whole_of(number));
        self.set(alloc, key, sum.as_slice())?;
        Ok(is_sum)
    }

    // Does an exchange. Whether its answer is the map's.
    fn does(
        &mut self,
        alloc: Global,
        command: &DataCommand,
        answer: &Answer,
    ) -> Result<bool, AllocError> {
        match command {
            DataCommand::Set(key, value) => self.set(alloc, key.as_slice(), value.as_slice())?,
            DataCommand::Kill(key, extent) => self.kill(alloc, key.as_slice(), *extent)?,
            DataCommand::Merge(to, from) => self.merge(alloc, to.as_slice(), from.as_slice())?,
            DataCommand::Increment(key, number) => {
                return self.increments(alloc, key.as_slice(), number.as_slice(), answer);
            }
            DataCommand::Look(look) => return self.is_look(alloc, look, answer),
        }
        Ok(*answer == Answer::Done)
    }

    fn does_all(&mut self, alloc: Global, exchanges: &[Exchange]) -> Result<bool, AllocError> {
        for exchange in exchanges {
            if !self.does(alloc, &exchange.command, &exchange.answer)? {
                return Ok(false);
            }
        }
        Ok(true)
    }

    // Does a unit. Whether each answer in it is the map's at its place, or the table's.
    fn does_unit(&mut self, alloc: Global, unit: &Unit) -> Result<Outcome, AllocError> {
        match unit {
            Unit::Lone(_, command, answer) => {
                let is_alike = self.does(alloc, command, answer)?;
                Ok(alike_or(Outcome::AnotherAnswer, is_alike))
            }
            Unit::Whole(job, exchanges) => {
                self.locks.commit(*job);
                let is_alike = self.does_all(alloc, exchanges.as_slice())?;
                Ok(alike_or(Outcome::AnotherAnswer, is_alike))
            }
            Unit::Lock(job, is_inside, command, is_had) => {
                let is_free = self.locks.lock(alloc, *job, *is_inside, command)?;
                Ok(alike_or(Outcome::AnotherLock, is_free == *is_had))
            }
            Unit::Back(job) => {
                self.locks.go_back(*job);
                Ok(Outcome::Alike)
            }
            Unit::End(job) => {
                self.locks.end(*job);
                Ok(Outcome::Alike)
            }
        }
    }

    // Does a unit that is read, where it could be.
    fn does_read(
        &mut self,
        alloc: Global,
        read: Result<Unit, AllocError>,
    ) -> Result<Outcome, AllocError> {
        match read {
            Ok(unit) => self.does_unit(alloc, &unit),
            Err(error) => Err(error),
        }
    }

    /// Does the units of a journal. Whether each answer in it is the map's at its place, or the table's, and in the end
    /// no job has locks.
    pub fn replays(&mut self, alloc: Global, journal: &Journal) -> Result<Outcome, AllocError> {
        for unit in journal.units() {
            let outcome = self.does_read(alloc, unit)?;
            if outcome != Outcome::Alike {
                return Ok(outcome);
            }
        }
        Ok(alike_or(Outcome::LocksAreLeft, self.locks.is_empty()))
    }

    /// A line for each node, in order.
    pub fn listing(&self, alloc: Global) -> Result<Vec<u8>, AllocError> {
        let mut text = Vec::new(alloc);
        for (key, value) in &self.nodes {
            push_node(alloc, key, value, &mut text)?;
        }
        Ok(text)
    }
}

// Alike, or the other outcome.
fn alike_or(other: Outcome, is_alike: bool) -> Outcome {
    if is_alike { Outcome::Alike } else { other }
}

// Whether these bytes are the answer.
fn is_value(answer: &Answer, value: &[u8]) -> bool {
    match answer {
        Answer::Value(text) => text.as_slice() == value,
        _ => false,
    }
}

// Whether the answer is the key's subscript after so many, or empty where there is no key.
fn is_subscript(
    alloc: Global,
    key: &[u8],
    before: usize,
    answer: &Answer,
) -> Result<bool, AllocError> {
    match decode(alloc, key) {
        Ok(Some(reference)) => match reference.subscripts().get(before) {
            Some(subscript) => Ok(is_value(answer, subscript.as_slice())),
            None => Ok(false),
        },
        Ok(None) => Ok(key.is_empty() && is_value(answer, b"")),
        Err(_) => Err(AllocError),
    }
}

// The key of these bytes, if they are one's.
fn key_of(alloc: Global, bytes: &[u8]) -> Result<Option<Key>, AllocError> {
    match decode(alloc, bytes) {
        Ok(Some(reference)) => Ok(Some(Key::of(alloc, &reference)?)),
        Ok(None) => Ok(None),
        Err(_) => Err(AllocError),
    }
}

// Writes the reference of a key's bytes.
fn push_key(alloc: Global, bytes: &[u8], text: &mut Vec<u8>) -> Result<(), AllocError> {
    match key_of(alloc, bytes)? {
        Some(key) => write_key(&key, text),
        None => Ok(()),
    }
}

fn push_node(
    alloc: Global,
    key: &[u8],
    value: &[u8],
    text: &mut Vec<u8>,
) -> Result<(), AllocError> {
    push_key(alloc, key, text)?;
    text.push(b'=')?;
    write_literal(value, text)?;
    text.push(b'\n')?;
    Ok(())
}
