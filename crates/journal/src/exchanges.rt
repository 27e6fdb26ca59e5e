//! The exchanges of an open transaction.
ghost use Rattle.std.specs.Prelude.{◌≡◌, ℕ, List, [], ◌∷◌, ◌++◌, None, length, take, OnOk, OnErr};
ghost use Rattle.std.specs.List.{flat_map};
ghost use Rattle.collation.specs.Reference.{Reference};
ghost use Rattle.command.specs.declared.access.DataCommand.TheVariants.{Set, Look};
ghost use Rattle.command.specs.declared.access.Look.TheVariants.{Get};
ghost use Rattle.command.specs.declared.access.Answer.TheVariants.{Done, Value};
ghost use Rattle.journal.specs.declared.unit.Exchange.{Exchange};
ghost use Rattle.journal.specs.Exchanges.{IsMarkOf};
ghost use Rattle.journal.specs.Format as format;
ghost use Rattle.journal.specs.Stored.{FitExchanges};

use crate::write::{push_answered, push_get_done, push_set_done};
use command::{Answer, DataCommand};
use key_codec::Key;
use std::alloc::{AllocError, Global};
use std::marker::Model;

// The room that a log begins with, where there is memory for it: for three or four usual commands.
const FIRST_ROOM: usize = 64;

// The most room that a cleared log keeps for what comes next.
const KEPT_ROOM: usize = 1024;

/// The data commands of an open transaction with their answers, as bytes. It is seen as their list.
#[derive(Debug, Drop)]
pub struct ExchangeLog {
    bytes: Vec<u8>,
    count: u64,
}

impl Model for ExchangeLog {
    ghost use Rattle.std.specs.Prelude.{List};
    ghost use Rattle.journal.specs.declared.unit.Exchange.{Exchange};
    ghost use Rattle.journal.specs.Exchanges.{exchanges_in, AreExchangeBytes};

    ghost Value = { List Exchange };

    ghost view = { λ l. exchanges_in l.count l.bytes.items };

    ghost invariant = { λ l. AreExchangeBytes l.bytes.items l.count (exchanges_in l.count l.bytes.items) };
}

/// How far a log of exchanges went at some moment.
#[derive(Clone, Copy, Debug)]
pub struct ExchangeMark {
    pub(crate) bytes: usize,
    pub(crate) count: u64,
}

// The first room, at once. Where it is refused, each command asks for as much as it needs.
fn begin_room(bytes: &mut Vec<u8>)
    ensures { bytes.new.items ≡ bytes.old.items }
{
    if bytes.capacity() == 0 {
        let _begun = bytes.reserve_exact(FIRST_ROOM);
    }
}

// Takes out all bytes, and gives their room back where it is large.
fn clear_room(bytes: &mut Vec<u8>)
    ensures { bytes.new.items ≡ [] }
{
    if bytes.capacity() > KEPT_ROOM {
        *bytes = Vec::new(*bytes.allocator());
        return;
    }
    bytes.clear();
}

impl ExchangeLog {
    /// No exchange. Takes no memory.
    pub fn new(alloc: Global) -> ExchangeLog
        ensures { result ≡ [] }
    {
        ExchangeLog {
            bytes: Vec::new(alloc),
            count: 0,
        }
    }

    /// How many there are.
    pub fn len(&self) -> u64
        ensures { result ≡ length self.now }
    {
        self.count
    }

    // Their bytes.
    pub(crate) fn as_slice(&self) -> &[u8]
        ensures bytes { result.now ≡ flat_map format.exchange_bytes self.now }
        ensures fit { FitExchanges self.now }
    {
        self.bytes.as_slice()
    }

    /// Adds a command that was done, with its answer. Where memory is refused nothing has changed.
    #[tactic(auto, using(key_codec::specs::laws::Grown::back_to))]
    pub fn push(&mut self, command: &DataCommand, answer: &Answer) -> Result<(), AllocError>
        ensures ok { OnOk result (self.new ≡ self.old ++ (record { command = command.now; answer = answer.now }) ∷ []) }
        ensures err { OnErr result (self.new ≡ self.old) }
    {
        if self.count == u64::MAX {
            return Err(AllocError);
        }
        begin_room(&mut self.bytes);
        let before = self.bytes.len();
        match push_answered(&mut self.bytes, command, answer) {
            Ok(()) => {
                self.count += 1;
                Ok(())
            }
            Err(error) => {
                self.bytes.truncate(before);
                Err(error)
            }
        }
    }

    /// Adds a SET that was done, from its key and its value: as `push`, with one look for room.
    #[tactic(auto, using(key_codec::specs::laws::Grown::back_to))]
    pub fn push_set(&mut self, key: &Key, value: &[u8]) -> Result<(), AllocError>
        ensures ok { OnOk result (self.new ≡ self.old ++ (record { command = Set key.now value.now; answer = Done }) ∷ []) }
        ensures err { OnErr result (self.new ≡ self.old) }
    {
        if self.count == u64::MAX {
            return Err(AllocError);
        }
        begin_room(&mut self.bytes);
        let before = self.bytes.len();
        match push_set_done(&mut self.bytes, key, value) {
            Ok(()) => {
                self.count += 1;
                Ok(())
            }
            Err(error) => {
                self.bytes.truncate(before);
                Err(error)
            }
        }
    }

    /// Adds a $GET without a default that was done, from its key and what it was answered: as `push_set`.
    #[tactic(auto, using(key_codec::specs::laws::Grown::back_to))]
    pub fn push_get(&mut self, key: &Key, value: &[u8]) -> Result<(), AllocError>
        ensures ok { OnOk result (self.new ≡ self.old ++ (record { command = Look (Get key.now None); answer = Value value.now }) ∷ []) }
        ensures err { OnErr result (self.new ≡ self.old) }
    {
        if self.count == u64::MAX {
            return Err(AllocError);
        }
        begin_room(&mut self.bytes);
        let before = self.bytes.len();
        match push_get_done(&mut self.bytes, key, value) {
            Ok(()) => {
                self.count += 1;
                Ok(())
            }
            Err(error) => {
                self.bytes.truncate(before);
                Err(error)
            }
        }
    }

    /// The value of the last exchange, where that is a $GET without a default that was answered with so many bytes: it
    /// is lent from the log. Of no other exchange is anything said. Takes no memory.
    pub fn value_got(&self, size: usize) -> &[u8]
        ensures { (before : List Exchange) → (key : Reference) → (value : List ℕ) → self.now ≡ before ++ (record { command = Look (Get key None); answer = Value value }) ∷ [] → size ≡ length value → result.now ≡ value }
    {
        let bytes = self.bytes.as_slice();
        let start = bytes.len().saturating_sub(size);
        let (_, last) = bytes.split_at(start);
        last
    }

    /// How far the log goes now.
    pub fn mark(&self) -> ExchangeMark
        ensures { IsMarkOf result self.now }
    {
        ExchangeMark {
            bytes: self.bytes.len(),
            count: self.count,
        }
    }

    /// Takes out what was pushed since a mark. Takes no memory.
    pub fn back_to(&mut self, mark: ExchangeMark)
        requires { IsMarkOf mark (take mark.count self.old) }
        ensures { self.new ≡ take mark.count self.old }
    {
        self.bytes.truncate(mark.bytes);
        self.count = mark.count;
    }

    /// Takes out all. Takes no memory, and keeps at most a kilobyte of it.
    pub fn clear(&mut self)
        ensures { self.new ≡ [] }
    {
        clear_room(&mut self.bytes);
        self.count = 0;
    }
}
