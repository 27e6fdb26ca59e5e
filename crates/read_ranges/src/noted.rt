//! The ranges that a transaction has read.
ghost use Rattle.std.specs.Prelude.{◌≡◌, ℕ, List, Option, Bool, ◌+◌, ◌||◌, ◌<◌, ◌≤◌, true, false, [], length, take, IfOk, OnOk, OnErr};
ghost use Rattle.collation.specs.Reference.{Reference};
ghost use Rattle.collation.specs.Levels.{has_level, has_name, parent_of};
ghost use Rattle.collation.specs.Answers.{follows, is_forward};
ghost use Rattle.command.specs.declared.access.DataCommand.TheVariants.{Increment as increment_command, Look as look_command};
ghost use Rattle.command.specs.declared.access.Look.TheVariants.{Get as get_command, Order as order_command, Query as query_command, Name as name_command};
ghost use Rattle.command.specs.declared.access.Answer.{Answer as AnswerView};
ghost use Rattle.command.specs.declared.access.Answer.TheVariants.{Value, Found};
ghost use Rattle.globals.specs.Fitting.{IsAnswerOf, IsLookAnswer, IsNameAnswer, IsOrderAnswer, IsQueryAnswer};
ghost use Rattle.globals.specs.Cuts.{stands_before};
ghost use Rattle.std.specs.Option.{option_map};
ghost use Rattle.collation.specs.Names.{bare};
ghost use Rattle.journal.specs.Touching.{name_read, order_read, query_read};
ghost use Rattle.serial.specs.ReadRanges.{level_end as level_end_spec, root_of};
ghost use Rattle.read_ranges.specs.declared.range.ReadRange.TheVariants.{One};
ghost use Rattle.read_ranges.specs.Ranges.{between, is_in, is_in_one, names_begin, names_end, IsNoted, KeepsFormerRanges};

use crate::level::{level_end, level_start};
use crate::range::ReadRange;
use collation::{Direction, Name, Text};
use command::{Answer, DataCommand, Look};
use globals::{Cut, key_of_start, names_from, order_start, query_start};
use key_codec::{Key, Place};
use std::alloc::{AllocError, Global};
use std::marker::Model;

// How many of the last ranges may grow, or are looked at for a reference that is read again.
const NEAR: usize = 4;

// For how many ranges forgotten ones leave their room to those that come next.
const KEPT_ROOM: usize = 16;

/// The ranges that a transaction has read.
#[derive(Debug, Drop)]
pub struct Ranges {
    list: Vec<ReadRange>,
}

impl Model for Ranges {
    ghost use Rattle.std.specs.Prelude.{List};
    ghost use Rattle.read_ranges.specs.declared.range.ReadRange.{ReadRange};

    ghost Value = { List ReadRange };

    ghost view = { λ r. r.list.items };
}

// Forward past all of the name that was found, or to the end.
fn past_name(answer: &Answer) -> Cut<'_>
    requires { IsNameAnswer answer.now }
    ensures { (x : Reference) → stands_before result x ≡ names_end answer.now x }
{
    match answer {
        Answer::Found(name) => Cut::Past(name),
        _ => Cut::End,
    }
}

// Backward from the name that was found on, or from the beginning.
fn before_name(answer: &Answer) -> Cut<'_>
    requires { IsNameAnswer answer.now }
    ensures { (x : Reference) → stands_before result x ≡ names_begin answer.now x }
{
    match answer {
        Answer::Found(name) => Cut::Before(name),
        _ => Cut::Start,
    }
}

impl Ranges {
    /// Nothing was read. Takes no memory.
    pub fn new(alloc: Global) -> Ranges
        ensures { result ≡ [] }
    {
        Ranges {
            list: Vec::new(alloc),
        }
    }

    /// The ranges, in the order in which they were begun. Takes no memory.
    pub fn ranges(&self) -> &[ReadRange]
        ensures { result.now ≡ self.now }
    {
        self.list.as_slice()
    }

    /// How many ranges they are. Takes no memory.
    pub fn len(&self) -> usize
        ensures { result ≡ length self.now }
    {
        self.list.len()
    }

    /// Forgets all ranges but the first `count`, which takes back a MERGE that was noted when they were so many. Takes
    /// no memory.
    pub fn back_to(&mut self, count: usize)
        ensures { self.new ≡ take count self.old }
    {
        self.list.truncate(count);
    }

    /// Notes what an answered command has read. `decided` tells whether the transaction's own writes decide what the
    /// reference of a $GET or $INCREMENT has; of other commands it says nothing.
    ///
    /// A command that changes the database reads nothing, or a range that is put after the others, so that it can be
    /// taken back, unless one of the last has it. What a command that looks has read may lie in one of the last ranges.
    ///
    /// Where memory is refused nothing has changed.
    pub fn note(
        &mut self,
        alloc: Global,
        command: &DataCommand,
        answer: &Answer,
        decided: bool,
    ) -> Result<(), AllocError>
        requires { IsAnswerOf command.now answer.now }
        ensures noted { OnOk result (IsNoted self.old self.new command.now answer.now decided) }
        ensures behind { OnOk result (KeepsFormerRanges command.now self.old self.new) }
        ensures few { length self.new ≤ length self.old + 1 }
        ensures err { OnErr result (self.new ≡ self.old) }
    {
        match command {
            DataCommand::Set(_, _) => Ok(()),
            DataCommand::Kill(_, _) => Ok(()),
            DataCommand::Merge(_, source) => self.push_new(Cut::Before(source), Cut::Past(source)),
            DataCommand::Increment(key, _) => self.note_increment(key, decided),
            DataCommand::Look(look) => self.note_look(alloc, look, answer, decided),
        }
    }

    fn note_look(
        &mut self,
        alloc: Global,
        look: &Look,
        answer: &Answer,
        decided: bool,
    ) -> Result<(), AllocError>
        requires { IsLookAnswer look.now answer.now }
        ensures noted { OnOk result (IsNoted self.old self.new (look_command look.now) answer.now decided) }
        ensures few { length self.new ≤ length self.old + 1 }
        ensures err { OnErr result (self.new ≡ self.old) }
    {
        match look {
            Look::Data(key) => self.add(Cut::Before(key), Cut::Past(key)),
            Look::Get(key, _) => self.note_get(key, decided),
            Look::Order(place, direction) => self.note_order(alloc, place, *direction, answer),
            Look::Query(place, direction) => self.note_query(alloc, place, *direction, answer),
            Look::Name(start, direction) => self.note_name(alloc, start, *direction, answer),
        }
    }

    // What an $INCREMENT has read: as a $GET, after the others.
    fn note_increment(&mut self, key: &Key, decided: bool) -> Result<(), AllocError>
        ensures noted { (number : List ℕ) → (answer : AnswerView) → OnOk result (IsNoted self.old self.new (increment_command key.now number) answer decided) }
        ensures behind { OnOk result (take (length self.old) self.new ≡ self.old) }
        ensures few { length self.new ≤ length self.old + 1 }
        ensures err { OnErr result (self.new ≡ self.old) }
    {
        if !decided {
            return self.add_one(key);
        }
        Ok(())
    }

    #[inline(never)]
    fn note_name(
        &mut self,
        alloc: Global,
        start: &Option<Name>,
        direction: Direction,
        answer: &Answer,
    ) -> Result<(), AllocError>
        requires { IsNameAnswer answer.now }
        ensures noted { (decided : Bool) → OnOk result (IsNoted self.old self.new (look_command (name_command start.now direction)) answer.now decided) }
        ensures few { length self.new ≤ length self.old + 1 }
        ensures err { OnErr result (self.new ≡ self.old) }
    {
        let from = key_of_start(alloc, start)?;
        self.note_names(&from, direction, answer)
    }

    // The names beyond the start, of which this is the key, up to the one that was found.
    fn note_names(
        &mut self,
        start: &Option<Key>,
        direction: Direction,
        answer: &Answer,
    ) -> Result<(), AllocError>
        requires { IsNameAnswer answer.now }
        ensures more { (name : Option (List ℕ)) → start.now ≡ option_map bare name → OnOk result ((x : Reference) → is_in_one self.new x ≡ (is_in_one self.old x || name_read (is_forward direction) name answer.now x)) }
        ensures few { length self.new ≤ length self.old + 1 }
        ensures err { OnErr result (self.new ≡ self.old) }
    {
        let from = names_from(start, direction);
        match direction {
            Direction::Forward => self.add(from, past_name(answer)),
            Direction::Backward => self.add(before_name(answer), from),
        }
    }

    /// Notes what a $GET has read: as `note` of it, whatever it was answered.
    pub fn note_get(&mut self, key: &Key, decided: bool) -> Result<(), AllocError>
        ensures noted { (default : Option (List ℕ)) → (answer : AnswerView) → OnOk result (IsNoted self.old self.new (look_command (get_command key.now default)) answer decided) }
        ensures few { length self.new ≤ length self.old + 1 }
        ensures err { OnErr result (self.new ≡ self.old) }
    {
        if decided {
            return Ok(());
        }
        self.add_one(key)
    }

    #[inline(never)]
    fn note_order(
        &mut self,
        alloc: Global,
        place: &Place,
        direction: Direction,
        answer: &Answer,
    ) -> Result<(), AllocError>
        requires { IsOrderAnswer place.now answer.now }
        ensures noted { (decided : Bool) → OnOk result (IsNoted self.old self.new (look_command (order_command place.now direction)) answer.now decided) }
        ensures few { length self.new ≤ length self.old + 1 }
        ensures err { OnErr result (self.new ≡ self.old) }
    {
        match answer {
            Answer::Value(subscript) => {
                let end = level_end(alloc, place, subscript)?;
                self.note_siblings(place, direction, subscript, &end)
            }
            _ => Ok(()),
        }
    }

    // What stands at and under the siblings beyond the place, up to the one that was answered.
    fn note_siblings(
        &mut self,
        place: &Place,
        direction: Direction,
        answer: &Text,
        end: &Key,
    ) -> Result<(), AllocError>
        requires level { has_level place.now ≡ true }
        requires end { end.now ≡ level_end_spec (parent_of place.now) answer.now }
        ensures more { OnOk result ((x : Reference) → is_in_one self.new x ≡ (is_in_one self.old x || order_read (is_forward direction) place.now (Value answer.now) x)) }
        ensures few { length self.new ≤ length self.old + 1 }
        ensures err { OnErr result (self.new ≡ self.old) }
    {
        let start = order_start(place, direction);
        match direction {
            Direction::Forward => self.add(start, Cut::Past(end)),
            Direction::Backward => self.add(level_start(end, answer), start),
        }
    }

    #[inline(never)]
    fn note_query(
        &mut self,
        alloc: Global,
        place: &Place,
        direction: Direction,
        answer: &Answer,
    ) -> Result<(), AllocError>
        requires { IsQueryAnswer place.now answer.now }
        ensures noted { (decided : Bool) → OnOk result (IsNoted self.old self.new (look_command (query_command place.now direction)) answer.now decided) }
        ensures few { length self.new ≤ length self.old + 1 }
        ensures err { OnErr result (self.new ≡ self.old) }
    {
        match answer {
            Answer::Found(found) => self.note_up_to(place, direction, found),
            _ => {
                let name = place.key().root(alloc)?;
                self.note_rest(place, direction, &name)
            }
        }
    }

    // What follows the place, up to the reference that was found.
    fn note_up_to(
        &mut self,
        place: &Place,
        direction: Direction,
        found: &Key,
    ) -> Result<(), AllocError>
        requires { has_name place.now.reference found.now ≡ true }
        ensures more { OnOk result ((x : Reference) → is_in_one self.new x ≡ (is_in_one self.old x || query_read (is_forward direction) place.now (Found found.now) x)) }
        ensures few { length self.new ≤ length self.old + 1 }
        ensures err { OnErr result (self.new ≡ self.old) }
    {
        let start = query_start(place, direction);
        match direction {
            Direction::Forward => self.add(start, Cut::After(found)),
            Direction::Backward => self.add(Cut::Before(found), start),
        }
    }

    // What follows the place, up to the end of its name.
    fn note_rest(
        &mut self,
        place: &Place,
        direction: Direction,
        name: &Key,
    ) -> Result<(), AllocError>
        requires { name.now ≡ root_of place.now.reference }
        ensures more { OnOk result ((x : Reference) → is_in_one self.new x ≡ (is_in_one self.old x || follows (is_forward direction) place.now x)) }
        ensures few { length self.new ≤ length self.old + 1 }
        ensures err { OnErr result (self.new ≡ self.old) }
    {
        let start = query_start(place, direction);
        match direction {
            Direction::Forward => self.add(start, Cut::Past(name)),
            Direction::Backward => self.add(Cut::Before(name), start),
        }
    }

    /// Puts in what lies between two cuts: into one of the last four ranges that it joins, or else as a range of its
    /// own.
    ///
    /// Refusals, after which nothing has changed: `AllocError`.
    pub fn add(&mut self, low: Cut<'_>, high: Cut<'_>) -> Result<(), AllocError>
        ensures more { OnOk result ((x : Reference) → is_in_one self.new x ≡ (is_in_one self.old x || between low.entry high.entry x)) }
        ensures few { length self.new ≤ length self.old + 1 }
        ensures err { OnErr result (self.new ≡ self.old) }
    {
        let first = self.list.len().saturating_sub(NEAR);
        self.add_from(first, low, high)
    }

    /// Puts in what lies between two cuts: into the first of all ranges that it joins, or else as a range of its own.
    ///
    /// Refusals, after which nothing has changed: `AllocError`.
    pub fn add_to_any(&mut self, low: Cut<'_>, high: Cut<'_>) -> Result<(), AllocError>
        ensures more { OnOk result ((x : Reference) → is_in_one self.new x ≡ (is_in_one self.old x || between low.entry high.entry x)) }
        ensures few { length self.new ≤ length self.old + 1 }
        ensures err { OnErr result (self.new ≡ self.old) }
    {
        self.add_from(0, low, high)
    }

    // Puts in what lies between two cuts: into one of the ranges from this place on that it joins, or else as a range of
    // its own.
    fn add_from(&mut self, first: usize, low: Cut<'_>, high: Cut<'_>) -> Result<(), AllocError>
        ensures more { OnOk result ((x : Reference) → is_in_one self.new x ≡ (is_in_one self.old x || between low.entry high.entry x)) }
        ensures few { length self.new ≤ length self.old + 1 }
        ensures err { OnErr result (self.new ≡ self.old) }
    {
        for i in first..self.list.len() {
            if self.join(i, low, high)? {
                return Ok(());
            }
        }
        self.push(low, high)
    }

    // Puts in one reference: as a range of its own, after the others, where none of the last ranges has it.
    fn add_one(&mut self, key: &Key) -> Result<(), AllocError>
        ensures more { OnOk result ((x : Reference) → is_in_one self.new x ≡ (is_in_one self.old x || is_in (One key.now) x)) }
        ensures behind { OnOk result (take (length self.old) self.new ≡ self.old) }
        ensures few { length self.new ≤ length self.old + 1 }
        ensures err { OnErr result (self.new ≡ self.old) }
    {
        if self.is_known(key) {
            return Ok(());
        }
        self.list.reserve(1)?;
        let key = key.clone()?;
        self.list.push_reserved(ReadRange::One(key));
        Ok(())
    }

    // Whether one of the last ranges is seen to have the reference.
    fn is_known(&self, key: &Key) -> bool
        ensures { result ≡ true → is_in_one self.now key.now ≡ true }
    {
        let first = self.list.len().saturating_sub(NEAR);
        for i in first..self.list.len() {
            if self.list[i].contains(key) {
                return true;
            }
        }
        false
    }

    // Puts what lies between two cuts after the others, as a range of its own.
    fn push(&mut self, low: Cut<'_>, high: Cut<'_>) -> Result<(), AllocError>
        ensures more { OnOk result ((x : Reference) → is_in_one self.new x ≡ (is_in_one self.old x || between low.entry high.entry x)) }
        ensures behind { OnOk result (take (length self.old) self.new ≡ self.old) }
        ensures few { length self.new ≤ length self.old + 1 }
        ensures err { OnErr result (self.new ≡ self.old) }
    {
        self.list.reserve(1)?;
        let range = ReadRange::new(low, high)?;
        self.list.push_reserved(range);
        Ok(())
    }

    // Whether one of the last ranges is seen to have what lies between two cuts.
    fn is_covered(&self, low: Cut<'_>, high: Cut<'_>) -> bool
        ensures { result ≡ true → (x : Reference) → is_in_one self.now x ≡ (is_in_one self.now x || between low.entry high.entry x) }
    {
        let first = self.list.len().saturating_sub(NEAR);
        for i in first..self.list.len() {
            if self.list[i].covers(low, high) {
                return true;
            }
        }
        false
    }

    // Puts what lies between two cuts after the others, where none of the last ranges has it.
    fn push_new(&mut self, low: Cut<'_>, high: Cut<'_>) -> Result<(), AllocError>
        ensures more { OnOk result ((x : Reference) → is_in_one self.new x ≡ (is_in_one self.old x || between low.entry high.entry x)) }
        ensures behind { OnOk result (take (length self.old) self.new ≡ self.old) }
        ensures few { length self.new ≤ length self.old + 1 }
        ensures err { OnErr result (self.new ≡ self.old) }
    {
        if self.is_covered(low, high) {
            return Ok(());
        }
        self.push(low, high)
    }

    // Lets a range take in what lies between two cuts, where that joins it, and tells whether it has.
    fn join(&mut self, i: usize, low: Cut<'_>, high: Cut<'_>) -> Result<bool, AllocError>
        requires { i < length self.now }
        ensures joined { IfOk result (λ joined. joined ≡ true → (x : Reference) → is_in_one self.new x ≡ (is_in_one self.old x || between low.entry high.entry x)) }
        ensures apart { IfOk result (λ joined. joined ≡ false → self.new ≡ self.old) }
        ensures length { length self.new ≡ length self.old }
        ensures err { OnErr result (self.new ≡ self.old) }
    {
        self.list[i].take_in(low, high)
    }

    /// Whether a reference was read: it lies in one of the ranges. Takes no memory.
    pub fn meets(&self, key: &Key) -> bool
        ensures { result ≡ is_in_one self.now key.now }
    {
        self.list.iter().any(|range| range.contains(key))
    }

    /// Forgets all ranges. Takes no memory, and keeps room for at most 16.
    pub fn clear(&mut self)
        ensures { self.new ≡ [] }
    {
        if self.list.capacity() > KEPT_ROOM {
            self.list = Vec::new(*self.list.allocator());
            return;
        }
        self.list.clear();
    }
}
