//! What is kept of stretches in which nothing stands.
ghost use Rattle.std.specs.FinMap as finmap;
ghost use Rattle.std.specs.Prelude.{◌≡◌, ◌&&◌, ◌||◌, ◌≤◌, ◌<◌, ◌++◌, ◌∷◌, ℕ, List, true, false, not, [], length, take, drop, nat_eq, IfSome};
ghost use Rattle.collation.specs.Reference.{Reference};
ghost use Rattle.collation.specs.Database.{Database};
ghost use Rattle.command.specs.Data.{data_after};
ghost use Rattle.globals.specs.declared.cut.Cut.{Cut};
ghost use Rattle.globals.specs.Cuts.{stands_before, stands_under, stands_within};
ghost use Rattle.read_ranges.specs.Ranges.{between, is_in, is_in_one};
ghost use Rattle.stretches.specs.Empty.{AreEmpty, AreEmptyBut, AreEndedBy, AreLeft, AreNoMore, ArePut, BeginFrom, EndsBetween, Fits, FitsIn, IsEmpty, IsRightWay, LiesIn, PartAlike, StartsBetween};

use crate::cuts::{ends_between, has_cut, is_parted, stands_between};
use crate::left::Left;
use crate::parts::{cut_out, joined, part_before, part_behind, put_in_place};
use command::DataCommand;
use globals::{Cut, OrderedView};
use key_codec::Key;
use read_ranges::{ReadRange, is_at_most};
use std::alloc::{AllocError, Global};
use std::marker::Model;

// How many stretches are kept at most.
pub(crate) const MOST: usize = 1024;

// With how many at least none is put in that no look-up has found.
const HALF: usize = 512;

// By how many places the next that is dropped lies behind the last, in a ring of the most: an odd number, so that each
// place has its turn.
const STRIDE: usize = 619;

// How many members are taken out of them one by one; behind these all stretches are dropped.
const MOST_LEFT_OUT: usize = 65_536;

// For how many stretches dropped ones leave their room to those that come next.
const KEPT_ROOM: usize = 16;

/// Some stretches of the order, at most 1,024, apart and in order. They are seen as a list of ranges.
#[derive(Debug, Drop)]
pub struct Stretches {
    list: Vec<ReadRange>,
    turn: usize,
}

impl Model for Stretches {
    ghost use Rattle.std.specs.Prelude.{List};
    ghost use Rattle.read_ranges.specs.declared.range.ReadRange.{ReadRange};
    ghost use Rattle.stretches.specs.Empty.{AreKept};

    ghost Value = { List ReadRange };

    ghost view = { λ s. s.list.items };

    ghost invariant = { λ s. AreKept s.list.items };
}

impl Stretches {
    /// No stretch. Takes no memory.
    pub fn new(alloc: Global) -> Stretches
        ensures { result ≡ [] }
    {
        Stretches {
            list: Vec::new(alloc),
            turn: 0,
        }
    }

    /// Whether there is none. Takes no memory.
    pub fn are_none(&self) -> bool
        ensures { result ≡ nat_eq (length self.now) 0 }
    {
        self.list.len() == 0
    }

    /// Drops all stretches. Takes no memory, and keeps room for at most 16.
    pub fn clear(&mut self)
        ensures { self.new ≡ [] }
    {
        if self.list.capacity() > KEPT_ROOM {
            self.list = Vec::new(*self.list.allocator());
            return;
        }
        self.list.clear();
    }

    /// What is left of the stretches after a command that may put nodes into one of them: all but the references that it
    /// may set there, which `follow` takes out. What is left is empty where they are, before the command and after it.
    ///
    /// Takes memory only for a key of over 38 bytes, at a SET or $INCREMENT into one of them and at MERGE. Where that is
    /// refused nothing is left.
    pub fn left_by(&self, command: &DataCommand) -> Left
        ensures before { (m : Database) → AreEmpty self.now m → AreEmptyBut result self.now m }
        ensures behind { (m : Database) → AreEmpty self.now m → AreEmptyBut result self.now (data_after command.now m) }
    {
        if self.are_none() {
            return Left::All;
        }
        match command {
            DataCommand::Set(key, _) => self.left_by_set(key),
            DataCommand::Merge(target, _) => {
                Left::without(Cut::Before(target), Cut::Past(target))
            }
            DataCommand::Increment(key, _) => self.left_by_set(key),
            DataCommand::Kill(_, _) => Left::All,
            DataCommand::Look(_) => Left::All,
        }
    }

    /// What is left of the stretches after a SET of the reference to whatever value: as `left_by` of that SET.
    pub fn left_by_set(&self, key: &Key) -> Left
        ensures before { (m : Database) → AreEmpty self.now m → AreEmptyBut result self.now m }
        ensures behind { (value : List ℕ) → (m : Database) → AreEmpty self.now m → AreEmptyBut result self.now (finmap.insert m key.now value) }
    {
        if self.lie_beside(key) {
            return Left::All;
        }
        Left::without(Cut::Before(key), Cut::After(key))
    }

    // Whether the reference is seen to lie in none of them.
    fn lie_beside(&self, key: &Key) -> bool
        ensures { result ≡ true → is_in_one self.now key.now ≡ false }
    {
        if self.are_none() {
            return true;
        }
        let place = self.count_ended(Cut::Before(key));
        self.fits(place, place, Cut::Before(key), Cut::After(key))
    }

    // How many end at the cut or before it. Advice, on which no contract rests, as of the next two.
    fn count_ended(&self, cut: Cut<'_>) -> usize {
        self.list.partition_point(|stretch: &ReadRange| -> bool { is_at_most(stretch.high(), cut) })
    }

    // How many begin at the cut or before it.
    fn count_begun(&self, cut: Cut<'_>) -> usize {
        self.list.partition_point(|stretch: &ReadRange| -> bool { is_at_most(stretch.low(), cut) })
    }

    // How many don't reach the cut: those behind them touch it, or lie behind it.
    fn count_short(&self, cut: Cut<'_>) -> usize {
        self.list.partition_point(|stretch: &ReadRange| -> bool {
            !is_at_most(cut, stretch.high())
        })
    }

    // How many begin before the cut.
    fn count_before(&self, cut: Cut<'_>) -> usize {
        self.list.partition_point(|stretch: &ReadRange| -> bool { !is_at_most(cut, stretch.low()) })
    }

    // The stretch at a place, if there is one.
    fn at(&self, place: usize) -> Option<&ReadRange>
        ensures { IfSome result (λ stretch. (x : Reference) → is_in stretch.now x ≡ true → is_in_one self.now x ≡ true) }
    {
        if place < self.list.len() {
            Some(&self.list[place])
        } else {
            None
        }
    }

    // Whether those before the first place end at one cut or before it, and those from the last place on begin at
    // another or behind it: the two next to these places do, and they are in order.
    fn fits(&self, first: usize, last: usize, low: Cut<'_>, high: Cut<'_>) -> bool
        ensures { result ≡ true → Fits first last low.entry high.entry self.now }
    {
        first <= last
            && last <= self.list.len()
            && self.ends_before(first, low)
            && self.begins_behind(last, high)
    }

    fn ends_before(&self, first: usize, low: Cut<'_>) -> bool
        requires { first ≤ length self.now }
        ensures { result ≡ true → AreEndedBy low.entry (take first self.now) }
    {
        first == 0 || is_at_most(self.list[first - 1].high(), low)
    }

    fn begins_behind(&self, last: usize, high: Cut<'_>) -> bool
        requires { last ≤ length self.now }
        ensures { result ≡ true → BeginFrom high.entry (drop last self.now) }
    {
        last == self.list.len() || is_at_most(high, self.list[last].low())
    }

    // Takes out those between two places.
    fn remove_between(&mut self, first: usize, last: usize)
        requires order { first ≤ last }
        requires within { last ≤ length self.old }
        ensures { self.new ≡ take first self.old ++ drop last self.old }
    {
        cut_out(&mut self.list, first, last);
    }

    // Puts a stretch in place of those between two places, where it fits there; else these are taken out. Without any
    // there it is one more, unless they are the most, or memory is refused.
    fn put(&mut self, first: usize, last: usize, stretch: ReadRange)
        requires order { first ≤ last }
        requires within { last ≤ length self.old }
        ensures { ArePut first last stretch self.old self.new }
    {
        if !self.have_place(first, last, &stretch) {
            drop(stretch);
            self.remove_between(first, last);
        } else if first < last {
            self.replace(first, last, stretch);
        } else {
            self.put_more(first, stretch);
        }
    }

    // Whether a stretch goes from its beginning to a later end, and fits there.
    fn have_place(&self, first: usize, last: usize, stretch: &ReadRange) -> bool
        ensures right { result ≡ true → IsRightWay stretch.now }
        ensures fits { result ≡ true → FitsIn first last stretch.now self.now }
    {
        let low = stretch.low();
        let high = stretch.high();
        is_at_most(low, high) && self.fits(first, last, low, high)
    }

    fn replace(&mut self, first: usize, last: usize, stretch: ReadRange)
        requires order { first < last }
        requires within { last ≤ length self.old }
        requires right { IsRightWay stretch }
        requires fits { FitsIn first last stretch self.old }
        ensures { self.new ≡ take first self.old ++ stretch ∷ drop last self.old }
    {
        put_in_place(&mut self.list, first, last, stretch);
    }

    fn put_more(&mut self, place: usize, stretch: ReadRange)
        requires within { place ≤ length self.old }
        requires right { IsRightWay stretch }
        requires fits { FitsIn place place stretch self.old }
        ensures { ArePut place place stretch self.old self.new }
    {
        if MOST <= self.list.len() {
            drop(stretch);
            return;
        }
        match self.list.insert(place, stretch) {
            Ok(()) => {}
            Err(failed) => drop(failed),
        }
    }

    // Takes out what lies between two cuts: of those that have some of it their parts before and behind are left, less
    // where memory is refused. Where they are the most already another is dropped.
    fn take_out(&mut self, low: Cut<'_>, high: Cut<'_>)
        ensures { AreLeft low.entry high.entry self.old self.new }
    {
        let first = self.count_ended(low);
        let last = self.count_before(high);
        if !self.fits(first, last, low, high) {
            self.clear();
            return;
        }
        if first < last {
            self.part(first, last, low, high);
        }
    }

    // Leaves of those between two places the parts before and behind two cuts.
    fn part(&mut self, first: usize, last: usize, low: Cut<'_>, high: Cut<'_>)
        requires order { first < last }
        requires fits { Fits first last low high self.old }
        ensures { AreLeft low.entry high.entry self.old self.new }
    {
        let back = part_behind(&self.list[last - 1], high);
        self.leave_front(first, last, low);
        match back {
            Some(back) => self.put_back(first, back),
            None => {}
        }
    }

    // Leaves of those between two places the part before a cut.
    fn leave_front(&mut self, first: usize, last: usize, low: Cut<'_>)
        requires order { first < last }
        requires within { last ≤ length self.old }
        ensures { (high : Cut) → Fits first last low.entry high self.old → AreLeft low.entry high self.old self.new }
    {
        match part_before(&self.list[first], low) {
            Some(front) => self.put(first, last, front),
            None => self.remove_between(first, last),
        }
    }

    // Puts in the part behind: right behind the place of the part before, where that was left. Where they are the most it
    // takes the place of the one there, if that lies between two that were set, as behind SETs in falling order; else one
    // is dropped in its turn, but not the part before, which may lie ahead of the next SET.
    fn put_back(&mut self, first: usize, part: ReadRange)
        ensures { AreNoMore part self.old self.new }
    {
        let place = self.place_from(first, part.low());
        if MOST <= self.list.len() && self.is_parted(place) {
            self.put(place, place + 1, part);
        } else {
            self.put_one(place, part);
        }
    }

    // Puts in one more at a place; where they are the most another is dropped.
    fn put_one(&mut self, place: usize, stretch: ReadRange)
        ensures { AreNoMore stretch self.old self.new }
    {
        let place = self.make_room(place);
        if place <= self.list.len() {
            self.put(place, place, stretch);
        }
    }

    // Whether there is one at the place, and was parted at both its ends.
    fn is_parted(&self, place: usize) -> bool
        ensures { result ≡ true → place < length self.now }
    {
        place < self.list.len() && is_parted(&self.list[place])
    }

    // A place or the next, if that at the place ends before the cut. Advice.
    fn place_from(&self, place: usize, cut: Cut<'_>) -> usize {
        match self.at(place) {
            Some(stretch) => {
                if is_at_most(stretch.high(), cut) {
                    place.saturating_add(1)
                } else {
                    place
                }
            }
            None => place,
        }
    }

    /// Takes the members of a view out of the stretches. What is left is empty where they are, and of the view too: their
    /// parts before and behind each member, and the others; less where memory is refused, or they are the most. With the
    /// 65,536th member that is looked at all are dropped. Takes memory only where one stands in one.
    pub fn leave_out<V: OrderedView>(&mut self, view: &V)
        ensures before { (m : Database) → AreEmpty self.old m → AreEmpty self.new m }
        ensures out { AreEmpty self.new (V.content view.now) }
    {
        if self.are_none() {
            return;
        }
        let mut cut = Cut::Start;
        for _ in 0..MOST_LEFT_OUT {
            match view.next(self.first_from(cut), None) {
                Some((key, _)) => {
                    self.take_out(Cut::Before(key), Cut::After(key));
                    cut = Cut::After(key);
                }
                None => return,
            }
        }
        self.clear();
    }

    // Where the first stretch begins that doesn't end at the cut or before it; the cut, if that is within it; the end, if
    // there is none.
    fn first_from<'c>(&'c self, cut: Cut<'c>) -> Cut<'c>
        ensures { (x : Reference) → is_in_one self.now x ≡ true → stands_before cut.entry x ≡ false → stands_before result x ≡ false }
    {
        let place = self.count_ended(cut);
        let low = match self.at(place) {
            Some(stretch) => stretch.low(),
            None => Cut::End,
        };
        if is_at_most(cut, low) && self.fits(place, place, cut, low) {
            low
        } else {
            cut
        }
    }

    /// Puts in a stretch: it becomes one with those that it touches, or is kept as one more; of 1,024 one is dropped
    /// before, each in its turn. Where memory is refused it isn't kept.
    pub fn note(&mut self, stretch: &ReadRange)
        ensures { AreNoMore stretch.now self.old self.new }
    {
        let first = self.count_short(stretch.low());
        let last = self.count_begun(stretch.high());
        if first < last {
            self.join(first, last, stretch);
        } else {
            self.put_new(first, stretch);
        }
    }

    // Where they are the most drops the one whose turn it is. The result is where a place is then.
    fn make_room(&mut self, place: usize) -> usize
        ensures { (x : Reference) → is_in_one self.new x ≡ true → is_in_one self.old x ≡ true }
    {
        if self.list.len() < MOST {
            return place;
        }
        let turn = self.next_turn(place);
        self.turn = turn;
        self.remove_between(turn, turn + 1);
        if turn < place { place - 1 } else { place }
    }

    // Whose turn it is: not that of the one before the place, but the next's.
    fn next_turn(&self, place: usize) -> usize
        ensures { result < 1024 }
    {
        let turn = (self.turn % MOST + STRIDE) % MOST;
        if turn + 1 == place {
            place % MOST
        } else {
            turn
        }
    }

    // Puts a stretch in place of those between two places, with what they have.
    fn join(&mut self, first: usize, last: usize, stretch: &ReadRange)
        requires { first < last }
        ensures { AreNoMore stretch.now self.old self.new }
    {
        if last > self.list.len() {
            return;
        }
        match joined(&self.list[first], &self.list[last - 1], stretch) {
            Some(joined) => self.put(first, last, joined),
            None => {}
        }
    }

    fn put_new(&mut self, place: usize, stretch: &ReadRange)
        ensures { AreNoMore stretch.now self.old self.new }
    {
        match ReadRange::new(stretch.low(), stretch.high()) {
            Ok(copy) => self.put_one(place, copy),
            Err(AllocError) => {}
        }
    }

    /// What is kept after a command: what is left by it (`left_by`), and the stretch over which it has passed, if it
    /// has. All are empty on whatever database what is left and that one are.
    pub fn follow(&mut self, left: Left, passed: &Option<ReadRange>)
        ensures { (m : Database) → AreEmptyBut left self.old m → IfSome passed.now (λ stretch. IsEmpty stretch m) → AreEmpty self.new m }
    {
        self.leave(left);
        match passed {
            Some(stretch) => self.note(stretch),
            None => {}
        }
    }

    fn leave(&mut self, left: Left)
        ensures { (m : Database) → AreEmptyBut left self.old m → AreEmpty self.new m }
    {
        match left {
            Left::All => {}
            Left::Without(range) => self.take_out(range.low(), range.high()),
            Left::Nothing => self.clear(),
        }
    }

    // The last that begins at the cut or before it, if the cut lies in it or at its end.
    fn around(&self, cut: Cut<'_>) -> Option<&ReadRange>
        ensures one { IfSome result (λ stretch. (x : Reference) → is_in stretch.now x ≡ true → is_in_one self.now x ≡ true) }
        ensures lies { IfSome result (λ stretch. LiesIn cut.entry stretch.now) }
    {
        let begun = self.count_begun(cut);
        if begun == 0 {
            return None;
        }
        match self.at(begun - 1) {
            Some(stretch) => {
                if has_cut(stretch, cut) {
                    Some(stretch)
                } else {
                    None
                }
            }
            None => None,
        }
    }

    // Whether the cut lies in one of the stretches. Advice, on which no contract rests.
    pub(crate) fn have(&self, cut: Cut<'_>) -> bool {
        self.around(cut).is_some()
    }

    // Whether one that no look-up has found may be put in: it leaves room for those of half as many. Advice.
    pub(crate) fn have_room(&self) -> bool {
        self.list.len() < HALF
    }

    // Where a look-up forward from the cut begins: at the end of a stretch in which the cut lies.
    pub(crate) fn end_from<'c>(&'c self, cut: Cut<'c>) -> Cut<'c>
        ensures { (m : Database) → AreEmpty self.now m → PartAlike cut.entry result m }
    {
        match self.around(cut) {
            Some(stretch) => stretch.high(),
            None => cut,
        }
    }

    // Where a look-up backward from the cut begins: at the beginning of a stretch in which the cut lies.
    pub(crate) fn start_before<'c>(&'c self, cut: Cut<'c>) -> Cut<'c>
        ensures { (m : Database) → AreEmpty self.now m → PartAlike cut.entry result m }
    {
        match self.around(cut) {
            Some(stretch) => stretch.low(),
            None => cut,
        }
    }

    // Where the next stretch behind the cut begins, if that is before the end.
    pub(crate) fn next_start<'c>(&'c self, cut: Cut<'_>, end: Option<Cut<'_>>) -> Option<Cut<'c>>
        ensures { IfSome result (λ start. StartsBetween cut.entry start end.entry) }
    {
        match self.at(self.count_begun(cut)) {
            Some(stretch) => {
                let start = stretch.low();
                if stands_between(cut, start, end) {
                    Some(start)
                } else {
                    None
                }
            }
            None => None,
        }
    }

    // Where the last stretch before the cut ends, if that is behind the floor.
    pub(crate) fn last_end<'c>(&'c self, cut: Cut<'_>, floor: Option<Cut<'_>>) -> Option<Cut<'c>>
        ensures { IfSome result (λ end. EndsBetween cut.entry end floor.entry) }
    {
        let begun = self.count_before(cut);
        if begun == 0 {
            return None;
        }
        match self.at(begun - 1) {
            Some(stretch) => {
                let end = stretch.high();
                if ends_between(cut, end, floor) {
                    Some(end)
                } else {
                    None
                }
            }
            None => None,
        }
    }
}
