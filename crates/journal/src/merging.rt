//! Changes made in a sorted list where it stands: what has to move, moves once.
ghost use Rattle.std.specs.Prelude.{◌≡◌, ◌≤◌, ◌<◌, ◌+◌, ◌++◌, [], ◌∷◌, List, ℕ, length, take, drop, true, false, vec_capacity, slice_index_or, slice_set, OnOk, IfOk, MatchOption};
ghost use Rattle.std.specs.Ordering.{is_lt};
ghost use Rattle.std.specs.VecDeque.{deque_capacity};
ghost use Rattle.std.specs.declared.cmp.Ordering.TheVariants.{Less};
ghost use Rattle.std.specs.FinMap.{is_sorted};
ghost use Rattle.collation.specs.Reference.{Reference};
ghost use Rattle.collation.specs.Order.{ref_cmp};
ghost use Rattle.journal.specs.Merging.{put_to, are_before, BeginsFrom, IsKept, AreKept, IsSet, IsPassed, IsAdded, is_first_at, put_all};

use collation::Text;
use key_codec::Key;
use std::alloc::{AllocError, Global};
use std::collections::VecDeque;
use std::marker::Model;
use std::mem;

// What stood at a place, in exchange for another node.
fn exchange(nodes: &mut Vec<(Key, Text)>, at: usize, node: (Key, Text)) -> (Key, Text)
    requires { at < length nodes.old.items }
    ensures old { (d : Reference × List ℕ) → result ≡ slice_index_or nodes.old.items at d }
    ensures new { nodes.new.items ≡ slice_set nodes.old.items at node }
    ensures capacity { vec_capacity nodes.new ≡ vec_capacity nodes.old }
{
    mem::replace(&mut nodes[at], node)
}

// The node at a place gets another value.
fn set_value(nodes: &mut Vec<(Key, Text)>, at: usize, value: Text)
    requires { at < length nodes.old.items }
    ensures new { (d : Reference × List ℕ) → nodes.new.items ≡ slice_set nodes.old.items at ((slice_index_or nodes.old.items at d).0, value) }
    ensures capacity { vec_capacity nodes.new ≡ vec_capacity nodes.old }
{
    let node = &mut nodes[at];
    node.1 = value;
}

// Two nodes in each other's place.
fn swap(nodes: &mut Vec<(Key, Text)>, first: usize, second: usize)
    requires order { first ≤ second }
    requires within { second < length nodes.old.items }
    ensures new { (d : Reference × List ℕ) → nodes.new.items ≡ slice_set (slice_set nodes.old.items first (slice_index_or nodes.old.items second d)) second (slice_index_or nodes.old.items first d) }
    ensures capacity { vec_capacity nodes.new ≡ vec_capacity nodes.old }
{
    nodes.swap(first, second);
}

/// A list of nodes in which changes are made from its front on: what is done, and what is left. What is done stands in
/// front, and what is left from `next` on. A node that finds no place in between waits, until one that is left is taken.
#[derive(Drop)]
pub(crate) struct Merging {
    nodes: Vec<(Key, Text)>,
    done: usize,
    next: usize,
    waiting: VecDeque<(Key, Text)>,
    room: usize,
}

impl Model for Merging {
    ghost use Rattle.std.specs.Prelude.{vec_capacity};
    ghost use Rattle.std.specs.VecDeque.{deque_capacity};
    ghost use Rattle.journal.specs.Merging.{Parted, KeepsPlaces, parted};

    ghost Value = { Parted };

    ghost view = { λ m. parted m.nodes.items m.waiting.items m.done m.next m.room };

    ghost invariant = { λ m. KeepsPlaces m.nodes.items m.waiting.items m.done m.next m.room (vec_capacity m.nodes) (deque_capacity m.waiting) };
}

impl Merging {
    /// All of these nodes are left.
    pub(crate) fn new(
        nodes: Vec<(Key, Text)>,
        waiting: VecDeque<(Key, Text)>,
        room: usize,
    ) -> Merging
        requires empty { waiting.items ≡ [] }
        requires places { length nodes.items + room ≤ vec_capacity nodes }
        requires seats { room ≤ deque_capacity waiting }
        ensures done { result.done ≡ [] }
        ensures left { result.left ≡ nodes.items }
        ensures room { result.room ≡ room }
    {
        Merging {
            nodes,
            done: 0,
            next: 0,
            waiting,
            room,
        }
    }

    // The first that is left stays, where no node waits.
    fn keep_back(&mut self)
        requires some { 0 < length self.old.left }
        requires none { self.old.waits ≡ false }
        ensures kept { IsKept self.old self.new }
    {
        swap(&mut self.nodes, self.done, self.next);
        self.done += 1;
        self.next += 1;
    }

    // The first that is left stays: it waits, and the first that waits takes its place.
    fn keep_behind(&mut self)
        requires some { 0 < length self.old.left }
        requires waits { self.old.waits ≡ true }
        ensures kept { IsKept self.old self.new }
    {
        match self.waiting.pop_front() {
            Some(node) => {
                let node = exchange(&mut self.nodes, self.next, node);
                self.waiting.push_back_reserved(node);
                self.done += 1;
                self.next += 1;
            }
            None => unreachable!(),
        }
    }

    // The first that is left stays.
    fn keep(&mut self)
        requires { 0 < length self.old.left }
        ensures { IsKept self.old self.new }
    {
        if self.waiting.is_empty() {
            self.keep_back();
        } else {
            self.keep_behind();
        }
    }

    // The first that is left gets another value, and stays.
    fn set(&mut self, value: Text)
        requires { 0 < length self.old.left }
        ensures { IsSet value self.old self.new }
    {
        set_value(&mut self.nodes, self.next, value);
        self.keep();
    }

    // The first that is left goes, where a node waits: it takes its place.
    fn pass_behind(&mut self)
        requires some { 0 < length self.old.left }
        requires waits { self.old.waits ≡ true }
        ensures passed { IsPassed self.old self.new }
    {
        match self.waiting.pop_front() {
            Some(node) => {
                drop(exchange(&mut self.nodes, self.next, node));
                self.done += 1;
                self.next += 1;
            }
            None => unreachable!(),
        }
    }

    // The first that is left goes.
    fn pass(&mut self)
        requires { 0 < length self.old.left }
        ensures { IsPassed self.old self.new }
    {
        if self.waiting.is_empty() {
            self.next += 1;
        } else {
            self.pass_behind();
        }
    }

    // A node is done that wasn't left.
    fn add(&mut self, node: (Key, Text))
        requires { 0 < self.old.room }
        ensures { IsAdded node self.old self.new }
    {
        self.room -= 1;
        if self.done < self.next {
            drop(exchange(&mut self.nodes, self.done, node));
            self.done += 1;
        } else {
            self.waiting.push_back_reserved(node);
        }
    }

    // The first that is left.
    fn first(&self) -> Option<&(Key, Text)>
        ensures { MatchOption result (self.now.left ≡ []) (λ e. (rest : List (Reference × List ℕ)) × (self.now.left ≡ e.now ∷ rest)) }
    {
        self.nodes.get(self.next)
    }

    // The first that are left stay, so many, one after the other.
    fn keep_each(&mut self, count: usize)
        requires { count ≤ length self.old.left }
        ensures { AreKept count self.old self.new }
    {
        for _ in 0..count {
            self.keep();
        }
    }

    // The first that are left stay, so many: where nothing has moved, as they stand.
    fn keep_first(&mut self, count: usize)
        requires { count ≤ length self.old.left }
        ensures { AreKept count self.old self.new }
    {
        if self.done == self.next && self.waiting.is_empty() {
            self.done += count;
            self.next += count;
        } else {
            self.keep_each(count);
        }
    }

    // How many of those that are left stand before the key: they are in order.
    fn count_before(&self, key: &Key) -> usize
        requires { is_sorted ref_cmp self.now.left ≡ true }
        ensures within { result ≤ length self.now.left }
        ensures before { are_before key.now (take result self.now.left) ≡ true }
        ensures from { BeginsFrom key.now (drop result self.now.left) }
    {
        self.nodes[self.next..].partition_point(
            |node: &(Key, Text)| -> bool
                ensures { result ≡ is_lt (ref_cmp node.now.0 key.entry.now) }
            { node.0 < *key },
        )
    }

    // What is left stays up to the first that doesn't stand before the key.
    fn keep_before(&mut self, key: &Key)
        requires { is_sorted ref_cmp self.old.left ≡ true }
        ensures all { self.new.done ++ self.new.left ≡ self.old.done ++ self.old.left }
        ensures before { are_before key.now self.old.done ≡ true → are_before key.now self.new.done ≡ true }
        ensures from { BeginsFrom key.now self.new.left }
        ensures room { self.new.room ≡ self.old.room }
    {
        let count = self.count_before(key);
        self.keep_first(count);
    }

    // Whether the first that is left is the key's.
    fn is_first_at(&self, key: &Key) -> bool
        ensures { result ≡ is_first_at key.now self.now.left }
    {
        match self.first() {
            Some(node) => node.0 == *key,
            None => false,
        }
    }

    // A change of the next key, which stands behind what is done.
    fn make(&mut self, key: Key, value: Option<Text>)
        requires room { 0 < self.old.room }
        requires sorted { is_sorted ref_cmp (self.old.done ++ self.old.left) ≡ true }
        requires behind { are_before key self.old.done ≡ true }
        ensures made { self.new.done ++ self.new.left ≡ put_to key value (self.old.done ++ self.old.left) }
        ensures behind { (later : Reference) → ref_cmp key later ≡ Less → are_before later self.new.done ≡ true }
        ensures room { self.old.room ≤ self.new.room + 1 }
    {
        self.keep_before(&key);
        match (self.is_first_at(&key), value) {
            (true, Some(value)) => self.set(value),
            (true, None) => self.pass(),
            (false, Some(value)) => self.add((key, value)),
            (false, None) => {}
        }
    }

    // All changes, in the order of their keys.
    fn make_all(&mut self, changes: Vec<(Key, Option<Text>)>)
        requires room { length changes.items ≤ self.old.room }
        requires none { self.old.done ≡ [] }
        requires sorted { is_sorted ref_cmp self.old.left ≡ true }
        requires rising { is_sorted ref_cmp changes.items ≡ true }
        ensures made { self.new.done ++ self.new.left ≡ put_all changes.items self.old.left }
    {
        'changes: for (key, value) in changes {
            self.make(key, value);
        }
    }

    // All that is left stays.
    fn keep_rest(&mut self)
        ensures done { self.new.done ≡ self.old.done ++ self.old.left }
        ensures left { self.new.left ≡ [] }
    {
        let count = self.nodes.len() - self.next;
        self.keep_first(count);
    }

    // The list, where nothing is left.
    fn end(self) -> Vec<(Key, Text)>
        requires { self.left ≡ [] }
        ensures { result.items ≡ self.done }
    {
        let Merging {
            nodes,
            done,
            waiting,
            ..
        } = self;
        let mut nodes = nodes;
        nodes.truncate(done);
        push_each(&mut nodes, waiting);
        nodes
    }
}

// Those that wait come behind.
fn push_each(nodes: &mut Vec<(Key, Text)>, waiting: VecDeque<(Key, Text)>)
    requires { length nodes.old.items + length waiting.items ≤ vec_capacity nodes.old }
    ensures { nodes.new.items ≡ nodes.old.items ++ waiting.items }
{
    let mut waiting = waiting;
    while let Some(node) = waiting.pop_front() {
        nodes.push_reserved(node);
    }
}

/// Room in the list for so many nodes more, and for as many to wait. Refused for want of memory; the list stays.
pub(crate) fn make_room(
    nodes: &mut Vec<(Key, Text)>,
    count: usize,
) -> Result<VecDeque<(Key, Text)>, AllocError>
    ensures items { nodes.new.items ≡ nodes.old.items }
    ensures empty { IfOk result (λ waiting. waiting.items ≡ []) }
    ensures places { OnOk result (length nodes.old.items + count ≤ vec_capacity nodes.new) }
    ensures seats { IfOk result (λ waiting. count ≤ deque_capacity waiting) }
{
    nodes.reserve(count)?;
    VecDeque::with_capacity(*nodes.allocator(), count)
}

/// The list with the changes, whose keys rise.
pub(crate) fn merged(
    nodes: Vec<(Key, Text)>,
    waiting: VecDeque<(Key, Text)>,
    changes: Vec<(Key, Option<Text>)>,
) -> Vec<(Key, Text)>
    requires empty { waiting.items ≡ [] }
    requires places { length nodes.items + length changes.items ≤ vec_capacity nodes }
    requires seats { length changes.items ≤ deque_capacity waiting }
    requires sorted { is_sorted ref_cmp nodes.items ≡ true }
    requires rising { is_sorted ref_cmp changes.items ≡ true }
    ensures { result.items ≡ put_all changes.items nodes.items }
{
    let room = changes.len();
    let mut merging = Merging::new(nodes, waiting, room);
    merging.make_all(changes);
    merging.keep_rest();
    merging.end()
}
