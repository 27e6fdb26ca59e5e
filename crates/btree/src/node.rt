//! A node: a leaf with pairs, or an inner node with separators and a kid before, between and after them.
ghost use Rattle.std.specs.Prelude.{true, false, IfSome, IfOk, IfErr, OnOk, OnErr, IsOk, IsSome, IfNone, None, Some, ◌⊎◌, suc, ◌++◌, ◌∷◌, [], length, take, drop, vec_capacity, ◌≡◌, ◌+◌, ◌-◌, ◌*◌, ◌^◌, ◌<◌, ◌≤◌};
ghost use Rattle.std.specs.Option.{option_map};
ghost use Rattle.std.specs.List.{insert};
ghost use Rattle.std.specs.FinMap.Entries.{find, put};
ghost use Rattle.btree.specs.Order.{Ascends, Each, without};
ghost use Rattle.btree.specs.Gap.{IsPutIn};
ghost use Rattle.btree.specs.Parts.{Parts, IsWithin, IsSure};
ghost use Rattle.btree.specs.Rows.{branch_of, sizes_of, IsNode, IsInner, HasRoom, HaveRoom, HasBecome, IsKid, IsFull, IsSpare, IsParting, HasShrunk};

use crate::between::{gap_beside, insert_between, separator_after, separator_before};
use crate::ease::ease;
use crate::leaf::{insert_leaf, replace_in_leaf};
use crate::mend::{append_reserved, mend_inner, merge_two, remove_below};
use crate::row::{cut_anew, insert_reserved};
use crate::search::{kid_near, kid_of, place};
use crate::separator::copy_of;
use crate::share::Share;
use crate::split::{Beside, Inserted, put_beside, spare_rows, split_long};
use crate::trail::Trail;
use std::alloc::{AllocError, AllocFailed, Global};
use std::marker::Model;
use std::mem;

pub mod alone;
pub mod places;
pub mod values;

#[derive(Drop)]
pub struct Node<K: Ord, V> {
    entries: Vec<(K, V)>,
    separators: Vec<K>,
    kids: Vec<Node<K, V>>,
}

impl<K: Ord, V> Model for Node<K, V> {
    ghost use Rattle.std.proofs.Common.{arith};
    ghost use Rattle.btree.specs.Branch.{Branch, branch_code};
    ghost use Rattle.btree.specs.Rows.{branch_of, IsNode, HasRoom, HaveRoom};
    ghost use Rattle.btree.specs.laws.Falls.{most_le-height};

    ghost Value = { Branch K V };

    ghost coded = { branch_code K.code V.code };

    ghost view = { λ n. branch_of n.entries.items n.separators.items n.kids.items };

    ghost invariant = { λ n. IsNode K.cmp n.entries.items n.separators.items n.kids.items × HasRoom n.entries × HaveRoom n.separators n.kids };

    ghost size = { λ b. b.height };

    ghost size_decreases = { λ a h. omega (arith, most_le-height K.cmp a.entries.items a.separators.items a.kids.items h.0) };
}

/// A node's pairs, its separators and its kids.
pub type Rows<'a, K, V> = (&'a [(K, V)], &'a [K], &'a [Node<K, V>]);

impl<K: Ord, V> Node<K, V> {
    /// A leaf with these pairs.
    pub fn leaf(alloc: Global, entries: Vec<(K, V)>) -> Node<K, V>
        requires room { HasRoom entries }
        ensures { result ≡ branch_of entries.items [] [] }
    {
        Node {
            entries,
            separators: Vec::new(alloc),
            kids: Vec::new(alloc),
        }
    }

    /// An inner node with these separators and kids.
    pub fn inner(alloc: Global, separators: Vec<K>, kids: Vec<Node<K, V>>) -> Node<K, V>
        requires node { IsInner K.cmp separators.items kids.items }
        requires room { HaveRoom separators kids }
        ensures { result ≡ branch_of [] separators.items kids.items }
    {
        Node {
            entries: Vec::new(alloc),
            separators,
            kids,
        }
    }

    /// A leaf with no pairs.
    pub fn empty(alloc: Global) -> Node<K, V>
        ensures { result ≡ record { pairs = []; height = 0; count = 0; sizes = [] } }
    {
        Node::leaf(alloc, Vec::new(alloc))
    }

    /// How many pairs a leaf has, or separators an inner node.
    pub fn count(&self) -> usize
        ensures { result ≡ self.now.count }
    {
        if self.kids.is_empty() {
            self.entries.len()
        } else {
            self.separators.len()
        }
    }

    /// Whether it is a leaf.
    pub fn is_leaf(&self) -> bool
        ensures leaf { result ≡ true → self.now.height ≡ 0 }
        ensures inner { result ≡ false → 0 < self.now.height }
    {
        self.kids.is_empty()
    }

    /// Whether both are leaves and one can hold the pairs of both.
    pub fn fits_with(&self, right: &Node<K, V>) -> bool
        requires lower { IsKid 16 self.now.height self.now }
        requires upper { IsKid 16 self.now.height right.now }
        ensures leaf { result ≡ true → self.now.height ≡ 0 }
        ensures fits { result ≡ true → length (self.now.pairs ++ right.now.pairs) ≤ 32 }
        ensures many { result ≡ false → 32 < length (self.now.pairs ++ right.now.pairs) }
    {
        if !self.kids.is_empty() {
            return false;
        }
        self.entries.len() + right.entries.len() <= 32
    }

    /// A node's rows.
    pub fn rows(&self) -> Rows<'_, K, V>
        ensures same_view { branch_of result.0.now result.1.now result.2.now ≡ self.now }
        ensures sound { IsNode K.cmp result.0.now result.1.now result.2.now }
    {
        (&self.entries, &self.separators, &self.kids)
    }

    /// A look-up reads a node by this call alone. It counts the visit.
    pub fn read(&self, visits: &mut usize) -> Rows<'_, K, V>
        requires { visits.old < 2 ^ 63 }
        ensures visit { visits.new ≡ visits.old + 1 }
        ensures same_view { branch_of result.0.now result.1.now result.2.now ≡ self.now }
        ensures sound { IsNode K.cmp result.0.now result.1.now result.2.now }
    {
        *visits += 1;
        self.rows()
    }

    /// How many levels are below.
    pub fn height(&self) -> usize
        requires { self.now.height < 2 ^ 63 }
        ensures { result ≡ self.now.height }
    {
        match self.kids.first() {
            None => 0,
            Some(kid) => kid.height() + 1,
        }
    }

    /// Empty rows, with room for a node above this one if it is full.
    pub fn rows_above(&self, alloc: Global) -> Result<(Vec<K>, Vec<Node<K, V>>), AllocError>
    where
        K: Drop,
        V: Drop,
        ensures { IfOk result (λ r. 32 ≤ self.now.count → IsSpare r.0 r.1) }
    {
        if self.count() < 32 {
            return Ok((Vec::new(alloc), Vec::new(alloc)));
        }
        let separators = Vec::with_capacity(alloc, 33)?;
        let kids = Vec::with_capacity(alloc, 34)?;
        Ok((separators, kids))
    }

    /// Goes above what this node is now and the node beside it.
    pub fn rise(
        &mut self,
        alloc: Global,
        separators: Vec<K>,
        kids: Vec<Node<K, V>>,
        beside: Beside<K, V>,
    )
        requires spare { IsSpare separators kids }
        requires lower { IsKid 16 self.old.height self.old }
        requires upper { IsKid 16 self.old.height beside.1 }
        requires parts { Parts K.cmp beside.0 self.old.pairs beside.1.pairs }
        ensures pairs { self.new.pairs ≡ self.old.pairs ++ beside.1.pairs }
        ensures height { self.new.height ≡ suc self.old.height }
        ensures count { self.new.count ≡ 1 }
        ensures sizes { self.new.sizes ≡ sizes_of (self.old ∷ beside.1 ∷ []) }
    {
        let (separator, upper) = beside;
        let entries = mem::replace(&mut self.entries, Vec::new(alloc));
        let lower_separators = mem::replace(&mut self.separators, separators);
        let lower_kids = mem::replace(&mut self.kids, kids);
        let lower = Node {
            entries,
            separators: lower_separators,
            kids: lower_kids,
        };
        self.separators.push_reserved(separator);
        self.kids.push_reserved(lower);
        self.kids.push_reserved(upper);
    }
}

impl<K: Ord, V> Node<K, V> {
    /// The value of a key. Its way down goes on the trail.
    pub fn get(&self, key: &K, trail: &mut Trail) -> Option<&V>
        requires sorted { Ascends K.cmp self.now.pairs }
        requires counts { trail.old.visits + self.now.height < 2 ^ 63 }
        ensures found { option_map (λ v. v.now) result ≡ find K.cmp key.now self.now.pairs }
        ensures visited { trail.new.visits ≡ trail.old.visits + self.now.height + 1 }
    {
        let mut here = self;
        loop {
            let (entries, separators, kids) = here.read(&mut trail.visits);
            if kids.is_empty() {
                return match place(entries, key) {
                    Ok(at) => Some(&entries[at].1),
                    Err(at) => {
                        trail.note(at);
                        None
                    }
                };
            }
            let at = kid_of(separators, key);
            trail.note(at);
            here = &kids[at];
        }
    }

    /// Whether a key isn't there, told by the pair that a trail leads to and the one next to it. The trail then leads to where
    /// the key goes. Where it answers `false` the key may be there or not.
    pub fn misses_beside(&self, key: &K, trail: &mut Trail) -> bool
        requires sorted { Ascends K.cmp self.now.pairs }
        ensures missed { result ≡ true → find K.cmp key.now self.now.pairs ≡ None }
    {
        self.misses_between(key, trail, 0, None, None)
    }

    // As `misses_beside`, so many levels below the root, in a node whose pairs stand between the separators `low` and `high`,
    // where there are any. Nothing is compared on the way down to the leaf.
    fn misses_between<'a>(
        &'a self,
        key: &K,
        trail: &mut Trail,
        level: usize,
        low: Option<&'a K>,
        high: Option<&'a K>,
    ) -> bool
        requires sorted { Ascends K.cmp self.now.pairs }
        requires inside { Each (λ e. IsWithin K.cmp (option_map (λ k. k.now) low) (option_map (λ k. k.now) high) e.0) self.now.pairs }
        ensures missed { result ≡ true → find K.cmp key.now self.now.pairs ≡ None }
        ensures within { result ≡ true → IsWithin K.cmp (option_map (λ k. k.now) low.entry) (option_map (λ k. k.now) high.entry) key.now }
    {
        let at = trail.place(level);
        if self.kids.is_empty() {
            let Some(gap) = gap_beside(&self.entries, at, key, low, high) else {
                return false;
            };
            trail.put(level, gap);
            return true;
        }
        if at > self.separators.len() {
            return false;
        }
        let low = separator_before(&self.separators, at, low);
        let high = separator_after(&self.separators, at, high);
        let below = level.wrapping_add(1);
        self.kids[at].misses_between(key, trail, below, low, high)
    }
}

impl<K: Ord + Drop, V: Drop> Node<K, V> {
    /// Joins two inner nodes and the separator between them: into this one, if it can hold all, or cut anew.
    pub fn rejoin_inner(
        &mut self,
        separator: K,
        right: Node<K, V>,
        share: Share,
    ) -> Option<Beside<K, V>>
        requires lower { IsKid 15 right.height self.old }
        requires upper { IsKid 15 right.height right }
        requires inner { 0 < right.height }
        requires enough { 31 ≤ self.old.count + right.count }
        requires parts { Parts K.cmp separator self.old.pairs right.pairs }
        ensures joined { HasBecome K.cmp 16 right.height (self.old.pairs ++ right.pairs) self.new result }
        ensures two { 32 ≤ self.old.count + right.count → IsSome result }
    {
        let Node {
            entries: right_entries,
            separators: mut right_separators,
            kids: mut right_kids,
        } = right;
        let count = self.separators.len() + right_separators.len();
        self.separators.push_reserved(separator);
        if count < 32 {
            append_reserved(&mut self.separators, right_separators);
            append_reserved(&mut self.kids, right_kids);
            return None;
        }
        let first = share.first(count);
        cut_anew(&mut self.separators, &mut right_separators, first + 1);
        let separator = self.separators.take_last();
        cut_anew(&mut self.kids, &mut right_kids, first + 1);
        let upper = Node {
            entries: right_entries,
            separators: right_separators,
            kids: right_kids,
        };
        Some((separator, upper))
    }

    /// Joins two leaves: into this one, or cut anew where a separator parts them.
    pub fn rejoin_leaf(
        &mut self,
        right: Node<K, V>,
        parting: Option<(K, usize)>,
    ) -> Option<Beside<K, V>>
        requires lower { IsKid 15 0 self.old }
        requires upper { IsKid 15 0 right }
        requires enough { 31 ≤ self.old.count + right.count }
        requires parting { IsParting K.cmp (self.old.pairs ++ right.pairs) parting }
        ensures joined { HasBecome K.cmp 16 0 (self.old.pairs ++ right.pairs) self.new result }
        ensures one { parting ≡ None → result ≡ None }
        ensures two { IsSome parting → IsSome result }
    {
        let Node {
            entries: mut right_entries,
            separators: right_separators,
            kids: right_kids,
        } = right;
        match parting {
            None => {
                append_reserved(&mut self.entries, right_entries);
                None
            }
            Some((separator, first)) => {
                cut_anew(&mut self.entries, &mut right_entries, first);
                let upper = Node {
                    entries: right_entries,
                    separators: right_separators,
                    kids: right_kids,
                };
                Some((separator, upper))
            }
        }
    }

    /// Takes the pair of a key out of a leaf, and tells its place.
    pub fn take(&mut self, key: &K) -> Option<(usize, (K, V))>
        requires leaf { self.old.height ≡ 0 }
        requires sorted { Ascends K.cmp self.old.pairs }
        requires most { self.old.count ≤ 32 }
        ensures missed { IfNone result (find K.cmp key.now self.old.pairs ≡ None) }
        ensures kept { IfNone result (self.new ≡ self.old) }
        ensures found { IfSome result (λ r. find K.cmp key.now self.old.pairs ≡ Some r.1.1) }
        ensures pairs { self.new.pairs ≡ without K.cmp key.now self.old.pairs }
        ensures shrunk { HasShrunk self.old self.new }
        ensures back { IfSome result (λ r. (r.0 ≤ self.new.count) × (self.old ≡ record { pairs = insert self.new.pairs r.0 r.1; height = self.new.height; count = self.new.count + 1; sizes = self.new.sizes })) }
    {
        match place(&self.entries, key) {
            Err(_) => None,
            Ok(at) => Some((at, self.entries.remove(at))),
        }
    }

    /// Puts a pair back into a leaf from which it was just taken.
    pub fn put_back(&mut self, at: usize, pair: (K, V))
        requires leaf { self.old.height ≡ 0 }
        requires in_range { at ≤ self.old.count }
        requires enough { 15 ≤ self.old.count }
        requires most { self.old.count ≤ 31 }
        ensures { self.new ≡ record { pairs = insert self.old.pairs at pair; height = self.old.height; count = self.old.count + 1; sizes = self.old.sizes } }
    {
        insert_reserved(&mut self.entries, at, pair);
    }

    /// Takes out all pairs, and keeps the room for its own.
    pub fn clear(&mut self)
        ensures { self.new ≡ record { pairs = []; height = 0; count = 0; sizes = [] } }
    {
        self.entries.clear();
        self.separators.clear();
        self.kids.clear();
    }

    /// Gives way to the only kid, where there is no separator. Two leaves that one can hold become one before.
    pub fn fall(&mut self)
        requires most { self.old.count ≤ 32 }
        ensures pairs { self.new.pairs ≡ self.old.pairs }
        ensures height { (self.new.height ≤ self.old.height) × (self.old.height ≤ self.new.height + 1) }
        ensures inner { 0 < self.new.height → 0 < self.new.count }
        ensures many { 0 < self.new.height → 32 < length self.new.pairs }
        ensures most { self.new.count ≤ 32 }
        ensures full { IsFull self.new }
    {
        if self.kids.is_empty() {
            return;
        }
        merge_two(&mut self.separators, &mut self.kids);
        if self.separators.is_empty() {
            let kid = self.kids.take_last();
            *self = kid;
        }
    }
}

impl<K: Ord + Drop, V: Drop> Node<K, V> {
    /// Puts a key that isn't there, with its value, into a leaf with places left, by the trail of a look-up that missed it: two
    /// comparisons tell whether the trail ends where the key goes. No node is split or eased, and no memory taken. Where that
    /// isn't so nothing changes, and both come back.
    pub fn put_in_leaf(&mut self, key: K, value: V, trail: &Trail) -> Result<(), (K, V)>
        requires sorted { Ascends K.cmp self.old.pairs }
        requires fits { self.old.count ≤ 32 }
        ensures missed { OnOk result (find K.cmp key self.old.pairs ≡ None) }
        ensures same_size { IsKid self.old.count self.old.height self.new }
        ensures put { OnOk result (self.new.pairs ≡ put K.cmp key value self.old.pairs) }
        ensures handed_back { IfErr result (λ back. back ≡ (key, value)) }
        ensures kept { OnErr result (self.new ≡ self.old) }
    {
        let mut pair = Some((key, value));
        if self.put_between(&mut pair, trail, 0, None, None) {
            return Ok(());
        }
        match pair {
            Some(back) => Err(back),
            None => unreachable!(),
        }
    }

    // As `put_in_leaf`, so many levels below the root, in a node whose pairs stand between the separators `low` and `high`,
    // where there are any. Nothing is compared on the way down to the leaf, and the pair moves only into it.
    fn put_between<'a>(
        &mut self,
        pair: &mut Option<(K, V)>,
        trail: &'a Trail,
        level: usize,
        low: Option<&'a K>,
        high: Option<&'a K>,
    ) -> bool
        requires sorted { Ascends K.cmp self.old.pairs }
        requires inside { Each (λ e. IsWithin K.cmp (option_map (λ k. k.now) low) (option_map (λ k. k.now) high) e.0) self.old.pairs }
        requires fits { self.old.count ≤ 32 }
        ensures some { result ≡ true → IsSome pair.old }
        ensures put { result ≡ true → IfSome pair.old (λ p. IsPutIn K.cmp p.0 p.1 self.old.pairs self.new.pairs) }
        ensures within { result ≡ true → IfSome pair.old (λ p. IsWithin K.cmp (option_map (λ k. k.now) low.entry) (option_map (λ k. k.now) high.entry) p.0) }
        ensures same_size { IsKid self.old.count self.old.height self.new }
        ensures handed_back { result ≡ false → pair.new ≡ pair.old }
        ensures kept { result ≡ false → self.new ≡ self.old }
    {
        let at = trail.place(level);
        if self.kids.is_empty() {
            if at > self.entries.len() {
                return false;
            }
            return insert_between(&mut self.entries, at, pair, low, high);
        }
        if at > self.separators.len() {
            return false;
        }
        let low = separator_before(&self.separators, at, low);
        let high = separator_after(&self.separators, at, high);
        let below = level.wrapping_add(1);
        self.kids[at].put_between(pair, trail, below, low, high)
    }

    /// Sets the value of a key that is there, and gives the one before. Where it isn't, the value comes back.
    pub fn replace(&mut self, key: &K, value: V) -> Result<V, V>
        requires sorted { Ascends K.cmp self.old.pairs }
        requires fits { self.old.count ≤ 32 }
        ensures before { IfOk result (λ before. find K.cmp key.now self.old.pairs ≡ Some before) }
        ensures same_size { IsKid self.old.count self.old.height self.new }
        ensures put { IfOk result (λ _. self.new.pairs ≡ put K.cmp key.now value self.old.pairs) }
        ensures handed_back { IfErr result (λ back. back ≡ value) }
        ensures missed { OnErr result (find K.cmp key.now self.old.pairs ≡ None) }
        ensures kept { OnErr result (self.new ≡ self.old) }
    {
        if self.kids.is_empty() {
            return replace_in_leaf(&mut self.entries, key, value);
        }
        let at = kid_of(&self.separators, key);
        self.kids[at].replace(key, value)
    }
}

impl<K: Ord + Clone, V: Drop> Node<K, V> {
    // A copy of the key with which the second of two leaves begins once the first has so many pairs of both.
    fn separator_at(&self, right: &Node<K, V>, first: usize) -> Result<K, AllocError>
        requires leaf { self.now.height ≡ 0 }
        requires right_leaf { right.now.height ≡ 0 }
        requires in_range { first < length (self.now.pairs ++ right.now.pairs) }
        requires sorted { Ascends K.cmp (self.now.pairs ++ right.now.pairs) }
        ensures parts { IfOk result (λ s. Parts K.cmp s (take first (self.now.pairs ++ right.now.pairs)) (drop first (self.now.pairs ++ right.now.pairs))) }
        ensures sure { Each (λ e. IsSure K.cmp K.is_clone K.is_infallible e.0) (self.now.pairs ++ right.now.pairs) → IsOk result }
    {
        let count = self.entries.len();
        if first < count {
            copy_of(&self.entries[first].0)
        } else {
            copy_of(&right.entries[first - count].0)
        }
    }

    /// How two leaves share their pairs: one holds all, or a new separator parts so many from the others.
    ///
    /// Refused where there is no memory for the separator.
    pub fn parting(
        &self,
        right: &Node<K, V>,
        share: Share,
    ) -> Result<Option<(K, usize)>, AllocError>
        requires lower { IsKid 15 0 self.now }
        requires upper { IsKid 15 0 right.now }
        requires sorted { Ascends K.cmp (self.now.pairs ++ right.now.pairs) }
        ensures parting { IfOk result (λ parting. IsParting K.cmp (self.now.pairs ++ right.now.pairs) parting) }
        ensures two { IfOk result (λ parting. 33 ≤ self.now.count + right.now.count → IsSome parting) }
        ensures sure { Each (λ e. IsSure K.cmp K.is_clone K.is_infallible e.0) (self.now.pairs ++ right.now.pairs) → IsOk result }
    {
        let count = self.entries.len() + right.entries.len();
        if count <= 32 {
            return Ok(None);
        }
        let first = share.first(count);
        let separator = self.separator_at(right, first)?;
        Ok(Some((separator, first)))
    }

    /// Sets the value of a key, by a trail, so many levels below the root. Where there is no memory, nothing changes, and
    /// both come back.
    pub fn insert(
        &mut self,
        alloc: Global,
        key: K,
        value: V,
        trail: &Trail,
        level: usize,
    ) -> Result<Inserted<K, V>, AllocFailed<(K, V)>>
        requires sorted { Ascends K.cmp self.old.pairs }
        requires fits { self.old.count ≤ 32 }
        ensures before { IfOk result (λ r. r.0 ≡ find K.cmp key self.old.pairs) }
        ensures grown { IfOk result (λ r. HasBecome K.cmp self.old.count self.old.height (put K.cmp key value self.old.pairs) self.new r.1) }
        ensures only_full { IfOk result (λ r. IsSome r.1 → 32 ≤ self.old.count) }
        ensures fresh { IfOk result (λ r. IsSome r.1 → r.0 ≡ None) }
        ensures handed_back { IfErr result (λ refused. refused.value ≡ (key, value)) }
        ensures refused { OnErr result (self.new ≡ self.old) }
    {
        let near = trail.place(level);
        if self.kids.is_empty() {
            return insert_leaf(&mut self.entries, alloc, key, value, near);
        }
        let at = kid_near(&self.separators, &key, near);
        let Ok((spare, spare_kids)) = spare_rows(alloc, &self.separators, &self.kids, at) else {
            return Err(AllocFailed {
                value: (key, value),
            });
        };
        let below = level.wrapping_add(1);
        let (before, beside) = self.kids[at].insert(alloc, key, value, trail, below)?;
        let Some(beside) = beside else {
            ease(&mut self.separators, &mut self.kids, at);
            return Ok((before, None));
        };
        put_beside(&mut self.separators, &mut self.kids, at, Some(beside));
        let beside = split_long(
            alloc,
            &mut self.separators,
            &mut self.kids,
            spare,
            spare_kids,
        );
        Ok((before, beside))
    }

    /// Takes out the pair of a key, and gives its value.
    ///
    /// Refused where two leaves have to be parted anew and there is no memory for the separator: then nothing changes.
    pub fn remove(&mut self, key: &K) -> Result<Option<V>, AllocError>
        requires sorted { Ascends K.cmp self.old.pairs }
        requires some { 0 < self.old.height → 0 < self.old.count }
        requires most { self.old.count ≤ 32 }
        ensures value { IfOk result (λ value. value ≡ find K.cmp key.now self.old.pairs) }
        ensures pairs { OnOk result (self.new.pairs ≡ without K.cmp key.now self.old.pairs) }
        ensures shrunk { HasShrunk self.old self.new }
        ensures refused { OnErr result (self.new ≡ self.old) }
        ensures sure { Each (λ e. IsSure K.cmp K.is_clone K.is_infallible e.0) self.old.pairs → IsOk result }
    {
        if self.kids.is_empty() {
            let Some((_, pair)) = self.take(key) else {
                return Ok(None);
            };
            let (_key, value) = pair;
            return Ok(Some(value));
        }
        let at = kid_of(&self.separators, key);
        if self.kids[at].is_leaf() {
            return remove_below(&mut self.separators, &mut self.kids, at, key);
        }
        let value = self.kids[at].remove(key)?;
        mend_inner(&mut self.separators, &mut self.kids, at);
        Ok(value)
    }
}
