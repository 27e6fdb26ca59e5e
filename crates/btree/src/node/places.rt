//! A leaf that loses the pairs between two places, and two such leaves joined.
ghost use Rattle.std.specs.Prelude.{IfOk, IsOk, OnOk, OnErr, ◌≡◌, ◌+◌, ◌-◌, ◌^◌, ◌<◌, ◌≤◌, ◌++◌, [], length, take, drop, vec_capacity};
ghost use Rattle.std.specs.List.{remove_range};
ghost use Rattle.btree.specs.Order.{Ascends, Each};
ghost use Rattle.btree.specs.Parts.{Parts, IsSure};
ghost use Rattle.btree.specs.Rows.{IsKid, IsParting, HasBecome};
ghost use Rattle.btree.specs.Stretch.{ArePlaces, HasLost, IsRun, IsStretch, lessened};

use super::Node;
use crate::mend::{append_reserved, mend_inner};
use crate::row::{cut_anew, kept_at, remove_between};
use crate::search::count_before;
use crate::seek::Point;
use crate::separator::copy_of;
use crate::share::Share;
use crate::split::Beside;
use crate::stretch::{kid_from, take_below};
use std::alloc::AllocError;

/// Places of a leaf: the first, and the one after the last.
#[derive(Clone, Copy)]
pub struct Places {
    pub first: usize,
    pub end: usize,
}

impl<K: Ord, V> Node<K, V> {
    /// Where a leaf's pairs stand that are not before one point, and are before another.
    pub fn places<P: Point<K>, Q: Point<K>>(&self, from: &P, to: &Q) -> Places
        requires leaf { self.now.height ≡ 0 }
        requires sorted { Ascends K.cmp self.now.pairs }
        ensures run { IsRun (P.before from.now) (Q.before to.now) self.now.pairs result.first result.end }
        ensures places { ArePlaces self.now result.first result.end }
    {
        let first = count_before(&self.entries, from);
        let end = count_before(&self.entries, to).max(first);
        Places { first, end }
    }
}

impl<K: Ord + Drop, V: Drop> Node<K, V> {
    /// Takes the pairs between two places out of a leaf.
    pub fn take_places(&mut self, places: Places)
        requires leaf { self.old.height ≡ 0 }
        requires places { ArePlaces self.old places.first places.end }
        ensures rest { self.new ≡ lessened self.old places.first places.end }
        ensures count { self.new.count + (places.end - places.first) ≡ self.old.count }
    {
        remove_between(&mut self.entries, places.first, places.end);
    }

    /// Joins two leaves without the pairs between some places, which are taken out: into this one, or cut anew where a separator
    /// parts them.
    pub fn rejoin_lessened(
        &mut self,
        right: Node<K, V>,
        lower: Places,
        upper: Places,
        parting: Option<(K, usize)>,
    ) -> Option<Beside<K, V>>
        requires leaf { IsKid 16 0 self.old }
        requires right_leaf { IsKid 16 0 right }
        requires lower_places { ArePlaces self.old lower.first lower.end }
        requires upper_places { ArePlaces right upper.first upper.end }
        requires enough { 16 ≤ length ((lessened self.old lower.first lower.end).pairs ++ (lessened right upper.first upper.end).pairs) }
        requires parting { IsParting K.cmp ((lessened self.old lower.first lower.end).pairs ++ (lessened right upper.first upper.end).pairs) parting }
        ensures joined { HasBecome K.cmp 16 0 ((lessened self.old lower.first lower.end).pairs ++ (lessened right upper.first upper.end).pairs) self.new result }
    {
        let Node {
            entries: mut right_entries,
            separators: right_separators,
            kids: right_kids,
        } = right;
        remove_between(&mut self.entries, lower.first, lower.end);
        remove_between(&mut right_entries, upper.first, upper.end);
        match parting {
            None => {
                append_reserved(&mut self.entries, right_entries);
                None
            }
            Some((separator, first)) => {
                cut_anew(&mut self.entries, &mut right_entries, first);
                let rest = Node {
                    entries: right_entries,
                    separators: right_separators,
                    kids: right_kids,
                };
                Some((separator, rest))
            }
        }
    }
}

impl<K: Ord + Clone, V: Drop> Node<K, V> {
    /// Takes out a stretch of the pairs that are not before one point and are before another: those of one leaf. Tells how many:
    /// none only where there are none.
    ///
    /// Refused where two leaves have to be parted anew and there is no memory for the separator: then nothing changes.
    pub fn take_stretch<P: Point<K>, Q: Point<K>>(
        &mut self,
        from: &P,
        to: &Q,
    ) -> Result<usize, AllocError>
        requires sorted { Ascends K.cmp self.old.pairs }
        requires some { 0 < self.old.height → 0 < self.old.count }
        requires most { self.old.count ≤ 32 }
        requires low { self.old.height < 2 ^ 63 }
        ensures stretch { IfOk result (λ count. IsStretch (P.before from.now) (Q.before to.now) self.old.pairs count self.new.pairs) }
        ensures lost { OnOk result (HasLost self.old self.new) }
        ensures refused { OnErr result (self.new ≡ self.old) }
        ensures sure { Each (λ e. IsSure K.cmp K.is_clone K.is_infallible e.0) self.old.pairs → IsOk result }
    {
        if self.kids.is_empty() {
            let places = self.places(from, to);
            self.take_places(places);
            return Ok(places.end - places.first);
        }
        let at = kid_from(&self.separators, &self.kids, from);
        if self.kids[at].is_leaf() {
            return take_below(&mut self.separators, &mut self.kids, at, from, to);
        }
        let count = self.kids[at].take_stretch(from, to)?;
        mend_inner(&mut self.separators, &mut self.kids, at);
        Ok(count)
    }

    // A copy of the key with which the second of two leaves begins once the first has so many pairs that both keep.
    fn separator_kept(
        &self,
        right: &Node<K, V>,
        lower: Places,
        upper: Places,
        first: usize,
    ) -> Result<K, AllocError>
        requires leaf { self.now.height ≡ 0 }
        requires right_leaf { right.now.height ≡ 0 }
        requires lower_places { ArePlaces self.now lower.first lower.end }
        requires upper_places { ArePlaces right.now upper.first upper.end }
        requires in_range { first < length ((lessened self.now lower.first lower.end).pairs ++ (lessened right.now upper.first upper.end).pairs) }
        requires sorted { Ascends K.cmp ((lessened self.now lower.first lower.end).pairs ++ (lessened right.now upper.first upper.end).pairs) }
        ensures parts { IfOk result (λ s. Parts K.cmp s (take first ((lessened self.now lower.first lower.end).pairs ++ (lessened right.now upper.first upper.end).pairs)) (drop first ((lessened self.now lower.first lower.end).pairs ++ (lessened right.now upper.first upper.end).pairs))) }
        ensures sure { Each (λ e. IsSure K.cmp K.is_clone K.is_infallible e.0) ((lessened self.now lower.first lower.end).pairs ++ (lessened right.now upper.first upper.end).pairs) → IsOk result }
    {
        let count = self.entries.len() - (lower.end - lower.first);
        if first < count {
            copy_of(&kept_at(&self.entries, lower.first, lower.end, first).0)
        } else {
            let at = first - count;
            copy_of(&kept_at(&right.entries, upper.first, upper.end, at).0)
        }
    }

    /// How two leaves share the pairs that both keep: one holds all, or a new separator parts so many from the others.
    ///
    /// Refused where there is no memory for the separator.
    pub fn parting_kept(
        &self,
        right: &Node<K, V>,
        lower: Places,
        upper: Places,
    ) -> Result<Option<(K, usize)>, AllocError>
        requires leaf { IsKid 16 0 self.now }
        requires right_leaf { IsKid 16 0 right.now }
        requires lower_places { ArePlaces self.now lower.first lower.end }
        requires upper_places { ArePlaces right.now upper.first upper.end }
        requires sorted { Ascends K.cmp ((lessened self.now lower.first lower.end).pairs ++ (lessened right.now upper.first upper.end).pairs) }
        ensures parting { IfOk result (λ parting. IsParting K.cmp ((lessened self.now lower.first lower.end).pairs ++ (lessened right.now upper.first upper.end).pairs) parting) }
        ensures sure { Each (λ e. IsSure K.cmp K.is_clone K.is_infallible e.0) ((lessened self.now lower.first lower.end).pairs ++ (lessened right.now upper.first upper.end).pairs) → IsOk result }
    {
        let count = self.entries.len() - (lower.end - lower.first);
        let right_count = right.entries.len() - (upper.end - upper.first);
        let count = count + right_count;
        if count <= 32 {
            return Ok(None);
        }
        let first = Share::Half.first(count);
        let separator = self.separator_kept(right, lower, upper, first)?;
        Ok(Some((separator, first)))
    }
}
