//! Look-ups by a point, and the ends of a node: each reads a node a level, or two where the first leaf has no answer.
ghost use Rattle.std.specs.Prelude.{◌≡◌, ◌+◌, ◌*◌, ◌^◌, ◌<◌, ◌≤◌, None, IfSome};
ghost use Rattle.std.specs.Option.{option_map};
ghost use Rattle.std.specs.List.{slice_get};
ghost use Rattle.btree.specs.Order.{Ascends, first_from, last_before, last_of};

use crate::node::Node;
use crate::search::{count_before, entry_at, entry_before, kid_at_point};
use crate::seek::Point;

impl<K: Ord, V> Node<K, V> {
    /// The first pair.
    pub fn first(&self, visits: &mut usize) -> Option<(&K, &V)>
        requires counts { visits.old + self.now.height < 2 ^ 63 }
        ensures found { option_map (λ p. (p.0.now, p.1.now)) result ≡ slice_get self.now.pairs 0 }
        ensures visited { visits.new ≡ visits.old + self.now.height + 1 }
    {
        let (entries, _, kids) = self.read(visits);
        match kids.first() {
            None => entry_at(entries, 0),
            Some(kid) => kid.first(visits),
        }
    }

    /// The last pair.
    pub fn last(&self, visits: &mut usize) -> Option<(&K, &V)>
        requires counts { visits.old + self.now.height < 2 ^ 63 }
        ensures found { option_map (λ p. (p.0.now, p.1.now)) result ≡ last_of self.now.pairs }
        ensures visited { visits.new ≡ visits.old + self.now.height + 1 }
    {
        let (entries, separators, kids) = self.read(visits);
        match kids.get(separators.len()) {
            None => entry_before(entries, entries.len()),
            Some(kid) => kid.last(visits),
        }
    }

    /// Whether the last pair stands before a point; `true` also where there are no pairs.
    pub fn ends_before<P: Point<K>>(&self, point: &P) -> bool
        requires low { self.now.height < 2 ^ 63 }
        ensures last { IfSome (last_of self.now.pairs) (λ e. P.before point.now e.0 ≡ result) }
    {
        let mut visits = 0;
        match self.last(&mut visits) {
            None => true,
            Some((key, _)) => point.is_after(key),
        }
    }

    /// The first pair whose key does not stand before a point.
    pub fn first_from<P: Point<K>>(&self, point: &P, visits: &mut usize) -> Option<(&K, &V)>
        requires sorted { Ascends K.cmp self.now.pairs }
        requires counts { visits.old + 2 * self.now.height < 2 ^ 63 }
        ensures found { option_map (λ p. (p.0.now, p.1.now)) result ≡ first_from (P.before point.now) self.now.pairs }
        ensures visited { (visits.old + self.now.height + 1 ≤ visits.new) × (visits.new ≤ visits.old + 2 * self.now.height + 1) }
        ensures missed { result ≡ None → visits.new ≡ visits.old + self.now.height + 1 }
    {
        let (entries, separators, kids) = self.read(visits);
        if kids.is_empty() {
            return entry_at(entries, count_before(entries, point));
        }
        let at = kid_at_point(separators, point);
        if let Some(found) = kids[at].first_from(point, visits) {
            return Some(found);
        }
        match kids.get(at + 1) {
            None => None,
            Some(kid) => kid.first(visits),
        }
    }

    /// The last pair whose key stands before a point.
    pub fn last_before<P: Point<K>>(&self, point: &P, visits: &mut usize) -> Option<(&K, &V)>
        requires sorted { Ascends K.cmp self.now.pairs }
        requires counts { visits.old + 2 * self.now.height < 2 ^ 63 }
        ensures found { option_map (λ p. (p.0.now, p.1.now)) result ≡ last_before (P.before point.now) self.now.pairs }
        ensures visited { (visits.old + self.now.height + 1 ≤ visits.new) × (visits.new ≤ visits.old + 2 * self.now.height + 1) }
        ensures missed { result ≡ None → visits.new ≡ visits.old + self.now.height + 1 }
    {
        let (entries, separators, kids) = self.read(visits);
        if kids.is_empty() {
            return entry_before(entries, count_before(entries, point));
        }
        let at = kid_at_point(separators, point);
        if let Some(found) = kids[at].last_before(point, visits) {
            return Some(found);
        }
        if at == 0 {
            return None;
        }
        kids[at - 1].last(visits)
    }
}
