//! Neighbours that a view lends at once.
ghost use Rattle.std.specs.Prelude.{◌≡◌, ◌+◌, ◌-◌, ◌<◌, ◌≤◌, [], ◌∷◌, ◌++◌, MatchOption, length, drop};

use arrayvec::ArrayVec;
use collation::Text;
use key_codec::Key;
use std::marker::Model;

/// Some nodes of a view, in order, at most 32: each lends its key and its value. It is seen as the list of the nodes,
/// and takes no memory.
#[derive(Drop)]
pub struct Run<'v> {
    places: ArrayVec<Option<(&'v Key, &'v Text)>, 32>,
}

impl<'v> Model for Run<'v> {
    ghost use Rattle.std.specs.Prelude.{List, ℕ};
    ghost use Rattle.collation.specs.Reference.{Reference};
    ghost use Rattle.globals.specs.Runs.{nodes_in, AreLent};

    ghost Value = { List (Reference × List ℕ) };

    ghost view = { λ r. nodes_in r.places.items };

    ghost invariant = { λ r. AreLent r.places.items };
}

impl<'v> Run<'v> {
    /// A run without nodes.
    pub fn new() -> Run<'v>
        ensures { result ≡ [] }
    {
        Run {
            places: ArrayVec::new(),
        }
    }

    /// How many nodes there are.
    pub fn len(&self) -> usize
        ensures length { result ≡ length self.now }
        ensures most { result ≤ 32 }
    {
        self.places.len()
    }

    /// Puts a node after the others.
    pub fn push(&mut self, key: &'v Key, value: &'v Text)
        requires { length self.old < 32 }
        ensures { self.new ≡ self.old ++ (key.now, value.now) ∷ [] }
    {
        self.places.push(Some((key, value)));
    }

    /// The node at an index, where there are so many.
    pub fn node(&self, index: usize) -> Option<(&'v Key, &'v Text)>
        ensures { MatchOption result (drop index self.now ≡ []) (λ e. drop index self.now ≡ (e.0.now, e.1.now) ∷ drop (index + 1) self.now) }
    {
        match self.places.get(index) {
            Some(place) => *place,
            None => None,
        }
    }

    /// The last node, where there is one.
    pub fn last(&self) -> Option<(&'v Key, &'v Text)>
        ensures { MatchOption result (self.now ≡ []) (λ e. drop (length self.now - 1) self.now ≡ (e.0.now, e.1.now) ∷ []) }
    {
        let count = self.len();
        if count == 0 {
            return None;
        }
        self.node(count - 1)
    }
}
