//! Edges: cuts that own their keys. Which of two cuts stands first.
ghost use Rattle.std.specs.Prelude.{◌≡◌, true, false, IfOk};
ghost use Rattle.collation.specs.Reference.{Reference};
ghost use Rattle.globals.specs.Cuts.{stands_before as stands_before_spec};
ghost use Rattle.read_ranges.specs.Ranges.{is_short as is_short_spec, AreEarlier};

use globals::{Cut, stands_before};
use key_codec::Key;
use std::alloc::AllocError;

/// A cut between references that owns its key.
#[derive(Debug, Drop)]
pub enum Edge {
    /// Before all references.
    Start,
    /// Directly before this reference.
    Before(Key),
    /// Directly after this reference, before its descendants.
    After(Key),
    /// After this reference and all that is under it.
    Past(Key),
    /// After all references.
    End,
}

impl Edge {
    // The edge at a cut. Takes memory only for a key of over 38 bytes.
    pub(crate) fn of(cut: Cut<'_>) -> Result<Edge, AllocError>
        ensures { IfOk result (λ edge. (x : Reference) → is_short_spec edge x ≡ stands_before_spec cut.entry x) }
    {
        match cut {
            Cut::Start => Ok(Edge::Start),
            Cut::Before(key) => Ok(Edge::Before(key.clone()?)),
            Cut::After(key) => Ok(Edge::After(key.clone()?)),
            Cut::Past(key) => Ok(Edge::Past(key.clone()?)),
            Cut::End => Ok(Edge::End),
        }
    }

    /// The cut between references at this edge. Takes no memory.
    pub fn cut(&self) -> Cut<'_>
        ensures { (x : Reference) → stands_before_spec result x ≡ is_short_spec self.now x }
    {
        match self {
            Edge::Start => Cut::Start,
            Edge::Before(key) => Cut::Before(key),
            Edge::After(key) => Cut::After(key),
            Edge::Past(key) => Cut::Past(key),
            Edge::End => Cut::End,
        }
    }

    // Whether the reference stands before the edge.
    pub(crate) fn is_short(&self, key: &Key) -> bool
        ensures { result ≡ is_short_spec self.now key.now }
    {
        match self {
            Edge::Start => false,
            Edge::Before(edge) => stands_before(Cut::Before(edge), key),
            Edge::After(edge) => stands_before(Cut::After(edge), key),
            Edge::Past(edge) => stands_before(Cut::Past(edge), key),
            Edge::End => true,
        }
    }
}

/// Whether the first of two cuts doesn't stand after the second. Takes no memory.
pub fn is_at_most(first: Cut<'_>, second: Cut<'_>) -> bool
    ensures yes { result ≡ true → AreEarlier first.entry second.entry }
    ensures no { result ≡ false → AreEarlier second.entry first.entry }
{
    match first {
        Cut::Start => true,
        Cut::Before(key) => match second {
            Cut::Before(bound) => !stands_before(first, bound),
            _ => stands_before(second, key),
        },
        Cut::After(key) => stands_before(second, key),
        Cut::Past(key) => match second {
            Cut::Start => false,
            Cut::Before(bound) => !stands_before(first, bound),
            Cut::After(bound) => !stands_before(first, bound),
            Cut::Past(bound) => key.is_under(bound) || !stands_before(first, bound),
            Cut::End => true,
        },
        Cut::End => matches!(second, Cut::End),
    }
}
