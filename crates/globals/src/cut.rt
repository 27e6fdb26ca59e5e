//! Cuts: where a walk over references starts or ends.
ghost use Rattle.std.specs.Prelude.{◌≡◌};
ghost use Rattle.globals.specs.Cuts.{stands_before as stands_before_spec, stands_under as stands_under_spec, stands_within as stands_within_spec};

use key_codec::Key;

/// A point in the order: each reference lies before it or after it.
#[derive(Clone, Copy, Debug)]
pub enum Cut<'a> {
    /// Before all references.
    Start,
    /// Directly before this reference.
    Before(&'a Key),
    /// Directly after this reference, before its descendants.
    After(&'a Key),
    /// After this reference and all that is under it.
    Past(&'a Key),
    /// After all references.
    End,
}

/// Whether the reference stands before the cut.
pub fn stands_before(cut: Cut<'_>, key: &Key) -> bool
    ensures { result ≡ stands_before_spec cut.entry key.now }
{
    match cut {
        Cut::Start => false,
        Cut::Before(reference) => key.cmp(reference).is_lt(),
        Cut::After(reference) => !reference.cmp(key).is_lt(),
        Cut::Past(reference) => key.stands_before_past(reference),
        Cut::End => true,
    }
}

/// Whether the reference stands before the end, where there is one.
pub fn stands_within(end: Option<Cut<'_>>, key: &Key) -> bool
    ensures { result ≡ stands_within_spec end.entry key.now }
{
    match end {
        Some(end) => stands_before(end, key),
        None => true,
    }
}

/// Whether the reference stands before the floor, where there is one.
pub fn stands_under(floor: Option<Cut<'_>>, key: &Key) -> bool
    ensures { result ≡ stands_under_spec floor.entry key.now }
{
    match floor {
        Some(floor) => stands_before(floor, key),
        None => false,
    }
}
