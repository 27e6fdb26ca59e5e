//! One version of a chain, with the link to the one before it.
//!
//! A version with one before it keeps no stamp: the cell of that one does, beside it.
ghost use Rattle.std.specs.Prelude.{◌≡◌, ◌∷◌, [], Some, option_copied};
ghost use Rattle.version_chain.specs.Slots.{lent_held};
ghost use Rattle.version_chain.specs.Versions.{is_one_value};
ghost use Rattle.version_chain.specs.Links.{newer_of, from_version, pages_behind, versions, pages, held_versions, held_pages};

use cell_pool::Cell;

/// The cell of a version, or none.
pub(crate) type Link<V> = Option<Cell<Version<V>>>;

/// A value, or its absence: with its stamp, or over the version before it, whose cell keeps the stamp.
///
/// One tag for value and link, and one word for stamp or link.
pub(crate) enum Held<V, L> {
    Absence(u64),
    Value(u64, V),
    AbsenceOver(L),
    ValueOver(V, L),
}

/// A version in a cell.
pub(crate) struct Version<V> {
    // The stamp of the version in front of this one. Where none is in front, nothing is read from it.
    newer: u64,
    held: Held<V, Cell<Version<V>>>,
}

impl<V, L> Held<V, L> {
    /// The version, lent.
    pub(crate) fn lend(&self) -> Held<&V, &L>
        ensures { lent_held result ≡ self.now }
    {
        match self {
            Held::Absence(stamp) => Held::Absence(*stamp),
            Held::Value(stamp, value) => Held::Value(*stamp, value),
            Held::AbsenceOver(older) => Held::AbsenceOver(older),
            Held::ValueOver(value, older) => Held::ValueOver(value, older),
        }
    }
}

impl<V> Held<V, Cell<Version<V>>> {
    /// The only version of a chain.
    pub(crate) fn alone(stamp: u64, value: Option<V>) -> Held<V, Cell<Version<V>>>
        ensures versions { held_versions result ≡ (stamp, value) ∷ [] }
        ensures pages { held_pages result ≡ [] }
    {
        match value {
            None => Held::Absence(stamp),
            Some(value) => Held::Value(stamp, value),
        }
    }

    /// A version over one whose cell keeps the stamp already.
    pub(crate) fn over(value: Option<V>, older: Cell<Version<V>>) -> Held<V, Cell<Version<V>>>
        ensures versions { held_versions result ≡ (newer_of older.value, value) ∷ versions (Some older) }
        ensures pages { held_pages result ≡ pages (Some older) }
    {
        match value {
            None => Held::AbsenceOver(older),
            Some(value) => Held::ValueOver(value, older),
        }
    }

    /// A version of its parts: its stamp is written into the cell of the one before it.
    pub(crate) fn of(stamp: u64, value: Option<V>, older: Link<V>) -> Held<V, Cell<Version<V>>>
        ensures versions { held_versions result ≡ (stamp, value) ∷ versions older }
        ensures pages { held_pages result ≡ pages older }
    {
        let Some(cell) = older else {
            return Held::alone(stamp, value);
        };
        let (version, room) = cell.take();
        Held::over(value, room.fill(version.put_behind(stamp)))
    }

    /// Its stamp, its value, and the version before it.
    pub(crate) fn parts(self) -> (u64, Option<V>, Link<V>)
        ensures versions { held_versions self ≡ (result.0, result.1) ∷ versions result.2 }
        ensures pages { held_pages self ≡ pages result.2 }
    {
        match self {
            Held::Absence(stamp) => (stamp, None, None),
            Held::Value(stamp, value) => (stamp, Some(value), None),
            Held::AbsenceOver(older) => (older.get().newer, None, Some(older)),
            Held::ValueOver(value, older) => (older.get().newer, Some(value), Some(older)),
        }
    }
}

/// As `parts`, of a version that is lent.
pub(crate) fn lent_parts<'a, V>(
    held: Held<&'a V, &'a Cell<Version<V>>>,
) -> (u64, Option<&'a V>, Option<&'a Cell<Version<V>>>)
    ensures { held_versions (lent_held held.entry) ≡ (result.0, option_copied result.1) ∷ versions (option_copied result.2) }
{
    match held {
        Held::Absence(stamp) => (stamp, None, None),
        Held::Value(stamp, value) => (stamp, Some(value), None),
        Held::AbsenceOver(older) => (older.get().newer, None, Some(older)),
        Held::ValueOver(value, older) => (older.get().newer, Some(value), Some(older)),
    }
}

/// Whether a version that is lent is a value, with none before it.
pub(crate) fn is_lone_value<V>(held: Held<&V, &Cell<Version<V>>>) -> bool
    ensures { result ≡ is_one_value (held_versions (lent_held held.entry)) }
{
    match held {
        Held::Absence(_) => false,
        Held::Value(_, _) => true,
        Held::AbsenceOver(_) => false,
        Held::ValueOver(_, _) => false,
    }
}

impl<V> Version<V> {
    /// A version that none is in front of, so that it doesn't matter what it keeps as `newer`.
    pub(crate) fn new(stamp: u64, value: Option<V>, older: Link<V>) -> Version<V>
        ensures versions { from_version result ≡ (stamp, value) ∷ versions older }
        ensures pages { pages_behind result ≡ pages older }
    {
        Version::behind(stamp, Held::of(stamp, value, older))
    }

    /// A version behind one with this stamp.
    pub(crate) fn behind(newer: u64, held: Held<V, Cell<Version<V>>>) -> Version<V>
        ensures newer { newer_of result ≡ newer }
        ensures versions { from_version result ≡ held_versions held }
        ensures pages { pages_behind result ≡ held_pages held }
    {
        Version { newer, held }
    }

    // The same version, behind one with this stamp.
    fn put_behind(self, newer: u64) -> Version<V>
        ensures newer { newer_of result ≡ newer }
        ensures versions { from_version result ≡ from_version self }
        ensures pages { pages_behind result ≡ pages_behind self }
    {
        let Version { newer: _, held } = self;
        Version { newer, held }
    }

    /// Its stamp, its value, and the version before it.
    pub(crate) fn parts(self) -> (u64, Option<V>, Link<V>)
        ensures versions { from_version self ≡ (result.0, result.1) ∷ versions result.2 }
        ensures pages { pages_behind self ≡ pages result.2 }
    {
        let Version { newer: _, held } = self;
        held.parts()
    }

    /// As `parts`, lent.
    pub(crate) fn as_parts(&self) -> (u64, Option<&V>, Option<&Cell<Version<V>>>)
        ensures { from_version self.now ≡ (result.0, option_copied result.1) ∷ versions (option_copied result.2) }
    {
        lent_parts(self.held.lend())
    }
}
