//! One chain: its newest version, and the cells of those before it.
ghost use Rattle.std.specs.Prelude.{◌≡◌, ◌+◌, ◌-◌, ◌^◌, ◌<◌, [], ◌∷◌, length, min, option_copied};
ghost use Rattle.version_chain.specs.Slots.{lent};
ghost use Rattle.version_chain.specs.Links.{from_version, versions, pages, line_versions, line_pages, AllOf};
ghost use Rattle.version_chain.specs.Versions.{newest_of, at_of, is_one_value, cells_of};

use crate::version::{Held, Link, Version, is_lone_value, lent_parts};
use cell_pool::{Cell, Pool};

/// A chain: its newest version, or none.
pub(crate) type Line<V> = Option<Held<V, Cell<Version<V>>>>;

/// A chain that is lent.
pub(crate) type LentLine<'a, V> = Option<Held<&'a V, &'a Cell<Version<V>>>>;

pub(crate) fn newest<V>(line: LentLine<'_, V>) -> Option<u64>
    ensures { result ≡ newest_of (line_versions (lent line.entry)) }
{
    match line {
        None => None,
        Some(newest) => Some(lent_parts(newest).0),
    }
}

/// The value of the newest version that is not after the stamp.
pub(crate) fn at<V>(line: LentLine<'_, V>, stamp: u64) -> Option<&V>
    ensures { option_copied result ≡ at_of stamp (line_versions (lent line.entry)) }
{
    let Some(newest) = line else {
        return None;
    };
    let (here, value, older) = lent_parts(newest);
    if here <= stamp {
        return value;
    }
    match older {
        None => None,
        Some(cell) => at_version(cell.get(), stamp),
    }
}

// As `at`, from a version on.
fn at_version<V>(newest: &Version<V>, stamp: u64) -> Option<&V>
    ensures { option_copied result ≡ at_of stamp (from_version newest.now) }
{
    let mut here = newest;
    loop {
        let (since, value, older) = here.as_parts();
        if since <= stamp {
            return value;
        }
        match older {
            Some(cell) => here = cell.get(),
            None => return None,
        }
    }
}

/// Whether there is one version, which is a value.
pub(crate) fn is_alone<V>(line: LentLine<'_, V>) -> bool
    ensures { result ≡ is_one_value (line_versions (lent line.entry)) }
{
    match line {
        None => false,
        Some(newest) => is_lone_value(newest),
    }
}

/// How many versions there are, up to 2^64 - 1.
pub(crate) fn count<V>(line: LentLine<'_, V>) -> u64
    ensures { result ≡ min (length (line_versions (lent line.entry))) (2 ^ 64 - 1) }
{
    let Some(newest) = line else {
        return 0;
    };
    match lent_parts(newest).2 {
        None => 1,
        Some(cell) => count_from(cell.get()).saturating_add(1),
    }
}

// As `count`, from a version on.
fn count_from<V>(newest: &Version<V>) -> u64
    ensures { result ≡ min (length (from_version newest.now)) (2 ^ 64 - 1) }
{
    let mut count: u64 = 0;
    let mut here = newest;
    loop {
        count = count.saturating_add(1);
        let (_, _, older) = here.as_parts();
        match older {
            Some(cell) => here = cell.get(),
            None => return count,
        }
    }
}

/// Puts a version in front. Where there is one already, that moves into a cell that was reserved.
pub(crate) fn push<V>(
    pool: &mut Pool<Version<V>>,
    line: Line<V>,
    stamp: u64,
    value: Option<V>,
) -> Line<V>
    requires { ¬ (line_versions line ≡ []) → 0 < pool.old.spare }
    ensures entry { line_versions result ≡ (stamp, value) ∷ line_versions line }
    ensures theirs { AllOf pool.old.pages (line_pages line) → AllOf pool.new.pages (line_pages result) }
    ensures counts { (pool.new.pages ≡ pool.old.pages) × (pool.new.out + cells_of (line_versions line) ≡ pool.old.out + cells_of (line_versions result)) × (pool.new.spare + pool.new.out ≡ pool.old.spare + pool.old.out) }
{
    let Some(newest) = line else {
        return Some(Held::alone(stamp, value));
    };
    match pool.take(Version::behind(stamp, newest)) {
        Ok(cell) => Some(Held::over(value, cell)),
        Err(_back) => unreachable!(),
    }
}

/// Gives all cells back, and counts them.
pub(crate) fn clear<V: Drop>(pool: &mut Pool<Version<V>>, link: Link<V>) -> usize
    requires { AllOf pool.old.pages (pages link) }
    ensures few { result < 2 ^ 56 }
    ensures counts { (result ≡ length (versions link)) × (pool.new.pages ≡ pool.old.pages) × (pool.new.out + result ≡ pool.old.out) × (pool.new.spare ≡ pool.old.spare + result) }
{
    let before = pool.out();
    let mut here = link;
    while let Some(cell) = here {
        let (_, _, older) = pool.give(cell).parts();
        here = older;
    }
    before - pool.out()
}

/// Ends a chain.
pub(crate) fn end<V: Drop>(pool: &mut Pool<Version<V>>, line: Line<V>)
    requires { AllOf pool.old.pages (line_pages line) }
    ensures { (pool.new.pages ≡ pool.old.pages) × (pool.new.out + cells_of (line_versions line) ≡ pool.old.out) × (pool.new.spare + pool.new.out ≡ pool.old.spare + pool.old.out) }
{
    match line {
        None => {}
        Some(newest) => {
            let (_, _, older) = newest.parts();
            clear(pool, older);
        }
    }
}
