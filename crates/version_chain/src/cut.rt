//! What a cut at a horizon leaves of a chain.
//!
//! The versions after the horizon are turned round onto a list of their own, what stands after them is given back but for
//! one value, and the versions are turned round onto that: no memory, no recursion, and each cell stays where it is.
ghost use Rattle.std.specs.Prelude.{true, false, [], ◌∷◌, ◌≡◌, ◌≤◌, ◌<◌, ◌+◌, List, length};
ghost use denote.RawPtr.{Ptr};
ghost use Rattle.version_chain.specs.Links.{versions, pages, line_versions, line_pages, AllOf, back_onto, AllAfter, FromAtMost};
ghost use Rattle.version_chain.specs.Versions.{cells_of, IsAbove};
ghost use Rattle.version_chain.specs.Cut.{cut_of, newest_value};
ghost use Rattle.version_chain.specs.Tidy.{IsNewerThan};

use crate::chain::{Line, clear, end, push};
use crate::version::{Held, Link, Version, lent_parts};
use cell_pool::Pool;

// The versions after the horizon, oldest first, and the others.
fn split<V>(link: Link<V>, horizon: u64) -> (Link<V>, Link<V>)
    ensures order { back_onto (versions result.0) (versions result.1) ≡ versions link }
    ensures after { AllAfter horizon (versions result.0) }
    ensures from { FromAtMost horizon (versions result.1) }
    ensures theirs { (qs : List Ptr) → AllOf qs (pages link) → AllOf qs (pages result.0) × AllOf qs (pages result.1) }
{
    let mut kept = None;
    let mut here = link;
    while let Some(cell) = here {
        if cell.get().as_parts().0 <= horizon {
            return (kept, Some(cell));
        }
        let (version, room) = cell.take();
        let (stamp, value, older) = version.parts();
        kept = Some(room.fill(Version::new(stamp, value, kept)));
        here = older;
    }
    (kept, None)
}

// Puts the versions back in front.
fn put_back<V>(kept: Link<V>, rest: Link<V>) -> Link<V>
    ensures order { versions result ≡ back_onto (versions kept) (versions rest) }
    ensures theirs { (qs : List Ptr) → AllOf qs (pages kept) → AllOf qs (pages rest) → AllOf qs (pages result) }
{
    let mut kept = kept;
    let mut here = rest;
    while let Some(cell) = kept {
        let (version, room) = cell.take();
        let (stamp, value, older) = version.parts();
        here = Some(room.fill(Version::new(stamp, value, here)));
        kept = older;
    }
    here
}

// Drops each version that a newer one not after the horizon hides, and then an absence not after it that is the oldest.
// Counts what it dropped.
fn cut_link<V: Drop>(pool: &mut Pool<Version<V>>, link: Link<V>, horizon: u64) -> (Link<V>, usize)
    requires { AllOf pool.old.pages (pages link) }
    ensures left { versions result.0 ≡ cut_of horizon (versions link) }
    ensures count { result.1 + length (versions result.0) ≡ length (versions link) }
    ensures theirs { AllOf pool.new.pages (pages result.0) }
    ensures counts { (pool.new.pages ≡ pool.old.pages) × (pool.new.out + result.1 ≡ pool.old.out) × (pool.new.spare ≡ pool.old.spare + result.1) }
{
    let (kept, rest) = split(link, horizon);
    let (rest, count) = cut_first(pool, rest);
    (put_back(kept, rest), count)
}

// Keeps the first version alone, and only if it is a value.
fn cut_first<V: Drop>(pool: &mut Pool<Version<V>>, link: Link<V>) -> (Link<V>, usize)
    requires { AllOf pool.old.pages (pages link) }
    ensures left { versions result.0 ≡ newest_value (versions link) }
    ensures count { result.1 + length (versions result.0) ≡ length (versions link) }
    ensures theirs { AllOf pool.new.pages (pages result.0) }
    ensures counts { (pool.new.pages ≡ pool.old.pages) × (pool.new.out + result.1 ≡ pool.old.out) × (pool.new.spare ≡ pool.old.spare + result.1) }
{
    match link {
        None => (None, 0),
        Some(cell) => {
            if cell.get().as_parts().1.is_none() {
                return (None, clear(pool, Some(cell)));
            }
            let (version, room) = cell.take();
            let (stamp, value, older) = version.parts();
            let count = clear(pool, older);
            (Some(room.fill(Version::new(stamp, value, None))), count)
        }
    }
}

/// Drops each version that a newer one not after the horizon hides, and then an absence not after it that is the oldest.
/// Counts what it dropped.
pub(crate) fn cut<V: Drop>(
    pool: &mut Pool<Version<V>>,
    line: Line<V>,
    horizon: u64,
) -> (Line<V>, usize)
    requires { AllOf pool.old.pages (line_pages line) }
    ensures left { line_versions result.0 ≡ cut_of horizon (line_versions line) }
    ensures count { result.1 + length (line_versions result.0) ≡ length (line_versions line) }
    ensures theirs { AllOf pool.new.pages (line_pages result.0) }
    ensures counts { (pool.new.pages ≡ pool.old.pages) × (pool.new.out + cells_of (line_versions line) ≡ pool.old.out + cells_of (line_versions result.0)) × (pool.new.spare + pool.new.out ≡ pool.old.spare + pool.old.out) }
{
    match line {
        None => (None, 0),
        Some(newest) => {
            let (stamp, value, older) = newest.parts();
            if stamp > horizon {
                let (older, count) = cut_link(pool, older, horizon);
                return (Some(Held::of(stamp, value, older)), count);
            }
            let count = clear(pool, older);
            if value.is_none() {
                return (None, count + 1);
            }
            (Some(Held::alone(stamp, value)), count)
        }
    }
}

// Whether the newest version is after the stamp, or there is none.
fn is_newer<V>(line: &Line<V>, stamp: u64) -> bool
    ensures { result ≡ true → ¬ (line_versions line.now ≡ []) → IsNewerThan stamp (line_versions line.now) }
{
    match line {
        Some(newest) => lent_parts(newest.lend()).0 > stamp,
        None => true,
    }
}

/// Drops what `cut` drops. Where the newest version is after `since` it is known that nothing has to go, and no older one is
/// looked at.
pub(crate) fn cut_since<V: Drop>(
    pool: &mut Pool<Version<V>>,
    line: Line<V>,
    since: u64,
    horizon: u64,
) -> (Line<V>, usize)
    requires theirs { AllOf pool.old.pages (line_pages line) }
    requires tidy { IsNewerThan since (line_versions line) → cut_of horizon (line_versions line) ≡ line_versions line }
    ensures left { line_versions result.0 ≡ cut_of horizon (line_versions line) }
    ensures count { result.1 + length (line_versions result.0) ≡ length (line_versions line) }
    ensures theirs { AllOf pool.new.pages (line_pages result.0) }
    ensures counts { (pool.new.pages ≡ pool.old.pages) × (pool.new.out + cells_of (line_versions line) ≡ pool.old.out + cells_of (line_versions result.0)) × (pool.new.spare + pool.new.out ≡ pool.old.spare + pool.old.out) }
{
    if !is_newer(&line, since) {
        return cut(pool, line, horizon);
    }
    (line, 0)
}

/// Puts a version in front, and drops what a cut drops. A version that isn't after the horizon hides all others, so that
/// these go and none takes a cell. Where the newest one so far is after `since`, it is known that no older one has to go, and
/// none is looked at but the first, whose cell keeps the stamp. Where there is none so far, nothing has to go either. Else the
/// cut comes first: the cell that it frees is the one that is taken.
pub(crate) fn push_and_cut<V: Drop>(
    pool: &mut Pool<Version<V>>,
    line: Line<V>,
    since: u64,
    stamp: u64,
    value: Option<V>,
    horizon: u64,
) -> Line<V>
    requires reserved { ¬ (line_versions line ≡ []) → 0 < pool.old.spare }
    requires theirs { AllOf pool.old.pages (line_pages line) }
    requires above { IsAbove stamp (line_versions line) }
    requires low { horizon ≤ since }
    requires tidy { IsNewerThan since (line_versions line) → cut_of horizon (line_versions line) ≡ line_versions line }
    ensures left { line_versions result ≡ cut_of horizon ((stamp, value) ∷ line_versions line) }
    ensures theirs { AllOf pool.new.pages (line_pages result) }
    ensures counts { (pool.new.pages ≡ pool.old.pages) × (pool.new.out + cells_of (line_versions line) ≡ pool.old.out + cells_of (line_versions result)) × (pool.new.spare + pool.new.out ≡ pool.old.spare + pool.old.out) }
{
    if stamp <= horizon {
        end(pool, line);
        return match value {
            None => None,
            Some(value) => Some(Held::Value(stamp, value)),
        };
    }
    if is_newer(&line, since) {
        return push(pool, line, stamp, value);
    }
    let (left, _count) = cut(pool, line, horizon);
    push(pool, left, stamp, value)
}
