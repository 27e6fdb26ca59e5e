//! Which of a list's names counts have, and which they haven't.
ghost use Rattle.std.specs.Prelude.{if◌then◌else◌, ◌≡◌, ◌+◌, ◌-◌, ◌++◌, ◌∷◌, [], min, ℕ, suc, OnOk, IfOk};
ghost use Rattle.std.specs.Ordering.{eq_by_cmp};
ghost use Rattle.collation.specs.Reference.{Resource};
ghost use Rattle.lock_name.specs.Locks.{resource_cmp, count_of};
ghost use Rattle.lock_name.specs.LockStatements.{times};

use crate::counts::Counts;
use lock_name::LockName;
use std::alloc::{AllocError, Global};

fn keep(kept: &mut Vec<LockName>, name: &LockName) -> Result<(), AllocError>
    ensures { OnOk result (kept.new.items ≡ kept.old.items ++ name.now ∷ []) }
{
    kept.push(name.clone()?)?;
    Ok(())
}

/// The name is taken from the counts where they have it, and is kept where they haven't.
fn keep_beyond(
    kept: &mut Vec<LockName>,
    left: &mut Counts,
    name: &LockName,
) -> Result<(), AllocError>
    ensures { OnOk result ((x : Resource) (k : ℕ) → times x kept.new.items + (k - count_of left.new x) ≡ times x kept.old.items + ((if eq_by_cmp resource_cmp x name.now then suc k else k) - count_of left.old x)) }
{
    if left.count(name) > 0 {
        left.take_one(name);
        return Ok(());
    }
    keep(kept, name)
}

/// The names that the counts haven't: of each so many fewer as are left of it there.
pub fn beyond(
    names: &[LockName],
    left: &mut Counts,
    alloc: Global,
) -> Result<Vec<LockName>, AllocError>
    ensures { IfOk result (λ kept. (x : Resource) → times x kept.items ≡ times x names.now - count_of left.old x) }
{
    let mut kept = Vec::new(alloc);
    for name in names {
        keep_beyond(&mut kept, left, name)?;
    }
    Ok(kept)
}

/// The name is taken from the counts, and kept, where they have it.
fn keep_within(
    kept: &mut Vec<LockName>,
    left: &mut Counts,
    name: &LockName,
) -> Result<(), AllocError>
    ensures { OnOk result ((x : Resource) (k : ℕ) → times x kept.new.items + min k (count_of left.new x) ≡ times x kept.old.items + min (if eq_by_cmp resource_cmp x name.now then suc k else k) (count_of left.old x)) }
{
    if left.count(name) == 0 {
        return Ok(());
    }
    left.take_one(name);
    keep(kept, name)
}

/// The names that the counts have, each as often as it is left there.
pub fn within(
    names: &[LockName],
    left: &mut Counts,
    alloc: Global,
) -> Result<Vec<LockName>, AllocError>
    ensures { IfOk result (λ kept. (x : Resource) → times x kept.items ≡ min (times x names.now) (count_of left.old x)) }
{
    let mut kept = Vec::new(alloc);
    for name in names {
        keep_within(&mut kept, left, name)?;
    }
    Ok(kept)
}
