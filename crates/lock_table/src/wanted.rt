//! What a job wants in a transaction, told by what it holds.
ghost use Rattle.std.specs.Prelude.{true, ◌⊎◌, ◌≡◌, ◌≤◌, ◌-◌, min, OnOk, OnErr, IfErr, IfOk};
ghost use Rattle.std.specs.List.{list_any};
ghost use Rattle.collation.specs.Reference.{Resource};
ghost use Rattle.lock_name.specs.Locks as locks;
ghost use Rattle.lock_name.specs.Locks.{count_of, fewer_of};
ghost use Rattle.lock_name.specs.LockStatements.{times};
ghost use Rattle.lock_table.specs.Counted.{AreCounts, less, is_listed, is_over};
ghost use Rattle.lock_table.specs.Rows.{want_of, told_by, asked};

use crate::chosen::{beyond, within};
use crate::counts::Counts;
use lock_name::LockName;
use refusal::Refusal;
use std::alloc::{AllocError, Global};

/// What a job wants, which is never more than it holds.
#[derive(Drop)]
pub enum Wanted {
    /// All that it holds but these.
    AllBut(Counts),
    /// Just these.
    Just(Counts),
}

/// The names that are wanted fewer times for being given back.
fn lowered(
    held: &Counts,
    fewer: &Counts,
    names: &[LockName],
    alloc: Global,
) -> Result<Vec<LockName>, AllocError>
    ensures { IfOk result (λ gone. (x : Resource) → times x gone.items ≡ min (times x names.now) (count_of (less held.now fewer.now) x)) }
{
    let mut left = held.surplus_among(fewer, names)?;
    within(names, &mut left, alloc)
}

/// One count of each name is left out too, where it was wanted.
fn leave_out(
    held: &Counts,
    fewer: &mut Counts,
    names: &[LockName],
    alloc: Global,
) -> Result<(), AllocError>
    requires { (x : Resource) → count_of fewer.old x ≤ count_of held.now x }
    ensures ok { OnOk result (less held.now fewer.new ≡ fewer_of names.now (less held.now fewer.old)) }
    ensures err { OnErr result (fewer.new ≡ fewer.old) }
    ensures within { (x : Resource) → count_of fewer.new x ≤ count_of held.now x }
{
    held.look();
    let gone = lowered(held, fewer, names, alloc)?;
    match fewer.add_all(gone.as_slice()) {
        Ok(()) => Ok(()),
        Err(_) => Err(AllocError),
    }
}

impl Wanted {
    /// No count is above the highest, and none that has an entry is 0.
    pub fn look(&self)
        ensures { AreCounts (told_by self.now) }
    {
        match self {
            Wanted::AllBut(fewer) => fewer.look(),
            Wanted::Just(want) => want.look(),
        }
    }

    /// A copy. Fails only for want of memory.
    pub fn copy(&self) -> Result<Wanted, AllocError>
        ensures { IfOk result (λ copy. copy ≡ self.now) }
    {
        match self {
            Wanted::AllBut(fewer) => Ok(Wanted::AllBut(fewer.copy()?)),
            Wanted::Just(want) => Ok(Wanted::Just(want.copy()?)),
        }
    }

    /// Whether all that is held is wanted; where it isn't known so, false.
    pub fn is_all(&self) -> bool
        ensures { result ≡ true → (held : locks.Counts) (x : Resource) → count_of held x ≤ count_of (want_of held self.now) x }
    {
        match self {
            Wanted::AllBut(fewer) => fewer.is_empty(),
            Wanted::Just(_) => false,
        }
    }

    /// Of these names as many as the job wants, and of no other.
    pub fn among(&self, held: &Counts, names: &[LockName]) -> Result<Counts, AllocError>
        ensures { IfOk result (λ some. (x : Resource) → is_listed x names.now ≡ true → count_of some x ≡ count_of (want_of held.now self.now) x) }
    {
        match self {
            Wanted::AllBut(fewer) => held.surplus_among(fewer, names),
            Wanted::Just(want) => want.among(names),
        }
    }

    /// Of these names as many as are held and not wanted, and of no other.
    fn spare(&self, held: &Counts, names: &[LockName]) -> Result<Counts, AllocError>
        requires { (x : Resource) → count_of (told_by self.now) x ≤ count_of held.now x }
        ensures { IfOk result (λ some. (x : Resource) → is_listed x names.now ≡ true → count_of some x ≡ count_of held.now x - count_of (want_of held.now self.now) x) }
    {
        match self {
            Wanted::AllBut(fewer) => fewer.among(names),
            Wanted::Just(want) => held.surplus_among(want, names),
        }
    }

    /// The names that are held more times for being asked for: of each so many fewer as are held and not wanted.
    pub fn raised(
        &self,
        held: &Counts,
        names: &[LockName],
        alloc: Global,
    ) -> Result<Vec<LockName>, AllocError>
        requires { (x : Resource) → count_of (told_by self.now) x ≤ count_of held.now x }
        ensures { IfOk result (λ over. (x : Resource) → times x over.items ≡ times x names.now - (count_of held.now x - count_of (want_of held.now self.now) x)) }
    {
        let mut left = self.spare(held, names)?;
        beyond(names, &mut left, alloc)
    }

    /// One more of each name is wanted. After a refusal nothing has changed.
    pub fn ask(&mut self, names: &[LockName]) -> Result<(), Refusal>
        ensures ok { OnOk result (self.new ≡ asked names.now self.old) }
        ensures err { OnErr result (self.new ≡ self.old) }
        ensures full { IfErr result (λ refusal. (refusal ≡ Refusal.OutOfMemory) ⊎ ((refusal ≡ Refusal.LockCountFull) × ((held : locks.Counts) → list_any (is_over names.now (want_of held self.old)) names.now ≡ true))) }
    {
        match self {
            Wanted::AllBut(fewer) => {
                fewer.take_all(names);
                Ok(())
            }
            Wanted::Just(want) => want.add_all(names),
        }
    }

    /// One fewer of each name is wanted. After a refusal nothing has changed.
    pub fn release(
        &mut self,
        held: &Counts,
        names: &[LockName],
        alloc: Global,
    ) -> Result<(), AllocError>
        requires { (x : Resource) → count_of (told_by self.old) x ≤ count_of held.now x }
        ensures ok { OnOk result (want_of held.now self.new ≡ fewer_of names.now (want_of held.now self.old)) }
        ensures err { OnErr result (self.new ≡ self.old) }
        ensures within { (x : Resource) → count_of (told_by self.new) x ≤ count_of held.now x }
    {
        match self {
            Wanted::AllBut(fewer) => leave_out(held, fewer, names, alloc),
            Wanted::Just(want) => {
                want.take_all(names);
                Ok(())
            }
        }
    }
}
