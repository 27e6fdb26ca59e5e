//! What a job keeps in a transaction beside its held counts, and what LOCK does there.
ghost use Rattle.std.specs.Prelude.{true, false, ◌⊎◌, if◌then◌else◌, ◌≡◌, ◌≤◌, ◌+◌, ◌-◌, OnOk, OnErr, IfErr, IfOk};
ghost use Rattle.std.specs.List.{list_any};
ghost use Rattle.std.specs.FinMap as finmap;
ghost use Rattle.collation.specs.Limits.{most_locks};
ghost use Rattle.collation.specs.Reference.{Resource};
ghost use Rattle.lock_name.specs.Locks.{count_of, more_of, fewer_of, job_wants};
ghost use Rattle.lock_name.specs.LockStatements.{times};
ghost use Rattle.lock_table.specs.Counted.{is_over};
ghost use Rattle.lock_table.specs.Rows.{AreWithin, want_of, told_by, inside_locks, IsInsideSame, IsHeldIn, AreOthersSame};

use crate::counts::Counts;
use crate::moves::{hold_fewer, hold_more};
use crate::wanted::Wanted;
use lock_name::LockName;
use lock_trie::LockTrie;
use refusal::Refusal;
use std::alloc::{AllocError, Global};
use std::mem::replace;

/// What a job keeps from its first LOCK in a transaction on.
#[derive(Drop)]
pub struct Inside {
    /// What it wants.
    pub wanted: Wanted,
    /// How many times more each name is held than it was wanted at the start.
    pub added: Counts,
    pub alloc: Global,
}

impl Inside {
    /// All that is held is wanted, and was wanted at the start. Takes no memory.
    pub fn new(alloc: Global) -> Inside
        ensures wanted { result.wanted ≡ Wanted.AllBut finmap.empty }
        ensures added { result.added ≡ finmap.empty }
    {
        Inside {
            wanted: Wanted::AllBut(Counts::new(alloc)),
            added: Counts::new(alloc),
            alloc,
        }
    }

    /// A copy. Fails only for want of memory.
    pub fn copy(&self) -> Result<Inside, AllocError>
        ensures { IfOk result (λ copy. IsInsideSame self.now copy) }
    {
        let wanted = self.wanted.copy()?;
        let added = self.added.copy()?;
        Ok(Inside {
            wanted,
            added,
            alloc: self.alloc,
        })
    }
}

/// The names are held more times, and noted as added, where the job can have them all.
fn hold_over(
    trie: &mut LockTrie,
    job: u16,
    held: &mut Counts,
    added: &mut Counts,
    over: &[LockName],
    had: bool,
) -> Result<(), Refusal>
    requires kept { IsHeldIn trie.old job held.old }
    requires within { (x : Resource) → count_of added.old x ≤ count_of held.old x }
    ensures held { OnOk result (held.new ≡ (if had then more_of over.now held.old else held.old)) }
    ensures added { OnOk result (added.new ≡ (if had then more_of over.now added.old else added.old)) }
    ensures same { OnErr result (held.new ≡ held.old) }
    ensures err { OnErr result (added.new ≡ added.old) }
    ensures kept { IsHeldIn trie.new job held.new }
    ensures others { AreOthersSame trie.old trie.new job }
    ensures allowed { OnOk result ((x : Resource) → count_of held.old x + times x over.now ≤ most_locks) }
    ensures full { IfErr result (λ refusal. (refusal ≡ Refusal.OutOfMemory) ⊎ ((refusal ≡ Refusal.LockCountFull) × (list_any (is_over over.now held.old) over.now ≡ true))) }
{
    added.look();
    match added.add_all(over) {
        Ok(()) => {}
        Err(refusal) => return Err(refusal),
    }
    match hold_more(trie, job, held, over, had) {
        Ok(()) => {}
        Err(refusal) => {
            added.take_all(over);
            return Err(refusal);
        }
    }
    if had {
        return Ok(());
    }
    added.take_all(over);
    Ok(())
}

/// `more`, where it is known which of the names are held more times for it.
fn more_over(
    trie: &mut LockTrie,
    job: u16,
    held: &mut Counts,
    inside: &mut Inside,
    names: &[LockName],
    over: &[LockName],
    had: bool,
) -> Result<(), Refusal>
    requires kept { IsHeldIn trie.old job held.old }
    requires within { AreWithin held.old (told_by inside.old.wanted) inside.old.added }
    requires over { (x : Resource) → times x over.now ≡ times x names.now - (count_of held.old x - count_of (want_of held.old inside.old.wanted) x) }
    ensures ok { OnOk result (inside_locks held.new inside.new ≡ job_wants true (if had then more_of names.now (want_of held.old inside.old.wanted) else want_of held.old inside.old.wanted) (inside_locks held.old inside.old)) }
    ensures same { OnErr result (held.new ≡ held.old) }
    ensures err { OnErr result (IsInsideSame inside.old inside.new) }
    ensures within { AreWithin held.new (told_by inside.new.wanted) inside.new.added }
    ensures kept { IsHeldIn trie.new job held.new }
    ensures others { AreOthersSame trie.old trie.new job }
    ensures allowed { OnOk result (list_any (is_over names.now (want_of held.old inside.old.wanted)) names.now ≡ false) }
    ensures full { IfErr result (λ refusal. (refusal ≡ Refusal.OutOfMemory) ⊎ ((refusal ≡ Refusal.LockCountFull) × (list_any (is_over names.now (want_of held.old inside.old.wanted)) names.now ≡ true))) }
{
    held.look();
    inside.wanted.look();
    inside.added.look();
    match hold_over(trie, job, held, &mut inside.added, over, had) {
        Ok(()) => {}
        Err(refusal) => return Err(refusal),
    }
    if !had {
        return Ok(());
    }
    match inside.wanted.ask(names) {
        Ok(()) => Ok(()),
        Err(refusal) => {
            hold_fewer(trie, job, held, over);
            inside.added.take_all(over);
            Err(refusal)
        }
    }
}

/// The names are asked for too; where not all can be had, only whether a count would pass the highest matters.
pub fn more(
    trie: &mut LockTrie,
    job: u16,
    held: &mut Counts,
    inside: &mut Inside,
    names: &[LockName],
    had: bool,
) -> Result<(), Refusal>
    requires kept { IsHeldIn trie.old job held.old }
    requires within { AreWithin held.old (told_by inside.old.wanted) inside.old.added }
    ensures ok { OnOk result (inside_locks held.new inside.new ≡ job_wants true (if had then more_of names.now (want_of held.old inside.old.wanted) else want_of held.old inside.old.wanted) (inside_locks held.old inside.old)) }
    ensures same { OnErr result (held.new ≡ held.old) }
    ensures err { OnErr result (IsInsideSame inside.old inside.new) }
    ensures within { AreWithin held.new (told_by inside.new.wanted) inside.new.added }
    ensures kept { IsHeldIn trie.new job held.new }
    ensures others { AreOthersSame trie.old trie.new job }
    ensures allowed { OnOk result (list_any (is_over names.now (want_of held.old inside.old.wanted)) names.now ≡ false) }
    ensures full { IfErr result (λ refusal. (refusal ≡ Refusal.OutOfMemory) ⊎ ((refusal ≡ Refusal.LockCountFull) × (list_any (is_over names.now (want_of held.old inside.old.wanted)) names.now ≡ true))) }
{
    if inside.wanted.is_all() {
        return more_over(trie, job, held, inside, names, names, had);
    }
    match inside.wanted.raised(held, names, inside.alloc) {
        Ok(over) => more_over(trie, job, held, inside, names, over.as_slice(), had),
        Err(_) => Err(Refusal::OutOfMemory),
    }
}

/// One count of each name is given back, which is held still.
pub fn fewer(held: &Counts, inside: &mut Inside, names: &[LockName]) -> Result<(), AllocError>
    requires { AreWithin held.now (told_by inside.old.wanted) inside.old.added }
    ensures ok { OnOk result (inside_locks held.now inside.new ≡ job_wants true (fewer_of names.now (want_of held.now inside.old.wanted)) (inside_locks held.now inside.old)) }
    ensures err { OnErr result (IsInsideSame inside.old inside.new) }
    ensures within { AreWithin held.now (told_by inside.new.wanted) inside.new.added }
{
    held.look();
    inside.wanted.look();
    inside.wanted.release(held, names, inside.alloc)
}

/// What is wanted is released, and the names are asked for; where not all can be had, nothing is.
pub fn only(
    trie: &mut LockTrie,
    job: u16,
    held: &mut Counts,
    inside: &mut Inside,
    names: &[LockName],
    had: bool,
) -> Result<(), Refusal>
    requires kept { IsHeldIn trie.old job held.old }
    requires within { AreWithin held.old (told_by inside.old.wanted) inside.old.added }
    ensures ok { OnOk result (inside_locks held.new inside.new ≡ job_wants true (if had then more_of names.now finmap.empty else finmap.empty) (inside_locks held.old inside.old)) }
    ensures same { OnErr result (held.new ≡ held.old) }
    ensures err { OnErr result (IsInsideSame inside.old inside.new) }
    ensures within { AreWithin held.new (told_by inside.new.wanted) inside.new.added }
    ensures kept { IsHeldIn trie.new job held.new }
    ensures others { AreOthersSame trie.old trie.new job }
    ensures allowed { OnOk result (list_any (is_over names.now finmap.empty) names.now ≡ false) }
    ensures full { IfErr result (λ refusal. (refusal ≡ Refusal.OutOfMemory) ⊎ ((refusal ≡ Refusal.LockCountFull) × (list_any (is_over names.now finmap.empty) names.now ≡ true))) }
{
    let before = replace(&mut inside.wanted, Wanted::Just(Counts::new(inside.alloc)));
    match more(trie, job, held, inside, names, had) {
        Ok(()) => Ok(()),
        Err(refusal) => {
            inside.wanted = before;
            Err(refusal)
        }
    }
}
