//! What a job holds in the trie goes along with its counts.
ghost use Rattle.std.specs.Prelude.{true, ◌⊎◌, if◌then◌else◌, ◌≡◌, ◌≤◌, ◌<◌, ◌+◌, ◌-◌, min, OnOk, OnErr, IfErr};
ghost use Rattle.std.specs.List.{list_any};
ghost use Rattle.collation.specs.Limits.{most_locks};
ghost use Rattle.collation.specs.Reference.{Resource};
ghost use Rattle.lock_name.specs.Locks.{count_of, more_of, fewer_of};
ghost use Rattle.lock_name.specs.LockStatements.{times};
ghost use Rattle.lock_trie.specs.Held.{held_count, IsRecounted};
ghost use Rattle.lock_table.specs.Counted.{less, is_over};
ghost use Rattle.lock_table.specs.Rows.{IsHeldIn, AreOthersSame, want_of, told_by};

use crate::counts::Counts;
use crate::wanted::Wanted;
use lock_name::LockName;
use lock_trie::LockTrie;
use refusal::Refusal;
use std::alloc::AllocError;
use std::mem::replace;

/// The job holds this name at most n times. Takes no memory.
pub fn lower(trie: &mut LockTrie, job: u16, name: &LockName, n: u32)
    ensures { IsRecounted trie.old trie.new job name.now (min (held_count trie.old job name.now) n) }
{
    let held = trie.count(job, name);
    if held > n {
        trie.take_away(job, name, held - n);
    }
}

/// The job holds each of these names once fewer. Takes no memory.
fn take_names(trie: &mut LockTrie, job: u16, names: &[LockName])
    ensures others { AreOthersSame trie.old trie.new job }
    ensures taken { (x : Resource) → held_count trie.new job x ≡ held_count trie.old job x - times x names.now }
{
    for name in names {
        trie.take_away(job, name, 1);
    }
}

/// The job holds each of these names once more. Where memory is refused it holds what it held.
fn add_names(trie: &mut LockTrie, job: u16, names: &[LockName]) -> Result<(), AllocError>
    requires { (x : Resource) → held_count trie.old job x + times x names.now ≤ most_locks }
    ensures others { AreOthersSame trie.old trie.new job }
    ensures ok { OnOk result ((x : Resource) → held_count trie.new job x ≡ held_count trie.old job x + times x names.now) }
    ensures err { OnErr result ((x : Resource) → held_count trie.new job x ≡ held_count trie.old job x) }
{
    for i in 0..names.len() {
        match trie.add(job, &names[i], 1) {
            Ok(()) => {}
            Err(refused) => {
                take_names(trie, job, &names[..i]);
                return Err(refused);
            }
        }
    }
    Ok(())
}

/// The job, which holds what its counts say, holds these names once more each; where it can't have them all, only
/// whether a count would pass the highest matters.
pub fn hold_more(
    trie: &mut LockTrie,
    job: u16,
    held: &mut Counts,
    names: &[LockName],
    had: bool,
) -> Result<(), Refusal>
    requires { IsHeldIn trie.old job held.old }
    ensures ok { OnOk result (held.new ≡ (if had then more_of names.now held.old else held.old)) }
    ensures err { OnErr result (held.new ≡ held.old) }
    ensures kept { IsHeldIn trie.new job held.new }
    ensures others { AreOthersSame trie.old trie.new job }
    ensures allowed { OnOk result ((x : Resource) → count_of held.old x + times x names.now ≤ most_locks) }
    ensures full { IfErr result (λ refusal. (refusal ≡ Refusal.OutOfMemory) ⊎ ((refusal ≡ Refusal.LockCountFull) × (list_any (is_over names.now held.old) names.now ≡ true))) }
{
    held.look();
    if !had && held.have_room(names) {
        return Ok(());
    }
    match held.add_all(names) {
        Ok(()) => {}
        Err(refusal) => return Err(refusal),
    }
    held.look();
    if !had {
        held.take_all(names);
        return Ok(());
    }
    match add_names(trie, job, names) {
        Ok(()) => Ok(()),
        Err(_) => {
            held.take_all(names);
            Err(Refusal::OutOfMemory)
        }
    }
}

/// The job, which holds what its counts say, holds each of these names once fewer. Takes no memory.
pub fn hold_fewer(trie: &mut LockTrie, job: u16, held: &mut Counts, names: &[LockName])
    requires { IsHeldIn trie.old job held.old }
    ensures held { held.new ≡ fewer_of names.now held.old }
    ensures kept { IsHeldIn trie.new job held.new }
    ensures others { AreOthersSame trie.old trie.new job }
{
    held.take_all(names);
    take_names(trie, job, names);
}

/// Of what the job holds, which its counts say, as many fewer as the others have. Takes no memory.
pub fn give_back(trie: &mut LockTrie, job: u16, held: &mut Counts, others: &Counts)
    requires { IsHeldIn trie.old job held.old }
    ensures held { held.new ≡ less held.old others.now }
    ensures kept { IsHeldIn trie.new job held.new }
    ensures others { AreOthersSame trie.old trie.new job }
{
    held.look();
    held.give(trie, job, others);
    held.look();
    others.lower_in(trie, job, held);
}

/// The job, which holds what its counts say, holds just what is wanted, which is no more. Takes no memory.
pub fn hold_just(trie: &mut LockTrie, job: u16, held: &mut Counts, want: Counts)
    requires kept { IsHeldIn trie.old job held.old }
    requires fewer { (x : Resource) → count_of want x ≤ count_of held.old x }
    ensures held { held.new ≡ want }
    ensures kept { IsHeldIn trie.new job held.new }
    ensures others { AreOthersSame trie.old trie.new job }
{
    let before = replace(held, want);
    before.lower_in(trie, job, held);
}

/// The job, which holds what its counts say, holds just what it wants of that. Takes no memory.
pub fn hold_wanted(trie: &mut LockTrie, job: u16, held: &mut Counts, wanted: Wanted)
    requires kept { IsHeldIn trie.old job held.old }
    requires within { (x : Resource) → count_of (told_by wanted) x ≤ count_of held.old x }
    ensures held { held.new ≡ want_of held.old wanted }
    ensures kept { IsHeldIn trie.new job held.new }
    ensures others { AreOthersSame trie.old trie.new job }
{
    match wanted {
        Wanted::AllBut(fewer) => give_back(trie, job, held, &fewer),
        Wanted::Just(want) => hold_just(trie, job, held, want),
    }
}
