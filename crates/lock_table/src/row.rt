//! One job's counts.
ghost use Rattle.std.specs.Prelude.{true, false, ◌⊎◌, ◌≡◌, None, Some, OnOk, OnErr, IfErr, IfOk};
ghost use Rattle.collation.specs.Reference.{Resource};
ghost use Rattle.lock_name.specs.Locks.{count_of, no_locks, job_wants, job_commits, job_goes_back};
ghost use Rattle.lock_table.specs.Counted.{have_below, is_listed};
ghost use Rattle.lock_table.specs.Rows.{AreWithin, want_of, told_by, inside_locks, want_by, is_full_by, IsHeldIn, IsInsideSame, IsKept, AreOthersSame};

use crate::counts::Counts;
use crate::inside::{Inside, fewer, more, only};
use crate::moves::{give_back, hold_fewer, hold_just, hold_more, hold_wanted};
use lock_name::LockName;
use lock_trie::LockTrie;
use refusal::Refusal;
use std::alloc::{AllocError, Global};
use std::marker::Model;

/// The forms of LOCK; of those that ask for names, whether the job can have them all.
#[derive(Drop, Clone, Copy)]
pub enum Form {
    /// What is wanted is released, and the names are asked for.
    Only(bool),
    /// The names are asked for too.
    More(bool),
    /// One count of each name is given back.
    Fewer,
}

/// One form of LOCK in a transaction.
fn lock_inside(
    trie: &mut LockTrie,
    job: u16,
    held: &mut Counts,
    inside: &mut Inside,
    form: Form,
    names: &[LockName],
) -> Result<(), Refusal>
    requires kept { IsHeldIn trie.old job held.old }
    requires within { AreWithin held.old (told_by inside.old.wanted) inside.old.added }
    ensures ok { OnOk result (inside_locks held.new inside.new ≡ job_wants true (want_by form names.now (want_of held.old inside.old.wanted)) (inside_locks held.old inside.old)) }
    ensures same { OnErr result (held.new ≡ held.old) }
    ensures err { OnErr result (IsInsideSame inside.old inside.new) }
    ensures within { AreWithin held.new (told_by inside.new.wanted) inside.new.added }
    ensures kept { IsHeldIn trie.new job held.new }
    ensures others { AreOthersSame trie.old trie.new job }
    ensures allowed { OnOk result (is_full_by form names.now (want_of held.old inside.old.wanted) ≡ false) }
    ensures full { IfErr result (λ refusal. (refusal ≡ Refusal.OutOfMemory) ⊎ ((refusal ≡ Refusal.LockCountFull) × (is_full_by form names.now (want_of held.old inside.old.wanted) ≡ true))) }
{
    match form {
        Form::Only(had) => only(trie, job, held, inside, names, had),
        Form::More(had) => more(trie, job, held, inside, names, had),
        Form::Fewer => match fewer(held, inside, names) {
            Ok(()) => Ok(()),
            Err(_) => Err(Refusal::OutOfMemory),
        },
    }
}

/// One job's counts.
#[derive(Drop)]
pub struct Row {
    held: Counts,
    inside: Option<Inside>,
    alloc: Global,
}

impl Model for Row {
    ghost use Rattle.lock_name.specs.Locks.{JobLocks};
    ghost use Rattle.lock_table.specs.Codes.{job_locks_code};
    ghost use Rattle.lock_table.specs.Rows.{locks_in, IsWithin};

    ghost Value = { JobLocks };

    ghost coded = { job_locks_code };

    ghost view = { λ r. locks_in r.held r.inside };

    ghost invariant = { λ r. IsWithin r.held r.inside };
}

impl Row {
    /// Nothing is wanted.
    pub fn new(alloc: Global) -> Row
        ensures { result ≡ no_locks }
    {
        Row {
            held: Counts::new(alloc),
            inside: None,
            alloc,
        }
    }

    /// Of these names as many as the job wants, and of no other.
    pub fn named(&self, names: &[LockName]) -> Result<Counts, AllocError>
        ensures { IfOk result (λ want. (x : Resource) → is_listed x names.now ≡ true → count_of want x ≡ count_of self.now.want x) }
    {
        match &self.inside {
            Some(inside) => inside.wanted.among(&self.held, names),
            None => self.held.among(names),
        }
    }

    /// Whether the job holds this name or a descendant of it.
    pub fn has_below(&self, name: &LockName) -> bool
        ensures { result ≡ have_below name.now self.now.held }
    {
        self.held.have_below(name)
    }

    /// What is wanted is what is held, and the start is forgotten. Takes no memory.
    pub fn commit(&mut self, trie: &mut LockTrie, job: u16)
        requires { IsKept trie.old job self.old }
        ensures row { self.new ≡ job_commits self.old }
        ensures kept { IsKept trie.new job self.new }
        ensures others { AreOthersSame trie.old trie.new job }
    {
        if let Some(inside) = self.inside.take() {
            hold_wanted(trie, job, &mut self.held, inside.wanted);
        }
    }

    /// What was wanted at the start is wanted and held. Takes no memory.
    pub fn go_back(&mut self, trie: &mut LockTrie, job: u16)
        requires { IsKept trie.old job self.old }
        ensures row { self.new ≡ job_goes_back self.old }
        ensures kept { IsKept trie.new job self.new }
        ensures others { AreOthersSame trie.old trie.new job }
    {
        if let Some(inside) = self.inside.take() {
            give_back(trie, job, &mut self.held, &inside.added);
        }
    }

    /// Nothing is wanted or held. Takes no memory.
    pub fn end(&mut self, trie: &mut LockTrie, job: u16)
        requires { IsKept trie.old job self.old }
        ensures row { self.new ≡ no_locks }
        ensures kept { IsKept trie.new job self.new }
        ensures others { AreOthersSame trie.old trie.new job }
    {
        drop(self.inside.take());
        hold_just(trie, job, &mut self.held, Counts::new(self.alloc));
    }

    /// The first LOCK in a transaction: what is wanted is remembered.
    fn first(
        &mut self,
        trie: &mut LockTrie,
        job: u16,
        form: Form,
        names: &[LockName],
    ) -> Result<(), Refusal>
        requires kept { IsKept trie.old job self.old }
        requires out { self.old.start ≡ None }
        ensures ok { OnOk result (self.new ≡ job_wants true (want_by form names.now self.old.want) self.old) }
        ensures err { OnErr result (self.new ≡ self.old) }
        ensures kept { IsKept trie.new job self.new }
        ensures others { AreOthersSame trie.old trie.new job }
        ensures allowed { OnOk result (is_full_by form names.now self.old.want ≡ false) }
        ensures full { IfErr result (λ refusal. (refusal ≡ Refusal.OutOfMemory) ⊎ ((refusal ≡ Refusal.LockCountFull) × (is_full_by form names.now self.old.want ≡ true))) }
    {
        self.held.look();
        let mut inside = Inside::new(self.alloc);
        match lock_inside(trie, job, &mut self.held, &mut inside, form, names) {
            Ok(()) => {
                self.inside = Some(inside);
                Ok(())
            }
            Err(refusal) => Err(refusal),
        }
    }

    /// One form of LOCK in a transaction.
    fn inside(
        &mut self,
        trie: &mut LockTrie,
        job: u16,
        form: Form,
        names: &[LockName],
    ) -> Result<(), Refusal>
        requires { IsKept trie.old job self.old }
        ensures ok { OnOk result (self.new ≡ job_wants true (want_by form names.now self.old.want) self.old) }
        ensures err { OnErr result (self.new ≡ self.old) }
        ensures kept { IsKept trie.new job self.new }
        ensures others { AreOthersSame trie.old trie.new job }
        ensures allowed { OnOk result (is_full_by form names.now self.old.want ≡ false) }
        ensures full { IfErr result (λ refusal. (refusal ≡ Refusal.OutOfMemory) ⊎ ((refusal ≡ Refusal.LockCountFull) × (is_full_by form names.now self.old.want ≡ true))) }
    {
        match &mut self.inside {
            Some(inside) => lock_inside(trie, job, &mut self.held, inside, form, names),
            None => self.first(trie, job, form, names),
        }
    }

    /// One form of LOCK that is done at once: as in a transaction that commits.
    fn at_once(
        &mut self,
        trie: &mut LockTrie,
        job: u16,
        form: Form,
        names: &[LockName],
    ) -> Result<(), Refusal>
        requires { IsKept trie.old job self.old }
        ensures ok { OnOk result (self.new ≡ job_wants false (want_by form names.now self.old.want) self.old) }
        ensures err { OnErr result (self.new ≡ self.old) }
        ensures kept { IsKept trie.new job self.new }
        ensures others { AreOthersSame trie.old trie.new job }
        ensures allowed { OnOk result (is_full_by form names.now self.old.want ≡ false) }
        ensures full { IfErr result (λ refusal. (refusal ≡ Refusal.OutOfMemory) ⊎ ((refusal ≡ Refusal.LockCountFull) × (is_full_by form names.now self.old.want ≡ true))) }
    {
        match self.inside(trie, job, form, names) {
            Ok(()) => {
                self.commit(trie, job);
                Ok(())
            }
            Err(refusal) => Err(refusal),
        }
    }

    /// One form of LOCK outside a transaction. A job that took no LOCK inside wants what it holds.
    fn outside(
        &mut self,
        trie: &mut LockTrie,
        job: u16,
        form: Form,
        names: &[LockName],
    ) -> Result<(), Refusal>
        requires { IsKept trie.old job self.old }
        ensures ok { OnOk result (self.new ≡ job_wants false (want_by form names.now self.old.want) self.old) }
        ensures err { OnErr result (self.new ≡ self.old) }
        ensures kept { IsKept trie.new job self.new }
        ensures others { AreOthersSame trie.old trie.new job }
        ensures allowed { OnOk result (is_full_by form names.now self.old.want ≡ false) }
        ensures full { IfErr result (λ refusal. (refusal ≡ Refusal.OutOfMemory) ⊎ ((refusal ≡ Refusal.LockCountFull) × (is_full_by form names.now self.old.want ≡ true))) }
    {
        if self.inside.is_some() {
            return self.at_once(trie, job, form, names);
        }
        match form {
            Form::Only(_) => self.at_once(trie, job, form, names),
            Form::More(had) => hold_more(trie, job, &mut self.held, names, had),
            Form::Fewer => {
                hold_fewer(trie, job, &mut self.held, names);
                Ok(())
            }
        }
    }

    /// One form of LOCK. Refusals: `LockCountFull` where a count would pass the highest; `OutOfMemory`.
    /// After either nothing has changed.
    pub fn lock(
        &mut self,
        trie: &mut LockTrie,
        job: u16,
        inside: bool,
        form: Form,
        names: &[LockName],
    ) -> Result<(), Refusal>
        requires { IsKept trie.old job self.old }
        ensures ok { OnOk result (self.new ≡ job_wants inside (want_by form names.now self.old.want) self.old) }
        ensures err { OnErr result (self.new ≡ self.old) }
        ensures kept { IsKept trie.new job self.new }
        ensures others { AreOthersSame trie.old trie.new job }
        ensures allowed { OnOk result (is_full_by form names.now self.old.want ≡ false) }
        ensures full { IfErr result (λ refusal. (refusal ≡ Refusal.OutOfMemory) ⊎ ((refusal ≡ Refusal.LockCountFull) × (is_full_by form names.now self.old.want ≡ true))) }
    {
        if inside {
            self.inside(trie, job, form, names)
        } else {
            self.outside(trie, job, form, names)
        }
    }
}

impl Clone for Row {
    ghost use Rattle.std.specs.Prelude.{◌≡◌};

    ghost is_clone = { λ a b. b ≡ a };

    /// A copy. Fails only for want of memory.
    fn clone(&self) -> Result<Row, AllocError> {
        let held = self.held.copy()?;
        let inside = match &self.inside {
            Some(inside) => Some(inside.copy()?),
            None => None,
        };
        Ok(Row {
            held,
            inside,
            alloc: self.alloc,
        })
    }
}
