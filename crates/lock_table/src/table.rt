//! The counts of all jobs, and the trie of what they hold.
ghost use Rattle.std.specs.Prelude.{true, false, ◌⊎◌, if◌then◌else◌, ◌≡◌, None, Some, is_some, OnOk, OnErr, IfErr, IfOk};
ghost use Rattle.std.specs.List.{list_any};
ghost use Rattle.std.specs.FinMap as finmap;
ghost use Rattle.lock_name.specs.declared.lock.LockCommand.TheVariants.{Release, Only, More, Fewer};
ghost use Rattle.collation.specs.Reference.{Resource};
ghost use Rattle.lock_name.specs.Locks.{no_locks, count_of, locks_of, changed, job_wants, is_blocked, lock_reply, lock_refusal, locks_after, locks_after_commit, locks_after_back, locks_after_end};
ghost use Rattle.lock_table.specs.Counted.{is_listed};
ghost use Rattle.lock_table.specs.Rows.{want_by, is_full_by};
ghost use Rattle.lock_table.specs.Tables.{is_blocked_below, nothing, IsNumberHeld};

use crate::counts::Counts;
use crate::row::{Form, Row};
use collation::Job;
use lock_name::{LockName, LockNames};
use lock_trie::LockTrie;
use refusal::Refusal;
use std::alloc::{AllocError, Global};
use std::collections::BTreeMap;
use std::marker::Model;

/// The wanted, held and starting counts of all jobs.
#[derive(Drop)]
pub struct LockTable {
    rows: BTreeMap<u16, Row>,
    trie: LockTrie,
    alloc: Global,
}

impl Model for LockTable {
    ghost use Rattle.std.specs.FinMap as finmap;
    ghost use Rattle.lock_name.specs.Locks.{LockState};
    ghost use Rattle.lock_table.specs.Codes.{lock_state_code};
    ghost use Rattle.lock_table.specs.Tables.{RowsMatchTrie};

    ghost Value = { LockState };

    ghost coded = { lock_state_code };

    ghost view = { λ t. finmap.from_entries t.rows.entries };

    ghost invariant = { λ t. RowsMatchTrie t.trie (finmap.from_entries t.rows.entries) };
}

impl LockTable {
    /// No job has anything.
    pub fn new(alloc: Global) -> LockTable
        ensures { result ≡ finmap.empty }
    {
        LockTable {
            rows: BTreeMap::new(alloc),
            trie: LockTrie::new(alloc),
            alloc,
        }
    }

    /// How many names are held, each once for all jobs that hold it.
    pub fn names_held(&self) -> usize
        ensures { IsNumberHeld self.now result }
    {
        self.trie.len()
    }

    /// Whether another job's row has the name or a descendant of it: each row is looked at once.
    fn is_had_below(&self, job: u16, name: &LockName) -> bool
        ensures { result ≡ is_blocked_below self.now job name.now }
    {
        for (other, row) in self.rows.iter() {
            if *other != job && row.has_below(name) {
                return true;
            }
        }
        false
    }

    /// Whether another job holds the name or a descendant of it: a look at the held names there, while they are the
    /// job's own, and after as many of them as there are rows at the rows.
    fn is_blocked_below(&self, job: u16, name: &LockName) -> bool
        ensures { result ≡ is_blocked_below self.now job name.now }
    {
        match self.trie.blocked_below(job, name, self.rows.len()) {
            Some(blocked) => blocked,
            None => self.is_had_below(job, name),
        }
    }

    fn is_blocked(&self, job: u16, name: &LockName) -> bool
        ensures { result ≡ is_blocked self.now job name.now }
    {
        self.is_blocked_below(job, name) || self.trie.blocked_above(job, name)
    }

    /// Whether one of these names is blocked.
    pub(crate) fn are_blocked(&self, job: u16, names: &[LockName]) -> bool
        ensures { result ≡ list_any (is_blocked self.now job) names.now }
    {
        for name in names {
            if self.is_blocked(job, name) {
                return true;
            }
        }
        false
    }

    /// Counts of no name.
    pub(crate) fn nothing(&self) -> Counts
        ensures { result ≡ finmap.empty }
    {
        Counts::new(self.alloc)
    }

    /// Of these names as many as the job wants, and of no other.
    pub(crate) fn wanted(&self, job: u16, names: &[LockName]) -> Result<Counts, AllocError>
        ensures { IfOk result (λ want. (x : Resource) → is_listed x names.now ≡ true → count_of want x ≡ count_of (let l = locks_of job self.now in l.want) x) }
    {
        match self.rows.get(&job) {
            Some(row) => row.named(names),
            None => Ok(self.nothing()),
        }
    }

    /// The job, which has no row, has one with nothing in it.
    fn add_row(&mut self, job: u16) -> Result<(), Refusal>
        requires { finmap.get self.old job ≡ None }
        ensures ok { OnOk result (self.new ≡ finmap.insert self.old job no_locks) }
        ensures refused { IfErr result (λ refusal. refusal ≡ Refusal.OutOfMemory) }
        ensures unchanged { OnErr result (self.new ≡ self.old) }
    {
        let row = Row::new(self.alloc);
        match self.rows.insert(job, row) {
            Ok(before) => {
                drop(before);
                Ok(())
            }
            Err(failed) => {
                drop(failed);
                Err(Refusal::OutOfMemory)
            }
        }
    }

    fn has_row(&self, job: u16) -> bool
        ensures { result ≡ is_some (finmap.get self.now job) }
    {
        self.rows.get(&job).is_some()
    }

    /// The job has a row; answers whether it had none.
    fn make_row(&mut self, job: u16) -> Result<bool, Refusal>
        ensures there { OnOk result (is_some (finmap.get self.new job) ≡ true) }
        ensures ok { IfOk result (λ fresh. self.new ≡ (if fresh then finmap.insert self.old job no_locks else self.old)) }
        ensures fresh { IfOk result (λ fresh. fresh ≡ true → finmap.get self.old job ≡ None) }
        ensures refused { IfErr result (λ refusal. refusal ≡ Refusal.OutOfMemory) }
        ensures unchanged { OnErr result (self.new ≡ self.old) }
    {
        if self.has_row(job) {
            return Ok(false);
        }
        match self.add_row(job) {
            Ok(()) => Ok(true),
            Err(refusal) => Err(refusal),
        }
    }

    /// One form of LOCK of a job that has a row.
    fn lock_row(
        &mut self,
        job: u16,
        inside: bool,
        form: Form,
        names: &[LockName],
    ) -> Result<(), Refusal>
        requires { is_some (finmap.get self.old job) ≡ true }
        ensures ok { OnOk result (self.new ≡ finmap.insert self.old job (job_wants inside (want_by form names.now (let l = locks_of job self.old in l.want)) (locks_of job self.old))) }
        ensures allowed { OnOk result (is_full_by form names.now (let l = locks_of job self.old in l.want) ≡ false) }
        ensures full { IfErr result (λ refusal. (refusal ≡ Refusal.OutOfMemory) ⊎ ((refusal ≡ Refusal.LockCountFull) × (is_full_by form names.now (let l = locks_of job self.old in l.want) ≡ true))) }
        ensures unchanged { OnErr result (self.new ≡ self.old) }
    {
        match self.rows.get_mut(&job) {
            Some(row) => row.lock(&mut self.trie, job, inside, form, names),
            None => unreachable!(),
        }
    }

    /// The job's row has nothing.
    fn empty(&mut self, job: u16)
        ensures { self.new ≡ changed nothing job self.old (finmap.get self.old job) }
    {
        if let Some(row) = self.rows.get_mut(&job) {
            row.end(&mut self.trie, job);
        }
    }

    /// The job's row, which has nothing, goes.
    fn remove(&mut self, job: u16)
        requires { locks_of job self.old ≡ no_locks }
        ensures { self.new ≡ finmap.remove self.old job }
    {
        drop(self.rows.remove(&job));
    }

    fn end(&mut self, job: u16)
        ensures { self.new ≡ locks_after_end job self.old }
    {
        self.empty(job);
        self.remove(job);
    }

    fn commit(&mut self, job: u16)
        ensures { self.new ≡ locks_after_commit job self.old }
    {
        if let Some(row) = self.rows.get_mut(&job) {
            row.commit(&mut self.trie, job);
        }
    }

    fn go_back(&mut self, job: u16)
        ensures { self.new ≡ locks_after_back job self.old }
    {
        if let Some(row) = self.rows.get_mut(&job) {
            row.go_back(&mut self.trie, job);
        }
    }

    /// One form of LOCK.
    fn lock(
        &mut self,
        job: u16,
        inside: bool,
        form: Form,
        names: &[LockName],
    ) -> Result<(), Refusal>
        ensures ok { OnOk result (self.new ≡ finmap.insert self.old job (job_wants inside (want_by form names.now (let l = locks_of job self.old in l.want)) (locks_of job self.old))) }
        ensures allowed { OnOk result (is_full_by form names.now (let l = locks_of job self.old in l.want) ≡ false) }
        ensures full { IfErr result (λ refusal. (refusal ≡ Refusal.OutOfMemory) ⊎ ((refusal ≡ Refusal.LockCountFull) × (is_full_by form names.now (let l = locks_of job self.old in l.want) ≡ true))) }
        ensures unchanged { OnErr result (self.new ≡ self.old) }
    {
        let fresh = match self.make_row(job) {
            Ok(fresh) => fresh,
            Err(refusal) => return Err(refusal),
        };
        match self.lock_row(job, inside, form, names) {
            Ok(()) => Ok(()),
            Err(refusal) => {
                if fresh {
                    self.end(job);
                }
                Err(refusal)
            }
        }
    }

    /// LOCK with names: what the job wants is released, and the names are asked for, all or none; answers whether it
    /// has them. Refusals: `LockCountFull` where a name would be had more than 65,535 times; `OutOfMemory`.
    /// After either nothing has changed.
    pub fn lock_all(&mut self, job: Job, inside: bool, names: &LockNames) -> Result<bool, Refusal>
        ensures reply { IfOk result (λ had. had ≡ lock_reply job (Only names.now) self.old) }
        ensures locks { OnOk result (self.new ≡ locks_after job inside (Only names.now) self.old) }
        ensures allowed { OnOk result (lock_refusal job (Only names.now) self.old ≡ None) }
        ensures refused { IfErr result (λ refusal. (refusal ≡ Refusal.OutOfMemory) ⊎ (lock_refusal job (Only names.now) self.old ≡ Some refusal)) }
        ensures unchanged { OnErr result (self.new ≡ self.old) }
    {
        let number = job.number();
        let had = !self.are_blocked(number, names.as_slice());
        match self.lock(number, inside, Form::Only(had), names.as_slice()) {
            Ok(()) => Ok(had),
            Err(refusal) => Err(refusal),
        }
    }

    /// LOCK with +: the names are asked for too, all or none; answers whether the job has them.
    /// Refusals: `LockCountFull` where a name would be had more than 65,535 times; `OutOfMemory`.
    /// After either nothing has changed.
    pub fn plus(&mut self, job: Job, inside: bool, names: &LockNames) -> Result<bool, Refusal>
        ensures reply { IfOk result (λ had. had ≡ lock_reply job (More names.now) self.old) }
        ensures locks { OnOk result (self.new ≡ locks_after job inside (More names.now) self.old) }
        ensures allowed { OnOk result (lock_refusal job (More names.now) self.old ≡ None) }
        ensures refused { IfErr result (λ refusal. (refusal ≡ Refusal.OutOfMemory) ⊎ (lock_refusal job (More names.now) self.old ≡ Some refusal)) }
        ensures unchanged { OnErr result (self.new ≡ self.old) }
    {
        let number = job.number();
        let had = !self.are_blocked(number, names.as_slice());
        match self.lock(number, inside, Form::More(had), names.as_slice()) {
            Ok(()) => Ok(had),
            Err(refusal) => Err(refusal),
        }
    }

    /// LOCK with -: one count of each name is given back. After a refusal, `OutOfMemory`, nothing has changed.
    pub fn minus(&mut self, job: Job, inside: bool, names: &LockNames) -> Result<(), Refusal>
        ensures locks { OnOk result (self.new ≡ locks_after job inside (Fewer names.now) self.old) }
        ensures refused { IfErr result (λ refusal. refusal ≡ Refusal.OutOfMemory) }
        ensures unchanged { OnErr result (self.new ≡ self.old) }
    {
        self.lock(job.number(), inside, Form::Fewer, names.as_slice())
    }

    /// LOCK without names: all that the job wants is released. After a refusal, `OutOfMemory`, nothing has changed.
    pub fn clear(&mut self, job: Job, inside: bool) -> Result<(), Refusal>
        ensures locks { OnOk result (self.new ≡ locks_after job inside Release self.old) }
        ensures refused { IfErr result (λ refusal. refusal ≡ Refusal.OutOfMemory) }
        ensures unchanged { OnErr result (self.new ≡ self.old) }
    {
        self.lock(job.number(), inside, Form::Only(true), &[])
    }

    /// What the job wants is what it holds. Takes no memory.
    pub fn commit_job(&mut self, job: Job)
        ensures { self.new ≡ locks_after_commit job self.old }
    {
        self.commit(job.number());
    }

    /// What the job wanted at its start is what it wants and holds. Takes no memory.
    pub fn back_job(&mut self, job: Job)
        ensures { self.new ≡ locks_after_back job self.old }
    {
        self.go_back(job.number());
    }

    /// The job has nothing. Takes no memory.
    pub fn end_job(&mut self, job: Job)
        ensures { self.new ≡ locks_after_end job self.old }
    {
        self.end(job.number());
    }

    /// A copy: the same counts of all jobs. Refusals: `OutOfMemory`.
    pub fn copy(&self) -> Result<LockTable, Refusal>
        ensures ok { IfOk result (λ copy. copy ≡ self.now) }
        ensures refused { IfErr result (λ refusal. refusal ≡ Refusal.OutOfMemory) }
    {
        match self.copied() {
            Ok(copy) => Ok(copy),
            Err(_) => Err(Refusal::OutOfMemory),
        }
    }

    fn copied(&self) -> Result<LockTable, AllocError>
        ensures { IfOk result (λ copy. copy ≡ self.now) }
    {
        let rows = self.rows.clone()?;
        let trie = self.trie.copy()?;
        Ok(LockTable {
            rows,
            trie,
            alloc: self.alloc,
        })
    }
}
