//! A plain lock table, by the rules of docs/RULES.md, "Locks". A name is its caret and its key: the keys of the names
//! above it are beginnings of its own.
use collation::Job;
use lock_name::{LockCommand, LockName};
use std::alloc::{AllocError, Global};

// How often a job wants and holds a name; once it took a LOCK in its transaction, how often it wanted it before the
// first.
#[derive(Drop)]
struct Count {
    job: Job,
    has_caret: bool,
    key: Vec<u8>,
    wanted: u64,
    held: u64,
    start: Option<u64>,
}

impl Count {
    fn is_of(&self, job: Job, name: &LockName) -> bool {
        self.job == job
            && self.has_caret == name.has_caret()
            && self.key.as_slice() == name.key().as_slice()
    }

    // Whether another job holds the name, an ancestor of it or a descendant.
    fn blocks(&self, job: Job, name: &LockName) -> bool {
        let (ours, key) = (self.key.as_slice(), name.key().as_slice());
        self.job != job
            && self.held > 0
            && self.has_caret == name.has_caret()
            && (ours.starts_with(key) || key.starts_with(ours))
    }

    // Before a LOCK of its job.
    fn begin(&mut self, is_inside: bool) {
        if is_inside && self.start.is_none() {
            self.start = Some(self.wanted);
        }
    }

    // After a LOCK of its job: outside a transaction what is wanted is held, inside the most that was wanted.
    fn settle(&mut self, is_inside: bool) {
        self.held = if is_inside {
            self.held.max(self.wanted)
        } else {
            self.wanted
        };
    }

    fn commit(&mut self) {
        self.held = self.wanted;
        self.start = None;
    }

    fn go_back(&mut self) {
        if let Some(start) = self.start {
            self.wanted = start;
            self.held = start;
        }
        self.start = None;
    }
}

/// The locks of all jobs.
#[derive(Drop)]
pub struct PlainLocks {
    counts: Vec<Count>,
}

// The names that a LOCK has.
fn names_of(command: &LockCommand) -> &[LockName] {
    match command {
        LockCommand::Release => &[],
        LockCommand::Only(names) | LockCommand::More(names) | LockCommand::Fewer(names) => {
            names.as_slice()
        }
    }
}

impl PlainLocks {
    pub fn new(alloc: Global) -> PlainLocks {
        PlainLocks {
            counts: Vec::new(alloc),
        }
    }

    // Whether no other job is in the way of these names.
    fn are_free(&self, job: Job, names: &[LockName]) -> bool {
        for name in names {
            for count in &self.counts {
                if count.blocks(job, name) {
                    return false;
                }
            }
        }
        true
    }

    fn lists(&self, job: Job, name: &LockName) -> bool {
        for count in &self.counts {
            if count.is_of(job, name) {
                return true;
            }
        }
        false
    }

    // Lists the names for the job, those that it hasn't yet with a count of 0.
    fn list(&mut self, alloc: Global, job: Job, names: &[LockName]) -> Result<(), AllocError> {
        for name in names {
            if !self.lists(job, name) {
                self.counts.push(Count {
                    job,
                    has_caret: name.has_caret(),
                    key: Vec::from_slice(alloc, name.key().as_slice())?,
                    wanted: 0,
                    held: 0,
                    start: None,
                })?;
            }
        }
        Ok(())
    }

    fn release(&mut self, job: Job) {
        for count in self.counts.iter_mut() {
            if count.job == job {
                count.wanted = 0;
            }
        }
    }

    // One more of each name, or one fewer.
    fn add(&mut self, job: Job, names: &[LockName], is_more: bool) {
        for name in names {
            for count in self.counts.iter_mut() {
                if count.is_of(job, name) {
                    count.wanted = if is_more {
                        count.wanted.saturating_add(1)
                    } else {
                        count.wanted.saturating_sub(1)
                    };
                }
            }
        }
    }

    fn begin(&mut self, job: Job, is_inside: bool) {
        for count in self.counts.iter_mut() {
            if count.job == job {
                count.begin(is_inside);
            }
        }
    }

    fn settle(&mut self, job: Job, is_inside: bool) {
        for count in self.counts.iter_mut() {
            if count.job == job {
                count.settle(is_inside);
            }
        }
    }

    // What a job comes to want by a LOCK, which has what it asks for or not.
    fn want(&mut self, job: Job, command: &LockCommand, is_had: bool) {
        let names = names_of(command);
        match command {
            LockCommand::Release | LockCommand::Only(_) => self.release(job),
            _ => (),
        }
        match command {
            LockCommand::Fewer(_) => self.add(job, names, false),
            _ if is_had => self.add(job, names, true),
            _ => (),
        }
    }

    /// Does a LOCK. Whether it has what it asks for.
    pub fn lock(
        &mut self,
        alloc: Global,
        job: Job,
        is_inside: bool,
        command: &LockCommand,
    ) -> Result<bool, AllocError> {
        let names = names_of(command);
        let is_had = match command {
            LockCommand::Fewer(_) => true,
            _ => self.are_free(job, names),
        };
        self.list(alloc, job, names)?;
        self.begin(job, is_inside);
        self.want(job, command, is_had);
        self.settle(job, is_inside);
        Ok(is_had)
    }

    /// A transaction has committed.
    pub fn commit(&mut self, job: Job) {
        for count in self.counts.iter_mut() {
            if count.job == job {
                count.commit();
            }
        }
    }

    /// A transaction is rolled back or restarted.
    pub fn go_back(&mut self, job: Job) {
        for count in self.counts.iter_mut() {
            if count.job == job {
                count.go_back();
            }
        }
    }

    /// A job's session has ended.
    pub fn end(&mut self, job: Job) {
        self.counts.retain(|count| count.job != job);
    }

    /// Whether no job has locks: each that took one has ended.
    pub fn is_empty(&self) -> bool {
        self.counts.is_empty()
    }
}
