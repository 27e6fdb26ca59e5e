//! A store, a journal, a lock table and one open transaction, by the calls that a core stands on.
use collation::Job;
use command::{Answer, Command, DataCommand, Reply};
use job_core::lone;
use journal::Journal;
use lock_name::LockCommand;
use lock_table::LockTable;
use refusal::Refusal;
use std::alloc::Global;
use std::marker::Model;
use validate_commit::{Verdict, Work, commit};
use version_store::KeyedStore;

// As if another transaction had begun at this stamp: content is kept from there on.
const KEPT_FROM: u64 = 3;

/// Between calls all is as `commit` asks (`IsReady`): after a refused commit it can be tried again.
#[derive(Drop)]
pub struct Side {
    alloc: Global,
    store: KeyedStore,
    journal: Journal,
    locks: LockTable,
    work: Work,
}

impl Model for Side {
    ghost use Rattle.std.specs.Prelude.{ℕ};
    ghost use Rattle.refused_memory.specs.Sides.{IsReady};

    ghost Value = { ℕ };

    ghost view = { λ s. s.work.job };

    ghost invariant = { λ s. IsReady s.store s.journal.units s.work };
}

impl Side {
    /// Nothing is done, and the job's transaction begins there. Takes no memory.
    pub fn new(alloc: Global, job: Job) -> Side {
        Side {
            alloc,
            store: KeyedStore::new(alloc),
            journal: Journal::new(alloc),
            locks: LockTable::new(alloc),
            work: Work::new(alloc, job, 0),
        }
    }

    /// The transaction begins anew, at now.
    pub fn begin(&mut self) {
        self.work.restart(self.store.now());
    }

    /// The store.
    pub fn store(&self) -> &KeyedStore {
        &self.store
    }

    /// The journal.
    pub fn journal(&self) -> &Journal {
        &self.journal
    }

    /// Whether a LOCK would be had; of no other command.
    pub fn would_have(&self, job: Job, command: &Command) -> bool {
        match command {
            Command::Lock(command) => self.locks.reply(job, command),
            _ => false,
        }
    }

    // A data command as a unit of its own.
    fn do_alone(&mut self, job: Job, command: DataCommand) -> Result<Answer, Refusal> {
        let oldest = self.work.start().min(KEPT_FROM);
        match lone(
            self.alloc,
            &mut self.store,
            &mut self.journal,
            job,
            command,
            Some(oldest),
        ) {
            Ok((answer, _receipt)) => Ok(answer),
            Err(refusal) => Err(refusal),
        }
    }

    // A data command of the transaction.
    fn do_inside(&mut self, command: DataCommand) -> Result<Answer, Refusal> {
        match self.store.view_at(self.work.start()) {
            Ok(view) => self.work.access(&view, command),
            Err(refusal) => {
                drop(command);
                Err(refusal)
            }
        }
    }

    fn lock(&mut self, job: Job, inside: bool, command: &LockCommand) -> Result<Reply, Refusal> {
        let had = self.locks.reply(job, command);
        self.locks.do_lock(job, inside, command)?;
        Ok(Reply::Had(had))
    }

    fn access(&mut self, job: Job, inside: bool, command: DataCommand) -> Result<Reply, Refusal> {
        let answer = if inside {
            self.do_inside(command)
        } else {
            self.do_alone(job, command)
        };
        match answer {
            Ok(answer) => Ok(Reply::Answered(answer)),
            Err(refusal) => Err(refusal),
        }
    }

    /// A data command or a LOCK, in the transaction or of a job that has none.
    pub fn step(&mut self, job: Job, inside: bool, command: Command) -> Result<Reply, Refusal> {
        match command {
            Command::Access(command) => self.access(job, inside, command),
            Command::Lock(command) => {
                let reply = self.lock(job, inside, &command);
                drop(command);
                reply
            }
            other => {
                drop(other);
                Err(Refusal::BadLine)
            }
        }
    }

    /// The commit: its receipt's job and number, or none where the transaction was overtaken.
    pub fn commit(&mut self) -> Result<Option<(Job, u64)>, Refusal> {
        let oldest = self.work.start().min(KEPT_FROM);
        match commit(
            self.alloc,
            &mut self.store,
            &mut self.journal,
            &mut self.locks,
            &self.work,
            Some(oldest),
        ) {
            Ok(Verdict::Committed(receipt)) => Ok(Some((receipt.job(), receipt.number()))),
            Ok(Verdict::Restart) => Ok(None),
            Err(refusal) => Err(refusal),
        }
    }
}
