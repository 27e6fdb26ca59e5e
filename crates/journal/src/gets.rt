//! $GETs of one job outside a transaction, gathered as bytes, to be units of a journal in one go.
ghost use Rattle.std.specs.Prelude.{◌≡◌, [], ◌∷◌, ◌++◌, length, OnOk, OnErr};
ghost use Rattle.journal.specs.Gathered.{got, AreGets};
ghost use Rattle.journal.specs.Log.{Stands};

use crate::write::push_get;
use collation::Job;
use key_codec::Key;
use std::alloc::{AllocError, Global};
use std::marker::Model;

/// $GETs without a default of one job, each with what it was answered, as bytes that a journal takes over in one go. They
/// are seen as its units.
#[derive(Drop)]
pub struct Gets {
    job: Job,
    bytes: Vec<u8>,
    count: u64,
}

impl Model for Gets {
    ghost use Rattle.journal.specs.Gathered.{Gathered, AreGets};
    ghost use Rattle.journal.specs.Log.{units_in, Stands};

    ghost Value = { Gathered };

    ghost view = { λ g. record { job = g.job; units = units_in g.count g.bytes.items } };

    ghost invariant = { λ g. Stands g.bytes.items g.count (units_in g.count g.bytes.items) × AreGets (record { job = g.job; units = units_in g.count g.bytes.items }) };
}

impl Gets {
    /// No $GET of this job yet. Takes no memory.
    pub fn new(alloc: Global, job: Job) -> Gets
        ensures { result ≡ record { job = job; units = [] } }
    {
        Gets {
            job,
            bytes: Vec::new(alloc),
            count: 0,
        }
    }

    /// The job whose $GETs they are.
    pub fn job(&self) -> Job
        ensures job { result ≡ self.now.job }
        ensures gets { AreGets self.now }
    {
        self.job
    }

    /// How many there are.
    pub fn len(&self) -> u64
        ensures { result ≡ length self.now.units }
    {
        self.count
    }

    // Their bytes.
    pub(crate) fn as_slice(&self) -> &[u8]
        ensures { Stands result.now (length self.now.units) self.now.units }
    {
        self.bytes.as_slice()
    }

    /// One $GET more, from its key and what it was answered. Where memory is refused nothing has changed.
    #[tactic(auto, using(key_codec::specs::laws::Grown::back_to))]
    pub fn push(&mut self, key: &Key, value: &[u8]) -> Result<(), AllocError>
        ensures ok { OnOk result (self.new ≡ record { job = self.old.job; units = self.old.units ++ got self.old.job key.now value.now ∷ [] }) }
        ensures err { OnErr result (self.new ≡ self.old) }
    {
        if self.count == u64::MAX {
            return Err(AllocError);
        }
        let before = self.bytes.len();
        match push_get(&mut self.bytes, self.job, key, value) {
            Ok(()) => {
                self.count += 1;
                Ok(())
            }
            Err(error) => {
                self.bytes.truncate(before);
                Err(error)
            }
        }
    }
}
