//! A session with what it needs beside it.
ghost use Rattle.std.specs.Prelude.{◌≡◌, None, IfErr, IfOk};
ghost use Rattle.refusal.specs.declared.Refusal.{Refusal};
ghost use Rattle.session_calls.specs.Calls.{IsBegun};

use collation::Job;
use embedded::Answered;
use hub::{Busy, Hub, HubSession};
use refusal::Refusal;
use std::alloc::{AllocError, Global};
use std::sync::Arc;

/// An owner of a hub; the session of a job in it, where it has one; and that session's last reply.
#[derive(Drop)]
pub struct Seat {
    pub hub: Arc<Hub, Global>,
    pub session: Option<HubSession>,
    pub last: Option<Answered>,
}

impl Seat {
    /// A database without a unit or a session.
    ///
    /// `AllocError` where memory is refused.
    pub fn new(alloc: Global) -> Result<Seat, AllocError>
        ensures { IfOk result (λ seat. (seat.session ≡ None) × (seat.last ≡ None)) }
    {
        let hub = Hub::new(alloc)?;
        Ok(Seat {
            hub,
            session: None,
            last: None,
        })
    }

    /// Another seat of the same database, without a session.
    ///
    /// Refusals: `OutOfMemory`.
    pub fn beside(&self) -> Result<Seat, Refusal>
        ensures made { IfOk result (λ seat. (seat.hub.value ≡ self.now.hub.value) × ((seat.session ≡ None) × (seat.last ≡ None))) }
        ensures refused { IfErr result (λ refusal. refusal ≡ Refusal.OutOfMemory) }
    {
        match Arc::try_clone(&self.hub) {
            Ok(hub) => Ok(Seat {
                hub,
                session: None,
                last: None,
            }),
            Err(_) => Err(Refusal::OutOfMemory),
        }
    }

    /// Begins a session of a job that has none, where the seat has none. After a refusal and after `Busy` nothing has
    /// changed.
    ///
    /// Refusals: `BadJob` where the job has one, or isn't 1 to 4,096; `OutOfMemory`.
    pub fn begin(&mut self, alloc: Global, job: u64) -> Result<Result<(), Refusal>, Busy>
        requires { self.old.session ≡ None }
        ensures { IsBegun job self.old self.new result }
    {
        let job = match Job::new(job) {
            Ok(job) => job,
            Err(refusal) => return Ok(Err(refusal)),
        };
        match Hub::open(&self.hub, alloc, job) {
            Ok(Ok(session)) => {
                self.session = Some(session);
                self.last = None;
                Ok(Ok(()))
            }
            Ok(Err(refusal)) => Ok(Err(refusal)),
            Err(Busy) => Err(Busy),
        }
    }
}
