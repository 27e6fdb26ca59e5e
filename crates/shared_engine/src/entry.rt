//! How a session of the engine begins and ends.
ghost use Rattle.std.specs.Prelude.{◌≡◌, ◌⊎◌, ◌≤◌, ◌+◌, ◌∷◌, ◌++◌, List, [], length, None, IfOk, IfErr, IfSome};
ghost use Rattle.refusal.specs.declared.Refusal.{Refusal};
ghost use Rattle.journal.specs.Kept.{HasNoNumber};
ghost use Rattle.journal.specs.declared.unit.Unit.{Unit as JournalUnit};
ghost use Rattle.job_core.specs.Sessions.{idle};
ghost use Rattle.pin_board.specs.Slips.{IsBeginning};
ghost use Rattle.shared_engine.specs.Sessions.{held, knowing, halted};
ghost use Rattle.shared_engine.specs.Engines.{GoesOnBy};

use crate::adaptive::Patience;
use crate::name::BoardName;
use crate::session::{Pass, Session};
use crate::shared::Shared;
use collation::Job;
use refusal::Refusal;
use std::alloc::Global;
use std::marker::PhantomData;
use std::sync::Wait;
use std::thread;

impl<B: BoardName> Shared<B> {
    // Begins a session, where nobody has the job's seat.
    fn try_open<R: Wait>(
        &self,
        rt: &R,
        alloc: Global,
        job: Job,
    ) -> Result<Session<B>, Option<Refusal>>
        ensures session { IfOk result (λ session. (units : List JournalUnit) × (session ≡ held (idle job) None [] [] units)) }
        ensures cause { IfErr result (λ why. IfSome why (λ refusal. (refusal ≡ Refusal.BadJob) ⊎ (refusal ≡ Refusal.OutOfMemory))) }
    {
        let mut guard = self.lock.write(rt, Patience::Short);
        let under = &mut *guard;
        let mut desk = under.desk.lift(rt);
        let opened = under.locked.open(&self.board, &mut desk, alloc, job);
        under.desk.set_down(desk);
        match opened {
            Ok(inner) => Ok(Session {
                inner,
                of: PhantomData,
            }),
            Err(why) => Err(why),
        }
    }

    /// Begins a session of a job that has none. Takes the exclusive lock.
    ///
    /// Refusals: `BadJob` where the job has a session; `OutOfMemory`.
    pub fn open<R: Wait>(&self, rt: &R, alloc: Global, job: Job) -> Result<Session<B>, Refusal>
        ensures session { IfOk result (λ session. (units : List JournalUnit) × (session ≡ held (idle job) None [] [] units)) }
        ensures cause { IfErr result (λ refusal. (refusal ≡ Refusal.BadJob) ⊎ (refusal ≡ Refusal.OutOfMemory)) }
    {
        'tries: for _ in rt.forever() {
            match self.try_open(rt, alloc, job) {
                Ok(session) => return Ok(session),
                Err(Some(refusal)) => return Err(refusal),
                // Somebody has the job's seat.
                Err(None) => thread::yield_now(),
            }
        }
        unreachable!()
    }

    // Ends a session, where nobody has the job's seat.
    fn try_halt<R: Wait>(
        &self,
        rt: &R,
        session: Session<B>,
    ) -> Result<Pass<B>, (Session<B>, Option<Refusal>)>
        ensures pass { IfOk result (λ pass. (units : List JournalUnit) × IsBeginning units session.seen × (pass ≡ halted units session)) }
        ensures refused { IfErr result (λ r. GoesOnBy r.1 r.0.seen session r.0) }
        ensures cause { IfErr result (λ r. IfSome r.1 (λ refusal. HasNoNumber refusal 1 (length r.0.seen))) }
    {
        let mut guard = self.lock.write(rt, Patience::Short);
        let under = &mut *guard;
        let mut desk = under.desk.lift(rt);
        let Session { inner, of } = session;
        let done = under.locked.halt(&self.board, &mut desk, inner);
        under.desk.set_down(desk);
        match done {
            Ok(inner) => Ok(Pass { inner, of }),
            Err((inner, why)) => Err((Session { inner, of }, why)),
        }
    }

    /// HALT: the session is over, its locks are released and its transaction is gone; its job may have another. Gives
    /// its pass, whose last unit is that end, or the session back with the refusal. Takes the exclusive lock.
    ///
    /// It takes no memory: room for its unit was kept when the session began.
    ///
    /// Refusals, after which the session goes on as it was, but for what it has seen: `StampsUsedUp` where the journal is
    /// full.
    pub fn halt<R: Wait>(
        &self,
        rt: &R,
        session: Session<B>,
    ) -> Result<Pass<B>, (Session<B>, Refusal)>
        ensures pass { IfOk result (λ pass. (units : List JournalUnit) × IsBeginning units session.seen × (pass ≡ halted units session)) }
        ensures refused { IfErr result (λ r. IsBeginning r.0.seen session.seen × (r.0 ≡ knowing r.0.seen session)) }
        ensures cause { IfErr result (λ r. HasNoNumber r.1 1 (length r.0.seen)) }
    {
        let mut held = session;
        'tries: for _ in rt.forever() {
            match self.try_halt(rt, held) {
                Ok(pass) => return Ok(pass),
                Err((back, why)) => match why {
                    Some(refusal) => return Err((back, refusal)),
                    // Somebody has the job's seat.
                    None => held = back,
                },
            }
        }
        unreachable!()
    }
}
