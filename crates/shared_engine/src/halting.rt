//! The end of a session under the engine's lock.
ghost use Rattle.std.specs.Prelude.{◌≡◌, ◌≤◌, ◌∷◌, ◌++◌, ℕ, true, false, List, [], length, IfOk, IfErr, IfSome, OnOk, OnErr};
ghost use Rattle.journal.specs.Kept.{HasNoNumber};
ghost use Rattle.journal.specs.declared.unit.Unit.TheVariants.{End};
ghost use Rattle.pin_board.specs.Slips.{IsBeginning};
ghost use Rattle.shared_engine.specs.Sessions.{knowing, halted};
ghost use Rattle.shared_engine.specs.Engines.{IsLocked, GoesOnBy, has_session, SessionIs};

use crate::inner::{InnerPass, InnerSession};
use crate::locked::Locked;
use pin_board::{Board, Lifted};
use refusal::Refusal;

impl Locked {
    // Shows that room is kept for the end of a session, where it answers so: its job has one. The session has then seen
    // the whole journal. Not where somebody has the job's seat.
    fn find_end(&self, board: &Board, desk: &mut Lifted, session: &mut InnerSession) -> bool
        requires own { (desk.old.table ≡ board.now.table) × (session.old.table ≡ board.now.table) }
        requires stands { IsLocked self.now.core desk.old self.now.seats self.now.horizon self.now.opened }
        ensures desk { desk.new ≡ desk.old }
        ensures table { session.new.table ≡ session.old.table }
        ensures found { result ≡ true → session.new.held ≡ knowing self.now.core.units session.old.held }
        ensures goes_on { result ≡ true → IsBeginning self.now.core.units session.old.held.seen }
        ensures lent { result ≡ true → has_session self.now.seats session.old.held.state.work.job ≡ true }
        ensures kept { result ≡ true → 1 ≤ self.now.core.ends }
        ensures same { result ≡ false → session.new.held ≡ session.old.held }
    {
        if self.seats.show_lent(board, &mut session.pin) {
            board.meet(desk, &mut session.pin);
            return true;
        }
        false
    }

    /// HALT: the session is over, its locks are released, and its seat is the next session's. Where it isn't done the
    /// session goes on: as it was where there is no refusal, since somebody has the job's seat. Takes no memory: room for
    /// its unit was kept when the session began.
    ///
    /// Refusals, after which nothing has changed but that the session has seen the whole journal: `StampsUsedUp` where
    /// the journal is full.
    pub fn halt(
        &mut self,
        board: &Board,
        desk: &mut Lifted,
        session: InnerSession,
    ) -> Result<InnerPass, (InnerSession, Option<Refusal>)>
        requires own { (desk.old.table ≡ board.now.table) × (session.table ≡ board.now.table) }
        requires stands { IsLocked self.old.core desk.old self.old.seats self.old.horizon self.old.opened }
        ensures table { desk.new.table ≡ desk.old.table }
        ensures stands { IsLocked self.new.core desk.new self.new.seats self.new.horizon self.new.opened }
        ensures pass_table { IfOk result (λ pass. pass.table ≡ board.now.table) }
        ensures pass { IfOk result (λ pass. IsBeginning self.old.core.units session.held.seen × (pass.book ≡ halted self.old.core.units session.held)) }
        ensures units { OnOk result (self.new.core.units ≡ self.old.core.units ++ End session.held.state.work.job ∷ []) }
        ensures over { OnOk result (SessionIs false session.held.state.work.job self.old.seats self.new.seats) }
        ensures opened { desk.new.knows.given ≡ desk.old.knows.given }
        ensures refused_table { IfErr result (λ r. r.0.table ≡ session.table) }
        ensures refused { IfErr result (λ r. GoesOnBy r.1 self.old.core.units session.held r.0.held) }
        ensures same { OnErr result ((self.new.core ≡ self.old.core) × (self.new.seats ≡ self.old.seats)) }
        ensures cause { IfErr result (λ r. IfSome r.1 (λ refusal. HasNoNumber refusal 1 (length self.old.core.units))) }
    {
        let mut session = session;
        if !self.find_end(board, desk, &mut session) {
            return Err((session, None));
        }
        match self.halt_found(board, desk, session) {
            Ok(pass) => Ok(pass),
            Err((session, refusal)) => Err((session, Some(refusal))),
        }
    }

    // The same, where all that is needed is there.
    fn halt_found(
        &mut self,
        board: &Board,
        desk: &mut Lifted,
        session: InnerSession,
    ) -> Result<InnerPass, (InnerSession, Refusal)>
        requires own { (desk.old.table ≡ board.now.table) × (session.table ≡ board.now.table) }
        requires stands { IsLocked self.old.core desk.old self.old.seats self.old.horizon self.old.opened }
        requires lent { has_session self.old.seats session.held.state.work.job ≡ true }
        requires kept { 1 ≤ self.old.core.ends }
        ensures table { desk.new.table ≡ desk.old.table }
        ensures stands { IsLocked self.new.core desk.new self.new.seats self.new.horizon self.new.opened }
        ensures pass_table { IfOk result (λ pass. pass.table ≡ board.now.table) }
        ensures pass { IfOk result (λ pass. pass.book ≡ halted self.old.core.units session.held) }
        ensures units { OnOk result (self.new.core.units ≡ self.old.core.units ++ End session.held.state.work.job ∷ []) }
        ensures over { OnOk result (SessionIs false session.held.state.work.job self.old.seats self.new.seats) }
        ensures opened { desk.new.knows.given ≡ desk.old.knows.given }
        ensures refused_table { IfErr result (λ r. r.0.table ≡ session.table) }
        ensures refused { IfErr result (λ r. (r.0.held ≡ session.held) × ((self.new.core ≡ self.old.core) × (self.new.seats ≡ self.old.seats))) }
        ensures cause { IfErr result (λ r. HasNoNumber r.1 1 (length self.old.core.units)) }
    {
        let job = session.state.job();
        match self.core.end_kept(job, Some(self.horizon)) {
            Ok(receipt) => {
                let InnerSession {
                    state,
                    mut pin,
                    numbers,
                } = session;
                board.write(desk, &mut pin, &receipt);
                board.leave(&mut pin);
                let slip = board.take_slip(&mut pin);
                self.seats.take_back(board, pin);
                drop(state);
                Ok(InnerPass {
                    job,
                    slip,
                    numbers,
                    end: receipt.number(),
                })
            }
            Err(refusal) => Err((session, refusal)),
        }
    }
}
