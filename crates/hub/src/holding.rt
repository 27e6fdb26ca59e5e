//! What all share, held by a session over several reads.
ghost use Rattle.std.specs.Prelude.{◌≡◌, ◌≤◌, IfSome, IsSome, OnOk, OnErr};
ghost use Rattle.journal.specs.History.{initial, after};
ghost use Rattle.shared_engine.specs.Sessions.{knowing, IsJournalOf};

use crate::hub::Busy;
use crate::session::HubSession;
use version_store::Snapshot;

impl HubSession {
    /// Holds what all share for the session's next reads. Until the hold ends `read`, `held_present` and `held_start`
    /// take nothing that another thread changes, and are never busy; others read meanwhile, and who would write is busy.
    /// So it is held for a few reads, and never while its owner waits for something.
    ///
    /// The hold ends by `release`, and by each other call that changes the session or its hub, but by `set`, `kill`,
    /// `tstart_inner` and `tcommit_inner`. The session has seen the present journal, and where a transaction is open its
    /// start is there. One that is held already stays so. Takes no memory.
    pub fn hold(&mut self) -> Result<(), Busy>
        ensures table { self.new.table ≡ self.old.table }
        ensures journal { OnOk result (IsJournalOf self.new.held.seen self.old.held) }
        ensures same { OnOk result (self.new.held ≡ knowing self.new.held.seen self.old.held) }
        ensures busy { OnErr result (self.new ≡ self.old) }
    {
        if let Some(_) = &self.kept {
            return Ok(());
        }
        let Some(inside) = self.hub.gate.share() else {
            return Err(Busy);
        };
        match inside.hold(&self.hub.board, &mut self.inner) {
            Ok(()) => {
                self.kept = Some(inside);
                Ok(())
            }
            Err(Busy) => Err(Busy),
        }
    }

    /// Ends the hold, where there is one: who would write no longer finds this session in the way.
    pub fn release(&mut self)
        ensures { self.new ≡ self.old }
    {
        self.kept = None;
    }

    /// The database as it is now, as `present` shows it, of a session that holds it. None without a hold.
    pub fn held_present(&self) -> Option<Snapshot<'_>>
        ensures content { IfSome result (λ view. view ≡ (after self.now.held.seen initial).map) }
        ensures journal { IfSome result (λ view. IsJournalOf self.now.held.seen self.now.held) }
    {
        match &self.kept {
            Some(inside) => Some(inside.locked.core().content()),
            None => None,
        }
    }

    /// The database that the open transaction began with, as `at_start` shows it, of a session that holds it. None
    /// without a hold.
    pub fn held_start(&self) -> Option<Snapshot<'_>>
        requires { 1 ≤ self.now.held.state.level }
        ensures content { IfSome result (λ view. IfSome self.now.held.start (λ base. view ≡ (after base initial).map)) }
        ensures open { IfSome result (λ view. IsSome self.now.held.start) }
        ensures journal { IfSome result (λ view. IsJournalOf self.now.held.seen self.now.held) }
    {
        match &self.kept {
            Some(inside) => inside.locked.core().content_at(self.inner.start()),
            None => None,
        }
    }
}
