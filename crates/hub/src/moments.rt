//! The database of a moment, looked at without a trace: as it is now, or as it was when a transaction began.
ghost use Rattle.std.specs.Prelude.{◌≡◌, ◌≤◌, List, length, IfOk, IfSome, IsSome, OnOk, OnErr};
ghost use Rattle.collation.specs.Database.{Database};
ghost use Rattle.journal.specs.declared.unit.Unit.{Unit as JournalUnit};
ghost use Rattle.journal.specs.History.{initial, after, IsLegal};
ghost use Rattle.serial.specs.Machine.{state_at};
ghost use Rattle.shared_engine.specs.Sessions.{knowing, IsJournalOf};

use crate::hub::{Busy, Hub};
use crate::inside::Inside;
use crate::session::HubSession;
use std::alloc::Global;
use std::marker::Model;
use std::sync::Arc;
use version_store::Snapshot;

/// The database of a moment, which doesn't move, and what all share, held for reading until this is dropped: others read
/// meanwhile, and who would write is busy. It is seen as that database, and may go to another thread.
#[derive(Drop)]
pub struct HubShare {
    inside: Arc<Inside, Global>,
    stamp: u64,
}

impl Model for HubShare {
    ghost use Rattle.std.specs.Prelude.{◌≤◌, length};
    ghost use Rattle.collation.specs.Database.{Database, database_code};
    ghost use Rattle.serial.specs.Machine.{state_at};

    ghost Value = { Database };

    ghost coded = { database_code };

    ghost view = { λ s. (state_at s.stamp s.inside.value.locked.core.units).map };

    ghost invariant = { λ s. (s.inside.value.locked.core.store.cut ≤ s.stamp) × (s.stamp ≤ length s.inside.value.locked.core.units) };
}

impl HubShare {
    /// That database, for whatever goes over a view: a value, a walk, $ORDER, $DATA, $QUERY, names. Takes no memory.
    pub fn content(&self) -> Snapshot<'_>
        ensures { result ≡ self.now }
    {
        match self.inside.locked.core().content_at(self.stamp) {
            Some(view) => view,
            None => unreachable!(),
        }
    }
}

// The present moment.
fn at_present(inside: Arc<Inside, Global>) -> HubShare
    ensures { result ≡ (after inside.value.locked.core.units initial).map }
{
    let stamp = inside.locked.core().now();
    HubShare { inside, stamp }
}

impl Hub {
    /// The database as it is now, which a legal journal leaves. None where somebody writes.
    pub fn share(&self) -> Option<HubShare>
        ensures { IfSome result (λ share. (units : List JournalUnit) × IsLegal units initial × (share ≡ (after units initial).map)) }
    {
        let inside = self.gate.share()?;
        // The core shows that its journal is legal.
        let _ = inside.locked.core().journal();
        Some(at_present(inside))
    }
}

impl HubSession {
    /// How many units the journal has, which goes on from all that the session had seen; it has seen them then. So a
    /// session knows whether it begins behind the end of another (`InnerPass::end`). Others read meanwhile.
    pub fn units(&mut self) -> Result<u64, Busy>
        ensures table { self.new.table ≡ self.old.table }
        ensures journal { OnOk result (IsJournalOf self.new.held.seen self.old.held) }
        ensures same { OnOk result (self.new.held ≡ knowing self.new.held.seen self.old.held) }
        ensures count { IfOk result (λ count. count ≡ length self.new.held.seen) }
        ensures busy { OnErr result (self.new ≡ self.old) }
    {
        self.kept = None;
        let Some(inside) = self.hub.gate.share() else {
            return Err(Busy);
        };
        inside.look(&self.hub.board, &mut self.inner)
    }

    /// The database as it is now, for looks that are no commands: no unit, no reply, and an open transaction notes none
    /// of them. The journal that leaves it goes on from all that the session had seen, so its own units are in it; the
    /// session has seen it then. Others read meanwhile. Takes no memory.
    pub fn present(&mut self) -> Result<HubShare, Busy>
        ensures table { self.new.table ≡ self.old.table }
        ensures content { IfOk result (λ share. share ≡ (after self.new.held.seen initial).map) }
        ensures journal { OnOk result (IsJournalOf self.new.held.seen self.old.held) }
        ensures same { OnOk result (self.new.held ≡ knowing self.new.held.seen self.old.held) }
        ensures busy { OnErr result (self.new ≡ self.old) }
    {
        self.kept = None;
        let Some(inside) = self.hub.gate.share() else {
            return Err(Busy);
        };
        match inside.look(&self.hub.board, &mut self.inner) {
            Ok(_) => Ok(at_present(inside)),
            Err(Busy) => Err(Busy),
        }
    }

    /// The database that the open transaction began with, without what it has written: the same at each call, whatever
    /// others have done since. A transaction that only looks so is a view: `tstart` begins it, `rollback_free` ends it,
    /// neither is ever busy, nothing is noted, nothing restarts it, and it looks as often as it likes. The session has
    /// seen the present journal then. Others read meanwhile. Takes no memory.
    pub fn at_start(&mut self) -> Result<HubShare, Busy>
        requires { 1 ≤ self.old.held.state.level }
        ensures table { self.new.table ≡ self.old.table }
        ensures content { IfOk result (λ share. IfSome self.old.held.start (λ base. share ≡ (after base initial).map)) }
        ensures open { OnOk result (IsSome self.old.held.start) }
        ensures journal { OnOk result (IsJournalOf self.new.held.seen self.old.held) }
        ensures same { OnOk result (self.new.held ≡ knowing self.new.held.seen self.old.held) }
        ensures busy { OnErr result (self.new ≡ self.old) }
    {
        self.kept = None;
        let Some(inside) = self.hub.gate.share() else {
            return Err(Busy);
        };
        let stamp = self.inner.start();
        match inside.meet(&self.hub.board, &mut self.inner) {
            Ok(()) => Ok(HubShare { inside, stamp }),
            Err(Busy) => Err(Busy),
        }
    }
}
