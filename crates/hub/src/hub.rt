//! What sessions own together.
ghost use Rattle.std.specs.Prelude.{◌≡◌, ◌⊎◌, ◌≤◌, List, [], None, IfOk, IfErr, IfSome};
ghost use Rattle.refusal.specs.declared.Refusal.{Refusal};
ghost use Rattle.journal.specs.declared.unit.Unit.{Unit as JournalUnit};
ghost use Rattle.job_core.specs.Sessions.{idle};
ghost use Rattle.shared_engine.specs.Sessions.{held};

use crate::inside::{Inside, is_alone, opened};
use crate::session::HubSession;
use collation::Job;
use gate::ArcGate;
use pin_board::{Blank, Board, SEATS};
use refusal::Refusal;
use std::alloc::{AllocError, Global};
use std::sync::Arc;

/// Others are at what all share. Nothing has changed, and the call may be made again.
#[derive(Clone, Copy, PartialEq, Eq, Debug, Drop)]
pub struct Busy;

/// What sessions own together: the board, and the gate in which all else lies.
#[derive(Drop)]
pub struct Hub {
    pub(crate) board: Board,
    pub(crate) gate: ArcGate<Inside>,
    ghost own: { gate.slot ≡ board },
}

impl Hub {
    /// A hub without a unit or a session.
    ///
    /// `AllocError` where memory is refused.
    pub fn new(alloc: Global) -> Result<Arc<Hub, Global>, AllocError> {
        let blank = Blank::new(alloc, SEATS)?;
        let (board, desk) = blank.open();
        let inside = Arc::new(alloc, Inside::new(alloc, desk))?;
        let gate = ArcGate::new(&board);
        let hub = Hub { board, gate };
        hub.put(inside);
        Ok(Arc::new(alloc, hub)?)
    }

    // What all share, where nobody else has it: it is out until it is put back.
    pub(crate) fn take(&self) -> Option<Arc<Inside, Global>>
        ensures { IfSome result (λ a. a.value.desk.table ≡ self.now.board.table) }
    {
        let inside = self.gate.take()?;
        if is_alone(&inside) {
            return Some(inside);
        }
        self.put(inside);
        None
    }

    // Puts back what was taken.
    pub(crate) fn put(&self, inside: Arc<Inside, Global>)
        requires { inside.value.desk.table ≡ self.now.board.table }
    {
        // It goes in: it is out, and nobody else has it to put in.
        let _ = self.gate.put(inside);
    }

    /// Begins a session of a job that has none.
    ///
    /// Refusals: `BadJob` where the job has a session; `OutOfMemory`.
    pub fn open(
        hub: &Arc<Hub, Global>,
        alloc: Global,
        job: Job,
    ) -> Result<Result<HubSession, Refusal>, Busy>
        ensures table { IfOk result (λ done. IfOk done (λ session. session.table ≡ hub.now.value.board.table)) }
        ensures session { IfOk result (λ done. IfOk done (λ session. (units : List JournalUnit) × (session.held ≡ held (idle job) None [] [] units))) }
        ensures cause { IfOk result (λ done. IfErr done (λ refusal. (refusal ≡ Refusal.BadJob) ⊎ (refusal ≡ Refusal.OutOfMemory))) }
    {
        let Ok(owner) = Arc::try_clone(hub) else {
            return Ok(Err(Refusal::OutOfMemory));
        };
        let Some(mut inside) = hub.take() else {
            return Err(Busy);
        };
        let done = opened(&hub.board, &mut inside, alloc, job);
        hub.put(inside);
        match done {
            Ok(inner) => Ok(Ok(HubSession {
                hub: owner,
                inner,
                kept: None,
            })),
            Err(Some(refusal)) => Ok(Err(refusal)),
            Err(None) => Err(Busy),
        }
    }
}
