//! The end of an engine: its passes come back, and are counted.
ghost use Rattle.std.specs.Prelude.{◌≡◌, ◌<◌, ◌≤◌, ◌+◌, ◌-◌, ◌^◌, ◌∷◌, ◌++◌, List, [], min, vec_len};
ghost use Rattle.std.specs.List.{All};
ghost use Rattle.pin_board.specs.Slips.{AreInJournal};
ghost use Rattle.pin_board.specs.Tally.{tallied};
ghost use Rattle.shared_engine.specs.Receipts.{Book, IsOwn, RisesFrom};
ghost use Rattle.shared_engine.specs.Engines.{IsLocked, AreAllReceipts, AreAllUnits, HasSeenOf, IsDue};

use crate::inner::InnerPass;
use crate::locked::Locked;
use crate::name::BoardName;
use crate::session::Pass;
use job_core::Core;
use pin_board::{Board, Lifted, Tally};

/// An engine at its end.
#[derive(Drop)]
pub struct Closed {
    /// Its journal, content and locks.
    pub core: Core,
    /// How many sessions were opened, up to 2^64 - 1.
    pub sessions: u64,
}

impl Locked {
    /// The core at the end. Where all passes are in, their units are all units in the journal, and their receipts those
    /// of all, but for rollbacks and ends. Takes no memory.
    pub(crate) fn finish<B: BoardName>(
        self,
        board: &Board,
        desk: Lifted,
        passes: Vec<Pass<B>>,
    ) -> Closed
        requires own { (desk.table ≡ board.now.table) × (board.now.table ≡ B.table) }
        requires stands { IsLocked self.core desk self.seats self.horizon self.opened }
        ensures core { result.core.units ≡ self.core.units }
        ensures sessions { result.sessions ≡ min desk.knows.given (2 ^ 64 - 1) }
        ensures in_journal { All (λ (p : Book). AreInJournal result.core.units p.receipts) passes.items }
        ensures others { All (λ (p : Book). AreInJournal result.core.units p.others) passes.items }
        ensures rising { All (λ (p : Book). RisesFrom 0 p.receipts) passes.items }
        ensures own { All IsOwn passes.items }
        ensures all { vec_len passes ≡ result.sessions → result.sessions < 2 ^ 64 - 1 → AreAllReceipts result.core.units passes.items }
        ensures all_units { vec_len passes ≡ result.sessions → result.sessions < 2 ^ 64 - 1 → AreAllUnits result.core.units passes.items }
        ensures few { vec_len passes ≤ result.sessions }
        ensures seen { All (HasSeenOf result.core.units) passes.items }
    {
        let Locked {
            core,
            seats: _,
            horizon: _,
            opened,
            sweep: _,
        } = self;
        let mut tally = desk.into_tally();
        gather(board, &mut tally, passes);
        board.audit(&mut tally);
        Closed {
            core,
            sessions: opened,
        }
    }
}

// Takes one pass in.
pub(crate) fn take_in(board: &Board, tally: &mut Tally, pass: InnerPass)
    requires own { (tally.old.table ≡ board.now.table) × (pass.table ≡ board.now.table) }
    ensures table { tally.new.table ≡ tally.old.table }
    ensures tally { tally.new.knows ≡ tallied tally.old.knows.units tally.old.knows.given (tally.old.knows.returned + 1) tally.new.knows.back tally.new.knows.known }
    ensures due { (all rest : List Book) → IsDue all (rest ++ pass.book ∷ []) tally.old.knows.back tally.old.knows.known → IsDue all rest tally.new.knows.back tally.new.knows.known }
{
    let InnerPass {
        job: _,
        slip,
        numbers: _,
        end: _,
    } = pass;
    board.return_slip(tally, slip);
}

// Takes all passes in.
fn gather<B: BoardName>(board: &Board, tally: &mut Tally, mut passes: Vec<Pass<B>>)
    requires own { (tally.old.table ≡ board.now.table) × (board.now.table ≡ B.table) }
    requires none { (tally.old.knows.returned ≡ 0) × ((tally.old.knows.back ≡ []) × (tally.old.knows.known ≡ [])) }
    ensures table { tally.new.table ≡ tally.old.table }
    ensures tally { tally.new.knows ≡ tallied tally.old.knows.units tally.old.knows.given (vec_len passes) tally.new.knows.back tally.new.knows.known }
    ensures due { IsDue passes.items [] tally.new.knows.back tally.new.knows.known }
{
    while let Some(pass) = passes.pop() {
        let Pass { inner, of: _ } = pass;
        take_in(board, tally, inner);
    }
}
