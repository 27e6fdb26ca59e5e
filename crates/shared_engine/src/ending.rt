//! The end of an engine whose passes are of its board by a value.
ghost use Rattle.std.specs.Prelude.{◌≡◌, ◌<◌, ◌≤◌, ◌-◌, ◌^◌, [], min, vec_len};
ghost use Rattle.std.specs.List.{All};
ghost use Rattle.pin_board.specs.Slips.{AreInJournal};
ghost use Rattle.pin_board.specs.Tally.{tallied};
ghost use Rattle.shared_engine.specs.Receipts.{Book, IsOwn, RisesFrom};
ghost use Rattle.shared_engine.specs.Engines.{IsLocked, AreAllReceipts, AreAllUnits, HasSeenOf, IsDue};
ghost use Rattle.shared_engine.specs.Named.{AreOf, books_of};

use crate::finishing::{Closed, take_in};
use crate::inner::InnerPass;
use crate::locked::Locked;
use pin_board::{Board, Lifted, Tally};

impl Locked {
    /// As `finish`, of passes that are of this board by a value.
    pub fn finish_inner(self, board: &Board, desk: Lifted, passes: Vec<InnerPass>) -> Closed
        requires own { (desk.table ≡ board.now.table) × AreOf board.now.table passes.items }
        requires stands { IsLocked self.core desk self.seats self.horizon self.opened }
        ensures core { result.core.units ≡ self.core.units }
        ensures sessions { result.sessions ≡ min desk.knows.given (2 ^ 64 - 1) }
        ensures in_journal { All (λ (p : Book). AreInJournal result.core.units p.receipts) (books_of passes.items) }
        ensures others { All (λ (p : Book). AreInJournal result.core.units p.others) (books_of passes.items) }
        ensures rising { All (λ (p : Book). RisesFrom 0 p.receipts) (books_of passes.items) }
        ensures own { All IsOwn (books_of passes.items) }
        ensures all { vec_len passes ≡ result.sessions → result.sessions < 2 ^ 64 - 1 → AreAllReceipts result.core.units (books_of passes.items) }
        ensures all_units { vec_len passes ≡ result.sessions → result.sessions < 2 ^ 64 - 1 → AreAllUnits result.core.units (books_of passes.items) }
        ensures few { vec_len passes ≤ result.sessions }
        ensures seen { All (HasSeenOf result.core.units) (books_of passes.items) }
    {
        let Locked {
            core,
            seats: _,
            horizon: _,
            opened,
            sweep: _,
        } = self;
        let mut tally = desk.into_tally();
        gather_inner(board, &mut tally, passes);
        board.audit(&mut tally);
        Closed {
            core,
            sessions: opened,
        }
    }
}

// Takes all passes in, which are of this board by a value.
fn gather_inner(board: &Board, tally: &mut Tally, mut passes: Vec<InnerPass>)
    requires own { (tally.old.table ≡ board.now.table) × AreOf board.now.table passes.items }
    requires none { (tally.old.knows.returned ≡ 0) × ((tally.old.knows.back ≡ []) × (tally.old.knows.known ≡ [])) }
    ensures table { tally.new.table ≡ tally.old.table }
    ensures tally { tally.new.knows ≡ tallied tally.old.knows.units tally.old.knows.given (vec_len passes) tally.new.knows.back tally.new.knows.known }
    ensures due { IsDue (books_of passes.items) [] tally.new.knows.back tally.new.knows.known }
{
    while let Some(pass) = passes.pop() {
        take_in(board, tally, pass);
    }
}
