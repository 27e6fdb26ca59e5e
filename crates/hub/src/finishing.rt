//! The end of a hub.
ghost use Rattle.std.specs.Prelude.{◌≡◌, ◌<◌, ◌≤◌, ◌-◌, ◌^◌, vec_len, IfOk, IfErr};
ghost use Rattle.std.specs.List.{All};
ghost use Rattle.pin_board.specs.Slips.{AreInJournal};
ghost use Rattle.shared_engine.specs.Receipts.{Book, IsOwn, RisesFrom};
ghost use Rattle.shared_engine.specs.Engines.{AreAllReceipts, AreAllUnits, HasSeenOf};
ghost use Rattle.shared_engine.specs.Named.{AreOf, books_of};

use crate::hub::Hub;
use crate::inside::Inside;
use pin_board::Board;
use shared_engine::{Closed, InnerPass};
use std::alloc::Global;
use std::sync::Arc;

// As `Locked::finish_inner`, or all is given back.
fn closed(
    board: &Board,
    inside: Arc<Inside, Global>,
    passes: Vec<InnerPass>,
) -> Result<Closed, (Arc<Inside, Global>, Vec<InnerPass>)>
    requires own { (inside.value.desk.table ≡ board.now.table) × AreOf board.now.table passes.items }
    ensures in_journal { IfOk result (λ end. All (λ (p : Book). AreInJournal end.core.units p.receipts) (books_of passes.items)) }
    ensures others { IfOk result (λ end. All (λ (p : Book). AreInJournal end.core.units p.others) (books_of passes.items)) }
    ensures rising { IfOk result (λ end. All (λ (p : Book). RisesFrom 0 p.receipts) (books_of passes.items)) }
    ensures own { IfOk result (λ end. All IsOwn (books_of passes.items)) }
    ensures all { IfOk result (λ end. vec_len passes ≡ end.sessions → end.sessions < 2 ^ 64 - 1 → AreAllReceipts end.core.units (books_of passes.items)) }
    ensures all_units { IfOk result (λ end. vec_len passes ≡ end.sessions → end.sessions < 2 ^ 64 - 1 → AreAllUnits end.core.units (books_of passes.items)) }
    ensures few { IfOk result (λ end. vec_len passes ≤ end.sessions) }
    ensures seen { IfOk result (λ end. All (HasSeenOf end.core.units) (books_of passes.items)) }
    ensures busy { IfErr result (λ back. (back.0 ≡ inside) × (back.1 ≡ passes)) }
{
    let Some(desk) = inside.desk.try_lift() else {
        return Err((inside, passes));
    };
    match Arc::try_unwrap(inside) {
        Ok(Inside { locked, desk: _ }) => Ok(locked.finish_inner(board, desk, passes)),
        Err(inside) => {
            inside.desk.give_back(desk);
            Err((inside, passes))
        }
    }
}

impl Hub {
    /// Closes the engine. Each unit of a pass is in its journal at its number, and is its job's, and what a session had
    /// seen begins it. Where as many passes are in as there were sessions, fewer than 2^64 - 1, their units are all
    /// units, each at its number once, and their receipts those of all but rollbacks and ends; more can't be in. Takes
    /// no memory.
    ///
    /// While a session is left, or somebody else has an owner of the hub or shares, hub and passes come back, and nothing
    /// has changed.
    pub fn finish(
        hub: Arc<Hub, Global>,
        passes: Vec<InnerPass>,
    ) -> Result<Closed, (Arc<Hub, Global>, Vec<InnerPass>)>
        requires own { AreOf hub.value.board.table passes.items }
        ensures in_journal { IfOk result (λ end. All (λ (p : Book). AreInJournal end.core.units p.receipts) (books_of passes.items)) }
        ensures others { IfOk result (λ end. All (λ (p : Book). AreInJournal end.core.units p.others) (books_of passes.items)) }
        ensures rising { IfOk result (λ end. All (λ (p : Book). RisesFrom 0 p.receipts) (books_of passes.items)) }
        ensures own { IfOk result (λ end. All IsOwn (books_of passes.items)) }
        ensures all { IfOk result (λ end. vec_len passes ≡ end.sessions → end.sessions < 2 ^ 64 - 1 → AreAllReceipts end.core.units (books_of passes.items)) }
        ensures all_units { IfOk result (λ end. vec_len passes ≡ end.sessions → end.sessions < 2 ^ 64 - 1 → AreAllUnits end.core.units (books_of passes.items)) }
        ensures few { IfOk result (λ end. vec_len passes ≤ end.sessions) }
        ensures seen { IfOk result (λ end. All (HasSeenOf end.core.units) (books_of passes.items)) }
        ensures busy { IfErr result (λ back. (back.0 ≡ hub) × (back.1 ≡ passes)) }
    {
        if Arc::strong_count(&hub) != 1 {
            return Err((hub, passes));
        }
        let Some(inside) = hub.take() else {
            return Err((hub, passes));
        };
        match closed(&hub.board, inside, passes) {
            Ok(end) => Ok(end),
            Err((inside, passes)) => {
                hub.put(inside);
                Err((hub, passes))
            }
        }
    }
}
