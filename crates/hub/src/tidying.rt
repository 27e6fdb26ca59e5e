//! What nobody sees any more is dropped, and the journal's base moves on.
ghost use Rattle.std.specs.Prelude.{◌≡◌, ◌≤◌, IfOk, IfErr};
ghost use Rattle.refusal.specs.declared.Refusal.{Refusal};

use crate::hub::{Busy, Hub};
use crate::inside::Inside;
use collector::Progress;
use pin_board::Board;
use refusal::Refusal;
use std::alloc::Global;
use std::sync::Arc;

// As `Locked::collect`, where anything is left to visit.
fn collected(
    board: &Board,
    inside: &mut Arc<Inside, Global>,
    limit: usize,
) -> Result<Result<Progress, Refusal>, Busy>
    requires own { inside.old.value.desk.table ≡ board.now.table }
    ensures own { inside.new.value.desk.table ≡ inside.old.value.desk.table }
    ensures few { IfOk result (λ done. IfOk done (λ progress. progress.visited ≤ limit)) }
    ensures cause { IfOk result (λ done. IfErr done (λ refusal. refusal ≡ Refusal.OutOfMemory)) }
{
    let Some(alone) = Arc::get_mut(inside) else {
        return Err(Busy);
    };
    if alone.locked.is_swept() {
        return Ok(Ok(Progress {
            visited: 0,
            dropped: 0,
            removed: 0,
            left: 0,
        }));
    }
    let Some(mut desk) = alone.desk.try_lift() else {
        return Err(Busy);
    };
    let done = alone.locked.collect(board, &mut desk, limit);
    alone.desk.set_down(desk);
    Ok(done)
}

// As `Locked::checkpoint`.
fn moved_on(board: &Board, inside: &mut Arc<Inside, Global>) -> Result<Result<u64, Refusal>, Busy>
    requires own { inside.old.value.desk.table ≡ board.now.table }
    ensures own { inside.new.value.desk.table ≡ inside.old.value.desk.table }
    ensures cause { IfOk result (λ done. IfErr done (λ refusal. refusal ≡ Refusal.OutOfMemory)) }
{
    let Some(alone) = Arc::get_mut(inside) else {
        return Err(Busy);
    };
    let Some(mut desk) = alone.desk.try_lift() else {
        return Err(Busy);
    };
    let done = alone.locked.checkpoint(board, &mut desk);
    alone.desk.set_down(desk);
    Ok(done)
}

impl Hub {
    /// A turn of the collector over so many keys, at a horizon that is above no open transaction's start. Where all
    /// keys were visited since the last write, and nothing is left that could go, it visits none.
    ///
    /// Refusals, after which no content is gone: `OutOfMemory`.
    pub fn collect(&self, limit: usize) -> Result<Result<Progress, Refusal>, Busy>
        ensures few { IfOk result (λ done. IfOk done (λ progress. progress.visited ≤ limit)) }
        ensures cause { IfOk result (λ done. IfErr done (λ refusal. refusal ≡ Refusal.OutOfMemory)) }
    {
        let Some(mut inside) = self.take() else {
            return Err(Busy);
        };
        let done = collected(&self.board, &mut inside, limit);
        self.put(inside);
        done
    }

    /// Moves the journal's base on to a horizon that is above no open transaction's start, and answers where the base is
    /// then, which is where it was if no horizon after it can be had. For as long as it takes others are busy.
    ///
    /// Refusals, after which the base is where it was: `OutOfMemory`.
    pub fn checkpoint(&self) -> Result<Result<u64, Refusal>, Busy>
        ensures cause { IfOk result (λ done. IfErr done (λ refusal. refusal ≡ Refusal.OutOfMemory)) }
    {
        let Some(mut inside) = self.take() else {
            return Err(Busy);
        };
        let done = moved_on(&self.board, &mut inside);
        self.put(inside);
        done
    }
}
