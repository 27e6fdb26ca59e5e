//! A turn of the collector within a hold of the lock.
ghost use Rattle.std.specs.Prelude.{◌≡◌};
ghost use Rattle.shared_engine.specs.Engines.{IsLocked, MayBeTaken, HasTakenTurn};

use crate::locked::Locked;
use collector::Progress;
use pin_board::{Board, Lifted};

/// A turn of the collector that a call may take at the end of its hold of the exclusive lock, so that it needs no hold
/// of its own. It is at a horizon that is above no open transaction's start. Where all keys were visited since the last
/// write, little would be dropped, or memory is refused, it stays due.
#[derive(Clone, Copy, Debug, PartialEq, Eq)]
pub enum Turn {
    /// None is due.
    NotDue,
    /// One over so many keys is due.
    Due(usize),
    /// The one that was due was taken.
    Taken(Progress),
}

impl Locked {
    /// Takes a turn that is due. Where all keys were visited since the last write, little would be dropped, or memory is
    /// refused, it stays due. Where little would be, a horizon is drawn now and then, so that writes drop what they can.
    pub(crate) fn take_turn(&mut self, board: &Board, desk: &mut Lifted, turn: &mut Turn)
        requires own { desk.old.table ≡ board.now.table }
        requires stands { IsLocked self.old.core desk.old self.old.seats self.old.horizon self.old.opened }
        ensures table { desk.new.table ≡ desk.old.table }
        ensures stands { IsLocked self.new.core desk.new self.new.seats self.new.horizon self.new.opened }
        ensures units { self.new.core.units ≡ self.old.core.units }
        ensures turn { MayBeTaken turn.old turn.new }
        ensures store { HasTakenTurn turn.old turn.new self.old.core self.new.core }
        ensures others { (desk.new.knows.given ≡ desk.old.knows.given) × (self.new.seats ≡ self.old.seats) }
    {
        let Turn::Due(keys) = *turn else {
            return;
        };
        if self.is_swept() {
            return;
        }
        if !self.sweep.pays(&self.core) {
            if self.sweep.is_behind() {
                self.draw(board, desk);
            }
            return;
        }
        if let Ok(progress) = self.collect(board, desk, keys) {
            *turn = Turn::Taken(progress);
        }
    }
}
