//! What lies under the lock of a named board, and the lock held for a while.
ghost use Rattle.std.specs.Prelude.{◌≡◌, ◌≤◌, [], IfSome, take, length};
ghost use Rattle.job_core.specs.Sessions.{IsOpenOn};
ghost use Rattle.shared_engine.specs.Sessions.{knowing, IsJournalOf};
ghost use Rattle.shared_engine.specs.Engines.{IsLocked};

use crate::adaptive::Patience;
use crate::inner::InnerSession;
use crate::locked::Locked;
use crate::name::BoardName;
use crate::shared::Shared;
use pin_board::{Board, Desk};
use std::alloc::Global;
use std::marker::{Model, PhantomData};
use std::sync::{RwLockReadGuard, RwLockWriteGuard, Wait};

/// What lies under the lock: the desk, at rest, goes with the rest. All of it is of this board.
#[derive(Drop)]
pub(crate) struct Under<B: BoardName> {
    // Keeps the lock's own word, which each try of a waiting thread takes away, out of the cache lines of the rest.
    pub(crate) _apart: [u64; 15],
    pub(crate) locked: Locked,
    pub(crate) desk: Desk,
    pub(crate) of: PhantomData<B>,
    pub(crate) ghost own: { desk.table ≡ B.table },
    pub(crate) ghost stands: { IsLocked locked.core desk locked.seats locked.horizon locked.opened },
}

impl<B: BoardName> Under<B> {
    /// No unit, and no session. Takes no memory.
    pub(crate) fn new(alloc: Global, desk: Desk) -> Under<B>
        requires own { desk.table ≡ B.table }
        requires new { (desk.knows.log ≡ []) × ((desk.knows.given ≡ 0) × ((desk.knows.dealt ≡ 0) × (desk.knows.seats ≡ 4096))) }
    {
        Under {
            _apart: [0; 15],
            locked: Locked::new(alloc),
            desk,
            of: PhantomData,
        }
    }

    /// As `Locked::meet`, with the desk lifted for as long as that takes: others read meanwhile.
    pub(crate) fn meet<R: Wait>(&self, rt: &R, board: &Board, session: &mut InnerSession)
        requires own { (board.now.table ≡ B.table) × (session.old.table ≡ B.table) }
        requires level { 1 ≤ session.old.held.state.level }
        ensures table { session.new.table ≡ session.old.table }
        ensures same { session.new.held ≡ knowing self.now.locked.core.units session.old.held }
        ensures start { IfSome session.old.held.start (λ base. base ≡ take (length base) self.now.locked.core.units) }
        ensures kept { IsOpenOn self.now.locked.core session.old.held.state }
        ensures journal { IsJournalOf self.now.locked.core.units session.old.held }
    {
        let mut desk = self.desk.lift(rt);
        self.locked.meet(board, &mut desk, session);
        self.desk.give_back(desk);
    }

    /// As `Locked::find_journal`, in the same way.
    pub(crate) fn look<R: Wait>(&self, rt: &R, board: &Board, session: &mut InnerSession)
        requires own { (session.old.table ≡ B.table) × (board.now.table ≡ B.table) }
        ensures table { session.new.table ≡ session.old.table }
        ensures same { session.new.held ≡ knowing self.now.locked.core.units session.old.held }
        ensures journal { IsJournalOf self.now.locked.core.units session.old.held }
    {
        let mut desk = self.desk.lift(rt);
        self.locked.find_journal(board, &mut desk, session);
        self.desk.give_back(desk);
    }
}

/// The shared lock, held until this is dropped: others read meanwhile, and nobody writes. It lends nothing.
#[derive(Drop)]
pub struct Share<'a, B: BoardName> {
    _guard: RwLockReadGuard<'a, Under<B>>,
}

/// The exclusive lock, held until this is dropped: nobody reads or writes meanwhile, and transactions begin and end. It
/// lends nothing.
#[derive(Drop)]
pub struct Pause<'a, B: BoardName> {
    _guard: RwLockWriteGuard<'a, Under<B>>,
}

impl<B: BoardName> Shared<B> {
    /// Holds the shared lock until the share is dropped.
    pub fn share<R: Wait>(&self, rt: &R) -> Share<'_, B> {
        Share {
            _guard: self.lock.read(rt),
        }
    }

    /// Holds the exclusive lock until the pause is dropped.
    pub fn pause<R: Wait>(&self, rt: &R) -> Pause<'_, B> {
        Pause {
            _guard: self.lock.write(rt, Patience::Short),
        }
    }
}
