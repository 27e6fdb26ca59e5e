//! $GETs of a hold that are read and gathered before it has the lock alone.
//!
//! Where the lock is in use, a hold that asks for values alone reads them under the shared lock, beside others who do
//! so too, and gathers its units' bytes and its replies there: some at a time, so that who wants the lock alone
//! need not wait for long. Once it has the lock alone, and nothing was written since, these are right still: then its
//! units are written in one go, and it is told what lies there. Else it reads anew, and so it does where that is refused:
//! then each command has its own reply.
ghost use Rattle.std.specs.Prelude.{◌≡◌, ◌≤◌, ℕ, List, ◌+◌, ◌++◌, [], length, IfSome, OnSome, OnOk, OnErr};
ghost use Rattle.journal.specs.Gathered.{AreGets};
ghost use Rattle.collation.specs.Reference.{Reference};
ghost use Rattle.journal.specs.declared.unit.Unit.{Unit as JournalUnit};
ghost use Rattle.journal.specs.History.{initial, after};
ghost use Rattle.pin_board.specs.Slips.{IsBeginning};
ghost use Rattle.validate_commit.specs.Gathering.{AreRightGets};
ghost use Rattle.shared_engine.specs.Sessions.{knowing, and_receipts};
ghost use Rattle.shared_engine.specs.Engines.{IsLocked};
ghost use Rattle.shared_engine.specs.Holds.{gets_on, values_on, AreGathered, IsAhead};

use crate::hold::Hold;
use crate::inner::InnerSession;
use crate::locked::Locked;
use crate::name::BoardName;
use crate::session::Session;
use crate::shared::Shared;
use crate::told::{Tag, Tolds};
use collation::Job;
use journal::Gets;
use key_codec::Key;
use pin_board::{Board, Lifted};
use refusal::Refusal;
use std::alloc::AllocError;
use std::sync::Wait;

// Fewer values aren't worth a lock of their own.
const FEWEST: usize = 8;

// So many are read under one hold of the shared lock: who wants it alone waits for some ten microseconds.
const PIECE: usize = 64;

/// The $GETs of a hold, gathered as its job's units, what they are told once they are done, and how many units there were
/// when they were read.
#[derive(Drop)]
pub(crate) struct Ahead {
    pub(crate) gets: Gets,
    pub(crate) told: Tolds,
    pub(crate) number: u64,
}

impl Locked {
    // Gathers a $GET of each key, and what it is told, behind those that are there.
    fn gather_each(&self, keys: &[Key], gets: &mut Gets, told: &mut Tolds) -> Result<(), AllocError>
        requires room { length keys.now ≤ told.old.room }
        ensures job { OnOk result (gets.new.job ≡ gets.old.job) }
        ensures gathered { OnOk result (gets.new.units ≡ gets.old.units ++ gets_on gets.old.job (after self.now.core.units initial).map keys.now) }
        ensures told { OnOk result (told.new.served ≡ told.old.served ++ values_on (after self.now.core.units initial).map keys.now) }
        ensures room { OnOk result (told.old.room ≤ told.new.room + length keys.now) }
    {
        for key in keys {
            let size = self.core.gather_get(key, gets, &mut told.values)?;
            told.tags.push_reserved(Tag::Value(size));
        }
        Ok(())
    }

    // Nothing gathered yet of a job's $GETs, as things are now, with room for all that the hold asks. None where there is no
    // memory for it.
    fn begin_ahead(&self, job: Job, hold: &Hold) -> Option<Ahead>
        ensures begun { IfSome result (λ ahead. AreGathered job ahead.number self.now.core.units [] ahead.gets ahead.told.served) }
        ensures room { IfSome result (λ ahead. hold.now.room + length hold.now.commands ≤ ahead.told.room) }
    {
        let alloc = hold.asked.alloc();
        let mut told = Tolds::new(alloc);
        told.begin(alloc, hold.told.tags.capacity()).ok()?;
        Some(Ahead {
            gets: Gets::new(alloc, job),
            told,
            number: self.core.now(),
        })
    }

    // Gathers $GETs of these keys too, as they are now, where those before are right still. None where they may not be, and
    // where there is no memory for them.
    fn gather_on(&self, keys: &[Key], ahead: &mut Ahead) -> Option<()>
        requires room { length keys.now ≤ ahead.old.told.room }
        ensures gathered { OnSome result ((job : ℕ) (base : List JournalUnit) (before : List Reference) → IsBeginning self.now.core.units base → AreGathered job ahead.old.number base before ahead.old.gets ahead.old.told.served → AreGathered job ahead.new.number self.now.core.units (before ++ keys.now) ahead.new.gets ahead.new.told.served) }
        ensures room { OnSome result (ahead.old.told.room ≤ ahead.new.told.room + length keys.now) }
    {
        if !self.core.is_as_at(ahead.number) {
            return None;
        }
        ahead.number = self.core.now();
        self.gather_each(keys, &mut ahead.gets, &mut ahead.told)
            .ok()
    }

    /// Writes $GETs of a session that has no transaction open, which are right as things are now, in one go. A refusal
    /// changes nothing at all.
    pub(crate) fn known_gets(
        &mut self,
        board: &Board,
        desk: &mut Lifted,
        session: &mut InnerSession,
        gets: &Gets,
    ) -> Result<(), Refusal>
        requires own { (desk.old.table ≡ board.now.table) × (session.old.table ≡ board.now.table) }
        requires stands { IsLocked self.old.core desk.old self.old.seats self.old.horizon self.old.opened }
        requires some { 1 ≤ length gets.now.units }
        requires right { AreRightGets (after self.old.core.units initial).map gets.now.units }
        requires job { gets.now.job ≡ session.old.held.state.work.job }
        requires gets { AreGets gets.now }
        ensures table { (desk.new.table ≡ desk.old.table) × (session.new.table ≡ session.old.table) }
        ensures stands { IsLocked self.new.core desk.new self.new.seats self.new.horizon self.new.opened }
        ensures units { OnOk result (self.new.core.units ≡ self.old.core.units ++ gets.now.units) }
        ensures receipts { OnOk result (session.new.held ≡ and_receipts self.old.core.units gets.now.units session.old.held) }
        ensures refused { OnErr result ((self.new.core.units ≡ self.old.core.units) × (session.new.held ≡ session.old.held)) }
        ensures others { (desk.new.knows.given ≡ desk.old.knows.given) × (self.new.seats ≡ self.old.seats) }
    {
        session.numbers.reserve(gets.len() as usize)?;
        let mut receipts = self.core.add_gets(gets, Some(self.horizon))?;
        'receipts: while let Some(receipt) = receipts.next() {
            board.write(desk, &mut session.pin, &receipt);
            session.numbers.push_reserved(receipt.number());
        }
        Ok(())
    }
}

impl<B: BoardName> Shared<B> {
    // Nothing gathered yet, as things are now.
    fn begin_ahead<R: Wait>(&self, rt: &R, session: &mut InnerSession, hold: &Hold) -> Option<Ahead>
        requires own { session.old.table ≡ B.table }
        ensures table { session.new.table ≡ session.old.table }
        ensures same { session.new.held ≡ knowing session.new.held.seen session.old.held }
        ensures goes_on { IsBeginning session.new.held.seen session.old.held.seen }
        ensures begun { IfSome result (λ ahead. AreGathered session.old.held.state.work.job ahead.number session.new.held.seen [] ahead.gets ahead.told.served) }
        ensures room { IfSome result (λ ahead. hold.now.room + length hold.now.commands ≤ ahead.told.room) }
    {
        let guard = self.lock.read(rt);
        let under = &*guard;
        under.look(rt, &self.board, session);
        under.locked.begin_ahead(session.state.job(), hold)
    }

    // Gathers $GETs of these keys too, under one hold of the shared lock. Others may have written since those before were
    // gathered: then None.
    fn gather_on<R: Wait>(
        &self,
        rt: &R,
        session: &mut InnerSession,
        keys: &[Key],
        ahead: &mut Ahead,
    ) -> Option<()>
        requires own { session.old.table ≡ B.table }
        requires room { length keys.now ≤ ahead.old.told.room }
        ensures table { session.new.table ≡ session.old.table }
        ensures same { session.new.held ≡ knowing session.new.held.seen session.old.held }
        ensures goes_on { IsBeginning session.new.held.seen session.old.held.seen }
        ensures gathered { OnSome result ((job : ℕ) (before : List Reference) → AreGathered job ahead.old.number session.old.held.seen before ahead.old.gets ahead.old.told.served → AreGathered job ahead.new.number session.new.held.seen (before ++ keys.now) ahead.new.gets ahead.new.told.served) }
        ensures room { OnSome result (ahead.old.told.room ≤ ahead.new.told.room + length keys.now) }
    {
        let guard = self.lock.read(rt);
        let under = &*guard;
        under.look(rt, &self.board, session);
        under.locked.gather_on(keys, ahead)
    }

    /// Reads and gathers a hold's $GETs under the shared lock, some at a time, where it asks nothing else. None where it
    /// does, for few values, where somebody wrote meanwhile, and where there is no memory for them. The session has seen
    /// the units that were there then, or as many as before.
    pub(crate) fn read_ahead<R: Wait>(
        &self,
        rt: &R,
        session: &mut InnerSession,
        hold: &Hold,
    ) -> Option<Ahead>
        requires own { session.old.table ≡ B.table }
        ensures table { session.new.table ≡ session.old.table }
        ensures same { session.new.held ≡ knowing session.new.held.seen session.old.held }
        ensures goes_on { IsBeginning session.new.held.seen session.old.held.seen }
        ensures known { IfSome result (λ ahead. IsAhead session.old.held.state.work.job ahead.number session.new.held.seen hold.now.commands ahead.gets ahead.told.served) }
        ensures room { IfSome result (λ ahead. hold.now.room ≤ ahead.told.room) }
    {
        let keys = hold.asked.gets()?;
        if keys.len() < FEWEST {
            return None;
        }
        let mut ahead = self.begin_ahead(rt, session, hold)?;
        let mut left = keys;
        'pieces: while !left.is_empty() {
            let (piece, behind) = left.split_at(left.len().min(PIECE));
            self.gather_on(rt, session, piece, &mut ahead)?;
            left = behind;
        }
        Some(ahead)
    }
}
