//! The commands of a hold, one after the other under one hold of the lock.
ghost use Rattle.std.specs.Prelude.{◌≡◌, ◌≢◌, ◌≤◌, ◌+◌, [], List, length, take, IfSome, IsSome};
ghost use Rattle.std.specs.List.{All};
ghost use Rattle.journal.specs.declared.unit.Unit.{Unit as JournalUnit};
ghost use Rattle.journal.specs.History.{initial, after};
ghost use Rattle.job_core.specs.Lent.{done_answer};
ghost use Rattle.job_core.specs.Sessions.{IsAnsweredOrRefused, IsOpenOn};
ghost use Rattle.shared_engine.specs.Blocks.{AreDone};
ghost use Rattle.shared_engine.specs.Sessions.{knowing, IsJournalOf};
ghost use Rattle.shared_engine.specs.Engines.{IsLocked, MayBeTaken};
ghost use Rattle.shared_engine.specs.Holds.{accesses, IsAhead, IsSet, IsTagged, IsAskedBy};
ghost use Rattle.pin_board.specs.Slips.{IsBeginning};
ghost use Rattle.shared_engine.specs.Serving.{HasServed};

use crate::adaptive::Patience;
use crate::ahead::Ahead;
use crate::asked::{Ask, Asked};
use crate::hold::Hold;
use crate::inner::InnerSession;
use crate::locked::Locked;
use crate::name::BoardName;
use crate::session::Session;
use crate::shared::Shared;
use crate::told::{Tolds, tag_of_got};
use crate::turn::Turn;
use crate::under::Under;
use command::DataCommand;
use pin_board::{Board, Lifted};
use refusal::Refusal;
use std::mem;
use std::sync::{RwLockWriteGuard, Wait};

impl Locked {
    // A SET of a hold, outside a transaction.
    #[inline(always)]
    fn lone_set(
        &mut self,
        board: &Board,
        desk: &mut Lifted,
        session: &mut InnerSession,
        asked: &mut Asked,
        told: &mut Tolds,
    )
        requires own { (desk.old.table ≡ board.now.table) × (session.old.table ≡ board.now.table) }
        requires stands { IsLocked self.old.core desk.old self.old.seats self.old.horizon self.old.opened }
        requires level { session.old.held.state.level ≡ 0 }
        requires tag { IsTagged Ask.Set asked.old.tags }
        requires command { IsAskedBy Ask.Set asked.old.commands }
        requires room { (1 ≤ told.old.room) × (asked.old.others ≤ told.old.answers) }
        ensures table { (desk.new.table ≡ desk.old.table) × (session.new.table ≡ session.old.table) }
        ensures stands { IsLocked self.new.core desk.new self.new.seats self.new.horizon self.new.opened }
        ensures served { HasServed asked.old asked.new told.old told.new self.old.core.units self.new.core.units session.old.held session.new.held }
        ensures level { session.new.held.state.level ≡ 0 }
        ensures others { (desk.new.knows.given ≡ desk.old.knows.given) × (self.new.seats ≡ self.old.seats) }
    {
        let mut text = asked.take_text();
        let set = self.set_lone(board, desk, session, asked.key(), &mut text);
        asked.pass_set();
        told.push_done(set);
    }

    // A $GET of a hold, outside a transaction.
    #[inline(always)]
    fn lone_get(
        &mut self,
        board: &Board,
        desk: &mut Lifted,
        session: &mut InnerSession,
        asked: &mut Asked,
        told: &mut Tolds,
    )
        requires own { (desk.old.table ≡ board.now.table) × (session.old.table ≡ board.now.table) }
        requires stands { IsLocked self.old.core desk.old self.old.seats self.old.horizon self.old.opened }
        requires level { session.old.held.state.level ≡ 0 }
        requires tag { IsTagged Ask.Get asked.old.tags }
        requires command { IsAskedBy Ask.Get asked.old.commands }
        requires room { (1 ≤ told.old.room) × (asked.old.others ≤ told.old.answers) }
        ensures table { (desk.new.table ≡ desk.old.table) × (session.new.table ≡ session.old.table) }
        ensures stands { IsLocked self.new.core desk.new self.new.seats self.new.horizon self.new.opened }
        ensures served { HasServed asked.old asked.new told.old told.new self.old.core.units self.new.core.units session.old.held session.new.held }
        ensures level { session.new.held.state.level ≡ 0 }
        ensures others { (desk.new.knows.given ≡ desk.old.knows.given) × (self.new.seats ≡ self.old.seats) }
    {
        let got = self.get_lone(board, desk, session, asked.key(), &mut told.values);
        asked.pass_get();
        told.tags.push_reserved(tag_of_got(got));
    }

    // Another data command of a hold, outside a transaction.
    #[inline(never)]
    fn lone_other(
        &mut self,
        board: &Board,
        desk: &mut Lifted,
        session: &mut InnerSession,
        asked: &mut Asked,
        told: &mut Tolds,
    )
        requires own { (desk.old.table ≡ board.now.table) × (session.old.table ≡ board.now.table) }
        requires stands { IsLocked self.old.core desk.old self.old.seats self.old.horizon self.old.opened }
        requires level { session.old.held.state.level ≡ 0 }
        requires tag { IsTagged Ask.Other asked.old.tags }
        requires command { IsAskedBy Ask.Other asked.old.commands }
        requires room { (1 ≤ told.old.room) × (asked.old.others ≤ told.old.answers) }
        ensures table { (desk.new.table ≡ desk.old.table) × (session.new.table ≡ session.old.table) }
        ensures stands { IsLocked self.new.core desk.new self.new.seats self.new.horizon self.new.opened }
        ensures served { HasServed asked.old asked.new told.old told.new self.old.core.units self.new.core.units session.old.held session.new.held }
        ensures level { session.new.held.state.level ≡ 0 }
        ensures others { (desk.new.knows.given ≡ desk.old.knows.given) × (self.new.seats ≡ self.old.seats) }
    {
        let command = asked.take_other();
        let answer = self.lone(board, desk, session, command);
        told.push_answered(answer);
    }

    // A line of a hold, outside a transaction.
    #[inline(always)]
    fn lone_line(
        &mut self,
        board: &Board,
        desk: &mut Lifted,
        session: &mut InnerSession,
        ask: Ask,
        asked: &mut Asked,
        told: &mut Tolds,
    )
        requires own { (desk.old.table ≡ board.now.table) × (session.old.table ≡ board.now.table) }
        requires stands { IsLocked self.old.core desk.old self.old.seats self.old.horizon self.old.opened }
        requires level { session.old.held.state.level ≡ 0 }
        requires tag { IsTagged ask asked.old.tags }
        requires command { IsAskedBy ask asked.old.commands }
        requires room { (1 ≤ told.old.room) × (asked.old.others ≤ told.old.answers) }
        ensures table { (desk.new.table ≡ desk.old.table) × (session.new.table ≡ session.old.table) }
        ensures stands { IsLocked self.new.core desk.new self.new.seats self.new.horizon self.new.opened }
        ensures served { HasServed asked.old asked.new told.old told.new self.old.core.units self.new.core.units session.old.held session.new.held }
        ensures level { session.new.held.state.level ≡ 0 }
        ensures others { (desk.new.knows.given ≡ desk.old.knows.given) × (self.new.seats ≡ self.old.seats) }
    {
        match ask {
            Ask::Set => self.lone_set(board, desk, session, asked, told),
            Ask::Get => self.lone_get(board, desk, session, asked, told),
            Ask::Other => self.lone_other(board, desk, session, asked, told),
        }
    }

    // All lines of a hold, outside a transaction.
    fn lone_lines(
        &mut self,
        board: &Board,
        desk: &mut Lifted,
        session: &mut InnerSession,
        asked: &mut Asked,
        told: &mut Tolds,
    )
        requires own { (desk.old.table ≡ board.now.table) × (session.old.table ≡ board.now.table) }
        requires stands { IsLocked self.old.core desk.old self.old.seats self.old.horizon self.old.opened }
        requires level { session.old.held.state.level ≡ 0 }
        requires seen { session.old.held.seen ≡ self.old.core.units }
        requires room { (length asked.old.commands ≤ told.old.room) × (asked.old.others ≤ told.old.answers) }
        requires none { told.old.served ≡ [] }
        ensures table { (desk.new.table ≡ desk.old.table) × (session.new.table ≡ session.old.table) }
        ensures stands { IsLocked self.new.core desk.new self.new.seats self.new.horizon self.new.opened }
        ensures done { AreDone (accesses asked.old.commands) told.new.served self.old.core.units self.new.core.units session.old.held session.new.held }
        ensures seen { session.new.held.seen ≡ self.new.core.units }
        ensures left { asked.new.commands ≡ [] }
        ensures room { (asked.new.room ≡ asked.old.room) × (told.new.room + length asked.old.commands ≡ told.old.room) }
        ensures answers { asked.new.others ≤ told.new.answers }
        ensures others { (desk.new.knows.given ≡ desk.old.knows.given) × (self.new.seats ≡ self.old.seats) }
    {
        'lines: while let Some(ask) = asked.next() {
            self.lone_line(board, desk, session, ask, asked, told);
        }
    }

    // All lines of a hold, outside a transaction: where they were gathered before, and are right still, nothing is looked
    // up, and they are told what lies there.
    fn lone_or_known(
        &mut self,
        board: &Board,
        desk: &mut Lifted,
        session: &mut InnerSession,
        asked: &mut Asked,
        told: &mut Tolds,
        ahead: &mut Option<Ahead>,
    )
        requires own { (desk.old.table ≡ board.now.table) × (session.old.table ≡ board.now.table) }
        requires stands { IsLocked self.old.core desk.old self.old.seats self.old.horizon self.old.opened }
        requires level { session.old.held.state.level ≡ 0 }
        requires seen { session.old.held.seen ≡ self.old.core.units }
        requires known { IfSome ahead.old (λ read. (base : List JournalUnit) × IsBeginning self.old.core.units base × IsAhead session.old.held.state.work.job read.number base asked.old.commands read.gets read.told.served) }
        requires kept { IfSome ahead.old (λ read. asked.old.room ≤ read.told.room) }
        requires spare { length asked.old.commands + asked.old.room ≤ told.old.room }
        requires room { (length asked.old.commands ≤ told.old.room) × (asked.old.others ≤ told.old.answers) }
        requires none { told.old.served ≡ [] }
        ensures table { (desk.new.table ≡ desk.old.table) × (session.new.table ≡ session.old.table) }
        ensures stands { IsLocked self.new.core desk.new self.new.seats self.new.horizon self.new.opened }
        ensures done { AreDone (accesses asked.old.commands) told.new.served self.old.core.units self.new.core.units session.old.held session.new.held }
        ensures seen { session.new.held.seen ≡ self.new.core.units }
        ensures left { asked.new.commands ≡ [] }
        ensures room { (asked.new.room ≡ asked.old.room) × (asked.new.room ≤ told.new.room) }
        ensures answers { asked.new.others ≤ told.new.answers }
        ensures others { (desk.new.knows.given ≡ desk.old.knows.given) × (self.new.seats ≡ self.old.seats) }
    {
        if let Some(read) = ahead {
            if self.core.is_as_at(read.number)
                && self.known_gets(board, desk, session, &read.gets).is_ok()
            {
                mem::swap(told, &mut read.told);
                asked.pass_all();
                return;
            }
        }
        self.lone_lines(board, desk, session, asked, told);
    }

    /// Does the commands of a hold outside a transaction, each as `lone` does it. Their values may have been read before,
    /// when the session had seen just as much as now.
    pub(crate) fn hold_lone(
        &mut self,
        board: &Board,
        desk: &mut Lifted,
        session: &mut InnerSession,
        hold: &mut Hold,
        ahead: &mut Option<Ahead>,
    )
        requires own { (desk.old.table ≡ board.now.table) × (session.old.table ≡ board.now.table) }
        requires stands { IsLocked self.old.core desk.old self.old.seats self.old.horizon self.old.opened }
        requires level { session.old.held.state.level ≡ 0 }
        requires none { hold.old.served ≡ [] }
        requires known { IfSome ahead.old (λ read. IsAhead session.old.held.state.work.job read.number session.old.held.seen hold.old.commands read.gets read.told.served) }
        requires kept { IfSome ahead.old (λ read. hold.old.room ≤ read.told.room) }
        ensures table { (desk.new.table ≡ desk.old.table) × (session.new.table ≡ session.old.table) }
        ensures stands { IsLocked self.new.core desk.new self.new.seats self.new.horizon self.new.opened }
        ensures done { AreDone (accesses hold.old.commands) hold.new.served self.old.core.units self.new.core.units (knowing self.old.core.units session.old.held) session.new.held }
        ensures journal { IsJournalOf self.old.core.units session.old.held }
        ensures seen { session.new.held.seen ≡ self.new.core.units }
        ensures places { hold.new.places ≡ hold.old.places }
        ensures others { (desk.new.knows.given ≡ desk.old.knows.given) × (self.new.seats ≡ self.old.seats) }
    {
        self.find_journal(board, desk, session);
        self.lone_or_known(board, desk, session, &mut hold.asked, &mut hold.told, ahead);
    }

    // A SET of a hold, in a transaction whose start's content is there.
    #[inline(always)]
    fn read_set(&self, session: &mut InnerSession, asked: &mut Asked, told: &mut Tolds)
        requires level { 1 ≤ session.old.held.state.level }
        requires start { IfSome session.old.held.start (λ base. base ≡ take (length base) self.now.core.units) }
        requires kept { IsOpenOn self.now.core session.old.held.state }
        requires seen { session.old.held.seen ≡ self.now.core.units }
        requires tag { IsTagged Ask.Set asked.old.tags }
        requires command { IsAskedBy Ask.Set asked.old.commands }
        requires room { (1 ≤ told.old.room) × (asked.old.others ≤ told.old.answers) }
        ensures table { session.new.table ≡ session.old.table }
        ensures served { HasServed asked.old asked.new told.old told.new self.now.core.units self.now.core.units session.old.held session.new.held }
        ensures level { session.new.held.state.level ≡ session.old.held.state.level }
        ensures same { (session.new.held.start ≡ session.old.held.start) × (session.new.held.seen ≡ session.old.held.seen) }
        ensures kept { IsOpenOn self.now.core session.new.held.state }
    {
        let mut text = asked.take_text();
        let set = self.set_met(session, asked.key(), &mut text);
        asked.pass_set();
        told.push_done(set);
    }

    // A $GET of a hold, in a transaction whose start's content is there.
    #[inline(always)]
    fn read_got(&self, session: &mut InnerSession, asked: &mut Asked, told: &mut Tolds)
        requires level { 1 ≤ session.old.held.state.level }
        requires start { IfSome session.old.held.start (λ base. base ≡ take (length base) self.now.core.units) }
        requires kept { IsOpenOn self.now.core session.old.held.state }
        requires seen { session.old.held.seen ≡ self.now.core.units }
        requires tag { IsTagged Ask.Get asked.old.tags }
        requires command { IsAskedBy Ask.Get asked.old.commands }
        requires room { (1 ≤ told.old.room) × (asked.old.others ≤ told.old.answers) }
        ensures table { session.new.table ≡ session.old.table }
        ensures served { HasServed asked.old asked.new told.old told.new self.now.core.units self.now.core.units session.old.held session.new.held }
        ensures level { session.new.held.state.level ≡ session.old.held.state.level }
        ensures same { (session.new.held.start ≡ session.old.held.start) × (session.new.held.seen ≡ session.old.held.seen) }
        ensures kept { IsOpenOn self.now.core session.new.held.state }
    {
        let got = self.get_met(session, asked.key(), &mut told.values);
        asked.pass_get();
        told.tags.push_reserved(tag_of_got(got));
    }

    // Another data command of a hold, in a transaction whose start's content is there.
    #[inline(never)]
    fn read_other(&self, session: &mut InnerSession, asked: &mut Asked, told: &mut Tolds)
        requires level { 1 ≤ session.old.held.state.level }
        requires start { IfSome session.old.held.start (λ base. base ≡ take (length base) self.now.core.units) }
        requires kept { IsOpenOn self.now.core session.old.held.state }
        requires seen { session.old.held.seen ≡ self.now.core.units }
        requires tag { IsTagged Ask.Other asked.old.tags }
        requires command { IsAskedBy Ask.Other asked.old.commands }
        requires room { (1 ≤ told.old.room) × (asked.old.others ≤ told.old.answers) }
        ensures table { session.new.table ≡ session.old.table }
        ensures served { HasServed asked.old asked.new told.old told.new self.now.core.units self.now.core.units session.old.held session.new.held }
        ensures level { session.new.held.state.level ≡ session.old.held.state.level }
        ensures same { (session.new.held.start ≡ session.old.held.start) × (session.new.held.seen ≡ session.old.held.seen) }
        ensures kept { IsOpenOn self.now.core session.new.held.state }
    {
        let command = asked.take_other();
        let answer = self.read_met(session, command);
        told.push_answered(answer);
    }

    // A line of a hold, in a transaction whose start's content is there.
    #[inline(always)]
    fn read_line(&self, session: &mut InnerSession, ask: Ask, asked: &mut Asked, told: &mut Tolds)
        requires level { 1 ≤ session.old.held.state.level }
        requires start { IfSome session.old.held.start (λ base. base ≡ take (length base) self.now.core.units) }
        requires kept { IsOpenOn self.now.core session.old.held.state }
        requires seen { session.old.held.seen ≡ self.now.core.units }
        requires tag { IsTagged ask asked.old.tags }
        requires command { IsAskedBy ask asked.old.commands }
        requires room { (1 ≤ told.old.room) × (asked.old.others ≤ told.old.answers) }
        ensures table { session.new.table ≡ session.old.table }
        ensures served { HasServed asked.old asked.new told.old told.new self.now.core.units self.now.core.units session.old.held session.new.held }
        ensures level { session.new.held.state.level ≡ session.old.held.state.level }
        ensures same { (session.new.held.start ≡ session.old.held.start) × (session.new.held.seen ≡ session.old.held.seen) }
        ensures kept { IsOpenOn self.now.core session.new.held.state }
    {
        match ask {
            Ask::Set => self.read_set(session, asked, told),
            Ask::Get => self.read_got(session, asked, told),
            Ask::Other => self.read_other(session, asked, told),
        }
    }

    // All lines of a hold, in a transaction whose start's content is there.
    fn read_lines(&self, session: &mut InnerSession, asked: &mut Asked, told: &mut Tolds)
        requires level { 1 ≤ session.old.held.state.level }
        requires start { IfSome session.old.held.start (λ base. base ≡ take (length base) self.now.core.units) }
        requires kept { IsOpenOn self.now.core session.old.held.state }
        requires seen { session.old.held.seen ≡ self.now.core.units }
        requires room { (length asked.old.commands ≤ told.old.room) × (asked.old.others ≤ told.old.answers) }
        requires none { told.old.served ≡ [] }
        ensures table { session.new.table ≡ session.old.table }
        ensures done { AreDone (accesses asked.old.commands) told.new.served self.now.core.units self.now.core.units session.old.held session.new.held }
        ensures seen { session.new.held.seen ≡ self.now.core.units }
        ensures left { asked.new.commands ≡ [] }
        ensures room { (asked.new.room ≡ asked.old.room) × (told.new.room + length asked.old.commands ≡ told.old.room) }
        ensures answers { asked.new.others ≤ told.new.answers }
    {
        'lines: while let Some(ask) = asked.next() {
            self.read_line(session, ask, asked, told);
        }
    }

    /// Does the commands of a hold in a transaction whose start's content is there, each as `read_met` does it. The lock
    /// may be shared.
    pub(crate) fn hold_read(&self, session: &mut InnerSession, hold: &mut Hold)
        requires level { 1 ≤ session.old.held.state.level }
        requires start { IfSome session.old.held.start (λ base. base ≡ take (length base) self.now.core.units) }
        requires kept { IsOpenOn self.now.core session.old.held.state }
        requires seen { session.old.held.seen ≡ self.now.core.units }
        requires none { hold.old.served ≡ [] }
        ensures table { session.new.table ≡ session.old.table }
        ensures done { AreDone (accesses hold.old.commands) hold.new.served self.now.core.units self.now.core.units session.old.held session.new.held }
        ensures seen { session.new.held.seen ≡ self.now.core.units }
        ensures places { hold.new.places ≡ hold.old.places }
    {
        self.read_lines(session, &mut hold.asked, &mut hold.told);
    }
}

impl InnerSession {
    // A SET of a hold, in an open transaction.
    #[inline(always)]
    fn set_next(&mut self, asked: &mut Asked, told: &mut Tolds)
        requires level { 1 ≤ self.old.held.state.level }
        requires tag { IsTagged Ask.Set asked.old.tags }
        requires command { IsAskedBy Ask.Set asked.old.commands }
        requires room { (1 ≤ told.old.room) × (asked.old.others ≤ told.old.answers) }
        ensures table { self.new.table ≡ self.old.table }
        ensures served { HasServed asked.old asked.new told.old told.new self.old.held.seen self.old.held.seen self.old.held self.new.held }
        ensures level { self.new.held.state.level ≡ self.old.held.state.level }
        ensures seen { self.new.held.seen ≡ self.old.held.seen }
    {
        let mut text = asked.take_text();
        let set = self.set_lent(asked.key(), &mut text);
        asked.pass_set();
        told.push_done(set);
    }

    // The same of a SET that lies there whole.
    #[inline(never)]
    fn set_whole(&mut self, asked: &mut Asked, told: &mut Tolds)
        requires level { 1 ≤ self.old.held.state.level }
        requires tag { IsTagged Ask.Other asked.old.tags }
        requires command { IsAskedBy Ask.Other asked.old.commands }
        requires room { (1 ≤ told.old.room) × (asked.old.others ≤ told.old.answers) }
        requires set { All IsSet asked.old.commands }
        ensures table { self.new.table ≡ self.old.table }
        ensures served { HasServed asked.old asked.new told.old told.new self.old.held.seen self.old.held.seen self.old.held self.new.held }
        ensures level { self.new.held.state.level ≡ self.old.held.state.level }
        ensures seen { self.new.held.seen ≡ self.old.held.seen }
    {
        let command = asked.take_other();
        let set = self.set_of(command);
        told.push_done(set);
    }

    // What it answers.
    fn set_of(&mut self, command: DataCommand) -> Result<(), Refusal>
        requires level { 1 ≤ self.old.held.state.level }
        requires set { IsSet command }
        ensures table { self.new.table ≡ self.old.table }
        ensures answered { IfSome self.old.held.start (λ base. IsAnsweredOrRefused command (done_answer result) (after base initial).map self.old.held.state self.new.held.state) }
        ensures begun { IsSome self.old.held.start }
        ensures same { (self.new.held.start ≡ self.old.held.start) × (self.new.held.receipts ≡ self.old.held.receipts) }
        ensures others { (self.new.held.others ≡ self.old.held.others) × (self.new.held.seen ≡ self.old.held.seen) }
        ensures level { self.new.held.state.level ≡ self.old.held.state.level }
    {
        match command {
            DataCommand::Set(key, mut text) => self.set_lent(&key, &mut text),
            DataCommand::Kill(..)
            | DataCommand::Merge(..)
            | DataCommand::Increment(..)
            | DataCommand::Look(_) => unreachable!(),
        }
    }

    // A line of a hold, a SET, in an open transaction.
    #[inline(always)]
    fn set_line(&mut self, ask: Ask, asked: &mut Asked, told: &mut Tolds)
        requires level { 1 ≤ self.old.held.state.level }
        requires tag { IsTagged ask asked.old.tags }
        requires command { IsAskedBy ask asked.old.commands }
        requires room { (1 ≤ told.old.room) × (asked.old.others ≤ told.old.answers) }
        requires set { All IsSet asked.old.commands }
        requires sets { ask ≢ Ask.Get }
        ensures table { self.new.table ≡ self.old.table }
        ensures served { HasServed asked.old asked.new told.old told.new self.old.held.seen self.old.held.seen self.old.held self.new.held }
        ensures level { self.new.held.state.level ≡ self.old.held.state.level }
        ensures seen { self.new.held.seen ≡ self.old.held.seen }
    {
        match ask {
            Ask::Set => self.set_next(asked, told),
            Ask::Get => unreachable!(),
            Ask::Other => self.set_whole(asked, told),
        }
    }

    // All lines of a hold, SETs, in an open transaction.
    fn set_lines(&mut self, asked: &mut Asked, told: &mut Tolds)
        requires level { 1 ≤ self.old.held.state.level }
        requires sets { All IsSet asked.old.commands }
        requires room { (length asked.old.commands ≤ told.old.room) × (asked.old.others ≤ told.old.answers) }
        requires none { told.old.served ≡ [] }
        ensures table { self.new.table ≡ self.old.table }
        ensures done { AreDone (accesses asked.old.commands) told.new.served self.old.held.seen self.old.held.seen self.old.held self.new.held }
        ensures seen { self.new.held.seen ≡ self.old.held.seen }
        ensures left { asked.new.commands ≡ [] }
        ensures room { (asked.new.room ≡ asked.old.room) × (told.new.room + length asked.old.commands ≡ told.old.room) }
        ensures answers { asked.new.others ≤ told.new.answers }
    {
        'lines: while let Some(ask) = asked.next() {
            self.set_line(ask, asked, told);
        }
    }

    /// Does the commands of a hold, which are SETs, in an open transaction.
    pub(crate) fn hold_sets(&mut self, hold: &mut Hold)
        requires level { 1 ≤ self.old.held.state.level }
        requires sets { All IsSet hold.old.commands }
        requires none { hold.old.served ≡ [] }
        ensures table { self.new.table ≡ self.old.table }
        ensures done { AreDone (accesses hold.old.commands) hold.new.served self.old.held.seen self.new.held.seen self.old.held self.new.held }
        ensures places { hold.new.places ≡ hold.old.places }
    {
        self.set_lines(&mut hold.asked, &mut hold.told);
    }
}

impl<B: BoardName> Session<B> {
    /// Does the commands of a hold, SETs of an open transaction, in order. A refusal is a reply: after one nothing has
    /// changed, and the others are done. Takes no lock, and waits for nobody. The session has seen its start.
    pub fn hold_sets(&mut self, hold: &mut Hold)
        requires level { 1 ≤ self.old.state.level }
        requires sets { All IsSet hold.old.commands }
        requires none { hold.old.served ≡ [] }
        ensures done { AreDone (accesses hold.old.commands) hold.new.served self.old.seen self.new.seen self.old self.new }
        ensures places { hold.new.places ≡ hold.old.places }
        ensures each { length hold.new.served ≡ length hold.old.commands }
    {
        self.inner.hold_sets(hold);
    }
}

impl<B: BoardName> Shared<B> {
    // Does the commands of a hold as `hold_lone`, once the lock is had alone. Values may have been read before, when the
    // session had seen just as much as now.
    fn hold_under<R: Wait>(
        &self,
        rt: &R,
        guard: RwLockWriteGuard<'_, Under<B>>,
        session: &mut Session<B>,
        hold: &mut Hold,
        ahead: &mut Option<Ahead>,
        turn: &mut Turn,
    )
        requires level { session.old.state.level ≡ 0 }
        requires none { hold.old.served ≡ [] }
        requires known { IfSome ahead.old (λ read. IsAhead session.old.state.work.job read.number session.old.seen hold.old.commands read.gets read.told.served) }
        requires kept { IfSome ahead.old (λ read. hold.old.room ≤ read.told.room) }
        ensures done { (units : List JournalUnit) × IsJournalOf units session.old × AreDone (accesses hold.old.commands) hold.new.served units session.new.seen (knowing units session.old) session.new }
        ensures places { hold.new.places ≡ hold.old.places }
        ensures each { length hold.new.served ≡ length hold.old.commands }
        ensures turn { MayBeTaken turn.old turn.new }
    {
        let mut guard = guard;
        let under = &mut *guard;
        let mut desk = under.desk.lift(rt);
        under
            .locked
            .hold_lone(&self.board, &mut desk, &mut session.inner, hold, ahead);
        under.locked.take_turn(&self.board, &mut desk, turn);
        under.desk.set_down(desk);
    }

    /// Does the commands of a hold, of a session without a transaction, in order, each as `lone` does it, under one hold
    /// of the exclusive lock: nobody else does anything meanwhile. Where others have the lock, and all of them are $GETs,
    /// their values are read under the shared lock first, beside others, and stand where nobody wrote until then. A refusal
    /// is a reply: after one nothing has changed, and the others are done. A turn that is due is taken under the same
    /// hold, behind them, where it pays.
    #[tactic(auto, using(crate::proofs::Knowing::done_from))]
    pub fn hold_lone<R: Wait>(
        &self,
        rt: &R,
        session: &mut Session<B>,
        hold: &mut Hold,
        turn: &mut Turn,
    )
        requires level { session.old.state.level ≡ 0 }
        requires none { hold.old.served ≡ [] }
        ensures done { (units : List JournalUnit) × IsJournalOf units session.old × AreDone (accesses hold.old.commands) hold.new.served units session.new.seen (knowing units session.old) session.new }
        ensures places { hold.new.places ≡ hold.old.places }
        ensures each { length hold.new.served ≡ length hold.old.commands }
        ensures turn { MayBeTaken turn.old turn.new }
    {
        if let Some(guard) = self.lock.write_at_once() {
            self.hold_under(rt, guard, session, hold, &mut None, turn);
            return;
        }
        let mut ahead = self.read_ahead(rt, &mut session.inner, hold);
        let patience = match &ahead {
            Some(_) => Patience::Short,
            None => Patience::Long,
        };
        let guard = self.lock.write(rt, patience);
        self.hold_under(rt, guard, session, hold, &mut ahead, turn);
    }

    /// Does the commands of a hold in a session's open transaction, in order, each as `read` does it, under one hold of
    /// the shared lock. A refusal is a reply: after one nothing has changed, and the others are done.
    pub fn hold_read<R: Wait>(&self, rt: &R, session: &mut Session<B>, hold: &mut Hold)
        requires level { 1 ≤ session.old.state.level }
        requires none { hold.old.served ≡ [] }
        ensures done { AreDone (accesses hold.old.commands) hold.new.served session.new.seen session.new.seen (knowing session.new.seen session.old) session.new }
        ensures journal { IsJournalOf session.new.seen session.old }
        ensures places { hold.new.places ≡ hold.old.places }
        ensures each { length hold.new.served ≡ length hold.old.commands }
    {
        let guard = self.lock.read(rt);
        let under = &*guard;
        under.meet(rt, &self.board, &mut session.inner);
        under.locked.hold_read(&mut session.inner, hold);
    }
}
