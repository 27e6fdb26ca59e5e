//! A block of commands under one hold of the lock.
ghost use Rattle.std.specs.Prelude.{◌≡◌, ◌≢◌, ◌⊎◌, ℕ, ◌+◌, ◌-◌, ◌≤◌, ◌<◌, List, [], true, length, vec_capacity, Some, IfOk, IfErr, OnOk, OnErr};
ghost use Rattle.std.specs.List.{All};
ghost use Rattle.refusal.specs.declared.Refusal.{Refusal};
ghost use Rattle.command.specs.declared.request.Command.{Command};
ghost use Rattle.command.specs.declared.request.Reply.TheVariants.{Answered, Finished, AtLevel, Restarted};
ghost use Rattle.journal.specs.declared.unit.Unit.{Unit as JournalUnit};
ghost use Rattle.journal.specs.Kept.{HasNoRoom};
ghost use Rattle.serial.specs.Machine.{told_had};
ghost use Rattle.pin_board.specs.Slips.{IsBeginning};
ghost use Rattle.shared_engine.specs.Blocks.{said, IsLone, IsInside, IsTried, IsOpened, IsDeeper, IsNone, IsCommitted, IsLower, IsRolledBack, IsRestarted, HasDone, is_blocked as blocked, must_in, HasCome, NoneBeganAnew};
ghost use Rattle.shared_engine.specs.Sessions.{knowing, begun_anew, IsJournalOf};
ghost use Rattle.shared_engine.specs.Engines.{IsLocked, gone_back};
ghost use Rattle.shared_engine.specs.Writes.{IsAlone};

use crate::inner::InnerSession;
use crate::locked::{Ended, Locked};
use command::{Answer, Command, DataCommand, Reply};
use lock_name::LockCommand;
use pin_board::{Board, Lifted};
use refusal::Refusal;
use std::alloc::Global;

/// What came of a block.
#[derive(Drop)]
pub enum SerialRun {
    /// All its commands were done, and these are their replies.
    Done(Vec<Reply>),
    /// The command at this place, counted from 0, is a LOCK that had to have its names, and was blocked. Those before
    /// it were done, and those behind it weren't.
    Blocked(usize),
}

// Whether a LOCK at this place of a block has to have its names.
fn must_at(musts: &[bool], place: usize) -> bool
    ensures { result ≡ must_in musts.now place }
{
    match musts.get(place) {
        Some(must) => *must,
        None => false,
    }
}

// Whether a reply says that a LOCK was blocked which has to have its names.
fn is_blocked(must: bool, reply: &Reply) -> bool
    ensures { result ≡ blocked must reply.now }
{
    match reply {
        Reply::Had(had) => must && !*had,
        _ => false,
    }
}

// What a data command is replied.
fn answered(done: Result<Answer, Refusal>) -> Reply
    ensures { result ≡ said Answered done }
{
    match done {
        Ok(answer) => Reply::Answered(answer),
        Err(refusal) => Reply::Refused(refusal),
    }
}

// What a LOCK is replied: whether it had its names, where it has names.
fn had(command: &LockCommand, done: Result<bool, Refusal>) -> Reply
    ensures { result ≡ said (told_had command.now) done }
{
    match done {
        Ok(had) => match command {
            LockCommand::Release => Reply::Finished,
            LockCommand::Only(_) => Reply::Had(had),
            LockCommand::More(_) => Reply::Had(had),
            LockCommand::Fewer(_) => Reply::Had(had),
        },
        Err(refusal) => Reply::Refused(refusal),
    }
}

// What a TSTART is replied.
fn at_level(done: Result<u64, Refusal>) -> Reply
    ensures { result ≡ said AtLevel done }
{
    match done {
        Ok(level) => Reply::AtLevel(level),
        Err(refusal) => Reply::Refused(refusal),
    }
}

// What a TCOMMIT is replied.
fn committed(done: Result<Reply, Refusal>) -> Reply
    ensures { result ≡ said (λ r. r) done }
{
    match done {
        Ok(reply) => reply,
        Err(refusal) => Reply::Refused(refusal),
    }
}

// What a TROLLBACK is replied.
fn finished(done: Result<(), Refusal>) -> Reply
    ensures { result ≡ said (λ _. Finished) done }
{
    match done {
        Ok(()) => Reply::Finished,
        Err(refusal) => Reply::Refused(refusal),
    }
}

// What a TRESTART is replied.
fn restarted(done: Result<u64, Refusal>) -> Reply
    ensures { result ≡ said Restarted done }
{
    match done {
        Ok(restarts) => Reply::Restarted(restarts),
        Err(refusal) => Reply::Refused(refusal),
    }
}

impl Locked {
    /// TRESTART of an open transaction, and then the commands behind it: no other job does anything from where it begins
    /// anew, so no TCOMMIT in them begins it anew. Each LOCK is one try; behind one that is blocked, and has to have its
    /// names, nothing is done. A command's refusal is its reply.
    ///
    /// Refusals, after which nothing has changed but what the session has seen: those of TRESTART; and `OutOfMemory` for
    /// the replies.
    #[tactic(auto, using(crate::proofs::Alone::alone_anew_now))]
    pub(crate) fn trestart_serially(
        &mut self,
        board: &Board,
        desk: &mut Lifted,
        alloc: Global,
        session: &mut InnerSession,
        block: Vec<Command>,
        musts: &[bool],
    ) -> Result<SerialRun, Refusal>
        requires own { (desk.old.table ≡ board.now.table) × (session.old.table ≡ board.now.table) }
        requires stands { IsLocked self.old.core desk.old self.old.seats self.old.horizon self.old.opened }
        requires level { 1 ≤ session.old.held.state.level }
        requires goes_on { All (λ (c : Command). c ≢ Command.Halt) block.items }
        ensures table { (desk.new.table ≡ desk.old.table) × (session.new.table ≡ session.old.table) }
        ensures stands { IsLocked self.new.core desk.new self.new.seats self.new.horizon self.new.opened }
        ensures come { IfOk result (λ run. HasCome musts.now block.items run (gone_back session.old.held.state self.old.core.units) self.new.core.units (begun_anew (gone_back session.old.held.state self.old.core.units) session.old.held) session.new.held) }
        ensures goes_on { IsBeginning self.old.core.units session.old.held.seen }
        ensures journal { OnOk result (IsJournalOf (gone_back session.old.held.state self.old.core.units) session.old.held) }
        ensures commits { IfOk result (λ run. NoneBeganAnew block.items run) }
        ensures seen { OnOk result (session.new.held.seen ≡ self.new.core.units) }
        ensures refused { OnErr result ((self.new.core ≡ self.old.core) × (session.new.held ≡ knowing self.old.core.units session.old.held)) }
        ensures cause { IfErr result (λ refusal. HasNoRoom refusal 1 (length self.old.core.units)) }
        ensures others { (desk.new.knows.given ≡ desk.old.knows.given) × (self.new.seats ≡ self.old.seats) }
    {
        let replies = match Vec::with_capacity(alloc, block.len()) {
            Ok(replies) => replies,
            Err(_) => {
                self.find_journal(board, desk, session);
                return Err(Refusal::OutOfMemory);
            }
        };
        match self.trestart(board, desk, session) {
            Ok(_) => Ok(self.run_alone(board, desk, session, block, musts, replies)),
            Err(refusal) => Err(refusal),
        }
    }

    // Does the commands of a session that has seen all units, and since the start of whose transaction, where one is
    // open, no unit touches anything. There is room for the replies.
    #[tactic(auto, using(crate::proofs::Blocks::so_far_first, crate::proofs::Blocks::none_had))]
    fn run_alone(
        &mut self,
        board: &Board,
        desk: &mut Lifted,
        session: &mut InnerSession,
        block: Vec<Command>,
        musts: &[bool],
        mut replies: Vec<Reply>,
    ) -> SerialRun
        requires own { (desk.old.table ≡ board.now.table) × (session.old.table ≡ board.now.table) }
        requires stands { IsLocked self.old.core desk.old self.old.seats self.old.horizon self.old.opened }
        requires goes_on { All (λ (c : Command). c ≢ Command.Halt) block.items }
        requires alone { IsAlone session.old.held self.old.core.units }
        requires seen { session.old.held.seen ≡ self.old.core.units }
        requires none { replies.items ≡ [] }
        requires room { length block.items ≤ vec_capacity replies }
        ensures table { (desk.new.table ≡ desk.old.table) × (session.new.table ≡ session.old.table) }
        ensures stands { IsLocked self.new.core desk.new self.new.seats self.new.horizon self.new.opened }
        ensures come { HasCome musts.now block.items result self.old.core.units self.new.core.units session.old.held session.new.held }
        ensures commits { NoneBeganAnew block.items result }
        ensures seen { session.new.held.seen ≡ self.new.core.units }
        ensures others { (desk.new.knows.given ≡ desk.old.knows.given) × (self.new.seats ≡ self.old.seats) }
    {
        'block: for command in block {
            let place = replies.len();
            let must = must_at(musts, place);
            let reply = self.serial_step(board, desk, session, command);
            if is_blocked(must, &reply) {
                return SerialRun::Blocked(place);
            }
            replies.push_reserved(reply);
        }
        SerialRun::Done(replies)
    }

    // One command of the block.
    fn serial_step(
        &mut self,
        board: &Board,
        desk: &mut Lifted,
        session: &mut InnerSession,
        command: Command,
    ) -> Reply
        requires own { (desk.old.table ≡ board.now.table) × (session.old.table ≡ board.now.table) }
        requires stands { IsLocked self.old.core desk.old self.old.seats self.old.horizon self.old.opened }
        requires goes_on { command ≢ Command.Halt }
        requires alone { IsAlone session.old.held self.old.core.units }
        ensures table { (desk.new.table ≡ desk.old.table) × (session.new.table ≡ session.old.table) }
        ensures stands { IsLocked self.new.core desk.new self.new.seats self.new.horizon self.new.opened }
        ensures done { HasDone command result self.old.core.units self.new.core.units session.old.held session.new.held }
        ensures alone { IsAlone session.new.held self.new.core.units }
        ensures others { (desk.new.knows.given ≡ desk.old.knows.given) × (self.new.seats ≡ self.old.seats) }
    {
        match command {
            Command::Access(command) => answered(self.serial_access(board, desk, session, command)),
            Command::Lock(command) => had(&command, self.lock(board, desk, session, &command)),
            Command::Start => at_level(self.serial_start(board, desk, session)),
            Command::Commit => committed(self.serial_commit(board, desk, session)),
            Command::Rollback => finished(self.serial_rollback(board, desk, session)),
            Command::Restart => restarted(self.serial_restart(board, desk, session)),
            Command::Level => Reply::Count(session.tlevel()),
            Command::Restarts => Reply::Count(session.trestarts()),
            Command::Halt => unreachable!(),
        }
    }

    // A data command of the block, in a transaction or not.
    fn serial_access(
        &mut self,
        board: &Board,
        desk: &mut Lifted,
        session: &mut InnerSession,
        command: DataCommand,
    ) -> Result<Answer, Refusal>
        requires own { (desk.old.table ≡ board.now.table) × (session.old.table ≡ board.now.table) }
        requires stands { IsLocked self.old.core desk.old self.old.seats self.old.horizon self.old.opened }
        ensures table { (desk.new.table ≡ desk.old.table) × (session.new.table ≡ session.old.table) }
        ensures stands { IsLocked self.new.core desk.new self.new.seats self.new.horizon self.new.opened }
        ensures outside { session.old.held.state.level ≡ 0 → IsLone command result self.old.core.units self.new.core.units session.old.held session.new.held }
        ensures inside { 1 ≤ session.old.held.state.level → IsInside command result self.old.core.units self.new.core.units session.old.held session.new.held }
        ensures others { (desk.new.knows.given ≡ desk.old.knows.given) × (self.new.seats ≡ self.old.seats) }
    {
        if session.tlevel() == 0 {
            return self.lone(board, desk, session, command);
        }
        self.read(board, desk, session, command)
    }

    // A TSTART of the block. Outside a transaction one begins now, and is never refused.
    fn serial_start(
        &mut self,
        board: &Board,
        desk: &mut Lifted,
        session: &mut InnerSession,
    ) -> Result<u64, Refusal>
        requires own { (desk.old.table ≡ board.now.table) × (session.old.table ≡ board.now.table) }
        requires stands { IsLocked self.old.core desk.old self.old.seats self.old.horizon self.old.opened }
        ensures table { (desk.new.table ≡ desk.old.table) × (session.new.table ≡ session.old.table) }
        ensures stands { IsLocked self.new.core desk.new self.new.seats self.new.horizon self.new.opened }
        ensures outside { session.old.held.state.level ≡ 0 → IsOpened result self.old.core.units self.new.core.units session.old.held session.new.held }
        ensures inside { 1 ≤ session.old.held.state.level → IsDeeper result self.old.core.units self.new.core.units session.old.held session.new.held }
        ensures same { (self.new ≡ self.old) × (desk.new ≡ desk.old) }
    {
        if session.tlevel() > 0 {
            return session.tstart_inner();
        }
        let now = board.settle_now(desk, &mut session.pin);
        session.state.begin(now);
        Ok(1)
    }

    // A TCOMMIT of the block.
    fn serial_commit(
        &mut self,
        board: &Board,
        desk: &mut Lifted,
        session: &mut InnerSession,
    ) -> Result<Reply, Refusal>
        requires own { (desk.old.table ≡ board.now.table) × (session.old.table ≡ board.now.table) }
        requires stands { IsLocked self.old.core desk.old self.old.seats self.old.horizon self.old.opened }
        requires level { IsAlone session.old.held self.old.core.units }
        ensures table { (desk.new.table ≡ desk.old.table) × (session.new.table ≡ session.old.table) }
        ensures stands { IsLocked self.new.core desk.new self.new.seats self.new.horizon self.new.opened }
        ensures outside { session.old.held.state.level ≡ 0 → IsNone result self.old.core.units self.new.core.units session.old.held session.new.held }
        ensures outermost { session.old.held.state.level ≡ 1 → IsCommitted result self.old.core.units self.new.core.units session.old.held session.new.held }
        ensures inside { 1 < session.old.held.state.level → IsLower result self.old.core.units self.new.core.units session.old.held session.new.held }
        ensures others { (desk.new.knows.given ≡ desk.old.knows.given) × (self.new.seats ≡ self.old.seats) }
    {
        match session.tlevel() {
            0 => Err(Refusal::NoTransaction),
            1 => self.commit_alone(board, desk, session),
            _ => Ok(Reply::AtLevel(session.tcommit_inner())),
        }
    }

    // The outermost TCOMMIT of the block. Nobody can have overtaken the transaction.
    fn commit_alone(
        &mut self,
        board: &Board,
        desk: &mut Lifted,
        session: &mut InnerSession,
    ) -> Result<Reply, Refusal>
        requires own { (desk.old.table ≡ board.now.table) × (session.old.table ≡ board.now.table) }
        requires stands { IsLocked self.old.core desk.old self.old.seats self.old.horizon self.old.opened }
        requires level { session.old.held.state.level ≡ 1 }
        requires alone { IsAlone session.old.held self.old.core.units }
        ensures table { (desk.new.table ≡ desk.old.table) × (session.new.table ≡ session.old.table) }
        ensures stands { IsLocked self.new.core desk.new self.new.seats self.new.horizon self.new.opened }
        ensures done { IsCommitted result self.old.core.units self.new.core.units session.old.held session.new.held }
        ensures others { (desk.new.knows.given ≡ desk.old.knows.given) × (self.new.seats ≡ self.old.seats) }
    {
        match self.tcommit(board, desk, session) {
            Ok(Ended::Committed) => Ok(Reply::Committed),
            Ok(Ended::Restarted(_)) => unreachable!(),
            Err(refusal) => Err(refusal),
        }
    }

    // A TROLLBACK of the block.
    fn serial_rollback(
        &mut self,
        board: &Board,
        desk: &mut Lifted,
        session: &mut InnerSession,
    ) -> Result<(), Refusal>
        requires own { (desk.old.table ≡ board.now.table) × (session.old.table ≡ board.now.table) }
        requires stands { IsLocked self.old.core desk.old self.old.seats self.old.horizon self.old.opened }
        ensures table { (desk.new.table ≡ desk.old.table) × (session.new.table ≡ session.old.table) }
        ensures stands { IsLocked self.new.core desk.new self.new.seats self.new.horizon self.new.opened }
        ensures outside { session.old.held.state.level ≡ 0 → IsNone result self.old.core.units self.new.core.units session.old.held session.new.held }
        ensures inside { 1 ≤ session.old.held.state.level → IsRolledBack result self.old.core.units self.new.core.units session.old.held session.new.held }
        ensures others { (desk.new.knows.given ≡ desk.old.knows.given) × (self.new.seats ≡ self.old.seats) }
    {
        if session.tlevel() == 0 {
            return Err(Refusal::NoTransaction);
        }
        self.trollback(board, desk, session)
    }

    // A TRESTART of the block.
    fn serial_restart(
        &mut self,
        board: &Board,
        desk: &mut Lifted,
        session: &mut InnerSession,
    ) -> Result<u64, Refusal>
        requires own { (desk.old.table ≡ board.now.table) × (session.old.table ≡ board.now.table) }
        requires stands { IsLocked self.old.core desk.old self.old.seats self.old.horizon self.old.opened }
        ensures table { (desk.new.table ≡ desk.old.table) × (session.new.table ≡ session.old.table) }
        ensures stands { IsLocked self.new.core desk.new self.new.seats self.new.horizon self.new.opened }
        ensures outside { session.old.held.state.level ≡ 0 → IsNone result self.old.core.units self.new.core.units session.old.held session.new.held }
        ensures inside { 1 ≤ session.old.held.state.level → IsRestarted result self.old.core.units self.new.core.units session.old.held session.new.held }
        ensures others { (desk.new.knows.given ≡ desk.old.knows.given) × (self.new.seats ≡ self.old.seats) }
    {
        if session.tlevel() == 0 {
            return Err(Refusal::NoTransaction);
        }
        self.trestart(board, desk, session)
    }
}
