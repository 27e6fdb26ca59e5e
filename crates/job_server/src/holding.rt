//! Lines of a job that are done under one hold of the engine's lock. The gate isn't told.
ghost use Rattle.std.specs.Prelude.{◌≡◌, ◌++◌, ◌∷◌, [], List, Option, Some, true, IfOk, OnOk};
ghost use Rattle.std.specs.List.{All};
ghost use Rattle.refusal.specs.declared.Refusal.{Refusal};
ghost use Rattle.command.specs.declared.request.Command.{Command};
ghost use Rattle.command.specs.declared.request.Reply.{Reply};
ghost use Rattle.job_scripts.specs.Blocks.{in_place};
ghost use Rattle.job_scripts.specs.Lines.{lent_lines};
ghost use Rattle.shared_engine.specs.Holds.{accesses, reply_told, IsSet};
ghost use Rattle.job_server.specs.Holding.{IsGathered, IsAskedAt, HasHeld};
ghost use Rattle.job_server.specs.Steps.{OneAsks};
ghost use Rattle.job_server.specs.Telling.{AdvancesWithin, HaveNoHalt, BeganAnew, HasRunAnew, HasWaited, HasWaitedFor, HasTriedAlone};

use crate::ServerFault;
use crate::cursor::{Cursor, Line};
use crate::gathering::{Asked, Front, Way, gather};
use crate::job_run::Calls;
use crate::running::JobRun;
use crate::worker::{Worker, writes_in};
use collation::Job;
use command::{Command, Reply};
use job_scripts::{Block, Replies, block_of, command_for, push_in_place, request_for};
use lock_name::LockCommand;
use refusal::Refusal;
use script::{Drafts, Sentence};
use shared_engine::{BoardName, Gate, Hold, SerialRun, Served as ToldLines, Session, Told, Turn};
use std::alloc::{AllocError, Global};
use std::sync::Wait;

// The LOCK at this place of the block at the front of a job's lines.
#[tactic(auto, using(crate::proofs::Waiting::lock_found))]
fn lock_at(
    alloc: Global,
    job: Job,
    lines: &[&[u8]],
    place: usize,
    drafts: &mut Drafts,
) -> Result<LockCommand, ServerFault>
    ensures { IfOk result (λ command. OneAsks job (lent_lines lines.now) (Command.Lock command)) }
{
    let mut block = block_of(alloc, job, lines, drafts)?;
    if place >= block.commands.len() {
        return Err(ServerFault::Missing);
    }
    match block.commands.swap_remove(place) {
        Command::Lock(command) => Ok(command),
        _ => Err(ServerFault::Missing),
    }
}

// Takes the replies to a block in. Answers the place behind it.
fn note_block<'b>(
    replies: &mut Replies,
    number: u64,
    places: Vec<Option<Refusal>>,
    served: Vec<Reply>,
    rest: &'b [&'b [u8]],
) -> Result<Cursor<'b>, ServerFault>
    ensures rest { IfOk result (λ behind. behind.lines.now ≡ rest.now) }
    ensures replies { OnOk result (replies.new.replies ≡ replies.old.replies ++ in_place places.items served.items) }
{
    push_in_place(places.as_slice(), served, replies)?;
    let count = places.len() as u64;
    Ok(Cursor {
        lines: rest,
        number: number.saturating_add(count),
    })
}

// Takes in what a line was told.
fn note_told(told: Told<'_>, replies: &mut Replies) -> Result<(), AllocError>
    ensures { OnOk result (replies.new.replies ≡ replies.old.replies ++ reply_told told.entry ∷ []) }
{
    match told {
        Told::Done => replies.push_done(),
        Told::Value(value) => replies.push_got(value),
        Told::Answer(answer) => replies.push_answer(answer),
        Told::Refused(refusal) => replies.push_refused(refusal),
    }
}

// Takes in the reply in a line's place: its refusal, or what the next was told.
fn note_place(
    place: &Option<Refusal>,
    served: &mut ToldLines<'_>,
    replies: &mut Replies,
) -> Result<(), AllocError>
    ensures { OnOk result ((reply : Reply) × ((replies.new.replies ≡ replies.old.replies ++ reply ∷ []) × ((places : List (Option Refusal)) → in_place (place.now ∷ places) served.old ≡ reply ∷ in_place places served.new))) }
{
    match place {
        Some(refusal) => replies.push_refused(*refusal),
        None => match served.next() {
            Some(told) => note_told(told, replies),
            None => Err(AllocError),
        },
    }
}

// Takes in the replies to the lines of a hold.
fn note_hold(hold: &Hold, replies: &mut Replies) -> Result<(), AllocError>
    ensures { OnOk result (replies.new.replies ≡ replies.old.replies ++ in_place hold.now.places hold.now.served) }
{
    let mut served = hold.served();
    'places: for place in hold.places() {
        note_place(place, &mut served, replies)?;
    }
    Ok(())
}

impl<'a, B: BoardName, R: Wait, G: Gate> Calls<'a, B, R, G> {
    // Does the lines of a hold in a session, in its transaction or without one.
    fn hold_in(
        &self,
        session: &mut Session<B>,
        way: Way,
        hold: &mut Hold,
        turn: &mut Turn,
    ) -> Result<(), ServerFault>
        requires none { hold.old.served ≡ [] }
        requires sets { way ≡ Way.Sets → All IsSet hold.old.commands }
        ensures held { OnOk result (HasHeld (accesses hold.old.commands) hold.new.served (Some session.old) (Some session.new)) }
        ensures places { OnOk result (hold.new.places ≡ hold.old.places) }
    {
        let is_open = session.tlevel() > 0;
        match way {
            Way::Lone if !is_open => self.engine.hold_lone(self.rt, session, hold, turn),
            Way::Read if is_open => self.engine.hold_read(self.rt, session, hold),
            Way::Sets if is_open => session.hold_sets(hold),
            Way::Lone | Way::Read | Way::Sets => return Err(ServerFault::Missing),
        }
        Ok(())
    }

    // The same in a job's session.
    fn hold(
        &self,
        session: &mut Option<Session<B>>,
        way: Way,
        hold: &mut Hold,
        turn: &mut Turn,
    ) -> Result<(), ServerFault>
        requires none { hold.old.served ≡ [] }
        requires sets { way ≡ Way.Sets → All IsSet hold.old.commands }
        ensures held { OnOk result (HasHeld (accesses hold.old.commands) hold.new.served session.old session.new) }
        ensures places { OnOk result (hold.new.places ≡ hold.old.places) }
    {
        match session {
            Some(session) => self.hold_in(session, way, hold, turn),
            None => Err(ServerFault::Missing),
        }
    }
}

impl<'a, B: BoardName, R: Wait, G: Gate> Worker<'a, B, R, G> {
    /// Reads a line, and those behind it that are done in one hold with it, where no line is watched.
    pub(crate) fn read<'b>(
        &mut self,
        run: &mut JobRun<B>,
        job: Job,
        line: Line<'b>,
    ) -> Result<Asked<'b>, ServerFault>
        ensures asked { IfOk result (λ asked. IsAskedAt job line.entry asked self.new.hold) }
        ensures same { run.new ≡ run.old }
    {
        match request_for(self.alloc, job, line.text, &mut run.drafts) {
            Ok(Sentence::Access(first)) if !self.calls.gate.watches_lines() => {
                let way = Way::of(run.is_open(), first);
                let hold = &mut self.hold;
                gather(self.alloc, job, line, first, way, &mut run.drafts, hold)
            }
            Ok(sentence) => Ok(Asked::One(command_for(self.alloc, job, sentence, &mut run.drafts))),
            Err(refusal) => Ok(Asked::One(Err(refusal))),
        }
    }

    // Does the lines of the hold, where a session is there.
    fn serve_held<'b>(
        &mut self,
        run: &mut JobRun<B>,
        job: Job,
        line: Line<'b>,
        front: Front<'b>,
    ) -> Result<Cursor<'b>, ServerFault>
        requires { IsGathered job line front self.old.hold }
        ensures { IfOk result (λ behind. AdvancesWithin job line.entry behind run.old run.new) }
    {
        let turn = &mut self.turns.next;
        self.calls
            .hold(&mut run.sessions.open, front.way, &mut self.hold, turn)?;
        note_hold(&self.hold, &mut run.replies)?;
        let count = self.hold.len() as u64;
        Ok(Cursor {
            lines: front.rest,
            number: line.number.saturating_add(count),
        })
    }

    /// Does the lines of the hold, so that nobody comes between. The gate isn't told. Answers the place behind them.
    pub(crate) fn serve_hold<'b>(
        &mut self,
        run: &mut JobRun<B>,
        job: Job,
        line: Line<'b>,
        front: Front<'b>,
    ) -> Result<Cursor<'b>, ServerFault>
        requires { IsGathered job line front self.old.hold }
        ensures { IfOk result (λ behind. AdvancesWithin job line.entry behind run.old run.new) }
    {
        self.turns.note_writes(front.writes);
        self.begin(job, &mut run.sessions)?;
        self.serve_held(run, job, line, front)
    }

    // Begins a session's transaction anew, and does a block in it, so that nobody comes between.
    fn run_anew(
        &mut self,
        session: &mut Session<B>,
        commands: Vec<Command>,
        musts: &[bool],
    ) -> Result<SerialRun, ServerFault>
        requires { HaveNoHalt commands.items }
        ensures { IfOk result (λ ran. HasRunAnew musts.now commands.items ran (Some session.old) (Some session.new)) }
    {
        if session.tlevel() == 0 {
            drop(commands);
            return Err(ServerFault::Missing);
        }
        match self.calls.engine.trestart_serially(
            self.calls.rt,
            self.alloc,
            session,
            commands,
            musts,
            &mut self.turns.next,
        ) {
            Ok(ran) => Ok(ran),
            Err(_) => Err(ServerFault::Memory),
        }
    }

    // The same of a job's session.
    fn run_block_anew(
        &mut self,
        session: &mut Option<Session<B>>,
        commands: Vec<Command>,
        musts: &[bool],
    ) -> Result<SerialRun, ServerFault>
        requires { HaveNoHalt commands.items }
        ensures { IfOk result (λ ran. HasRunAnew musts.now commands.items ran session.old session.new) }
    {
        match session {
            Some(session) => self.run_anew(session, commands, musts),
            None => {
                drop(commands);
                Err(ServerFault::Missing)
            }
        }
    }

    // Begins an open transaction anew, by TRESTART.
    fn begin_anew(&self, session: &mut Session<B>) -> Result<(), ServerFault>
        ensures { OnOk result (BeganAnew session.old session.new) }
    {
        if session.tlevel() == 0 {
            return Err(ServerFault::Missing);
        }
        match self.calls.engine.trestart(self.calls.rt, session) {
            Ok(_) => Ok(()),
            Err(_) => Err(ServerFault::Memory),
        }
    }

    // Begins the transaction of a block anew, waits until the job has these names, or may wait no longer, and gives them
    // back, as the transaction begins anew once more.
    #[tactic(auto, using(crate::proofs::Waiting::waited))]
    fn wait_in(&self, session: &mut Session<B>, command: &LockCommand) -> Result<(), ServerFault>
        ensures { OnOk result (HasWaited command.now session.old session.new) }
    {
        self.begin_anew(session)?;
        let _had = self.calls.lock_untimed(session, command);
        self.begin_anew(session)?;
        Ok(())
    }

    // The same of a job's session.
    fn wait_for(
        &self,
        session: &mut Option<Session<B>>,
        command: &LockCommand,
    ) -> Result<(), ServerFault>
        ensures { OnOk result (HasWaitedFor command.now session.old session.new) }
    {
        match session {
            Some(session) => self.wait_in(session, command),
            None => Err(ServerFault::Missing),
        }
    }

    /// Begins an open transaction anew, and does the lines of its block behind its TSTART, so that nobody can overtake it.
    /// Answers the place behind the block; none where a LOCK without a timeout was blocked: then its names were waited
    /// for, and the block may be done again.
    pub(crate) fn try_serially<'b>(
        &mut self,
        run: &mut JobRun<B>,
        job: Job,
        begin: Cursor<'b>,
    ) -> Result<Option<Cursor<'b>>, ServerFault>
        ensures { IfOk result (λ ended. HasTriedAlone job begin.entry.lines.now ended run.old run.new) }
    {
        if !run.is_open() {
            return Err(ServerFault::Missing);
        }
        let mut drafts = Drafts::new(self.alloc);
        let block = block_of(self.alloc, job, begin.lines, &mut drafts)?;
        let Block {
            commands,
            places,
            musts,
            rest,
        } = block;
        self.turns.note_writes(writes_in(&commands));
        match self.run_block_anew(&mut run.sessions.open, commands, &musts) {
            Ok(SerialRun::Done(served)) => {
                let behind = note_block(&mut run.replies, begin.number, places, served, rest)?;
                Ok(Some(behind))
            }
            Ok(SerialRun::Blocked(place)) => {
                let command = lock_at(self.alloc, job, begin.lines, place, &mut drafts)?;
                self.wait_for(&mut run.sessions.open, &command)?;
                Ok(None)
            }
            Err(fault) => Err(fault),
        }
    }
}
