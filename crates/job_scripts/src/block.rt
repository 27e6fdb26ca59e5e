//! Blocks: lines that are done under one hold of an engine's lock.
ghost use Rattle.std.specs.Prelude.{◌≡◌, ◌≢◌, ◌≤◌, ◌++◌, ◌∷◌, [], true, ℕ, List, Option, None, Some, length, IfOk, OnOk};
ghost use Rattle.std.specs.Vec.Iter.{into_iter_items};
ghost use Rattle.refusal.specs.declared.Refusal.{Refusal};
ghost use Rattle.std.specs.List.{All};
ghost use Rattle.collation.specs.Limits.{most_levels};
ghost use Rattle.command.specs.declared.request.Command.{Command};
ghost use Rattle.command.specs.declared.request.Reply.{Reply};
ghost use Rattle.job_scripts.specs.Reports.{and_replies};
ghost use Rattle.job_scripts.specs.Lines.{lent_lines, Asks, IsRefusedAs};
ghost use Rattle.job_scripts.specs.Blocks.{level_after as level_left, IsOneBlock, EndsBlock, in_place, AreInFront};
ghost use Rattle.job_scripts.specs.Timeouts.{timeout_in};

use crate::lines::{next_line, read_for};
use crate::replies::Replies;
use crate::timeout::timeout_of;
use collation::{Job, MOST_LEVELS};
use command::{Command, Reply};
use refusal::Refusal;
use script::Drafts;
use std::alloc::{AllocError, Global};
use std::vec::IntoIter;

// Whether a LOCK has to have its names, of this line: where that has no timeout.
fn must_of(line: &[u8]) -> bool
    ensures { timeout_in line.now ≡ None → result ≡ true }
{
    match timeout_of(line) {
        Some(_) => false,
        None => true,
    }
}

/// Lines of a job, in order, and the lines that follow.
#[derive(Debug, Drop)]
pub struct Block<'a> {
    /// The commands of the lines that can be read, in order. None is HALT.
    pub commands: Vec<Command>,
    /// For each line its refusal, or none where it has a command.
    pub places: Vec<Option<Refusal>>,
    /// For each command whether, if it is a LOCK, it has to have its names, since its line has no timeout.
    pub musts: Vec<bool>,
    /// The lines that follow.
    pub rest: &'a [&'a [u8]],
}

impl<'a> Block<'a> {
    // No line, in front of these.
    fn new(alloc: Global, lines: &'a [&'a [u8]]) -> Block<'a>
        ensures { (result.commands.items ≡ []) × ((result.places.items ≡ []) × ((result.musts.items ≡ []) × (result.rest.now ≡ lines.now))) }
    {
        Block {
            commands: Vec::new(alloc),
            places: Vec::new(alloc),
            musts: Vec::new(alloc),
            rest: lines,
        }
    }

    // One line more, with its command.
    #[tactic(auto, using(crate::specs::laws::InFront::command_in_front))]
    fn add(&mut self, command: Command, line: &[u8], rest: &'a [&'a [u8]]) -> Result<(), AllocError>
        ensures commands { OnOk result (self.new.commands.items ≡ self.old.commands.items ++ command ∷ []) }
        ensures places { OnOk result (self.new.places.items ≡ self.old.places.items ++ None ∷ []) }
        ensures rest { OnOk result (self.new.rest.now ≡ rest.entry.now) }
        ensures asked { OnOk result ((job : ℕ) (all : List (List ℕ)) → AreInFront job all (lent_lines self.old.rest.now) self.old.places.items self.old.commands.items self.old.musts.items → lent_lines self.old.rest.now ≡ line.now ∷ lent_lines rest.entry.now
            → Asks job line.now command → AreInFront job all (lent_lines self.new.rest.now) self.new.places.items self.new.commands.items self.new.musts.items) }
    {
        self.commands.push(command)?;
        self.places.push(None)?;
        self.musts.push(must_of(line))?;
        self.rest = rest;
        Ok(())
    }

    // One line more, which is refused.
    fn refuse(
        &mut self,
        refusal: Refusal,
        line: &[u8],
        rest: &'a [&'a [u8]],
    ) -> Result<(), AllocError>
        ensures commands { self.new.commands.items ≡ self.old.commands.items }
        ensures places { OnOk result (self.new.places.items ≡ self.old.places.items ++ Some refusal ∷ []) }
        ensures rest { OnOk result (self.new.rest.now ≡ rest.entry.now) }
        ensures asked { OnOk result ((job : ℕ) (all : List (List ℕ)) → AreInFront job all (lent_lines self.old.rest.now) self.old.places.items self.old.commands.items self.old.musts.items → lent_lines self.old.rest.now ≡ line.now ∷ lent_lines rest.entry.now
            → IsRefusedAs job line.now refusal → AreInFront job all (lent_lines self.new.rest.now) self.new.places.items self.new.commands.items self.new.musts.items) }
    {
        self.places.push(Some(refusal))?;
        self.rest = rest;
        Ok(())
    }
}

// The level of a transaction after a command in it.
fn level_after(level: u64, command: &Command) -> u64
    requires { level ≤ most_levels }
    ensures left { result ≡ level_left command.now level }
    ensures few { result ≤ most_levels }
{
    match command {
        Command::Start => (level + 1).min(MOST_LEVELS),
        Command::Commit => level.saturating_sub(1),
        Command::Rollback | Command::Halt => 0,
        Command::Restart => 1,
        Command::Access(_) | Command::Lock(_) | Command::Level | Command::Restarts => level,
    }
}

/// The block of a job's lines at the front of a text, in a transaction at level 1 that has done nothing. It ends with the
/// line that leaves no transaction open, as if neither memory nor stamps were refused to a command, and not before:
/// without one it goes on to a HALT, or to the end.
///
/// `AllocError` where memory for the block is refused. A line that can't be read, also for want of memory, or that is
/// another job's, has its refusal in its place.
#[tactic(auto, using(crate::specs::laws::InFront::none_in_front, crate::proofs::Blocks::ends_at_the_end, crate::proofs::Blocks::ends_at_halt, crate::proofs::Blocks::ends_closed))]
pub fn block_of<'a>(
    alloc: Global,
    job: Job,
    lines: &'a [&'a [u8]],
    drafts: &mut Drafts,
) -> Result<Block<'a>, AllocError>
    ensures goes_on { IfOk result (λ block. All (λ (c : Command). c ≢ Command.Halt) block.commands.items) }
    ensures one { IfOk result (λ block. IsOneBlock 1 block.commands.items) }
    ensures ended { IfOk result (λ block. EndsBlock job block.commands.items (lent_lines block.rest.now)) }
    ensures rest { IfOk result (λ block. length block.rest.now ≤ length lines.now) }
    ensures asked { IfOk result (λ block. AreInFront job (lent_lines lines.now) (lent_lines block.rest.now) block.places.items block.commands.items block.musts.items) }
{
    let mut block = Block::new(alloc, lines);
    let mut level = 1;
    while level > 0 {
        let Some((line, rest)) = next_line(block.rest) else {
            return Ok(block);
        };
        match read_for(alloc, job, line, drafts) {
            Ok(Command::Halt) => return Ok(block),
            Ok(command) => {
                level = level_after(level, &command);
                block.add(command, line, rest)?;
            }
            Err(refusal) => block.refuse(refusal, line, rest)?,
        }
    }
    Ok(block)
}

// The reply in a line's place: its refusal, or the next reply.
fn push_for(
    place: &Option<Refusal>,
    served: &mut IntoIter<Reply, Global>,
    replies: &mut Replies,
) -> Result<(), AllocError>
    ensures { OnOk result ((reply : Reply) × ((replies.new ≡ and_replies replies.old (reply ∷ [])) × ((places : List (Option Refusal)) → in_place (place.now ∷ places) (into_iter_items served.old) ≡ reply ∷ in_place places (into_iter_items served.new)))) }
{
    match place {
        Some(refusal) => replies.push_refused(*refusal),
        None => {
            let reply = served.next().ok_or(AllocError)?;
            let pushed = replies.push(&reply);
            drop(reply);
            pushed
        }
    }
}

/// Puts the replies to a block's commands behind those before it, and each refused line's refusal in its place.
///
/// `AllocError` where memory is refused, or there are fewer replies than commands.
pub fn push_in_place(
    places: &[Option<Refusal>],
    served: Vec<Reply>,
    replies: &mut Replies,
) -> Result<(), AllocError>
    ensures { OnOk result (replies.new ≡ and_replies replies.old (in_place places.now served.items)) }
{
    let mut served = served.into_iter();
    for place in places {
        push_for(place, &mut served, replies)?;
    }
    Ok(())
}
