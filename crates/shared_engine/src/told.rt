//! What the lines of a hold were told, side by side.
ghost use Rattle.std.specs.Prelude.{◌≡◌, ◌≤◌, ◌+◌, ◌∷◌, ◌++◌, [], ℕ, IfNone, IfSome, OnOk, OnErr};
ghost use Rattle.command.specs.declared.access.Answer.TheVariants.{Done as done_answer};
ghost use Rattle.command.specs.declared.request.Reply.TheVariants.{Answered};
ghost use Rattle.shared_engine.specs.Blocks.{said};
ghost use Rattle.shared_engine.specs.Holds.{done_tag, got_tag, reply_told};

use command::Answer;
use refusal::Refusal;
use std::alloc::{AllocError, Global};
use std::marker::Model;

/// What a line was told.
#[derive(Clone, Copy, Debug)]
pub(crate) enum Tag {
    /// Its command is done.
    Done,
    /// The next value, of so many bytes.
    Value(usize),
    /// The next of the other answers.
    Answer,
    /// A refusal.
    Refused(Refusal),
}

/// What a line was told, lent from where it lies. What each means: `reply_told` of `specs/Holds.antt`.
#[derive(Clone, Copy, Debug)]
pub enum Told<'a> {
    /// Its command is done.
    Done,
    /// A value.
    Value(&'a [u8]),
    /// Another answer.
    Answer(&'a Answer),
    /// A refusal.
    Refused(Refusal),
}

/// What commands were told, in order. It is seen as their replies, and as how many more there is room for.
#[derive(Drop)]
pub(crate) struct Tolds {
    pub(crate) tags: Vec<Tag>,
    pub(crate) values: Vec<u8>,
    pub(crate) answers: Vec<Answer>,
}

impl Model for Tolds {
    ghost use Rattle.std.specs.Prelude.{◌-◌, length, vec_capacity};
    ghost use Rattle.shared_engine.specs.Holds.{Telling, telling, served_of, AreTold};
    ghost use Rattle.shared_engine.specs.Codes.{telling_code};

    ghost Value = { Telling };

    ghost coded = { telling_code };

    ghost view = { λ t. telling (served_of t.tags.items t.values.items t.answers.items) (vec_capacity t.tags - length t.tags.items) (vec_capacity t.answers - length t.answers.items) };

    ghost invariant = { λ t. AreTold t.tags.items t.values.items t.answers.items };
}

// More room for values than this is given back.
const MOST_VALUES: usize = 65536;

// What a command that answers `Done` alone is told.
#[inline(always)]
fn tag_of_done(tried: Result<(), Refusal>) -> Tag
    ensures { result ≡ done_tag tried }
{
    match tried {
        Ok(()) => Tag::Done,
        Err(refusal) => Tag::Refused(refusal),
    }
}

/// What a $GET is told.
#[inline(always)]
pub(crate) fn tag_of_got(tried: Result<usize, Refusal>) -> Tag
    ensures { result ≡ got_tag tried }
{
    match tried {
        Ok(size) => Tag::Value(size),
        Err(refusal) => Tag::Refused(refusal),
    }
}

impl Tolds {
    /// No reply, and no room. Takes no memory.
    pub(crate) fn new(alloc: Global) -> Tolds
        ensures { result.served ≡ [] }
    {
        Tolds {
            tags: Vec::new(alloc),
            values: Vec::new(alloc),
            answers: Vec::new(alloc),
        }
    }

    /// No reply any more, and room for so many.
    ///
    /// `AllocError` where there is none for them.
    pub(crate) fn begin(&mut self, alloc: Global, most: usize) -> Result<(), AllocError>
        ensures none { self.new.served ≡ [] }
        ensures room { OnOk result (most ≤ self.new.room) }
    {
        self.tags.clear();
        self.answers.clear();
        if self.values.capacity() > MOST_VALUES {
            self.values = Vec::new(alloc);
        } else {
            self.values.clear();
        }
        self.tags.reserve(most)
    }

    /// Room for one answer more than so many other ones.
    ///
    /// `AllocError` where there is none for them.
    pub(crate) fn reserve_answer(&mut self, others: usize) -> Result<(), AllocError>
        ensures same { (self.new.served ≡ self.old.served) × (self.new.room ≡ self.old.room) }
        ensures room { OnOk result (others + 1 ≤ self.new.answers) }
        ensures kept { self.old.answers ≤ self.new.answers }
    {
        match others.checked_add(1) {
            Some(most) => self.answers.reserve(most),
            None => Err(AllocError),
        }
    }

    /// One reply more, to a command that answers `Done` alone.
    #[inline(always)]
    pub(crate) fn push_done(&mut self, tried: Result<(), Refusal>)
        requires { 1 ≤ self.old.room }
        ensures served { self.new.served ≡ self.old.served ++ said (λ _. Answered done_answer) tried ∷ [] }
        ensures rest { (self.new.room + 1 ≡ self.old.room) × (self.new.answers ≡ self.old.answers) }
    {
        self.tags.push_reserved(tag_of_done(tried));
    }

    /// One reply more, to another data command.
    #[inline(always)]
    pub(crate) fn push_answered(&mut self, tried: Result<Answer, Refusal>)
        requires { (1 ≤ self.old.room) × (1 ≤ self.old.answers) }
        ensures served { self.new.served ≡ self.old.served ++ said Answered tried ∷ [] }
        ensures rest { (self.new.room + 1 ≡ self.old.room) × (self.old.answers ≤ self.new.answers + 1) }
    {
        match tried {
            Ok(answer) => {
                self.answers.push_reserved(answer);
                self.tags.push_reserved(Tag::Answer);
            }
            Err(refusal) => self.tags.push_reserved(Tag::Refused(refusal)),
        }
    }

    /// The replies, lent in order.
    pub(crate) fn served(&self) -> Served<'_>
        ensures { result ≡ self.now.served }
    {
        Served {
            tags: self.tags.as_slice(),
            values: self.values.as_slice(),
            answers: self.answers.as_slice(),
        }
    }
}

/// What the lines of a hold that have a command were told, lent in order. It is seen as the replies that are left.
#[derive(Drop)]
pub struct Served<'a> {
    tags: &'a [Tag],
    values: &'a [u8],
    answers: &'a [Answer],
}

impl<'a> Model for Served<'a> {
    ghost use Rattle.std.specs.Prelude.{List};
    ghost use Rattle.command.specs.declared.request.Reply.{Reply};
    ghost use Rattle.shared_engine.specs.Holds.{served_of, AreTold};

    ghost Value = { List Reply };

    ghost view = { λ s. served_of s.tags.now s.values.now s.answers.now };

    ghost invariant = { λ s. AreTold s.tags.now s.values.now s.answers.now };
}

impl<'a> Served<'a> {
    /// What the next of these lines was told; none behind the last.
    #[inline(always)]
    pub fn next(&mut self) -> Option<Told<'a>>
        ensures told { IfSome result (λ told. self.old ≡ reply_told told ∷ self.new) }
        ensures end { IfNone result (self.old ≡ []) }
        ensures stays { IfNone result (self.new ≡ []) }
    {
        let [tag, tags @ ..] = self.tags else {
            return None;
        };
        self.tags = tags;
        match *tag {
            Tag::Done => Some(Told::Done),
            Tag::Value(size) => {
                let (value, values) = self.values.split_at(size);
                self.values = values;
                Some(Told::Value(value))
            }
            Tag::Answer => {
                let [answer, answers @ ..] = self.answers else {
                    unreachable!();
                };
                self.answers = answers;
                Some(Told::Answer(answer))
            }
            Tag::Refused(refusal) => Some(Told::Refused(refusal)),
        }
    }
}
