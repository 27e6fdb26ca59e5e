//! A reply as clauses see it: without bytes.
ghost use Rattle.std.specs.Prelude.{◌≡◌};
ghost use Rattle.command.specs.declared.access.Answer.{Answer};
ghost use Rattle.command.specs.declared.request.Reply.{Reply};

use command::{Answer, Reply};
use std::alloc::Global;
use std::marker::Model;
use std::snapshot::Snapshot;

/// A reply that was written, or an answer, or a value.
#[derive(Drop)]
pub(crate) struct Seen {
    is_reply: Snapshot<bool>,
    reply: Snapshot<Reply>,
    is_answer: Snapshot<bool>,
    answer: Snapshot<Answer>,
    value: Snapshot<Vec<u8>>,
}

impl Model for Seen {
    ghost use Rattle.command.specs.declared.request.Reply.{Reply};
    ghost use Rattle.job_scripts.specs.Seen.{seen_as};

    ghost Value = { Reply };

    ghost view = { λ s. seen_as s.is_reply.value s.reply.value s.is_answer.value s.answer.value s.value.value.items };
}

impl Seen {
    /// This reply.
    #[inline(always)]
    pub(crate) fn reply(alloc: Global, reply: &Reply) -> Seen
        ensures { result ≡ reply.now }
    {
        Seen {
            is_reply: Snapshot::of(&true),
            reply: Snapshot::of(reply),
            is_answer: Snapshot::of(&false),
            answer: Snapshot::of(&Answer::Done),
            value: Snapshot::of(&Vec::new(alloc)),
        }
    }

    /// The reply that is this answer.
    #[inline(always)]
    pub(crate) fn answer(alloc: Global, answer: &Answer) -> Seen
        ensures { result ≡ Reply.Answered answer.now }
    {
        Seen {
            is_reply: Snapshot::of(&false),
            reply: Snapshot::of(&Reply::Finished),
            is_answer: Snapshot::of(&true),
            answer: Snapshot::of(answer),
            value: Snapshot::of(&Vec::new(alloc)),
        }
    }

    /// The reply that is this value.
    #[inline(always)]
    pub(crate) fn value(value: &Vec<u8>) -> Seen
        ensures { result ≡ Reply.Answered (Answer.Value value.now.items) }
    {
        Seen {
            is_reply: Snapshot::of(&false),
            reply: Snapshot::of(&Reply::Finished),
            is_answer: Snapshot::of(&false),
            answer: Snapshot::of(&Answer::Done),
            value: Snapshot::of(value),
        }
    }
}
