//! How a script went.
ghost use Rattle.std.specs.Prelude.{◌≡◌, ◌||◌, []};
ghost use Rattle.serial.specs.Memory.{is_out_of_memory};
ghost use Rattle.command.specs.Replies.{is_refused};
ghost use Rattle.script_run.specs.Output.{outcome_of, with_reply};

use command::Reply;
use refusal::Refusal;

/// How a script went.
#[derive(Clone, Copy, Debug, PartialEq, Eq)]
pub struct Outcome {
    /// Whether one of the replies is a refusal.
    pub refused: bool,
    /// Whether one of them is `OutOfMemory`. Where none is, the text is a function of the bytes read; where one is, it
    /// depends on how much memory was at hand.
    pub wanting: bool,
}

fn either(a: bool, b: bool) -> bool
    ensures { result ≡ (a || b) }
{
    a || b
}

pub(crate) fn is_refusal(reply: &Reply) -> bool
    ensures { result ≡ is_refused reply.now }
{
    matches!(reply, Reply::Refused(_))
}

pub(crate) fn is_wanting(reply: &Reply) -> bool
    ensures { result ≡ is_out_of_memory reply.now }
{
    matches!(reply, Reply::Refused(Refusal::OutOfMemory))
}

impl Outcome {
    // Of no reply yet.
    pub(crate) fn new() -> Outcome
        ensures { result ≡ outcome_of [] }
    {
        Outcome {
            refused: false,
            wanting: false,
        }
    }

    // With one reply more.
    pub(crate) fn with(self, reply: &Reply) -> Outcome
        ensures { result ≡ with_reply reply.now self }
    {
        Outcome {
            refused: either(self.refused, is_refusal(reply)),
            wanting: either(self.wanting, is_wanting(reply)),
        }
    }
}
