//! What a call answers.
ghost use Rattle.std.specs.Prelude.{◌≡◌, Some, IfSome};
ghost use Rattle.refusal.specs.Refusal.{refusal_number};
ghost use Rattle.embedded.specs.Outcomes.{outcome_number, outcome_name, outcome_of as outcome_of_reply};

use command::Reply;
use refusal::Refusal;

/// How a call went. Each has a number and a name (`specs/Outcomes.antt`).
#[derive(Clone, Copy, Debug, PartialEq, Eq)]
pub enum Outcome {
    /// It is done. Number 0.
    Done,
    /// It was refused, and nothing has changed. The refusal's own number, 1 to 19.
    Refused(Refusal),
    /// There is no engine: none was made, or it was ended. Number 32.
    NoEngine,
    /// An engine is there already. Number 33.
    EngineThere,
    /// The buffer is too short. What it was to hold is kept, and the length that is wanted is told. Number 34.
    BufferTooShort,
    /// Memory was refused for a reply's text, or for the key that $QUERY found. The line or step is done, and its reply
    /// is kept. Number 35.
    ReplyKept,
    /// No line or step was run yet. Number 36.
    NoReply,
    /// No node is left, to list, for $QUERY or for a walk. Number 37.
    AtEnd,
    /// No outcome has that number. Number 38.
    UnknownNumber,
    /// There is no key: none was made, or it was ended. Number 39.
    NoKey,
    /// The transaction begins anew: what it had done is dropped. Number 40.
    Restarted,
    /// The reference has no value. Number 41.
    NoValue,
    /// The job has an open transaction already. Number 42.
    TransactionOpen,
}

impl Outcome {
    /// The number that a caller gets.
    pub fn number(self) -> u32
        ensures { result ≡ outcome_number self }
    {
        match self {
            Outcome::Done => 0,
            Outcome::Refused(refusal) => refusal.number() as u32,
            Outcome::NoEngine => 32,
            Outcome::EngineThere => 33,
            Outcome::BufferTooShort => 34,
            Outcome::ReplyKept => 35,
            Outcome::NoReply => 36,
            Outcome::AtEnd => 37,
            Outcome::UnknownNumber => 38,
            Outcome::NoKey => 39,
            Outcome::Restarted => 40,
            Outcome::NoValue => 41,
            Outcome::TransactionOpen => 42,
        }
    }

    /// The name: that of the variant, or of the refusal.
    pub fn name(self) -> &'static str
        ensures { result.now ≡ outcome_name self }
    {
        match self {
            Outcome::Done => "Done",
            Outcome::Refused(refusal) => refusal.name(),
            Outcome::NoEngine => "NoEngine",
            Outcome::EngineThere => "EngineThere",
            Outcome::BufferTooShort => "BufferTooShort",
            Outcome::ReplyKept => "ReplyKept",
            Outcome::NoReply => "NoReply",
            Outcome::AtEnd => "AtEnd",
            Outcome::UnknownNumber => "UnknownNumber",
            Outcome::NoKey => "NoKey",
            Outcome::Restarted => "Restarted",
            Outcome::NoValue => "NoValue",
            Outcome::TransactionOpen => "TransactionOpen",
        }
    }

    /// How the call went whose reply this is: refused, begun anew, or done.
    pub fn of(reply: &Reply) -> Outcome
        ensures { result ≡ outcome_of_reply reply.now }
    {
        match reply {
            Reply::Refused(refusal) => Outcome::Refused(*refusal),
            Reply::Restarted(_) => Outcome::Restarted,
            _ => Outcome::Done,
        }
    }

    /// The one with this number, where there is one.
    pub fn of_number(number: u32) -> Option<Outcome>
        ensures number { IfSome result (λ outcome. outcome_number outcome ≡ number) }
        ensures known { (outcome : Outcome) → outcome_number outcome ≡ number → result ≡ Some outcome }
    {
        match number {
            0 => Some(Outcome::Done),
            32 => Some(Outcome::NoEngine),
            33 => Some(Outcome::EngineThere),
            34 => Some(Outcome::BufferTooShort),
            35 => Some(Outcome::ReplyKept),
            36 => Some(Outcome::NoReply),
            37 => Some(Outcome::AtEnd),
            38 => Some(Outcome::UnknownNumber),
            39 => Some(Outcome::NoKey),
            40 => Some(Outcome::Restarted),
            41 => Some(Outcome::NoValue),
            42 => Some(Outcome::TransactionOpen),
            _ => match refusal_of(number) {
                Some(refusal) => Some(Outcome::Refused(refusal)),
                None => None,
            },
        }
    }
}

// The refusal with this number.
fn refusal_of(number: u32) -> Option<Refusal>
    ensures number { IfSome result (λ refusal. refusal_number refusal ≡ number) }
    ensures known { (refusal : Refusal) → refusal_number refusal ≡ number → result ≡ Some refusal }
{
    match number {
        1 => Some(Refusal::BadLine),
        2 => Some(Refusal::BadName),
        3 => Some(Refusal::EmptySubscript),
        4 => Some(Refusal::SubscriptTooLong),
        5 => Some(Refusal::TooManySubscripts),
        6 => Some(Refusal::ValueTooLong),
        7 => Some(Refusal::NeedSubscript),
        8 => Some(Refusal::MergeOverlap),
        9 => Some(Refusal::NoTransaction),
        10 => Some(Refusal::LevelTooDeep),
        11 => Some(Refusal::LockCountFull),
        12 => Some(Refusal::BadJob),
        13 => Some(Refusal::TransactionTooLong),
        14 => Some(Refusal::OutOfMemory),
        15 => Some(Refusal::StampsUsedUp),
        16 => Some(Refusal::Gone),
        17 => Some(Refusal::Again),
        18 => Some(Refusal::Ahead),
        19 => Some(Refusal::SumTooLong),
        _ => None,
    }
}
