//! What was expected where a line is at fault.
ghost use Rattle.std.specs.Prelude.{◌≡◌};
ghost use Rattle.script.specs.Expected as expected;

use refusal::Refusal;

/// What should stand where a refused line is at fault.
#[derive(Clone, Copy, Debug, PartialEq, Eq)]
pub enum Expected {
    /// The digits of a job.
    Job,
    /// A blank.
    Blank,
    /// A blank and a reference, after the word of a command.
    Operand,
    /// The word of a command, or `$` and that of a function.
    Command,
    /// The word of a function, after its `$`.
    Function,
    /// A reference, with its caret.
    Reference,
    /// A name word.
    Name,
    /// A lock name.
    LockName,
    /// The literal of a subscript.
    Subscript,
    /// The literal of a value or default.
    Value,
    /// The sign between what is set and its value or source.
    Equals,
    /// The parenthesis after a function's word.
    Opening,
    /// The parenthesis after a function's operands.
    Closing,
    /// One more, or the end of a list.
    CommaOrClosing,
    /// A literal of 1 or -1.
    Direction,
    /// A literal of a number.
    Number,
    /// The letters of `^$GLOBAL`.
    Global,
    /// The digits of a timeout.
    Timeout,
    /// Nothing more.
    End,
    /// What the rule of a refusal asks for, in a line that is of the grammar.
    Rule(Refusal),
}

impl Expected {
    /// A short text of it.
    pub fn text(self) -> &'static str
        ensures { result.now ≡ expected.expected_text self }
    {
        match self {
            Expected::Job => "a job, 1 to 4096, first in the line",
            Expected::Blank => "a blank",
            Expected::Operand => "a blank and ^ and a name",
            Expected::Command =>
                "SET, KILL, KVALUE, KSUBSCRIPTS, MERGE, LOCK, TSTART, TCOMMIT, TROLLBACK, TRESTART or HALT, or $ and a function",
            Expected::Function => "DATA, GET, INCREMENT, ORDER, QUERY, TLEVEL or TRESTART",
            Expected::Reference => "^ and a name",
            Expected::Name => "a name",
            Expected::LockName => "a lock name",
            Expected::Subscript =>
                "a number, \"text\" with both quotes or $C(0 to 255), without a blank",
            Expected::Value =>
                "a number, \"text\" with both quotes or $C(0 to 255), without a blank",
            Expected::Equals => "= without a blank",
            Expected::Opening => "(",
            Expected::Closing => ")",
            Expected::CommaOrClosing => "a comma or )",
            Expected::Direction => "1 or -1",
            Expected::Number => "a number",
            Expected::Global => "GLOBAL",
            Expected::Timeout => "one to nine digits",
            Expected::End => "the end of the line",
            Expected::Rule(refusal) => rule_text(refusal),
        }
    }
}

// What a line of the grammar lacks that is refused so.
fn rule_text(refusal: Refusal) -> &'static str
    ensures { result.now ≡ expected.rule_text refusal }
{
    match refusal {
        Refusal::BadLine => "a line of the grammar",
        Refusal::BadName => "a letter or %, then letters and digits, at most 31 bytes",
        Refusal::EmptySubscript => "a subscript that isn't empty",
        Refusal::SubscriptTooLong => "a subscript of at most 255 bytes",
        Refusal::TooManySubscripts => "at most 31 subscripts",
        Refusal::ValueTooLong => "a value of at most 32767 bytes",
        Refusal::NeedSubscript => "a subscript",
        Refusal::MergeOverlap => "two references of which neither lies under the other",
        Refusal::NoTransaction => "an open transaction, which TSTART begins",
        Refusal::LevelTooDeep => "a level below 127",
        Refusal::LockCountFull => "a count below 65535",
        Refusal::BadJob => "a job, 1 to 4096",
        Refusal::TransactionTooLong => "at most 65535 data commands in a transaction",
        Refusal::OutOfMemory => "more memory",
        Refusal::StampsUsedUp => "a journal that isn't full",
        Refusal::Gone => "a stamp that is kept",
        Refusal::Again => "another try",
        Refusal::Ahead => "a stamp that has come",
        Refusal::SumTooLong => "a sum of at most 32767 bytes",
    }
}
