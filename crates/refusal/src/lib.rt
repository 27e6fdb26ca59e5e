//! Why a call is refused: one enum for every crate above.
//!
//! A refusal has a number and a name, and is printed as both: `7 NeedSubscript`.
//! Callers see these as `refusal_number`, `name_of` and `refusal_text` of `specs/Refusal.antt`.
//! After a refusal the state is what it was before the call, but where a call says otherwise.
#![tactic(auto)]

ghost use Rattle.std.specs.Prelude.{◌≡◌};
ghost use Rattle.refusal.specs.Refusal.{refusal_number, name_of};

use std::alloc::{AllocError, AllocFailed};
use std::error::Error;
use std::fmt;

/// A refusal, by its cause. The discriminant is the number that is printed.
#[derive(Clone, Copy, Debug, PartialEq, Eq, Hash)]
pub enum Refusal {
    /// The line isn't of the grammar of lines.
    BadLine = 1,
    /// A name isn't a percent sign or a letter and then letters and digits, at most 31 bytes.
    BadName = 2,
    /// A subscript is empty where it may not be.
    EmptySubscript = 3,
    /// A subscript has more than 255 bytes.
    SubscriptTooLong = 4,
    /// A reference has more than 31 subscripts, written or made by MERGE.
    TooManySubscripts = 5,
    /// A value or a default has more than 32,767 bytes.
    ValueTooLong = 6,
    /// `$ORDER` of a reference without subscripts.
    NeedSubscript = 7,
    /// MERGE where one reference is a proper descendant of the other.
    MergeOverlap = 8,
    /// TCOMMIT, TROLLBACK or TRESTART where no transaction is open.
    NoTransaction = 9,
    /// TSTART at level 127.
    LevelTooDeep = 10,
    /// A lock's count would pass 65,535.
    LockCountFull = 11,
    /// A job isn't 1 to 4,096, or has a session already.
    BadJob = 12,
    /// A transaction would hold more than 65,535 data commands.
    TransactionTooLong = 13,
    /// Memory was asked for and refused.
    OutOfMemory = 14,
    /// The journal would pass 2^64 - 1 units.
    StampsUsedUp = 15,
    /// A stamp lies below the oldest that the store still keeps.
    Gone = 16,
    /// The collector's horizon passed the start while it was taken: try again.
    Again = 17,
    /// A stamp or a horizon lies after the present.
    Ahead = 18,
    /// The sum of `$INCREMENT` would have more than 32,767 bytes.
    SumTooLong = 19,
}

impl Refusal {
    /// The number that is printed, 1 to 19.
    pub fn number(self) -> u8
        ensures { result ≡ refusal_number self }
    {
        self as u8
    }

    /// The name that is printed: that of the variant.
    pub fn name(self) -> &'static str
        ensures { result.now ≡ name_of self }
    {
        match self {
            Refusal::BadLine => "BadLine",
            Refusal::BadName => "BadName",
            Refusal::EmptySubscript => "EmptySubscript",
            Refusal::SubscriptTooLong => "SubscriptTooLong",
            Refusal::TooManySubscripts => "TooManySubscripts",
            Refusal::ValueTooLong => "ValueTooLong",
            Refusal::NeedSubscript => "NeedSubscript",
            Refusal::MergeOverlap => "MergeOverlap",
            Refusal::NoTransaction => "NoTransaction",
            Refusal::LevelTooDeep => "LevelTooDeep",
            Refusal::LockCountFull => "LockCountFull",
            Refusal::BadJob => "BadJob",
            Refusal::TransactionTooLong => "TransactionTooLong",
            Refusal::OutOfMemory => "OutOfMemory",
            Refusal::StampsUsedUp => "StampsUsedUp",
            Refusal::Gone => "Gone",
            Refusal::Again => "Again",
            Refusal::Ahead => "Ahead",
            Refusal::SumTooLong => "SumTooLong",
        }
    }
}

impl fmt::Display for Refusal {
    ghost use Rattle.std.specs.Prelude.{Some};
    ghost use Rattle.refusal.specs.Refusal.{refusal_text};

    ghost output = { λ refusal. Some (refusal_text refusal) };

    fn fmt<W: fmt::Write>(&self, f: &mut fmt::Formatter<W>) -> fmt::Result {
        let number = self.number();
        let name = self.name();
        write!(f, "{number} {name}")
    }
}

impl Error for Refusal {}

impl From<AllocError> for Refusal {
    ghost use Rattle.std.specs.Prelude.{◌≡◌};
    ghost use Rattle.refusal.specs.declared.Refusal.{Refusal};

    ghost from_gives = { λ _ refusal. refusal ≡ Refusal.OutOfMemory };

    fn from(_: AllocError) -> Refusal {
        Refusal::OutOfMemory
    }
}

impl<T: Drop> From<AllocFailed<T>> for Refusal {
    ghost use Rattle.std.specs.Prelude.{◌≡◌};
    ghost use Rattle.refusal.specs.declared.Refusal.{Refusal};

    ghost from_gives = { λ _ refusal. refusal ≡ Refusal.OutOfMemory };

    fn from(_failed: AllocFailed<T>) -> Refusal {
        Refusal::OutOfMemory
    }
}
