//! Why a text wasn't loaded.
use refusal::Refusal;
use script::Expected;

/// A line that asks for no setting.
#[derive(Clone, Copy, Debug, PartialEq, Eq)]
pub struct FaultyLine {
    /// Lines are counted from 1, headers and empty ones too, up to 2^64 - 1.
    pub number: u64,
    /// The place of a byte, counted from 1, or one more than there are bytes.
    pub column: usize,
    /// Why the line sets nothing.
    pub refusal: Refusal,
    /// What should stand there.
    pub expected: Expected,
}

/// Why a text wasn't loaded.
#[derive(Clone, Copy, Debug, PartialEq, Eq)]
pub enum LoadFault {
    /// The first line that asks for no setting.
    Line(FaultyLine),
    /// Memory was refused.
    Memory,
}
