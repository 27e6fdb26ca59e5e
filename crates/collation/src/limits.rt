//! The limits, each once. `specs/Limits.antt` names them for contracts.

pub use canonic_number::LONGEST_SUBSCRIPT;

/// How many bytes a name may have.
pub const LONGEST_NAME: usize = 31;

/// How many subscripts a reference may have.
pub const MOST_SUBSCRIPTS: usize = 31;

/// How many bytes a value or a default may have, where a line is read.
pub const LONGEST_VALUE: usize = 32767;

/// The highest job.
pub const MOST_JOBS: u64 = 4096;

/// How many levels a transaction may have.
pub const MOST_LEVELS: u64 = 127;

/// How many data commands a transaction may have.
pub const MOST_COMMANDS: u64 = 65535;
