//! All that a reader gives.
ghost use Rattle.std.specs.Prelude.{◌≡◌, IfOk, IfSome, OnOk, IsErrOf};
ghost use Rattle.std.specs.Io.KnownBytes.{IsAtEnd};
ghost use Rattle.listing.specs.Bytes.{IsOneMore};

use crate::{Counted, ReadFault};
use std::alloc::{AllocError, Global};
use std::io::Read;
use thiserror::Error;

// How many bytes are asked for at a time.
const PIECE_BYTES: usize = 65536;

/// Why input wasn't read to its end. Nothing is kept of it.
#[derive(Clone, Copy, Debug, PartialEq, Eq, Error)]
pub enum InputFault {
    /// A call of the reader failed.
    #[error("cannot read input")]
    Read,
    /// Memory was refused.
    #[error("out of memory")]
    Memory,
}

/// All that a reader gives.
///
/// After a fault nothing is kept, nor are the pieces that were read: `Read` where a call of the reader failed, else
/// `Memory`, where memory was refused.
pub fn read_all<R: Read>(alloc: Global, reader: &mut Counted<R>) -> Result<Vec<u8>, InputFault>
    ensures all { IfOk result (λ text. IfSome (R.remaining reader.old.inner) (λ bytes. text.items ≡ bytes)) }
    ensures at_end { OnOk result (IsAtEnd (R.remaining reader.new.inner)) }
    ensures kept { OnOk result (reader.new.failures ≡ reader.old.failures) }
    ensures counted { IsErrOf result InputFault.Read → IsOneMore reader.old.failures reader.new.failures }
    ensures memory { IsErrOf result InputFault.Memory → reader.new.failures ≡ reader.old.failures }
{
    let mut text = Vec::new(alloc);
    let mut piece = [0; PIECE_BYTES];
    'pieces: for _ in 0..u64::MAX {
        let n = reader.read_some(&mut piece)?;
        if n == 0 {
            return Ok(text);
        }
        text.extend_from_slice(&piece[..n])?;
    }
    Err(InputFault::Memory)
}

impl From<AllocError> for InputFault {
    ghost use Rattle.std.specs.Prelude.{◌≡◌};
    ghost use Rattle.listing.specs.declared.whole.InputFault.{InputFault};

    ghost from_gives = { λ _ fault. fault ≡ InputFault.Memory };

    fn from(_: AllocError) -> InputFault {
        InputFault::Memory
    }
}

impl From<ReadFault> for InputFault {
    ghost use Rattle.std.specs.Prelude.{◌≡◌};
    ghost use Rattle.listing.specs.declared.whole.InputFault.{InputFault};

    ghost from_gives = { λ _ fault. fault ≡ InputFault.Read };

    fn from(_: ReadFault) -> InputFault {
        InputFault::Read
    }
}
