//! The listing of a view.
ghost use Rattle.std.specs.Prelude.{◌≡◌, ◌++◌, [], OnOk, OnErr, IsErrOf};
ghost use Rattle.std.specs.Io.KnownBytes.{Appends};
ghost use Rattle.key_codec.specs.Grown.{GoesOnFrom};
ghost use Rattle.listing.specs.Bytes.{WritesBeginning, IsOneMore};
ghost use Rattle.listing.specs.Listing.{node_text, listing_text, HasListed};

use crate::{Counted, WriteFault};
use collation::Text;
use globals::{Cut, OrderedView, walk_from};
use key_codec::Key;
use m_text::{write_key, write_literal};
use std::alloc::{AllocError, Global};
use std::io::Write;
use thiserror::Error;

/// Why a listing ended early. What was written is a beginning of it.
#[derive(Clone, Copy, Debug, PartialEq, Eq, Error)]
pub enum ListingFault {
    /// A call of the writer failed, or took no byte.
    #[error("cannot write output")]
    Write,
    /// Memory was refused.
    #[error("out of memory")]
    Memory,
}

fn push_parts(key: &Key, value: &Text, out: &mut Vec<u8>) -> Result<(), AllocError>
    ensures ok { OnOk result (out.new.items ≡ out.old.items ++ node_text (key.now, value.now)) }
    ensures kept { GoesOnFrom out.old.items out.new.items }
{
    write_key(key, out)?;
    out.push(b'=')?;
    write_literal(value.as_slice(), out)?;
    out.push(b'\n')?;
    Ok(())
}

// A node's line at the end of `out`, which is as it was where memory is refused.
#[tactic(auto, using(key_codec::specs::laws::Grown::back_to))]
fn push_node(key: &Key, value: &Text, out: &mut Vec<u8>) -> Result<(), AllocError>
    ensures ok { OnOk result (out.new.items ≡ out.old.items ++ node_text (key.now, value.now)) }
    ensures err { OnErr result (out.new.items ≡ out.old.items) }
{
    let before = out.len();
    match push_parts(key, value, out) {
        Ok(()) => Ok(()),
        Err(error) => {
            out.truncate(before);
            Err(error)
        }
    }
}

/// Writes what stands in `out` and then the listing of a view: a line for each reference with a value, in order.
/// Lines are gathered in `out`, which is empty at the end.
///
/// After a fault a beginning of both was written: `Write` only where a call of the writer failed, else `Memory`,
/// where memory was refused. After `Memory` what was written and what stands in `out` are together what stood there and
/// the whole lines of the nodes before the one that was refused: a caller loses none by writing `out`.
pub fn write_listing_after<V: OrderedView, W: Write>(
    view: &V,
    out: &mut Vec<u8>,
    writer: &mut Counted<W>,
) -> Result<(), ListingFault>
    ensures ok { OnOk result (Appends (W.contents writer.old.inner) (W.contents writer.new.inner) (out.old.items ++ listing_text (V.content view.now))) }
    ensures empty { OnOk result (out.new.items ≡ []) }
    ensures err { OnErr result (WritesBeginning (W.contents writer.old.inner) (W.contents writer.new.inner) (out.old.items ++ listing_text (V.content view.now))) }
    ensures counted { IsErrOf result ListingFault.Write → IsOneMore writer.old.failures writer.new.failures }
    ensures kept { OnOk result (writer.new.failures ≡ writer.old.failures) }
    ensures memory { IsErrOf result ListingFault.Memory → writer.new.failures ≡ writer.old.failures }
    ensures listed { IsErrOf result ListingFault.Memory → HasListed (W.contents writer.old.inner) (W.contents writer.new.inner) out.old.items (V.content view.now) out.new.items }
{
    'nodes: for (key, value) in walk_from(view, Cut::Start) {
        push_node(key, value, out)?;
        writer.write_full(out)?;
    }
    writer.write_gathered(out)?;
    Ok(())
}

/// Writes the listing of a view: a line for each reference with a value, in order.
///
/// After a fault a beginning of it was written: `Write` only where a call of the writer failed, else `Memory`,
/// where memory was refused.
pub fn write_listing<V: OrderedView, W: Write>(
    alloc: Global,
    view: &V,
    writer: &mut Counted<W>,
) -> Result<(), ListingFault>
    ensures ok { OnOk result (Appends (W.contents writer.old.inner) (W.contents writer.new.inner) (listing_text (V.content view.now))) }
    ensures err { OnErr result (WritesBeginning (W.contents writer.old.inner) (W.contents writer.new.inner) (listing_text (V.content view.now))) }
    ensures counted { IsErrOf result ListingFault.Write → IsOneMore writer.old.failures writer.new.failures }
    ensures kept { OnOk result (writer.new.failures ≡ writer.old.failures) }
    ensures memory { IsErrOf result ListingFault.Memory → writer.new.failures ≡ writer.old.failures }
{
    let mut out = Vec::new(alloc);
    write_listing_after(view, &mut out, writer)
}

impl From<AllocError> for ListingFault {
    ghost use Rattle.std.specs.Prelude.{◌≡◌};
    ghost use Rattle.listing.specs.declared.nodes.ListingFault.{ListingFault};

    ghost from_gives = { λ _ fault. fault ≡ ListingFault.Memory };

    fn from(_: AllocError) -> ListingFault {
        ListingFault::Memory
    }
}

impl From<WriteFault> for ListingFault {
    ghost use Rattle.std.specs.Prelude.{◌≡◌};
    ghost use Rattle.listing.specs.declared.nodes.ListingFault.{ListingFault};

    ghost from_gives = { λ _ fault. fault ≡ ListingFault.Write };

    fn from(_: WriteFault) -> ListingFault {
        ListingFault::Write
    }
}
