//! A copy of a view's references with their values.
ghost use Rattle.std.specs.Prelude.{◌≡◌, IfOk};
ghost use Rattle.std.specs.FinMap as finmap;

use collation::Text;
use globals::{Cut, OrderedView, walk_from};
use key_codec::Key;
use std::alloc::{AllocError, Global};

/// Each reference with a value, in their order, with its value. Room for so many is made first.
pub(crate) fn copied_nodes<V: OrderedView>(
    alloc: Global,
    view: &V,
    room: usize,
) -> Result<Vec<(Key, Text)>, AllocError>
    ensures { IfOk result (λ nodes. nodes.items ≡ finmap.entries (V.content view.now)) }
{
    let mut nodes = Vec::with_capacity(alloc, room)?;
    'nodes: for (key, value) in walk_from(view, Cut::Start) {
        let node = copied(key, value)?;
        nodes.push(node)?;
    }
    Ok(nodes)
}

fn copied(key: &Key, value: &Text) -> Result<(Key, Text), AllocError>
    ensures { IfOk result (λ node. node ≡ (key.now, value.now)) }
{
    let key = key.clone()?;
    let value = value.clone()?;
    Ok((key, value))
}
