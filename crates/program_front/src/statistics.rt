//! What is held at the end, in numbers.
use globals::{Cut, OrderedView, walk_from};
use journal::Journal;

/// What an engine holds.
#[derive(Clone, Copy, Debug, PartialEq, Eq)]
pub struct Statistics {
    /// How many units the journal has had.
    pub units: u64,
    /// How many of them checkpoints have let go of.
    pub dropped: u64,
    /// How many bytes the others take.
    pub journal_bytes: usize,
    /// How many nodes have a value.
    pub nodes: u64,
    /// How many bytes their keys and values have; what the store takes around them comes on top.
    pub node_bytes: u64,
    /// How many versions of nodes are kept, absences among them.
    pub versions: u64,
}

// How many nodes a view has, and the bytes of their keys and values.
fn count_nodes<V: OrderedView>(view: &V) -> (u64, u64) {
    let mut nodes: u64 = 0;
    let mut bytes: u64 = 0;
    for (key, value) in walk_from(view, Cut::Start) {
        nodes = nodes.saturating_add(1);
        bytes = bytes.saturating_add(key.as_slice().len() as u64);
        bytes = bytes.saturating_add(value.len() as u64);
    }
    (nodes, bytes)
}

impl Statistics {
    /// Counts the nodes of the content, beside so many versions and this journal, which has dropped so many units. Walks
    /// over all nodes; takes no memory.
    pub fn of<V: OrderedView>(
        content: &V,
        versions: u64,
        journal: &Journal,
        dropped: u64,
    ) -> Statistics {
        let (nodes, node_bytes) = count_nodes(content);
        Statistics {
            units: journal.len(),
            dropped,
            journal_bytes: journal.size(),
            nodes,
            node_bytes,
            versions,
        }
    }
}

// A thing's name where there are so many: this for one of it, that for more.
fn named<'a>(count: u64, one: &'a str, more: &'a str) -> &'a str {
    if count == 1 { one } else { more }
}

/// Prints it in one line on standard error. What can't be printed is left out.
pub fn print_statistics(rt: &impl Eprint, program: &str, held: &Statistics) {
    let Statistics {
        units,
        dropped,
        journal_bytes,
        nodes,
        node_bytes,
        versions,
    } = *held;
    let node = named(nodes, "node", "nodes");
    let version = named(versions, "version", "versions");
    let unit = named(units, "unit", "units");
    let _ = eprintln!(rt;
        "{program}: {nodes} {node} of {node_bytes} bytes, {versions} {version}; {units} {unit}, {dropped} of them dropped; {journal_bytes} bytes of journal"
    );
}
