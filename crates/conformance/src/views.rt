//! The content of a core, looked at through `OrderedView`: docs/RULES.md, "Order".
use crate::answers::{Acts, goes};
use collation::Text;
use globals::{Cut, OrderedView, subtree, walk_from};
use job_core::JobCore;
use key_codec::{Key, KeyDraft};
use m_text::read_reference;
use refusal::Refusal;
use std::alloc::{AllocError, Global};

fn key_of(alloc: Global, text: &[u8]) -> Result<Key, Refusal> {
    let mut draft = KeyDraft::new(alloc);
    let (key, _) = read_reference(alloc, text, &mut draft)?;
    Ok(key)
}

fn bytes(answer: Option<&Text>) -> &[u8] {
    match answer {
        Some(text) => text.as_slice(),
        None => b"none",
    }
}

// Each node has a value that tells which it is.
const LINES: [&str; 5] = [
    "1 SET ^A(12)=\"c\"",
    "1 SET ^A(1)=1",
    "1 SET ^A(1,\"b\")=\"b\"",
    "1 SET ^A(1,9)=9",
    "1 SET ^%=0",
];

// Whether the nodes behind and before a cut have these values.
fn are_parted<V: OrderedView>(view: &V, cut: Cut<'_>, next: &[u8], prev: &[u8]) -> bool {
    bytes(view.next(cut, None).map(|node| node.1)) == next
        && bytes(view.prev(cut, None).map(|node| node.1)) == prev
}

fn are_parted_at_each_form<V: OrderedView>(view: &V, one: &Key) -> bool {
    are_parted(view, Cut::Start, b"0", b"none")
        && are_parted(view, Cut::Before(one), b"1", b"0")
        && are_parted(view, Cut::After(one), b"9", b"1")
        && are_parted(view, Cut::Past(one), b"c", b"b")
}

// The same at ^A(1).
fn are_parted_at_one<V: OrderedView>(alloc: Global, view: &V) -> Result<bool, Refusal> {
    let one = key_of(alloc, b"^A(1)")?;
    let are_parted = are_parted_at_each_form(view, &one);
    drop(one);
    Ok(are_parted)
}

// Ten nodes of three globals, of which four lie in the subtree of ^B(2). Each value tells the place in order.
const MORE_LINES: [&str; 10] = [
    "1 SET ^C(\"x\")=9",
    "1 SET ^B(2,\"b\")=6",
    "1 SET ^B(2,10)=5",
    "1 SET ^B(2)=3",
    "1 SET ^B(2,9)=4",
    "1 SET ^B(12)=7",
    "1 SET ^B=2",
    "1 SET ^A(1,1)=1",
    "1 SET ^A=0",
    "1 SET ^C=8",
];

// Whether a walk over all of the view meets nodes of just these values.
fn walk_meets<V: OrderedView>(alloc: Global, view: &V, want: &[u8]) -> Result<bool, AllocError> {
    let mut met = Vec::new(alloc);
    for (_, value) in walk_from(view, Cut::Start) {
        met.extend_from_slice(value.as_slice())?;
    }
    Ok(met.as_slice() == want)
}

// Whether a walk over the subtree does.
fn subtree_meets<V: OrderedView>(
    alloc: Global,
    view: &V,
    root: &Key,
    want: &[u8],
) -> Result<bool, AllocError> {
    let mut met = Vec::new(alloc);
    for (_, value) in subtree(view, root) {
        met.extend_from_slice(value.as_slice())?;
    }
    Ok(met.as_slice() == want)
}

// Whether a walk over the subtree of the reference in the text does.
fn subtree_at_meets<V: OrderedView>(
    alloc: Global,
    view: &V,
    text: &[u8],
    want: &[u8],
) -> Result<bool, Refusal> {
    let root = key_of(alloc, text)?;
    let meets = subtree_meets(alloc, view, &root, want);
    drop(root);
    Ok(meets?)
}

// What a core's content shows.
#[derive(Clone, Copy)]
enum Case {
    Parted,
    Walk,
    Subtree,
}

impl Acts for Case {
    fn act(self, alloc: Global, core: &mut JobCore) -> Result<bool, Refusal> {
        let view = core.content();
        match self {
            Case::Parted => are_parted_at_one(alloc, &view),
            Case::Walk => Ok(walk_meets(alloc, &view, b"0123456789")?),
            Case::Subtree => subtree_at_meets(alloc, &view, b"^B(2)", b"3456"),
        }
    }
}

#[test]
fn next_and_prev_part_the_nodes_at_each_form_of_cut(rt: HostRuntime) {
    assert!(rt; goes(rt.alloc(), &LINES, Case::Parted));
}

#[test]
fn walks_meet_each_node_in_order(rt: HostRuntime) {
    assert!(rt; goes(rt.alloc(), &MORE_LINES, Case::Walk));
}

#[test]
fn walks_meet_each_node_of_a_subtree(rt: HostRuntime) {
    assert!(rt; goes(rt.alloc(), &MORE_LINES, Case::Subtree));
}
