//! A B+tree: a map from keys in order to values, seen as the sorted list of its pairs and its depth.
//!
//! All pairs lie in leaves. An inner node holds separators, which are keys, and a kid before, between and after them: a
//! separator stands after all keys of the kid before it, and not after any key of a later kid. It is a copy of the first
//! key that the kid after it once had; that key may be gone.
//!
//! Invariants (`specs/Rows.antt`, `specs/Parts.antt`, `specs/Tree.antt`):
//! (1) a leaf has neither separators nor kids, an inner node one kid more than separators, and no pairs;
//! (2) kids of one node have one height;
//! (3) each node but the root holds 16 to 32 pairs or separators, the root at most 32;
//! (4) a leaf's row of more than 14 pairs has room for 33, an inner node's rows for 33 separators and 34 kids: only a new
//!     node takes memory;
//! (5) separators rise, and part the pairs of the kids;
//! (6) the keys of the whole tree rise, and a tree of more than one level has more than 32 pairs.
//!
//! (1) to (5) are a node's own; (6) is the tree's, and a node's calls ask for the order of what they are given.
//!
//! With leaves of at most 2 pairs and inner nodes of at most 2 separators in place of 32, an insertion of 5 into
//! `[3 7] / [1 2] [3 4] [7 8]` makes the leaf `[3 4 5]` too long: a copy of 5 goes up, `[3 5 7]` is too long, and 5 moves
//! to a new root: `[5] / [3] [7] / [1 2] [3 4] [5] [7 8]`.
//!
//! Most insertions come by the trail of a look-up that missed their key, to a leaf with places left: they go down to it and
//! put the pair there, if its key stands between those next to the place (`put_in_leaf`, `between.rt`). Otherwise another
//! way down takes the memory that splits may want and joins what comes up (`insert`). Keys in order need no look-up: the trail of
//! the last one tells by the pair at its end and the one next to that whether a key isn't there (`misses_beside`).
//!
//! Before it comes to that, a kid that an insertion has filled gives half of what it has more to the kid before or
//! after it (`ease.rt`), and the last or first kid as much as the other can hold (`share.rt`), so that keys in order leave
//! nodes of 32 pairs. A kid with a pair or separator too few gets some likewise, or two kids become one.
//!
//! A run of pairs goes out leaf by leaf: a leaf loses all its pairs of the run at once, and is mended once (`stretch.rt`). Or
//! its values go alone, where they have a value that stands for none (`vacant.rt`, `node/values.rt`): that takes no memory.
//!
//! Where two leaves share their pairs anew, the separator between them is a new copy of a key (`separator.rt`). For short keys
//! that takes no memory. Where it is refused, an easing is left out, and a removal changes nothing.
//!
//! An empty tree takes no memory, and one of a single node a row of 4, 8, 14 or 33 places. A tree is at most 16 levels
//! deep: what recurs, dropping a tree too, recurs at most so often, and a walk keeps its way down in itself.
//!
//! Read `specs/Order.antt`, `specs/Tree.antt` and `root.rt`; for the nodes `specs/Parts.antt`, `specs/Rows.antt`, `node.rt`,
//! `ends.rt`, `leaf.rt`, `between.rt`, `split.rt`, `ease.rt`, `mend.rt`, `stretch.rt`; for the way of a look-up `trail.rt`.
//! Not promised: which leaf holds a pair; any time.
#![tactic(auto)]

mod backward;
mod between;
mod ease;
mod ends;
mod forward;
mod leaf;
mod mend;
mod node;
mod root;
mod row;
mod search;
mod seek;
mod separator;
mod share;
mod split;
mod stretch;
mod trail;
mod vacant;

pub use backward::WalkBack;
pub use forward::Walk;
pub use root::Tree;
pub use seek::Point;
pub use trail::Trail;
pub use vacant::Vacant;
