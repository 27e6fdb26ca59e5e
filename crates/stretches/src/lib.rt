//! Stretches of the order in which nothing stands, so that a look-up needn't pass again over what was killed there.
//!
//! `Stretches` are up to 1,024 ranges of references. They say nothing by themselves: who has them knows of which
//! database that no member stands in them (`AreEmpty` of `specs/Empty.antt`). They are advice: any may be dropped at
//! any time, for want of memory too, and then a look-up takes longer and answers the same.
//!
//! They lie in one list, in order and apart (`AreInOrder`), and are found by halves: so a look-up or a write that enters
//! none takes steps as the logarithm of their number, and no memory. One that is noted becomes one with those that it
//! touches. Where there are 1,024 one is dropped before, each in its turn and not in their order, so that who looks at
//! somewhat more places in turn finds most of them. A SET that parts one of 1,024 drops neither part, since either may
//! lie ahead of the next SET, but another: that behind, if it lies between two references that were set, else one in
//! its turn. The places that a search gives are advice: the neighbours there are looked at, and since all are in order
//! what holds of these holds of all (`Fits`).
//!
//! A stretch takes 104 bytes, and memory of its own for an end of over 38 bytes: 1,024 take 106 KB beside such ends. Of
//! a transaction what more than 16 took goes back as it begins anew (`clear`); the core keeps the room of the most that
//! it had.
//!
//! A command that may put nodes into one changes nothing before it is done: `left_by` tells what is to be taken out, and
//! `follow` takes that out, in place. No list is copied.
//!
//! A `Skipping` is a view over another view and its empty stretches: an ordered view with the same content. Where a
//! look-up begins in a stretch it goes on from that stretch's end. Then it ends where the next stretch begins, and only
//! where it has found nothing it goes on behind that one: so it passes over stretches before which it begins, too, and so
//! does a run of neighbours. A scout looks through it as well, and so goes past no killed node that is in a stretch.
//!
//! A stretch is found by a scout: look-ups from where a $ORDER, also of names, or $QUERY begins tell that nothing stands
//! up to the next nodes on both sides, or for $DATA that nothing stands below its reference, or up to the first node
//! there. A MERGE's begins at a killed node below its source and goes up to the next node; a KILL's is all at and under
//! its reference, once it is done. What lies in the way, killed nodes, is what makes it worth while (`InTheWay`).
//!
//! Where ^A(1) to ^A(5000) were killed of ^A(1) to ^A(9000), $ORDER(^A("")) passes over 5,000 killed nodes to ^A(5001).
//! Its scout finds the stretch from after ^A to past ^A(5000); once that is noted the next $ORDER(^A("")) begins there,
//! and after KILL ^A(5001) its scout's stretch, from there to past ^A(5001), becomes one with it. SET ^A(3000) leaves
//! two of it, before ^A(3000) and behind.
//!
//! Read `specs/Empty.antt`, then `stretches_kept.rt`, `parts.rt`, `left.rt`, `skipping.rt`, `scouting.rt`.
//! Not promised: which stretches are kept, and how many look-ups a view is spared.
#![tactic(auto)]

pub use left::Left;
pub use scouting::{InTheWay, scout, scout_kill, scout_merge};
pub use skipping::Skipping;
pub use stretches_kept::Stretches;

mod cuts;
mod left;
mod parts;
mod scouting;
mod skipping;
mod stretches_kept;
