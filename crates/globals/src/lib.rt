//! $DATA, $ORDER, $QUERY, names, MERGE's list, what a kill takes and $INCREMENT's sum over any ordered view of a
//! database, and walks over it.
//!
//! A view is whatever implements `OrderedView`: it shows a finite map from references to values, and answers four
//! look-ups: the value at a reference, the first member from a cut on, some of the first members from there on (a
//! `Run`), the last member before a cut. A cut parts the references in two: `specs/Cuts.antt`. A look may have an end,
//! which is a cut too, and answers no member beyond it: a look below a reference ends where its subtree ends. What each
//! function answers stands in `specs/Answers.antt` of `collation` and `specs/Data.antt` of `command`, so that callers
//! see one meaning whatever the view is. $GET is the view's own `get`. A walk is seen as the list of members that it
//! has left, in order; it asks the view for up to 32 members at a look-up.
//!
//! Over ^A(1,5), ^A(3), ^B the place ^A(1) forward starts past ^A(1) and finds ^A(3): $ORDER answers 3. Backward
//! ^A("") starts past ^A and finds ^A(3).
//!
//! What the answers and changes say in the words of references and values: `laws.rt`, with
//! `specs/AnswerStatements.antt` and `specs/ChangeStatements.antt`.
//!
//! Read `specs/Cuts.antt`, then `view.rt`, `run.rt`, `starts.rt`, `sibling.rt`, `ahead.rt`, `walk.rt`. Laws for those
//! who write a view: `specs/laws/Runs.antt`, `specs/laws/Steps.antt`, of ends `specs/laws/Ends.antt`. The proofs go by
//! lists in lexicographic order: `specs/laws/Sequences.antt`, `specs/laws/Seeks.antt`. Not promised: how long a view
//! takes for a look-up, how much it visits beyond an end, and how many look-ups a function makes (`private_tests`
//! counts them).
#![tactic(auto)]

pub use answering::{answer, look};
pub use cut::{Cut, stands_before, stands_under, stands_within};
pub use extents::{taken, taken_from, taken_to};
pub use laws::{
    data_tells_value_and_descendants, descendants_are_under, increment_sets_the_sum,
    kill_takes_its_extent, merge_copies_the_subtree, names_tell_the_nearest_name,
    order_answers_the_nearest_sibling, query_answers_the_nearest_node, set_sets_one,
};
pub use levels::is_below;
pub use merge::merge_list;
pub use names::{key_of_name, key_of_start, member_beyond, names_from, next_name};
pub use node::data;
pub use run::Run;
pub use sibling::order;
pub use starts::{order_start, query_start};
pub use sum::increment;
pub use traversal::query;
pub use view::OrderedView;
pub use walk::{Walk, subtree, walk_between, walk_from};

mod ahead;
mod answering;
mod cut;
mod extents;
mod laws;
mod levels;
mod merge;
mod names;
mod node;
mod run;
mod sibling;
mod starts;
mod sum;
mod traversal;
mod view;
mod walk;
