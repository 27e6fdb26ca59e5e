//! Runs of neighbours: of what is left of a view, and of what was written and what is left together.
ghost use Rattle.std.specs.Prelude.{◌≡◌, ◌≤◌, ◌<◌, [], ◌∷◌, ◌++◌, List, ℕ, length};
ghost use Rattle.collation.specs.Reference.{Reference};
ghost use Rattle.globals.specs.Cuts.{entries_from, up_to, IsFront, IsRun};
ghost use Rattle.overlay_view.specs.Merging.{without_killed, joined, IsJustBehind};

use collation::Text;
use globals::{Cut, OrderedView, Run, taken_to};
use key_codec::Key;
use std::cmp::Ordering;
use workspace::Workspace;

// Puts a node after the others, unless it is killed.
fn push_unkilled<'v>(workspace: &Workspace, key: &'v Key, value: &'v Text, left: &mut Run<'v>)
    requires { length left.old < 32 }
    ensures { left.new ≡ left.old ++ without_killed workspace.now.killed ((key.now, value.now) ∷ []) }
{
    match workspace.killed_over(key) {
        Some(_) => {}
        None => left.push(key, value),
    }
}

// Those nodes of a run that aren't killed.
fn unkilled<'v>(workspace: &Workspace, found: &Run<'v>) -> Run<'v>
    ensures { result ≡ without_killed workspace.now.killed found.now }
{
    let mut left = Run::new();
    for index in 0..found.len() {
        let Some((key, value)) = found.node(index) else {
            return left;
        };
        push_unkilled(workspace, key, value, &mut left);
    }
    left
}

// After a reference, and where it is killed after all that is killed with it.
fn behind<'v>(workspace: &'v Workspace, key: &'v Key) -> Cut<'v>
    ensures { IsJustBehind workspace.now.killed key.now result }
{
    match workspace.killed_over(key) {
        Some((killed, extent)) => taken_to(killed, extent),
        None => Cut::After(key),
    }
}

// The first nodes of a view from the cut on and before the end that aren't killed: at most so many, and none only where
// there is none. Of a killed range it asks the view for one run, and then for what stands after the range.
pub fn gather_left<'v, V: OrderedView>(
    workspace: &'v Workspace,
    view: &'v V,
    cut: Cut<'_>,
    end: Option<Cut<'_>>,
    most: usize,
) -> Run<'v>
    requires some { 1 ≤ most }
    requires few { most ≤ 32 }
    ensures { IsRun most result (without_killed workspace.now.killed (entries_from cut.entry (up_to end.entry (V.content view.now)))) }
{
    let mut from = cut;
    loop {
        let found = view.gather(from, end, most);
        let Some((last, _)) = found.last() else {
            return found;
        };
        let left = unkilled(workspace, &found);
        if left.len() > 0 {
            return left;
        }
        from = behind(workspace, last);
    }
}

// The first nodes of two runs together, in order; of two at one reference the first run's. It ends with the run that
// ends first: what follows that run may stand before what is left of the other.
fn join_both<'v>(own: &Run<'v>, below: &Run<'v>, most: usize) -> Run<'v>
    requires some { 1 ≤ most }
    requires few { most ≤ 32 }
    requires own { 1 ≤ length own.now }
    requires below { 1 ≤ length below.now }
    ensures some { 1 ≤ length result }
    ensures few { length result ≤ most }
    ensures front { (x y : List (Reference × List ℕ)) → IsFront result (joined (own.now ++ x) (below.now ++ y)) }
{
    let mut run = Run::new();
    let mut of_own = 0;
    let mut of_below = 0;
    while run.len() < most {
        let Some((own_key, own_value)) = own.node(of_own) else {
            return run;
        };
        let Some((key, value)) = below.node(of_below) else {
            return run;
        };
        match own_key.cmp(key) {
            Ordering::Less => {
                run.push(own_key, own_value);
                of_own += 1;
            }
            Ordering::Equal => {
                run.push(own_key, own_value);
                of_own += 1;
                of_below += 1;
            }
            Ordering::Greater => {
                run.push(key, value);
                of_below += 1;
            }
        }
    }
    run
}

// The first nodes of two lists as one, of which these are runs.
pub fn join<'v>(own: Run<'v>, below: Run<'v>, most: usize) -> Run<'v>
    requires some { 1 ≤ most }
    requires few { most ≤ 32 }
    ensures { (a b : List (Reference × List ℕ)) → IsRun most own.entry a → IsRun most below.entry b → IsRun most result (joined a b) }
{
    if own.len() == 0 {
        return below;
    }
    if below.len() == 0 {
        return own;
    }
    join_both(&own, &below, most)
}
