//! What a walk has at hand of what is left to it.
ghost use Rattle.std.specs.Prelude.{◌≡◌, ◌≤◌, [], ◌∷◌, MatchOption, drop};
ghost use Rattle.globals.specs.Cuts.{entries_from, up_to, IsFront};

use crate::{Cut, OrderedView, Run};
use collation::Text;
use key_codec::Key;
use std::marker::Model;

// How many nodes a view is asked for at most.
const MOST: usize = 32;

// The nodes of a walk's last look-up that weren't passed yet. It is seen as the list of them. A walk asks for two nodes
// first, and each time for twice as many as before, up to 32.
#[derive(Drop)]
pub struct Ahead<'v> {
    run: Run<'v>,
    passed: usize,
    most: usize,
}

impl<'v> Model for Ahead<'v> {
    ghost use Rattle.std.specs.Prelude.{List, ℕ, ◌≤◌, length, drop};
    ghost use Rattle.collation.specs.Reference.{Reference};

    ghost Value = { List (Reference × List ℕ) };

    ghost view = { λ a. drop a.passed a.run };

    ghost invariant = { λ a. (a.passed ≤ length a.run) × (1 ≤ a.most) × (a.most ≤ 32) };
}

impl<'v> Ahead<'v> {
    // Nothing is at hand.
    pub fn new() -> Ahead<'v>
        ensures { result ≡ [] }
    {
        Ahead {
            run: Run::new(),
            passed: 0,
            most: 2,
        }
    }

    // The first node from the cut on and before the end, which then is at hand. Where nothing was, the view is asked.
    pub fn first<V: OrderedView>(
        &mut self,
        view: &'v V,
        cut: Cut<'_>,
        end: Option<Cut<'_>>,
    ) -> Option<(&'v Key, &'v Text)>
        requires { IsFront self.old (entries_from cut (up_to end (V.content view.now))) }
        ensures front { IsFront self.new (entries_from cut.entry (up_to end.entry (V.content view.now))) }
        ensures first { MatchOption result (entries_from cut.entry (up_to end.entry (V.content view.now)) ≡ []) (λ e. self.new ≡ (e.0.now, e.1.now) ∷ drop 1 self.new) }
    {
        if self.passed < self.run.len() {
            return self.run.node(self.passed);
        }
        self.first_anew(view, cut, end)
    }

    // The view is asked. Apart, since what it answers is long, and room for it would be made ready for each node.
    #[inline(never)]
    fn first_anew<V: OrderedView>(
        &mut self,
        view: &'v V,
        cut: Cut<'_>,
        end: Option<Cut<'_>>,
    ) -> Option<(&'v Key, &'v Text)>
        ensures front { IsFront self.new (entries_from cut.entry (up_to end.entry (V.content view.now))) }
        ensures first { MatchOption result (entries_from cut.entry (up_to end.entry (V.content view.now)) ≡ []) (λ e. self.new ≡ (e.0.now, e.1.now) ∷ drop 1 self.new) }
    {
        self.run = view.gather(cut, end, self.most);
        self.passed = 0;
        self.most = (self.most * 2).min(MOST);
        self.run.node(0)
    }

    // Passes over the first node, where there is one.
    pub fn pass(&mut self)
        ensures { self.new ≡ drop 1 self.old }
    {
        if self.passed < self.run.len() {
            self.passed += 1;
        }
    }
}
