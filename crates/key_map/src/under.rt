//! What stands at and under a key, taken out.
ghost use Rattle.std.specs.Prelude.{◌≡◌, ◌||◌, not};
ghost use Rattle.std.specs.FinMap as finmap;
ghost use Rattle.collation.specs.Database.{is_under};
ghost use Rattle.collation.specs.Order.{ref_eq};
ghost use Rattle.globals.specs.Cuts.{stands_before};
ghost use Rattle.globals.specs.declared.cut.Cut.TheVariants.{Past};
ghost use Rattle.steady_map.specs.Shown.{is_between};

use crate::map::KeyMap;
use crate::point::CutPoint;
use globals::Cut;
use key_codec::Key;

impl<X: Drop> KeyMap<X> {
    /// Takes out the keys at and under this one, some at once. It is never refused.
    pub fn remove_under(&mut self, root: &Key)
        ensures { self.new ≡ finmap.retain_keys self.old (λ x. not (is_under root.now x)) }
    {
        self.remove_from(Cut::Before(root), root);
    }

    /// Takes out the keys under this one, and not itself, some at once. It is never refused.
    pub fn remove_below(&mut self, root: &Key)
        ensures { self.new ≡ finmap.retain_keys self.old (λ x. ref_eq x root.now || not (is_under root.now x)) }
    {
        self.remove_from(Cut::After(root), root);
    }

    // Takes out the keys that don't stand before the cut and stand before the end of what is under this one.
    fn remove_from(&mut self, from: Cut<'_>, root: &Key)
        ensures { self.new ≡ finmap.retain_keys self.old (λ x. not (is_between (stands_before from.entry) (stands_before (Past root.entry)) x)) }
    {
        let to = CutPoint {
            cut: Cut::Past(root),
        };
        self.tree.remove_between(&CutPoint { cut: from }, &to);
    }
}
