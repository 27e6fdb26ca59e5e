//! Cuts as points of the tree.
ghost use Rattle.globals.specs.Cuts.{stands_before as stands_before_spec};

use btree::Point;
use globals::{Cut, stands_before};
use key_codec::Key;

/// A cut between references, as a point of a tree of keys.
#[derive(Clone, Copy)]
pub struct CutPoint<'a> {
    pub cut: Cut<'a>,
}

impl<'a> Point<Key> for CutPoint<'a> {
    ghost use Rattle.globals.specs.Cuts.{stands_before};
    ghost use Rattle.globals.specs.laws.Cuts.{stands_before-earlier};
    ghost use Rattle.std.proofs.Common.{ap};
    ghost use Rattle.collation.specs.laws.Order.{ref_cmp-IsAntisymmetric};

    ghost before = { λ p x. stands_before p.cut x };

    ghost downward = { λ p x y l h. stands_before-earlier p.cut x y l h };

    ghost tied = { λ p x y e. ap (stands_before p.cut) (ref_cmp-IsAntisymmetric x y e) };

    fn is_after(&self, key: &Key) -> bool {
        stands_before(self.cut, key)
    }
}
