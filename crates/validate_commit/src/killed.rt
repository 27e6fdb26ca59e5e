//! What a transaction has killed, in the way of its look-ups.
use command::Extent;
use globals::Cut;
use key_codec::Key;
use key_map::KeyMap;
use stretches::InTheWay;

// The roots of what was killed lie in the way of look-ups.
#[derive(Drop)]
pub(crate) struct Killed<'w> {
    pub(crate) roots: &'w KeyMap<Extent>,
}

impl<'w> InTheWay for Killed<'w> {
    fn first_from(&self, cut: Cut<'_>) -> Option<&Key> {
        match self.roots.first_from(cut) {
            Some((root, _)) => Some(root),
            None => None,
        }
    }

    fn last_before(&self, cut: Cut<'_>) -> Option<&Key> {
        match self.roots.last_before(cut) {
            Some((root, _)) => Some(root),
            None => None,
        }
    }
}
