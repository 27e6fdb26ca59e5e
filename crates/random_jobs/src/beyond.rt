//! Which keys $ORDER and $QUERY look for, by bytes.
use collation::Direction;
use key_codec::Place;

/// The keys of a tree that stand beyond a place.
#[derive(Clone, Copy)]
pub struct Search<'a> {
    place: &'a Place,
    direction: Direction,
    // How many subscripts of the place the keys have.
    level: usize,
    // Whether the tree's root isn't meant, and forward nothing that is under the place.
    is_order: bool,
}

impl<'a> Search<'a> {
    /// What $ORDER looks for: keys at the level of the place's last subscript, and under it.
    pub fn order(place: &'a Place, direction: Direction) -> Search<'a> {
        let depth = place.key().depth();
        Search {
            place,
            direction,
            level: if place.is_open() {
                depth
            } else {
                depth.saturating_sub(1)
            },
            is_order: true,
        }
    }

    /// What $QUERY looks for: keys of the place's name.
    pub fn query(place: &'a Place, direction: Direction) -> Search<'a> {
        Search {
            place,
            direction,
            level: 0,
            is_order: false,
        }
    }

    pub fn is_forward(&self) -> bool {
        self.direction == Direction::Forward
    }

    /// How many subscripts the keys share with the place.
    pub fn level(&self) -> usize {
        self.level
    }

    // Whether the key stands beyond the place: an open one stands directly after its key, and backward after all under
    // it.
    fn is_beyond(&self, key: &[u8]) -> bool {
        let start = self.place.key().as_slice();
        let (is_under, is_open) = (key.starts_with(start), self.place.is_open());
        if self.is_forward() {
            key > start && (is_open || !is_under || !self.is_order)
        } else {
            key < start || is_open && is_under
        }
    }

    /// Whether the key is one of these.
    pub fn meets(&self, key: &[u8]) -> bool {
        match key.strip_prefix(self.place.key().front(self.level)) {
            Some(rest) => self.is_beyond(key) && !(self.is_order && rest.is_empty()),
            None => false,
        }
    }
}
