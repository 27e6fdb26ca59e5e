//! Where one reference stands to another, level by level.
ghost use Rattle.std.specs.Prelude.{◌≡◌};
ghost use Rattle.collation.specs.Levels.{has_level as has_level_spec, has_name as has_name_spec, is_below as is_below_spec};

use key_codec::{Key, Place};

// Whether both have one name.
pub(crate) fn has_name(a: &Key, b: &Key) -> bool
    ensures { result ≡ has_name_spec a.now b.now }
{
    a.name() == b.name()
}

/// Whether the second is a descendant of the first. Takes no memory.
pub fn is_below(root: &Key, key: &Key) -> bool
    ensures { result ≡ is_below_spec root.now key.now }
{
    key.is_under(root) && root != key
}

// Whether the place has a subscript, if an empty one.
pub(crate) fn has_level(place: &Place) -> bool
    ensures { result ≡ has_level_spec place.now }
{
    place.is_open() || place.key().subscripts().next().is_some()
}
