//! Values that stand for none.
ghost use Rattle.std.specs.Prelude.{◌≡◌};

/// A type of values, one of which stands for none.
pub trait Vacant: Sized {
    ghost none: { Self };

    /// The value that stands for none.
    fn vacant() -> Self
        ensures { result ≡ none };
}

impl<V> Vacant for Option<V> {
    ghost use Rattle.std.specs.Prelude.{None};

    ghost none = { None };

    fn vacant() -> Option<V> {
        None
    }
}
