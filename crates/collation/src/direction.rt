//! The ways in which $ORDER and $QUERY go.

/// The way in which $ORDER and $QUERY go.
#[derive(Clone, Copy, Debug, PartialEq, Eq, Hash)]
pub enum Direction {
    Forward,
    Backward,
}
