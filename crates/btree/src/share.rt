//! How two nodes share their pairs, where these are cut anew.
ghost use Rattle.std.specs.Prelude.{◌+◌, ◌≤◌};

/// What the first of two nodes gets.
#[derive(Clone, Copy)]
pub enum Share {
    /// Half of the pairs.
    Half,
    /// As many as it holds, and the second node at least 16.
    MostFirst,
    /// No more than it must have, as far as the second node holds the others.
    MostSecond,
}

impl Share {
    /// How many of so many pairs the first node gets.
    pub fn first(self, count: usize) -> usize
        requires enough { 32 ≤ count }
        requires room { count ≤ 64 }
        ensures least { 16 ≤ result }
        ensures most { result ≤ 32 }
        ensures second_least { result + 16 ≤ count }
        ensures second_most { count ≤ result + 32 }
    {
        match self {
            Share::Half => count - count / 2,
            Share::MostFirst => (count - 16).min(32),
            Share::MostSecond => (count - 32).max(16),
        }
    }
}
