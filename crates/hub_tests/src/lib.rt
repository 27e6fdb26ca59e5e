//! Tests of the hub: what no clause says of it. Each loop has a bound on its turns.
#![tactic(auto)]

pub use crossing::{hub_is_shared, hub_session_is_sent, hub_share_is_sent};

#[cfg(test)]
mod closing;
mod crossing;
#[cfg(test)]
mod holds;
#[cfg(test)]
mod hubs;
#[cfg(test)]
mod locks;
#[cfg(test)]
mod tries;
#[cfg(test)]
mod views;
