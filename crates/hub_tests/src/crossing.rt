//! What may cross to other threads. A bound is only looked at where it is asked for, so it is asked for here.
use hub::{Hub, HubSession, HubShare};

// Asks for the bound.
fn is_shared<T: Sync>(it: &T) {
    let _ = it;
}

// Asks for the bound.
fn is_sent<T: Send>(it: &T) {
    let _ = it;
}

/// A hub may be lent to many threads at once.
pub fn hub_is_shared(hub: &Hub) {
    is_shared(hub);
}

/// A session of a hub may go to another thread.
pub fn hub_session_is_sent(session: &HubSession) {
    is_sent(session);
}

/// A share of a hub may go to another thread.
pub fn hub_share_is_sent(share: &HubShare) {
    is_sent(share);
}
