//! What may cross to other threads. A bound is only looked at where it is asked for, so it is asked for here.
use shared_engine::{BoardName, Session, Shared};

// Asks for the bound.
fn is_shared<T: Sync>(it: &T) {
    let _ = it;
}

// Asks for the bound.
fn is_sent<T: Send>(it: &T) {
    let _ = it;
}

/// An engine may be lent to many threads at once.
pub fn engine_is_shared<B: BoardName + Send + Sync>(engine: &Shared<B>) {
    is_shared(engine);
}

/// A session may go to another thread.
pub fn session_is_sent<B: BoardName + Send + Sync>(session: &Session<B>) {
    is_sent(session);
}
