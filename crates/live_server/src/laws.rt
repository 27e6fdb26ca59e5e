//! Laws of live runs, stated in `specs/Live.antt`. Calling one does nothing.
ghost use Rattle.live_server.specs.Live.{HaltsAreLast, WaitingIsNext};

/// At the end of input a job is halted only while it is open, and none of its lines is answered behind its HALT.
pub fn halts_are_last()
    ensures { HaltsAreLast }
{}

/// A LOCK that waits after a fault is the first of its job's lines that wasn't answered.
pub fn what_waits_is_next()
    ensures { WaitingIsNext }
{}
