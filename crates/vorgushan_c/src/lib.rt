//! The engine for C: a static library, whose calls `include/vorgushan.h` and `include/vorgushan_threads.h` declare.
//!
//! C keeps a `VgEngine`, which is one pointer: null where there is no engine, else that of the box with an `Embedded`
//! (`specs/Held.antt`). Each export takes the box out, makes one call of `embedded` or `typed_calls`, and puts it back;
//! where there is none it tells so. Its contract says that (`IsCalled` of `specs/Exports.antt`, `IsKeyCalled` of
//! `specs/Keys.antt`), with the words of those two. C's key is two pointers: a `VgKey`, and behind it the `VgDraft` in
//! which it is spelled, which serves for the next one too.
//!
//! For many threads C keeps a `VgSession`, which is of the same form: behind it is a `Seat` of `session_calls`, an owner of
//! a hub, with a session or, where it is the hub's own handle, without one (`IsSeatCalled` of `specs/Sessions.antt`). It
//! may be handed to another thread between calls (`Send`). No call on it waits: `Busy` has the number 43.
//!
//! Numbers, lengths and bytes cross; a slice is a pointer and a length. That C declares the calls as they are, that
//! its pointers and lengths say what is there, and that it makes one call at a time, only C's word stands for.
//!
//! Read `specs/Exports.antt`, `exports.rt`, `specs/Texts.antt`, `texts.rt`, `specs/Keys.antt`, `keys.rt`, `typed.rt`,
//! `increments.rt`, `looks.rt`, `steps.rt`, `specs/Several.antt`, `several.rt`, then
//! `specs/Sessions.antt`, `sessions.rt`, `session_keys.rt`, `specs/SessionLocks.antt`, `session_locks.rt`,
//! `session_looks.rt`, and `handle.rt`, `seat_handle.rt`, `loose.rt`.
#![tactic(auto)]

mod draft_handle;
mod exports;
mod handle;
mod increments;
mod key_handle;
mod keys;
mod looks;
mod loose;
mod seat_handle;
mod session_keys;
mod session_locks;
mod session_looks;
mod sessions;
mod several;
mod steps;
mod texts;
mod typed;
