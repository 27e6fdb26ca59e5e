//! The listing: a database as text, a line a node; and readers and writers whose failures are counted.
//!
//! Callers see the listing as `listing_text` of the database (`specs/Listing.antt`), and what a writer got as
//! bytes after those that it held, or a beginning of them (`specs/Bytes.antt`). A `Counted` shows its inner
//! reader or writer and how many of its calls failed, so that a contract can say: this fault, only where a
//! call failed. That a failed call isn't tried again is tested, since no contract of a reader counts calls.
//!
//! Text is gathered in a buffer that the caller lends, and written where that holds `GATHERED_BYTES`: so a run that
//! has a buffer for its replies lists in it.
//!
//! A whole text is read by `read_all`.
//!
//! Read `specs/Listing.antt`, then `counted.rt`, `nodes.rt`, `whole.rt`.
//! Not promised: how the text is cut into writes.
#![tactic(auto)]

pub use counted::{Counted, GATHERED_BYTES, ReadFault, WriteFault};
pub use nodes::{ListingFault, write_listing, write_listing_after};
pub use whole::{InputFault, read_all};

mod counted;
mod nodes;
mod whole;
