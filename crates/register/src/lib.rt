// Registers, into which credentials are published and from which they are withdrawn, and contexts of sources.
#![tactic(auto)]

pub mod contexts;
pub mod page_text;
pub mod record_list;
pub mod registers;
pub mod tallies;

pub use contexts::Context;
pub use page_text::PageText;
pub use record_list::RecordList;
pub use registers::{Register, locate, room, stands};
pub use tallies::{Tally, publish_all};
