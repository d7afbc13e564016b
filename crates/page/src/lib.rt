// Access pages: numbers in columns, fields, lines, pages read in place, and sources written as pages.
#![tactic(auto)]

pub mod fields;
pub mod lines;
pub mod numerals;
pub mod pages;

pub use pages::Page;
pub use pages::calls::{credential_at, write_back, write_page};
