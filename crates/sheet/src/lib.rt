// Sheets: a plan, its filed counts and its two certificates as bytes.
#![tactic(auto)]

mod fields;
mod framed;
mod header;
mod reading;
mod sheets;
mod words;

pub use reading::read;
pub use sheets::Sheet;
