// Boards: where counts live. The meaning of a board that can be read and of one that can be written, and the boards that stand by themselves.
#![tactic(auto)]

mod bytes;
mod filed;
mod meaning;
mod numbers;
mod reading;

pub use bytes::ByteBoard;
pub use meaning::{Board, NotSet, ReadBoard};
pub use numbers::NumberBoard;
pub use reading::{copied, held, limit_at};
