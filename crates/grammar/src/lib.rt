//! What it is to read a text format: which texts spell which values, and the first byte with which none goes on.
#![tactic(auto)]

mod bytes;
mod decimals;
mod fault;
mod fields;
mod lines;
mod scan;

pub use bytes::{ByteTest, PassingBytes};
pub use decimals::{capped_value, decimal_of};
pub use fault::ReadError;
pub use fields::{behind_literal, passing_front, word_of};
pub use lines::line_of_place;
pub use scan::{Scan, span_of};
