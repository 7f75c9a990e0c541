// Lines, fields and decimal numbers in bytes: The order program 2 and 3 (docs/REFERENCE.md).
#![tactic(auto)]

pub mod fields; // fields.rt: the fields of a line, and the numbers in them
pub mod feed; // feed.rt: the lines of an input, out of bytes that come in parts
