// Whether a cell's words are right, for each kind of cell: the head, a standing cell after the one read before it, a free cell. The tests are
// those of crate account's account on the words.
#![tactic(auto)]

pub mod head; // head.rt: cell 0
pub mod standing; // standing.rt: a standing cell, after the one read before it
pub mod free; // free.rt: a free cell
