// How the check for refusal 3 reads a buffer: cell by cell in ascending order of keys, each child's own children in turn. This crate
// has the account of it on the words (specs/Tree.antt) and the proof that it accepts exactly the lists; the code is crate is_list.
#![tactic(auto)]

// What the check knows when it has read some cells.
#[derive(Clone, Copy)]
pub struct Seen {
    // nothing wrong so far
    pub right: bool,
    // how many cells have not been read yet
    pub left: u32,
    // the cell read last
    pub last: u32,
    // how many leading path words are the cells of the way down to the cell read last; no longer counted past the position
    pub agreed: u32,
    // the position has been read
    pub reached: bool,
}
