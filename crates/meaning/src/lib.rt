// The types that the definitions and the code share: one step of the walk, where it comes to rest, and the slot of a
// new cell.
#![tactic(auto)]

// One step of the walk, from a cell and a coordinate: along the cell's link to a cell, up by one coordinate, or the walk's end.
#[derive(Clone, Copy)]
pub enum Step {
    Go(u32),
    Up,
    End,
}

// Where the walk comes to rest: the cell that its last move went from and the number of that link, the cell and the coordinate at hand,
// and how many cells it has gone to.
#[derive(Clone, Copy)]
pub struct Rest {
    pub from: u32,
    pub number: u32,
    pub at: u32,
    pub coordinate: u32,
    pub looked: u32,
}

// The slot of a new cell n: link p of its parent; the cell c that had it before, 0 if none had, becomes link q of n.
#[derive(Clone, Copy)]
pub struct Slot {
    pub n: u32,
    pub parent: u32,
    pub p: u32,
    pub c: u32,
    pub q: u32,
}
