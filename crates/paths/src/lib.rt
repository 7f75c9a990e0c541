// Paths: word d of a cell's path is the first standing cell that shares at least d+1 coordinates with it (The position 2). The path of the
// position as the words have it, the path of any standing cell, and the next standing cell in key order from a path (the deletion stack
// of the MDList paper).
#![tactic(auto)]

ghost use Rattle.std.specs.Prelude.{◌≡◌, ◌++◌, ◌≤◌, length, take, drop, replicate};
ghost use Rattle.settings.specs.Numbers.{header_words, most_dimensions};
ghost use Rattle.meaning.specs.Walk.{trail};
ghost use Rattle.meaning.specs.Layer.Paths.{path_over};
ghost use Rattle.meaning.specs.Layer.Paths as definitions;
ghost use Rattle.meaning.specs.Layer.Stores.{write_path};
ghost use Rattle.words.specs.Shaped.{Shaped};
ghost use Rattle.steps.specs.Blocks.{BlocksOf};
ghost use Rattle.paths.specs.Paths.{path_of, Onward, PathIn, Walkable, WalkEnds, NextFound, NextIs, StandsInSome, CellPath};

mod path;

use meaning::Step;
pub use path::Path;
use settings::{Levels, Settings};

// The next standing cell in key order and the number of the link that leads to it.
#[derive(Clone, Copy)]
pub struct NextCell {
    pub cell: u32,
    pub number: u32,
}

// The head's path.
pub fn head_path(s: Settings) -> Path
    requires { s.dimensions ≤ most_dimensions }
    ensures { (path_of result ≡ replicate s.dimensions 0) × (result.used ≡ s.dimensions) }
{
    Path {
        cells: [0u32; 16],
        used: s.dimensions,
    }
}

// Cell y from word d on, of a path that is the first `used` of some cell numbers; those past it stay.
pub fn put_onward(cells: &mut [u32], used: u32, d: u32, y: u32)
    requires { (d ≤ used) × (used ≤ length cells.old) }
    ensures { cells.new ≡ definitions.onward used cells.old d y ++ drop used cells.old }
{
    cells[d as usize..used as usize].fill(y);
}

impl Path {
    // The path goes on to cell y from word d on.
    pub fn put_onward(&mut self, d: u32, y: u32)
        requires { d ≤ self.old.used }
        ensures { Onward self.old d y self.new }
    {
        put_onward(&mut self.cells, self.used, d, y);
    }
}

// The path with cell y from word d on.
pub fn onward(mut path: Path, d: u32, y: u32) -> Path
    requires { d ≤ path.used }
    ensures { Onward path d y result }
{
    path.put_onward(d, y);
    path
}

// The position's path, as the words have it.
pub fn read_path(list: &[u32], s: Settings) -> Path
    requires { Shaped list.now s }
    ensures { (path_of result ≡ take s.dimensions (drop header_words list.now)) × (result.used ≡ s.dimensions) }
{
    let end = s.dimensions as usize;
    let mut cells = [0u32; 16];
    cells[..end].copy_from_slice(&list[words::HEADER_WORDS..words::HEADER_WORDS + end]);
    Path {
        cells,
        used: s.dimensions,
    }
}

// The D words of path become a path's cells.
pub fn write_path(list: &mut [u32], s: Settings, path: Path)
    requires { Shaped list.old s × (path.used ≡ s.dimensions) }
    ensures { (list.new ≡ write_path list.old (path_of path)) × Shaped list.new s }
{
    let end = s.dimensions as usize;
    list[words::HEADER_WORDS..words::HEADER_WORDS + end].copy_from_slice(&path.cells[..end]);
}

// The path of the standing cell with key k, along the walk for k; `starts` tells where k's blocks start.
fn path_along(list: &[u32], s: Settings, starts: &[u64], powers: &[u64], k: u32) -> Path
    requires { Walkable list.now s × (BlocksOf s k starts.now powers.now × WalkEnds list.now s k) }
    ensures { (path_of result ≡ path_over s.dimensions (replicate s.dimensions 0) 0 (trail list.now k)) × (result.used ≡ s.dimensions) }
{
    let mut path = head_path(s);
    let mut at: u32 = 0;
    let mut d: u32 = 0;
    loop {
        let next = steps::step(list, s, starts, powers, k, at, d);
        match next {
            Step::Go(y) => {
                path.put_onward(d, y);
                at = y;
            }
            Step::Up => {
                d += 1;
            }
            Step::End => {
                return path;
            }
        }
    }
}

// The path of standing cell x.
pub fn path_of(list: &[u32], levels: &Levels, x: u32) -> Path
    requires { StandsInSome list.now levels.now.settings x }
    ensures { CellPath list.now levels.now.settings x result }
{
    if x == 0 {
        return head_path(levels.settings);
    }
    let k = words::word(list, levels.settings, x, words::KEY);
    let starts = steps::block_starts(k, levels);
    path_along(list, levels.settings, &starts, &levels.powers, k)
}

// The next standing cell in key order after the cell that a path leads to: the highest link d of the path's cell d that is not 0 leads to
// it.
pub fn next_from(list: &[u32], s: Settings, path: &Path) -> Option<NextCell>
    requires { Walkable list.now s × PathIn s path.now }
    ensures { NextFound list.now s path.now result }
{
    for d in (0..s.dimensions).rev() {
        let y = words::link_read(list, s, path.cells[d as usize], d);
        if y != 0 {
            return Some(NextCell { cell: y, number: d });
        }
    }
    None
}

// The next standing cell, to which the path goes on; where there is none, it stays.
pub fn next(list: &[u32], s: Settings, path: &mut Path) -> Option<NextCell>
    requires { Walkable list.now s × PathIn s path.old }
    ensures { NextIs list.now s path.old result path.new }
{
    let next = next_from(list, s, path)?;
    path.put_onward(next.number, next.cell);
    Some(next)
}
