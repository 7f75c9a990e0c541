// Frees every cell strictly between head and position in key order, each put at the front of the free chain, and leaves the settled shape
// of the rest. No list of those cells is kept: they are chained through their value words, which are 0 in a dead cell.
#![tactic(auto)]

ghost use Rattle.std.specs.Prelude.{◌≡◌, ◌∷◌, suc, ◌-◌, ◌≤◌, ◌<◌, length, replicate};
ghost use Rattle.std.proofs.lemmas.List.Edits.{sets};
ghost use Rattle.settings.specs.Numbers.{cell_words};
ghost use Rattle.lists.specs.Lists.{first_number};
ghost use Rattle.meaning.specs.Picture.{picture};
ghost use Rattle.meaning.specs.Reading.{read};
ghost use Rattle.meaning.specs.Words.{word_index};
ghost use Rattle.meaning.specs.Operations.{freed_by, swept};
ghost use Rattle.meaning.specs.Layer.SweepStores.{take_links, relink_head, free_cell};
ghost use Rattle.words.specs.Shaped.{Shaped, Within};
ghost use Rattle.paths.specs.Paths.{path_of, PathIn};
ghost use Rattle.free_between.specs.Between.{Droppable, zeros_of, Keyed, freed_cells, LastDead, FirstFreed, free_chained, ChainIn, CellsChained};

use paths::Path;
use settings::{Levels, Settings};

// Where a sweep moves the position: the cell, the number of the link by which it was reached, its path.
#[derive(Clone, Copy)]
pub struct Target {
    pub cell: u32,
    pub number: u32,
    pub path: Path,
}

// The cells to free, chained through their value words, and how many they are.
#[derive(Clone, Copy)]
struct Freed {
    first: u32,
    count: u32,
}

// Chains cell `first`, whose path is `start`, and the cells between it and the new position through their value words. Answers how many
// they are.
fn chain_from(list: &mut [u32], s: Settings, position: u32, first: u32, start: Path) -> u32
    requires { FirstFreed list.old s position first start }
    ensures { CellsChained list.old s result list.new }
{
    let mut path = start;
    let mut last = first;
    let mut count: u32 = 1;
    // the position stands, so the way comes to it
    while let Some(next) = paths::next(list, s, &mut path) {
        if next.cell == position {
            break;
        }
        words::store(list, s, last, words::VALUE, next.cell);
        last = next.cell;
        count += 1;
    }
    count
}

// Chains the cells between the head and the new position.
fn chain_between(list: &mut [u32], s: Settings, position: u32) -> Freed
    requires { LastDead list.old s position }
    ensures { CellsChained list.old s result.count list.new × (result.first ≡ first_number (freed_cells list.old)) }
{
    let mut path = paths::head_path(s);
    if let Some(first) = paths::next(list, s, &mut path) {
        if first.cell != position {
            let count = chain_from(list, s, position, first.cell, path);
            return Freed {
                first: first.cell,
                count,
            };
        }
    }
    Freed { first: 0, count: 0 }
}

// How many leading coordinates of cell x are 0: what it shares with the head. Those up to number d are 0 if its key is below the power of
// level d + 1.
fn leading_zeros(list: &[u32], levels: &Levels, x: u32) -> u32
    requires { Shaped list.now levels.now.settings × Keyed list.now levels.now.settings x }
    ensures { result ≡ zeros_of list.now levels.now.settings x }
{
    let key = words::word(list, levels.settings, x, words::KEY) as u64;
    for d in 0..levels.settings.dimensions {
        if levels.powers[d as usize + 1] <= key {
            return d;
        }
    }
    levels.settings.dimensions
}

// The new position's links from z up to its old dimension: those of the cells on its path.
fn take_links(list: &mut [u32], s: Settings, t: Target, z: u32)
    requires { Shaped list.old s × ((t.cell < s.cells) × ((t.number ≤ s.dimensions) × PathIn s t.path)) }
    ensures { (list.new ≡ take_links s.dimensions list.old t.cell (path_of t.path) z (t.number - z)) × Shaped list.new s }
{
    for d in z..t.number {
        let y = words::link(list, s, t.path.cells[d as usize], d);
        words::store_link(list, s, t.cell, d, y);
    }
}

// Word j of cell x becomes v, the words after it 0.
fn store_before_zeros(list: &mut [u32], s: Settings, x: u32, j: u32, v: u32)
    requires { Shaped list.old s × Within s x j }
    ensures { (list.new ≡ sets list.old (word_index s.dimensions x j) (v ∷ replicate (cell_words s.dimensions - suc j) 0)) × Shaped list.new s }
{
    words::store(list, s, x, j, v);
    let start = words::word_index(s, x, j) + 1;
    let end = start + Settings::cell_words(s.dimensions) - 1 - j as usize;
    list[start..end].fill(0);
}

// The head's link z leads to the new position, its higher links nowhere.
fn relink_head(list: &mut [u32], s: Settings, position: u32, z: u32)
    requires { Shaped list.old s × ((0 < s.cells) × (z < s.dimensions)) }
    ensures { (list.new ≡ relink_head s.dimensions list.old position z) × Shaped list.new s }
{
    store_before_zeros(list, s, 0, words::LINKS + z, position);
}

// Cell x becomes the first free one.
fn free_cell(list: &mut [u32], s: Settings, x: u32)
    requires { Shaped list.old s × (x < s.cells) }
    ensures { (list.new ≡ free_cell s.dimensions list.old x) × Shaped list.new s }
{
    let next = list[words::FIRST_FREE];
    store_before_zeros(list, s, x, words::KEY, next);
    list[words::FIRST_FREE] = x;
}

// Frees the chained cells, in ascending order of their keys.
fn free_chained(list: &mut [u32], s: Settings, chained: Freed)
    requires { Shaped list.old s × ChainIn s list.old chained.first chained.count }
    ensures { (list.new ≡ free_chained s.dimensions list.old chained.first chained.count) × Shaped list.new s }
{
    let mut x = chained.first;
    for _ in 0..chained.count {
        let next = words::word(list, s, x, words::VALUE);
        free_cell(list, s, x);
        x = next;
    }
}

// Relinks head and new position, frees what is between, and redraws the path. The cells between are chained first: once the head is
// relinked, no link leads to them. Answers how many are freed.
pub fn drop_front(list: &mut [u32], levels: &Levels, t: Target) -> u32
    requires { Droppable list.old levels.now.settings t }
    ensures { (list.new ≡ picture (swept (read list.old))) × (result ≡ length (freed_by (read list.old).row)) }
{
    let z = leading_zeros(list, levels, t.cell);
    let chained = chain_between(list, levels.settings, t.cell);
    take_links(list, levels.settings, t, z);
    relink_head(list, levels.settings, t.cell, z);
    free_chained(list, levels.settings, chained);
    let path = paths::onward(paths::head_path(levels.settings), z, t.cell);
    paths::write_path(list, levels.settings, path);
    chained.count
}
