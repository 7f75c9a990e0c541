// Whether one standing cell is right: when it is met by a link, after the cell that was read before it, and when its links are put.
ghost use Rattle.std.specs.Prelude.{◌≡◌, ◌≤◌, ◌<◌};
ghost use Rattle.words.specs.Shaped.{Shaped};
ghost use Rattle.account.specs.Tree.{follows, node_right};
ghost use Rattle.account.specs.Loop.{alone_right, links_none, owes_nothing, owes_right};
ghost use Rattle.cell_tests.specs.Tests.{only_link};

use account::Seen;
use settings::{Levels, Settings};

// Whether cell y comes after cell x in key order and shares exactly e coordinates with it.
fn cell_follows(list: &[u32], levels: &Levels, x: u32, y: u32, e: u32) -> bool
    requires { Shaped list.now levels.now.settings × ((x < levels.now.settings.cells) × ((y < levels.now.settings.cells) × (e < levels.now.settings.dimensions))) }
    ensures { result ≡ follows list.now x y e }
{
    let before = words::word(list, levels.settings, x, words::KEY) as u64;
    let key = words::word(list, levels.settings, y, words::KEY);
    let d = e as usize;
    if before < steps::block_start(key, levels.powers[d]) {
        return false;
    }
    before < steps::block_start(key, levels.powers[d + 1])
}

// Whether the key of cell y is at most K, and its mark and value are right: dead as long as the position has not been read.
#[tactic(auto, unfolding(account::specs::Tree::node_right))]
fn node_right(list: &[u32], s: Settings, y: u32, reached: bool) -> bool
    requires { Shaped list.now s × (y < s.cells) }
    ensures { result ≡ node_right list.now y reached }
{
    if s.largest < words::word(list, s, y, words::KEY) {
        return false;
    }
    let mark = words::word(list, s, y, words::MARK);
    if mark == 2 {
        return words::word(list, s, y, words::VALUE) == 0;
    }
    if mark == 1 {
        return reached;
    }
    false
}

// Whether the links of cell y below number n are 0.
#[tactic(auto, using(crate::proofs::Tests::all_rules), unfolding(account::specs::Loop::links_none))]
pub fn links_none(list: &[u32], s: Settings, y: u32, n: u32) -> bool
    requires { Shaped list.now s × ((y < s.cells) × (n ≤ s.dimensions)) }
    ensures { result ≡ links_none list.now y n }
{
    for d in 0..n {
        if words::link(list, s, y, d) != 0 {
            return false;
        }
    }
    true
}

// Whether cell y owes nothing, and its low and high are 0.
#[tactic(auto, unfolding(account::specs::Loop::owes_nothing))]
pub fn owes_nothing(list: &[u32], s: Settings, y: u32) -> bool
    requires { Shaped list.now s × (y < s.cells) }
    ensures { result ≡ owes_nothing list.now y }
{
    if words::word(list, s, y, words::OWED) != 0 {
        return false;
    }
    if words::word(list, s, y, words::LOW) != 0 {
        return false;
    }
    words::word(list, s, y, words::HIGH) == 0
}

// Whether link number `high` of cell y is c and every other link of y is 0.
#[tactic(auto, using(crate::proofs::Tests::all_rules, words::proofs::Shaped::shaped_dimensions))]
fn only_link(list: &[u32], s: Settings, y: u32, high: u32, c: u32) -> bool
    requires { Shaped list.now s × (y < s.cells) }
    ensures { result ≡ only_link list.now y high c }
{
    for d in 0..s.dimensions {
        let expected = if d == high { c } else { 0 };
        if words::link(list, s, y, d) != expected {
            return false;
        }
    }
    true
}

// Whether cell y, met by link e, owes as a cell of a list may.
#[tactic(auto, unfolding(account::specs::Loop::owes_right))]
pub fn owes_right(list: &[u32], s: Settings, y: u32, e: u32) -> bool
    requires { Shaped list.now s × ((y < s.cells) × (e < s.dimensions)) }
    ensures { result ≡ owes_right list.now y e }
{
    let owed = words::word(list, s, y, words::OWED);
    let high = words::word(list, s, y, words::HIGH);
    if owed == 0 {
        return false;
    }
    if words::word(list, s, y, words::LOW) != e {
        return false;
    }
    if high <= e {
        return false;
    }
    if s.dimensions <= high {
        return false;
    }
    if s.cells <= owed {
        return false;
    }
    only_link(list, s, y, high, owed)
}

// Whether cell y, met by link e, is right after what has been seen, but for the path, its links and its debt.
pub fn alone_right(list: &[u32], levels: &Levels, y: u32, e: u32, seen: Seen) -> bool
    requires { Shaped list.now levels.now.settings × ((e < levels.now.settings.dimensions) × (seen.last < levels.now.settings.cells)) }
    ensures { result ≡ alone_right list.now y e seen }
{
    if seen.left == 0 {
        return false;
    }
    if levels.settings.cells <= y {
        return false;
    }
    if !cell_follows(list, levels, seen.last, y, e) {
        return false;
    }
    node_right(list, levels.settings, y, seen.reached)
}
