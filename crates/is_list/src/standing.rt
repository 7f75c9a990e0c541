// The standing cells, read in ascending order of keys from the head on, in one loop, with the path's words beside the way down. The links that are
// still to be followed are kept pending, at most one of each number: the next cell is where the one of the highest number leads.
ghost use Rattle.std.specs.Prelude.{◌≡◌, [], ◌-◌, ◌≤◌, ◌<◌};
ghost use Rattle.meaning.specs.Words.{link_at};
ghost use Rattle.words.specs.Shaped.{Shaped};
ghost use Rattle.account.specs.Tree.{at_head};
ghost use Rattle.account.specs.Tree as tree;
ghost use Rattle.account.specs.Pending.{put_from};
ghost use Rattle.account.specs.Loop.{left_over, verdict};
ghost use Rattle.is_list.specs.Standing.{SeenWithin, Entered, pending_of, Pending, owing_next, NextIs, Started};

use super::path;
use account::Seen;
use cell_tests::standing;
use settings::{Levels, Settings};

// Where to go on: the cell that a pending link leads to and the link's number, the least number by which that cell may have a link, and how
// many links are pending then.
#[derive(Clone, Copy)]
pub struct Way {
    pub cell: u32,
    pub number: u32,
    pub from: u32,
    pub count: u32,
}

// What comes after a cell: its links or its debt are wrong, or no link is pending, or the next cell.
#[derive(Clone, Copy)]
pub enum Next {
    Wrong,
    End,
    Goes(Way),
}

// What has been seen at the head.
pub fn at_head(list: &[u32], s: Settings) -> Seen
    requires { Shaped list.now s × (0 < s.cells) }
    ensures { (result ≡ at_head list.now) × SeenWithin s result }
{
    let agreed = path::path_run(list, s, 0, 0);
    let head = Seen {
        right: true,
        left: s.cells - 1,
        last: 0,
        agreed,
        reached: false,
    };
    if words::position(list, s) != 0 {
        return head;
    }
    Seen {
        right: agreed == s.dimensions,
        reached: true,
        ..head
    }
}

// What has been seen, and something in it is wrong.
fn wrong(seen: Seen) -> Seen
    ensures { result ≡ tree.wrong seen }
{
    Seen {
        right: false,
        ..seen
    }
}

// What has been seen once cell y is met by link e. Past the position the path is no longer compared.
#[tactic(auto, using(crate::proofs::InOrder::enter_cases, words::proofs::Shaped::shaped_dimensions, cell_tests::proofs::OneCell::alone))]
fn enter(list: &[u32], levels: &Levels, y: u32, e: u32, seen: Seen) -> Seen
    requires { Shaped list.now levels.now.settings × ((e < levels.now.settings.dimensions) × SeenWithin levels.now.settings seen) }
    ensures { Entered list.now levels.now.settings y e seen result }
{
    if !standing::alone_right(list, levels, y, e, seen) {
        return wrong(seen);
    }
    let met = Seen {
        right: true,
        left: seen.left - 1,
        last: y,
        ..seen
    };
    if seen.reached {
        return met;
    }
    let agreed = path::agreed_at(list, levels.settings, y, e, seen.agreed);
    if y == words::position(list, levels.settings) {
        if agreed != levels.settings.dimensions {
            return wrong(seen);
        }
        return Seen {
            agreed,
            reached: true,
            ..met
        };
    }
    Seen { agreed, ..met }
}

// Puts the links of cell x from number `from` on that are not 0 after the pending ones, the lowest number first; answers how many are pending then.
fn put_links(
    list: &[u32],
    s: Settings,
    x: u32,
    from: u32,
    cells: &mut [u32],
    numbers: &mut [u32],
    count: u32,
) -> u32
    requires { Shaped list.now s × ((x < s.cells) × ((from ≤ s.dimensions) × Pending s cells.old numbers.old count from)) }
    ensures { (pending_of cells.new numbers.new result ≡ put_from (link_at list.now x) from (s.dimensions - from) (pending_of cells.old numbers.old count))
        × Pending s cells.new numbers.new result s.dimensions }
{
    let mut n = count;
    let mut d = from;
    while d < s.dimensions {
        let y = words::link(list, s, x, d);
        if y == 0 {
            d += 1;
        } else {
            cells[n as usize] = y;
            numbers[n as usize] = d;
            n += 1;
            d += 1;
        }
    }
    n
}

// What comes after cell x, met by link e, that owes: its one link, if it owes as a cell may.
fn owing(list: &[u32], s: Settings, x: u32, e: u32, from: u32, count: u32) -> Next
    requires { Shaped list.now s × ((x < s.cells) × (e < s.dimensions)) }
    ensures { result ≡ owing_next list.now x e from count }
{
    if from != e {
        return Next::Wrong;
    }
    if !standing::owes_right(list, s, x, e) {
        return Next::Wrong;
    }
    Next::Goes(Way {
        cell: words::word(list, s, x, words::OWED),
        number: words::word(list, s, x, words::HIGH),
        from: e,
        count,
    })
}

// What comes after cell x, met by link e.
fn go_on(
    list: &[u32],
    s: Settings,
    x: u32,
    e: u32,
    from: u32,
    cells: &mut [u32],
    numbers: &mut [u32],
    count: u32,
) -> Next
    requires { Shaped list.now s × ((x < s.cells) × ((e < s.dimensions) × ((from ≤ e) × Pending s cells.old numbers.old count from))) }
    ensures { NextIs list.now s x e from (pending_of cells.old numbers.old count) result cells.new numbers.new }
{
    if !standing::links_none(list, s, x, from) {
        return Next::Wrong;
    }
    if !standing::owes_nothing(list, s, x) {
        return owing(list, s, x, e, from, count);
    }
    let n = put_links(list, s, x, from, cells, numbers, count);
    if n == 0 {
        return Next::End;
    }
    let top = n - 1;
    let number = numbers[top as usize];
    Next::Goes(Way {
        cell: cells[top as usize],
        number,
        from: number,
        count: top,
    })
}

// What has been seen when all standing cells have been read, from what has been seen at the head on.
pub fn read(list: &[u32], levels: &Levels, start: Seen) -> Seen
    requires { Started list.now levels.now.settings start }
    ensures { verdict result ≡ verdict (left_over list.now 0 0 0 0 [] start) }
{
    let mut cells = [0u32; 16];
    let mut numbers = [0u32; 16];
    let mut count: u32 = 0;
    let mut e: u32 = 0;
    let mut from: u32 = 0;
    let mut seen = start;
    loop {
        let goes = go_on(
            list,
            levels.settings,
            seen.last,
            e,
            from,
            &mut cells,
            &mut numbers,
            count,
        );
        match goes {
            Next::Wrong => return wrong(seen),
            Next::End => return seen,
            Next::Goes(w) => {
                seen = enter(list, levels, w.cell, w.number, seen);
                e = w.number;
                from = w.from;
                count = w.count;
            }
        }
        if !seen.right {
            return seen;
        }
    }
}
