// The search that insert, find and finish share. It goes by the one step function of crate words, so that looked is the number of
// steps that go to a cell; no cell is read that the walk does not meet, but for an owed cell whose link is read. From where it rests,
// insert asks for the standing cell of next smaller key; that way is no part of the walk.
#![tactic(auto)]

ghost use Rattle.std.specs.Prelude.{◌≡◌, suc, ◌≤◌, ◌<◌};
ghost use Rattle.meaning.specs.Lower.{lower_from};
ghost use Rattle.meaning.specs.Resting.{rest};
ghost use Rattle.meaning.specs.Layer.Listed.{Listed};
ghost use Rattle.steps.specs.Blocks.{BlocksOf};
ghost use Rattle.search.specs.Found.{Searched, SoughtSome};

use meaning::{Rest, Step};
use settings::{Levels, Settings};

// What is known when the walk for k has come to rest.
#[derive(Clone, Copy)]
pub struct Found {
    // whether k stands
    pub standing: bool,
    // the parent of k, and the number of the link by which k hangs from it, or would hang
    pub parent: u32,
    pub p: u32,
    // the cell that has that slot, 0 if none has: k's own cell if k stands; and how many coordinates k shares with it, 0 if none has
    pub c: u32,
    pub q: u32,
    // how many cells the walk went to
    pub looked: u32,
}

// Where the walk for k comes to rest; `starts` tells where k's blocks start.
fn rest_of(list: &[u32], s: Settings, starts: &[u64], powers: &[u64], k: u32) -> Rest
    requires { Listed list.now s × ((1 ≤ k) × ((k ≤ s.largest) × BlocksOf s k starts.now powers.now)) }
    ensures { result ≡ rest list.now k }
{
    let mut from: u32 = 0;
    let mut number: u32 = 0;
    let mut at: u32 = 0;
    let mut d: u32 = 0;
    let mut looked: u32 = 0;
    // A loop: each step is told by the cell that it is made from.
    loop {
        let next = steps::step(list, s, starts, powers, k, at, d);
        match next {
            Step::Go(y) => {
                from = at;
                number = d;
                at = y;
                looked += 1;
            }
            Step::Up => {
                d += 1;
            }
            Step::End => {
                return Rest {
                    from,
                    number,
                    at,
                    coordinate: d,
                    looked,
                };
            }
        }
    }
}

// What is known where the walk's last move went to k or above it, along the link of k's parent; q is what k shares with the cell gone to.
fn moved(r: Rest, standing: bool, q: u32) -> Found
    ensures { result ≡ record { standing = standing; parent = r.from; p = r.number; c = r.at; q = q; looked = r.looked } }
{
    Found {
        standing,
        parent: r.from,
        p: r.number,
        c: r.at,
        q,
        looked: r.looked,
    }
}

// The search for k. Where the walk rests below k it wants a link of the cell at hand; else its last move went to k or above it.
pub fn search(list: &[u32], levels: &Levels, k: u32) -> Found
    requires { Listed list.now levels.now.settings × ((1 ≤ k) × (k ≤ levels.now.settings.largest)) }
    ensures { Searched list.now levels.now.settings k result }
{
    let starts = steps::block_starts(k, levels);
    let r = rest_of(list, levels.settings, &starts, &levels.powers, k);
    let key = words::word(list, levels.settings, r.at, words::KEY);
    if key < k {
        return Found {
            standing: false,
            parent: r.at,
            p: r.coordinate,
            c: 0,
            q: 0,
            looked: r.looked,
        };
    }
    if k < key {
        return moved(r, false, r.coordinate);
    }
    moved(r, true, levels.settings.dimensions)
}

// The standing cell of next smaller key than the one sought, the head if there is no other: the last cell of the parent's branch from the
// link after p on. It is reached along each cell's lowest link from the number at hand on.
pub fn lower(list: &[u32], s: Settings, f: Found) -> u32
    requires { SoughtSome list.now s f }
    ensures { result ≡ lower_from list.now f.parent (suc f.p) }
{
    let mut at = f.parent;
    let mut d = f.p + 1;
    // A while: the link that is read tells whether the cell or the number goes on.
    while d < s.dimensions {
        let y = words::link_read(list, s, at, d);
        if y == 0 {
            d += 1;
        } else {
            at = y;
        }
    }
    at
}
