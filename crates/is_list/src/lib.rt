// The check for refusal 3: whether lent words are a list. It reads the list cell by cell in ascending order of keys, each child's own
// children in turn, as crate account has it on the words; that account accepts exactly the lists.
#![tactic(auto)]

ghost use Rattle.std.specs.Prelude.{◌≡◌, Some};
ghost use Rattle.meaning.specs.Reading.{is_list};
ghost use Rattle.is_list.specs.Standing.{header_of};
ghost use Rattle.is_list.specs.Verdict.{Decided};

use settings::{Levels, Settings};

mod path; // path.rt: the words of path beside the way down
mod standing; // standing.rt: the standing cells in order, from the head on
mod free; // free.rt: the chain of free cells

// The settings that the header holds; none unless D, K and C are in range, the length is exact and b is the least number whose power D is
// above K.
fn header(list: &[u32]) -> Option<Settings>
    ensures { result ≡ header_of list.now }
{
    if list.len() < words::HEADER_WORDS {
        return None;
    }
    let s = Settings {
        dimensions: list[0],
        largest: list[1],
        cells: list[2],
        base: list[3],
    };
    if !Settings::in_range(s.dimensions, s.largest, s.cells) {
        return None;
    }
    if list.len() != s.length() {
        return None;
    }
    if !Settings::is_base(s.base, s.dimensions, s.largest) {
        return None;
    }
    Some(s)
}

// Whether words with the header of a list with these settings are a list, by the tests of their cells.
fn cells_right(list: &[u32], levels: &Levels) -> bool
    requires { header_of list.now ≡ Some levels.now.settings }
    ensures { result ≡ is_list list.now }
{
    if !cell_tests::head::head_right(list, levels.settings) {
        return false;
    }
    let start = standing::at_head(list, levels.settings);
    if !start.right {
        return false;
    }
    let seen = standing::read(list, levels, start);
    if !seen.right {
        return false;
    }
    if !seen.reached {
        return false;
    }
    free::chain_right(list, levels.settings, seen.left, list[words::FIRST_FREE])
}

// The levels of the list that the lent words are; none where they are no list. The check needs them, and the call is lent them.
pub fn is_list(list: &[u32]) -> Option<Levels>
    ensures { Decided list.now result }
{
    let levels = Levels::of(header(list)?);
    if cells_right(list, &levels) {
        Some(levels)
    } else {
        None
    }
}
