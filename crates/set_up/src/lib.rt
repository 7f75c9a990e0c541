// Set up: a fresh list in the lent words: The operations 1.
#![tactic(auto)]

ghost use Rattle.std.specs.Prelude.{◌≡◌, ◌++◌, ◌+◌, ◌≤◌, ◌<◌, length, take, drop};
ghost use Rattle.settings.specs.Numbers.{header_words, length_of};
ghost use Rattle.answers.specs.Refusals.{Meets};
ghost use Rattle.meaning.specs.Operations.{set_up_out};
ghost use Rattle.set_up.specs.Fresh.{fresh_first, fresh_mark, cell_of, fresh_cells, fresh_header, fresh_list};

use answers::{Answer, Refusal};
use settings::Settings;

// A cell's words: its first word, its mark, every other word 0.
#[tactic(auto, using(crate::proofs::Drawing::cell_written))]
fn write_cell(part: &mut [u32], first: u32, mark: u32)
    requires { 3 ≤ length part.old }
    ensures { part.new ≡ cell_of (length part.old) first mark }
{
    // Not by the library's fill, which sets the last word by itself: a fresh list of 2 dimensions took it a quarter longer.
    for word in part.iter_mut() {
        *word = 0;
    }
    part[0] = first;
    part[2] = mark;
}

// Words 0 to 4: D, K, C, b and the first free cell, 1.
fn write_header(list: &mut [u32], s: Settings)
    requires { header_words ≤ length list.old }
    ensures { list.new ≡ fresh_header s ++ drop header_words list.old }
{
    list[0] = s.dimensions;
    list[1] = s.largest;
    list[2] = s.cells;
    list[3] = s.base;
    list[words::FIRST_FREE] = 1;
}

// The first word of cell x of a fresh list: the head's key, 0, or the next free cell, and 0 in the last.
#[tactic(auto, unfolding(crate::specs::Fresh::fresh_first))]
fn first_word(x: u32, c: u32) -> u32
    requires { x < c }
    ensures { result ≡ fresh_first c x }
{
    if x == 0 || x + 1 == c { 0 } else { x + 1 }
}

// The mark of cell x of a fresh list: the head is dead, every other cell free.
#[tactic(auto, unfolding(crate::specs::Fresh::fresh_mark))]
fn mark_of(x: u32) -> u32
    ensures { result ≡ fresh_mark x }
{
    if x == 0 { words::DEAD } else { words::FREE }
}

// The C cells, one after the other.
fn write_cells(list: &mut [u32], d: u32, c: u32)
    requires { length list.old ≡ length_of d c }
    ensures { list.new ≡ take (header_words + d) list.old ++ fresh_cells d c c }
{
    let first = words::HEADER_WORDS + d as usize;
    let cell_words = Settings::cell_words(d);
    for x in 0..c {
        let start = first + x as usize * cell_words;
        write_cell(
            &mut list[start..start + cell_words],
            first_word(x, c),
            mark_of(x),
        );
    }
}

// Every word of a fresh list with settings s.
#[tactic(auto, using(crate::proofs::Drawing::list_written))]
fn draw(list: &mut [u32], s: Settings)
    requires { length list.old ≡ length_of s.dimensions s.cells }
    ensures { list.new ≡ fresh_list s }
{
    write_header(list, s);
    let end = words::HEADER_WORDS + s.dimensions as usize;
    list[words::HEADER_WORDS..end].fill(0);
    write_cells(list, s.dimensions, s.cells);
}

// Makes the lent words a fresh list with D dimensions, largest key K and C cells; refuses 1, numbers out of range, or 2, another length.
pub fn set_up(d: u32, k: u32, c: u32, list: &mut [u32]) -> Answer
    ensures { Meets (set_up_out d k c list.old) result list.new }
{
    let checked = Settings::new(d, k, c);
    let Some(s) = checked else {
        return answers::refused(Refusal::OutOfRange);
    };
    if list.len() != s.length() {
        return answers::refused(Refusal::WrongLength);
    }
    draw(list, s);
    answers::accepted(0, 0, 0)
}
