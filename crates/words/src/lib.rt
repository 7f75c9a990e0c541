// The words of a list, used in place: reading and writing a word of a cell, a cell's links read through what is owed. What takes a list asks
// that its words have the shape of one (Shaped), and what writes a cell's word hands that on.
#![tactic(auto)]

ghost use Rattle.std.specs.Prelude.{◌≡◌, ◌<◌, ◌≤◌};
ghost use Rattle.settings.specs.Numbers.{most_dimensions, most_cells};
ghost use Rattle.meaning.specs.Words.{word_index, word_at, position_at, owed_at, link_field, link_at};
ghost use Rattle.meaning.specs.Walk.{link_read};
ghost use Rattle.meaning.specs.Layer.Stores as stores;
ghost use Rattle.words.specs.Shaped.{Shaped, Within};

use settings::Settings;

// The words 1: the header, before the path.
pub const HEADER_WORDS: usize = Settings::HEADER_WORDS;

// Word 4 is the first free cell.
pub const FIRST_FREE: usize = 4;

// The words 1: the fields of a cell, by their numbers.
pub const KEY: u32 = 0;

pub const VALUE: u32 = 1;

pub const MARK: u32 = 2;

pub const OWED: u32 = 3;

pub const LOW: u32 = 4;

pub const HIGH: u32 = 5;

pub const LINKS: u32 = Settings::FIELDS_BEFORE_LINKS;

// The words 1: the marks.
pub const FREE: u32 = 0;

pub const LIVE: u32 = 1;

pub const DEAD: u32 = 2;

// Where word j of cell x stands; below 2 to the power 30, so that what callers add to it does not wrap.
pub fn word_index(s: Settings, x: u32, j: u32) -> usize
    requires { (s.dimensions ≤ most_dimensions) × ((s.cells ≤ most_cells) × Within s x j) }
    ensures { (result ≡ word_index s.dimensions x j) × (result < 1073741824) }
{
    HEADER_WORDS
        + s.dimensions as usize
        + (x as usize) * Settings::cell_words(s.dimensions)
        + j as usize
}

// Word j of cell x.
pub fn word(list: &[u32], s: Settings, x: u32, j: u32) -> u32
    requires { Shaped list.now s × Within s x j }
    ensures { result ≡ word_at list.now x j }
{
    let i = word_index(s, x, j);
    list[i]
}

// Word j of cell x becomes v.
pub fn store(list: &mut [u32], s: Settings, x: u32, j: u32, v: u32)
    requires { Shaped list.old s × Within s x j }
    ensures { (list.new ≡ stores.store s.dimensions list.old x j v) × Shaped list.new s }
{
    let at = word_index(s, x, j);
    list[at] = v;
}

// The position: the cell that the last path word names.
pub fn position(list: &[u32], s: Settings) -> u32
    requires { Shaped list.now s }
    ensures { result ≡ position_at list.now }
{
    let i = HEADER_WORDS + s.dimensions as usize - 1;
    list[i]
}

// Link d of cell x, as its word has it.
pub fn link(list: &[u32], s: Settings, x: u32, d: u32) -> u32
    requires { Shaped list.now s × ((x < s.cells) × (d < s.dimensions)) }
    ensures { result ≡ link_at list.now x d }
{
    word(list, s, x, LINKS + d)
}

// Link d of cell x becomes v.
pub fn store_link(list: &mut [u32], s: Settings, x: u32, d: u32, v: u32)
    requires { Shaped list.old s × ((x < s.cells) × (d < s.dimensions)) }
    ensures { (list.new ≡ stores.store s.dimensions list.old x (link_field d) v) × Shaped list.new s }
{
    store(list, s, x, LINKS + d, v);
}

// Link d of cell x, read from the owed cell where x owes it.
pub fn link_read(list: &[u32], s: Settings, x: u32, d: u32) -> u32
    requires { Shaped list.now s × ((x < s.cells) × ((d < s.dimensions) × (owed_at list.now x < s.cells))) }
    ensures { result ≡ link_read list.now x d }
{
    let owed = word(list, s, x, OWED);
    if owed == 0 {
        return link(list, s, x, d);
    }
    if d < word(list, s, x, LOW) {
        return link(list, s, x, d);
    }
    if word(list, s, x, HIGH) <= d {
        return link(list, s, x, d);
    }
    link(list, s, owed, d)
}
