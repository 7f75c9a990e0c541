// The class record, 32 words lent beside a list: for each class its live count, then its least live key. It is written by one pass over the cells in
// memory order, two words a cell, and compared by such a pass into words of its own. The question about one class reads two words.
#![tactic(auto)]

ghost use Rattle.std.specs.Prelude.{◌≡◌, ◌*◌, ◌≤◌, ◌<◌, length};
ghost use Rattle.answers.specs.Refusals.{Meets};
ghost use Rattle.meaning.specs.Layer.Listed.{Listed};
ghost use Rattle.classes.specs.Classes.{number_of_classes, record_words, lesser, classes_of, agrees, count_at, class_out};
ghost use Rattle.classes.specs.Tallying.{with_key, with_cell, Roomy};

use answers::{Answer, Refusal};
use settings::Settings;

const NUMBER_OF_CLASSES: u32 = 16;

pub const RECORD_WORDS: usize = 32;

// Where the count of a class stands; its least key is the word after it.
fn count_at(class: u32) -> usize
    requires { class < number_of_classes }
    ensures { (result ≡ count_at class) × (result < 31) }
{
    (class as usize) * 2
}

// The lesser of a key and the least so far, of which 0 is none.
#[tactic(auto, unfolding(crate::specs::Classes::lesser))]
fn lesser_of(key: u32, least: u32) -> u32
    ensures { result ≡ lesser key least }
{
    match (key, least) {
        (0, _) => least,
        (_, 0) => key,
        _ => key.min(least),
    }
}

// Puts a live key into the record.
#[tactic(auto, unfolding(crate::specs::Tallying::with_key_in))]
fn add_key(classes: &mut [u32], key: u32)
    requires { Roomy classes.old }
    ensures { classes.new ≡ with_key key classes.old }
{
    let at = count_at(key / entries::KEYS_PER_CLASS);
    let least = lesser_of(key, classes[at + 1]);
    classes[at] += 1;
    classes[at + 1] = least;
}

// Puts cell x into the record, if it is live.
fn add_cell(list: &[u32], s: Settings, x: u32, classes: &mut [u32])
    requires { Listed list.now s × ((x < s.cells) × Roomy classes.old) }
    ensures { classes.new ≡ with_cell list.now x classes.old }
{
    if words::word(list, s, x, words::MARK) == words::LIVE {
        add_key(classes, words::word(list, s, x, words::KEY));
    }
}

// Writes the record anew, from the last cell to the first but the head.
pub fn tally(list: &[u32], s: Settings, classes: &mut [u32])
    requires { Listed list.now s × (length classes.old ≡ record_words) }
    ensures { classes.new ≡ classes_of list.now }
{
    classes.fill(0);
    for x in (1..s.cells).rev() {
        add_cell(list, s, x, classes);
    }
}

// Whether the record is what a full reading of the list gives.
#[tactic(auto, using(crate::proofs::Classes::other_length, crate::proofs::Classes::words_same))]
pub fn agree(list: &[u32], s: Settings, classes: &[u32]) -> bool
    requires { Listed list.now s }
    ensures { result ≡ agrees list.now classes.now }
{
    if classes.len() != RECORD_WORDS {
        return false;
    }
    let mut read = [0u32; RECORD_WORDS];
    tally(list, s, &mut read);
    classes == read.as_slice()
}

// The question about one class: its least live key and its live count, as the record has them.
#[tactic(auto, unfolding(crate::specs::Classes::class_out))]
pub fn class_of(classes: &[u32], class: u32) -> Answer
    ensures { Meets (class_out class classes.now) result classes.now }
{
    if classes.len() != RECORD_WORDS {
        return answers::refused(Refusal::BadClasses);
    }
    if NUMBER_OF_CLASSES <= class {
        return answers::refused(Refusal::BadKey);
    }
    let at = count_at(class);
    answers::accepted(classes[at + 1], 0, classes[at])
}
