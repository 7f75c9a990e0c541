// The plain row: a second engine beside the list, for acceptance (docs/REFERENCE.md, *The plain row*). The standing keys in ascending order, each with its
// value and mark, searched from the front. It shares the settings check with the list and no other code. None of the six functions that `row_c` exports has a `requires`, and
// each contract is the whole outcome of the call: the four numbers and every word.
// The lent words go from function to function as they are, their shape in a clause: a struct around them would be a second name for them, laid aside at each write.
#![tactic(auto, using(crate::proofs::Laws::inner), unfolding(crate::specs::Places::right_key, lists::specs::Lists::those, book::specs::Book::last_in))]

ghost use Rattle.std.specs.Prelude.{◌≡◌, true, [], ◌∷◌, ◌++◌, ◌+◌, ◌*◌, ◌-◌, ◌^◌, ◌≤◌, ◌<◌, length, eqb, get_or, take, drop, MatchOption, MatchResult};
ghost use Rattle.std.proofs.lemmas.List.Edits.{sets};
ghost use Rattle.std.specs.List.{list_all};
ghost use Rattle.settings.specs.Numbers.{is_key};
ghost use Rattle.answers.specs.Refusals.{Meets, answer, answer_of};
ghost use Rattle.answers.specs.declared.Operation.TheVariants.{Insert, Find, Finish, Take, Sweep};
ghost use Rattle.book.specs.Book.{standing_key, standing_above};
ghost use Rattle.row.specs.Row.{book_in, ascending, at_position, is_row, row_set_up_out, row_out};
ghost use Rattle.row.specs.Places.{Shaped, word_of, place_at, place_of, Found, Missing, dead_in_front, position_after, right_key, right_keys, with_keys};

use answers::{Answer, Refusal};
use settings::Settings;

// The words before the keys: D, K, C, how many keys stand, the position's key.
const DIMENSIONS: usize = 0;

const LARGEST: usize = 1;

const CELLS: usize = 2;

const KEYS: usize = 3;

const POSITION: usize = 4;

const BEFORE: usize = 5;

// The marks.
const LIVE: u32 = 1;

const DEAD: u32 = 2;

// A place: what is said of a standing key, a word each. Until the row is checked the mark may be any number, so it is no enum.
#[derive(Clone, Copy)]
struct Place {
    key: u32,
    value: u32,
    mark: u32,
}

// The table's number of a refusal. It is written here, as the answers are, since a row shares no other code with the list.
fn number(refusal: Refusal) -> u32
    ensures { result ≡ (answer_of refusal).refusal }
{
    match refusal {
        Refusal::OutOfRange => 1,
        Refusal::WrongLength => 2,
        Refusal::NotAList => 3,
        Refusal::BadKey => 4,
        Refusal::KeyLive(_, _) => 5,
        Refusal::NoFreeCell(_, _) => 6,
        Refusal::NothingLive(_) => 7,
        Refusal::KeyNotLive(_, _) => 8,
        Refusal::KeyNotStanding(_) => 8,
        Refusal::LineNotReadable => 10,
        Refusal::BadFile => 11,
        Refusal::NoRoom => 12,
        Refusal::BadRecord => 13,
        Refusal::NumberOutside => 14,
        Refusal::BadClasses => 15,
        Refusal::BadBatch => 19,
    }
}

// What a refused call answers: the table's number and, where the refusal answers them, a key and a count.
fn refused(refusal: Refusal, key: u32, count: u32) -> Answer
    ensures { result ≡ answer (answer_of refusal).refusal key 0 count }
{
    Answer {
        refusal: number(refusal),
        key,
        value: 0,
        count,
    }
}

// What an accepted call answers.
fn accepted(key: u32, value: u32, count: u32) -> Answer
    ensures { result ≡ answer 0 key value count }
{
    Answer {
        refusal: 0,
        key,
        value,
        count,
    }
}

// Where place i begins.
fn word_of(i: usize) -> usize
    requires { i < 2 ^ 60 }
    ensures { result ≡ word_of i }
{
    BEFORE + 3 * i
}

fn place_at(row: &[u32], i: usize) -> Place
    requires { word_of i + 3 ≤ length row.now }
    ensures { result ≡ place_at row.now i }
{
    let at = word_of(i);
    Place {
        key: row[at],
        value: row[at + 1],
        mark: row[at + 2],
    }
}

// The three words one by one, as each caller has them.
fn put_at(row: &mut [u32], i: usize, key: u32, value: u32, mark: u32)
    requires { word_of i + 3 ≤ length row.old }
    ensures { row.new ≡ sets row.old (word_of i) (key ∷ value ∷ mark ∷ []) }
{
    let at = word_of(i);
    row[at] = key;
    row[at + 1] = value;
    row[at + 2] = mark;
}

// Whether the key of place i is above `low` and at most K, and its mark is right: live above the position, or dead with the value 0. Each word is
// read where it is needed, and the tests return (see `is_row`).
fn right_key(row: &[u32], i: usize, low: u32) -> bool
    requires { word_of i + 3 ≤ length row.now }
    ensures { result ≡ right_key row.now low (place_at row.now i) }
{
    let at = word_of(i);
    let key = row[at];
    if key <= low || row[LARGEST] < key {
        return false;
    }
    if row[at + 2] == LIVE {
        return row[POSITION] < key;
    }
    row[at + 2] == DEAD && row[at + 1] == 0
}

// Whether each key is right, above the one before.
fn right_keys(row: &[u32]) -> bool
    requires { Shaped row.now }
    ensures { result ≡ right_keys row.now 0 0 (get_or row.now 3 0) }
{
    let mut low = 0;
    for i in 0..row[KEYS] as usize {
        if !right_key(row, i, low) {
            return false;
        }
        low = place_at(row, i).key;
    }
    true
}

// Whether there are as many words as C asks for, and room for the keys.
fn has_shape(row: &[u32]) -> bool
    ensures told { result ≡ true → Shaped row.now }
    ensures kept { is_row row.now ≡ true → result ≡ true }
{
    BEFORE <= row.len()
        && Settings::in_range(row[DIMENSIONS], row[LARGEST], row[CELLS])
        && row.len() == word_of(row[CELLS] as usize - 1)
        && row[KEYS] < row[CELLS]
}

// Whether the position is the head's or a standing key.
fn right_position(row: &[u32]) -> bool
    requires { Shaped row.now × (ascending 0 (get_or row.now 1 0) (book_in row.now).row ≡ true) }
    ensures { result ≡ at_position (get_or row.now 4 0) (book_in row.now).row }
{
    row[POSITION] == 0 || place_of(row, row[POSITION]).is_ok()
}

// Whether every word of a part is 0.
fn all_zero(part: &[u32]) -> bool
    ensures { result ≡ list_all (λ w. eqb w 0) part.now }
{
    for word in part {
        if *word != 0 {
            return false;
        }
    }
    true
}

// Whether every word of an unused place is 0.
fn unused_zero(row: &[u32]) -> bool
    requires { Shaped row.now }
    ensures { result ≡ list_all (λ w. eqb w 0) (drop (word_of (get_or row.now 3 0)) row.now) }
{
    let unused = word_of(row[KEYS] as usize);
    all_zero(&row[unused..])
}

// Whether the words are a row. The tests here and below return, and their loops go over the words, since with `&&` and the library's methods the check
// of a large row took up to 2.7 times the time, by where the linker put it.
fn is_row(row: &[u32]) -> bool
    ensures is { result ≡ is_row row.now }
    ensures shaped { result ≡ true → Shaped row.now }
{
    if !has_shape(row) {
        return false;
    }
    if !right_keys(row) {
        return false;
    }
    if !right_position(row) {
        return false;
    }
    unused_zero(row)
}

// Whether a number is a key of the row: from 1 to K.
fn is_key(row: &[u32], key: u32) -> bool
    requires { Shaped row.now }
    ensures { result ≡ is_key (get_or row.now 1 0) key }
{
    0 < key && key <= row[LARGEST]
}

// The place of the first key at or above a key, from the front; behind the last one, if all are below it.
fn first_from(row: &[u32], key: u32) -> usize
    requires { Shaped row.now }
    ensures is { result ≡ place_of key (book_in row.now).row }
    ensures fits { result ≤ get_or row.now 3 0 }
{
    let keys = row[KEYS] as usize;
    for i in 0..keys {
        if key <= place_at(row, i).key {
            return i;
        }
    }
    keys
}

// The place where a key stands; or else the one where it would, behind the keys below it.
fn place_of(row: &[u32], key: u32) -> Result<usize, usize>
    requires { Shaped row.now }
    ensures { MatchResult result (λ i. Found row.now key i) (λ i. Missing row.now key i) }
{
    let i = first_from(row, key);
    if i < row[KEYS] as usize && place_at(row, i).key == key {
        Ok(i)
    } else {
        Err(i)
    }
}

// The place of the first live key, from the front.
fn first_live(row: &[u32]) -> Option<usize>
    requires { Shaped row.now }
    ensures { MatchOption result (dead_in_front row.now ≡ get_or row.now 3 0) (λ i. (dead_in_front row.now ≡ i) × (i < get_or row.now 3 0)) }
{
    for i in 0..row[KEYS] as usize {
        if place_at(row, i).mark == LIVE {
            return Some(i);
        }
    }
    None
}

// How many of the keys before place `end` are above `low`.
fn count_above(row: &[u32], low: u32, end: usize) -> u32
    requires { Shaped row.now × (end ≤ get_or row.now 3 0) }
    ensures { result ≡ standing_above low (take end (book_in row.now).row) }
{
    let mut count = 0;
    for i in 0..end {
        if low < place_at(row, i).key {
            count += 1;
        }
    }
    count
}

// The position after an insert of a key whose place is i: if the key is at or below the position, the next smaller standing key.
fn position_with(row: &[u32], i: usize, key: u32) -> u32
    requires { Shaped row.now × (i ≤ get_or row.now 3 0) }
    ensures { result ≡ position_after row.now i key }
{
    let position = row[POSITION];
    if position < key {
        return position;
    }
    if i == 0 {
        return 0;
    }
    place_at(row, i - 1).key
}

// A new live key at place i: the places behind move up by one.
fn add_at(row: &mut [u32], i: usize, key: u32, value: u32)
    requires is { is_row row.old ≡ true }
    requires shaped { Shaped row.old }
    requires fits { i ≤ get_or row.old 3 0 }
    requires room { get_or row.old 3 0 + 1 < get_or row.old 2 0 }
    ensures { row.new ≡ with_keys row.old (take i (book_in row.old).row ++ (standing_key key value true ∷ drop i (book_in row.old).row)) }
{
    let keys = row[KEYS];
    let start = word_of(i);
    row.copy_within(start..word_of(keys as usize), start + 3);
    put_at(row, i, key, value, LIVE);
    row[KEYS] = keys + 1;
}

// The first keys are freed: the places behind move down, and the words that are unused then become 0.
fn free_first(row: &mut [u32], freed: usize)
    requires is { is_row row.old ≡ true }
    requires shaped { Shaped row.old }
    requires fits { freed ≤ get_or row.old 3 0 }
    ensures { row.new ≡ with_keys row.old (drop freed (book_in row.old).row) }
{
    let keys = row[KEYS] as usize;
    let end = word_of(keys);
    row.copy_within(word_of(freed)..end, BEFORE);
    row[word_of(keys - freed)..end].fill(0);
    row[KEYS] = (keys - freed) as u32;
}

// Makes the lent words a fresh row for dimensions D, largest key K and C cells.
#[tactic(auto, using(crate::proofs::Laws::sets_up))]
pub fn row_set_up(d: u32, k: u32, c: u32, row: &mut [u32]) -> Answer
    ensures { Meets (row_set_up_out d k c row.old) result row.new }
{
    if !Settings::in_range(d, k, c) {
        return refused(Refusal::OutOfRange, 0, 0);
    }
    if row.len() != word_of(c as usize - 1) {
        return refused(Refusal::WrongLength, 0, 0);
    }
    row.fill(0);
    row[DIMENSIONS] = d;
    row[LARGEST] = k;
    row[CELLS] = c;
    accepted(0, 0, 0)
}

// Puts a key with its value into the row.
#[tactic(auto, using(crate::proofs::Laws::inserts))]
pub fn row_insert(row: &mut [u32], key: u32, value: u32) -> Answer
    ensures { Meets (row_out (Insert key value) row.old) result row.new }
{
    if !is_row(row) {
        return refused(Refusal::NotAList, 0, 0);
    }
    if !is_key(row, key) {
        return refused(Refusal::BadKey, 0, 0);
    }
    match place_of(row, key) {
        Ok(i) => {
            if place_at(row, i).mark == LIVE {
                return refused(Refusal::KeyLive(key, 0), key, 0);
            }
            let position = position_with(row, i, key);
            put_at(row, i, key, value, LIVE);
            row[POSITION] = position;
        }
        Err(i) => {
            if row[CELLS] <= row[KEYS] + 1 {
                return refused(Refusal::NoFreeCell(key, 0), key, 0);
            }
            let position = position_with(row, i, key);
            add_at(row, i, key, value);
            row[POSITION] = position;
        }
    }
    accepted(key, 0, 0)
}

// Finds a live key's value; writes nothing.
#[tactic(auto, using(crate::proofs::Laws::finds))]
pub fn row_find(row: &[u32], key: u32) -> Answer
    ensures { Meets (row_out (Find key) row.now) result row.now }
{
    if !is_row(row) {
        return refused(Refusal::NotAList, 0, 0);
    }
    if !is_key(row, key) {
        return refused(Refusal::BadKey, 0, 0);
    }
    let Ok(i) = place_of(row, key) else {
        return refused(Refusal::KeyNotLive(key, 0), key, 0);
    };
    let place = place_at(row, i);
    if place.mark != LIVE {
        return refused(Refusal::KeyNotLive(key, 0), key, 0);
    }
    accepted(key, place.value, 0)
}

// Tells whether a key stands: a row owes nothing.
#[tactic(auto, using(crate::proofs::Laws::finishes))]
pub fn row_finish(row: &[u32], key: u32) -> Answer
    ensures { Meets (row_out (Finish key) row.now) result row.now }
{
    if !is_row(row) {
        return refused(Refusal::NotAList, 0, 0);
    }
    if !is_key(row, key) {
        return refused(Refusal::BadKey, 0, 0);
    }
    if place_of(row, key).is_err() {
        return refused(Refusal::KeyNotStanding(key), key, 0);
    }
    accepted(key, 0, 0)
}

// Takes the least live key.
#[tactic(auto, using(crate::proofs::Laws::takes))]
pub fn row_take(row: &mut [u32]) -> Answer
    ensures { Meets (row_out Take row.old) result row.new }
{
    if !is_row(row) {
        return refused(Refusal::NotAList, 0, 0);
    }
    let position = row[POSITION];
    let Some(i) = first_live(row) else {
        let above = count_above(row, position, row[KEYS] as usize);
        return refused(Refusal::NothingLive(above), 0, above);
    };
    let Place { key, value, .. } = place_at(row, i);
    let passed = count_above(row, position, i + 1);
    put_at(row, i, key, 0, DEAD);
    row[POSITION] = key;
    accepted(key, value, passed)
}

// Frees the dead keys before the first live one, but for the last of them: it is kept and becomes the position.
#[tactic(auto, using(crate::proofs::Laws::sweeps))]
pub fn row_sweep(row: &mut [u32]) -> Answer
    ensures { Meets (row_out Sweep row.old) result row.new }
{
    if !is_row(row) {
        return refused(Refusal::NotAList, 0, 0);
    }
    let dead = first_live(row).unwrap_or(row[KEYS] as usize);
    if dead == 0 {
        row[POSITION] = 0;
        return accepted(0, 0, 0);
    }
    let freed = dead - 1;
    let position = place_at(row, freed).key;
    free_first(row, freed);
    row[POSITION] = position;
    accepted(0, 0, freed as u32)
}
