// The lines of the order program: each line is one of five kinds with its own fields. The fields are read one
// after the other, each by where the one before it ends: at a space, or with the line.
#![tactic(auto)]

ghost use Rattle.std.specs.Prelude.{◌≡◌, [], ◌∷◌, ◌≤◌, length};
ghost use Rattle.lines.specs.Grammar.{insert_fields, entry_fields, no_fields, kind_of, parsed_of};
ghost use Rattle.lines.specs.Answers.{fields_after, first_number, first_entry, ReadAfter};

use entries::Entry;

#[derive(Clone, Copy)]
pub enum Kind {
    // N class unit serial value
    Insert(Entry, u32),
    // F class unit serial
    Find(Entry),
    // A class unit serial
    Finish(Entry),
    // T
    Take,
    // S
    Sweep,
}

// A line read: a struct that holds its kind, the form that the scope gives a parsed line.
#[derive(Clone, Copy)]
pub struct Line {
    pub kind: Kind,
}

// Numbers 2: any value.
const LEAST_VALUE: u32 = 0;

const MOST_VALUE: u32 = 4294967295;

// Where the first field ends, which is a letter: one byte.
const LETTER_END: usize = 1;

// The number from `least` to `most` that is the field after the one that ends at `at`, and where its field ends; none where the field is no such
// number, or missing.
#[tactic(auto, using(crate::proofs::Grammar::number_missing, crate::proofs::Grammar::number_none, crate::proofs::Grammar::number_read))]
fn number_after(line: &[u8], at: usize, least: u32, most: u32) -> Option<(u32, usize)>
    requires { at ≤ length line.now }
    ensures { ReadAfter line.now (first_number least most (fields_after line.now at)) result }
{
    if at == line.len() {
        return None;
    }
    let start = at + 1;
    let end = text::fields::field_end(line, start);
    let n = text::fields::number(&line[start..end], least, most)?;
    Some((n, end))
}

// The entry that is the three fields after the one that ends at `at`, and where the third of them ends: the same for a line of insert, find
// and finish.
#[tactic(auto, using(crate::proofs::Grammar::entry_steps))]
fn entry_after(line: &[u8], at: usize) -> Option<(Entry, usize)>
    requires { at ≤ length line.now }
    ensures { ReadAfter line.now (first_entry (fields_after line.now at)) result }
{
    let (class, next) = number_after(line, at, entries::LEAST_CLASS, entries::MOST_CLASS)?;
    let (unit, last) = number_after(line, next, entries::LEAST_UNIT, entries::MOST_UNIT)?;
    let (serial, end) = number_after(line, last, entries::LEAST_SERIAL, entries::MOST_SERIAL)?;
    Some((Entry::new(class, unit, serial), end))
}

// A line of this kind, if it ends at `at`: a further field makes it unreadable, be it an empty one, after a space at the end.
#[tactic(auto, using(crate::proofs::Grammar::line_ends, crate::proofs::Grammar::line_goes_on))]
fn ended(line: &[u8], at: usize, kind: Kind) -> Option<Line>
    requires { at ≤ length line.now }
    ensures { result ≡ no_fields kind (fields_after line.now at) }
{
    if at < line.len() {
        return None;
    }
    Some(Line { kind })
}

// After the letter N, which is the line's first byte: class, unit, serial, value.
#[tactic(auto, using(crate::proofs::Grammar::insert_line_steps))]
fn insert_line(line: &[u8]) -> Option<Line>
    requires { 1 ≤ length line.now }
    ensures { result ≡ insert_fields (fields_after line.now 1) }
{
    let (e, next) = entry_after(line, LETTER_END)?;
    let (value, end) = number_after(line, next, LEAST_VALUE, MOST_VALUE)?;
    ended(line, end, Kind::Insert(e, value))
}

// After the letter F or A: class, unit, serial.
#[tactic(auto, using(crate::proofs::Grammar::entry_line_steps))]
fn entry_line<F: FnOnce(Entry) -> Kind>(line: &[u8], kind: F) -> Option<Line>
    requires { (1 ≤ length line.now) × F.IsAlwaysCallable kind }
    ensures { (of : Entry → Kind) → ((e : Entry) (k : Kind) → F.post kind e k → k ≡ of e) → result ≡ entry_fields of (fields_after line.now 1) }
{
    let (e, end) = entry_after(line, LETTER_END)?;
    ended(line, end, kind(e))
}

// The line whose first field is this letter.
#[tactic(auto, unfolding(crate::specs::Grammar::kind_of, lists::specs::Lists::same))]
fn by_letter(line: &[u8], letter: u8) -> Option<Line>
    requires { 1 ≤ length line.now }
    ensures { result ≡ kind_of ((letter ∷ []) ∷ fields_after line.now 1) }
{
    match letter {
        b'N' => insert_line(line),
        b'F' => entry_line(line, Kind::Find),
        b'A' => entry_line(line, Kind::Finish),
        b'T' => ended(line, LETTER_END, Kind::Take),
        b'S' => ended(line, LETTER_END, Kind::Sweep),
        _ => None,
    }
}

// What a line says: every sequence of bytes is one of the five kinds, or none, the case that is answered 10.
#[tactic(auto, using(crate::proofs::Grammar::parsed_empty, crate::proofs::Grammar::parsed_long, crate::proofs::Grammar::parsed_no_letter, crate::proofs::Grammar::parsed_letter))]
pub fn parse(line: &[u8]) -> Option<Line>
    ensures { result ≡ parsed_of line.now }
{
    if line.len() < 1 {
        return None;
    }
    if text::feed::MOST_BYTES < line.len() {
        return None;
    }
    let end = text::fields::field_end(line, 0);
    if end != LETTER_END {
        return None;
    }
    by_letter(line, line[0])
}
