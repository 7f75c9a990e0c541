// A line of the acceptance trace: what it says, its call on both engines, and what is printed for it. The format is at the head of the program
// acceptance.
#![tactic(auto)]

ghost use Rattle.std.specs.Prelude.{◌≡◌, cond, ◌≤◌, length, take};
ghost use Rattle.settings.specs.Numbers.{in_range, length_of};
ghost use Rattle.engines.specs.Alike.{is_counted};
ghost use Rattle.answers.specs.Refusals.{Meets};
ghost use Rattle.text.specs.Feeding.{LineIn};
ghost use Rattle.row.specs.Row.{row_length, row_out};
ghost use Rattle.acceptance_step.specs.Lines.{engines_of, KindFits, list_length, row_length_for, counted_in, KindMade};
ghost use Rattle.acceptance_step.specs.Printed.{Room, held_in, answers_to, left_by, pair_text, line_bytes, counted, tallied_by, LineDone, verdict_text};

use answers::{Answer, Operation, Refusal};
use settings::Settings;
use text::feed::Told;

// The words of a row whose list has as many words as are held: at D = 2 that list has 19,457 cells.
pub const MOST_ROW_WORDS: usize = 58373;

// The room for a line: two answers.
const LINE_BYTES: usize = 2 * report::ANSWER_BYTES;

// What a line says.
#[derive(Clone, Copy)]
pub enum Kind {
    // U: D, K, C
    SetUp(u32, u32, u32),
    // N, F, A, T, S
    Make(Operation),
    Unreadable,
}

// How many of the list's words and of the row's are held.
#[derive(Clone, Copy)]
pub struct Sizes {
    pub list: usize,
    pub row: usize,
}

// What both engines answer to a line.
#[derive(Clone, Copy)]
pub struct Pair {
    pub list: Answer,
    pub row: Answer,
}

// What is held after a line, and what both engines answered.
#[derive(Clone, Copy)]
struct Done {
    pub list: usize,
    pub row: usize,
    pub answers: Pair,
}

// How many lines there were, and the first on which the engines differ; 0 if there is none.
#[derive(Clone, Copy)]
pub struct Tally {
    pub lines: u64,
    pub first: u64,
}

// What is kept from one line to the next, beside the arrays.
#[derive(Clone, Copy)]
pub struct State {
    pub sizes: Sizes,
    pub tally: Tally,
}

// U: a list with more words than are held is not readable.
fn set_up_line(d: u32, k: u32, c: u32) -> Kind
    ensures { KindFits result }
{
    let Some(s) = Settings::new(d, k, c) else {
        return Kind::SetUp(d, k, c);
    };
    if trace::MOST_WORDS < s.length() {
        return Kind::Unreadable;
    }
    Kind::SetUp(d, k, c)
}

// What a letter and the numbers after it say.
fn kind_of(letter: u8, numbers: &[u32]) -> Kind
    ensures { KindFits result }
{
    match (letter, numbers) {
        (b'U', [d, k, c]) => set_up_line(*d, *k, *c),
        (b'N', [key, value]) => Kind::Make(Operation::Insert(*key, *value)),
        (b'F', [key]) => Kind::Make(Operation::Find(*key)),
        (b'A', [key]) => Kind::Make(Operation::Finish(*key)),
        (b'T', []) => Kind::Make(Operation::Take),
        (b'S', []) => Kind::Make(Operation::Sweep),
        _ => Kind::Unreadable,
    }
}

// A line of at most 64 bytes. Its first field is one letter.
fn parse(line: &[u8]) -> Kind
    ensures { KindFits result }
{
    match line {
        [letter] | [letter, b' ', ..] => match trace::numbers_after(line, 1) {
            Some(numbers) => kind_of(*letter, numbers.as_slice()),
            None => Kind::Unreadable,
        },
        _ => Kind::Unreadable,
    }
}

// How many words a row with C cells has.
fn row_length(c: u32) -> usize
    requires { 1 ≤ c }
    ensures { result ≡ row_length c }
{
    5 + 3 * (c as usize - 1)
}

// .. where both engines are set up.
fn set_up_sizes(d: u32, k: u32, c: u32, sizes: Sizes) -> Sizes
    ensures { (result.list ≡ cond (in_range d k c) (length_of d c) sizes.list) × (result.row ≡ cond (in_range d k c) (row_length c) sizes.row) }
{
    let Some(s) = Settings::new(d, k, c) else {
        return sizes;
    };
    Sizes {
        list: s.length(),
        row: row_length(s.cells),
    }
}

// How many words of both engines are held when a line's call is made.
fn sizes_for(kind: Kind, sizes: Sizes) -> Sizes
    ensures { (result.list ≡ list_length kind sizes.list) × (result.row ≡ row_length_for kind sizes.row) }
{
    match kind {
        Kind::SetUp(d, k, c) => return set_up_sizes(d, k, c, sizes),
        Kind::Make(_) => return sizes,
        Kind::Unreadable => return sizes,
    }
}

// Makes one of the five operations on the row.
pub fn row_operation(keys: &mut [u32], operation: Operation) -> Answer
    ensures { Meets (row_out operation keys.old) result keys.new }
{
    match operation {
        Operation::Insert(key, value) => return row::row_insert(keys, key, value),
        Operation::Find(key) => return row::row_find(keys, key),
        Operation::Finish(key) => return row::row_finish(keys, key),
        Operation::Take => return row::row_take(keys),
        Operation::Sweep => return row::row_sweep(keys),
    }
}

// Makes a line's call on both engines; a line that is not readable is answered 10.
fn make(list: &mut [u32], keys: &mut [u32], kind: Kind) -> Pair
    ensures { KindMade kind (engines_of list.old keys.old) result (engines_of list.new keys.new) }
{
    match kind {
        Kind::SetUp(d, k, c) => return Pair {
            list: mdlist::mdlist_set_up(d, k, c, list),
            row: row::row_set_up(d, k, c, keys),
        },
        Kind::Make(operation) => return Pair {
            list: trace_call::make_operation(list, operation),
            row: row_operation(keys, operation),
        },
        Kind::Unreadable => return Pair {
            list: answers::refused(Refusal::LineNotReadable),
            row: answers::refused(Refusal::LineNotReadable),
        },
    }
}

// Does what a line says on both engines.
fn do_line(words: &mut [u32], keys: &mut [u32], sizes: Sizes, kind: Kind) -> Done
    requires { Room words.old keys.old sizes × KindFits kind }
    ensures { LineDone kind (held_in words.old keys.old sizes) words.new keys.new result }
{
    let next = sizes_for(kind, sizes);
    let n = trace_held::buffer::resized(words, sizes.list, next.list);
    let m = trace_held::buffer::resized(keys, sizes.row, next.row);
    let answers = make(&mut words[0..n], &mut keys[0..m], kind);
    Done {
        list: n,
        row: m,
        answers,
    }
}

// The count of a take and of a sweep is compared; what a search looks at and the links that a finish moves are the list's own.
fn counted_operation(operation: Operation) -> bool
    ensures { result ≡ is_counted operation }
{
    match operation {
        Operation::Insert(_, _) => return false,
        Operation::Find(_) => return false,
        Operation::Finish(_) => return false,
        Operation::Take => return true,
        Operation::Sweep => return true,
    }
}

fn counted_in(kind: Kind) -> bool
    ensures { result ≡ counted_in kind }
{
    match kind {
        Kind::SetUp(_, _, _) => return true,
        Kind::Make(operation) => return counted_operation(operation),
        Kind::Unreadable => return true,
    }
}

// One line more, up to the most that 64 bits hold.
fn one_more(lines: u64) -> u64
    ensures { result ≡ counted lines }
{
    if lines < u64::MAX {
        return lines + 1;
    }
    lines
}

// Counts a line, and keeps the first on which the engines differ.
fn tallied(t: Tally, counted: bool, p: Pair) -> Tally
    ensures { result ≡ tallied_by counted p t }
{
    let lines = one_more(t.lines);
    if t.first != 0 {
        return Tally {
            lines,
            first: t.first,
        };
    }
    let one = p.list;
    let other = p.row;
    if engines::compare(counted, one, other) {
        return Tally { lines, first: 0 };
    }
    Tally {
        lines,
        first: lines,
    }
}

// Puts what is printed for two answers into `out`, from the first byte on; how many bytes.
fn put_pair(out: &mut [u8], p: Pair) -> usize
    requires { line_bytes ≤ length out.old }
    ensures { (take result out.new ≡ pair_text p) × (result ≤ length out.new) }
{
    let one = p.list;
    let other = p.row;
    let at = report::put_answer(out, 0, one, b' ');
    report::put_answer(out, at, other, b'\n')
}

// Writes a line, by one write. It takes the answers so that its contract can say whose line it is.
fn write(text: &[u8], p: Pair)
    requires { text.now ≡ pair_text p }
{
    io::write_all(1, text);
}

// Prints what both engines answered.
fn print_pair(p: Pair) {
    let mut out = [0u8; LINE_BYTES];
    let end = put_pair(&mut out, p);
    write(&out[..end], p);
}

// Does what a line says on both engines, prints what they answer and compares it.
fn reply(words: &mut [u32], keys: &mut [u32], state: State, kind: Kind) -> State
    requires { Room words.old keys.old state.sizes × KindFits kind }
    ensures held { Room words.new keys.new result.sizes }
    ensures left { held_in words.new keys.new result.sizes ≡ left_by kind (held_in words.old keys.old state.sizes) }
    ensures tally { result.tally ≡ tallied_by (counted_in kind) (answers_to kind (held_in words.old keys.old state.sizes)) state.tally }
{
    let before = state.tally;
    let done = do_line(words, keys, state.sizes, kind);
    let n = done.list;
    let m = done.row;
    let p = done.answers;
    print_pair(p);
    State {
        sizes: Sizes { list: n, row: m },
        tally: tallied(before, counted_in(kind), p),
    }
}

// Does what the line that ended says, if one did.
pub fn answer_line(
    words: &mut [u32],
    keys: &mut [u32],
    state: State,
    line: &[u8],
    ended: Told,
) -> State
    requires { Room words.old keys.old state.sizes × LineIn line.now ended }
    ensures { Room words.new keys.new result.sizes }
{
    match ended {
        Told::NoLine => return state,
        Told::Line(n) => return reply(words, keys, state, parse(&line[0..n])),
        Told::LongLine => return reply(words, keys, state, Kind::Unreadable),
    }
}

// Puts the verdict into `out`, from the first byte on; how many bytes.
fn put_verdict(out: &mut [u8], t: Tally) -> usize
    requires { line_bytes ≤ length out.old }
    ensures { (take result out.new ≡ verdict_text t) × (result ≤ length out.new) }
{
    if t.first == 0 {
        let at = report::put(out, 0, b"SAME on ");
        let next = report::put_number(out, at, t.lines, b' ');
        return report::put(out, next, b"lines\n");
    }
    let at = report::put(out, 0, b"DIFFER first on line ");
    report::put_number(out, at, t.first, b'\n')
}

// Writes the verdict, by one write.
fn write_verdict(text: &[u8], t: Tally)
    requires { text.now ≡ verdict_text t }
{
    io::write_all(1, text);
}

// Prints how many lines there were, or the first on which the engines differ.
pub fn say_verdict(t: Tally) {
    let mut out = [0u8; LINE_BYTES];
    let end = put_verdict(&mut out, t);
    write_verdict(&out[..end], t);
}
