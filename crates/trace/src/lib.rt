// The lines of a trace of calls: their kinds, and a line read as one of them. The format is at the head of the program replay.
#![tactic(auto)]

ghost use Rattle.std.specs.Prelude.{◌≤◌, length};
ghost use Rattle.trace.specs.Lines.{Fits};

use answers::Operation;
use arrayvec::ArrayVec;
use calls::Call;

pub const MOST_WORDS: usize = 155670;

pub const MOST_HELD: usize = 40000;

// The digits of a line `H hex`.
const MOST_DIGITS: usize = 60;

const MOST_NUMBERS: usize = 4;

// What a line says.
#[derive(Clone, Copy)]
pub enum Kind {
    // U: the length of a new buffer, and the set up on it
    Fresh(u32, Call),
    // N, F, A, T, S, G, W, R
    Make(Call),
    // P: index, value
    Put(u32, u32),
    // L
    Length(u32),
    // B
    Bytes(u32),
    // H: the bytes are those that the line's digits write
    Add,
    // Q: index, value
    PutByte(u32, u32),
    // O
    Last(u64),
    Unreadable,
}

// The numbers of a line, the fields after one that ends at `from`; none where a field is no number, or where there are more than 4.
pub fn numbers_after(line: &[u8], from: usize) -> Option<ArrayVec<u32, MOST_NUMBERS>>
    requires { from ≤ length line.now }
{
    let mut numbers = ArrayVec::new();
    let mut end = from;
    // A while: where a field starts depends on where the one before it ends.
    while end < line.len() {
        let start = end + 1;
        end = text::fields::field_end(line, start);
        let number = text::fields::number(&line[start..end], 0, u32::MAX)?;
        numbers.try_push(number).ok()?;
    }
    Some(numbers)
}

// What a letter and the numbers after it say.
fn kind_of(letter: u8, numbers: &[u32]) -> Kind
    ensures { Fits result }
{
    match (letter, numbers) {
        (b'U', [d, k, c, len]) if *len as usize <= MOST_WORDS => Kind::Fresh(
            *len,
            Call::SetUp(*d, *k, *c),
        ),
        (b'N', [key, value]) => Kind::Make(Call::Operate(Operation::Insert(*key, *value))),
        (b'F', [key]) => Kind::Make(Call::Operate(Operation::Find(*key))),
        (b'A', [key]) => Kind::Make(Call::Operate(Operation::Finish(*key))),
        (b'T', []) => Kind::Make(Call::Operate(Operation::Take)),
        (b'S', []) => Kind::Make(Call::Operate(Operation::Sweep)),
        (b'G', []) => Kind::Make(Call::Record),
        (b'W', []) => Kind::Make(Call::Write),
        (b'R', []) => Kind::Make(Call::Read),
        (b'P', [index, value]) => Kind::Put(*index, *value),
        (b'L', [len]) if *len as usize <= MOST_WORDS => Kind::Length(*len),
        (b'B', [len]) if *len as usize <= MOST_HELD => Kind::Bytes(*len),
        (b'Q', [index, value]) if *value < 256 => Kind::PutByte(*index, *value),
        (b'O', [number]) => Kind::Last(*number as u64),
        _ => Kind::Unreadable,
    }
}

fn is_hex(byte: u8) -> bool {
    matches!(byte, b'0'..=b'9' | b'a'..=b'f')
}

// H: one pair of digits or more, up to 30.
fn hex_line(digits: &[u8]) -> Kind
    ensures { Fits result }
{
    if digits.is_empty()
        || digits.len() % 2 == 1
        || MOST_DIGITS < digits.len()
        || !digits.iter().all(|digit| is_hex(*digit))
    {
        return Kind::Unreadable;
    }
    Kind::Add
}

// A line of at most 64 bytes. Its first field is one letter; the one number above 32 bits is O's.
pub fn parse(line: &[u8]) -> Kind
    ensures { Fits result }
{
    match line {
        [b'H', b' ', digits @ ..] => hex_line(digits),
        b"O 4294967296" => Kind::Last(full_number::NO_NUMBER),
        [letter] | [letter, b' ', ..] => match numbers_after(line, 1) {
            Some(numbers) => kind_of(*letter, numbers.as_slice()),
            None => Kind::Unreadable,
        },
        _ => Kind::Unreadable,
    }
}
