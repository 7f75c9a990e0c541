// The bytes held, the first `filled` of an array's: what a line does to them apart from its call.
ghost use Rattle.std.specs.Prelude.{◌≡◌, ◌≤◌, take, drop};
ghost use Rattle.trace.specs.Lines.{most_held, Fits};
ghost use Rattle.trace_held.specs.Held.{Held, Holds, bytes_after, last_after, nibble, hex_bytes, added_to};

use crate::put;
use trace::Kind;

// A byte that no record has.
const LEFT_BYTE: u8 = 165;

// The value of a digit `0` to `9` or `a` to `f`.
fn nibble_of(digit: u8) -> u32
    ensures { (result ≡ nibble digit) × (result ≤ 255) }
{
    match digit {
        ..b'0' => 0,
        b'0'..b'a' => (digit - b'0') as u32,
        b'a'.. => (digit - b'a') as u32 + 10,
    }
}

// The bytes that digits write, two a byte, after those that are there; nothing where there would be too many.
fn added(bytes: &mut [u8], filled: usize, digits: &[u8]) -> usize
    requires { Held most_held bytes.old filled }
    ensures { Holds most_held bytes.new result (added_to (take filled bytes.old) (hex_bytes digits.now)) }
{
    let n = digits.len() / 2;
    if trace::MOST_HELD - filled < n {
        return filled;
    }
    for i in 0..n {
        let value = nibble_of(digits[2 * i]) * 16 + nibble_of(digits[2 * i + 1]);
        bytes[filled + i] = (value % 256) as u8;
    }
    filled + n
}

// The digits of a line `H hex`: what follows its first two bytes.
fn added_line(bytes: &mut [u8], filled: usize, line: &[u8]) -> usize
    requires { Held most_held bytes.old filled }
    ensures { Holds most_held bytes.new result (added_to (take filled bytes.old) (hex_bytes (drop 2 line.now))) }
{
    match line {
        [_, _, digits @ ..] => added(bytes, filled, digits),
        _ => filled,
    }
}

// What a line does to the bytes before its call, if it makes one; how many there are afterwards.
pub fn altered(bytes: &mut [u8], filled: usize, kind: Kind, line: &[u8]) -> usize
    requires { Held most_held bytes.old filled × Fits kind }
    ensures { Holds most_held bytes.new result (bytes_after kind line.now (take filled bytes.old)) }
{
    match kind {
        Kind::Bytes(n) => {
            bytes[..n as usize].fill(LEFT_BYTE);
            n as usize
        }
        Kind::Add => added_line(bytes, filled, line),
        Kind::PutByte(index, value) => put(bytes, filled, index as usize, (value % 256) as u8),
        _ => filled,
    }
}

// What a line does to the last number before its call.
pub fn last_after(last: u64, kind: Kind) -> u64
    ensures { result ≡ last_after kind last }
{
    match kind {
        Kind::Last(number) => number,
        _ => last,
    }
}
