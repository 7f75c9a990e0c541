// What the programs print of an answer: its four numbers in decimal, and the checksum of a buffer's words. The bytes are put into an array
// that the caller lends and writes out.
#![tactic(auto)]

ghost use Rattle.std.specs.Prelude.{◌≡◌, [], ◌∷◌, ◌++◌, ◌+◌, ◌*◌, ◌%◌, ◌≤◌, ◌<◌, length};
ghost use Rattle.report.specs.Report.{decimal, answer_text, field_bytes, answer_bytes, checked_bytes, Put, ChecksumOf};
ghost use Rattle.report.specs.Report.{checksum_text, checked_text};

use answers::Answer;

// The digits of a number of 64 bits, at most.
const MOST_DIGITS: usize = 20;

// The room for a number and a byte after it.
pub const FIELD_BYTES: usize = MOST_DIGITS + 1;

// The room for an answer's four numbers, each with a byte after it.
pub const ANSWER_BYTES: usize = 4 * FIELD_BYTES;

// The room for an answer and a checksum.
pub const CHECKED_BYTES: usize = ANSWER_BYTES + FIELD_BYTES;

const FACTOR: u64 = 1000003;

const MODULUS: u64 = 2147483647;

// Puts bytes at `at`; the index after them.
pub fn put(out: &mut [u8], at: usize, bytes: &[u8]) -> usize
    requires { at + length bytes.now ≤ length out.old }
    ensures { Put out.old at bytes.now out.new result }
{
    let end = at + bytes.len();
    out[at..end].copy_from_slice(bytes);
    end
}

// Puts a number in decimal, and a byte after it.
pub fn put_number(out: &mut [u8], at: usize, number: u64, after: u8) -> usize
    requires { at + field_bytes ≤ length out.old }
    ensures { Put out.old at (decimal number ++ (after ∷ [])) out.new result × (result ≤ at + field_bytes) }
{
    let mut digits = [0u8; MOST_DIGITS];
    let n = io::decimal(number, &mut digits);
    let end = put(out, at, &digits[..n]);
    out[end] = after;
    end + 1
}

// Puts refusal, key, value and count with a space between, and a byte after them.
pub fn put_answer(out: &mut [u8], at: usize, a: Answer, after: u8) -> usize
    requires { at + answer_bytes ≤ length out.old }
    ensures { Put out.old at (answer_text a after) out.new result × (result ≤ at + answer_bytes) }
{
    let key = put_number(out, at, a.refusal as u64, b' ');
    let value = put_number(out, key, a.key as u64, b' ');
    let count = put_number(out, value, a.value as u64, b' ');
    put_number(out, count, a.count as u64, after)
}

// The checksum h with one word more, or one byte: h becomes (h x 1,000,003 + it) mod 2,147,483,647.
fn summed(h: u64, word: u32) -> u64
    requires { h < 2147483647 }
    ensures { result ≡ (h * 1000003 + word) % 2147483647 }
{
    (h * FACTOR + word as u64) % MODULUS
}

// The checksum of words, or of bytes: it starts at their number, and each is summed in order.
pub fn checksum<T: Copy + Into<u32>>(part: &[T]) -> u64
    ensures { ChecksumOf T.converts part.now result }
{
    let mut h = part.len() as u64 % MODULUS;
    for element in part {
        h = summed(h, (*element).into());
    }
    h
}

// Puts the checksum of a buffer's words, and a line feed.
pub fn put_checksum(out: &mut [u8], at: usize, part: &[u32]) -> usize
    requires { at + field_bytes ≤ length out.old }
    ensures { Put out.old at (checksum_text part.now) out.new result × (result ≤ at + field_bytes) }
{
    put_number(out, at, checksum(part), b'\n')
}

// Puts an answer, a space, and the checksum of the words that it leaves, as a line.
pub fn put_checked(out: &mut [u8], a: Answer, part: &[u32]) -> usize
    requires { checked_bytes ≤ length out.old }
    ensures { Put out.old 0 (checked_text a part.now) out.new result × (result ≤ checked_bytes) }
{
    let at = put_answer(out, 0, a, b' ');
    put_checksum(out, at, part)
}
