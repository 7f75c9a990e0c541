// The fields of a line, cut at each space, and decimal numbers in them.
ghost use Rattle.std.specs.Prelude.{◌≡◌, ◌≤◌, length};
ghost use Rattle.text.specs.Answers.{FieldEnd, up_to, digit_on, ended_at, number_of};

const SPACE: u8 = 32;

// What is known of a number while its digits come in: none yet, the value of those so far, or that no number up to the most asked for begins
// with them.
#[derive(Clone, Copy)]
pub enum Begun {
    NoDigit,
    Value(u32),
    NoNumber,
}

// The index of the first space at or after `at`, or the line's length: where the field that starts at `at` ends.
pub fn field_end(line: &[u8], at: usize) -> usize
    requires { at ≤ length line.now }
    ensures { FieldEnd line.now at result }
{
    for i in at..line.len() {
        if line[i] == SPACE {
            return i;
        }
    }
    line.len()
}

// The value of the digits so far, if it is at most `most`.
fn up_to(value: u64, most: u32) -> Begun
    ensures { result ≡ up_to most value }
{
    if value <= most as u64 {
        return Begun::Value(value as u32);
    }
    Begun::NoNumber
}

// One byte more of a number up to `most`. Where the value passes it there is no number, which further digits cannot undo; so nothing
// wraps, however many digits there are.
pub fn digit(begun: Begun, byte: u8, most: u32) -> Begun
    ensures { result ≡ digit_on most begun byte }
{
    if !byte.is_ascii_digit() {
        return Begun::NoNumber;
    }
    let value = (byte - b'0') as u64;
    match begun {
        Begun::NoDigit => up_to(value, most),
        // A digit after a single 0 would make it a leading zero.
        Begun::Value(0) => Begun::NoNumber,
        Begun::Value(n) => up_to(n as u64 * 10 + value, most),
        Begun::NoNumber => Begun::NoNumber,
    }
}

// The number that ends here, if there is one and it is not below `least`.
pub fn ended_at(begun: Begun, least: u32) -> Option<u32>
    ensures { result ≡ ended_at least begun }
{
    match begun {
        Begun::Value(n) if least <= n => Some(n),
        _ => None,
    }
}

// The number from `least` to `most` that a field is, in decimal without leading zeros.
pub fn number(field: &[u8], least: u32, most: u32) -> Option<u32>
    ensures { result ≡ number_of least most field.now }
{
    let mut begun = Begun::NoDigit;
    for byte in field {
        begun = digit(begun, *byte, most);
    }
    ended_at(begun, least)
}
