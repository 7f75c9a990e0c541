// Words in a row, lent as a part: filled with one number, and tested to be all 0.
#![tactic(auto)]

ghost use Rattle.std.specs.Prelude.{◌≡◌, ◌+◌, ◌≤◌, length, replicate};
ghost use Rattle.lists.specs.Zeros.{all_zero, ZeroFrom};

// Every word of a part becomes v.
pub fn fill(part: &mut [u32], v: u32)
    ensures { part.new ≡ replicate (length part.old) v }
{
    part.fill(v);
}

// The bits of four words from i on, put together.
fn four(part: &[u32], i: usize) -> u32
    requires { i + 4 ≤ length part.now }
    ensures { ZeroFrom part.now i 4 result }
{
    part[i] | part[i + 1] | part[i + 2] | part[i + 3]
}

// The bits of eight words from i on, put together.
fn eight(part: &[u32], i: usize) -> u32
    requires { i + 8 ≤ length part.now }
    ensures { ZeroFrom part.now i 8 result }
{
    four(part, i) | four(part, i + 4)
}

// The bits of a part of a few words, put together.
fn few(part: &[u32]) -> u32
    ensures { ZeroFrom part.now 0 (length part.now) result }
{
    let mut bits = 0;
    for word in part {
        bits |= word;
    }
    bits
}

// Whether every word of a part is 0. Their bits are put together, with no way out before the end. The last words are read first, and then
// from the start in eights, so that no word is left over to be read by itself: some may be read twice.
pub fn all_zero(part: &[u32]) -> bool
    ensures { result ≡ all_zero part.now }
{
    let n = part.len();
    if n < 4 {
        return few(part) == 0;
    }
    if n < 8 {
        return (four(part, 0) | four(part, n - 4)) == 0;
    }
    let mut bits = eight(part, n - 8);
    for i in (0..n - 8).step_by(8) {
        bits |= eight(part, i);
    }
    bits == 0
}
