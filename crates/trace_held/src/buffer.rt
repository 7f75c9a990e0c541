// The words held, the first `used` of an array's: what a line does to them apart from its call.
ghost use Rattle.std.specs.Prelude.{◌≤◌, length, take};
ghost use Rattle.trace.specs.Lines.{most_words, Fits};
ghost use Rattle.trace_held.specs.Held.{Held, Holds, buffer_after, cut_to};

use crate::put;
use trace::Kind;

// A word that no fresh list has, so that a word left as it was shows.
const LEFT: u32 = 2779096485;

// The buffer cut to n words, or extended with words 0.
pub fn resized(words: &mut [u32], used: usize, n: usize) -> usize
    requires { (used ≤ length words.old) × (n ≤ length words.old) }
    ensures { Holds (length words.old) words.new result (cut_to n (take used words.old)) }
{
    if used < n {
        words[used..n].fill(0);
    }
    n
}

// What a line does to the buffer before its call, if it makes one; the buffer's length afterwards.
pub fn altered(words: &mut [u32], used: usize, kind: Kind) -> usize
    requires { Held most_words words.old used × Fits kind }
    ensures { Holds most_words words.new result (buffer_after kind (take used words.old)) }
{
    match kind {
        Kind::Fresh(n, _) => {
            words[..n as usize].fill(LEFT);
            n as usize
        }
        Kind::Put(index, value) => put(words, used, index as usize, value),
        Kind::Length(n) => resized(words, used, n as usize),
        _ => used,
    }
}
