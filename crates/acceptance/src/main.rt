// Acceptance: reads a trace of calls from standard input, makes each on both engines, the list and the plain row, and prints for each line the list's
// four numbers and the row's four; last `SAME on N lines`, or `DIFFER first on line n`. docs/REFERENCE.md, *The plain row*.
//
//     U D K C        sets both engines up, with words of their own lengths
//     N key value    insert
//     F key          find
//     A key          finish
//     T              take
//     S              sweep
//
// Every number is 0 to 4,294,967,295. One space between fields, decimal, no leading zeros, at most 64 bytes before the line feed; a last line without
// line feed counts. Before the first U neither engine has words. A U out of range is made on the words as they stand. One whose list has more than
// 155,670 words, and a line that is none of these, prints 10 0 0 0 twice and does nothing. What a search looks at, and the links that a finish
// moves, are the list's own and not compared.
//
// The file stdout has the answers of the separate ordered set: compare/ordered_set/target/release/ordered_set acceptance < stdin > stdout
#![tactic(auto)]

ghost use Rattle.std.specs.Prelude.{◌≡◌, length};
ghost use Rattle.text.specs.Lines.{most_bytes};
ghost use Rattle.trace.specs.Lines.{most_words};
ghost use Rattle.acceptance_step.specs.Lines.{most_row_words};
ghost use Rattle.acceptance.specs.Kept.{Kept};

use acceptance_step::{Sizes, State, Tally};
use std::io::Read;
use std::rt::Stdin;
use text::feed::Feed;

// What is kept from one byte to the next, beside the arrays and the bytes of the line begun.
#[derive(Clone, Copy)]
pub struct Fed {
    pub feed: Feed,
    pub state: State,
}

// One byte of the input: the feed keeps it, or the line that it ends is answered.
fn feed_byte(words: &mut [u32], keys: &mut [u32], line: &mut [u8], s: Fed, byte: u8) -> Fed
    requires { Kept words.old keys.old line.old s }
    ensures { Kept words.new keys.new line.new result }
{
    let fed = text::feed::feed_byte(line, s.feed, byte);
    let feed = fed.feed;
    let ended = fed.told;
    let before = s.state;
    let state = acceptance_step::answer_line(words, keys, before, line, ended);
    Fed { feed, state }
}

// A part of the input.
fn feed_part(words: &mut [u32], keys: &mut [u32], line: &mut [u8], before: Fed, part: &[u8]) -> Fed
    requires { Kept words.old keys.old line.old before }
    ensures { Kept words.new keys.new line.new result }
{
    let mut s = before;
    for byte in part {
        s = feed_byte(words, keys, line, s, *byte);
    }
    s
}

// The input, in parts, to its end or to a read that fails, and the verdict. Nothing says that an input ends, so the turns are counted up to a
// number that no run reaches.
fn read_all(input: &mut Stdin, words: &mut [u32], keys: &mut [u32], line: &mut [u8])
    requires { (length words.old ≡ most_words) × ((length keys.old ≡ most_row_words) × (length line.old ≡ most_bytes)) }
{
    let mut s = Fed {
        feed: text::feed::start(),
        state: State {
            sizes: Sizes { list: 0, row: 0 },
            tally: Tally { lines: 0, first: 0 },
        },
    };
    let mut part = io::large_buffer();
    for _ in 0..u64::MAX {
        let Ok(n) = input.read(&mut part) else {
            break;
        };
        if n == 0 {
            break;
        }
        s = feed_part(words, keys, line, s, &part[..n]);
    }
    let ended = text::feed::finish(s.feed);
    let before = s.state;
    let state = acceptance_step::answer_line(words, keys, before, line, ended);
    acceptance_step::say_verdict(state.tally);
}

fn main(rt: HostRuntime) {
    let mut input = rt.stdin();
    let mut words = [0u32; trace::MOST_WORDS];
    let mut keys = [0u32; acceptance_step::MOST_ROW_WORDS];
    let mut line = [0u8; text::feed::MOST_BYTES];
    read_all(&mut input, &mut words, &mut keys, &mut line);
}
