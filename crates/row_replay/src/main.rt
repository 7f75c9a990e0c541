// The replay of calls on a plain row: reads a trace from standard input, one call a line, and prints one line for each. The lines are those of the
// program replay for words and calls (U, N, F, A, T, S, P, L), made on a row; each prints what the replay prints for it. Every other line is not readable.
//
// The file stdout has the answers of the separate ordered set: compare/ordered_set/target/release/ordered_set row_replay < stdin > stdout
#![tactic(auto)]

ghost use Rattle.std.specs.Prelude.{◌≡◌, length};
ghost use Rattle.text.specs.Lines.{most_bytes};
ghost use Rattle.trace.specs.Lines.{most_words};
ghost use Rattle.row_replay.specs.Kept.{Kept};

use std::io::Read;
use std::rt::Stdin;
use text::feed::Feed;

// What is kept from one byte to the next, beside the words and the bytes of the line begun: how many words are held.
#[derive(Clone, Copy)]
pub struct State {
    pub feed: Feed,
    pub used: usize,
}

// One byte of the input: the feed keeps it, or the line that it ends is answered.
fn feed_byte(words: &mut [u32], line: &mut [u8], state: State, byte: u8) -> State
    requires { Kept words.old line.old state }
    ensures { Kept words.new line.new result }
{
    let fed = text::feed::feed_byte(line, state.feed, byte);
    let feed = fed.feed;
    let ended = fed.told;
    let used = row_step::answer_line(words, state.used, line, ended);
    State { feed, used }
}

// A part of the input.
fn feed_part(words: &mut [u32], line: &mut [u8], state: State, part: &[u8]) -> State
    requires { Kept words.old line.old state }
    ensures { Kept words.new line.new result }
{
    let mut s = state;
    for byte in part {
        s = feed_byte(words, line, s, *byte);
    }
    s
}

// The input, in parts, to its end or to a read that fails. Nothing says that an input ends, so the turns are counted up to a number
// that no run reaches.
fn read_all(input: &mut Stdin, words: &mut [u32], line: &mut [u8])
    requires { (length words.old ≡ most_words) × (length line.old ≡ most_bytes) }
{
    let mut s = State {
        feed: text::feed::start(),
        used: 0,
    };
    let mut part = io::large_buffer();
    for _ in 0..u64::MAX {
        let Ok(n) = input.read(&mut part) else {
            break;
        };
        if n == 0 {
            break;
        }
        s = feed_part(words, line, s, &part[..n]);
    }
    let ended = text::feed::finish(s.feed);
    row_step::answer_line(words, s.used, line, ended);
}

fn main(rt: HostRuntime) {
    let mut input = rt.stdin();
    let mut words = [0u32; trace::MOST_WORDS];
    let mut line = [0u8; text::feed::MOST_BYTES];
    read_all(&mut input, &mut words, &mut line);
}
