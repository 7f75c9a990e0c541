// The replay of counted calls: reads a trace from standard input, one call a line, and prints one line for each. The lines are those of the program
// replay, each call made with a class record beside the list, and
//
//     K LEN            makes the class record LEN words long, 0 to 64: cut, or extended with words 0
//     X index value    writes one word of the class record; nothing where the index is past its end
//     C class          asks the class record about a class
//
// At first the record has no words. U makes a new buffer and sets it up with the record as it stands. Each line prints what the replay prints for it
// (K and X as P does, C as a call does), and after that the checksum of the record's words.
//
// The file stdout has the answers of the separate ordered set: compare/ordered_set/target/release/ordered_set counted_replay < stdin > stdout
#![tactic(auto)]

ghost use Rattle.std.specs.Prelude.{◌≡◌, length};
ghost use Rattle.text.specs.Lines.{most_bytes};
ghost use Rattle.trace.specs.Lines.{most_words, most_held};
ghost use Rattle.counted_step.specs.Lines.{most_classes};
ghost use Rattle.counted_replay.specs.Kept.{Kept};

use counted_step::Sizes;
use std::io::Read;
use std::rt::Stdin;
use text::feed::Feed;

// What is kept from one byte to the next, beside the arrays, the last number and the bytes of the line begun: how much is held.
#[derive(Clone, Copy)]
pub struct State {
    pub feed: Feed,
    pub sizes: Sizes,
}

// One byte of the input: the feed keeps it, or the line that it ends is answered.
fn feed_byte(
    words: &mut [u32],
    bytes: &mut [u8],
    last: &mut u64,
    classes: &mut [u32],
    line: &mut [u8],
    state: State,
    byte: u8,
) -> State
    requires { Kept words.old bytes.old classes.old line.old state }
    ensures { Kept words.new bytes.new classes.new line.new result }
{
    let fed = text::feed::feed_byte(line, state.feed, byte);
    let feed = fed.feed;
    let ended = fed.told;
    let before = state.sizes;
    let sizes = counted_step::answer_line(words, bytes, last, classes, before, line, ended);
    State { feed, sizes }
}

// A part of the input, byte by byte.
fn feed_part(
    words: &mut [u32],
    bytes: &mut [u8],
    last: &mut u64,
    classes: &mut [u32],
    line: &mut [u8],
    state: State,
    part: &[u8],
) -> State
    requires { Kept words.old bytes.old classes.old line.old state }
    ensures { Kept words.new bytes.new classes.new line.new result }
{
    let mut s = state;
    for byte in part {
        s = feed_byte(words, bytes, last, classes, line, s, *byte);
    }
    s
}

// The input, in parts, to its end or to a read that fails. Nothing says that an input ends, so the turns are counted up to a number
// that no run reaches.
fn read_all(
    input: &mut Stdin,
    words: &mut [u32],
    bytes: &mut [u8],
    last: &mut u64,
    classes: &mut [u32],
    line: &mut [u8],
)
    requires { (length words.old ≡ most_words) × ((length bytes.old ≡ most_held) × ((length classes.old ≡ most_classes) × (length line.old ≡ most_bytes))) }
{
    let mut s = State {
        feed: text::feed::start(),
        sizes: Sizes {
            used: 0,
            filled: 0,
            classes: 0,
        },
    };
    let mut part = io::large_buffer();
    for _ in 0..u64::MAX {
        let Ok(n) = input.read(&mut part) else {
            break;
        };
        if n == 0 {
            break;
        }
        s = feed_part(words, bytes, last, classes, line, s, &part[..n]);
    }
    let ended = text::feed::finish(s.feed);
    let sizes = s.sizes;
    counted_step::answer_line(words, bytes, last, classes, sizes, line, ended);
}

fn main(rt: HostRuntime) {
    let mut input = rt.stdin();
    let mut words = [0u32; trace::MOST_WORDS];
    let mut bytes = [0u8; trace::MOST_HELD];
    let mut last = full_number::NO_NUMBER;
    let mut classes = [0u32; counted_step::MOST_CLASSES];
    let mut line = [0u8; text::feed::MOST_BYTES];
    read_all(
        &mut input,
        &mut words,
        &mut bytes,
        &mut last,
        &mut classes,
        &mut line,
    );
}
