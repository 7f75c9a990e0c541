// The replay: reads a trace of calls from standard input, one a line, and prints one line for each, so that the list can be compared with
// another implementation word for word.
//
//     U D K C LEN      makes a buffer of LEN words, every word 2,779,096,485, then calls set up on it
//     N key value      insert
//     F key            find
//     A key            finish
//     T                take
//     S                sweep
//     P index value    writes one word of the buffer; nothing where the index is past its end
//     L LEN            makes the buffer LEN words long: cut, or extended with words 0
//     B LEN            makes the bytes LEN long, every byte 165
//     H hex            puts 1 to 30 bytes after the bytes that are there, two digits 0-9 a-f each; nothing where there would be more than 40,000
//     Q index value    writes one byte; nothing where the index is past the end
//     O number         makes the last number this one
//     G                record: hands the bytes over as one record of the logger's export, with the last number
//     W                write: writes the list into the bytes
//     R                read: reads the bytes into the list's words
//
// LEN of U and L is 0 to 155,670, of B 0 to 40,000; value of Q 0 to 255, number of O 0 to 4,294,967,296, every other number 0 to
// 4,294,967,295. One space between fields, decimal, no leading zeros, at most 64 bytes before the line feed; a last line without line feed
// counts. Before the first U the buffer has no words; there are no bytes at first, and the last number is 4,294,967,296: no record accepted yet.
//
// A call prints refusal, key, value, count and the checksum of the buffer afterwards; P and L print `- - - -` and the checksum. B, H, Q and O
// print `- - - -`, G, W and R their four numbers; then the words' checksum, the bytes' checksum and the last number. A line that is none of these, or
// empty, or longer, prints `10 0 0 0` and the words' checksum, and nothing is done. The checksum h starts at the number of words, or bytes; for
// each in order h becomes (h x 1,000,003 + it) mod 2,147,483,647.
//
// The file stdout has the answers of the separate ordered set: compare/ordered_set/target/release/ordered_set replay < stdin > stdout
#![tactic(auto)]

ghost use Rattle.std.specs.Prelude.{◌≡◌, length};
ghost use Rattle.text.specs.Lines.{most_bytes};
ghost use Rattle.trace.specs.Lines.{most_words, most_held};
ghost use Rattle.replay.specs.Kept.{Kept};

use std::io::Read;
use std::rt::Stdin;
use text::feed::Feed;
use trace_step::Sizes;

// What is kept from one byte to the next, beside the arrays, the last number and the bytes of the line begun: how much is held.
#[derive(Clone, Copy)]
pub struct State {
    pub feed: Feed,
    pub sizes: Sizes,
}

// One byte of the input: the feed keeps it, or the line that it ends is answered.
fn feed_byte(
    words: &mut [u32],
    bytes: &mut [u8],
    last: &mut u64,
    line: &mut [u8],
    state: State,
    byte: u8,
) -> State
    requires { Kept words.old bytes.old line.old state }
    ensures { Kept words.new bytes.new line.new result }
{
    let fed = text::feed::feed_byte(line, state.feed, byte);
    let sizes = trace_step::answer_line(words, bytes, last, state.sizes, line, fed.told);
    State {
        feed: fed.feed,
        sizes,
    }
}

// A part of the input, byte by byte.
fn feed_part(
    words: &mut [u32],
    bytes: &mut [u8],
    last: &mut u64,
    line: &mut [u8],
    state: State,
    part: &[u8],
) -> State
    requires { Kept words.old bytes.old line.old state }
    ensures { Kept words.new bytes.new line.new result }
{
    let mut s = state;
    for byte in part {
        s = feed_byte(words, bytes, last, line, s, *byte);
    }
    s
}

// The input, in parts, to its end or to a read that fails. Nothing says that an input ends, so the turns are counted, up to a number
// that no run reaches.
fn read_all(input: &mut Stdin, words: &mut [u32], bytes: &mut [u8], last: &mut u64, line: &mut [u8])
    requires { (length words.old ≡ most_words) × ((length bytes.old ≡ most_held) × (length line.old ≡ most_bytes)) }
{
    let mut s = State {
        feed: text::feed::start(),
        sizes: Sizes { used: 0, filled: 0 },
    };
    let mut part = io::large_buffer();
    for _ in 0..u64::MAX {
        let Ok(n @ 1..) = input.read(&mut part) else {
            break;
        };
        s = feed_part(words, bytes, last, line, s, &part[..n]);
    }
    let ended = text::feed::finish(s.feed);
    trace_step::answer_line(words, bytes, last, s.sizes, line, ended);
}

fn main(rt: HostRuntime) {
    let mut input = rt.stdin();
    let mut words = [0u32; trace::MOST_WORDS];
    let mut bytes = [0u8; trace::MOST_HELD];
    let mut last = full_number::NO_NUMBER;
    let mut line = [0u8; text::feed::MOST_BYTES];
    read_all(&mut input, &mut words, &mut bytes, &mut last, &mut line);
}
