// The order program: reads lines from standard input, asks the list what each line says, and prints one line for each. docs/REFERENCE.md,
// The order program.
//
//     N class unit serial value    insert
//     F class unit serial          find
//     A class unit serial          finish
//     T                            take
//     S                            sweep
//
// The list has D = 8, K = 4,294,967,295 and C = 512, in an array of 7,181 words. The input comes in parts of any size, and each answer is
// written as soon as its line has been read, by one write. A read or a write that fails ends the program with a message on standard error;
// what was answered until then has been written, and a line begun at a read that fails is not answered.
//
// The file stdout has the answers of the separate ordered set: compare/ordered_set/target/release/ordered_set order < stdin > stdout
#![tactic(auto)]

ghost use Rattle.std.specs.Prelude.{◌≡◌, [], ◌∷◌, length, is_ok};
ghost use Rattle.text.specs.Parts.{after_all, Known, BytesFed, PartFed, EndFed};
ghost use Rattle.text.specs.Lines.{most_bytes};
ghost use Rattle.text.specs.Feeding.{line_handing, told_in, Holds, LineIn};
ghost use Rattle.meaning.specs.Layer.Listed.{Listed};
ghost use Rattle.report.specs.Answered.{leaving, TextOf};
ghost use Rattle.order_step.specs.Step.{line_outcome};
ghost use Rattle.entry_list.specs.EntryList.{fresh_words};

use settings::Settings;
use std::io::Read;
use std::rt::Stdin;
use text::feed::{Feed, Told};

// Why the program ends with a line that is not answered.
#[derive(Clone, Copy)]
pub enum Failure {
    NotRead,
    NotWritten,
}

// Writes what is printed for the line that ended, by one write, and nothing if none did. It takes the line and the words that it left so that
// its contract can say whose text it is.
fn write(text: &[u8], line: &[u8], ended: Told, words: &[u32]) -> Result<(), Failure>
    requires { TextOf line_outcome text.now (told_in line.now ended) words.now }
{
    if !io::write_all(1, text) {
        return Err(Failure::NotWritten);
    }
    Ok(())
}

// Answers the line that ended, if one did.
fn answer_line(
    words: &mut [u32],
    settings: Settings,
    line: &[u8],
    ended: Told,
) -> Result<(), Failure>
    requires { Listed words.old settings × LineIn line.now ended }
    ensures { words.new ≡ after_all (leaving line_outcome) words.old (told_in line.now ended) }
{
    let mut out = [0u8; report::ANSWER_BYTES];
    let n = order_step::line_text(words, settings, line, ended, &mut out);
    write(&out[..n], line, ended, words)
}

// One byte of the input: the feed keeps it, or the line that it ends is answered.
fn feed_byte(
    words: &mut [u32],
    settings: Settings,
    line: &mut [u8],
    feed: &mut Feed,
    byte: u8,
) -> Result<(), Failure>
    requires { Listed words.old settings × Known (Holds line.old feed.old) }
    ensures { BytesFed line_handing (leaving line_outcome) (byte ∷ []) (Holds line.old feed.old) words.old (Holds line.new feed.new) words.new }
{
    let fed = text::feed::feed_byte(line, *feed, byte);
    *feed = fed.feed;
    answer_line(words, settings, line, fed.told)
}

// A part of the input, to its end or to an answer that is not written.
fn feed_part(
    words: &mut [u32],
    settings: Settings,
    line: &mut [u8],
    feed: &mut Feed,
    part: &[u8],
) -> Result<(), Failure>
    requires { Listed words.old settings × Known (Holds line.old feed.old) }
    ensures { PartFed line_handing (leaving line_outcome) part.now (Holds line.old feed.old) words.old (is_ok result) (Holds line.new feed.new) words.new }
{
    for byte in part {
        feed_byte(words, settings, line, feed, *byte)?;
    }
    Ok(())
}

// The end of the input: a line begun counts.
fn feed_end(words: &mut [u32], settings: Settings, line: &[u8], feed: Feed) -> Result<(), Failure>
    requires { Listed words.old settings × Known (Holds line.now feed) }
    ensures { EndFed line_handing (leaving line_outcome) (Holds line.now feed) words.old words.new }
{
    answer_line(words, settings, line, text::feed::finish(feed))
}

// The input, in parts, to its end, on a fresh list. Nothing says that an input ends, so the turns are counted up to a number that no run
// uses up.
fn read_all(
    input: &mut Stdin,
    words: &mut [u32],
    settings: Settings,
    line: &mut [u8],
) -> Result<(), Failure>
    requires { (length line.old ≡ most_bytes) × ((words.old ≡ fresh_words) × Listed words.old settings) }
{
    let mut feed = text::feed::start();
    let mut part = io::large_buffer();
    for _ in 0..u64::MAX {
        let Ok(n) = input.read(&mut part) else {
            return Err(Failure::NotRead);
        };
        if n == 0 {
            return feed_end(words, settings, line, feed);
        }
        feed_part(words, settings, line, &mut feed, &part[..n])?;
    }
    Err(Failure::NotRead)
}

fn main(rt: HostRuntime) {
    let mut words = [0u32; entry_list::WORDS];
    let mut line = [0u8; text::feed::MOST_BYTES];
    let settings = entry_list::set_up(&mut words);
    let mut input = rt.stdin();
    match read_all(&mut input, &mut words, settings, &mut line) {
        Ok(()) => {}
        Err(Failure::NotRead) => {
            io::write_all(2, b"order: standard input cannot be read\n");
        }
        Err(Failure::NotWritten) => {
            io::write_all(2, b"order: standard output cannot be written\n");
        }
    }
}
