// The program logger: reads the logger's export from standard input to its end and enters its records into a list, then takes everything
// from it, the export most urgent first. docs/REFERENCE.md, The program logger.
//
// It prints the answer to each record, a line each: refusal, key, value, count; then an empty line; then the answer to each take, up to and
// with the one that is refused by 7.
//
// The list is that of the program order. The export comes in parts of any size and a record may have any length: what is known of the record
// begun is a value, and none of its bytes are kept. Each answer is written as soon as its record has been read, by one write. A read or a
// write that fails ends the program with a message on standard error; what was answered until then has been written, and a record begun at
// a read that fails is not answered.
//
// The file stdout has the answers of the separate ordered set: compare/ordered_set/target/release/ordered_set logger < stdin > stdout
#![tactic(auto)]

ghost use Rattle.std.specs.Prelude.{◌≡◌, [], ◌∷◌, is_ok};
ghost use Rattle.text.specs.Parts.{after_all, Known, BytesFed, PartFed, EndFed};
ghost use Rattle.notes.specs.Feeding.{record_handing, Holds, told_in, ToldWithin};
ghost use Rattle.meaning.specs.Layer.Listed.{Listed};
ghost use Rattle.entry_list.specs.EntryList.{fresh_words};
ghost use Rattle.calls.specs.Records.{note_out};
ghost use Rattle.report.specs.Answered.{leaving, TextOf};
ghost use Rattle.logger.specs.Input.{kept, TextOfTake, Took, Drained};

use notes::Logged;
use notes::feed::Feed;
use settings::Settings;
use std::io::Read;
use std::rt::Stdin;

// Why the program ends before everything is answered.
#[derive(Clone, Copy)]
pub enum Failure {
    NotRead,
    NotWritten,
}

// Writes bytes to standard output, by one write.
fn put(bytes: &[u8]) -> Result<(), Failure> {
    if io::write_all(1, bytes) {
        Ok(())
    } else {
        Err(Failure::NotWritten)
    }
}

// Writes what is printed for the record that ended, and nothing if none did. It takes the record and what it left so that its contract can
// say whose text it is.
fn write(text: &[u8], ended: Option<Logged>, words: &[u32], last: u64) -> Result<(), Failure>
    requires { TextOf note_out text.now (told_in ended) (kept words.now last) }
{
    put(text)
}

// The same for a take.
fn write_take(text: &[u8], words: &[u32]) -> Result<(), Failure>
    requires { TextOfTake text.now words.now }
{
    put(text)
}

// Enters the record that ended, if one did, and writes its answer.
fn enter_record(
    words: &mut [u32],
    settings: Settings,
    last: &mut u64,
    ended: Option<Logged>,
) -> Result<(), Failure>
    requires { Listed words.old settings × ToldWithin ended }
    ensures { kept words.new last.new ≡ after_all (leaving note_out) (kept words.old last.old) (told_in ended) }
{
    let mut out = [0u8; report::ANSWER_BYTES];
    let n = logger_step::note_text(words, settings, last, ended, &mut out);
    write(&out[..n], ended, words, *last)
}

// One byte of the export: the feed goes on, or the record that it ends is entered.
fn feed_byte(
    words: &mut [u32],
    settings: Settings,
    last: &mut u64,
    feed: &mut Feed,
    byte: u8,
) -> Result<(), Failure>
    requires { Listed words.old settings × Known (Holds feed.old) }
    ensures { BytesFed record_handing (leaving note_out) (byte ∷ []) (Holds feed.old) (kept words.old last.old) (Holds feed.new) (kept words.new last.new) }
{
    let fed = notes::feed::feed_byte(*feed, byte);
    *feed = fed.feed;
    enter_record(words, settings, last, fed.told)
}

// A part of the export, to its end or to an answer that is not written.
fn feed_part(
    words: &mut [u32],
    settings: Settings,
    last: &mut u64,
    feed: &mut Feed,
    part: &[u8],
) -> Result<(), Failure>
    requires { Listed words.old settings × Known (Holds feed.old) }
    ensures { PartFed record_handing (leaving note_out) part.now (Holds feed.old) (kept words.old last.old) (is_ok result) (Holds feed.new) (kept words.new last.new) }
{
    for &byte in part {
        feed_byte(words, settings, last, feed, byte)?;
    }
    Ok(())
}

// The end of the export: a record begun counts.
fn feed_end(
    words: &mut [u32],
    settings: Settings,
    last: &mut u64,
    feed: Feed,
) -> Result<(), Failure>
    requires { Listed words.old settings × Known (Holds feed) }
    ensures { EndFed record_handing (leaving note_out) (Holds feed) (kept words.old last.old) (kept words.new last.new) }
{
    enter_record(words, settings, last, notes::feed::finish(feed))
}

// The export, in parts, to its end, on a fresh list. Nothing says that an input ends, so the turns are counted up to a number that no run
// uses up.
fn read_all(
    input: &mut Stdin,
    words: &mut [u32],
    settings: Settings,
    last: &mut u64,
) -> Result<(), Failure>
    requires { (words.old ≡ fresh_words) × Listed words.old settings }
    ensures { Listed words.new settings }
{
    let mut feed = notes::feed::start();
    let mut part = io::large_buffer();
    for _ in 0..u64::MAX {
        let Ok(n) = input.read(&mut part) else {
            return Err(Failure::NotRead);
        };
        if n == 0 {
            return feed_end(words, settings, last, feed);
        }
        feed_part(words, settings, last, &mut feed, &part[..n])?;
    }
    Err(Failure::NotRead)
}

// One take; whether there may be more to take.
fn take_next(words: &mut [u32], settings: Settings) -> Result<bool, Failure>
    requires { Listed words.old settings }
    ensures { Took words.old words.new result }
{
    let mut out = [0u8; report::ANSWER_BYTES];
    let taken = logger_step::take_text(words, settings, &mut out);
    write_take(&out[..taken.bytes], words)?;
    Ok(taken.more)
}

// Takes until a take is refused. A list has no more keys than cells, so the turns are counted up to a number that no run uses up.
fn drain(words: &mut [u32], settings: Settings) -> Result<(), Failure>
    requires { Listed words.old settings }
    ensures { Drained words.new result }
{
    for _ in 0..u64::MAX {
        let more = take_next(words, settings)?;
        if !more {
            return Ok(());
        }
    }
    Err(Failure::NotRead)
}

// The export, an empty line, and what is taken.
fn run(
    input: &mut Stdin,
    words: &mut [u32],
    settings: Settings,
    last: &mut u64,
) -> Result<(), Failure>
    requires { (words.old ≡ fresh_words) × Listed words.old settings }
    ensures { Drained words.new result }
{
    read_all(input, words, settings, last)?;
    put(b"\n")?;
    drain(words, settings)
}

fn main(rt: HostRuntime) {
    let mut words = [0u32; entry_list::WORDS];
    let mut last = full_number::NO_NUMBER;
    let settings = entry_list::set_up(&mut words);
    let mut input = rt.stdin();
    match run(&mut input, &mut words, settings, &mut last) {
        Ok(()) => {}
        Err(Failure::NotRead) => {
            io::write_all(2, b"logger: standard input cannot be read\n");
        }
        Err(Failure::NotWritten) => {
            io::write_all(2, b"logger: standard output cannot be written\n");
        }
    }
}
