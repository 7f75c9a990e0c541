// A line of a trace of counted calls: what it says, its call on what is held, and what is printed for it. The format is at the head of the program
// counted_replay.
#![tactic(auto)]

ghost use Rattle.std.specs.Prelude.{◌≡◌, ◌≤◌, length, take};
ghost use Rattle.answers.specs.Refusals.{Meets};
ghost use Rattle.calls.specs.Records.{lent_of};
ghost use Rattle.calls.specs.declared.Call.TheVariants.{Operate};
ghost use Rattle.text.specs.Feeding.{LineIn};
ghost use Rattle.counted.specs.Counted.{beside, words_beside, counted_out};
ghost use Rattle.trace.specs.Lines.{Fits};
ghost use Rattle.trace_held.specs.Held.{Held, Holds};
ghost use Rattle.counted_step.specs.Lines.{most_classes, LineFits, kind_in, classes_after, KindCalled, LineCalled};
ghost use Rattle.counted_step.specs.Printed.{Room, held_in, left_by, text_of, line_bytes, LineDone, TextOf};

use answers::{Answer, Operation, Refusal};
use calls::Call;
use text::feed::Told;
use trace::Kind;

pub const MOST_CLASSES: usize = 64;

// The room for a line: an answer, three checksums and the last number.
const LINE_BYTES: usize = report::ANSWER_BYTES + 4 * report::FIELD_BYTES;

// What a line says.
#[derive(Clone, Copy)]
pub enum Line {
    // a line of the replay, its call made with the class record beside the list
    Listed(Kind),
    // K
    ClassWords(u32),
    // X: index, value
    ClassWord(u32, u32),
    // C
    Class(u32),
}

// How many of the words, of the bytes and of the class record's words are held.
#[derive(Clone, Copy)]
pub struct Sizes {
    pub used: usize,
    pub filled: usize,
    pub classes: usize,
}

// After a line: what is held, and what the line is answered.
#[derive(Clone, Copy)]
struct Done {
    pub used: usize,
    pub filled: usize,
    pub classes: usize,
    pub reply: Option<Answer>,
}

fn unreadable() -> Line
    ensures { LineFits result }
{
    Line::Listed(Kind::Unreadable)
}

// K, X and C with their numbers.
fn classes_line(letter: u8, numbers: &[u32]) -> Line
    ensures { LineFits result }
{
    match (letter, numbers) {
        (b'K', [len]) if *len as usize <= MOST_CLASSES => Line::ClassWords(*len),
        (b'X', [index, value]) => Line::ClassWord(*index, *value),
        (b'C', [key]) => Line::Class(*key),
        _ => unreadable(),
    }
}

fn is_classes_letter(letter: u8) -> bool {
    matches!(letter, b'K' | b'X' | b'C')
}

// A line of at most 64 bytes. Its first field is one letter.
fn parse(line: &[u8]) -> Line
    ensures { LineFits result }
{
    match line {
        [letter] | [letter, b' ', ..] if is_classes_letter(*letter) => match trace::numbers_after(
            line, 1,
        ) {
            Some(numbers) => classes_line(*letter, numbers.as_slice()),
            None => unreadable(),
        },
        _ => Line::Listed(trace::parse(line)),
    }
}

// The replay's line in a line.
fn kind_in(line: Line) -> Kind
    requires { LineFits line }
    ensures { (result ≡ kind_in line) × Fits result }
{
    match line {
        Line::Listed(kind) => return kind,
        Line::ClassWords(_) => return Kind::Unreadable,
        Line::ClassWord(_, _) => return Kind::Unreadable,
        Line::Class(_) => return Kind::Unreadable,
    }
}

// What a line does to the class record before its call, if it makes one; how many words it has afterwards.
fn classes_altered(classes: &mut [u32], held: usize, line: Line) -> usize
    requires { Held most_classes classes.old held × LineFits line }
    ensures { Holds most_classes classes.new result (classes_after line (take held classes.old)) }
{
    match line {
        Line::Listed(_) => return held,
        Line::ClassWords(n) => return trace_held::buffer::resized(classes, held, n as usize),
        Line::ClassWord(index, value) => return trace_held::put(
            classes,
            held,
            index as usize,
            value,
        ),
        Line::Class(_) => return held,
    }
}

// Makes one of the five operations.
fn make_operation(list: &mut [u32], classes: &mut [u32], operation: Operation) -> Answer
    ensures { Meets (counted_out (Operate operation) (words_beside list.old classes.old)) result (words_beside list.new classes.new) }
{
    match operation {
        Operation::Insert(key, value) => return counted::counted_insert(list, classes, key, value),
        Operation::Find(key) => return counted::counted_find(list, classes, key),
        Operation::Finish(key) => return counted::counted_finish(list, classes, key),
        Operation::Take => return counted::counted_take(list, classes),
        Operation::Sweep => return counted::counted_sweep(list, classes),
    }
}

// Makes a call. One that needs no bytes leaves them unread.
fn make(
    list: &mut [u32],
    classes: &mut [u32],
    bytes: &mut [u8],
    last: &mut u64,
    call: Call,
) -> Answer
    ensures { Meets (counted_out call (beside (lent_of list.old bytes.old last.old) classes.old)) result (beside (lent_of list.new bytes.new last.new) classes.new) }
{
    match call {
        Call::SetUp(d, k, c) => return counted::counted_set_up(d, k, c, list, classes),
        Call::Operate(operation) => return make_operation(list, classes, operation),
        Call::Record => return counted::counted_record(list, classes, bytes, last),
        Call::Write => return counted::counted_write(list, classes, bytes),
        Call::Read => return counted::counted_read(bytes, list, classes),
    }
}

// The call of a line of the replay; one that is not readable is answered 10.
fn kind_call(
    list: &mut [u32],
    classes: &mut [u32],
    bytes: &mut [u8],
    last: &mut u64,
    kind: Kind,
) -> Option<Answer>
    ensures { KindCalled kind (beside (lent_of list.old bytes.old last.old) classes.old) result (beside (lent_of list.new bytes.new last.new) classes.new) }
{
    match kind {
        Kind::Fresh(_, call) => return Some(make(list, classes, bytes, last, call)),
        Kind::Make(call) => return Some(make(list, classes, bytes, last, call)),
        Kind::Put(_, _) => return None,
        Kind::Length(_) => return None,
        Kind::Bytes(_) => return None,
        Kind::Add => return None,
        Kind::PutByte(_, _) => return None,
        Kind::Last(_) => return None,
        Kind::Unreadable => return Some(answers::refused(Refusal::LineNotReadable)),
    }
}

// The line's call.
fn line_call(
    list: &mut [u32],
    classes: &mut [u32],
    bytes: &mut [u8],
    last: &mut u64,
    line: Line,
) -> Option<Answer>
    ensures { LineCalled line (beside (lent_of list.old bytes.old last.old) classes.old) result (beside (lent_of list.new bytes.new last.new) classes.new) }
{
    match line {
        Line::Listed(kind) => return kind_call(list, classes, bytes, last, kind),
        Line::ClassWords(_) => return None,
        Line::ClassWord(_, _) => return None,
        Line::Class(class) => return Some(counted::counted_class(classes, class)),
    }
}

// Does what a line says.
fn do_line(
    words: &mut [u32],
    bytes: &mut [u8],
    last: &mut u64,
    classes: &mut [u32],
    sizes: Sizes,
    text: &[u8],
    line: Line,
) -> Done
    requires { Room words.old bytes.old classes.old sizes × LineFits line }
    ensures { LineDone line text.now (held_in words.old bytes.old last.old classes.old sizes) words.new bytes.new last.new classes.new result }
{
    let kind = kind_in(line);
    let n = trace_held::buffer::altered(words, sizes.used, kind);
    let m = trace_held::bytes::altered(bytes, sizes.filled, kind, text);
    let h = classes_altered(classes, sizes.classes, line);
    let before = *last;
    *last = trace_held::bytes::last_after(before, kind);
    let reply = line_call(
        &mut words[0..n],
        &mut classes[0..h],
        &mut bytes[0..m],
        last,
        line,
    );
    Done {
        used: n,
        filled: m,
        classes: h,
        reply,
    }
}

// Puts what is printed for a line into `out`, from the first byte on; how many bytes.
fn put_line(
    out: &mut [u8],
    reply: Option<Answer>,
    told: bool,
    list: &[u32],
    bytes: &[u8],
    last: u64,
    classes: &[u32],
) -> usize
    requires { line_bytes ≤ length out.old }
    ensures { (take result out.new ≡ text_of reply told (beside (lent_of list.now bytes.now last) classes.now)) × (result ≤ length out.new) }
{
    let at = trace_step::put::put_head(out, reply);
    let next = trace_step::put::put_tail(out, at, told, list, bytes, last, b' ');
    report::put_checksum(out, next, classes)
}

// Writes a line, by one write. It takes what the line says and what is held afterwards so that its contract can say whose line it is.
fn write(
    out: &[u8],
    text: &[u8],
    line: Line,
    list: &[u32],
    bytes: &[u8],
    last: u64,
    classes: &[u32],
)
    requires { TextOf out.now line text.now (beside (lent_of list.now bytes.now last) classes.now) }
{
    io::write_all(1, out);
}

// Does what a line says and prints its answer; how much is held afterwards.
fn reply(
    words: &mut [u32],
    bytes: &mut [u8],
    last: &mut u64,
    classes: &mut [u32],
    sizes: Sizes,
    text: &[u8],
    line: Line,
) -> Sizes
    requires { Room words.old bytes.old classes.old sizes × LineFits line }
    ensures held { Room words.new bytes.new classes.new result }
    ensures left { held_in words.new bytes.new last.new classes.new result ≡ left_by line text.now (held_in words.old bytes.old last.old classes.old sizes) }
{
    let done = do_line(words, bytes, last, classes, sizes, text, line);
    let n = done.used;
    let m = done.filled;
    let h = done.classes;
    let answer = done.reply;
    let number = *last;
    let told = trace_step::put::kind_tells(kind_in(line));
    let mut out = [0u8; LINE_BYTES];
    let end = put_line(
        &mut out,
        answer,
        told,
        &words[..n],
        &bytes[..m],
        number,
        &classes[..h],
    );
    write(
        &out[..end],
        text,
        line,
        &words[..n],
        &bytes[..m],
        number,
        &classes[..h],
    );
    Sizes {
        used: n,
        filled: m,
        classes: h,
    }
}

// Does what the line that ended says, if one did, and prints its answer; how much is held afterwards.
pub fn answer_line(
    words: &mut [u32],
    bytes: &mut [u8],
    last: &mut u64,
    classes: &mut [u32],
    sizes: Sizes,
    line: &[u8],
    ended: Told,
) -> Sizes
    requires { Room words.old bytes.old classes.old sizes × LineIn line.now ended }
    ensures { Room words.new bytes.new classes.new result }
{
    match ended {
        Told::NoLine => return sizes,
        Told::Line(n) => return reply(
            words,
            bytes,
            last,
            classes,
            sizes,
            &line[0..n],
            parse(&line[0..n]),
        ),
        Told::LongLine => return reply(
            words,
            bytes,
            last,
            classes,
            sizes,
            &line[0..0],
            unreadable(),
        ),
    }
}
