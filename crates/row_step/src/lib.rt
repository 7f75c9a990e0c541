// A line of a trace of calls on a plain row: its call on what is held, and what is printed for it. The format is at the head of the program row_replay.
#![tactic(auto)]

ghost use Rattle.std.specs.Prelude.{◌≡◌, ◌≤◌, length, take};
ghost use Rattle.answers.specs.Refusals.{Meets};
ghost use Rattle.text.specs.Feeding.{LineIn};
ghost use Rattle.trace.specs.Lines.{most_words, Fits};
ghost use Rattle.trace_held.specs.Held.{Held};
ghost use Rattle.row_step.specs.Lines.{row_call, RowCalled, left_by, row_text, line_bytes, RowDone, TextOf};

use answers::{Answer, Refusal};
use calls::Call;
use text::feed::Told;
use trace::Kind;

// The room for a line: an answer and a checksum.
const LINE_BYTES: usize = report::ANSWER_BYTES + report::FIELD_BYTES;

// After a line: how many words are held, and what the line is answered.
#[derive(Clone, Copy)]
struct Done {
    pub used: usize,
    pub reply: Option<Answer>,
}

// Makes a call on the row; what a row does not offer is answered 10.
fn make(keys: &mut [u32], call: Call) -> Answer
    ensures { Meets (row_call call keys.old) result keys.new }
{
    match call {
        Call::SetUp(d, k, c) => return row::row_set_up(d, k, c, keys),
        Call::Operate(operation) => return acceptance_step::row_operation(keys, operation),
        Call::Record => return answers::refused(Refusal::LineNotReadable),
        Call::Write => return answers::refused(Refusal::LineNotReadable),
        Call::Read => return answers::refused(Refusal::LineNotReadable),
    }
}

// The line's call; a line that is not readable is answered 10.
fn line_call(keys: &mut [u32], kind: Kind) -> Option<Answer>
    ensures { RowCalled kind keys.old result keys.new }
{
    match kind {
        Kind::Fresh(_, call) => return Some(make(keys, call)),
        Kind::Make(call) => return Some(make(keys, call)),
        Kind::Put(_, _) => return None,
        Kind::Length(_) => return None,
        Kind::Bytes(_) => return Some(answers::refused(Refusal::LineNotReadable)),
        Kind::Add => return Some(answers::refused(Refusal::LineNotReadable)),
        Kind::PutByte(_, _) => return Some(answers::refused(Refusal::LineNotReadable)),
        Kind::Last(_) => return Some(answers::refused(Refusal::LineNotReadable)),
        Kind::Unreadable => return Some(answers::refused(Refusal::LineNotReadable)),
    }
}

// Does what a line says.
fn do_line(words: &mut [u32], used: usize, kind: Kind) -> Done
    requires { Held most_words words.old used × Fits kind }
    ensures { RowDone kind (take used words.old) words.new result }
{
    let n = trace_held::buffer::altered(words, used, kind);
    let reply = line_call(&mut words[0..n], kind);
    Done { used: n, reply }
}

// Puts what is printed for a line into `out`, from the first byte on; how many bytes.
fn put_line(out: &mut [u8], reply: Option<Answer>, list: &[u32]) -> usize
    requires { line_bytes ≤ length out.old }
    ensures { (take result out.new ≡ row_text reply list.now) × (result ≤ length out.new) }
{
    let at = trace_step::put::put_head(out, reply);
    report::put_checksum(out, at, list)
}

// Writes a line, by one write. It takes what the line says and the words afterwards so that its contract can say whose line it is.
fn write(out: &[u8], kind: Kind, list: &[u32])
    requires { TextOf out.now kind list.now }
{
    io::write_all(1, out);
}

// Does what a line says and prints its answer; how many words are held afterwards.
fn reply(words: &mut [u32], used: usize, kind: Kind) -> usize
    requires { Held most_words words.old used × Fits kind }
    ensures held { Held most_words words.new result }
    ensures left { take result words.new ≡ left_by kind (take used words.old) }
{
    let done = do_line(words, used, kind);
    let n = done.used;
    let answer = done.reply;
    let mut out = [0u8; LINE_BYTES];
    let end = put_line(&mut out, answer, &words[..n]);
    write(&out[..end], kind, &words[..n]);
    n
}

// Does what the line that ended says, if one did, and prints its answer; how many words are held afterwards.
pub fn answer_line(words: &mut [u32], used: usize, line: &[u8], ended: Told) -> usize
    requires { Held most_words words.old used × LineIn line.now ended }
    ensures { Held most_words words.new result }
{
    match ended {
        Told::NoLine => return used,
        Told::Line(n) => return reply(words, used, trace::parse(&line[0..n])),
        Told::LongLine => return reply(words, used, Kind::Unreadable),
    }
}
