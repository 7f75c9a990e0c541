// The line that is printed for a line of a trace, field by field.
ghost use Rattle.std.specs.Prelude.{◌≡◌, ◌+◌, ◌*◌, ◌≤◌, length};
ghost use Rattle.calls.specs.Records.{lent_of};
ghost use Rattle.report.specs.Report.{field_bytes, answer_bytes, Put};
ghost use Rattle.trace_step.specs.Printed.{head_text, lent_text, tells, tail_text};

use answers::Answer;
use calls::Call;
use trace::Kind;

// Puts the first four fields: an answer, or `- - - -` in its place.
pub fn put_head(out: &mut [u8], reply: Option<Answer>) -> usize
    requires { answer_bytes ≤ length out.old }
    ensures { Put out.old 0 (head_text reply) out.new result × (result ≤ answer_bytes) }
{
    match reply {
        Some(a) => report::put_answer(out, 0, a, b' '),
        None => report::put(out, 0, b"- - - - "),
    }
}

// Puts the checksum of the words and that of the bytes, and the last number, with a byte after it.
fn put_lent(out: &mut [u8], at: usize, list: &[u32], bytes: &[u8], last: u64, byte: u8) -> usize
    requires { at + 3 * field_bytes ≤ length out.old }
    ensures { Put out.old at (lent_text (lent_of list.now bytes.now last) byte) out.new result × (result ≤ at + 3 * field_bytes) }
{
    let second = report::put_number(out, at, report::checksum(list), b' ');
    let third = report::put_number(out, second, report::checksum(bytes), b' ');
    report::put_number(out, third, last, byte)
}

// Whether a line tells of the bytes and the last number.
pub fn kind_tells(kind: Kind) -> bool
    ensures { result ≡ tells kind }
{
    match kind {
        Kind::Make(Call::Record | Call::Write | Call::Read) => true,
        Kind::Bytes(_) | Kind::Add | Kind::PutByte(_, _) | Kind::Last(_) => true,
        _ => false,
    }
}

// Puts the fields after the first four, with a byte after them.
pub fn put_tail(
    out: &mut [u8],
    at: usize,
    told: bool,
    list: &[u32],
    bytes: &[u8],
    last: u64,
    byte: u8,
) -> usize
    requires { at + 3 * field_bytes ≤ length out.old }
    ensures { Put out.old at (tail_text told (lent_of list.now bytes.now last) byte) out.new result × (result ≤ at + 3 * field_bytes) }
{
    if told {
        return put_lent(out, at, list, bytes, last, byte);
    }
    report::put_number(out, at, report::checksum(list), byte)
}
