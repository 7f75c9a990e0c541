// What a line of a trace does to what is held, what it is answered, and what is printed for it.
#![tactic(auto)]

ghost use Rattle.std.specs.Prelude.{◌≡◌, ◌≤◌, length};
ghost use Rattle.text.specs.Feeding.{LineIn};
ghost use Rattle.calls.specs.Records.{lent_of};
ghost use Rattle.trace.specs.Lines.{Fits};
ghost use Rattle.trace_step.specs.Room.{Room, held_in};
ghost use Rattle.trace_step.specs.Printed.{left_by, line_bytes, LineAnswered, ReadAs, TextOf};

use text::feed::Told;
use trace::Kind;

pub mod put; // put.rt: the line printed

// The room for a line: an answer, two checksums and the last number.
const LINE_BYTES: usize = report::ANSWER_BYTES + 3 * report::FIELD_BYTES;

// How many of the words and of the bytes are held.
#[derive(Clone, Copy)]
pub struct Sizes {
    pub used: usize,
    pub filled: usize,
}

// After a line: what is held, and how many bytes are printed.
#[derive(Clone, Copy)]
struct Answered {
    pub sizes: Sizes,
    pub text: usize,
}

// Does what a line says, and puts the bytes that are printed for it into `out`, from the first on.
fn line_text(
    words: &mut [u32],
    bytes: &mut [u8],
    last: &mut u64,
    sizes: Sizes,
    line: &[u8],
    kind: Kind,
    out: &mut [u8],
) -> Answered
    requires { (Room words.old bytes.old sizes × Fits kind) × (line_bytes ≤ length out.old) }
    ensures { LineAnswered kind line.now (held_in words.old bytes.old last.old sizes) words.new bytes.new last.new out.new result }
{
    let n = trace_held::buffer::altered(words, sizes.used, kind);
    let m = trace_held::bytes::altered(bytes, sizes.filled, kind, line);
    let before = *last;
    *last = trace_held::bytes::last_after(before, kind);
    let reply = trace_call::call(&mut words[0..n], &mut bytes[0..m], last, kind);
    let at = put::put_head(out, reply);
    let after = *last;
    let end = put::put_tail(
        out,
        at,
        put::kind_tells(kind),
        &words[0..n],
        &bytes[0..m],
        after,
        b'\n',
    );
    Answered {
        sizes: Sizes { used: n, filled: m },
        text: end,
    }
}

// Writes a line, by one write. It takes what ended, what that says and what is held afterwards so that its contract can say whose line it is.
fn write(text: &[u8], ended: Told, line: &[u8], kind: Kind, list: &[u32], bytes: &[u8], last: u64)
    requires { ReadAs ended kind × TextOf text.now kind line.now (lent_of list.now bytes.now last) }
{
    io::write_all(1, text);
}

// Does what a line says and prints its answer; how much is held afterwards.
fn reply(
    words: &mut [u32],
    bytes: &mut [u8],
    last: &mut u64,
    sizes: Sizes,
    line: &[u8],
    ended: Told,
    kind: Kind,
) -> Sizes
    requires { (Room words.old bytes.old sizes × Fits kind) × ReadAs ended kind }
    ensures held { Room words.new bytes.new result }
    ensures left { held_in words.new bytes.new last.new result ≡ left_by kind line.now (held_in words.old bytes.old last.old sizes) }
{
    let mut out = [0u8; LINE_BYTES];
    let done = line_text(words, bytes, last, sizes, line, kind, &mut out);
    let number = *last;
    write(
        &out[..done.text],
        ended,
        line,
        kind,
        &words[..done.sizes.used],
        &bytes[..done.sizes.filled],
        number,
    );
    done.sizes
}

// Does what the line that ended says, if one did, and prints its answer; how much is held afterwards.
pub fn answer_line(
    words: &mut [u32],
    bytes: &mut [u8],
    last: &mut u64,
    sizes: Sizes,
    line: &[u8],
    ended: Told,
) -> Sizes
    requires { Room words.old bytes.old sizes × LineIn line.now ended }
    ensures { Room words.new bytes.new result }
{
    match ended {
        Told::NoLine => sizes,
        Told::Line(n) => reply(
            words,
            bytes,
            last,
            sizes,
            &line[..n],
            ended,
            trace::parse(&line[..n]),
        ),
        Told::LongLine => reply(words, bytes, last, sizes, &[], ended, Kind::Unreadable),
    }
}
