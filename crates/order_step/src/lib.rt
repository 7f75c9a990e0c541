// One line of the order program on the words of its list, which it keeps to itself and need not check again and again: 10 for a line that is not
// readable, before the list is called; else the operation
// that the line asks for. And the bytes that are printed for it.
#![tactic(auto)]

ghost use Rattle.std.specs.Prelude.{◌≡◌, ◌≤◌, length};
ghost use Rattle.text.specs.Lines.{line, too_long};
ghost use Rattle.text.specs.Feeding.{told_in, LineIn};
ghost use Rattle.answers.specs.Refusals.{Meets};
ghost use Rattle.meaning.specs.Layer.Listed.{Listed};
ghost use Rattle.lines.specs.Grammar.{KindInRange};
ghost use Rattle.report.specs.Report.{answer_bytes};
ghost use Rattle.report.specs.Answered.{Answered};
ghost use Rattle.order_step.specs.Step.{kind_operation, line_outcome};

use answers::{Answer, Operation, Refusal};
use lines::Kind;
use settings::{Levels, Settings};
use text::feed::Told;

// The operation that a kind of line asks for.
fn operation_of(kind: Kind) -> Operation
    requires { KindInRange kind }
    ensures { result ≡ kind_operation kind }
{
    match kind {
        Kind::Insert(e, value) => Operation::Insert(e.key(), value),
        Kind::Find(e) => Operation::Find(e.key()),
        Kind::Finish(e) => Operation::Finish(e.key()),
        Kind::Take => Operation::Take,
        Kind::Sweep => Operation::Sweep,
    }
}

// A line with more than 64 bytes.
#[tactic(auto, using(crate::proofs::LineOutcome::too_long_meets))]
fn long_line(list: &[u32]) -> Answer
    ensures { Meets (line_outcome too_long list.now) result list.now }
{
    answers::refused(Refusal::LineNotReadable)
}

// A line of at most 64 bytes, or any other that is handed over whole.
#[tactic(auto, using(lines::proofs::Grammar::read_in_range, crate::proofs::LineOutcome::not_read_meets))]
fn step(list: &mut [u32], s: Settings, bytes: &[u8]) -> Answer
    requires { Listed list.old s }
    ensures { Meets (line_outcome (line bytes.now) list.old) result list.new }
{
    let Some(line) = lines::parse(bytes) else {
        return answers::refused(Refusal::LineNotReadable);
    };
    let levels = Levels::of(s);
    operate::operate(list, &levels, operation_of(line.kind))
}

// Answers the line that is told of, if one is: puts the bytes that are printed for it into `out`, from the first on; how many they are.
pub fn line_text(list: &mut [u32], s: Settings, line: &[u8], told: Told, out: &mut [u8]) -> usize
    requires { Listed list.old s × (LineIn line.now told × (answer_bytes ≤ length out.old)) }
    ensures { Answered line_outcome (told_in line.now told) list.old list.new out.new result }
{
    match told {
        Told::NoLine => 0,
        Told::Line(n) => report::put_answer(out, 0, step(list, s, &line[..n]), b'\n'),
        Told::LongLine => report::put_answer(out, 0, long_line(list), b'\n'),
    }
}
