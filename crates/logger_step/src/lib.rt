// One record of the program logger on the words of its list, which it keeps to itself and need not check again and again, and one take, with the bytes that are printed for each.
#![tactic(auto)]

ghost use Rattle.std.specs.Prelude.{[], ◌≤◌, length};
ghost use Rattle.notes.specs.Notes.{Within};
ghost use Rattle.notes.specs.Feeding.{told_in, ToldWithin};
ghost use Rattle.insert_record.specs.Noted.{Noted};
ghost use Rattle.calls.specs.Records.{lent_of, note_out};
ghost use Rattle.meaning.specs.Layer.Listed.{Listed};
ghost use Rattle.report.specs.Report.{answer_bytes};
ghost use Rattle.report.specs.Answered.{Answered};
ghost use Rattle.logger_step.specs.Printed.{TakeAnswered};

use answers::Answer;
use notes::Logged;
use settings::{Levels, Settings};

// What a take puts: how many bytes, and whether there may be more to take. Both are told of at every take: a refused one puts bytes too.
#[derive(Clone, Copy)]
pub struct TakeText {
    pub bytes: usize,
    pub more: bool,
}

// Enters what a record notes.
fn note(list: &mut [u32], s: Settings, last: &mut u64, logged: Logged) -> Answer
    requires { Listed list.old s × Within logged }
    ensures { Noted logged list.old last.old result list.new last.new }
{
    let levels = Levels::of(s);
    insert_record::insert_record(list, &levels, logged, last)
}

// Enters the record that is told of, if one is: puts the bytes that are printed for it into `out`, from the first on; how many they are.
pub fn note_text(
    list: &mut [u32],
    s: Settings,
    last: &mut u64,
    told: Option<Logged>,
    out: &mut [u8],
) -> usize
    requires { Listed list.old s × (ToldWithin told × (answer_bytes ≤ length out.old)) }
    ensures { Answered note_out (told_in told) (lent_of list.old [] last.old) (lent_of list.new [] last.new) out.new result }
{
    match told {
        None => 0,
        Some(logged) => report::put_answer(out, 0, note(list, s, last, logged), b'\n'),
    }
}

// Takes the least live key: puts the bytes that are printed for it into `out`, from the first on.
pub fn take_text(list: &mut [u32], s: Settings, out: &mut [u8]) -> TakeText
    requires { Listed list.old s × (answer_bytes ≤ length out.old) }
    ensures { TakeAnswered list.old list.new out.new result }
{
    let answer = take::take(list, s);
    let bytes = report::put_answer(out, 0, answer, b'\n');
    TakeText {
        bytes,
        more: answer.refusal == 0,
    }
}
