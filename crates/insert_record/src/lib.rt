// What a record notes, put into a list with its full number as the value: the inner function of the operation record.
#![tactic(auto)]

ghost use Rattle.notes.specs.Notes.{Within};
ghost use Rattle.meaning.specs.Layer.Listed.{Listed};
ghost use Rattle.insert_record.specs.Noted.{Noted};

use answers::{Answer, Refusal};
use notes::Logged;
use settings::Levels;

// On a list with these settings: The operations 7, once the record is read. Whatever bytes it was read from are lent to no one here.
pub fn insert_record(list: &mut [u32], levels: &Levels, logged: Logged, last: &mut u64) -> Answer
    requires { Listed list.old levels.now.settings × Within logged }
    ensures { Noted logged list.old last.old result list.new last.new }
{
    let Some((e, own)) = logged else {
        return answers::refused(Refusal::BadRecord);
    };
    let Some(number) = full_number::full_number(*last, own) else {
        return answers::refused(Refusal::NumberOutside);
    };
    let answer = insert::insert(list, levels, e.key(), number);
    if answer.refusal == 0 {
        *last = number as u64;
    }
    answer
}
