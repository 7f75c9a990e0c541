// Sweep: finishes all that is owed, moves the position to the last dead cell before the first live one, and has the cells between the
// head and it freed.
#![tactic(auto)]

ghost use Rattle.std.specs.Prelude.{◌≡◌, ◌-◌};
ghost use Rattle.answers.specs.Refusals.{Meets};
ghost use Rattle.meaning.specs.Operations.{sweep_out};
ghost use Rattle.meaning.specs.Layer.SweepStores.{finish_all};
ghost use Rattle.meaning.specs.Layer.Listed.{Listed};
ghost use Rattle.free_between.specs.Between.{SweptTo, Paid};

use answers::Answer;
use free_between::Target;
use settings::{Levels, Settings};

// All that is owed is finished.
fn finish_all(list: &mut [u32], s: Settings)
    requires { Listed list.old s }
    ensures { (list.new ≡ finish_all s.dimensions list.old 1 (s.cells - 1)) × Paid list.new s }
{
    for n in 1..s.cells {
        finish::finish_cell(list, s, n);
    }
}

// The last dead cell below every live key, found from the head; the head if there is no other.
fn seek_target(list: &[u32], s: Settings) -> Target
    requires { Listed list.now s }
    ensures { SweptTo list.now s result }
{
    let mut at: u32 = 0;
    let mut number: u32 = 0;
    let mut path = paths::head_path(s);
    while let Some(next) = paths::next_from(list, s, &path) {
        if words::word(list, s, next.cell, words::MARK) == words::LIVE {
            break;
        }
        at = next.cell;
        number = next.number;
        path.put_onward(number, at);
    }
    Target {
        cell: at,
        number,
        path,
    }
}

// On a list with these settings: The operations 6.
pub fn sweep(list: &mut [u32], levels: &Levels) -> Answer
    requires { Listed list.old levels.now.settings }
    ensures { Meets (sweep_out list.old) result list.new }
{
    finish_all(list, levels.settings);
    let t = seek_target(list, levels.settings);
    if t.cell == 0 {
        return answers::accepted(0, 0, 0);
    }
    let count = free_between::drop_front(list, levels, t);
    answers::accepted(0, 0, count)
}
