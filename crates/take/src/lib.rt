// Take: from the position's path onward, past dead cells, to the least live key. No link changes.
#![tactic(auto)]

ghost use Rattle.answers.specs.Refusals.{Meets};
ghost use Rattle.meaning.specs.Operations.{take_out};
ghost use Rattle.meaning.specs.Layer.Listed.{Listed};
ghost use Rattle.take.specs.Ahead.{FirstLive};

use answers::{Answer, Refusal};
use paths::Path;
use settings::Settings;

// What stands after the position: the first live cell, if there is one, how many cells were passed up to it, or else to the end, and the
// path of the last of them.
#[derive(Clone, Copy)]
pub struct Ahead {
    pub cell: Option<u32>,
    pub passed: u32,
    pub path: Path,
}

// The first live cell after the position.
pub fn first_live(list: &[u32], s: Settings) -> Ahead
    requires { Listed list.now s }
    ensures { FirstLive list.now s result }
{
    let mut path = paths::read_path(list, s);
    let mut passed: u32 = 0;
    while let Some(next) = paths::next(list, s, &mut path) {
        passed += 1;
        if words::word(list, s, next.cell, words::MARK) == words::LIVE {
            return Ahead {
                cell: Some(next.cell),
                passed,
                path,
            };
        }
    }
    Ahead {
        cell: None,
        passed,
        path,
    }
}

// On a list with settings s: The operations 5.
pub fn take(list: &mut [u32], s: Settings) -> Answer
    requires { Listed list.old s }
    ensures { Meets (take_out list.old) result list.new }
{
    let ahead = first_live(list, s);
    let Some(x) = ahead.cell else {
        return answers::refused(Refusal::NothingLive(ahead.passed));
    };
    let key = words::word(list, s, x, words::KEY);
    let value = words::word(list, s, x, words::VALUE);
    words::store(list, s, x, words::VALUE, 0);
    words::store(list, s, x, words::MARK, words::DEAD);
    paths::write_path(list, s, ahead.path);
    answers::accepted(key, value, ahead.passed)
}
