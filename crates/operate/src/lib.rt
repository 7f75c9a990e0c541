// Any of the five operations on a list that has been checked once. It takes a list to a list with the same settings, so the next one needs no
// check: batches and programs make their calls through it.
#![tactic(auto)]

ghost use Rattle.meaning.specs.Layer.Listed.{Listed};
ghost use Rattle.operate.specs.Operated.{Operated};

use answers::{Answer, Operation};
use settings::Levels;

// On a list with these settings.
pub fn operate(list: &mut [u32], levels: &Levels, operation: Operation) -> Answer
    requires { Listed list.old levels.now.settings }
    ensures { Operated operation levels.now.settings list.old result list.new }
{
    match operation {
        Operation::Insert(key, value) => return insert::insert(list, levels, key, value),
        Operation::Find(key) => return find::find(list, levels, key),
        Operation::Finish(key) => return finish::finish(list, levels, key),
        Operation::Take => return take::take(list, levels.settings),
        Operation::Sweep => return sweep::sweep(list, levels),
    }
}
