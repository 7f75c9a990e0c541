// The two engines side by side: the list, and the plain row that a reader believes at a glance. Here is the comparison of their answers; that they
// answer alike is promised in specs/Promises.antt.
#![tactic(auto)]

ghost use Rattle.std.specs.Prelude.{◌≡◌};
ghost use Rattle.engines.specs.Alike.{alike};

use answers::Answer;

// Whether two answers are the same but for the count, which is compared where it is passed or freed.
#[tactic(auto, unfolding(crate::specs::Alike::alike))]
pub fn compare(counted: bool, one: Answer, other: Answer) -> bool
    ensures { result ≡ alike counted one other }
{
    let count = if counted { one.count } else { other.count };
    Answer { count, ..one } == other
}
