// The test of cell 0: that it is the head.
ghost use Rattle.std.specs.Prelude.{◌≡◌, ◌<◌};
ghost use Rattle.words.specs.Shaped.{Shaped};
ghost use Rattle.account.specs.Tree.{head_right};

use settings::Settings;

// Whether cell 0 is the head: key 0, value 0, dead, and owing nothing.
#[tactic(auto, unfolding(account::specs::Tree::head_right, account::specs::Loop::owes_nothing))]
pub fn head_right(list: &[u32], s: Settings) -> bool
    requires { Shaped list.now s × (0 < s.cells) }
    ensures { result ≡ head_right list.now }
{
    if words::word(list, s, 0, words::KEY) != 0 {
        return false;
    }
    if words::word(list, s, 0, words::VALUE) != 0 {
        return false;
    }
    if words::word(list, s, 0, words::MARK) != words::DEAD {
        return false;
    }
    super::standing::owes_nothing(list, s, 0)
}
