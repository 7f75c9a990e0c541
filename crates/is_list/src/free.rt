// The free cells, chained through their first words.
ghost use Rattle.std.specs.Prelude.{◌≡◌};
ghost use Rattle.words.specs.Shaped.{Shaped};
ghost use Rattle.account.specs.Tree.{chain_right};

use settings::Settings;

// Whether the chain from cell `first` has n free cells and then ends in 0.
#[tactic(auto, using(crate::proofs::Ends::chain_turns))]
pub fn chain_right(list: &[u32], s: Settings, n: u32, first: u32) -> bool
    requires { Shaped list.now s }
    ensures { result ≡ chain_right list.now n first }
{
    let mut c = first;
    for _ in 0..n {
        if !cell_tests::free::free_right(list, s, c) {
            return false;
        }
        c = words::word(list, s, c, words::KEY);
    }
    c == 0
}
