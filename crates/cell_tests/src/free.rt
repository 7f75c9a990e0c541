// The test of a free cell: its words after the first are 0.
ghost use Rattle.std.specs.Prelude.{◌≡◌};
ghost use Rattle.words.specs.Shaped.{Shaped};
ghost use Rattle.account.specs.Tree.{free_right};

use settings::Settings;

// Whether cell c is one of the list's and its words after the first are 0.
#[tactic(auto, using(words::proofs::Shaped::shaped_cells, crate::proofs::Tests::free_outside, crate::proofs::Tests::free_zero))]
pub fn free_right(list: &[u32], s: Settings, c: u32) -> bool
    requires { Shaped list.now s }
    ensures { result ≡ free_right list.now c }
{
    if s.cells <= c {
        return false;
    }
    let start = words::word_index(s, c, words::VALUE);
    let end = start + Settings::cell_words(s.dimensions) - 1;
    lists::all_zero(&list[start..end])
}
