// The words of path, beside the way down to the cell read last.
ghost use Rattle.std.specs.Prelude.{◌≡◌, ◌-◌, ◌≤◌, ◌<◌};
ghost use Rattle.words.specs.Shaped.{Shaped};
ghost use Rattle.account.specs.Tree.{path_run, agreed_at};

use settings::Settings;

// How many leading path words agree with the way down, where those from number d on are to be cell y.
#[tactic(auto, using(crate::proofs::InOrder::run_turns))]
pub fn path_run(list: &[u32], s: Settings, y: u32, d: u32) -> u32
    requires { Shaped list.now s × (d ≤ s.dimensions) }
    ensures { (result ≡ path_run list.now y d (s.dimensions - d)) × (result ≤ s.dimensions) }
{
    for i in d..s.dimensions {
        if list[words::HEADER_WORDS + i as usize] != y {
            return i;
        }
    }
    s.dimensions
}

// How many leading path words agree with the way down, once cell y is met by link e.
#[tactic(auto, using(words::proofs::Shaped::shaped_dimensions), unfolding(account::specs::Tree::agreed_at))]
pub fn agreed_at(list: &[u32], s: Settings, y: u32, e: u32, agreed: u32) -> u32
    requires { Shaped list.now s × ((e < s.dimensions) × (agreed ≤ s.dimensions)) }
    ensures { (result ≡ agreed_at list.now y e agreed) × (result ≤ s.dimensions) }
{
    if agreed < e {
        return agreed;
    }
    path_run(list, s, y, e)
}
