// One step of the walk for a key, by where the key's blocks start; and how many coordinates two keys share.
#![tactic(auto)]

ghost use Rattle.std.specs.Prelude.{◌≡◌, ◌-◌, ◌%◌, ◌^◌, ◌<◌, ◌≤◌};
ghost use Rattle.settings.specs.Numbers.{most_dimensions};
ghost use Rattle.meaning.specs.Keys as keys;
ghost use Rattle.meaning.specs.Walk.{step_at};
ghost use Rattle.words.specs.Shaped.{Shaped};
ghost use Rattle.steps.specs.Blocks.{StartsOf, BlocksOf, Met};

use meaning::Step;
use settings::{Levels, Settings};

// Where the block of a key starts whose level has this power of b.
pub fn block_start(key: u32, power: u64) -> u64
    requires { 0 < power }
    ensures { result ≡ key - key % power }
{
    let k = key as u64;
    k - k % power
}

// Where the blocks of k start: word d is for that of level d + 1, whose keys share coordinates 0 to d with k.
pub fn block_starts(k: u32, levels: &Levels) -> [u64; 16]
    requires { levels.now.settings.dimensions ≤ most_dimensions }
    ensures { StartsOf levels.now.settings k result }
{
    let mut starts = [0u64; 16];
    for d in 0..levels.settings.dimensions as usize {
        starts[d] = block_start(k, levels.powers[d + 1]);
    }
    starts
}

// How many coordinates key x shares with a larger key y: x is not before y's block of that level, and before the next one.
pub fn shared(levels: &Levels, x: u32, y: u32) -> u32
    requires { (levels.now.settings.dimensions ≤ most_dimensions) × ((x < y) × (y < levels.now.settings.base ^ levels.now.settings.dimensions)) }
    ensures { (result ≡ keys.shared levels.now.settings.base levels.now.settings.dimensions x y) × (result < levels.now.settings.dimensions) }
{
    let key = x as u64;
    for d in 0..levels.settings.dimensions {
        if key < block_start(y, levels.powers[d as usize + 1]) {
            return d;
        }
    }
    levels.settings.dimensions
}

// One step of the walk for k from cell x and coordinate d. The cell shares the coordinates before d with k, so at d it is below k before
// the start of k's next block, equal inside that block, and above it from its end on.
#[tactic(auto, using(crate::proofs::Steps::step_cases))]
pub fn step(
    list: &[u32],
    s: Settings,
    starts: &[u64],
    powers: &[u64],
    k: u32,
    x: u32,
    d: u32,
) -> Step
    requires { Shaped list.now s × (BlocksOf s k starts.now powers.now × Met list.now s k x d) }
    ensures { result ≡ step_at list.now k x d }
{
    let own = words::word(list, s, x, words::KEY) as u64;
    let i = d as usize;
    let start = starts[i];
    if own < start {
        let y = words::link_read(list, s, x, d);
        if y == 0 {
            return Step::End;
        }
        return Step::Go(y);
    }
    if own - start < powers[i + 1] {
        if d + 1 == s.dimensions {
            return Step::End;
        }
        return Step::Up;
    }
    Step::End
}
