// Find: The operations 3.
#![tactic(auto)]

ghost use Rattle.std.specs.Prelude.{◌≡◌};
ghost use Rattle.answers.specs.Refusals.{answer_of, Meets};
ghost use Rattle.answers.specs.declared.Refusal.TheVariants.{KeyNotLive};
ghost use Rattle.meaning.specs.Operations.{find_out};
ghost use Rattle.meaning.specs.Layer.Listed.{Listed};

use answers::{Answer, Refusal};
use settings::Levels;

// The refusal of a key that is not live.
fn not_live(key: u32, looked: u32) -> Answer
    ensures { result ≡ answer_of (KeyNotLive key looked) }
{
    answers::refused(Refusal::KeyNotLive(key, looked))
}

// On a list with these settings.
pub fn find(list: &[u32], levels: &Levels, key: u32) -> Answer
    requires { Listed list.now levels.now.settings }
    ensures { Meets (find_out list.now key) result list.now }
{
    if !levels.settings.has_key(key) {
        return answers::refused(Refusal::BadKey);
    }
    let f = search::search(list, levels, key);
    if !f.standing {
        return not_live(key, f.looked);
    }
    if words::word(list, levels.settings, f.c, words::MARK) != words::LIVE {
        return not_live(key, f.looked);
    }
    let value = words::word(list, levels.settings, f.c, words::VALUE);
    answers::accepted(key, value, f.looked)
}
