// Finish: what a cell owes is moved to it: Debts 5.
#![tactic(auto)]

ghost use Rattle.std.specs.Prelude.{◌≡◌, ◌-◌, ◌≤◌, ◌<◌};
ghost use Rattle.answers.specs.Refusals.{Meets};
ghost use Rattle.meaning.specs.Operations.{finish_out};
ghost use Rattle.meaning.specs.Layer.Stores.{move_links, clear_debt, finish_words};
ghost use Rattle.meaning.specs.Layer.Listed.{Listed};
ghost use Rattle.words.specs.Shaped.{Shaped};
ghost use Rattle.finish.specs.Payable.{Payable};

use answers::{Answer, Refusal};
use settings::{Levels, Settings};

// Links low to high-1 move from cell c to cell n.
#[tactic(auto, using(crate::proofs::Finishing::move_more, crate::proofs::Finishing::move_all))]
fn move_links(list: &mut [u32], s: Settings, n: u32, c: u32, low: u32, high: u32)
    requires { Shaped list.old s × ((n < s.cells) × ((c < s.cells) × (high ≤ s.dimensions))) }
    ensures { (list.new ≡ move_links s.dimensions list.old n c low (high - low)) × Shaped list.new s }
{
    for d in low..high {
        let y = words::link(list, s, c, d);
        words::store_link(list, s, n, d, y);
        words::store_link(list, s, c, d, 0);
    }
}

// Owed, low and high of cell n become 0.
fn clear_debt(list: &mut [u32], s: Settings, n: u32)
    requires { Shaped list.old s × (n < s.cells) }
    ensures { (list.new ≡ clear_debt s.dimensions list.old n) × Shaped list.new s }
{
    words::store(list, s, n, words::OWED, 0);
    words::store(list, s, n, words::LOW, 0);
    words::store(list, s, n, words::HIGH, 0);
}

// What cell n owes is finished.
#[tactic(auto, unfolding(meaning::specs::Layer::Stores::finish_words))]
pub fn finish_cell(list: &mut [u32], s: Settings, n: u32)
    requires { Shaped list.old s × Payable list.old s n }
    ensures { (list.new ≡ finish_words s.dimensions list.old n) × Shaped list.new s }
{
    let owed = words::word(list, s, n, words::OWED);
    if owed == 0 {
        return;
    }
    let low = words::word(list, s, n, words::LOW);
    let high = words::word(list, s, n, words::HIGH);
    move_links(list, s, n, owed, low, high);
    clear_debt(list, s, n);
}

// On a list with these settings: The operations 4.
pub fn finish(list: &mut [u32], levels: &Levels, key: u32) -> Answer
    requires { Listed list.old levels.now.settings }
    ensures { Meets (finish_out list.old key) result list.new }
{
    if !levels.settings.has_key(key) {
        return answers::refused(Refusal::BadKey);
    }
    let f = search::search(list, levels, key);
    if !f.standing {
        return answers::refused(Refusal::KeyNotStanding(key));
    }
    let moved = words::word(list, levels.settings, f.c, words::HIGH)
        - words::word(list, levels.settings, f.c, words::LOW);
    finish_cell(list, levels.settings, f.c);
    answers::accepted(key, 0, moved)
}
