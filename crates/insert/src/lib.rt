// Insert: a new cell in the slot that the search found, its own adoption left owing; or a dead key revived. And a new cell for a key that comes
// last, whose slot is known without a search.
#![tactic(auto)]

ghost use Rattle.std.specs.Prelude.{◌≡◌, true, false, ◌<◌, get_or};
ghost use Rattle.meaning.specs.State.{position_key};
ghost use Rattle.meaning.specs.Reading.{read};
ghost use Rattle.answers.specs.Refusals.{Meets};
ghost use Rattle.meaning.specs.Operations.{position_after, insert_out};
ghost use Rattle.meaning.specs.Words.{mark_at};
ghost use Rattle.meaning.specs.Layer.Stores.{finish_words, paid_words, hung_words};
ghost use Rattle.meaning.specs.Layer.Listed.{Listed};
ghost use Rattle.words.specs.Shaped.{Shaped};
ghost use Rattle.finish.specs.Payable.{Payable};
ghost use Rattle.search.specs.Found.{Sought};
ghost use Rattle.new_cell.specs.NewCell.{Fits};
ghost use Rattle.insert.specs.Inserting.{EndsInSome, PathWritten, ComesLast};

use answers::{Answer, Refusal};
use meaning::Slot;
use search::Found;
use settings::{Levels, Settings};

// The key of the position's cell.
fn position_key(list: &[u32], s: Settings) -> u32
    requires { Listed list.now s }
    ensures { result ≡ position_key (read list.now) }
{
    words::word(list, s, words::position(list, s), words::KEY)
}

// The operations 2: the cell that is the position after the insert of a key of which the search answered f: if the key is at or below the
// position's, which is `top`, the standing cell of next smaller key.
fn position_after(list: &[u32], s: Settings, top: u32, key: u32, f: Found) -> u32
    requires { Sought list.now s key f × (top ≡ position_key (read list.now)) }
    ensures { result ≡ position_after (read list.now) key }
{
    if key <= top {
        return search::lower(list, s, f);
    }
    words::position(list, s)
}

// The path of the position after the call, cell x, is written; a key above the position's key before the call, which is `top`, changes none.
fn move_position(list: &mut [u32], levels: &Levels, top: u32, key: u32, x: u32)
    requires { Shaped list.old levels.now.settings × EndsInSome list.old levels.now.settings top key x }
    ensures { PathWritten list.old list.new levels.now.settings top key x }
{
    if top < key {
        return;
    }
    let path = paths::path_of(list, levels, x);
    paths::write_path(list, levels.settings, path);
}

// The operations 2: a dead key is revived.
fn revive(list: &mut [u32], levels: &Levels, f: Found, key: u32, value: u32)
    requires { Sought list.old levels.now.settings key f × ((f.standing ≡ true) × (mark_at list.old f.c ≡ 1 → ⊥)) }
    ensures { list.new ≡ (insert_out list.old key value).left }
{
    let top = position_key(list, levels.settings);
    let position = position_after(list, levels.settings, top, key, f);
    words::store(list, levels.settings, f.c, words::VALUE, value);
    words::store(list, levels.settings, f.c, words::MARK, words::LIVE);
    move_position(list, levels, top, key, position);
}

// Finishes what the parent owes, then what c owes, and nothing else.
fn finish_neighbours(list: &mut [u32], s: Settings, t: Slot)
    requires { Shaped list.old s × (Payable list.old s t.parent × Payable (finish_words s.dimensions list.old t.parent) s t.c) }
    ensures { (list.new ≡ paid_words s.dimensions list.old t.parent t.c) × Shaped list.new s }
{
    finish::finish_cell(list, s, t.parent);
    if t.c == 0 {
        return;
    }
    finish::finish_cell(list, s, t.c);
}

// Cell n, the first free one, is taken off its chain and written, and hung from the parent.
fn hang(list: &mut [u32], s: Settings, t: Slot, key: u32, value: u32)
    requires { Shaped list.old s × (Fits s t × ((t.parent < s.cells) × (t.p < s.dimensions))) }
    ensures { (list.new ≡ hung_words s.dimensions list.old key value t) × Shaped list.new s }
{
    // as any free cell's, n's first word holds the next free cell
    list[words::FIRST_FREE] = words::word(list, s, t.n, words::KEY);
    new_cell::write_cell(list, s, t, key, value);
    words::store_link(list, s, t.parent, t.p, t.n);
}

// A new cell n, the first free one, in the slot that was found.
fn add(list: &mut [u32], levels: &Levels, n: u32, f: Found, key: u32, value: u32)
    requires { Sought list.old levels.now.settings key f × ((f.standing ≡ false) × ((n ≡ get_or list.old 4 0) × (0 < n))) }
    ensures { list.new ≡ (insert_out list.old key value).left }
{
    let top = position_key(list, levels.settings);
    let position = position_after(list, levels.settings, top, key, f);
    let t = Slot {
        n,
        parent: f.parent,
        p: f.p,
        c: f.c,
        q: f.q,
    };
    finish_neighbours(list, levels.settings, t);
    hang(list, levels.settings, t, key, value);
    move_position(list, levels, top, key, position);
}

// A new cell n, the first free one, for a key of which it is known without a search that no cell has its slot, that its parent owes nothing
// and that it is above the position: so nothing is finished, and the path stays.
pub fn add_last(list: &mut [u32], s: Settings, n: u32, parent: u32, p: u32, key: u32, value: u32)
    requires { ComesLast list.old s key parent p × ((n ≡ get_or list.old 4 0) × (0 < n)) }
    ensures { list.new ≡ (insert_out list.old key value).left }
{
    let t = Slot {
        n,
        parent,
        p,
        c: 0,
        q: 0,
    };
    hang(list, s, t, key, value);
}

// A key that stands: refused if it is live.
fn insert_standing(list: &mut [u32], levels: &Levels, f: Found, key: u32, value: u32) -> Answer
    requires { Sought list.old levels.now.settings key f × (f.standing ≡ true) }
    ensures { Meets (insert_out list.old key value) result list.new }
{
    if words::word(list, levels.settings, f.c, words::MARK) == words::LIVE {
        return answers::refused(Refusal::KeyLive(key, f.looked));
    }
    revive(list, levels, f, key, value);
    answers::accepted(key, 0, f.looked)
}

// A key that does not stand: refused if there is no free cell.
fn insert_new(list: &mut [u32], levels: &Levels, f: Found, key: u32, value: u32) -> Answer
    requires { Sought list.old levels.now.settings key f × (f.standing ≡ false) }
    ensures { Meets (insert_out list.old key value) result list.new }
{
    let n = list[words::FIRST_FREE];
    if n == 0 {
        return answers::refused(Refusal::NoFreeCell(key, f.looked));
    }
    add(list, levels, n, f, key, value);
    answers::accepted(key, 0, f.looked)
}

// On a list with these settings: The operations 2.
pub fn insert(list: &mut [u32], levels: &Levels, key: u32, value: u32) -> Answer
    requires { Listed list.old levels.now.settings }
    ensures { Meets (insert_out list.old key value) result list.new }
{
    if !levels.settings.has_key(key) {
        return answers::refused(Refusal::BadKey);
    }
    let f = search::search(list, levels, key);
    if f.standing {
        return insert_standing(list, levels, f, key, value);
    }
    insert_new(list, levels, f, key, value)
}
