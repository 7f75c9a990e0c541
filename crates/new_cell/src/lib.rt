// The words of a new cell: its six fields before the links, with what it owes; its links.
#![tactic(auto)]

ghost use Rattle.std.specs.Prelude.{◌≡◌, [], ◌∷◌, ◌<◌, length};
ghost use Rattle.std.proofs.lemmas.List.Edits.{sets};
ghost use Rattle.meaning.specs.Words.{word_index, link_field};
ghost use Rattle.meaning.specs.Layer.Stores.{new_words, new_links};
ghost use Rattle.words.specs.Shaped.{Shaped};
ghost use Rattle.new_cell.specs.NewCell.{Fits, field_words};

use meaning::Slot;
use settings::Settings;

// The links of a new cell: link q to c where there is a c, every other link 0.
fn write_links(part: &mut [u32], q: u32, c: u32)
    requires { (c ≡ 0 → ⊥) → q < length part.old }
    ensures { part.new ≡ new_links (length part.old) q c }
{
    part.fill(0);
    if c != 0 {
        part[q as usize] = c;
    }
}

// Owed, low and high of cell n.
fn write_debt(list: &mut [u32], s: Settings, n: u32, owed: u32, low: u32, high: u32)
    requires { Shaped list.old s × (n < s.cells) }
    ensures { (list.new ≡ sets list.old (word_index s.dimensions n 3) (owed ∷ low ∷ high ∷ [])) × Shaped list.new s }
{
    words::store(list, s, n, words::OWED, owed);
    words::store(list, s, n, words::LOW, low);
    words::store(list, s, n, words::HIGH, high);
}

// The words of a new cell before its links: live, its debt if p is below q.
fn write_fields(list: &mut [u32], s: Settings, t: Slot, key: u32, value: u32)
    requires { Shaped list.old s × (t.n < s.cells) }
    ensures { (list.new ≡ sets list.old (word_index s.dimensions t.n 0) (field_words key value t)) × Shaped list.new s }
{
    words::store(list, s, t.n, words::KEY, key);
    words::store(list, s, t.n, words::VALUE, value);
    words::store(list, s, t.n, words::MARK, words::LIVE);
    if t.p < t.q {
        write_debt(list, s, t.n, t.c, t.p, t.q);
    } else {
        write_debt(list, s, t.n, 0, 0, 0);
    }
}

// The links of cell n become those of a new cell.
fn put_links(list: &mut [u32], s: Settings, n: u32, q: u32, c: u32)
    requires { Shaped list.old s × ((n < s.cells) × ((c ≡ 0 → ⊥) → q < s.dimensions)) }
    ensures { (list.new ≡ sets list.old (word_index s.dimensions n (link_field 0)) (new_links s.dimensions q c)) × Shaped list.new s }
{
    let start = words::word_index(s, n, words::LINKS);
    let end = start + s.dimensions as usize;
    write_links(&mut list[start..end], q, c);
}

// Cell n gets the words of a new cell in its slot.
#[tactic(auto, using(crate::proofs::NewWords::cell_written))]
pub fn write_cell(list: &mut [u32], s: Settings, t: Slot, key: u32, value: u32)
    requires { Shaped list.old s × Fits s t }
    ensures { (list.new ≡ sets list.old (word_index s.dimensions t.n 0) (new_words s.dimensions key value t)) × Shaped list.new s }
{
    write_fields(list, s, t, key, value);
    put_links(list, s, t.n, t.q, t.c);
}
