// Write: what waits in a list becomes the bytes of a file.
#![tactic(auto)]

ghost use Rattle.std.specs.Prelude.{◌≡◌, ◌≤◌, ◌<◌, length};
ghost use Rattle.std.proofs.lemmas.List.Edits.{sets};
ghost use Rattle.files.specs.Files.{before, file_length, pair_bytes};
ghost use Rattle.answers.specs.Refusals.{Meets};
ghost use Rattle.calls.specs.Pairs.{live_pairs};
ghost use Rattle.calls.specs.Saved.{file_lent, write_out};
ghost use Rattle.meaning.specs.Layer.Listed.{Listed};

use answers::{Answer, Refusal};
use settings::Settings;

// How many keys are live: the cells but the head with mark 1.
fn count_live(list: &[u32], s: Settings) -> u32
    requires { Listed list.now s }
    ensures { (result ≡ length (live_pairs list.now)) × (result < s.cells) }
{
    let mut n: u32 = 0;
    for x in 1..s.cells {
        if words::word(list, s, x, words::MARK) == words::LIVE {
            n += 1;
        }
    }
    n
}

// The live pairs, of which there are n, from the standing cells in key order, over the bytes behind those before them.
fn write_pairs(list: &[u32], s: Settings, file: &mut [u8], n: u32)
    requires { Listed list.now s × ((n ≡ length (live_pairs list.now)) × (file_length n ≤ length file.old)) }
    ensures { file.new ≡ sets file.old (before n) (pair_bytes (live_pairs list.now)) }
{
    let mut path = paths::head_path(s);
    let mut i: u32 = 0;
    while let Some(next) = paths::next(list, s, &mut path) {
        if words::word(list, s, next.cell, words::MARK) == words::LIVE {
            let key = words::word(list, s, next.cell, words::KEY);
            let value = words::word(list, s, next.cell, words::VALUE);
            files::write_pair(file, n, i, key, value);
            i += 1;
        }
    }
}

// On a list with settings s: The operations 9.
pub fn write_file(list: &[u32], s: Settings, file: &mut [u8]) -> Answer
    requires { Listed list.now s }
    ensures { Meets (write_out (file_lent list.now file.old)) result (file_lent list.now file.new) }
{
    let n = count_live(list, s);
    let length = files::file_length(n);
    if file.len() < length {
        return answers::refused(Refusal::NoRoom);
    }
    files::write_front(file, s, n);
    write_pairs(list, s, file, n);
    answers::accepted(0, 0, length as u32)
}
