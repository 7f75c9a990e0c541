// Read: a list is made of a file (The operations 10). Its pairs are in ascending order, so no key is searched for: each hangs by link p
// from word p of the path of the key before, p being what the two keys share.
#![tactic(auto)]

ghost use Rattle.std.specs.Prelude.{◌≡◌, [], Some};
ghost use Rattle.files.specs.Files.{pairs_in, contents_of};
ghost use Rattle.meaning.specs.Picture.{picture};
ghost use Rattle.answers.specs.Refusals.{Meets};
ghost use Rattle.calls.specs.Saved.{file_lent, read_out};
ghost use Rattle.calls.specs.Layer.ReadState.{read_state};
ghost use Rattle.read_file.specs.Putting.{NextOfSome, PairPut};

use answers::{Answer, Refusal};
use paths::Path;
use settings::{Levels, Settings};

// The next pair: its key is above all that stand, `last` is the key before and `path` begins with that one's path, which becomes the new key's.
fn put_pair(list: &mut [u32], levels: &Levels, last: u32, path: &mut Path, key: u32, value: u32)
    requires { NextOfSome list.old levels.now.settings last path.old (record { key = key; value = value }) }
    ensures { PairPut list.old list.new levels.now.settings last path.old path.new (record { key = key; value = value }) }
{
    let p = steps::shared(levels, last, key);
    let n = list[words::FIRST_FREE];
    let parent = path.cells[p as usize];
    insert::add_last(list, levels.settings, n, parent, p, key, value);
    path.put_onward(p, n);
}

// The n pairs of a file, into a list that holds none.
fn put_pairs(list: &mut [u32], s: Settings, file: &[u8], n: u32)
    requires { (list.old ≡ picture (read_state s [])) × (contents_of file.now ≡ Some (s, n)) }
    ensures { list.new ≡ picture (read_state s (pairs_in file.now)) }
{
    let levels = Levels::of(s);
    let mut path = paths::head_path(s);
    let mut last = 0;
    for i in 0..n {
        let key = files::key_at(file, n, i);
        let value = files::value_at(file, n, i);
        put_pair(list, &levels, last, &mut path, key, value);
        last = key;
    }
}

// Makes the lent words the list of a file's settings and pairs; refuses 11, bytes that are no file, or 2, another length.
pub fn read_file(file: &[u8], list: &mut [u32]) -> Answer
    ensures { Meets (read_out (file_lent list.old file.now)) result (file_lent list.new file.now) }
{
    let contents = files::read_contents(file);
    let Some((s, n)) = contents else {
        return answers::refused(Refusal::BadFile);
    };
    if list.len() != s.length() {
        return answers::refused(Refusal::WrongLength);
    }
    // accepted: the settings of a file are in range, and the length is right
    set_up::set_up(s.dimensions, s.largest, s.cells, list);
    put_pairs(list, s, file, n);
    answers::accepted(0, 0, n)
}
