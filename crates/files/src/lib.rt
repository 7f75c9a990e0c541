// The file that keeps a list over a restart: numbers in bytes, whether bytes are a file, the pairs in it, and its bytes written
// (docs/REFERENCE.md, *Files*).
#![tactic(auto)]

ghost use Rattle.std.specs.Prelude.{◌≡◌, [], ◌∷◌, ◌++◌, ◌+◌, ◌*◌, ◌^◌, ◌≤◌, ◌<◌, length, take, drop};
ghost use Rattle.std.proofs.lemmas.List.Edits.{sets};
ghost use Rattle.settings.specs.Numbers.{most_cells};
ghost use Rattle.settings.specs.Checked.{checked_of};
ghost use Rattle.lists.specs.Lists.{same};
ghost use Rattle.files.specs.Files.{big_endian, body_at, settings_body, pair_bytes, tag_for, count_width, settings_start, entries_start, before, place, file_length};
ghost use Rattle.files.specs.Files.{table_of, front_of, number_on, number_at, pairs_from, rising, contents_of};

use settings::Settings;

// The most pairs whose number stands in two bytes, under tag 2; that of more stands in four, under tag 3.
const MOST_UNDER_TAG_2: u32 = 65535;

// Where the entries begin: behind the table of contents and the settings.
const ENTRIES_START: u32 = 31;

// The tag of the entries of a file with n pairs.
#[tactic(auto, unfolding(crate::specs::Files::tag_for))]
fn tag_for(n: u32) -> u8
    ensures { result ≡ tag_for n }
{
    if n <= MOST_UNDER_TAG_2 { 2 } else { 3 }
}

// How many bytes the number of the pairs has under a tag.
#[tactic(auto, unfolding(crate::specs::Files::count_width))]
fn count_width(tag: u8) -> usize
    ensures { (result ≡ count_width tag) × (result ≤ 4) }
{
    if tag == 3 { 4 } else { 2 }
}

// How many bytes stand before n pairs.
fn before(n: u32) -> usize
    ensures { (result ≡ before n) × (result ≤ entries_start + 4) }
{
    ENTRIES_START as usize + count_width(tag_for(n))
}

// Where pair i of n stands.
fn place(n: u32, i: u32) -> usize
    ensures { (result ≡ place n i) × (result < 2 ^ 36) }
{
    before(n) + i as usize * 8
}

// The number that the bytes of a part are, the most significant first.
#[tactic(auto, using(crate::proofs::Numbers::number_of_four))]
fn number(part: &[u8]) -> u32
    requires { length part.now ≤ 4 }
    ensures { result ≡ number_on 0 part.now }
{
    let mut bytes = [0u8; 4];
    bytes[4 - part.len()..].copy_from_slice(part);
    u32::from_be_bytes(bytes)
}

// The number in four bytes from place i on.
fn number_at(file: &[u8], i: usize) -> u32
    requires { i + 4 ≤ length file.now }
    ensures { result ≡ number_at 4 i file.now }
{
    number(&file[i..i + 4])
}

// How many bytes a file with n pairs has.
pub fn file_length(n: u32) -> usize
    ensures { result ≡ file_length n }
{
    place(n, n)
}

// The key of pair i of a file with n pairs.
pub fn key_at(file: &[u8], n: u32, i: u32) -> u32
    requires { place n (i + 1) ≤ length file.now }
    ensures { result ≡ number_at 4 (place n i) file.now }
{
    number_at(file, place(n, i))
}

// The value of pair i of a file with n pairs.
pub fn value_at(file: &[u8], n: u32, i: u32) -> u32
    requires { place n (i + 1) ≤ length file.now }
    ensures { result ≡ number_at 4 (place n i + 4) file.now }
{
    number_at(file, place(n, i) + 4)
}

// The bytes of a number, over the bytes of a part, the most significant first.
#[tactic(auto, using(crate::proofs::Numbers::last_of_four))]
fn put_number(part: &mut [u8], v: u32)
    requires { length part.old ≤ 4 }
    ensures { part.new ≡ big_endian (length part.old) v }
{
    part.copy_from_slice(&v.to_be_bytes()[4 - part.len()..]);
}

// Whether the table of contents has a body at place i, with this tag, offset and length.
#[tactic(auto, using(crate::proofs::Table::body_same))]
fn body_at(file: &[u8], i: usize, tag: u8, offset: u32, long: u32) -> bool
    requires { i + 9 ≤ length file.now }
    ensures { result ≡ same (body_at tag offset long) (take 9 (drop i file.now)) }
{
    file[i] == tag && number_at(file, i + 1) == offset && number_at(file, i + 5) == long
}

// The settings that a file holds, if they are in range.
fn settings_in(file: &[u8]) -> Option<Settings>
    requires { entries_start ≤ length file.now }
    ensures { result ≡ checked_of (number_at 4 19 file.now) (number_at 4 23 file.now) (number_at 4 27 file.now) }
{
    Settings::new(
        number_at(file, 19),
        number_at(file, 23),
        number_at(file, 27),
    )
}

// Whether the keys of n pairs are from 1 to `largest`, each above the one before.
#[tactic(auto, using(crate::proofs::Pairs::rising_stops_low, crate::proofs::Pairs::rising_stops_high, crate::proofs::Pairs::rising_turn, crate::proofs::Pairs::rising_ends))]
fn keys_rise(file: &[u8], largest: u32, n: u32) -> bool
    requires { file_length n ≤ length file.now }
    ensures { result ≡ rising 0 largest (pairs_from n (drop (before n) file.now)) }
{
    let mut below = 0;
    for i in 0..n {
        let key = key_at(file, n, i);
        if key <= below || largest < key {
            return false;
        }
        below = key;
    }
    true
}

// Whether the table of contents is that of a file with n pairs.
fn table_right(file: &[u8], n: u32) -> bool
    requires { (n < most_cells) × (entries_start ≤ length file.now) }
    ensures { result ≡ same (table_of n) (take settings_start file.now) }
{
    let tag = tag_for(n);
    let long = count_width(tag) as u32 + 8 * n;
    file[0] == 2 && body_at(file, 1, 1, 19, 12) && body_at(file, 10, tag, ENTRIES_START, long)
}

// What bytes are read as: the settings of a file and the number of its pairs; none of bytes that are no file, which are refused by number 11.
pub fn read_contents(file: &[u8]) -> Option<(Settings, u32)>
    ensures { result ≡ contents_of file.now }
{
    if file.len() < ENTRIES_START as usize {
        return None;
    }
    let s = settings_in(file)?;
    let start = ENTRIES_START as usize + count_width(file[10]);
    if file.len() < start {
        return None;
    }
    let n = number(&file[ENTRIES_START as usize..start]);
    if s.cells <= n {
        return None;
    }
    if file.len() != file_length(n) {
        return None;
    }
    if !table_right(file, n) {
        return None;
    }
    if !keys_rise(file, s.largest, n) {
        return None;
    }
    Some((s, n))
}

// A number in four bytes from place i on.
#[tactic(auto, using(crate::proofs::Parts::part_written))]
fn put_number_at(file: &mut [u8], i: usize, v: u32)
    requires { i + 4 ≤ length file.old }
    ensures { file.new ≡ sets file.old i (big_endian 4 v) }
{
    put_number(&mut file[i..i + 4], v);
}

// A body in the table of contents at place i.
#[tactic(auto, using(crate::proofs::Written::body_written))]
fn put_body(file: &mut [u8], i: usize, tag: u8, offset: u32, long: u32)
    requires { i + 9 ≤ length file.old }
    ensures { file.new ≡ sets file.old i (body_at tag offset long) }
{
    file[i] = tag;
    put_number_at(file, i + 1, offset);
    put_number_at(file, i + 5, long);
}

// The table of contents of a file with n pairs.
#[tactic(auto, using(crate::proofs::Written::table_written))]
fn put_table(file: &mut [u8], n: u32)
    requires { (n < most_cells) × (entries_start ≤ length file.old) }
    ensures { file.new ≡ sets file.old 0 (table_of n) }
{
    let tag = tag_for(n);
    let long = count_width(tag) as u32 + 8 * n;
    file[0] = 2;
    put_body(file, 1, 1, 19, 12);
    put_body(file, 10, tag, ENTRIES_START, long);
}

// The settings, behind the table.
#[tactic(auto, using(crate::proofs::Written::settings_written))]
fn put_settings(file: &mut [u8], s: Settings)
    requires { entries_start ≤ length file.old }
    ensures { file.new ≡ sets file.old settings_start (settings_body s) }
{
    put_number_at(file, 19, s.dimensions);
    put_number_at(file, 23, s.largest);
    put_number_at(file, 27, s.cells);
}

// The bytes before the pairs, of which there are n.
pub fn write_front(file: &mut [u8], s: Settings, n: u32)
    requires { (n < most_cells) × (before n ≤ length file.old) }
    ensures { file.new ≡ sets file.old 0 (front_of s n) }
{
    put_table(file, n);
    put_settings(file, s);
    put_number(&mut file[ENTRIES_START as usize..before(n)], n);
}

// Pair i of n.
#[tactic(auto, using(crate::proofs::Written::pair_written))]
pub fn write_pair(file: &mut [u8], n: u32, i: u32, key: u32, value: u32)
    requires { place n (i + 1) ≤ length file.old }
    ensures { file.new ≡ sets file.old (place n i) (pair_bytes (record { key = key; value = value } ∷ [])) }
{
    let at = place(n, i);
    put_number_at(file, at, key);
    put_number_at(file, at + 4, value);
}
