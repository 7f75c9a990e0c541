// The operations with a class record beside the list, as a Rust host calls them: ten of them beside those of `mdlist`, and the question about one class. Each
// checks that the lent words are a list, then that the record is what a full reading of it gives, and calls the inner function of the crate of its
// name; where the live keys may have changed, the record is written anew. No one has a `requires`, and each contract is the whole outcome of the
// call: the four numbers, every word of list and record, the last number, and the bytes of a file.
#![tactic(auto)]

ghost use Rattle.std.specs.Prelude.{◌≡◌, ◌≤◌, length};
ghost use Rattle.settings.specs.Numbers.{header_words};
ghost use Rattle.answers.specs.Refusals.{Meets};
ghost use Rattle.answers.specs.declared.Operation.TheVariants as operation;
ghost use Rattle.meaning.specs.Reading.{settings_at};
ghost use Rattle.meaning.specs.Layer.Listed.{Listed};
ghost use Rattle.calls.specs.Records.{lent_of};
ghost use Rattle.calls.specs.Saved.{file_lent};
ghost use Rattle.calls.specs.Batch.{batch_lent};
ghost use Rattle.calls.specs.declared.Call.TheVariants as call;
ghost use Rattle.classes.specs.Classes.{record_words, class_out};
ghost use Rattle.counted.specs.Counted.{beside, words_beside, counted_out, counted_batch_out};
ghost use Rattle.counted.specs.Checked.{CheckedBeside, Renewed, set_up_refusal, read_refusal};

use answers::{Answer, Refusal};
use settings::{Levels, Settings};

// The levels of a list whose record is what a full reading of it gives; else the refusal of words and record, 3 or 15.
fn check(list: &[u32], classes: &[u32]) -> Result<Levels, Refusal>
    ensures { CheckedBeside list.now classes.now result }
{
    let levels = is_list::is_list(list).ok_or(Refusal::NotAList)?;
    if !classes::agree(list, levels.settings, classes) {
        return Err(Refusal::BadClasses);
    }
    Ok(levels)
}

// The record after a call that answered a: written anew, unless the call was refused.
fn renew(list: &[u32], s: Settings, classes: &mut [u32], a: Answer) -> Answer
    requires { Listed list.now s × (length classes.old ≡ record_words) }
    ensures { Renewed a list.now classes.old result classes.new }
{
    if a.refusal != 0 {
        return a;
    }
    classes::tally(list, s, classes);
    a
}

// The settings in the header of a list.
fn settings_at(list: &[u32]) -> Settings
    requires { header_words ≤ length list.now }
    ensures { result ≡ settings_at list.now }
{
    Settings {
        dimensions: list[0],
        largest: list[1],
        cells: list[2],
        base: list[3],
    }
}

// What a set up answers where the record has another length: 1, then 2.
fn no_set_up(d: u32, k: u32, c: u32) -> Answer
    ensures { result ≡ set_up_refusal d k c }
{
    if !Settings::in_range(d, k, c) {
        return answers::refused(Refusal::OutOfRange);
    }
    answers::refused(Refusal::WrongLength)
}

// What a read answers where the record has another length: 11, then 2, then 15.
fn no_read(file: &[u8], list: &[u32]) -> Answer
    ensures { result ≡ read_refusal (file_lent list.now file.now) }
{
    let contents = files::read_contents(file);
    let Some((s, _)) = contents else {
        return answers::refused(Refusal::BadFile);
    };
    if list.len() != s.length() {
        return answers::refused(Refusal::WrongLength);
    }
    answers::refused(Refusal::BadClasses)
}

// Makes the lent words a fresh list with D dimensions, largest key K and C cells, and its record 0.
pub fn counted_set_up(d: u32, k: u32, c: u32, list: &mut [u32], classes: &mut [u32]) -> Answer
    ensures { Meets (counted_out (call.SetUp d k c) (words_beside list.old classes.old)) result (words_beside list.new classes.new) }
{
    if classes.len() != classes::RECORD_WORDS {
        return no_set_up(d, k, c);
    }
    let fresh = set_up::set_up(d, k, c, list);
    if fresh.refusal != 0 {
        return fresh;
    }
    // nothing is live
    lists::fill(classes, 0);
    fresh
}

// Puts a key with its value into the list.
pub fn counted_insert(list: &mut [u32], classes: &mut [u32], key: u32, value: u32) -> Answer
    ensures { Meets (counted_out (call.Operate (operation.Insert key value)) (words_beside list.old classes.old)) result (words_beside list.new classes.new) }
{
    let levels = match check(list, classes) {
        Ok(levels) => levels,
        Err(refusal) => return answers::refused(refusal),
    };
    let answer = insert::insert(list, &levels, key, value);
    renew(list, levels.settings, classes, answer)
}

// Finds a live key's value; writes nothing.
pub fn counted_find(list: &[u32], classes: &[u32], key: u32) -> Answer
    ensures { Meets (counted_out (call.Operate (operation.Find key)) (words_beside list.now classes.now)) result (words_beside list.now classes.now) }
{
    let levels = match check(list, classes) {
        Ok(levels) => levels,
        Err(refusal) => return answers::refused(refusal),
    };
    find::find(list, &levels, key)
}

// Moves the links that a key's cell still owes; no key lives or dies by it.
pub fn counted_finish(list: &mut [u32], classes: &[u32], key: u32) -> Answer
    ensures { Meets (counted_out (call.Operate (operation.Finish key)) (words_beside list.old classes.now)) result (words_beside list.new classes.now) }
{
    let levels = match check(list, classes) {
        Ok(levels) => levels,
        Err(refusal) => return answers::refused(refusal),
    };
    finish::finish(list, &levels, key)
}

// Takes the least live key.
pub fn counted_take(list: &mut [u32], classes: &mut [u32]) -> Answer
    ensures { Meets (counted_out (call.Operate operation.Take) (words_beside list.old classes.old)) result (words_beside list.new classes.new) }
{
    let levels = match check(list, classes) {
        Ok(levels) => levels,
        Err(refusal) => return answers::refused(refusal),
    };
    let answer = take::take(list, levels.settings);
    renew(list, levels.settings, classes, answer)
}

// Finishes all that is owed, moves the position and frees the cells before it; they are dead, so the record stays.
pub fn counted_sweep(list: &mut [u32], classes: &[u32]) -> Answer
    ensures { Meets (counted_out (call.Operate operation.Sweep) (words_beside list.old classes.now)) result (words_beside list.new classes.now) }
{
    let levels = match check(list, classes) {
        Ok(levels) => levels,
        Err(refusal) => return answers::refused(refusal),
    };
    sweep::sweep(list, &levels)
}

// Puts what a record of the logger's export notes into the list, with its full number as the value; `last` is the last full number.
pub fn counted_record(
    list: &mut [u32],
    classes: &mut [u32],
    record: &[u8],
    last: &mut u64,
) -> Answer
    ensures { Meets (counted_out call.Record (beside (lent_of list.old «record».now last.old) classes.old)) result (beside (lent_of list.new «record».now last.new) classes.new) }
{
    let levels = match check(list, classes) {
        Ok(levels) => levels,
        Err(refusal) => return answers::refused(refusal),
    };
    let logged = notes::note_by(record);
    let answer = insert_record::insert_record(list, &levels, logged, last);
    renew(list, levels.settings, classes, answer)
}

// Writes what waits in the list into the bytes of a file; list and record stay as they are.
pub fn counted_write(list: &[u32], classes: &[u32], file: &mut [u8]) -> Answer
    ensures { Meets (counted_out call.Write (beside (lent_of list.now file.old 0) classes.now)) result (beside (lent_of list.now file.new 0) classes.now) }
{
    let levels = match check(list, classes) {
        Ok(levels) => levels,
        Err(refusal) => return answers::refused(refusal),
    };
    write_file::write_file(list, levels.settings, file)
}

// Makes the lent words the list that a file keeps, and the record its full reading, whatever they held.
pub fn counted_read(file: &[u8], list: &mut [u32], classes: &mut [u32]) -> Answer
    ensures { Meets (counted_out call.Read (beside (lent_of list.old file.now 0) classes.old)) result (beside (lent_of list.new file.now 0) classes.new) }
{
    if classes.len() != classes::RECORD_WORDS {
        return no_read(file, list);
    }
    let answer = read_file::read_file(file, list);
    if answer.refusal != 0 {
        return answer;
    }
    classes::tally(list, settings_at(list), classes);
    answer
}

// Makes many calls on the list after one check and one comparison, and puts four words of answer for each; the record is written once.
pub fn counted_batch(
    list: &mut [u32],
    classes: &mut [u32],
    calls: &[u32],
    answers: &mut [u32],
) -> Answer
    ensures { Meets (counted_batch_out calls.now (beside (batch_lent list.old answers.old) classes.old)) result (beside (batch_lent list.new answers.new) classes.new) }
{
    let levels = match check(list, classes) {
        Ok(levels) => levels,
        Err(refusal) => return answers::refused(refusal),
    };
    if !batch::fit(calls, answers) {
        return answers::refused(Refusal::BadBatch);
    }
    let answer = batch::batch(list, &levels, calls, answers);
    classes::tally(list, levels.settings, classes);
    answer
}

// The question about one class: its least live key and its live count as the record has them. It takes the record alone.
pub fn counted_class(classes: &[u32], class: u32) -> Answer
    ensures { Meets (class_out class classes.now) result classes.now }
{
    classes::class_of(classes, class)
}
