// The waiting list as a Rust host calls it: nine operations by number and slice, and a batch of calls; `mdlist_c` exports them. Each is thin: it checks that the
// lent words are a list, refuses by number 3 if they are not, and calls the inner function of the crate of its name. No one has a
// `requires`, and each contract is the whole outcome of the call (docs/REFERENCE.md): the four numbers, every word, the last number, and the bytes of a file.
#![tactic(auto)]

ghost use Rattle.answers.specs.Refusals.{Meets};
ghost use Rattle.meaning.specs.Operations.{set_up_out, insert_out, find_out, finish_out, take_out, sweep_out};
ghost use Rattle.calls.specs.Records.{lent_of, record_out};
ghost use Rattle.calls.specs.Saved.{file_lent, write_out, read_out};
ghost use Rattle.calls.specs.Batch.{batch_lent, batch_out};

use answers::{Answer, Refusal};

// Makes the lent words a fresh list with D dimensions, largest key K and C cells.
pub fn mdlist_set_up(d: u32, k: u32, c: u32, list: &mut [u32]) -> Answer
    ensures { Meets (set_up_out d k c list.old) result list.new }
{
    set_up::set_up(d, k, c, list)
}

// Puts a key with its value into the list.
pub fn mdlist_insert(list: &mut [u32], key: u32, value: u32) -> Answer
    ensures { Meets (insert_out list.old key value) result list.new }
{
    let Some(levels) = is_list::is_list(list) else {
        return answers::refused(Refusal::NotAList);
    };
    insert::insert(list, &levels, key, value)
}

// Finds a live key's value; writes nothing.
pub fn mdlist_find(list: &[u32], key: u32) -> Answer
    ensures { Meets (find_out list.now key) result list.now }
{
    let Some(levels) = is_list::is_list(list) else {
        return answers::refused(Refusal::NotAList);
    };
    find::find(list, &levels, key)
}

// Moves the links that a key's cell still owes.
pub fn mdlist_finish(list: &mut [u32], key: u32) -> Answer
    ensures { Meets (finish_out list.old key) result list.new }
{
    let Some(levels) = is_list::is_list(list) else {
        return answers::refused(Refusal::NotAList);
    };
    finish::finish(list, &levels, key)
}

// Takes the least live key.
pub fn mdlist_take(list: &mut [u32]) -> Answer
    ensures { Meets (take_out list.old) result list.new }
{
    let Some(levels) = is_list::is_list(list) else {
        return answers::refused(Refusal::NotAList);
    };
    take::take(list, levels.settings)
}

// Finishes all that is owed, moves the position to the greatest dead cell below every live key, and frees the cells before it.
pub fn mdlist_sweep(list: &mut [u32]) -> Answer
    ensures { Meets (sweep_out list.old) result list.new }
{
    let Some(levels) = is_list::is_list(list) else {
        return answers::refused(Refusal::NotAList);
    };
    sweep::sweep(list, &levels)
}

// Puts what a record of the logger's export notes into the list, with its full number as the value; `last` is the last full number.
pub fn mdlist_record(list: &mut [u32], record: &[u8], last: &mut u64) -> Answer
    ensures { Meets (record_out (lent_of list.old «record».now last.old)) result (lent_of list.new «record».now last.new) }
{
    let Some(levels) = is_list::is_list(list) else {
        return answers::refused(Refusal::NotAList);
    };
    insert_record::insert_record(list, &levels, notes::note_by(record), last)
}

// Writes what waits in the list into the bytes of a file; the list stays as it is.
pub fn mdlist_write(list: &[u32], file: &mut [u8]) -> Answer
    ensures { Meets (write_out (file_lent list.now file.old)) result (file_lent list.now file.new) }
{
    let Some(levels) = is_list::is_list(list) else {
        return answers::refused(Refusal::NotAList);
    };
    write_file::write_file(list, levels.settings, file)
}

// Makes the lent words the list that a file keeps, whatever they held.
pub fn mdlist_read(file: &[u8], list: &mut [u32]) -> Answer
    ensures { Meets (read_out (file_lent list.old file.now)) result (file_lent list.new file.now) }
{
    read_file::read_file(file, list)
}

// Makes many calls on the list after one check, and puts four words of answer for each.
pub fn mdlist_batch(list: &mut [u32], calls: &[u32], answers: &mut [u32]) -> Answer
    ensures { Meets (batch_out calls.now (batch_lent list.old answers.old)) result (batch_lent list.new answers.new) }
{
    let Some(levels) = is_list::is_list(list) else {
        return answers::refused(Refusal::NotAList);
    };
    if batch::fit(calls, answers) {
        return batch::batch(list, &levels, calls, answers);
    }
    answers::refused(Refusal::BadBatch)
}
