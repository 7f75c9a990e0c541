// The archive libmdlist.a: the ten functions of `mdlist`, as a Rust or a C host calls them, each with the contract that it has there.
#![tactic(auto)]

ghost use Rattle.answers.specs.Refusals.{Meets};
ghost use Rattle.meaning.specs.Operations.{set_up_out, insert_out, find_out, finish_out, take_out, sweep_out};
ghost use Rattle.calls.specs.Records.{lent_of, record_out};
ghost use Rattle.calls.specs.Saved.{file_lent, write_out, read_out};
ghost use Rattle.calls.specs.Batch.{batch_lent, batch_out};

use answers::Answer;

// Makes the lent words a fresh list with D dimensions, largest key K and C cells.
#[unsafe(no_mangle)]
pub extern "C" fn mdlist_set_up(d: u32, k: u32, c: u32, list: &mut [u32]) -> Answer
    ensures { Meets (set_up_out d k c list.old) result list.new }
{
    mdlist::mdlist_set_up(d, k, c, list)
}

// Puts a key with its value into the list.
#[unsafe(no_mangle)]
pub extern "C" fn mdlist_insert(list: &mut [u32], key: u32, value: u32) -> Answer
    ensures { Meets (insert_out list.old key value) result list.new }
{
    mdlist::mdlist_insert(list, key, value)
}

// Finds a live key's value; writes nothing.
#[unsafe(no_mangle)]
pub extern "C" fn mdlist_find(list: &[u32], key: u32) -> Answer
    ensures { Meets (find_out list.now key) result list.now }
{
    mdlist::mdlist_find(list, key)
}

// Moves the links that a key's cell still owes.
#[unsafe(no_mangle)]
pub extern "C" fn mdlist_finish(list: &mut [u32], key: u32) -> Answer
    ensures { Meets (finish_out list.old key) result list.new }
{
    mdlist::mdlist_finish(list, key)
}

// Takes the least live key.
#[unsafe(no_mangle)]
pub extern "C" fn mdlist_take(list: &mut [u32]) -> Answer
    ensures { Meets (take_out list.old) result list.new }
{
    mdlist::mdlist_take(list)
}

// Finishes all that is owed, moves the position to the greatest dead cell below every live key, and frees the cells before it.
#[unsafe(no_mangle)]
pub extern "C" fn mdlist_sweep(list: &mut [u32]) -> Answer
    ensures { Meets (sweep_out list.old) result list.new }
{
    mdlist::mdlist_sweep(list)
}

// Puts what a record of the logger's export notes into the list, with its full number as the value; `last` is the last full number.
#[unsafe(no_mangle)]
pub extern "C" fn mdlist_record(list: &mut [u32], record: &[u8], last: &mut u64) -> Answer
    ensures { Meets (record_out (lent_of list.old «record».now last.old)) result (lent_of list.new «record».now last.new) }
{
    mdlist::mdlist_record(list, record, last)
}

// Writes what waits in the list into the bytes of a file; the list stays as it is.
#[unsafe(no_mangle)]
pub extern "C" fn mdlist_write(list: &[u32], file: &mut [u8]) -> Answer
    ensures { Meets (write_out (file_lent list.now file.old)) result (file_lent list.now file.new) }
{
    mdlist::mdlist_write(list, file)
}

// Makes the lent words the list that a file keeps, whatever they held.
#[unsafe(no_mangle)]
pub extern "C" fn mdlist_read(file: &[u8], list: &mut [u32]) -> Answer
    ensures { Meets (read_out (file_lent list.old file.now)) result (file_lent list.new file.now) }
{
    mdlist::mdlist_read(file, list)
}

// Makes many calls on the list after one check, and puts four words of answer for each.
#[unsafe(no_mangle)]
pub extern "C" fn mdlist_batch(list: &mut [u32], calls: &[u32], answers: &mut [u32]) -> Answer
    ensures { Meets (batch_out calls.now (batch_lent list.old answers.old)) result (batch_lent list.new answers.new) }
{
    mdlist::mdlist_batch(list, calls, answers)
}
