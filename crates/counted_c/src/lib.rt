// The archive libcounted.a: the eleven functions of `counted`, as a Rust or a C host calls them, each with the contract that it has there.
#![tactic(auto)]

ghost use Rattle.answers.specs.Refusals.{Meets};
ghost use Rattle.answers.specs.declared.Operation.TheVariants as operation;
ghost use Rattle.calls.specs.Records.{lent_of};
ghost use Rattle.calls.specs.Batch.{batch_lent};
ghost use Rattle.calls.specs.declared.Call.TheVariants as call;
ghost use Rattle.classes.specs.Classes.{class_out};
ghost use Rattle.counted.specs.Counted.{beside, words_beside, counted_out, counted_batch_out};

use answers::Answer;

// Makes the lent words a fresh list with D dimensions, largest key K and C cells, and its record 0.
#[unsafe(no_mangle)]
pub extern "C" fn counted_set_up(
    d: u32,
    k: u32,
    c: u32,
    list: &mut [u32],
    classes: &mut [u32],
) -> Answer
    ensures { Meets (counted_out (call.SetUp d k c) (words_beside list.old classes.old)) result (words_beside list.new classes.new) }
{
    counted::counted_set_up(d, k, c, list, classes)
}

// Puts a key with its value into the list.
#[unsafe(no_mangle)]
pub extern "C" fn counted_insert(
    list: &mut [u32],
    classes: &mut [u32],
    key: u32,
    value: u32,
) -> Answer
    ensures { Meets (counted_out (call.Operate (operation.Insert key value)) (words_beside list.old classes.old)) result (words_beside list.new classes.new) }
{
    counted::counted_insert(list, classes, key, value)
}

// Finds a live key's value; writes nothing.
#[unsafe(no_mangle)]
pub extern "C" fn counted_find(list: &[u32], classes: &[u32], key: u32) -> Answer
    ensures { Meets (counted_out (call.Operate (operation.Find key)) (words_beside list.now classes.now)) result (words_beside list.now classes.now) }
{
    counted::counted_find(list, classes, key)
}

// Moves the links that a key's cell still owes; no key lives or dies by it.
#[unsafe(no_mangle)]
pub extern "C" fn counted_finish(list: &mut [u32], classes: &[u32], key: u32) -> Answer
    ensures { Meets (counted_out (call.Operate (operation.Finish key)) (words_beside list.old classes.now)) result (words_beside list.new classes.now) }
{
    counted::counted_finish(list, classes, key)
}

// Takes the least live key.
#[unsafe(no_mangle)]
pub extern "C" fn counted_take(list: &mut [u32], classes: &mut [u32]) -> Answer
    ensures { Meets (counted_out (call.Operate operation.Take) (words_beside list.old classes.old)) result (words_beside list.new classes.new) }
{
    counted::counted_take(list, classes)
}

// Finishes all that is owed, moves the position and frees the cells before it; they are dead, so the record stays.
#[unsafe(no_mangle)]
pub extern "C" fn counted_sweep(list: &mut [u32], classes: &[u32]) -> Answer
    ensures { Meets (counted_out (call.Operate operation.Sweep) (words_beside list.old classes.now)) result (words_beside list.new classes.now) }
{
    counted::counted_sweep(list, classes)
}

// Puts what a record of the logger's export notes into the list, with its full number as the value; `last` is the last full number.
#[unsafe(no_mangle)]
pub extern "C" fn counted_record(
    list: &mut [u32],
    classes: &mut [u32],
    record: &[u8],
    last: &mut u64,
) -> Answer
    ensures { Meets (counted_out call.Record (beside (lent_of list.old «record».now last.old) classes.old)) result (beside (lent_of list.new «record».now last.new) classes.new) }
{
    counted::counted_record(list, classes, record, last)
}

// Writes what waits in the list into the bytes of a file; list and record stay as they are.
#[unsafe(no_mangle)]
pub extern "C" fn counted_write(list: &[u32], classes: &[u32], file: &mut [u8]) -> Answer
    ensures { Meets (counted_out call.Write (beside (lent_of list.now file.old 0) classes.now)) result (beside (lent_of list.now file.new 0) classes.now) }
{
    counted::counted_write(list, classes, file)
}

// Makes the lent words the list that a file keeps, and the record its full reading, whatever they held.
#[unsafe(no_mangle)]
pub extern "C" fn counted_read(file: &[u8], list: &mut [u32], classes: &mut [u32]) -> Answer
    ensures { Meets (counted_out call.Read (beside (lent_of list.old file.now 0) classes.old)) result (beside (lent_of list.new file.now 0) classes.new) }
{
    counted::counted_read(file, list, classes)
}

// Makes many calls on the list after one check and one comparison, and puts four words of answer for each; the record is written once.
#[unsafe(no_mangle)]
pub extern "C" fn counted_batch(
    list: &mut [u32],
    classes: &mut [u32],
    calls: &[u32],
    answers: &mut [u32],
) -> Answer
    ensures { Meets (counted_batch_out calls.now (beside (batch_lent list.old answers.old) classes.old)) result (beside (batch_lent list.new answers.new) classes.new) }
{
    counted::counted_batch(list, classes, calls, answers)
}

// The question about one class: its least live key and its live count as the record has them. It takes the record alone.
#[unsafe(no_mangle)]
pub extern "C" fn counted_class(classes: &[u32], class: u32) -> Answer
    ensures { Meets (class_out class classes.now) result classes.now }
{
    counted::counted_class(classes, class)
}
