// The archive librow.a: the six functions of the plain row, as a Rust or a C host calls them, each with the contract that it has in `row`.
#![tactic(auto)]

ghost use Rattle.answers.specs.Refusals.{Meets};
ghost use Rattle.answers.specs.declared.Operation.TheVariants.{Insert, Find, Finish, Take, Sweep};
ghost use Rattle.row.specs.Row.{row_set_up_out, row_out};

use answers::Answer;

// Makes the lent words a fresh row for dimensions D, largest key K and C cells.
#[unsafe(no_mangle)]
pub extern "C" fn row_set_up(d: u32, k: u32, c: u32, row: &mut [u32]) -> Answer
    ensures { Meets (row_set_up_out d k c row.old) result row.new }
{
    row::row_set_up(d, k, c, row)
}

// Puts a key with its value into the row.
#[unsafe(no_mangle)]
pub extern "C" fn row_insert(row: &mut [u32], key: u32, value: u32) -> Answer
    ensures { Meets (row_out (Insert key value) row.old) result row.new }
{
    row::row_insert(row, key, value)
}

// Finds a live key's value; writes nothing.
#[unsafe(no_mangle)]
pub extern "C" fn row_find(row: &[u32], key: u32) -> Answer
    ensures { Meets (row_out (Find key) row.now) result row.now }
{
    row::row_find(row, key)
}

// Tells whether a key stands: a row owes nothing.
#[unsafe(no_mangle)]
pub extern "C" fn row_finish(row: &[u32], key: u32) -> Answer
    ensures { Meets (row_out (Finish key) row.now) result row.now }
{
    row::row_finish(row, key)
}

// Takes the least live key.
#[unsafe(no_mangle)]
pub extern "C" fn row_take(row: &mut [u32]) -> Answer
    ensures { Meets (row_out Take row.old) result row.new }
{
    row::row_take(row)
}

// Frees the dead keys before the first live one, but for the last of them: it is kept and becomes the position.
#[unsafe(no_mangle)]
pub extern "C" fn row_sweep(row: &mut [u32]) -> Answer
    ensures { Meets (row_out Sweep row.old) result row.new }
{
    row::row_sweep(row)
}
