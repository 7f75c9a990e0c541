// A call of the list, with its numbers, as the definitions and the code share it.
#![tactic(auto)]

use answers::Operation;

#[derive(Clone, Copy)]
pub enum Call {
    // D, K, C
    SetUp(u32, u32, u32),
    Operate(Operation),
    // its bytes and the last number are lent beside the list
    Record,
    // the bytes for a file, and those of one, are lent beside the list
    Write,
    Read,
}
