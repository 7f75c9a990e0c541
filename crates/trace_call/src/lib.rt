// The call that a line of a trace makes on what is held.
#![tactic(auto)]

ghost use Rattle.answers.specs.Refusals.{Meets};
ghost use Rattle.meaning.specs.Operations.{operation_out};
ghost use Rattle.calls.specs.Records.{lent_of};
ghost use Rattle.calls.specs.Calls.{outcome};
ghost use Rattle.trace_call.specs.Calling.{Called};

use answers::{Answer, Operation, Refusal};
use calls::Call;
use trace::Kind;

// Makes one of the five operations.
pub fn make_operation(list: &mut [u32], operation: Operation) -> Answer
    ensures { Meets (operation_out operation list.old) result list.new }
{
    match operation {
        Operation::Insert(key, value) => mdlist::mdlist_insert(list, key, value),
        Operation::Find(key) => mdlist::mdlist_find(list, key),
        Operation::Finish(key) => mdlist::mdlist_finish(list, key),
        Operation::Take => mdlist::mdlist_take(list),
        Operation::Sweep => mdlist::mdlist_sweep(list),
    }
}

// Makes a call. One that needs no bytes leaves them unread.
fn make(list: &mut [u32], bytes: &mut [u8], last: &mut u64, call: Call) -> Answer
    ensures { Meets (outcome call (lent_of list.old bytes.old last.old)) result (lent_of list.new bytes.new last.new) }
{
    match call {
        Call::SetUp(d, k, c) => mdlist::mdlist_set_up(d, k, c, list),
        Call::Operate(operation) => make_operation(list, operation),
        Call::Record => mdlist::mdlist_record(list, bytes, last),
        Call::Write => mdlist::mdlist_write(list, bytes),
        Call::Read => mdlist::mdlist_read(bytes, list),
    }
}

// The line's call: what it is answered, four numbers, or none where it makes no call. A line that is not readable is answered 10.
pub fn call(list: &mut [u32], bytes: &mut [u8], last: &mut u64, kind: Kind) -> Option<Answer>
    ensures { Called kind (lent_of list.old bytes.old last.old) result (lent_of list.new bytes.new last.new) }
{
    match kind {
        Kind::Fresh(_, call) | Kind::Make(call) => Some(make(list, bytes, last, call)),
        Kind::Unreadable => Some(answers::refused(Refusal::LineNotReadable)),
        _ => None,
    }
}
