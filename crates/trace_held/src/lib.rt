// What a line of a trace does to what is held, before its call, if it makes one. What is held are the first elements of an array.
#![tactic(auto)]

ghost use Rattle.std.specs.Prelude.{◌≤◌, length, take, set};
ghost use Rattle.trace_held.specs.Held.{Holds};

pub mod buffer; // buffer.rt: to the words
pub mod bytes; // bytes.rt: to the bytes and the last number

// Puts one element, a word or a byte; nothing where the index is past the end of what is held.
pub fn put<T: Copy>(array: &mut [T], used: usize, index: usize, v: T) -> usize
    requires { used ≤ length array.old }
    ensures { Holds (length array.old) array.new result (set (take used array.old) index v) }
{
    if index < used {
        array[index] = v;
    }
    used
}
