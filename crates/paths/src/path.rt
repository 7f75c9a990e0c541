// The path struct, apart from the functions on it, whose imports name it.

ghost use Rattle.std.specs.Prelude.{◌≤◌, length};

// Sixteen cell numbers, of which the first `used`, one for each dimension, are the path.
#[derive(Clone, Copy)]
pub struct Path {
    pub cells: [u32; 16],
    pub used: u32,
    pub ghost within: { used ≤ length cells },
}
