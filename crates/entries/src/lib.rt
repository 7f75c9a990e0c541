// Entries: a class, a unit and a serial, and the key that they make.
#![tactic(auto)]

ghost use Rattle.std.specs.Prelude.{◌≡◌};
ghost use Rattle.entries.specs.Entries.{entry_of, entry_key, InRange};

// Entries 1.
#[derive(Clone, Copy)]
pub struct Entry {
    pub class: u32,
    pub unit: u32,
    pub serial: u32,
}

impl Entry {
    pub fn new(class: u32, unit: u32, serial: u32) -> Entry
        ensures { result ≡ entry_of class unit serial }
    {
        Entry {
            class,
            unit,
            serial,
        }
    }

    // Entries 2. The ranges are asked for here, not kept by the type: while a record is read, only its bytes tell that class and unit are in
    // range.
    pub fn key(self) -> u32
        requires { InRange self }
        ensures { result ≡ entry_key self }
    {
        self.class * KEYS_PER_CLASS + self.unit * KEYS_PER_UNIT + self.serial
    }
}

pub const LEAST_CLASS: u32 = 0;

pub const MOST_CLASS: u32 = 15;

pub const LEAST_UNIT: u32 = 1;

pub const MOST_UNIT: u32 = 65535;

pub const LEAST_SERIAL: u32 = 0;

pub const MOST_SERIAL: u32 = 4095;

const KEYS_PER_UNIT: u32 = 4096;

// A class has as many keys.
pub const KEYS_PER_CLASS: u32 = 268435456;
