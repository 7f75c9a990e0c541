// What every call answers: four numbers, the first of which is 0 or a refusal of the table. And the five operations on a list that has been set up.
#![tactic(auto)]

ghost use Rattle.std.specs.Prelude.{◌≡◌};
ghost use Rattle.answers.specs.Refusals.{answer, answer_of};

// The operations: every call answers four numbers.
#[repr(C)]
#[derive(Clone, Copy, PartialEq, Eq)]
pub struct Answer {
    pub refusal: u32,
    pub key: u32,
    pub value: u32,
    pub count: u32,
}

// The five operations on a list that has been set up, with their numbers.
#[derive(Clone, Copy)]
pub enum Operation {
    // key, value
    Insert(u32, u32),
    // key
    Find(u32),
    // key
    Finish(u32),
    Take,
    Sweep,
}

// Refusals: the table, with what each one answers beside its number (specs/Refusals.antt).
#[derive(Clone, Copy, PartialEq, Eq)]
pub enum Refusal {
    // set up: D, K or C out of range
    OutOfRange,
    // set up, read: length not the exact one
    WrongLength,
    // the buffer is not a list (all but set up and read)
    NotAList,
    // key 0 or above K
    BadKey,
    // insert: key is live; key, looked
    KeyLive(u32, u32),
    // insert: key not standing and no free cell; key, looked
    NoFreeCell(u32, u32),
    // take: nothing live; how many standing keys are above the position
    NothingLive(u32),
    // find: key not live; key, looked
    KeyNotLive(u32, u32),
    // finish: key not standing; key
    KeyNotStanding(u32),
    // program: line not readable
    LineNotReadable,
    // read: the file breaks the layout, its settings are out of range, or its keys are not what a list may keep
    BadFile,
    // write: the lent bytes are too few
    NoRoom,
    // record: it breaks the grammar, or a field's range
    BadRecord,
    // record: the full number does not fit into 32 bits
    NumberOutside,
    // with a class record: it is not what a full reading of the list gives; where it is not compared, its length is wrong
    BadClasses,
    // batch: the words are no calls, or there is no room for the answers
    BadBatch,
}

impl Refusal {
    // The table's number; 9 is retired and not used again.
    pub fn number(self) -> u32
        ensures { result ≡ (answer_of self).refusal }
    {
        match self {
            Refusal::OutOfRange => 1,
            Refusal::WrongLength => 2,
            Refusal::NotAList => 3,
            Refusal::BadKey => 4,
            Refusal::KeyLive(_, _) => 5,
            Refusal::NoFreeCell(_, _) => 6,
            Refusal::NothingLive(_) => 7,
            Refusal::KeyNotLive(_, _) => 8,
            Refusal::KeyNotStanding(_) => 8,
            Refusal::LineNotReadable => 10,
            Refusal::BadFile => 11,
            Refusal::NoRoom => 12,
            Refusal::BadRecord => 13,
            Refusal::NumberOutside => 14,
            Refusal::BadClasses => 15,
            Refusal::BadBatch => 19,
        }
    }

    // The key that is answered, 0 where none is.
    fn key(self) -> u32
        ensures { result ≡ (answer_of self).key }
    {
        match self {
            Refusal::KeyLive(key, _) => key,
            Refusal::NoFreeCell(key, _) => key,
            Refusal::KeyNotLive(key, _) => key,
            Refusal::KeyNotStanding(key) => key,
            _ => 0,
        }
    }

    // The count that is answered, 0 where none is.
    fn count(self) -> u32
        ensures { result ≡ (answer_of self).count }
    {
        match self {
            Refusal::KeyLive(_, looked) => looked,
            Refusal::NoFreeCell(_, looked) => looked,
            Refusal::NothingLive(above) => above,
            Refusal::KeyNotLive(_, looked) => looked,
            _ => 0,
        }
    }
}

// What a refused call answers.
pub fn refused(refusal: Refusal) -> Answer
    ensures { result ≡ answer_of refusal }
{
    Answer {
        refusal: refusal.number(),
        key: refusal.key(),
        value: 0,
        count: refusal.count(),
    }
}

// What an accepted call answers.
pub fn accepted(key: u32, value: u32, count: u32) -> Answer
    ensures { result ≡ answer 0 key value count }
{
    Answer {
        refusal: 0,
        key,
        value,
        count,
    }
}
