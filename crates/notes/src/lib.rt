// What a record notes: its five fields, read byte by byte with what is known so far as a value. So a record may have any length, and no byte
// of it is kept.
#![tactic(auto)]

pub mod feed; // feed.rt: the records of an export, out of bytes that come in parts

ghost use Rattle.std.specs.Prelude.{◌≡◌};
ghost use Rattle.notes.specs.Notes.{note_by};
ghost use Rattle.notes.specs.declared.Place.TheVariants.{AtClass, AtUnit, AtSerial, AtNumber};
ghost use Rattle.notes.specs.Reader.{place_on, place_after, place_by, reader_from, reader_on, note_in, note_at};

use entries::Entry;
use records::{Adds, Stand};
use text::fields::{self, Begun};

// What a record notes: an entry and the logger's number; or nothing, since it breaks the grammar or a field's range.
pub type Logged = Option<(Entry, u32)>;

// The field that the reading is in, with what the fields before it said and what is known of its own number.
#[derive(Clone, Copy)]
pub enum Place {
    AtClass(Begun),
    // class
    AtUnit(u32, Begun),
    // class, unit
    AtSerial(u32, u32, Begun),
    AtText(Entry),
    AtNumber(Entry, Begun),
    // a field was no number in its range, or there are more than five
    NoPlace,
}

#[derive(Clone, Copy)]
pub struct Reader {
    pub stand: Stand,
    pub place: Place,
}

const LEAST_NUMBER: u32 = 0;

const MOST_NUMBER: u32 = 65535;

// At the start of a record.
pub fn start() -> Reader
    ensures { result ≡ reader_from }
{
    Reader {
        stand: Stand::AtField,
        place: Place::AtClass(Begun::NoDigit),
    }
}

// A byte of the field at hand. The text is skipped.
#[tactic(auto, unfolding(crate::specs::Reader::place_on))]
fn place_on(place: Place, byte: u8) -> Place
    ensures { result ≡ place_on place byte }
{
    match place {
        Place::AtClass(begun) => Place::AtClass(fields::digit(begun, byte, entries::MOST_CLASS)),
        Place::AtUnit(class, begun) => Place::AtUnit(
            class,
            fields::digit(begun, byte, entries::MOST_UNIT),
        ),
        Place::AtSerial(class, unit, begun) => Place::AtSerial(
            class,
            unit,
            fields::digit(begun, byte, entries::MOST_SERIAL),
        ),
        Place::AtNumber(e, begun) => Place::AtNumber(e, fields::digit(begun, byte, MOST_NUMBER)),
        Place::AtText(_) | Place::NoPlace => place,
    }
}

// The field at hand has ended, and another begins.
#[tactic(auto, unfolding(crate::specs::Reader::place_after))]
fn place_after(place: Place) -> Place
    ensures { result ≡ place_after place }
{
    match place {
        Place::AtClass(begun) => fields::ended_at(begun, entries::LEAST_CLASS).map_or(
            Place::NoPlace,
            |class| Place::AtUnit(class, Begun::NoDigit),
        ),
        Place::AtUnit(class, begun) => fields::ended_at(begun, entries::LEAST_UNIT).map_or(
            Place::NoPlace,
            |unit| Place::AtSerial(class, unit, Begun::NoDigit),
        ),
        Place::AtSerial(class, unit, begun) => fields::ended_at(
            begun,
            entries::LEAST_SERIAL,
        ).map_or(
            Place::NoPlace,
            |serial| Place::AtText(Entry::new(class, unit, serial)),
        ),
        Place::AtText(e) => Place::AtNumber(e, Begun::NoDigit),
        Place::AtNumber(..) | Place::NoPlace => Place::NoPlace,
    }
}

fn place_by(adds: Adds, place: Place, byte: u8) -> Place
    ensures { result ≡ place_by adds place byte }
{
    match adds {
        Adds::ItsByte => place_on(place, byte),
        Adds::AField => place_after(place),
        Adds::NoPart => place,
    }
}

// One byte of a record.
#[tactic(auto, unfolding(crate::specs::Reader::reader_on))]
pub fn reader_on(reader: Reader, byte: u8) -> Reader
    ensures { result ≡ reader_on reader byte }
{
    let step = records::read_byte(reader.stand, byte);
    Reader {
        stand: step.stand,
        place: place_by(step.adds, reader.place, byte),
    }
}

// What a record notes whose last field ends here.
#[tactic(auto, unfolding(crate::specs::Reader::note_in))]
fn note_in(place: Place) -> Logged
    ensures { result ≡ note_in place }
{
    match place {
        Place::AtNumber(e, begun) => fields::ended_at(begun, LEAST_NUMBER).map(|number| (
            e, number,
        )),
        _ => None,
    }
}

// What a record notes that ends here.
#[tactic(auto, unfolding(crate::specs::Reader::note_at))]
pub fn note_at(reader: Reader) -> Logged
    ensures { result ≡ note_at reader }
{
    if records::may_end(reader.stand) {
        note_in(reader.place)
    } else {
        None
    }
}

// What the bytes of a record note.
pub fn note_by(bytes: &[u8]) -> Logged
    ensures { result ≡ note_by bytes.now }
{
    let mut reader = start();
    for &byte in bytes {
        reader = reader_on(reader, byte);
    }
    note_at(reader)
}
