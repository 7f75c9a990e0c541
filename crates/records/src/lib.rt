// The logger's records: their grammar, read byte by byte. Where a record stands is a value, so no byte of it need be kept.
#![tactic(auto)]

ghost use Rattle.std.specs.Prelude.{◌≡◌};
ghost use Rattle.records.specs.Grammar.{is_text, stands_in_quotes};
ghost use Rattle.records.specs.Reading.{to, step_on, after_field, may_end};
ghost use Rattle.records.specs.declared.Stand.TheVariants.{AtField, InPlain, InQuotes, AtQuote, AtReturn, Broken};
ghost use Rattle.records.specs.declared.Adds.TheVariants.{NoPart};

// Where the reading of a record stands.
#[derive(Clone, Copy)]
pub enum Stand {
    // at the start of a field
    AtField,
    // in a field without quotes, after a byte of it
    InPlain,
    // between quotes
    InQuotes,
    // after a quote between quotes: it ends the field, or it is the first of two
    AtQuote,
    // after a carriage return outside quotes
    AtReturn,
    // after the CRLF that closes the record
    Closed,
    // no bytes that follow make it a record
    Broken,
}

// What a byte adds to the fields.
#[derive(Clone, Copy)]
pub enum Adds {
    // itself, to the field that it stands in
    ItsByte,
    // the next field
    AField,
    // nothing
    NoPart,
}

#[derive(Clone, Copy)]
pub struct Step {
    pub stand: Stand,
    pub adds: Adds,
}

impl Step {
    fn to(stand: Stand, adds: Adds) -> Step
        ensures { result ≡ to stand adds }
    {
        Step { stand, adds }
    }
}

const BROKEN: Step = Step {
    stand: Stand::Broken,
    adds: Adds::NoPart,
};

const COMMA: u8 = 44;

pub const QUOTE: u8 = 34;

pub const CARRIAGE_RETURN: u8 = 13;

pub const LINE_FEED: u8 = 10;

const LEAST_TEXT: u8 = 32;

const MOST_TEXT: u8 = 126;

#[tactic(auto, unfolding(crate::specs::Grammar::is_text))]
fn is_text(byte: u8) -> bool
    ensures { result ≡ is_text byte }
{
    matches!(byte, LEAST_TEXT..=MOST_TEXT) && byte != COMMA && byte != QUOTE
}

fn stands_in_quotes(byte: u8) -> bool
    ensures { result ≡ stands_in_quotes byte }
{
    matches!(byte, COMMA | CARRIAGE_RETURN | LINE_FEED) || is_text(byte)
}

// A byte right after a field.
#[tactic(auto, unfolding(crate::specs::Reading::after_field))]
fn after_field(byte: u8) -> Step
    ensures { result ≡ after_field byte }
{
    match byte {
        COMMA => Step::to(Stand::AtField, Adds::AField),
        CARRIAGE_RETURN => Step::to(Stand::AtReturn, Adds::NoPart),
        _ => BROKEN,
    }
}

// One byte of a record.
#[tactic(auto, unfolding(crate::specs::Reading::step_on, crate::specs::Grammar::is_text))]
pub fn read_byte(stand: Stand, byte: u8) -> Step
    ensures { result ≡ step_on stand byte }
{
    match stand {
        Stand::AtField if byte == QUOTE => Step::to(Stand::InQuotes, Adds::NoPart),
        Stand::AtField | Stand::InPlain if is_text(byte) => Step::to(Stand::InPlain, Adds::ItsByte),
        Stand::InQuotes if byte == QUOTE => Step::to(Stand::AtQuote, Adds::NoPart),
        Stand::InQuotes if stands_in_quotes(byte) => Step::to(Stand::InQuotes, Adds::ItsByte),
        Stand::AtQuote if byte == QUOTE => Step::to(Stand::InQuotes, Adds::ItsByte),
        Stand::AtField | Stand::InPlain | Stand::AtQuote => after_field(byte),
        Stand::AtReturn if byte == LINE_FEED => Step::to(Stand::Closed, Adds::NoPart),
        _ => BROKEN,
    }
}

// Whether a record may end here.
pub fn may_end(stand: Stand) -> bool
    ensures { result ≡ may_end stand }
{
    matches!(
        stand,
        Stand::AtField | Stand::InPlain | Stand::AtQuote | Stand::Closed
    )
}
