// What the records of an export note, out of bytes that come one by one, however the export is cut into parts. What is known of the record
// begun is kept in a Feed, by value, and none of its bytes; so a record may have any length.
ghost use Rattle.std.specs.Prelude.{◌≡◌, cond, ◌&&◌, not, [], eqb};
ghost use Rattle.text.specs.Lines.{line_feed};
ghost use Rattle.records.specs.Grammar.{quote};
ghost use Rattle.notes.specs.Feeding.{feed_of, Stepped, FeedEnded};

use super::{Logged, Reader};

// The record begun: how far it is read, whether it has an even number of quotes, whether its last byte is a carriage return, and whether it
// has any byte.
#[derive(Clone, Copy)]
pub struct Feed {
    pub reader: Reader,
    pub even: bool,
    pub returned: bool,
    pub begun: bool,
}

// What one byte leads to: the feed for the next byte, and what the record notes that it ends, if it ends one.
#[derive(Clone, Copy)]
pub struct Fed {
    pub feed: Feed,
    pub told: Option<Logged>,
}

// At the start of the export, and after each record.
#[tactic(auto, unfolding(crate::specs::Feeding::feed_of, crate::specs::Export::even_quotes, crate::specs::Export::ends_in_return, text::specs::Parts::after_all))]
pub fn start() -> Feed
    ensures { result ≡ feed_of [] }
{
    Feed {
        reader: super::start(),
        even: true,
        returned: false,
        begun: false,
    }
}

// Whether the quotes are even after a byte.
fn even_after(even: bool, byte: u8) -> bool
    ensures { result ≡ cond (eqb byte quote) (not even) even }
{
    if byte == records::QUOTE { !even } else { even }
}

// Whether a byte closes the record begun: the line feed of a CRLF with an even number of quotes before it.
fn closes(feed: Feed, byte: u8) -> bool
    ensures { result ≡ eqb byte line_feed && (feed.returned && feed.even) }
{
    byte == records::LINE_FEED && feed.returned && feed.even
}

// The next byte of the export.
pub fn feed_byte(feed: Feed, byte: u8) -> Fed
    ensures { Stepped feed byte result }
{
    let reader = super::reader_on(feed.reader, byte);
    if closes(feed, byte) {
        return Fed {
            feed: start(),
            told: Some(super::note_at(reader)),
        };
    }
    Fed {
        feed: Feed {
            reader,
            even: even_after(feed.even, byte),
            returned: byte == records::CARRIAGE_RETURN,
            begun: true,
        },
        told: None,
    }
}

// The end of the export: what the record begun notes; none where nothing follows the last one.
pub fn finish(feed: Feed) -> Option<Logged>
    ensures { FeedEnded feed result }
{
    if feed.begun {
        Some(super::note_at(feed.reader))
    } else {
        None
    }
}
