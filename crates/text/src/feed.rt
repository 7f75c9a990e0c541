// The lines of an input, out of bytes that come one by one, however the input is cut into parts. The bytes of the line begun stand in a
// buffer of 64 that the caller lends, and does not write, from one byte to the next; how many they are is kept in a Feed, by value.
ghost use Rattle.std.specs.Prelude.{◌≡◌, ◌≤◌, length};
ghost use Rattle.text.specs.Lines.{most_bytes};
ghost use Rattle.text.specs.Feeding.{started, ended_of, Ready, Kept, Stepped, FeedEnded};

pub const MOST_BYTES: usize = 64;

const LINE_FEED: u8 = 10;

// The line begun: its first `fill` bytes stand in the buffer; or it is over the 64 bytes that a line may have.
#[derive(Clone, Copy)]
pub struct Feed {
    pub fill: usize,
    pub over: bool,
}

// What a byte, or the end of the input, ends: no line; a line of so many bytes, which stand in the buffer until the next byte; or a line
// of more than 64 bytes, which is told of once and here alone.
#[derive(Clone, Copy)]
pub enum Told {
    NoLine,
    Line(usize),
    LongLine,
}

// What one byte leads to: the feed for the next byte, and what it ends.
#[derive(Clone, Copy)]
pub struct Fed {
    pub feed: Feed,
    pub told: Told,
}

// At the start of the input, and after each line feed.
pub fn start() -> Feed
    ensures { result ≡ started }
{
    Feed {
        fill: 0,
        over: false,
    }
}

// What a line feed tells of: the line begun, without the line feed itself.
fn ended(feed: Feed) -> Told
    ensures { result ≡ ended_of feed }
{
    if feed.over {
        return Told::LongLine;
    }
    Told::Line(feed.fill)
}

// A byte of a line that is not over, after `fill` others. Where there is no room for it the line is over, and its first 64 bytes are given
// up: they are never handed on as a line.
fn kept(buffer: &mut [u8], fill: usize, byte: u8) -> Feed
    requires { (length buffer.old ≡ most_bytes) × (fill ≤ most_bytes) }
    ensures { Kept buffer.old buffer.new fill byte result }
{
    if fill < MOST_BYTES {
        buffer[fill] = byte;
        return Feed {
            fill: fill + 1,
            over: false,
        };
    }
    Feed { fill, over: true }
}

// The next byte of the input. A line that is over stays so up to its line feed.
pub fn feed_byte(buffer: &mut [u8], feed: Feed, byte: u8) -> Fed
    requires { Ready buffer.old feed }
    ensures { Stepped buffer.old buffer.new feed byte result }
{
    if byte == LINE_FEED {
        return Fed {
            feed: start(),
            told: ended(feed),
        };
    }
    if feed.over {
        return Fed {
            feed,
            told: Told::NoLine,
        };
    }
    let fill = feed.fill;
    Fed {
        feed: kept(buffer, fill, byte),
        told: Told::NoLine,
    }
}

// The end of the input: a line begun counts, and there is none where nothing follows the last line feed.
#[tactic(auto, using(crate::proofs::Steps::finished_over, crate::proofs::Steps::finished_none, crate::proofs::Steps::finished_some))]
pub fn finish(feed: Feed) -> Told
    requires { feed.fill ≤ most_bytes }
    ensures { FeedEnded feed result }
{
    if feed.over {
        return Told::LongLine;
    }
    if feed.fill == 0 {
        return Told::NoLine;
    }
    Told::Line(feed.fill)
}
