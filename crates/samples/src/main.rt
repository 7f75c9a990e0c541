// Set up on its edges: D, K and C at and past each end of their ranges, lengths one short, exact, one long and 0. For each it
// prints the four numbers and a checksum of every word afterwards.
//
// The file stdout has the answers of the separate ordered set to the same rows. In the crate's folder:
//     sed -n 's/^    \[\(.*\)\],$/U \1/p' src/main.rt | tr -d , | ../../compare/ordered_set/target/release/ordered_set replay > stdout
#![tactic(auto)]

ghost use Rattle.std.specs.Prelude.{◌≡◌, ◌≤◌, length, take};
ghost use Rattle.report.specs.Report.{checked_bytes};
ghost use Rattle.samples.specs.Printed.{edge_text, row_text};

// The most words that a row lends. (The longest lists have more: host/tests sets them up.)
const MOST_WORDS: usize = 90134;

// D, K, C and the number of words lent.
const EDGES: [[u32; 4]; 30] = [
    // D, from 2 to 16
    [1, 15, 8, 62],
    [2, 15, 8, 71],
    [16, 15, 8, 197],
    [17, 15, 8, 206],
    // K, from 1 up
    [2, 0, 8, 71],
    [2, 1, 8, 71],
    [2, 4294967295, 8, 71],
    [16, 4294967295, 8, 197],
    // C, from 3 to 262144: with no word lent, one in range is refused by its length
    [2, 15, 2, 23],
    [2, 15, 3, 31],
    [2, 15, 4096, 32775],
    [2, 15, 4097, 32783],
    [2, 15, 262144, 0],
    [2, 15, 262145, 0],
    // lengths: one short, exact, one long and 0; the smallest list, a large one, the order program's
    [2, 15, 8, 70],
    [2, 15, 8, 72],
    [2, 15, 8, 0],
    [2, 15, 3, 30],
    [2, 15, 3, 32],
    [16, 4294967295, 4096, 90133],
    [16, 4294967295, 4096, 90134],
    [8, 4294967295, 512, 7180],
    [8, 4294967295, 512, 7181],
    [8, 4294967295, 512, 7182],
    [15, 4294967295, 3, 83],
    // a number out of range and another length: the first refusal that applies
    [1, 15, 8, 0],
    [2, 0, 8, 70],
    [2, 15, 2, 22],
    // numbers far out of range: with this C the length, cut to 32 bits, would be the 71 words lent
    [2, 15, 2147483656, 71],
    [4294967295, 4294967295, 4294967295, 0],
];

// A word that no fresh list has, so that a word left as it was shows.
const LEFT: u32 = 2779096485;

// Writes a row's line, by one write. It takes the row so that its contract can say whose line it is.
fn write(text: &[u8], row: [u32; 4])
    requires { text.now ≡ row_text row }
{
    io::write_all(1, text);
}

// Calls set up on words that are all LEFT, and puts the line that is printed for it into `out`, from the first byte on; how many bytes.
fn edge_text(part: &mut [u32], d: u32, k: u32, c: u32, out: &mut [u8]) -> usize
    requires { checked_bytes ≤ length out.old }
    ensures { (take result out.new ≡ edge_text d k c (length part.old)) × (result ≤ length out.new) }
{
    part.fill(LEFT);
    let a = mdlist::mdlist_set_up(d, k, c, part);
    report::put_checked(out, a, part)
}

// Lends the first of the words, as many as the row asks for.
fn edge(words: &mut [u32], row: [u32; 4]) {
    let [d, k, c, len] = row;
    let n = len as usize;
    if n <= words.len() {
        let mut out = [0u8; report::CHECKED_BYTES];
        let end = edge_text(&mut words[..n], d, k, c, &mut out);
        write(&out[..end], row);
    }
}

fn main() {
    let mut words = [0u32; MOST_WORDS];
    for row in EDGES {
        edge(&mut words, row);
    }
}
