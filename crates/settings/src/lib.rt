// The settings of a list: dimensions D, largest key K, cells C and the base b that follows from D and K, with the length of the
// list's words (docs/REFERENCE.md, *Numbers* and *The words*).
#![tactic(auto)]

ghost use Rattle.std.specs.Prelude.{◌≡◌, true, ◌^◌, ◌≤◌, ◌<◌, ltb};
ghost use Rattle.settings.specs.Numbers.{least_dimensions, most_dimensions, least_largest, most_largest, most_cells};
ghost use Rattle.settings.specs.Numbers.{in_range, is_key, base_of, cell_words, length_of};
ghost use Rattle.settings.specs.Checked.{checked_of};
ghost use Rattle.settings.specs.Base.{IsBase, is_base};
ghost use Rattle.settings.specs.Levels.{PowersOf};

#[derive(Clone, Copy)]
pub struct Settings {
    pub dimensions: u32,
    pub largest: u32,
    pub cells: u32,
    pub base: u32,
}

// The levels of a list: its settings, with the powers of b by which the blocks of keys are told. They are worked out once a call.
#[derive(Clone, Copy)]
pub struct Levels {
    pub settings: Settings,
    // at level d, b to the power D - d
    pub powers: [u64; 17],
    pub ghost right: { PowersOf settings powers },
}

impl Settings {
    // The limits of *Numbers 1*. Each stands in a test of `in_range`, whose contract fails with any other number.
    pub const LEAST_DIMENSIONS: u32 = 2;

    pub const MOST_DIMENSIONS: u32 = 16;

    pub const LEAST_LARGEST: u32 = 1;

    pub const MOST_LARGEST: u32 = 4294967295;

    pub const LEAST_CELLS: u32 = 3;

    pub const MOST_CELLS: u32 = 262144;

    // The words before the path, and those of a cell before its links (*The words 1*); `length` and `cell_words` tie them.
    pub const HEADER_WORDS: usize = 5;

    pub const FIELDS_BEFORE_LINKS: u32 = 6;

    // The bases for the largest K of all and D = 2 to 16 (*Numbers 4*).
    const FULL_BASES: [u32; 15] = [65536, 1626, 256, 85, 41, 24, 16, 12, 10, 8, 7, 6, 5, 5, 4];

    // The base for the largest K of all: the entry of the table.
    fn full_base(d: u32) -> u32
        requires { (least_dimensions ≤ d) × (d ≤ most_dimensions) }
        ensures { IsBase d most_largest result }
    {
        let i = (d - Self::LEAST_DIMENSIONS) as usize;
        Self::FULL_BASES[i]
    }

    // Whether b to the power D is above K. The product stops as soon as it is above, so it fits: the one before was at most K, or 1.
    fn above(b: u32, d: u32, k: u32) -> bool
        ensures { result ≡ ltb k (b ^ d) }
    {
        let top = k as u64;
        let by = b as u64;
        let mut power: u64 = 1;
        for _ in 0..d {
            power *= by;
            if top < power {
                return true;
            }
        }
        top < power
    }

    // The base, by bisection: low to the power D is at most K, and high to the power D above it.
    pub fn base(d: u32, k: u32) -> u32
        requires { (least_dimensions ≤ d) × ((d ≤ most_dimensions) × (least_largest ≤ k)) }
        ensures { result ≡ base_of d k }
    {
        let mut low: u32 = 1;
        let mut high = Self::full_base(d);
        // A while: each turn halves the way from low to high.
        while low + 1 < high {
            let middle = low + (high - low) / 2;
            if Self::above(middle, d, k) {
                high = middle;
            } else {
                low = middle;
            }
        }
        high
    }

    // Whether b is the least number whose power D is above K.
    #[tactic(auto, unfolding(crate::specs::Base::is_base))]
    pub fn is_base(b: u32, d: u32, k: u32) -> bool
        ensures { result ≡ is_base d k b }
    {
        b != 0 && Self::above(b, d, k) && !Self::above(b - 1, d, k)
    }

    // Whether D, K and C are each in range. No u32 is above the largest K; the test is there to tie its number to the definition.
    #[tactic(auto, unfolding(crate::specs::Numbers::in_range))]
    pub fn in_range(d: u32, k: u32, c: u32) -> bool
        ensures { result ≡ in_range d k c }
    {
        (Self::LEAST_DIMENSIONS..=Self::MOST_DIMENSIONS).contains(&d)
            && (Self::LEAST_LARGEST..=Self::MOST_LARGEST).contains(&k)
            && (Self::LEAST_CELLS..=Self::MOST_CELLS).contains(&c)
    }

    // The checked constructor: the settings with these numbers; none where one is out of range (*Refusals*, number 1).
    pub fn new(d: u32, k: u32, c: u32) -> Option<Settings>
        ensures { result ≡ checked_of d k c }
    {
        if !Self::in_range(d, k, c) {
            return None;
        }
        Some(Settings {
            dimensions: d,
            largest: k,
            cells: c,
            base: Self::base(d, k),
        })
    }

    // Whether a number is a key of such a list: from 1 to K (*Numbers 2*). Any other is refused by number 4.
    pub fn has_key(self, key: u32) -> bool
        ensures { result ≡ is_key self.largest key }
    {
        (1..=self.largest).contains(&key)
    }

    // How many words a cell has in D dimensions.
    pub fn cell_words(d: u32) -> usize
        ensures { result ≡ cell_words d }
    {
        Self::FIELDS_BEFORE_LINKS as usize + d as usize
    }

    // How many words a list with these settings has.
    pub fn length(self) -> usize
        requires { (self.dimensions ≤ most_dimensions) × (self.cells ≤ most_cells) }
        ensures { result ≡ length_of self.dimensions self.cells }
    {
        let c = self.cells as usize;
        Self::HEADER_WORDS + self.dimensions as usize + c * Self::cell_words(self.dimensions)
    }
}

impl Levels {
    // The powers of b, from level D down.
    pub fn of(settings: Settings) -> Levels
        requires { (settings.dimensions ≤ most_dimensions) × ((0 < settings.base) × (settings.base ^ settings.dimensions < 2 ^ 64)) }
        ensures { result.settings ≡ settings }
    {
        let mut powers = [1u64; 17];
        let b = settings.base as u64;
        for d in (0..settings.dimensions as usize).rev() {
            powers[d] = powers[d + 1] * b;
        }
        Levels { settings, powers }
    }
}
