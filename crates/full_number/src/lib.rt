// The full number of a record: its own has 16 bits and comes round, and the last one tells which round it is in.
#![tactic(auto)]

ghost use Rattle.std.specs.Prelude.{◌≡◌, ◌+◌, ◌-◌, ◌<◌, ◌≤◌};
ghost use Rattle.full_number.specs.FullNumber.{numbers_per_round, most_full, round_back, full_number};

// A last number that says that no record has been accepted yet: one above all that fit.
pub const NO_NUMBER: u64 = u32::MAX as u64 + 1;

const NUMBERS_PER_ROUND: u64 = 65536;

// A difference below it counts forward.
const HALF_A_ROUND: u16 = 32768;

// The full number so far above the last one; none where it does not fit into 32 bits.
fn forward(last: u64, ahead: u64) -> Option<u32>
    requires { (last ≤ most_full) × (ahead < numbers_per_round) }
    ensures { result ≡ round_back (last + numbers_per_round + ahead) }
{
    u32::try_from(last + ahead).ok()
}

// The full number so far below the last one; none where it does not fit into 32 bits.
fn backward(last: u64, behind: u64) -> Option<u32>
    requires { (last ≤ most_full) × (behind ≤ numbers_per_round) }
    ensures { result ≡ round_back (last + numbers_per_round - behind) }
{
    u32::try_from(last.checked_sub(behind)?).ok()
}

// The full number of a record's own after the last one; none where it does not fit into 32 bits. A last one above all that fit says that no record has been accepted yet.
#[tactic(auto, unfolding(crate::specs::FullNumber::full_number))]
pub fn full_number(last: u64, own: u32) -> Option<u32>
    requires { own < numbers_per_round }
    ensures { result ≡ full_number last own }
{
    if last > u32::MAX as u64 {
        return Some(own + NUMBERS_PER_ROUND as u32);
    }
    let ahead = (own as u16).wrapping_sub((last % NUMBERS_PER_ROUND) as u16);
    if ahead < HALF_A_ROUND {
        return forward(last, ahead as u64);
    }
    backward(last, NUMBERS_PER_ROUND - ahead as u64)
}
