// Many calls on a list that has been checked once: a call takes a list to a list, so the next one needs no check.
#![tactic(auto)]

ghost use Rattle.std.specs.Prelude.{◌≡◌, true, ◌+◌, ◌≤◌, length};
ghost use Rattle.std.proofs.lemmas.List.Edits.{sets};
ghost use Rattle.answers.specs.Refusals.{Meets};
ghost use Rattle.calls.specs.Batch.{is_kind, operation_of, are_calls, calls_in, answer_words, fits, batch_lent, batch_done};
ghost use Rattle.meaning.specs.Layer.Listed.{Listed};

use answers::{Answer, Operation};
use settings::Levels;

const INSERT: u32 = 1;

const FIND: u32 = 2;

const FINISH: u32 = 3;

const TAKE: u32 = 4;

const SWEEP: u32 = 5;

const WORDS_PER_CALL: usize = 3;

const WORDS_PER_ANSWER: usize = 4;

// The number that the count of a batch can tell at most.
const MOST_CALLS: usize = u32::MAX as usize;

// The operation that the three words of a call ask for.
#[tactic(auto, unfolding(calls::specs::Batch::operation_of))]
fn operation_of(kind: u32, key: u32, value: u32) -> Operation
    ensures { result ≡ operation_of kind key value }
{
    match kind {
        INSERT => Operation::Insert(key, value),
        FIND => Operation::Find(key),
        FINISH => Operation::Finish(key),
        TAKE => Operation::Take,
        _ => Operation::Sweep,
    }
}

// Puts the four words of an answer.
fn put(answers: &mut [u32], at: usize, a: Answer)
    requires { at + 4 ≤ length answers.old }
    ensures { answers.new ≡ sets answers.old at (answer_words a) }
{
    answers[at] = a.refusal;
    answers[at + 1] = a.key;
    answers[at + 2] = a.value;
    answers[at + 3] = a.count;
}

#[tactic(auto, unfolding(calls::specs::Batch::is_kind))]
fn is_kind(kind: u32) -> bool
    ensures { result ≡ is_kind kind }
{
    matches!(kind, INSERT..=SWEEP)
}

// Whether the words are whole calls, each of one of the kinds.
fn are_calls(calls: &[u32]) -> bool
    ensures { result ≡ are_calls calls.now }
{
    let (whole, rest) = calls.as_chunks::<WORDS_PER_CALL>();
    rest.is_empty() && whole.iter().all(|call| is_kind(call[0]))
}

// Whether these are calls, with room for their answers.
#[tactic(auto, using(crate::proofs::Calls::calls_length), unfolding(calls::specs::Batch::fits))]
pub fn fit(calls: &[u32], answers: &[u32]) -> bool
    ensures { result ≡ fits calls.now answers.now }
{
    let n = calls.len() / WORDS_PER_CALL;
    are_calls(calls) && n <= answers.len() / WORDS_PER_ANSWER && n <= MOST_CALLS
}

// On a list with these settings: The operations 8, where the calls fit.
#[tactic(auto, using(crate::proofs::Calls::fits_room))]
pub fn batch(list: &mut [u32], levels: &Levels, calls: &[u32], answers: &mut [u32]) -> Answer
    requires { Listed list.old levels.now.settings × (fits calls.now answers.old ≡ true) }
    ensures { Meets (batch_done (calls_in calls.now) (batch_lent list.old answers.old)) result (batch_lent list.new answers.new) }
{
    let (whole, _) = calls.as_chunks::<WORDS_PER_CALL>();
    for (i, &[kind, key, value]) in whole.iter().enumerate() {
        let a = operate::operate(list, levels, operation_of(kind, key, value));
        put(answers, WORDS_PER_ANSWER * i, a);
    }
    answers::accepted(0, 0, whole.len() as u32)
}
