// How an answer leaves for a program in C or Rust: the refusal's number, 0 where the call is accepted. What a refusal carries is written to
// `places` and `part`, which are part of the answer: an accepted call leaves them as they were, and so does any call if they have another
// length. Numbers, a decision or a block are written to slices of their own, whose lengths check 3 asks.
#![tactic(auto)]

pub mod blocks;
pub mod decision;
pub mod numbers;

ghost use Rattle.std.specs.Prelude.{◌≡◌};
ghost use Rattle.answers.specs.Answer.{written, after, answers, with_output};

use refusal::checks::fitting;
use refusal::{Refusal, Verdict};

// Copies the items to a slice of as many, and nothing to another.
#[tactic(auto, unfolding(crate::specs::Answer::written))]
fn copy<T: Copy>(items: &[T], out: &mut [T])
    ensures { out.new ≡ written items.now out.old }
{
    if out.len() == items.len() {
        out.copy_from_slice(items);
    }
}

// The refusal's number, with what it carries in `places` and `part`.
#[tactic(auto, unfolding(crate::specs::Answer::answer_of))]
pub fn write_answer(verdict: Verdict, places: &mut [usize], part: &mut [f64]) -> u8
    ensures { after result places part ≡ answers verdict places part }
{
    match verdict {
        Ok(()) => 0,
        Err(r) => {
            copy(&[r.operand, r.first, r.second], places);
            copy(&[r.part], part);
            r.number
        }
    }
}

// The verdict of a call once check 3 asks its output too: a refusal by 1 or 2 stands, all others come after 3.
#[tactic(auto, unfolding(crate::specs::Answer::with_output))]
fn with_output(fits: bool, verdict: Verdict) -> Verdict
    ensures { result ≡ with_output fits verdict }
{
    match verdict {
        Err(r) if r.number == 1 || r.number == 2 => verdict,
        _ => {
            fitting(fits)?;
            verdict
        }
    }
}
