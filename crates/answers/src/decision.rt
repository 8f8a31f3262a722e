// A yes or no in one byte.
ghost use Rattle.std.specs.Prelude.{◌≡◌};
ghost use Rattle.answers.specs.Answer.{after_with, answers_decision};

use crate::{copy, with_output, write_answer};
use refusal::Refusal;

// The refusal's number, with a decision in `decided`: 1 for yes and 0 for no.
#[tactic(auto, unfolding(crate::specs::Answer::decision_answer, crate::specs::Answer::decision_byte))]
pub fn write_decision(
    decision: Result<bool, Refusal>,
    decided: &mut [u8],
    places: &mut [usize],
    part: &mut [f64],
) -> u8
    ensures { after_with result decided places part ≡ answers_decision decision decided places part }
{
    let verdict = with_output(decided.len() == 1, decision.and(Ok(())));
    if let Ok(yes) = decision {
        copy(&[u8::from(yes)], decided);
    }
    write_answer(verdict, places, part)
}
