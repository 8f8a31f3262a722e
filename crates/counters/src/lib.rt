// How a session crosses to a program in C or Rust: as its counters, a slice of eight numbers, one for each desk.
#![tactic(auto)]

ghost use Rattle.std.specs.Prelude.{◌≡◌};
ghost use Rattle.answers.specs.Answer.{after, answers};
ghost use Rattle.counters.specs.Counters.{solved_verdict, session_in, counters_after};

use answers::write_answer;
use transient_run::{Booked, Session};

// The session whose counters the slice holds; of another length than eight, one that is opened at zeros.
#[tactic(auto, unfolding(crate::specs::Counters::session_in))]
pub fn session_of(counters: &[u64]) -> Session
    ensures { result ≡ session_in counters.now }
{
    let products = counters.try_into().unwrap_or([0; 8]);
    Session { products }
}

// The answer of a run or an append at a desk, which leaves the desk's counter in the slice if it is accepted.
#[tactic(auto, unfolding(answers::specs::Answer::answer_of, crate::specs::Counters::counters_after))]
pub fn write_booked(
    made: Booked,
    counters: &mut [u64],
    desk: usize,
    places: &mut [usize],
    part: &mut [f64],
) -> u8
    ensures { (after result places part ≡ answers (solved_verdict made.answer) places part)
        × (counters.new ≡ counters_after made.answer made.session desk counters.old) }
{
    if made.answer.is_ok() && desk < 8 && desk < counters.len() {
        counters[desk] = made.session.products[desk];
    }
    write_answer(made.answer.and(Ok(())), places, part)
}
