// Answers in numbers: one for a measure, two for a complex number, seven for a report.
ghost use Rattle.std.specs.Prelude.{◌≡◌};
ghost use Rattle.refusal.specs.Verdict.{zeroed, afterwards};
ghost use Rattle.answers.specs.Answer.{written, after_with, measured_numbers, complex_numbers, answers_numbers};

use crate::{copy, with_output, write_answer};
use complex::Complex;
use refusal::{Refusal, Verdict};

// A verdict, and how many of the values an accepted call answers with: at most seven. The count stands beside a refusal too, as check 3 asks a slice's length
// by it.
#[derive(Clone, Copy)]
pub struct Numbers {
    pub verdict: Verdict,
    pub count: usize,
    pub values: [f64; 7],
}

impl Numbers {
    // One number.
    pub fn measured(answer: Result<f64, Refusal>) -> Numbers
        ensures { result ≡ measured_numbers answer }
    {
        Numbers {
            verdict: answer.and(Ok(())),
            count: 1,
            values: [answer.unwrap_or(0.0), 0.0, 0.0, 0.0, 0.0, 0.0, 0.0],
        }
    }

    // A complex number, by its two parts.
    pub fn complex(answer: Result<Complex, Refusal>) -> Numbers
        ensures { result ≡ complex_numbers answer }
    {
        let z = answer.unwrap_or(Complex::ZERO);
        Numbers {
            verdict: answer.and(Ok(())),
            count: 2,
            values: [z.re, z.im, 0.0, 0.0, 0.0, 0.0, 0.0],
        }
    }
}

// Writes the numbers of an accepted call and +0 after 10, and nothing after any other number.
#[tactic(auto, unfolding(refusal::specs::Verdict::afterwards))]
fn store(verdict: Verdict, numbers: &[f64], out: &mut [f64])
    ensures { out.new ≡ afterwards zeroed verdict (written numbers.now out.old) out.old }
{
    match verdict {
        Ok(()) => copy(numbers, out),
        Err(r) if r.number == 10 => out.fill(0.0),
        Err(_) => {}
    }
}

// The refusal's number, with the numbers of an accepted call in `value`.
#[tactic(auto, unfolding(crate::specs::Answer::numbers_answer))]
pub fn write_numbers(
    numbers: Numbers,
    value: &mut [f64],
    places: &mut [usize],
    part: &mut [f64],
) -> u8
    ensures { after_with result value places part ≡ answers_numbers numbers value places part }
{
    let count = numbers.count.min(7);
    let verdict = with_output(value.len() == count, numbers.verdict);
    store(verdict, &numbers.values[..count], value);
    write_answer(verdict, places, part)
}
