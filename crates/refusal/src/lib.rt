// Refusals by the numbers of document 01, "Questions in order", and the answers that carry them.
#![tactic(auto)]

ghost use Rattle.std.specs.Prelude.{◌≡◌};
ghost use Rattle.refusal.specs.Verdict.{by};

pub mod checks;

// The number of the check whose answer is no, with its places. A place that the check does not have is 0, a part +0.
#[derive(Clone, Copy)]
pub struct Refusal {
    pub number: u8,
    // Checks 7 and 9: the operand, from 0 in call order, times not counted.
    pub operand: usize,
    // Check 5: the index. Check 7: the number position. Check 9: the first time index.
    pub first: usize,
    // Check 9: the second time index.
    pub second: usize,
    // Check 9: the residual. Check 14: the imaginary part.
    pub part: f64,
}

// The answer to one question, or to several asked in order.
pub type Verdict = Result<(), Refusal>;

impl Refusal {
    // A refusal by a check that has no places.
    pub fn by(number: u8) -> Refusal
        ensures { result ≡ by number }
    {
        Refusal {
            number,
            operand: 0,
            first: 0,
            second: 0,
            part: 0.0,
        }
    }
}
