// What is summed over times, and what became of the sums (document 01, convolutions): the crates `lanes` and `sums` have the loops.
ghost use Rattle.std.specs.Prelude.{◌≡◌};
ghost use Rattle.refusal.specs.Verdict.{by};
ghost use Rattle.two_time.specs.declared.sums.SumError.TheVariants.{Unfit};

use refusal::Refusal;

// What is summed at every place (t, t').
#[derive(Clone, Copy)]
pub enum Sums {
    // All s, by full weights.
    Full,
    // s from t' to t, by the weights of that interval; nothing where t < t'.
    Causal,
    // s from 0 to t' over left(t,s) and the adjoint of right(t',s), by the weights of that interval.
    LesserAdvanced,
    // s from 0 to t, by the weights of that interval.
    Lesser,
    // s from t to t', by the weights of that interval; nothing where t' < t.
    AntiCausal,
}

// Why sums are not there.
#[derive(Clone, Copy)]
pub enum SumError {
    // Something that is made for them is not finite.
    Overflow,
    // N, n, a place or a slice is not what they ask for: nothing is summed.
    Unfit,
}

// What became of sums.
pub type Summed = Result<(), SumError>;

// Sums whose sizes are refused are not there: a caller is not told which of them it was.
impl From<Refusal> for SumError {
    ghost from_gives = { λ _ e. e ≡ Unfit };

    fn from(_refusal: Refusal) -> SumError {
        SumError::Unfit
    }
}

// For a call that has asked 1 to 3 before it sums: what is left is an overflow, 10.
impl From<SumError> for Refusal {
    ghost from_gives = { λ _ refusal. refusal ≡ by 10 };

    fn from(_error: SumError) -> Refusal {
        Refusal::by(10)
    }
}
