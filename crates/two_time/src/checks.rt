// The checks that every call on two-time functions asks of what it is lent (document 01, "Questions in order").
ghost use Rattle.std.specs.Prelude.{◌≡◌, ◌∷◌};
ghost use Rattle.lists.specs.Prelude.{[], length};
ghost use Rattle.refusal.specs.Verdict.{◌then◌};
ghost use Rattle.refusal.specs.Checks.{large_enough, within_limits, fitting, finite_entries};
ghost use Rattle.two_time.specs.Calls.{all_fit};
ghost use Rattle.two_time.specs.Start.{holds_block};

use crate::layout::function_length;
use refusal::Verdict;
use refusal::checks::{finite_entries, fitting, large_enough, within_limits};

// Whether N and n are within the limits of check 2 and a slice has a function's length.
pub fn has_length(points: usize, orbitals: usize, xs: &[f64]) -> bool
    ensures { result ≡ all_fit points orbitals (xs.now ∷ []) }
{
    ((points <= 256) & (orbitals <= 16)) & (xs.len() == function_length(points, orbitals))
}

// Whether n is within its limit and a slice holds an n by n block, and perhaps more.
#[tactic(auto, unfolding(crate::specs::Start::holds_block))]
pub fn holds_block(orbitals: usize, xs: &[f64]) -> bool
    ensures { result ≡ holds_block orbitals xs.now }
{
    orbitals <= 16 && 2 * (orbitals * orbitals) <= xs.len()
}

// The first of these of four slices.
pub fn all_fit(
    first: &[f64],
    second: &[f64],
    third: &[f64],
    fourth: &[f64],
    points: usize,
    orbitals: usize,
) -> bool
    ensures { result ≡ all_fit points orbitals (first.now ∷ second.now ∷ third.now ∷ fourth.now ∷ []) }
{
    has_length(points, orbitals, first)
        & (has_length(points, orbitals, second)
            & (has_length(points, orbitals, third) & has_length(points, orbitals, fourth)))
}

// 1, 2 and 3: `fits` says whether each lent slice has its length.
pub fn check_sizes(points: usize, orbitals: usize, fits: bool) -> Verdict
    ensures { result ≡ (large_enough points orbitals then within_limits points orbitals then fitting fits) }
{
    large_enough(points, orbitals)?;
    within_limits(points, orbitals)?;
    fitting(fits)
}

// 7, of the operand of that number.
pub fn check_operand(number: usize, xs: &[f64]) -> Verdict
    ensures { result ≡ finite_entries number xs.now (length xs.now) }
{
    let count = xs.len();
    finite_entries(number, xs, count)
}
