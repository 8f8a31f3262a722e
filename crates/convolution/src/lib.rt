// Both convolutions over lent slices (document 01, convolutions): the meaning of each call is in specs/.
#![tactic(auto)]

ghost use Rattle.std.specs.Prelude.{◌≡◌};
ghost use Rattle.convolution.specs.Calls.{convolved_by, time_convolution, causal_convolution};

use grid::check_grid;
use refusal::Verdict;
use sums::weighted_sums;
use two_time::checks::{check_operand, check_sizes, has_length};
use two_time::sums::Sums;

// The convolution over all times, ∫ ds left(t,s)·right(s,t') by full weights: N³ products of blocks.
pub fn time_convolution(
    times: &[f64],
    left: &[f64],
    right: &[f64],
    points: usize,
    orbitals: usize,
    out: &mut [f64],
) -> Verdict
    ensures { let made = time_convolution points orbitals times.now left.now right.now out.old in
        (result ≡ made.answer) × (out.new ≡ made.out) }
{
    convolve(Sums::Full, times, left, right, points, orbitals, out)
}

// The causal convolution, over s from t' to t by interval weights, +0 where t ≤ t': N(N+1)(N+2)/6 − N products of blocks.
pub fn causal_volterra_convolution(
    times: &[f64],
    left: &[f64],
    right: &[f64],
    points: usize,
    orbitals: usize,
    out: &mut [f64],
) -> Verdict
    ensures { let made = causal_convolution points orbitals times.now left.now right.now out.old in
        (result ≡ made.answer) × (out.new ≡ made.out) }
{
    convolve(Sums::Causal, times, left, right, points, orbitals, out)
}

// Both are one call: checks 1 to 7, then the sums at all places.
fn convolve(
    sums: Sums,
    times: &[f64],
    left: &[f64],
    right: &[f64],
    points: usize,
    orbitals: usize,
    out: &mut [f64],
) -> Verdict
    ensures { let made = convolved_by sums points orbitals times.now left.now right.now out.old in
        (result ≡ made.answer) × (out.new ≡ made.out) }
{
    let left_fits = has_length(points, orbitals, left);
    let right_fits = has_length(points, orbitals, right);
    let out_fits = has_length(points, orbitals, out);
    let fits = (times.len() == points) & (left_fits & (right_fits & out_fits));
    check_sizes(points, orbitals, fits)?;
    check_grid(times, points)?;
    check_operand(0, left)?;
    check_operand(1, right)?;
    weighted_sums(sums, times, left, right, points, orbitals, out)?;
    Ok(())
}
