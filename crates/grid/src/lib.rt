// A grid of rising times and its trapezoid weights (document 01, grid). All calls are total: a time past the end of a slice
// is a NaN to them.
#![tactic(auto)]

ghost use Rattle.std.specs.Prelude.{◌≡◌, ◌∷◌, ◌+◌, ◌-◌};
ghost use Rattle.lists.specs.Prelude.{[], min, max, length, get_or, nan};
ghost use Rattle.lists.specs.Indexed.{join};
ghost use Rattle.refusal.specs.Checks.{finite_weights};
ghost use Rattle.grid.specs.Weights.{half_step, full_weight, interval_weight};
ghost use Rattle.grid.specs.Calls.{grid_checks, grid_call_checks, check_times, full_weights, checked_interval_weight};

use refusal::{Refusal, Verdict, checks};

// The time of a point.
fn time_at(times: &[f64], i: usize) -> f64
    ensures { result ≡ get_or times.now i nan }
{
    times.get(i).copied().unwrap_or(f64::NAN)
}

// 0.5·(times[later] − times[earlier]).
#[tactic(auto, unfolding(crate::specs::Weights::half_step))]
pub fn half_step(times: &[f64], later: usize, earlier: usize) -> f64
    ensures { result ≡ half_step times.now later earlier }
{
    0.5 * (time_at(times, later) - time_at(times, earlier))
}

// The weight of a point in the trapezoid rule over all points: half the adjoining step at the first and the last, half of
// next minus previous between.
pub fn full_weight(times: &[f64], points: usize, index: usize) -> f64
    ensures { result ≡ full_weight points times.now index }
{
    if times.len() <= index {
        return f64::NAN;
    }
    if index == 0 {
        return half_step(times, 1, 0);
    }
    if index + 1 == points {
        return half_step(times, index, index - 1);
    }
    half_step(times, index + 1, index - 1)
}

// The weight of a point in the trapezoid rule from start to end: 0 if start ≥ end or the point lies outside, half the
// adjoining step at an end, half of next minus previous inside.
pub fn interval_weight(times: &[f64], point: usize, start: usize, end: usize) -> f64
    ensures { result ≡ interval_weight times.now point start end }
{
    if (end <= start) | ((point < start) | (end < point)) {
        return 0.0;
    }
    let later = point.saturating_add(1).min(end);
    let earlier = point.saturating_sub(1).max(start);
    if end < times.len() {
        return 0.5 * (times[later] - times[earlier]);
    }
    half_step(times, later, earlier)
}

// 6: the full weights are finite.
fn finite_weights(times: &[f64], points: usize) -> Verdict
    ensures { result ≡ finite_weights points (full_weight points times.now) }
{
    let all = (0..points).all(|i| complex::is_finite(full_weight(times, points, i)));
    checks::numbered(all, 6)
}

// The checks 4, 5 and 6.
#[tactic(auto, unfolding(crate::specs::Calls::grid_checks))]
pub fn check_grid(times: &[f64], points: usize) -> Verdict
    ensures { result ≡ grid_checks points times.now }
{
    checks::finite_times(points, times)?;
    checks::rising_times(points, times)?;
    finite_weights(times, points)
}

// The checks 1 to 6 of a call that is lent the times, with its own question of other lengths.
#[tactic(auto, unfolding(crate::specs::Calls::grid_call_checks))]
fn check_grid_call(times: &[f64], points: usize, fits: bool) -> Verdict
    ensures { result ≡ grid_call_checks points times.now fits }
{
    checks::large_enough(points, 1)?;
    checks::within_limits(points, 1)?;
    checks::fitting((times.len() == points) & fits)?;
    check_grid(times, points)
}

// Whether the times are a grid of N points.
#[tactic(auto, unfolding(crate::specs::Calls::check_times))]
pub fn check_times(times: &[f64], points: usize) -> Verdict
    ensures { result ≡ check_times points times.now }
{
    check_grid_call(times, points, true)
}

// Writes each point's full weight.
fn fill(times: &[f64], points: usize, weights: &mut [f64])
    ensures { weights.new ≡ join (length weights.old) (λ i. full_weight points times.now i ∷ []) }
{
    // By index: after an adapter of `iter_mut` a proof does not know the values.
    for i in 0..weights.len() {
        weights[i] = full_weight(times, points, i);
    }
}

// The full weights of N points, in the slice lent for them. A refused call leaves the slice as it was.
#[tactic(auto, unfolding(crate::specs::Calls::full_weights))]
pub fn full_weights(times: &[f64], points: usize, weights: &mut [f64]) -> Verdict
    ensures { let made = full_weights points times.now weights.old in (result ≡ made.answer) × (weights.new ≡ made.weights) }
{
    check_grid_call(times, points, weights.len() == points)?;
    fill(times, points, weights);
    Ok(())
}

// The weight of a point from start to end. An end of N or more gives 11 before that.
#[tactic(auto, unfolding(crate::specs::Calls::checked_interval_weight, crate::specs::Calls::check_times, refusal::specs::Verdict::measured))]
pub fn checked_interval_weight(
    times: &[f64],
    points: usize,
    point: usize,
    start: usize,
    end: usize,
) -> Result<f64, Refusal>
    ensures { result ≡ checked_interval_weight points times.now point start end }
{
    check_times(times, points)?;
    checks::time_below(end, points)?;
    Ok(interval_weight(times, point, start, end))
}
