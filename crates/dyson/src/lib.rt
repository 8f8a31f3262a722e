// The retarded Dyson equation on a time grid (document 01, Dyson): the meaning of each call is in specs/.
#![tactic(auto)]

mod forward;

ghost use Rattle.std.specs.Prelude.{◌≡◌};
ghost use Rattle.dyson.specs.Calls.{dyson, dyson_with_tolerance, equation_of, solved_retarded, solved_new};

use forward::forward;
use grid::check_grid;
use refusal::Verdict;
use sums::new_sums;
use support::check_retarded_inputs;
use two_time::capacity::{Shape, clear_new};
use two_time::checks::{all_fit, check_operand, check_sizes};
use two_time::sums::{SumError, Summed, Sums};

// K, the causal convolution of free and self-energy, in the scratch, and then G in the output, each at the new places of slices laid out for the
// capacity. Where something is not finite both hold +0 there; the rest is as it was, and so is all where nothing is summed.
pub fn solve_new(
    times: &[f64],
    free: &[f64],
    self_energy: &[f64],
    shape: Shape,
    old: usize,
    retarded: &mut [f64],
    kernel: &mut [f64],
) -> Summed
    ensures { let solved = solved_new shape.capacity shape.orbitals old shape.points times.now free.now self_energy.now retarded.old kernel.old in
        (result ≡ solved.answer) × (retarded.new ≡ solved.retarded) × (kernel.new ≡ solved.kernel) }
{
    let capacity = shape.capacity;
    let orbitals = shape.orbitals;
    let there = (old <= shape.points) & (shape.points <= capacity);
    let fits = all_fit(free, self_energy, retarded, kernel, capacity, orbitals);
    check_sizes(capacity, orbitals, there & fits)?;
    if new_sums(Sums::Causal, times, free, self_energy, shape, old, kernel).is_err() {
        clear_new(shape, old, retarded);
        return Err(SumError::Overflow);
    }
    if forward(times, free, kernel, shape, old, retarded).is_err() {
        clear_new(shape, old, retarded);
        clear_new(shape, old, kernel);
        return Err(SumError::Overflow);
    }
    Ok(())
}

// The same at all places of slices laid out for the points: both +0 throughout where something is not finite, and as they were where nothing is summed.
pub fn solve_retarded(
    times: &[f64],
    free: &[f64],
    self_energy: &[f64],
    points: usize,
    orbitals: usize,
    retarded: &mut [f64],
    kernel: &mut [f64],
) -> Summed
    ensures { let solved = solved_retarded (equation_of points orbitals times.now free.now self_energy.now) retarded.old kernel.old in
        (result ≡ solved.answer) × (retarded.new ≡ solved.retarded) × (kernel.new ≡ solved.kernel) }
{
    let shape = Shape {
        points,
        capacity: points,
        orbitals,
    };
    solve_new(times, free, self_energy, shape, 0, retarded, kernel)
}

// Solves G = free + free ∘ self-energy ∘ G: checks 1 to 7, then 8, 9 for free, 9 for the self-energy, 10. N(N+1)(N+2)/6 − N products
// of blocks for K, which stays in the scratch, and (N−1)N(N+1)/6 for G.
pub fn retarded_dyson_with_tolerance(
    times: &[f64],
    free: &[f64],
    self_energy: &[f64],
    points: usize,
    orbitals: usize,
    tolerance: f64,
    retarded: &mut [f64],
    kernel: &mut [f64],
) -> Verdict
    ensures { let solved = dyson_with_tolerance points orbitals tolerance times.now free.now self_energy.now retarded.old kernel.old in
        (result ≡ solved.answer) × (retarded.new ≡ solved.retarded) × (kernel.new ≡ solved.kernel) }
{
    let fits = all_fit(free, self_energy, retarded, kernel, points, orbitals);
    check_sizes(points, orbitals, (times.len() == points) & fits)?;
    check_grid(times, points)?;
    check_operand(0, free)?;
    check_operand(1, self_energy)?;
    let shape = Shape {
        points,
        capacity: points,
        orbitals,
    };
    check_retarded_inputs(free, self_energy, shape, tolerance)?;
    solve_retarded(times, free, self_energy, points, orbitals, retarded, kernel)?;
    Ok(())
}

// The same with the tolerance 1e-12.
#[tactic(auto, unfolding(crate::specs::Calls::dyson))]
pub fn retarded_dyson(
    times: &[f64],
    free: &[f64],
    self_energy: &[f64],
    points: usize,
    orbitals: usize,
    retarded: &mut [f64],
    kernel: &mut [f64],
) -> Verdict
    ensures { let solved = dyson points orbitals times.now free.now self_energy.now retarded.old kernel.old in
        (result ≡ solved.answer) × (retarded.new ≡ solved.retarded) × (kernel.new ≡ solved.kernel) }
{
    retarded_dyson_with_tolerance(
        times,
        free,
        self_energy,
        points,
        orbitals,
        1e-12,
        retarded,
        kernel,
    )
}
