// The support of a retarded function (document 01, support): a place t < t' holds nothing above the tolerance. Slices are laid out for a capacity of
// points (document 02, L1).
#![tactic(auto)]

ghost use Rattle.std.specs.Prelude.{◌≡◌, ◌+◌, ◌*◌, ◌<◌, ◌≤◌};
ghost use Rattle.lists.specs.Prelude.{length};
ghost use Rattle.complex.specs.Numbers.{entry_at};
ghost use Rattle.complex.specs.Sum.{largest_from};
ghost use Rattle.refusal.specs.Verdict.{ask_all};
ghost use Rattle.block.specs.Operations.{cnorm};
ghost use Rattle.two_time.specs.Layout.{read_as, length_of};
ghost use Rattle.support.specs.Support.{scale_of, retarded, retarded_place, check_support, check_inputs};

use complex::max;
use largest::larger_norm_in_loop;
use refusal::Verdict;
use refusal::checks::{retarded_at, valid_tolerance};
use two_time::capacity::{Shape, check_capacity};
use two_time::checks::{check_operand, check_sizes, has_length};

// Whether a function is retarded within the tolerance: checks 1 to 3, 7, 8 and 9.
pub fn check_retarded_support(xs: &[f64], points: usize, orbitals: usize, tolerance: f64) -> Verdict
    ensures { result ≡ check_support points orbitals xs.now tolerance }
{
    check_sizes(points, orbitals, has_length(points, orbitals, xs))?;
    check_operand(0, xs)?;
    valid_tolerance(tolerance)?;
    let shape = Shape {
        points,
        capacity: points,
        orbitals,
    };
    retarded(0, xs, shape, tolerance)
}

// Whether the inputs of a Dyson call or a transient run are retarded within the tolerance: checks 1 to 3 and 16, 8, then 9 of free (operand 0) and of
// the self-energy (operand 1).
pub fn check_retarded_inputs(
    free: &[f64],
    self_energy: &[f64],
    shape: Shape,
    tolerance: f64,
) -> Verdict
    ensures { result ≡ check_inputs shape.capacity shape.points shape.orbitals free.now self_energy.now tolerance }
{
    let fits = has_length(shape.capacity, shape.orbitals, free)
        & has_length(shape.capacity, shape.orbitals, self_energy);
    check_capacity(shape, fits)?;
    valid_tolerance(tolerance)?;
    retarded(0, free, shape, tolerance)?;
    retarded(1, self_energy, shape, tolerance)
}

// Check 9 of the operand of that number: the first place t < u, rows first, whose residual exceeds the tolerance.
fn retarded(operand: usize, xs: &[f64], shape: Shape, tolerance: f64) -> Verdict
    requires { (shape.capacity ≤ 256) × (shape.orbitals ≤ 16) × (shape.points ≤ shape.capacity) × (length_of shape.capacity shape.orbitals ≤ length xs.now) }
    ensures { result ≡ retarded shape.points shape.orbitals operand tolerance (read_as shape.capacity shape.orbitals xs.now) }
{
    let scale = scale_of(xs, shape);
    for t in 0..shape.points {
        row_within(operand, xs, shape, tolerance, scale, t)?;
    }
    Ok(())
}

// Check 9 in row t.
fn row_within(
    operand: usize,
    xs: &[f64],
    shape: Shape,
    tolerance: f64,
    scale: f64,
    t: usize,
) -> Verdict
    requires capacity_bound { (shape.capacity ≤ 256) × (shape.orbitals ≤ 16) × (shape.points ≤ shape.capacity) × (length_of shape.capacity shape.orbitals ≤ length xs.now) }
    requires t_lt_points { (t < shape.points) × (scale ≡ scale_of shape.points shape.orbitals (read_as shape.capacity shape.orbitals xs.now)) }
    ensures { result ≡ ask_all shape.points (retarded_place shape.points shape.orbitals operand tolerance (read_as shape.capacity shape.orbitals xs.now) t) }
{
    let count = shape.orbitals * shape.orbitals;
    for u in t + 1..shape.points {
        let first = (t * shape.capacity + u) * count;
        let residual = largest_from(xs, first, count, 0.0) / scale;
        retarded_at(operand, t, u, tolerance, residual)?;
    }
    Ok(())
}

// The largest norm of all entries of the points, at least 2^-1022.
fn scale_of(xs: &[f64], shape: Shape) -> f64
    requires { (shape.capacity ≤ 256) × (shape.orbitals ≤ 16) × (shape.points ≤ shape.capacity) × (length_of shape.capacity shape.orbitals ≤ length xs.now) }
    ensures { result ≡ scale_of shape.points shape.orbitals (read_as shape.capacity shape.orbitals xs.now) }
{
    let block = shape.orbitals * shape.orbitals;
    let width = shape.capacity * block;
    let count = shape.points * block;
    let mut largest = 0.0;
    for t in 0..shape.points {
        largest = largest_from(xs, t * width, count, largest);
    }
    max(largest, f64::from_bits(0x0010_0000_0000_0000))
}

// The largest of `largest` and the norms of `count` complex numbers, from the one that `first` are before.
fn largest_from(xs: &[f64], first: usize, count: usize, largest: f64) -> f64
    requires { 2 * (first + count) ≤ length xs.now }
    ensures { result ≡ largest_from largest count (λ k. cnorm (entry_at xs.now (2 * (first + k)))) }
{
    let mut most = largest;
    // By index: std has no lemma on what `chunks_exact` gives.
    for k in 0..count {
        let i = 2 * (first + k);
        most = larger_norm_in_loop(most, xs[i], xs[i + 1]);
    }
    most
}
