// The sums at a group of neighbouring places, as crate `groups` has them. One place alone, at one orbital, has a loop of its own, whose total is one
// number: the new column of an append is such places, one to a row. Sixteen lanes would hold one sum there.
#![tactic(auto)]

ghost use Rattle.std.specs.Prelude.{Ok, Err, ◌≡◌, ◌+◌, ◌*◌, ◌<◌, ◌≤◌};
ghost use Rattle.lists.specs.Prelude.{ℕ, cond, length};
ghost use Rattle.complex.specs.Arithmetic.{cfinite};
ghost use Rattle.complex.specs.Numbers.{pair};
ghost use Rattle.complex.specs.Sum.{sum_from};
ghost use Rattle.refusal.specs.Verdict.{zeroed};
ghost use Rattle.two_time.specs.declared.sums.SumError.TheVariants.{Overflow};
ghost use Rattle.two_time.specs.WeightedSum.{weighted_sum};
ghost use Rattle.groups.specs.PartialSums.{terms_of};
ghost use Rattle.groups.specs.Groups.{group_sums};
ghost use Rattle.columns.specs.Walks.{from_first, walk_of, walk_term};
ghost use Rattle.columns.specs.Singles.{is_single, Single};

use complex::Complex;
use grid::interval_weight;
use terms::{Factor, factor_of};
use two_time::checks::has_length;
use two_time::layout::clear;
use two_time::sums::{SumError, Summed, Sums};

// The s of a sum, from 0 to `end`: the right number of s stands at `first` + s·`step`.
#[derive(Clone, Copy)]
pub struct Walk {
    pub end: usize,
    pub first: usize,
    pub step: usize,
}

// Whether the sums of a kind go over intervals from the first point on.
#[tactic(auto, unfolding(crate::specs::Walks::from_first))]
fn from_first(sums: Sums) -> bool
    ensures { result ≡ from_first sums }
{
    matches!(sums, Sums::LesserAdvanced | Sums::Lesser)
}

// The walk of such a sum at (t, u), by its right factor.
#[tactic(auto, unfolding(crate::specs::Walks::walk_of))]
fn walk_of(factor: Factor, stride: usize, t: usize, u: usize) -> Walk
    requires { (u < stride) × (stride ≤ 256) }
    ensures { result ≡ walk_of factor stride t u }
{
    match factor {
        Factor::Stored => Walk {
            end: t,
            first: 2 * u,
            step: 2 * stride,
        },
        Factor::Adjoint => Walk {
            end: u,
            first: 2 * (u * stride),
            step: 2,
        },
    }
}

// Adds the terms of a walk, s ascending, to a total that is given: left number times right number, from +0, times the weight. The left number of s stands
// at i + 2·s.
fn walk_sum(
    total: Complex,
    factor: Factor,
    times: &[f64],
    left: &[f64],
    i: usize,
    right: &[f64],
    walk: Walk,
) -> Complex
    requires { (walk.end < 256) × ((s : ℕ) → s ≤ walk.end → (i + 2 * s + 1 < length left.now) × (walk.first + s * walk.step + 1 < length right.now)) }
    ensures { result ≡ sum_from total (walk_term factor times.now left.now i right.now walk) 0 (walk.end + 1) }
{
    let mut sum = total;
    let end = walk.end;
    for s in 0..end + 1 {
        let k = i + 2 * s;
        let x = Complex::new(left[k], left[k + 1]);
        let j = walk.first + s * walk.step;
        let y = factor.number(Complex::new(right[j], right[j + 1]));
        let p = Complex::ZERO.plus(x.times(y));
        let weight = interval_weight(times, s, 0, end);
        sum = sum.plus(p.times(Complex::real(weight)));
    }
    sum
}

// The sum at (t, u), from a total that is given.
fn place_sum(
    sums: Sums,
    times: &[f64],
    left: &[f64],
    right: &[f64],
    stride: usize,
    t: usize,
    u: usize,
    total: Complex,
) -> Complex
    requires { Single sums stride left.now right.now t u }
    ensures { result ≡ weighted_sum 1 (terms_of sums stride stride 1 times.now left.now right.now t u total) 0 0 }
{
    let factor = factor_of(sums);
    let walk = walk_of(factor, stride, t, u);
    if walk.end == 0 {
        return total;
    }
    walk_sum(total, factor, times, left, 2 * (t * stride), right, walk)
}

// Writes a number, if it is finite.
fn write(z: Complex, out: &mut [f64]) -> Summed
    requires { length out.old ≡ 2 }
    ensures { (result ≡ cond (cfinite z) (Ok tt) (Err Overflow)) × (out.new ≡ cond (cfinite z) (pair z) (zeroed out.old)) }
{
    if z.is_finite() {
        out.copy_from_slice(&[z.re, z.im]);
        return Ok(());
    }
    clear(out);
    Err(SumError::Overflow)
}

// Whether the group is one place at one orbital, of sums from the first point on, and all is there.
#[tactic(auto, unfolding(crate::specs::Singles::is_single))]
fn is_single(
    sums: Sums,
    left: &[f64],
    right: &[f64],
    points: usize,
    orbitals: usize,
    t: usize,
    u: usize,
    places: usize,
) -> bool
    ensures { result ≡ is_single sums points orbitals left.now right.now t u places }
{
    let one = (orbitals == 1) & (places == 1);
    let there = (2 <= points) & ((t < points) & (u < points));
    let left_fits = has_length(points, orbitals, left);
    let right_fits = has_length(points, orbitals, right);
    (from_first(sums) & one) & (there & (left_fits & right_fits))
}

// Writes the sums at the places of row t from u on, if all that is made for them is finite. Where no place has a term all are +0.
pub fn group(
    sums: Sums,
    times: &[f64],
    left: &[f64],
    right: &[f64],
    points: usize,
    orbitals: usize,
    t: usize,
    u: usize,
    places: usize,
    out: &mut [f64],
) -> Summed
    ensures { let made = group_sums sums points orbitals times.now left.now right.now t u places out.old in (result ≡ made.answer) × (out.new ≡ made.out) }
{
    let single = is_single(sums, left, right, points, orbitals, t, u, places);
    if single & (out.len() == 2) {
        let z = place_sum(sums, times, left, right, points, t, u, Complex::ZERO);
        return write(z, out);
    }
    groups::group(
        sums, times, left, right, points, orbitals, t, u, places, out,
    )
}
