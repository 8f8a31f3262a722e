// What is measured of blocks: the diagonal's sum, the largest difference, the largest part, Hermiticity.
ghost use Rattle.std.specs.Prelude.{◌≡◌, ◌*◌, ◌≤◌, ◌<◌};
ghost use Rattle.lists.specs.Prelude.{length};
ghost use Rattle.lists.specs.Indexed.{all_below};
ghost use Rattle.complex.specs.Arithmetic.{plus_zero, csub};
ghost use Rattle.complex.specs.Numbers.{entry_at};
ghost use Rattle.complex.specs.Sum.{largest_from};
ghost use Rattle.block.specs.Operations.{trace, cnorm, part_size, part_above, mirrors, hermitian_within};
ghost use Rattle.matrix.specs.Dense.{entries_of};

use crate::DenseMatrix;
use crate::fill::{entry, number};
use complex::{Complex, abs, max};
use largest::larger_norm;

// The sum of the diagonal.
#[tactic(auto, using(crate::proofs::Steps::one_more), unfolding(block::specs::Operations::trace))]
pub(crate) fn diagonal(x: &DenseMatrix) -> Complex
    requires { (x.now.rows ≤ 16) × (x.now.columns ≤ 16) }
    ensures { result ≡ trace x.now.rows (entries_of x.now) }
{
    let mut sum = Complex::ZERO;
    for i in 0..x.rows {
        sum = sum.plus(entry(x, i, i));
    }
    sum
}

// The largest norm of the first `count` numbers of a less those of b.
#[tactic(auto, using(crate::proofs::Steps::one_more), unfolding(complex::specs::Sum::largest_from))]
pub(crate) fn largest_difference(a: &[f64], b: &[f64], count: usize) -> f64
    requires { (2 * count ≤ length a.now) × (2 * count ≤ length b.now) }
    ensures { result ≡ largest_from plus_zero count (λ p. cnorm (csub (entry_at a.now (2 * p)) (entry_at b.now (2 * p)))) }
{
    let mut most = 0.0;
    for p in 0..count {
        let z = number(a, p).minus(number(b, p));
        most = larger_norm(most, z.re, z.im);
    }
    most
}

// The larger size of a number's parts.
#[tactic(auto, unfolding(block::specs::Operations::part_size))]
fn part_size(z: Complex) -> f64
    ensures { result ≡ part_size z }
{
    max(abs(z.re), abs(z.im))
}

#[tactic(auto, unfolding(block::specs::Operations::part_above))]
fn part_above(threshold: f64, z: Complex) -> bool
    ensures { result ≡ part_above threshold z }
{
    (threshold < abs(z.re)) | (threshold < abs(z.im))
}

// The largest size of a part of the first `count` numbers.
#[tactic(auto, using(crate::proofs::Steps::one_more), unfolding(complex::specs::Sum::largest_from))]
pub(crate) fn largest_part(a: &[f64], count: usize) -> f64
    requires { 2 * count ≤ length a.now }
    ensures { result ≡ largest_from plus_zero count (λ p. part_size (entry_at a.now (2 * p))) }
{
    let mut most = 0.0;
    for p in 0..count {
        most = max(most, part_size(number(a, p)));
    }
    most
}

// Whether no entry of row i of a square block, from the diagonal on, differs from its mirror's conjugate by a part above the threshold.
fn row_hermitian(x: &DenseMatrix, threshold: f64, i: usize) -> bool
    requires { (i < x.now.rows) × (x.now.rows ≤ 16) × (x.now.columns ≤ 16) }
    ensures { result ≡ all_below x.now.rows (mirrors threshold (entries_of x.now) i) }
{
    (i..x.rows).all(|j| !part_above(threshold, entry(x, i, j).minus(entry(x, j, i).conj())))
}

// The same of every row.
pub(crate) fn hermitian_within(x: &DenseMatrix, threshold: f64) -> bool
    requires { (x.now.rows ≤ 16) × (x.now.columns ≤ 16) }
    ensures { result ≡ hermitian_within x.now.rows threshold (entries_of x.now) }
{
    (0..x.rows).all(|i| row_hermitian(x, threshold, i))
}
