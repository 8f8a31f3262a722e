// The product of a one-body matrix, given as the numbers of its block, and the density matrix, entry by entry.
ghost use Rattle.std.specs.Prelude.{◌≡◌, ◌≤◌, ◌<◌};
ghost use Rattle.lists.specs.Prelude.{length};
ghost use Rattle.lists.specs.Indexed.{all_below};
ghost use Rattle.complex.specs.Arithmetic.{cfinite};
ghost use Rattle.block.specs.Block.{entries_in};
ghost use Rattle.block.specs.Operations.{product, trace, all_finite};
ghost use Rattle.observables.specs.Density.{density, product_of};
ghost use Rattle.observables.specs.Passed.{Passed};

use crate::density;
use complex::Complex;

// Entry (a, b) of the matrix, whose block is read as a two-time function of one time.
fn observable_entry(values: &[f64], orbitals: usize, a: usize, b: usize) -> Complex
    requires { (a < orbitals) × (b < orbitals) × (orbitals ≤ 16) × (512 ≤ length values.now) }
    ensures { result ≡ entries_in orbitals values.now a b }
{
    density::stored(values, 1, orbitals, 0, 0, a, b)
}

// Entry (a, b) of the product.
fn entry(
    values: &[f64],
    lesser: &[f64],
    capacity: usize,
    orbitals: usize,
    time: usize,
    a: usize,
    b: usize,
) -> Complex
    requires passed { Passed capacity orbitals lesser.now time }
    requires a_lt_orbitals { (a < orbitals) × (b < orbitals) × (512 ≤ length values.now) }
    ensures { result ≡ product_of capacity orbitals values.now lesser.now time a b }
{
    let mut sum = Complex::ZERO;
    for k in 0..orbitals {
        let x = observable_entry(values, orbitals, a, k);
        let rho = density::entry(lesser, capacity, orbitals, time, k, b);
        sum = sum.plus(x.times(rho));
    }
    sum
}

// Whether row a of the product is finite. A loop, as a closure for `all` would need a `requires` of its own, that b is below n.
fn row_is_finite(
    values: &[f64],
    lesser: &[f64],
    capacity: usize,
    orbitals: usize,
    time: usize,
    a: usize,
) -> bool
    requires passed { Passed capacity orbitals lesser.now time }
    requires a_lt_orbitals { (a < orbitals) × (512 ≤ length values.now) }
    ensures { result ≡ all_below orbitals (λ b. cfinite (product_of capacity orbitals values.now lesser.now time a b)) }
{
    let mut all = true;
    for b in 0..orbitals {
        let z = entry(values, lesser, capacity, orbitals, time, a, b);
        all = all & z.is_finite();
    }
    all
}

// Whether all entries of the product are finite.
pub(crate) fn is_finite(
    values: &[f64],
    lesser: &[f64],
    capacity: usize,
    orbitals: usize,
    time: usize,
) -> bool
    requires passed { Passed capacity orbitals lesser.now time }
    requires in_bounds { 512 ≤ length values.now }
    ensures { result ≡ all_finite orbitals orbitals (product_of capacity orbitals values.now lesser.now time) }
{
    let mut all = true;
    for a in 0..orbitals {
        let row = row_is_finite(values, lesser, capacity, orbitals, time, a);
        all = all & row;
    }
    all
}

// The sum of the product's diagonal.
pub(crate) fn trace(
    values: &[f64],
    lesser: &[f64],
    capacity: usize,
    orbitals: usize,
    time: usize,
) -> Complex
    requires passed { Passed capacity orbitals lesser.now time }
    requires in_bounds { 512 ≤ length values.now }
    ensures { result ≡ trace orbitals (product_of capacity orbitals values.now lesser.now time) }
{
    let mut sum = Complex::ZERO;
    for a in 0..orbitals {
        sum = sum.plus(entry(values, lesser, capacity, orbitals, time, a, a));
    }
    sum
}
