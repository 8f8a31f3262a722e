// The density matrix rho(t) = -i G^<(t,t), entry by entry.
ghost use Rattle.std.specs.Prelude.{◌≡◌, ◌*◌, ◌<◌, ◌≤◌};
ghost use Rattle.lists.specs.Prelude.{length};
ghost use Rattle.complex.specs.Filling.{cells};
ghost use Rattle.matrix.specs.Dense.{block_of};
ghost use Rattle.block.specs.Operations.{trace};
ghost use Rattle.two_time.specs.Layout.{read_as, length_of};
ghost use Rattle.two_time.specs.Places.{Placed};
ghost use Rattle.observables.specs.Density.{density, density_of};
ghost use Rattle.observables.specs.Passed.{Passed};

use complex::Complex;
use matrix::DenseMatrix;
use two_time::layout::read;

// Entry (a, b) of block (t, u), which the slice holds.
pub(crate) fn stored(
    xs: &[f64],
    stride: usize,
    orbitals: usize,
    t: usize,
    u: usize,
    a: usize,
    b: usize,
) -> Complex
    requires placed { Placed stride orbitals t u a b }
    requires orbitals_in_bounds { length_of stride orbitals ≤ length xs.now }
    ensures { result ≡ read_as stride orbitals xs.now t u a b }
{
    // Zero is never taken: the entry is there.
    read(xs, stride, orbitals, t, u, a, b).unwrap_or(Complex::ZERO)
}

// Entry (a, b) of the density.
pub(crate) fn entry(
    lesser: &[f64],
    capacity: usize,
    orbitals: usize,
    time: usize,
    a: usize,
    b: usize,
) -> Complex
    requires passed { Passed capacity orbitals lesser.now time }
    requires a_lt_orbitals { (a < orbitals) × (b < orbitals) }
    ensures { result ≡ density_of capacity orbitals lesser.now time a b }
{
    Complex::MINUS_I.times(stored(lesser, capacity, orbitals, time, time, a, b))
}

// The sum of the diagonal.
pub(crate) fn trace(lesser: &[f64], capacity: usize, orbitals: usize, time: usize) -> Complex
    requires { Passed capacity orbitals lesser.now time }
    ensures { result ≡ trace orbitals (density_of capacity orbitals lesser.now time) }
{
    let mut sum = Complex::ZERO;
    for a in 0..orbitals {
        sum = sum.plus(entry(lesser, capacity, orbitals, time, a, a));
    }
    sum
}

// Writes row a, its n entries.
fn row(lesser: &[f64], capacity: usize, orbitals: usize, time: usize, a: usize, out: &mut [f64])
    requires passed { Passed capacity orbitals lesser.now time }
    requires a_lt_orbitals { (a < orbitals) × (length out.old ≡ 2 * orbitals) }
    ensures { out.new ≡ cells orbitals (density_of capacity orbitals lesser.now time a) }
{
    for b in 0..orbitals {
        let z = entry(lesser, capacity, orbitals, time, a, b);
        out[2 * b] = z.re;
        out[2 * b + 1] = z.im;
    }
}

// All entries as one block, with +0 beyond them.
pub(crate) fn block(lesser: &[f64], capacity: usize, orbitals: usize, time: usize) -> DenseMatrix
    requires { Passed capacity orbitals lesser.now time }
    ensures { result ≡ block_of orbitals orbitals (density_of capacity orbitals lesser.now time) }
{
    let mut values = [0.0; 512];
    let width = 2 * orbitals;
    for a in 0..orbitals {
        let start = a * width;
        let end = start + width;
        row(lesser, capacity, orbitals, time, a, &mut values[start..end]);
    }
    DenseMatrix {
        rows: orbitals,
        columns: orbitals,
        values,
    }
}
