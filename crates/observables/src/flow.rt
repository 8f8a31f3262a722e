// What a query of a bond flow is answered once the checks of the lesser function are passed, which the single call and a list of queries share
// (document 02, L6).
ghost use Rattle.std.specs.Prelude.{◌≡◌};
ghost use Rattle.two_time.specs.Layout.{stored_at};
ghost use Rattle.observables.specs.Query.{found};
ghost use Rattle.observables.specs.Measured.{flow_measured};

use complex::Complex;
use refusal::Refusal;
use refusal::checks::{finite_factors, orbital_below, time_below};
use two_time::capacity::Shape;
use two_time::layout::read;

// Entry (a, b) of block (t, t), zero where the slice has none: a slice that passed its checks has it.
fn found(lesser: &[f64], shape: Shape, time: usize, a: usize, b: usize) -> Complex
    ensures { result ≡ found (stored_at shape.capacity shape.orbitals lesser.now time time a b) }
{
    read(lesser, shape.capacity, shape.orbitals, time, time, a, b).unwrap_or(Complex::ZERO)
}

// 13, 12, 11, then the flow into orbital a from b.
#[tactic(auto, unfolding(refusal::specs::Verdict::measured))]
pub fn flow_of(
    lesser: &[f64],
    shape: Shape,
    time: usize,
    a: usize,
    b: usize,
    hopping: Complex,
    charge: f64,
) -> Result<f64, Refusal>
    ensures { result ≡ flow_measured shape.capacity shape.points shape.orbitals lesser.now time a b hopping charge }
{
    finite_factors(hopping, charge)?;
    orbital_below(a, shape.orbitals)?;
    orbital_below(b, shape.orbitals)?;
    time_below(time, shape.points)?;
    let rho_ba = Complex::MINUS_I.times(found(lesser, shape, time, b, a));
    Ok(2.0 * charge * hopping.times(rho_ba).im)
}
