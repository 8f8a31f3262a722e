// What each observable measures: its questions in order, then the number. The first question that is answered no is the refusal.
ghost use Rattle.std.specs.Prelude.{◌≡◌};
ghost use Rattle.complex.specs.Arithmetic.{cfinite};
ghost use Rattle.refusal.specs.Verdict.{◌then◌, measured};
ghost use Rattle.refusal.specs.Checks.{finite_work, real_within};
ghost use Rattle.std.specs.Result.{result_and};
ghost use Rattle.observables.specs.Calls.{lesser_checks};
ghost use Rattle.observables.specs.Measured.{number_measured, expectation_measured, flow_measured};

use crate::checks::{check_lesser, check_lesser_block};
use crate::flow::flow_of;
use crate::{density, product};
use complex::Complex;
use matrix::DenseMatrix;
use refusal::Refusal;
use refusal::checks::{finite_work, real_within, time_below, valid_tolerance};
use two_time::capacity::Shape;

// 10, then 14: the real part of a trace that is finite, and real within the tolerance.
#[tactic(auto, unfolding(refusal::specs::Verdict::measured))]
fn real_part(z: Complex, tolerance: f64) -> Result<f64, Refusal>
    ensures { result ≡ measured (finite_work (cfinite z) then real_within tolerance z.im) z.re }
{
    finite_work(z.is_finite())?;
    real_within(tolerance, z.im)?;
    Ok(z.re)
}

// Tr rho.
#[tactic(auto, unfolding(refusal::specs::Verdict::measured))]
pub(crate) fn particle_number(
    lesser: &[f64],
    shape: Shape,
    time: usize,
    tolerance: f64,
) -> Result<f64, Refusal>
    ensures { result ≡ number_measured shape.capacity shape.points shape.orbitals lesser.now time tolerance }
{
    check_lesser(lesser, shape)?;
    valid_tolerance(tolerance)?;
    time_below(time, shape.points)?;
    let trace = density::trace(lesser, shape.capacity, shape.orbitals, time);
    real_part(trace, tolerance)
}

// Tr[O rho] of a one-body matrix O: n³ products O_ak·rho_kb for check 10, n² for the trace.
#[tactic(auto, unfolding(refusal::specs::Verdict::measured))]
pub(crate) fn one_body_expectation(
    lesser: &[f64],
    shape: Shape,
    time: usize,
    observable: &DenseMatrix,
    tolerance: f64,
) -> Result<f64, Refusal>
    ensures { result ≡ expectation_measured shape.capacity shape.points shape.orbitals lesser.now time observable.now tolerance }
{
    check_lesser_block(lesser, shape, observable)?;
    valid_tolerance(tolerance)?;
    time_below(time, shape.points)?;
    let values = &observable.values;
    finite_work(product::is_finite(values, lesser, shape.capacity, shape.orbitals, time))?;
    let trace = product::trace(values, lesser, shape.capacity, shape.orbitals, time);
    real_part(trace, tolerance)
}

// The flow into orbital a from b.
pub(crate) fn bond_flow(
    lesser: &[f64],
    shape: Shape,
    time: usize,
    a: usize,
    b: usize,
    hopping: Complex,
    charge: f64,
) -> Result<f64, Refusal>
    ensures { result ≡ result_and (lesser_checks shape.capacity shape.points shape.orbitals lesser.now) (flow_measured shape.capacity shape.points shape.orbitals lesser.now time a b hopping charge) }
{
    check_lesser(lesser, shape)?;
    flow_of(lesser, shape, time, a, b, hopping, charge)
}
