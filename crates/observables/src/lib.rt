// One-body observables of a lesser function (document 01, observables), in a slice laid out for a capacity of points (document 02, L1): the meaning of each
// call is in specs/.
#![tactic(auto)]

pub mod checks;
mod density;
pub mod flow;
mod measure;
mod product;

ghost use Rattle.std.specs.Prelude.{◌≡◌};
ghost use Rattle.observables.specs.Calls.{density_matrix, particle_number, one_body_expectation, bond_flow_into};
ghost use Rattle.observables.specs.Measured.{outcome};

use checks::check_lesser;
use complex::Complex;
use matrix::DenseMatrix;
use refusal::Refusal;
use refusal::checks::time_below;
use two_time::capacity::Shape;

// An observable's answer (document 01, "How to write each place"). It is an enum of its own, as that paper names its three cases: a `Result` has two.
#[derive(Clone, Copy)]
pub enum Observed {
    // The number; a bond flow may be infinite or a NaN.
    Number(f64),
    // Number 14: the imaginary part, whose size is above the tolerance.
    NotReal(f64),
    // Any other refusal.
    Refused(Refusal),
}

impl From<Result<f64, Refusal>> for Observed {
    ghost from_gives = { λ measured observed. observed ≡ outcome measured };

    #[tactic(auto, unfolding(crate::specs::Measured::outcome))]
    fn from(measured: Result<f64, Refusal>) -> Observed {
        match measured {
            Ok(x) => Observed::Number(x),
            Err(r) if r.number == 14 => Observed::NotReal(r.part),
            Err(r) => Observed::Refused(r),
        }
    }
}

// The one-particle density matrix rho(t) = -i G^<(t,t).
#[tactic(auto, unfolding(crate::specs::Calls::density_matrix, matrix::specs::Dense::checked))]
pub fn density_matrix(
    lesser: &[f64],
    shape: Shape,
    time_index: usize,
) -> Result<DenseMatrix, Refusal>
    ensures { result ≡ density_matrix shape.capacity shape.points shape.orbitals lesser.now time_index }
{
    check_lesser(lesser, shape)?;
    time_below(time_index, shape.points)?;
    Ok(density::block(lesser, shape.capacity, shape.orbitals, time_index))
}

// Tr rho, which is to be finite, and real within the tolerance.
#[tactic(auto, using(crate::proofs::Outcomes::number_outcome))]
pub fn particle_number(lesser: &[f64], shape: Shape, time_index: usize, tolerance: f64) -> Observed
    ensures { result ≡ particle_number shape.capacity shape.points shape.orbitals lesser.now time_index tolerance }
{
    Observed::from(measure::particle_number(lesser, shape, time_index, tolerance))
}

// Tr[O rho] of a one-body matrix O, which is to be finite, and real within the tolerance.
#[tactic(auto, using(crate::proofs::Outcomes::expectation_outcome))]
pub fn one_body_expectation(
    lesser: &[f64],
    shape: Shape,
    time_index: usize,
    observable: DenseMatrix,
    tolerance: f64,
) -> Observed
    ensures { result ≡ one_body_expectation shape.capacity shape.points shape.orbitals lesser.now time_index observable tolerance }
{
    let measured = measure::one_body_expectation(lesser, shape, time_index, &observable, tolerance);
    Observed::from(measured)
}

// The flow into orbital a from b, J = 2 q/hbar Im[h_ab rho_ba], with hopping_ab and charge_over_hbar = q/hbar.
#[tactic(auto, using(crate::proofs::Outcomes::flow_outcome))]
pub fn bond_flow_into(
    lesser: &[f64],
    shape: Shape,
    time_index: usize,
    a: usize,
    b: usize,
    hopping_ab: Complex,
    charge_over_hbar: f64,
) -> Observed
    ensures { result ≡ bond_flow_into shape.capacity shape.points shape.orbitals lesser.now time_index a b hopping_ab charge_over_hbar }
{
    Observed::from(measure::bond_flow(
        lesser,
        shape,
        time_index,
        a,
        b,
        hopping_ab,
        charge_over_hbar,
    ))
}
