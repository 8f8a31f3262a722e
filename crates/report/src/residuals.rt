// The residuals of the report: for each identity the largest norm of what it leaves, over the places that it speaks of.
ghost use Rattle.std.specs.Prelude.{◌≡◌, ◌<◌};
ghost use Rattle.complex.specs.Arithmetic.{larger};
ghost use Rattle.complex.specs.Sum.{largest_from};
ghost use Rattle.largest.specs.Larger.{FromZero};
ghost use Rattle.block.specs.Operations.{matrix_norm_max, cnorm};
ghost use Rattle.report.specs.Components.{passed_by, left_by, residual_by, largest_by, report_by};

use crate::ConsistencyReport;
use crate::components::Components;
use crate::identities::{Identity, counts, deviation};
use largest::larger_norm;

// The largest of `largest` and the norms in row a of what is left at (t, u).
#[tactic(auto, using(crate::proofs::Steps::one_more), unfolding(complex::specs::Sum::largest_from))]
fn row_norm(
    identity: Identity,
    components: Components,
    t: usize,
    u: usize,
    a: usize,
    largest: f64,
) -> f64
    requires t_lt_points { (t < components.points) × (u < components.points) × (a < components.orbitals) }
    requires passed { passed_by components }
    ensures { result ≡ largest_from largest components.entry.orbitals (λ b. cnorm (left_by components.entry identity t u a b)) }
{
    let mut most = largest;
    for b in 0..components.orbitals {
        let z = deviation(identity, components, t, u, a, b);
        most = larger_norm(most, z.re, z.im);
    }
    most
}

// The largest of `largest` and the norms of what is left at (t, u).
#[tactic(auto, using(crate::proofs::Steps::one_more), unfolding(block::specs::Operations::matrix_norm_max))]
fn block_norm(identity: Identity, components: Components, t: usize, u: usize, largest: f64) -> f64
    requires t_lt_points { (t < components.points) × (u < components.points) × FromZero largest }
    requires passed { passed_by components }
    ensures { result ≡ larger largest (matrix_norm_max components.entry.orbitals components.entry.orbitals (left_by components.entry identity t u)) }
{
    let mut most = largest;
    for a in 0..components.orbitals {
        most = row_norm(identity, components, t, u, a, most);
    }
    most
}

// The same where the place counts, and `largest` elsewhere.
#[tactic(auto, unfolding(crate::specs::Residuals::residual_at))]
fn place_norm(identity: Identity, components: Components, t: usize, u: usize, largest: f64) -> f64
    requires t_lt_points { (t < components.points) × (u < components.points) × FromZero largest }
    requires passed { passed_by components }
    ensures { result ≡ larger largest (residual_by components.entry identity t u) }
{
    if counts(identity, t, u) {
        return block_norm(identity, components, t, u, largest);
    }
    largest
}

// The largest of `largest` and what the places (t, u) of one t have.
#[tactic(auto, using(crate::proofs::Steps::one_more), unfolding(complex::specs::Sum::largest_from))]
fn time_norm(identity: Identity, components: Components, t: usize, largest: f64) -> f64
    requires t_lt_points { (t < components.points) × FromZero largest }
    requires passed { passed_by components }
    ensures { result ≡ largest_from largest components.entry.points (residual_by components.entry identity t) }
{
    let mut most = largest;
    for u in 0..components.points {
        most = place_norm(identity, components, t, u, most);
    }
    most
}

// The residual of an identity: the largest that a place has.
#[tactic(auto, using(crate::proofs::Steps::one_more), unfolding(crate::specs::Residuals::residual_of, complex::specs::Sum::largest_in))]
fn residual(identity: Identity, components: Components) -> f64
    requires { passed_by components }
    ensures { result ≡ largest_by components.entry identity }
{
    let mut largest = 0.0;
    for t in 0..components.points {
        largest = time_norm(identity, components, t, largest);
    }
    largest
}

// The seven residuals.
pub(crate) fn residuals(components: Components) -> ConsistencyReport
    requires { passed_by components }
    ensures { result ≡ report_by components.entry }
{
    ConsistencyReport {
        retarded_causality: residual(Identity::RetardedCausality, components),
        advanced_causality: residual(Identity::AdvancedCausality, components),
        advanced_adjoint: residual(Identity::AdvancedAdjoint, components),
        lesser_antihermiticity: residual(Identity::LesserAntihermiticity, components),
        greater_antihermiticity: residual(Identity::GreaterAntihermiticity, components),
        spectral_identity: residual(Identity::Spectral, components),
        equal_time: residual(Identity::EqualTime, components),
    }
}
