// The identities of the report: what each leaves at an entry, and of which places it speaks.
ghost use Rattle.std.specs.Prelude.{◌≡◌, ◌≤◌};
ghost use Rattle.lists.specs.Prelude.{length};
ghost use Rattle.complex.specs.Arithmetic.{minus_i};
ghost use Rattle.block.specs.Operations.{identity, scaled, subtracted};
ghost use Rattle.two_time.specs.Layout.{read_as, length_of};
ghost use Rattle.two_time.specs.Places.{Placed};
ghost use Rattle.report.specs.Residuals.{minus_mirror, counted};
ghost use Rattle.report.specs.Components.{passed_by, left_by};

use crate::components::Components;
use complex::Complex;

// An identity of the components, by its residual in the report.
#[derive(Clone, Copy)]
pub(crate) enum Identity {
    RetardedCausality,
    AdvancedCausality,
    AdvancedAdjoint,
    LesserAntihermiticity,
    GreaterAntihermiticity,
    Spectral,
    EqualTime,
}

const MINUS_ONE: Complex = Complex { re: -1.0, im: 0.0 };

// Entry (a, b) of block (t, u). Its place is known to lie in the slice, so it is not tested again.
fn entry(
    xs: &[f64],
    points: usize,
    orbitals: usize,
    t: usize,
    u: usize,
    a: usize,
    b: usize,
) -> Complex
    requires placed { Placed points orbitals t u a b }
    requires orbitals_in_bounds { length_of points orbitals ≤ length xs.now }
    ensures { result ≡ read_as points orbitals xs.now t u a b }
{
    let at = 2 * (((t * points + u) * orbitals + a) * orbitals + b);
    Complex::new(xs[at], xs[at + 1])
}

// Entry (a, b) of x(t,u) - y(t,u).
#[tactic(auto, unfolding(block::specs::Operations::subtracted))]
fn difference(
    x: &[f64],
    y: &[f64],
    points: usize,
    orbitals: usize,
    t: usize,
    u: usize,
    a: usize,
    b: usize,
) -> Complex
    requires placed { Placed points orbitals t u a b }
    requires orbitals_in_bounds { (length_of points orbitals ≤ length x.now) × (length_of points orbitals ≤ length y.now) }
    ensures { result ≡ subtracted (read_as points orbitals x.now t u) (read_as points orbitals y.now t u) a b }
{
    let left = entry(x, points, orbitals, t, u, a, b);
    left.minus(entry(y, points, orbitals, t, u, a, b))
}

// Entry (a, b) of x(t,u) less minus the adjoint of x(u,t).
fn antihermitian(
    x: &[f64],
    points: usize,
    orbitals: usize,
    t: usize,
    u: usize,
    a: usize,
    b: usize,
) -> Complex
    requires placed { Placed points orbitals t u a b }
    requires orbitals_in_bounds { length_of points orbitals ≤ length x.now }
    ensures { result ≡ minus_mirror (read_as points orbitals x.now) t u a b }
{
    let mirror = entry(x, points, orbitals, u, t, b, a).conj();
    let here = entry(x, points, orbitals, t, u, a, b);
    here.minus(mirror.times(MINUS_ONE))
}

// Entry (a, b) of -i times the identity.
fn minus_i_identity(a: usize, b: usize) -> Complex
    ensures { result ≡ scaled minus_i identity a b }
{
    if a == b {
        Complex::MINUS_I
    } else {
        Complex::ZERO
    }
}

// Entry (a, b) of what the identity leaves at (t, u).
#[tactic(auto, unfolding(crate::specs::Residuals::deviation_of, block::specs::Operations::subtracted, block::specs::Operations::adjoint))]
pub(crate) fn deviation(
    identity: Identity,
    components: Components,
    t: usize,
    u: usize,
    a: usize,
    b: usize,
) -> Complex
    requires placed { Placed components.points components.orbitals t u a b }
    requires passed { passed_by components }
    ensures { result ≡ left_by components.entry identity t u a b }
{
    let Components {
        retarded,
        advanced,
        lesser,
        greater,
        points,
        orbitals,
    } = components;
    match identity {
        Identity::RetardedCausality => entry(retarded, points, orbitals, t, u, a, b),
        Identity::AdvancedCausality => entry(advanced, points, orbitals, t, u, a, b),
        Identity::AdvancedAdjoint => {
            let mirror = entry(retarded, points, orbitals, u, t, b, a).conj();
            entry(advanced, points, orbitals, t, u, a, b).minus(mirror)
        }
        Identity::LesserAntihermiticity => antihermitian(lesser, points, orbitals, t, u, a, b),
        Identity::GreaterAntihermiticity => antihermitian(greater, points, orbitals, t, u, a, b),
        Identity::Spectral => {
            let causal = difference(retarded, advanced, points, orbitals, t, u, a, b);
            causal.minus(difference(greater, lesser, points, orbitals, t, u, a, b))
        }
        Identity::EqualTime => {
            let jump = difference(greater, lesser, points, orbitals, t, u, a, b);
            jump.minus(minus_i_identity(a, b))
        }
    }
}

// Whether the identity speaks of the place (t, u).
#[tactic(auto, unfolding(crate::specs::Residuals::counted))]
pub(crate) fn counts(identity: Identity, t: usize, u: usize) -> bool
    ensures { result ≡ counted identity t u }
{
    match identity {
        Identity::RetardedCausality => t < u,
        Identity::AdvancedCausality => u < t,
        Identity::EqualTime => t == u,
        Identity::AdvancedAdjoint
        | Identity::LesserAntihermiticity
        | Identity::GreaterAntihermiticity
        | Identity::Spectral => true,
    }
}
