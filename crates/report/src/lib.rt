// The consistency report of the four components (document 01, report): the meaning of each call is in specs/.
#![tactic(auto)]

mod checks;
mod components;
mod identities;
mod residuals;

ghost use Rattle.std.specs.Prelude.{◌≡◌};
ghost use Rattle.report.specs.Calls.{residuals_of, consistency_report, is_consistent};

use checks::{check_inputs, difference_finite};
use components::Components;
use refusal::Refusal;
use refusal::checks::{finite_work, valid_tolerance};
use residuals::residuals;

// The largest violation of each identity, by norm.
#[derive(Clone, Copy)]
pub struct ConsistencyReport {
    // Retarded support: places t < t'.
    pub retarded_causality: f64,
    // Advanced support: places t > t'.
    pub advanced_causality: f64,
    // G^A(t,t') is the adjoint of G^R(t',t).
    pub advanced_adjoint: f64,
    // G^<(t,t') is minus the adjoint of G^<(t',t).
    pub lesser_antihermiticity: f64,
    // G^>(t,t') is minus the adjoint of G^>(t',t).
    pub greater_antihermiticity: f64,
    // G^R - G^A is G^> - G^<.
    pub spectral_identity: f64,
    // Equal times: G^> - G^< at (t,t) is -i times the identity.
    pub equal_time: f64,
}

impl ConsistencyReport {
    // The seven residuals, in the order of the fields.
    pub fn residuals(self) -> [f64; 7]
        ensures { result ≡ residuals_of self }
    {
        [
            self.retarded_causality,
            self.advanced_causality,
            self.advanced_adjoint,
            self.lesser_antihermiticity,
            self.greater_antihermiticity,
            self.spectral_identity,
            self.equal_time,
        ]
    }

    // Whether all residuals are at most the tolerance. A NaN is not.
    #[tactic(auto, unfolding(crate::specs::Calls::is_consistent, refusal::specs::Verdict::decide))]
    pub fn is_consistent(self, tolerance: f64) -> Result<bool, Refusal>
        ensures { result ≡ is_consistent self tolerance }
    {
        valid_tolerance(tolerance)?;
        Ok(
            self.residuals()
                .iter()
                .all(|residual| *residual <= tolerance),
        )
    }
}

// The seven residuals of the components: at most 5·N·N·n·n norms. Only the differences G^R - G^A and G^> - G^< can give 10; a
// residual may be infinite.
pub fn consistency_report(
    retarded: &[f64],
    advanced: &[f64],
    lesser: &[f64],
    greater: &[f64],
    points: usize,
    orbitals: usize,
) -> Result<ConsistencyReport, Refusal>
    ensures { result ≡ consistency_report points orbitals retarded.now advanced.now lesser.now greater.now }
{
    let components = Components {
        retarded,
        advanced,
        lesser,
        greater,
        points,
        orbitals,
    };
    check_inputs(components)?;
    let causal = difference_finite(retarded, advanced);
    finite_work(causal & difference_finite(greater, lesser))?;
    Ok(residuals(components))
}
