// The checks that the report asks of the components (document 01, "Questions in order").
ghost use Rattle.std.specs.Prelude.{◌≡◌, ◌≤◌};
ghost use Rattle.lists.specs.Prelude.{length};
ghost use Rattle.report.specs.Components.{checks_by};
ghost use Rattle.report.specs.Differences.{difference_finite};

use crate::components::Components;
use complex::is_finite;
use refusal::Verdict;
use two_time::checks::{all_fit, check_operand, check_sizes};

// Checks 1, 2 and 3 of all components, then 7 of each.
pub(crate) fn check_inputs(components: Components) -> Verdict
    ensures { result ≡ checks_by components.entry }
{
    let Components {
        retarded,
        advanced,
        lesser,
        greater,
        points,
        orbitals,
    } = components;
    let fits = all_fit(retarded, advanced, lesser, greater, points, orbitals);
    check_sizes(points, orbitals, fits)?;
    check_operand(0, retarded)?;
    check_operand(1, advanced)?;
    check_operand(2, lesser)?;
    check_operand(3, greater)
}

// Check 10's question of one difference: whether x - y is finite, number by number. The loop counts, as the check left `all` over a zip of both open.
#[tactic(auto, using(crate::proofs::Steps::one_more), unfolding(crate::specs::Differences::difference_finite))]
pub(crate) fn difference_finite(x: &[f64], y: &[f64]) -> bool
    requires { length x.now ≤ length y.now }
    ensures { result ≡ difference_finite (length x.now) x.now y.now }
{
    let mut all = true;
    for i in 0..x.len() {
        all = all & is_finite(x[i] - y[i]);
    }
    all
}
