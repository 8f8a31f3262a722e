// Checks 1 to 7 of a Langreth product (document 01, "Questions in order"): operands 0 to 3 are the left components, 4 to 7 the right.
ghost use Rattle.std.specs.Prelude.{◌≡◌, ◌++◌, ◌≤◌};
ghost use Rattle.lists.specs.Prelude.{List, Float};
ghost use Rattle.two_time.specs.Calls.{all_fit, operand_checks, input_checks};
ghost use Rattle.langreth.specs.Calls.{listed};
ghost use Rattle.langreth.specs.Operand.{held};

use crate::components::Operand;
use grid::check_grid;
use refusal::Verdict;
use two_time::checks::{all_fit, check_operand, check_sizes};

// Whether each component has its length.
fn fits(operand: Operand, points: usize, orbitals: usize) -> bool
    ensures { result ≡ all_fit points orbitals (listed (held operand.entry)) }
{
    all_fit(
        operand.retarded,
        operand.advanced,
        operand.lesser,
        operand.greater,
        points,
        orbitals,
    )
}

// 7, of the four components of one side, whose operands are numbered from `first` on.
fn entries(first: usize, operand: Operand) -> Verdict
    requires { first ≤ 4 }
    ensures { result ≡ operand_checks first (listed (held operand.entry)) }
{
    check_operand(first, operand.retarded)?;
    check_operand(first + 1, operand.advanced)?;
    check_operand(first + 2, operand.lesser)?;
    check_operand(first + 3, operand.greater)
}

// Checks 1 to 7, where `outputs_fit` says whether the outputs have their length.
pub(crate) fn check_inputs(
    times: &[f64],
    left: Operand,
    right: Operand,
    points: usize,
    orbitals: usize,
    outputs_fit: bool,
) -> Verdict
    ensures { (slices : List (List Float)) → outputs_fit ≡ all_fit points orbitals slices
        → result ≡ input_checks points orbitals times.now
        (listed (held left.entry)
        ++ listed (held right.entry)) slices }
{
    let left_fits = fits(left, points, orbitals);
    let right_fits = fits(right, points, orbitals);
    let all_fit = (times.len() == points) & (left_fits & (right_fits & outputs_fit));
    check_sizes(points, orbitals, all_fit)?;
    check_grid(times, points)?;
    entries(0, left)?;
    entries(4, right)
}
