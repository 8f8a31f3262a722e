// Checks 1, 2, 3, 16 and 7 of a lesser function, and of a block beside it (document 01, "Questions in order"; document 02, L1).
ghost use Rattle.std.specs.Prelude.{◌≡◌};
ghost use Rattle.observables.specs.Calls.{lesser_checks, lesser_block_checks};

use matrix::DenseMatrix;
use refusal::Verdict;
use refusal::checks::finite_entries;
use two_time::capacity::{Shape, check_block_sizes, check_points};
use two_time::checks::has_length;

#[tactic(auto, unfolding(crate::specs::Calls::lesser_checks))]
pub fn check_lesser(lesser: &[f64], shape: Shape) -> Verdict
    ensures { result ≡ lesser_checks shape.capacity shape.points shape.orbitals lesser.now }
{
    check_points(0, lesser, shape)
}

// All five checks of both, the block by its rows, columns and numbers. `check_points` asks the function's sizes again, which passed.
pub(crate) fn check_lesser_block(lesser: &[f64], shape: Shape, block: &DenseMatrix) -> Verdict
    ensures { result ≡ lesser_block_checks shape.capacity shape.points shape.orbitals lesser.now block.now }
{
    let rows = block.rows;
    let columns = block.columns;
    let square = (rows == shape.orbitals) & (columns == shape.orbitals);
    let fits = has_length(shape.capacity, shape.orbitals, lesser) & square;
    check_block_sizes(shape, rows, columns, fits)?;
    check_points(0, lesser, shape)?;
    finite_entries(1, &block.values, 2 * (rows * columns))
}
