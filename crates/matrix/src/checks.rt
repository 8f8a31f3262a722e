// Checks 1, 2, 3 and 7 of the blocks that a call is given (document 01, matrix), check by check and not block by block.
ghost use Rattle.std.specs.Prelude.{◌≡◌, ◌*◌};
ghost use Rattle.lists.specs.Prelude.{min};
ghost use Rattle.matrix.specs.Calls.{shape_of, block_checks, pair_checks};

use crate::DenseMatrix;
use refusal::Verdict;
use refusal::checks::{finite_entries, fitting, not_empty, within_block};

// How many numbers a block's entries have. Rows and columns are cut to their limit, so that the product fits.
pub(crate) fn count(rows: usize, columns: usize) -> usize
    ensures { result ≡ 2 * (min rows 16 * min columns 16) }
{
    2 * (rows.min(16) * columns.min(16))
}

// Checks 1, 2 and 3 of one block.
pub(crate) fn shape(fits: bool, rows: usize, columns: usize) -> Verdict
    ensures { result ≡ shape_of fits rows columns }
{
    not_empty(rows, columns)?;
    within_block(rows, columns)?;
    fitting(fits)
}

#[tactic(auto, unfolding(crate::specs::Calls::block_checks))]
pub(crate) fn check_block(fits: bool, x: &DenseMatrix) -> Verdict
    ensures { result ≡ block_checks fits x.now }
{
    shape(fits, x.rows, x.columns)?;
    finite_entries(0, &x.values, count(x.rows, x.columns))
}

// The same of two blocks, whose shapes fit or not.
#[tactic(auto, unfolding(crate::specs::Calls::pair_checks))]
pub(crate) fn check_pair(fits: bool, x: &DenseMatrix, y: &DenseMatrix) -> Verdict
    ensures { result ≡ pair_checks fits x.now y.now }
{
    not_empty(x.rows, x.columns)?;
    not_empty(y.rows, y.columns)?;
    within_block(x.rows, x.columns)?;
    within_block(y.rows, y.columns)?;
    fitting(fits)?;
    finite_entries(0, &x.values, count(x.rows, x.columns))?;
    finite_entries(1, &y.values, count(y.rows, y.columns))
}
