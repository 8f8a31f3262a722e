// Dense complex matrices of at most 16 by 16 entries, by value (document 01, matrix).
#![tactic(auto)]

mod checks;
mod fill;
mod measure;

ghost use Rattle.std.specs.Prelude.{◌≡◌, ◌++◌, ◌-◌, ◌≤◌};
ghost use Rattle.lists.specs.Prelude.{true, false, length, replicate};
ghost use Rattle.complex.specs.Arithmetic.{plus_zero};
ghost use Rattle.refusal.specs.Verdict.{pass};
ghost use Rattle.matrix.specs.Made.{made_of, answer_of, combined_of, alike_of};
ghost use Rattle.matrix.specs.Dense.{no_block};
ghost use Rattle.matrix.specs.Calls.{shape_of, same_shape, from_numbers, from_scalar, zero_of, identity_of, adjoint_of, product_of, scale_of, add_of, subtract_of, trace_of, entry_of, max_difference_of, is_hermitian};

use complex::Complex;
use fill::Operation;
use refusal::checks::{finite_entries, finite_work, orbital_below, valid_tolerance};
use refusal::{Refusal, Verdict};

// rows·columns entries by rows, the real part before the imaginary. What stands beyond them changes nothing.
#[derive(Clone, Copy)]
pub struct DenseMatrix {
    pub rows: usize,
    pub columns: usize,
    pub values: [f64; 512],
}

// The block that an operation makes, of rows·columns entries: 10 where it is `tested` and not finite.
fn answer(
    op: Operation,
    tested: bool,
    rows: usize,
    columns: usize,
    x: &DenseMatrix,
    y: &DenseMatrix,
) -> Result<DenseMatrix, Refusal>
    requires { (rows ≤ 16) × (columns ≤ 16) × (x.now.columns ≤ 16) × (y.now.columns ≤ 16) }
    ensures { result ≡ answer_of pass tested rows columns (made_of op x.now y.now) }
{
    let mut values = [0.0; 512];
    let finite = fill::fill(op, &mut values, x, y, rows, columns);
    finite_work(!tested | finite)?;
    Ok(DenseMatrix {
        rows,
        columns,
        values,
    })
}

// The block that an operation makes of a size alone: checks 1 and 2.
#[tactic(auto, unfolding(crate::specs::Made::answer_of, crate::specs::Dense::checked))]
fn constant(op: Operation, size: usize) -> Result<DenseMatrix, Refusal>
    ensures { result ≡ answer_of (shape_of true size size) false size size (made_of op no_block no_block) }
{
    checks::shape(true, size, size)?;
    let none = DenseMatrix::NONE;
    answer(op, false, size, size, &none, &none)
}

// What an operation makes of two blocks whose shapes fit or not: checks 1, 2, 3, 7, then 10.
#[tactic(auto, unfolding(crate::specs::Made::combined_of, crate::specs::Made::answer_of, crate::specs::Dense::checked))]
fn combined(
    op: Operation,
    fits: bool,
    x: &DenseMatrix,
    y: &DenseMatrix,
) -> Result<DenseMatrix, Refusal>
    ensures { result ≡ combined_of op fits x.now y.now }
{
    checks::check_pair(fits, x, y)?;
    answer(op, true, x.rows, y.columns, x, y)
}

// The same of two blocks of one shape.
fn alike(op: Operation, x: &DenseMatrix, y: &DenseMatrix) -> Result<DenseMatrix, Refusal>
    ensures { result ≡ alike_of op x.now y.now }
{
    combined(op, same_shape(x, y), x, y)
}

fn same_shape(x: &DenseMatrix, y: &DenseMatrix) -> bool
    ensures { result ≡ same_shape x.now y.now }
{
    (x.rows == y.rows) & (x.columns == y.columns)
}

// The numbers, then +0.
fn padded(numbers: &[f64]) -> [f64; 512]
    requires { length numbers.now ≤ 512 }
    ensures { result ≡ numbers.now ++ replicate (512 - length numbers.now) plus_zero }
{
    let mut values = [0.0; 512];
    values[..numbers.len()].copy_from_slice(numbers);
    values
}

impl DenseMatrix {
    // No rows, and +0 throughout: the block beside a refusal.
    pub const NONE: DenseMatrix = DenseMatrix {
        rows: 0,
        columns: 0,
        values: [0.0; 512],
    };

    // The block of rows·columns entries, whose numbers stand by rows.
    #[tactic(auto, unfolding(crate::specs::Calls::from_numbers, crate::specs::Dense::checked))]
    pub fn from_numbers(
        rows: usize,
        columns: usize,
        numbers: &[f64],
    ) -> Result<DenseMatrix, Refusal>
        ensures { result ≡ from_numbers rows columns numbers.now }
    {
        let count = checks::count(rows, columns);
        checks::shape(numbers.len() == count, rows, columns)?;
        finite_entries(0, numbers, count)?;
        Ok(DenseMatrix {
            rows,
            columns,
            values: padded(numbers),
        })
    }

    // The 1 by 1 block of a number.
    #[tactic(auto, unfolding(crate::specs::Calls::from_scalar))]
    pub fn from_scalar(value: Complex) -> Result<DenseMatrix, Refusal>
        ensures { result ≡ from_scalar value }
    {
        DenseMatrix::from_numbers(1, 1, &[value.re, value.im])
    }

    // The zero matrix of that size.
    #[tactic(auto, unfolding(crate::specs::Calls::zero_of, crate::specs::Made::made_by, crate::specs::Made::answer_of, refusal::specs::Checks::finite_work, refusal::specs::Verdict::ask))]
    pub fn zero(size: usize) -> Result<DenseMatrix, Refusal>
        ensures { result ≡ zero_of size }
    {
        constant(Operation::Zero, size)
    }

    // The identity matrix of that size.
    #[tactic(auto, unfolding(crate::specs::Calls::identity_of, crate::specs::Made::made_by, crate::specs::Made::answer_of, refusal::specs::Checks::finite_work, refusal::specs::Verdict::ask))]
    pub fn identity(size: usize) -> Result<DenseMatrix, Refusal>
        ensures { result ≡ identity_of size }
    {
        constant(Operation::Identity, size)
    }

    // The conjugate transpose.
    #[tactic(auto, unfolding(crate::specs::Calls::adjoint_of, crate::specs::Calls::finite_block, crate::specs::Made::answer_of, crate::specs::Made::made_by, crate::specs::Dense::checked))]
    pub fn adjoint(self) -> Result<DenseMatrix, Refusal>
        ensures { result ≡ adjoint_of self }
    {
        checks::check_block(true, &self)?;
        answer(
            Operation::Adjoint,
            false,
            self.columns,
            self.rows,
            &self,
            &self,
        )
    }

    // Each entry times the factor.
    #[tactic(auto, unfolding(crate::specs::Calls::scale_of, crate::specs::Calls::finite_block, crate::specs::Made::answer_of, crate::specs::Made::made_by, crate::specs::Dense::checked))]
    pub fn scale(self, factor: Complex) -> Result<DenseMatrix, Refusal>
        ensures { result ≡ scale_of self factor }
    {
        checks::check_block(true, &self)?;
        answer(
            Operation::Scale(factor),
            true,
            self.rows,
            self.columns,
            &self,
            &self,
        )
    }

    // The matrix product self·other: rows·inner·columns complex products.
    #[tactic(auto, unfolding(crate::specs::Calls::product_of, crate::specs::Calls::finite_block, crate::specs::Made::combined_of, crate::specs::Made::answer_of, crate::specs::Made::made_by))]
    pub fn multiply(self, other: DenseMatrix) -> Result<DenseMatrix, Refusal>
        ensures { result ≡ product_of self other }
    {
        combined(
            Operation::Product,
            self.columns == other.rows,
            &self,
            &other,
        )
    }

    #[tactic(auto, unfolding(crate::specs::Calls::add_of, crate::specs::Calls::finite_block, crate::specs::Made::alike_of, crate::specs::Made::answer_of, crate::specs::Made::made_by))]
    pub fn add(self, other: DenseMatrix) -> Result<DenseMatrix, Refusal>
        ensures { result ≡ add_of self other }
    {
        alike(Operation::Add, &self, &other)
    }

    #[tactic(auto, unfolding(crate::specs::Calls::subtract_of, crate::specs::Calls::finite_block, crate::specs::Made::alike_of, crate::specs::Made::answer_of, crate::specs::Made::made_by))]
    pub fn subtract(self, other: DenseMatrix) -> Result<DenseMatrix, Refusal>
        ensures { result ≡ subtract_of self other }
    {
        alike(Operation::Subtract, &self, &other)
    }

    // The sum of the diagonal: finite, or 10.
    #[tactic(auto, unfolding(crate::specs::Calls::trace_of, crate::specs::Calls::valued))]
    pub fn trace(self) -> Result<Complex, Refusal>
        ensures { result ≡ trace_of self }
    {
        checks::check_block(self.rows == self.columns, &self)?;
        let sum = measure::diagonal(&self);
        finite_work(sum.is_finite())?;
        Ok(sum)
    }

    // The entry in a row and a column.
    #[tactic(auto, unfolding(crate::specs::Calls::entry_of, crate::specs::Calls::valued))]
    pub fn get(self, row: usize, column: usize) -> Result<Complex, Refusal>
        ensures { result ≡ entry_of self row column }
    {
        checks::check_block(true, &self)?;
        orbital_below(row, self.rows)?;
        orbital_below(column, self.columns)?;
        Ok(fill::entry(&self, row, column))
    }

    // The largest norm of an entry of self less that of other, which is not checked and may be infinite.
    #[tactic(auto, unfolding(crate::specs::Calls::max_difference_of, refusal::specs::Verdict::measured))]
    pub fn max_difference(self, other: DenseMatrix) -> Result<f64, Refusal>
        ensures { result ≡ max_difference_of self other }
    {
        checks::check_pair(same_shape(&self, &other), &self, &other)?;
        Ok(measure::largest_difference(&self.values, &other.values, self.rows * self.columns))
    }

    // Whether the matrix is Hermitian within the tolerance times its largest part; one that is not square is not.
    #[tactic(auto, unfolding(crate::specs::Calls::is_hermitian, refusal::specs::Verdict::decide))]
    pub fn is_hermitian(self, tolerance: f64) -> Result<bool, Refusal>
        ensures { result ≡ is_hermitian self tolerance }
    {
        checks::check_block(true, &self)?;
        valid_tolerance(tolerance)?;
        if self.rows != self.columns {
            return Ok(false);
        }
        let threshold = tolerance * measure::largest_part(&self.values, self.rows * self.columns);
        Ok(measure::hermitian_within(&self, threshold))
    }
}
