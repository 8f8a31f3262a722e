// The entries of a block that an operation makes, over the numbers of its operands: one loop serves every operation.
ghost use Rattle.std.specs.Prelude.{◌≡◌, ◌+◌, ◌*◌, ◌≤◌, ◌<◌};
ghost use Rattle.lists.specs.Prelude.{length};
ghost use Rattle.lists.specs.Indexed.{all_below};
ghost use Rattle.lists.specs.Filling.{over};
ghost use Rattle.complex.specs.Arithmetic.{cfinite};
ghost use Rattle.complex.specs.Numbers.{entry_at};
ghost use Rattle.complex.specs.Filling.{cells};
ghost use Rattle.block.specs.Block.{lay_out};
ghost use Rattle.block.specs.Operations.{product, all_finite};
ghost use Rattle.matrix.specs.Dense.{entries_of};
ghost use Rattle.matrix.specs.Made.{made_of};

use crate::DenseMatrix;
use complex::Complex;

// What is made of a block x, or of blocks x and y. A case of an enum and not a closure: `made` then says in one contract what an entry is, where a closure would
// need a clause for it in each function that it is passed through.
#[derive(Clone, Copy)]
pub enum Operation {
    Zero,
    Identity,
    Adjoint,
    Product,
    Scale(Complex),
    Add,
    Subtract,
}

// The p-th complex number.
pub(crate) fn number(xs: &[f64], p: usize) -> Complex
    requires { 2 * p + 1 < length xs.now }
    ensures { result ≡ entry_at xs.now (2 * p) }
{
    Complex::new(xs[2 * p], xs[2 * p + 1])
}

// Entry (i, j) of a block.
pub(crate) fn entry(x: &DenseMatrix, i: usize, j: usize) -> Complex
    requires { (i < 16) × (j < 16) × (x.now.columns ≤ 16) }
    ensures { result ≡ entries_of x.now i j }
{
    number(&x.values, i * x.columns + j)
}

// Entry (i, j) of the product.
#[tactic(auto, using(crate::proofs::Steps::one_more), unfolding(block::specs::Operations::product))]
fn dot(x: &DenseMatrix, y: &DenseMatrix, i: usize, j: usize) -> Complex
    requires { (i < 16) × (j < 16) × (x.now.columns ≤ 16) × (y.now.columns ≤ 16) }
    ensures { result ≡ product x.now.columns (entries_of x.now) (entries_of y.now) i j }
{
    let mut sum = Complex::ZERO;
    for k in 0..x.columns {
        sum = sum.plus(entry(x, i, k).times(entry(y, k, j)));
    }
    sum
}

// Entry (i, j) of what the operation makes.
#[tactic(auto, unfolding(crate::specs::Made::made_by, block::specs::Operations::scaled, block::specs::Operations::added, block::specs::Operations::subtracted, block::specs::Operations::adjoint, block::specs::Operations::identity))]
fn made(op: Operation, x: &DenseMatrix, y: &DenseMatrix, i: usize, j: usize) -> Complex
    requires { (i < 16) × (j < 16) × (x.now.columns ≤ 16) × (y.now.columns ≤ 16) }
    ensures { result ≡ made_of op x.now y.now i j }
{
    match op {
        Operation::Zero => Complex::ZERO,
        Operation::Identity => { if i == j { Complex::ONE } else { Complex::ZERO } }
        Operation::Adjoint => entry(x, j, i).conj(),
        Operation::Product => dot(x, y, i, j),
        Operation::Scale(factor) => entry(x, i, j).times(factor),
        Operation::Add => entry(x, i, j).plus(entry(y, i, j)),
        Operation::Subtract => entry(x, i, j).minus(entry(y, i, j)),
    }
}

// Writes row i of what the operation makes, and answers whether all of it is finite. It counts, since a proof knows nothing of what is written through
// `chunks_exact_mut`.
fn fill_row(
    op: Operation,
    row: &mut [f64],
    x: &DenseMatrix,
    y: &DenseMatrix,
    columns: usize,
    i: usize,
) -> bool
    requires { (i < 16) × (columns ≤ 16) × (x.now.columns ≤ 16) × (y.now.columns ≤ 16) × (length row.old ≡ 2 * columns) }
    ensures { (result ≡ all_below columns (λ j. cfinite (made_of op x.now y.now i j)))
        × (row.new ≡ cells columns (made_of op x.now y.now i)) }
{
    let mut all = true;
    for j in 0..columns {
        let z = made(op, x, y, i, j);
        all = all & z.is_finite();
        row[2 * j] = z.re;
        row[2 * j + 1] = z.im;
    }
    all
}

// Writes the operation's rows·columns entries over the start of out, and answers whether all are finite.
pub(crate) fn fill(
    op: Operation,
    out: &mut [f64],
    x: &DenseMatrix,
    y: &DenseMatrix,
    rows: usize,
    columns: usize,
) -> bool
    requires { (rows ≤ 16) × (columns ≤ 16) × (x.now.columns ≤ 16) × (y.now.columns ≤ 16) × (512 ≤ length out.old) }
    ensures { (result ≡ all_finite rows columns (made_of op x.now y.now))
        × (out.new ≡ over out.old (lay_out rows columns (made_of op x.now y.now))) }
{
    let width = 2 * columns;
    let mut all = true;
    for i in 0..rows {
        let start = i * width;
        all = all & fill_row(op, &mut out[start..start + width], x, y, columns, i);
    }
    all
}
