// The operations on blocks. A block is passed by its rows, its columns and 512 numbers, of which the first 2·rows·columns are its entries; one
// that is made is written to `shape` and `out`, also beside a refusal. That the parts of a block stand one by one in each function is the interface in C.
ghost use Rattle.std.specs.Prelude.{◌≡◌};
ghost use Rattle.matrix.specs.Calls.{from_numbers, from_scalar, zero_of, identity_of, adjoint_of, product_of, scale_of, add_of, subtract_of, trace_of, entry_of, max_difference_of, is_hermitian};
ghost use Rattle.answers.specs.Answer.{after_with, complex_numbers, measured_numbers, answers_numbers, answers_decision, block, after_block, answers_block};

use answers::blocks::{block, write_block};
use answers::decision::write_decision;
use answers::numbers::{Numbers, write_numbers};
use complex::Complex;
use matrix::DenseMatrix;

// The block of rows·columns entries, whose numbers stand by rows.
#[unsafe(no_mangle)]
pub extern "C" fn leechgrommet_block_from_numbers(
    rows: usize,
    columns: usize,
    numbers: &[f64],
    shape: &mut [usize],
    out: &mut [f64],
    places: &mut [usize],
    part: &mut [f64],
) -> u8
    ensures { after_block result shape out places part ≡ answers_block (from_numbers rows columns numbers.now) shape out places part }
{
    let made = DenseMatrix::from_numbers(rows, columns, numbers);
    write_block(made, shape, out, places, part)
}

// The 1 by 1 block of one number, by its two parts.
#[unsafe(no_mangle)]
pub extern "C" fn leechgrommet_block_from_scalar(
    real: f64,
    imaginary: f64,
    shape: &mut [usize],
    out: &mut [f64],
    places: &mut [usize],
    part: &mut [f64],
) -> u8
    ensures { after_block result shape out places part ≡ answers_block (from_scalar (record { re = real; im = imaginary })) shape out places part }
{
    let made = DenseMatrix::from_scalar(Complex::new(real, imaginary));
    write_block(made, shape, out, places, part)
}

// The zero block of that size.
#[unsafe(no_mangle)]
pub extern "C" fn leechgrommet_block_zero(
    size: usize,
    shape: &mut [usize],
    out: &mut [f64],
    places: &mut [usize],
    part: &mut [f64],
) -> u8
    ensures { after_block result shape out places part ≡ answers_block (zero_of size) shape out places part }
{
    let made = DenseMatrix::zero(size);
    write_block(made, shape, out, places, part)
}

// The identity of that size.
#[unsafe(no_mangle)]
pub extern "C" fn leechgrommet_block_identity(
    size: usize,
    shape: &mut [usize],
    out: &mut [f64],
    places: &mut [usize],
    part: &mut [f64],
) -> u8
    ensures { after_block result shape out places part ≡ answers_block (identity_of size) shape out places part }
{
    let made = DenseMatrix::identity(size);
    write_block(made, shape, out, places, part)
}

// The conjugate transpose.
#[unsafe(no_mangle)]
pub extern "C" fn leechgrommet_block_adjoint(
    rows: usize,
    columns: usize,
    values: &[f64; 512],
    shape: &mut [usize],
    out: &mut [f64],
    places: &mut [usize],
    part: &mut [f64],
) -> u8
    ensures { after_block result shape out places part ≡ answers_block (adjoint_of (block rows columns values.now)) shape out places part }
{
    let made = block(rows, columns, values).adjoint();
    write_block(made, shape, out, places, part)
}

// Each entry times a factor, by its two parts.
#[unsafe(no_mangle)]
pub extern "C" fn leechgrommet_block_scale(
    rows: usize,
    columns: usize,
    values: &[f64; 512],
    real: f64,
    imaginary: f64,
    shape: &mut [usize],
    out: &mut [f64],
    places: &mut [usize],
    part: &mut [f64],
) -> u8
    ensures { let x = block rows columns values.now in
        after_block result shape out places part ≡ answers_block (scale_of x (record { re = real; im = imaginary })) shape out places part }
{
    let made = block(rows, columns, values).scale(Complex::new(real, imaginary));
    write_block(made, shape, out, places, part)
}

// The matrix product left·right.
#[unsafe(no_mangle)]
pub extern "C" fn leechgrommet_block_multiply(
    left_rows: usize,
    left_columns: usize,
    left: &[f64; 512],
    right_rows: usize,
    right_columns: usize,
    right: &[f64; 512],
    shape: &mut [usize],
    out: &mut [f64],
    places: &mut [usize],
    part: &mut [f64],
) -> u8
    ensures { let a = block left_rows left_columns left.now in
        let b = block right_rows right_columns right.now in
        after_block result shape out places part ≡ answers_block (product_of a b) shape out places part }
{
    let a = block(left_rows, left_columns, left);
    let b = block(right_rows, right_columns, right);
    let made = a.multiply(b);
    write_block(made, shape, out, places, part)
}

// The sum.
#[unsafe(no_mangle)]
pub extern "C" fn leechgrommet_block_add(
    left_rows: usize,
    left_columns: usize,
    left: &[f64; 512],
    right_rows: usize,
    right_columns: usize,
    right: &[f64; 512],
    shape: &mut [usize],
    out: &mut [f64],
    places: &mut [usize],
    part: &mut [f64],
) -> u8
    ensures { let a = block left_rows left_columns left.now in
        let b = block right_rows right_columns right.now in
        after_block result shape out places part ≡ answers_block (add_of a b) shape out places part }
{
    let a = block(left_rows, left_columns, left);
    let b = block(right_rows, right_columns, right);
    let made = a.add(b);
    write_block(made, shape, out, places, part)
}

// The difference left − right.
#[unsafe(no_mangle)]
pub extern "C" fn leechgrommet_block_subtract(
    left_rows: usize,
    left_columns: usize,
    left: &[f64; 512],
    right_rows: usize,
    right_columns: usize,
    right: &[f64; 512],
    shape: &mut [usize],
    out: &mut [f64],
    places: &mut [usize],
    part: &mut [f64],
) -> u8
    ensures { let a = block left_rows left_columns left.now in
        let b = block right_rows right_columns right.now in
        after_block result shape out places part ≡ answers_block (subtract_of a b) shape out places part }
{
    let a = block(left_rows, left_columns, left);
    let b = block(right_rows, right_columns, right);
    let made = a.subtract(b);
    write_block(made, shape, out, places, part)
}

// The sum of the diagonal, by its two parts: finite, or 10.
#[unsafe(no_mangle)]
pub extern "C" fn leechgrommet_block_trace(
    rows: usize,
    columns: usize,
    values: &[f64; 512],
    value: &mut [f64],
    places: &mut [usize],
    part: &mut [f64],
) -> u8
    ensures { after_with result value places part ≡ answers_numbers (complex_numbers (trace_of (block rows columns values.now))) value places part }
{
    let answer = block(rows, columns, values).trace();
    write_numbers(Numbers::complex(answer), value, places, part)
}

// The entry in a row and a column, by its two parts.
#[unsafe(no_mangle)]
pub extern "C" fn leechgrommet_block_get(
    rows: usize,
    columns: usize,
    values: &[f64; 512],
    row: usize,
    column: usize,
    value: &mut [f64],
    places: &mut [usize],
    part: &mut [f64],
) -> u8
    ensures { let x = block rows columns values.now in
        after_with result value places part ≡ answers_numbers (complex_numbers (entry_of x row column)) value places part }
{
    let answer = block(rows, columns, values).get(row, column);
    write_numbers(Numbers::complex(answer), value, places, part)
}

// The largest norm of an entry of left less that of right, which may be infinite.
#[unsafe(no_mangle)]
pub extern "C" fn leechgrommet_block_max_difference(
    left_rows: usize,
    left_columns: usize,
    left: &[f64; 512],
    right_rows: usize,
    right_columns: usize,
    right: &[f64; 512],
    value: &mut [f64],
    places: &mut [usize],
    part: &mut [f64],
) -> u8
    ensures { let a = block left_rows left_columns left.now in
        let b = block right_rows right_columns right.now in
        after_with result value places part ≡ answers_numbers (measured_numbers (max_difference_of a b)) value places part }
{
    let a = block(left_rows, left_columns, left);
    let b = block(right_rows, right_columns, right);
    let answer = a.max_difference(b);
    write_numbers(Numbers::measured(answer), value, places, part)
}

// Whether the block is Hermitian within the tolerance times its largest part.
#[unsafe(no_mangle)]
pub extern "C" fn leechgrommet_block_is_hermitian(
    rows: usize,
    columns: usize,
    values: &[f64; 512],
    tolerance: f64,
    decided: &mut [u8],
    places: &mut [usize],
    part: &mut [f64],
) -> u8
    ensures { after_with result decided places part ≡ answers_decision (is_hermitian (block rows columns values.now) tolerance) decided places part }
{
    let answer = block(rows, columns, values).is_hermitian(tolerance);
    write_decision(answer, decided, places, part)
}
