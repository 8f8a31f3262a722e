// The operations on blocks. A block is a slice of its numbers, and its rows and columns among the words; it holds NaNs beyond the numbers.
use crate::calls::Blocks;
use crate::lent::{Head, Lent};
use crate::show::{self, Show};
use crate::words::word;
use complex::Complex;
use matrix::DenseMatrix;
use std::io::{self, Read, Write};

pub(crate) fn block(input: &mut impl Read, numbers: &[f64]) -> DenseMatrix {
    let rows = word(input);
    let columns = word(input);
    let mut values = [f64::NAN; 512];
    let count = numbers.len().min(512);
    values[..count].copy_from_slice(&numbers[..count]);
    DenseMatrix {
        rows,
        columns,
        values,
    }
}

// A number by its parts.
pub(crate) fn scalar(input: &mut impl Read) -> Complex {
    Complex::new(word(input), word(input))
}

// The identity times a block.
fn identity_times(input: &mut impl Read, out: &mut impl Write, numbers: &[f64]) -> io::Result<()> {
    let unit = DenseMatrix::identity(word(input)).unwrap_or(DenseMatrix::NONE);
    show::block(out, unit.multiply(block(input, numbers)))
}

// The adjoint of a block plus the block.
fn adjoint_plus(a: DenseMatrix) -> DenseMatrix {
    let flipped = a.adjoint().unwrap_or(DenseMatrix::NONE);
    flipped.add(a).unwrap_or(DenseMatrix::NONE)
}

// The numbers of the blocks are the operands 1 and 2. A size stands before the shape of its block, a factor, a row and a column after it.
pub(crate) fn call(
    input: &mut impl Read,
    out: &mut impl Write,
    head: Head,
    blocks: Blocks,
    lent: &Lent,
) -> io::Result<()> {
    let x = lent.part(1);
    let y = lent.part(2);
    match blocks {
        Blocks::FromNumbers => show::block(
            out,
            DenseMatrix::from_numbers(word(input), word(input), x),
        ),
        Blocks::FromScalar => show::block(out, DenseMatrix::from_scalar(scalar(input))),
        Blocks::Identity => show::block(out, DenseMatrix::identity(word(input))),
        Blocks::Zero => show::block(out, DenseMatrix::zero(word(input))),
        Blocks::Adjoint => show::block(out, block(input, x).adjoint()),
        Blocks::Scale => show::block(out, block(input, x).scale(scalar(input))),
        Blocks::Multiply => show::block(out, block(input, x).multiply(block(input, y))),
        Blocks::Add => show::block(out, block(input, x).add(block(input, y))),
        Blocks::Subtract => show::block(out, block(input, x).subtract(block(input, y))),
        Blocks::Trace => block(input, x).trace().show(out),
        Blocks::Get => block(input, x).get(word(input), word(input)).show(out),
        Blocks::MaxDifference => block(input, x).max_difference(block(input, y)).show(out),
        Blocks::IsHermitian => block(input, x).is_hermitian(head.tolerance).show(out),
        Blocks::IdentityTimes => identity_times(input, out, x),
        Blocks::AdjointPlusIsHermitian => adjoint_plus(block(input, x))
            .is_hermitian(head.tolerance)
            .show(out),
    }
}
