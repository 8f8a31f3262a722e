// A block as it is passed, and one that is made, by its rows and columns and its 512 numbers, also beside a refusal: there it has no rows and is +0 throughout.
ghost use Rattle.std.specs.Prelude.{◌≡◌};
ghost use Rattle.answers.specs.Answer.{block, after_block, answers_block};

use crate::{copy, with_output, write_answer};
use matrix::DenseMatrix;
use refusal::Refusal;

// A block as it is passed: rows, columns and 512 numbers.
pub fn block(rows: usize, columns: usize, values: &[f64; 512]) -> DenseMatrix
    ensures { result ≡ block rows columns values.now }
{
    DenseMatrix {
        rows,
        columns,
        values: *values,
    }
}

// The refusal's number, with the block in `shape` and `out`, where they are slices of two and 512; otherwise both stay as they were.
#[tactic(auto, unfolding(crate::specs::Answer::block_answer, crate::specs::Answer::block_written, crate::specs::Answer::written))]
pub fn write_block(
    made: Result<DenseMatrix, Refusal>,
    shape: &mut [usize],
    out: &mut [f64],
    places: &mut [usize],
    part: &mut [f64],
) -> u8
    ensures { after_block result shape out places part ≡ answers_block made shape out places part }
{
    let fits = shape.len() == 2 && out.len() == 512;
    match &made {
        Ok(block) => {
            if fits {
                copy(&[block.rows, block.columns], shape);
                copy(&block.values, out);
            }
            write_answer(with_output(fits, Ok(())), places, part)
        }
        Err(refusal) => {
            if fits {
                shape.fill(0);
                out.fill(0.0);
            }
            write_answer(with_output(fits, Err(*refusal)), places, part)
        }
    }
}
