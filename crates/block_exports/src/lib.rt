// The norm and the operations on blocks, for a program in C or Rust to link: `scripts/archive`. How an answer leaves is in `answers`.
#![tactic(auto)]

pub mod blocks;

ghost use Rattle.std.specs.Prelude.{◌≡◌};
ghost use Rattle.norm.specs.Norm.{norm};
ghost use Rattle.block_exports.specs.Chain.{chained};

use matrix::DenseMatrix;

#[unsafe(no_mangle)]
pub extern "C" fn leechgrommet_norm(re: f64, im: f64) -> f64
    ensures { result ≡ norm re im }
{
    norm::norm(re, im)
}

// For measuring, x ← x·y, so that no product can be left out: the first number of a·b·..·b, `turns` products of size by size blocks; of a
// block that was refused it is +0.
#[tactic(auto, using(crate::proofs::Steps::chain_none))]
#[unsafe(no_mangle)]
pub extern "C" fn leechgrommet_product_chain(a: &[f64], b: &[f64], size: usize, turns: usize) -> f64
    ensures { result ≡ chained a.now b.now size turns }
{
    let mut made = DenseMatrix::from_numbers(size, size, a);
    let y = DenseMatrix::from_numbers(size, size, b).unwrap_or(DenseMatrix::NONE);
    for _ in 0..turns {
        made = made.unwrap_or(DenseMatrix::NONE).multiply(y);
    }
    made.unwrap_or(DenseMatrix::NONE).values[0]
}
