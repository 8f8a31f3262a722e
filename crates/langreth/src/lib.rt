// The real-time Langreth rules of a contour product (document 01, Langreth): the meaning of the call is in specs/.
#![tactic(auto)]

mod checks;
mod components;

ghost use Rattle.std.specs.Prelude.{◌≡◌};
ghost use Rattle.langreth.specs.Calls.{components_of, langreth_product};

use checks::check_inputs;
use components::{Operand, work};
use refusal::{Refusal, Verdict};
use two_time::checks::all_fit;
use two_time::layout::clear;

// The Langreth product of two functions by their components: C^R = A^R∘B^R, C^A = A^A∘B^A, C^< = A^R∘B^< + A^<∘B^A, C^> alike. Checks 1
// to 7, then 10. At most 4·N³ + N(N+1)(N+2)/3 − 2·N products of blocks.
pub fn langreth_product(
    times: &[f64],
    left_retarded: &[f64],
    left_advanced: &[f64],
    left_lesser: &[f64],
    left_greater: &[f64],
    right_retarded: &[f64],
    right_advanced: &[f64],
    right_lesser: &[f64],
    right_greater: &[f64],
    points: usize,
    orbitals: usize,
    retarded: &mut [f64],
    advanced: &mut [f64],
    lesser: &mut [f64],
    greater: &mut [f64],
) -> Verdict
    ensures { let product = langreth_product points orbitals times.now
        (components_of left_retarded.now left_advanced.now left_lesser.now left_greater.now)
        (components_of right_retarded.now right_advanced.now right_lesser.now right_greater.now)
        (components_of retarded.old advanced.old lesser.old greater.old) in
        (result ≡ product.answer)
        × (retarded.new ≡ product.out.retarded)
        × (advanced.new ≡ product.out.advanced)
        × (lesser.new ≡ product.out.lesser)
        × (greater.new ≡ product.out.greater) }
{
    let left = Operand {
        retarded: left_retarded,
        advanced: left_advanced,
        lesser: left_lesser,
        greater: left_greater,
    };
    let right = Operand {
        retarded: right_retarded,
        advanced: right_advanced,
        lesser: right_lesser,
        greater: right_greater,
    };
    let outputs_fit = all_fit(retarded, advanced, lesser, greater, points, orbitals);
    check_inputs(times, left, right, points, orbitals, outputs_fit)?;
    if work(
        times, left, right, points, orbitals, retarded, advanced, lesser, greater,
    )
    .is_err()
    {
        clear(retarded);
        clear(advanced);
        clear(lesser);
        clear(greater);
        return Err(Refusal::by(10));
    }
    Ok(())
}
