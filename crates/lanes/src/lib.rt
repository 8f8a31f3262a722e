// Lanes of a group: the sums at neighbouring places of a row stand side by side. Lane p·n + b is column b of the group's place p; a row of lanes is 32
// numbers, real parts first and imaginary parts 16 later, so that a loop over lanes works on more than one at a time; sixteen rows, one for each row of
// a block, are 512 numbers. Here they are written out as blocks.
#![tactic(auto)]

ghost use Rattle.std.specs.Prelude.{◌≡◌, ◌||◌, ◌+◌, ◌*◌, ◌<◌, ◌≤◌};
ghost use Rattle.lists.specs.Prelude.{true, not, length, set};
ghost use Rattle.lists.specs.Indexed.{all_below, all_in};
ghost use Rattle.complex.specs.Arithmetic.{cfinite};
ghost use Rattle.complex.specs.Filling.{cells};
ghost use Rattle.block.specs.Block.{lay_out};
ghost use Rattle.lanes.specs.Lanes.{lane_at, laid_lanes, lanes_finite, written};
ghost use Rattle.lanes.specs.Writing.{checked_entry};

use complex::Complex;
use two_time::layout::clear;
use two_time::sums::{SumError, Summed};

// Lane c of row a.
fn lane(xs: &[f64], a: usize, c: usize) -> Complex
    requires { (a < 16) × (c < 16) × (length xs.now ≡ 512) }
    ensures { result ≡ lane_at xs.now a c }
{
    Complex::new(xs[32 * a + c], xs[32 * a + (c + 16)])
}

// An entry that is made: finite, or no entry. One that no term was added to is not asked.
#[tactic(auto, unfolding(crate::specs::Writing::checked_entry))]
fn checked(z: Complex, asked: bool) -> Option<Complex>
    ensures { result ≡ checked_entry asked z }
{
    (!asked | z.is_finite()).then_some(z)
}

// Writes z as the p-th complex number.
fn put(xs: &mut [f64], p: usize, z: Complex)
    requires { 2 * p + 1 < length xs.old }
    ensures { xs.new ≡ set (set xs.old (2 * p) z.re) (2 * p + 1) z.im }
{
    xs[2 * p] = z.re;
    xs[2 * p + 1] = z.im;
}

// Writes row a of a block, whose first lane is `from`, and answers whether all of it is finite; at the first entry that is not the work ends.
fn write_entries(
    totals: &[f64],
    a: usize,
    from: usize,
    orbitals: usize,
    asked: bool,
    out: &mut [f64],
) -> bool
    requires { (a < 16) × (from + orbitals ≤ 16) × (length totals.now ≡ 512) × (length out.old ≡ 2 * orbitals) }
    ensures { (result ≡ all_below orbitals (λ b. not asked || cfinite (lane_at totals.now a (from + b))))
        × (result ≡ true → out.new ≡ cells orbitals (λ b. lane_at totals.now a (from + b))) }
{
    for b in 0..orbitals {
        let Some(z) = checked(lane(totals, a, from + b), asked) else {
            return false;
        };
        put(out, b, z);
    }
    true
}

// Writes a block, whose first lane is `from`.
fn write_block(totals: &[f64], from: usize, orbitals: usize, asked: bool, out: &mut [f64]) -> bool
    requires { (orbitals ≤ 16) × (from + orbitals ≤ 16) × (length totals.now ≡ 512) × (length out.old ≡ 2 * (orbitals * orbitals)) }
    ensures { (result ≡ all_in orbitals orbitals (λ a b. not asked || cfinite (lane_at totals.now a (from + b))))
        × (result ≡ true → out.new ≡ lay_out orbitals orbitals (λ a b. lane_at totals.now a (from + b))) }
{
    let width = 2 * orbitals;
    // By index: once `chunks_mut` is over a proof does not know what it wrote.
    for a in 0..orbitals {
        let start = a * width;
        let end = start + width;
        if !write_entries(totals, a, from, orbitals, asked, &mut out[start..end]) {
            return false;
        }
    }
    true
}

// Writes the blocks of a group, and answers whether all of it is finite; of the places from `until` on nothing is asked.
fn write_blocks(
    totals: &[f64],
    orbitals: usize,
    places: usize,
    until: usize,
    out: &mut [f64],
) -> bool
    requires { (orbitals ≤ 16) × (places * orbitals ≤ 16) × (length totals.now ≡ 512) × (length out.old ≡ places * (2 * (orbitals * orbitals))) }
    ensures { (result ≡ lanes_finite totals.now orbitals places until)
        × (result ≡ true → out.new ≡ laid_lanes totals.now orbitals places) }
{
    let width = 2 * (orbitals * orbitals);
    // By index: once `chunks_mut` is over a proof does not know what it wrote.
    for p in 0..places {
        let start = p * width;
        let end = start + width;
        let finite = write_block(
            totals,
            p * orbitals,
            orbitals,
            p < until,
            &mut out[start..end],
        );
        if !finite {
            return false;
        }
    }
    true
}

// Writes the blocks of a group of places, if all that is asked of it is finite; of the places from `until` on nothing is asked.
pub fn write_group(
    totals: &[f64],
    orbitals: usize,
    places: usize,
    until: usize,
    out: &mut [f64],
) -> Summed
    ensures { let made = written totals.now orbitals places until out.old in (result ≡ made.answer) × (out.new ≡ made.out) }
{
    if !((orbitals <= 16) & (places <= 16)) {
        return Err(SumError::Unfit);
    }
    let width = 2 * (orbitals * orbitals);
    let fits = (totals.len() == 512) & (out.len() == places * width);
    if !((places * orbitals <= 16) & fits) {
        return Err(SumError::Unfit);
    }
    if write_blocks(totals, orbitals, places, until, out) {
        return Ok(());
    }
    clear(out);
    Err(SumError::Overflow)
}
