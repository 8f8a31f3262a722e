// Slices laid out for a capacity of points, and the places that a call works out in them (document 02, L1).
ghost use Rattle.std.specs.Prelude.{◌≡◌, ◌≤◌};
ghost use Rattle.lists.specs.Prelude.{cond, length};
ghost use Rattle.refusal.specs.Verdict.{◌then◌};
ghost use Rattle.refusal.specs.Checks.{large_enough, within_limits, fitting, within_capacity};
ghost use Rattle.two_time.specs.Calls.{block_sizes, point_entries, point_checks};
ghost use Rattle.two_time.specs.Layout.{length_of};
ghost use Rattle.two_time.specs.New.{cleared_new, fits_new};
ghost use Rattle.two_time.specs.Written.{first_new};

use crate::checks::has_length;
use crate::layout::clear;
use refusal::Verdict;
use refusal::checks::{
    entries_from, fitting, large_enough, not_empty, within_block, within_capacity, within_limits,
};

// Functions of so many points and orbitals, in slices laid out for a capacity of points: row t begins at t·capacity blocks.
#[derive(Clone, Copy)]
pub struct Shape {
    pub points: usize,
    pub capacity: usize,
    pub orbitals: usize,
}

// The first column of row t that is new where the points before `old` are not.
pub fn first_new(old: usize, t: usize) -> usize
    ensures { result ≡ first_new old t }
{
    if t < old { old } else { 0 }
}

// Leaves +0 at the new places, row by row.
fn clear_rows(shape: Shape, old: usize, xs: &mut [f64])
    requires { (shape.capacity ≤ 256) × (shape.orbitals ≤ 16) × (old ≤ shape.points) × (shape.points ≤ shape.capacity) × (length xs.old ≡ length_of shape.capacity shape.orbitals) }
    ensures { xs.new ≡ cleared_new shape.capacity shape.orbitals old shape.points xs.old }
{
    let points = shape.points;
    let capacity = shape.capacity;
    let orbitals = shape.orbitals;
    let block = 2 * (orbitals * orbitals);
    let width = capacity * block;
    // By index: once `chunks_mut` is over a proof does not know what it wrote.
    for t in 0..points {
        let from = first_new(old, t);
        let start = t * width + from * block;
        let end = t * width + points * block;
        clear(&mut xs[start..end]);
    }
}

// Leaves +0 at the new places of a slice that is laid out for the capacity, those whose larger index is at least `old` and below the points; another
// slice is as it was.
pub fn clear_new(shape: Shape, old: usize, xs: &mut [f64])
    ensures { xs.new ≡ cond (fits_new shape.capacity shape.orbitals old shape.points xs.old) (cleared_new shape.capacity shape.orbitals old shape.points xs.old) xs.old }
{
    let there = (old <= shape.points) & (shape.points <= shape.capacity);
    if there & has_length(shape.capacity, shape.orbitals, xs) {
        clear_rows(shape, old, xs);
    }
}

// 1, 2, 3 and 16: `fits` says whether each lent slice has the capacity's length.
pub fn check_capacity(shape: Shape, fits: bool) -> Verdict
    ensures { result ≡ (large_enough shape.points shape.orbitals then within_limits shape.capacity shape.orbitals then fitting fits then within_capacity shape.points shape.capacity) }
{
    large_enough(shape.points, shape.orbitals)?;
    within_limits(shape.capacity, shape.orbitals)?;
    fitting(fits)?;
    within_capacity(shape.points, shape.capacity)
}

// The same with a block beside the slices, each of the functions before the block: `fits` says whether the block is n by n too.
pub fn check_block_sizes(shape: Shape, rows: usize, columns: usize, fits: bool) -> Verdict
    ensures { result ≡ block_sizes shape.capacity shape.points shape.orbitals rows columns fits }
{
    large_enough(shape.points, shape.orbitals)?;
    not_empty(rows, columns)?;
    within_limits(shape.capacity, shape.orbitals)?;
    within_block(rows, columns)?;
    fitting(fits)?;
    within_capacity(shape.points, shape.capacity)
}

// 7 of the entries with both indices below the points, row by row.
fn finite_points(operand: usize, xs: &[f64], shape: Shape) -> Verdict
    requires { (shape.capacity ≤ 256) × (shape.orbitals ≤ 16) × (shape.points ≤ shape.capacity) }
    ensures { result ≡ point_entries shape.capacity shape.points shape.orbitals operand xs.now }
{
    let points = shape.points;
    let capacity = shape.capacity;
    let orbitals = shape.orbitals;
    let block = 2 * (orbitals * orbitals);
    let width = capacity * block;
    for t in 0..points {
        entries_from(operand, xs, t * width, points * block)?;
    }
    Ok(())
}

// 1, 2, 3, 16 and 7 of the operand of that number.
pub fn check_points(operand: usize, xs: &[f64], shape: Shape) -> Verdict
    ensures { result ≡ point_checks shape.capacity shape.points shape.orbitals operand xs.now }
{
    let fits = has_length(shape.capacity, shape.orbitals, xs);
    check_capacity(shape, fits)?;
    finite_points(operand, xs, shape)
}
