// The sums at all places, row by row and group by group (document 01, convolutions), and Dyson's row.
#![tactic(auto)]

mod forward;

ghost use Rattle.std.specs.Prelude.{◌≡◌, ◌∷◌, ◌+◌, ◌*◌, ◌<◌, ◌≤◌};
ghost use Rattle.lists.specs.Prelude.{true, [], length};
ghost use Rattle.lists.specs.Indexed.{all_below, join};
ghost use Rattle.block.specs.Block.{lay_out};
ghost use Rattle.refusal.specs.Verdict.{pass};
ghost use Rattle.two_time.specs.Layout.{length_of};
ghost use Rattle.two_time.specs.Calls.{size_checks};
ghost use Rattle.two_time.specs.New.{cleared_new};
ghost use Rattle.two_time.specs.Sums.{new_numbers, new_finite};
ghost use Rattle.two_time.specs.Outcome.{summed, new_sums};
ghost use Rattle.groups.specs.PlaceSums.{sum_at, block_finite};
ghost use Rattle.groups.specs.Groups.{group_sums};
ghost use Rattle.sums.specs.Forward.{forward_row};

use columns::group;
use groups::runs::{Row, row_by_groups};
use two_time::capacity::{Shape, clear_new, first_new};
use two_time::checks::{check_sizes, has_length};
use two_time::layout::clear;
use two_time::sums::{SumError, Summed, Sums};

// Row t of sums.
#[derive(Drop)]
struct SumsRow<'a> {
    sums: Sums,
    times: &'a [f64],
    left: &'a [f64],
    right: &'a [f64],
    capacity: usize,
    orbitals: usize,
    t: usize,
}

impl<'a> Row for SumsRow<'a> {
    ghost answer = { λ r u places xs. (group_sums r.sums r.capacity r.orbitals r.times.now r.left.now r.right.now r.t u places xs).answer };

    ghost left = { λ r u places xs. (group_sums r.sums r.capacity r.orbitals r.times.now r.left.now r.right.now r.t u places xs).out };

    fn write(&self, u: usize, places: usize, out: &mut [f64]) -> Summed {
        group(
            self.sums,
            self.times,
            self.left,
            self.right,
            self.capacity,
            self.orbitals,
            self.t,
            u,
            places,
            out,
        )
    }
}

// Writes the sums at `count` places of row t from column `from` on, and answers whether all that is made for them is finite.
fn row(
    sums: Sums,
    times: &[f64],
    left: &[f64],
    right: &[f64],
    capacity: usize,
    orbitals: usize,
    t: usize,
    from: usize,
    count: usize,
    out: &mut [f64],
) -> bool
    requires t_lt_capacity { (t < capacity) × (from + count ≤ capacity) × (size_checks capacity orbitals true (left.now ∷ right.now ∷ []) ≡ pass) }
    requires out_len { length out.old ≡ count * (2 * (orbitals * orbitals)) }
    ensures { (result ≡ all_below count (λ p. block_finite sums capacity orbitals times.now left.now right.now t (from + p)))
        × (result ≡ true → out.new ≡ join count (λ p. lay_out orbitals orbitals (sum_at sums capacity orbitals times.now left.now right.now t (from + p)))) }
{
    let row = SumsRow {
        sums,
        times,
        left,
        right,
        capacity,
        orbitals,
        t,
    };
    row_by_groups(&row, orbitals, from, count, out)
}

// Writes the sums at the new places, rows first, and answers whether all are finite. Whatever it writes stands at new places.
// Crate `lesser` has this loop over rows of its own. A function over a trait would serve both, as `row_by_groups` does, but would say all that a row asks of
// its caller, and where it leaves what: more than the loop.
fn fill(
    sums: Sums,
    times: &[f64],
    left: &[f64],
    right: &[f64],
    shape: Shape,
    old: usize,
    out: &mut [f64],
) -> bool
    requires le_points { (old ≤ shape.points) × (shape.points ≤ shape.capacity) × (size_checks shape.capacity shape.orbitals true (left.now ∷ right.now ∷ []) ≡ pass) }
    requires out_len { length out.old ≡ length_of shape.capacity shape.orbitals }
    ensures { (result ≡ new_finite sums shape.capacity shape.orbitals old shape.points times.now left.now right.now)
        × (result ≡ true → out.new ≡ new_numbers sums shape.capacity shape.orbitals old shape.points times.now left.now right.now out.old)
        × (cleared_new shape.capacity shape.orbitals old shape.points out.new ≡ cleared_new shape.capacity shape.orbitals old shape.points out.old) }
{
    let points = shape.points;
    let capacity = shape.capacity;
    let orbitals = shape.orbitals;
    let block = 2 * (orbitals * orbitals);
    let width = capacity * block;
    for t in 0..points {
        let from = first_new(old, t);
        let start = t * width + from * block;
        let end = t * width + points * block;
        let finite = row(
            sums,
            times,
            left,
            right,
            capacity,
            orbitals,
            t,
            from,
            points - from,
            &mut out[start..end],
        );
        if !finite {
            return false;
        }
    }
    true
}

// Row t of G to the diagonal, from K and the rows of G before it, as they stand in the slice. Where something is not finite +0 stands there; the rest
// of the slice is as it was, and so is all where nothing is summed.
pub fn forward_row(
    times: &[f64],
    free: &[f64],
    kernel: &[f64],
    points: usize,
    orbitals: usize,
    t: usize,
    retarded: &mut [f64],
) -> Summed
    ensures { let made = forward_row points orbitals times.now free.now kernel.now retarded.old t in (result ≡ made.answer) × (retarded.new ≡ made.out) }
{
    let free_fits = has_length(points, orbitals, free);
    let kernel_fits = has_length(points, orbitals, kernel);
    let retarded_fits = has_length(points, orbitals, retarded);
    let fits = (t < points) & (free_fits & (kernel_fits & retarded_fits));
    check_sizes(points, orbitals, fits)?;
    if forward::blocks(times, free, kernel, points, orbitals, t, retarded) {
        return Ok(());
    }
    let width = 2 * (orbitals * orbitals);
    let start = t * (points * width);
    let end = start + (t + 1) * width;
    clear(&mut retarded[start..end]);
    Err(SumError::Overflow)
}

// The sums at the new places, in the slice lent for them, where slices are laid out for the capacity: those whose larger index is at least `old` and
// below the points. Where something is not finite the new places hold +0; the rest is as it was, and so is all where nothing is summed.
pub fn new_sums(
    sums: Sums,
    times: &[f64],
    left: &[f64],
    right: &[f64],
    shape: Shape,
    old: usize,
    out: &mut [f64],
) -> Summed
    ensures { let made = new_sums sums shape.capacity shape.orbitals old shape.points times.now left.now right.now out.old in (result ≡ made.answer) × (out.new ≡ made.out) }
{
    let capacity = shape.capacity;
    let orbitals = shape.orbitals;
    let there = (old <= shape.points) & (shape.points <= capacity);
    let left_fits = has_length(capacity, orbitals, left);
    let right_fits = has_length(capacity, orbitals, right);
    let out_fits = has_length(capacity, orbitals, out);
    check_sizes(
        capacity,
        orbitals,
        there & (left_fits & (right_fits & out_fits)),
    )?;
    if fill(sums, times, left, right, shape, old, out) {
        return Ok(());
    }
    clear_new(shape, old, out);
    Err(SumError::Overflow)
}

// The sums at all places of slices laid out for the points: +0 throughout where something is not finite, and as it was where nothing is summed.
pub fn weighted_sums(
    sums: Sums,
    times: &[f64],
    left: &[f64],
    right: &[f64],
    points: usize,
    orbitals: usize,
    out: &mut [f64],
) -> Summed
    ensures { let made = summed sums points orbitals times.now left.now right.now out.old in (result ≡ made.answer) × (out.new ≡ made.out) }
{
    let shape = Shape {
        points,
        capacity: points,
        orbitals,
    };
    new_sums(sums, times, left, right, shape, 0, out)
}
