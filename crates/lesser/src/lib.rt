// G^< of a dot that starts occupied (document 02, L5), row by row and group by group.
#![tactic(auto)]

ghost use Rattle.std.specs.Prelude.{◌≡◌, ◌∷◌, ◌+◌, ◌*◌, ◌<◌, ◌≤◌};
ghost use Rattle.lists.specs.Prelude.{true, [], length};
ghost use Rattle.lists.specs.Indexed.{all_below, join};
ghost use Rattle.block.specs.Block.{entries_in, lay_out};
ghost use Rattle.block.specs.Operations.{all_finite};
ghost use Rattle.block.specs.Agreement.{Agree};
ghost use Rattle.refusal.specs.Verdict.{pass};
ghost use Rattle.two_time.specs.Layout.{length_of};
ghost use Rattle.two_time.specs.Calls.{size_checks};
ghost use Rattle.two_time.specs.New.{cleared_new};
ghost use Rattle.two_time.specs.Start.{new_lesser_numbers, new_lesser_finite, occupied_by, holds_block, new_lesser_from};
ghost use Rattle.starts.specs.Calls.{first_of, from_finite, from_block, group_from};
ghost use Rattle.lesser.specs.Rows.{lesser_finite, lesser_block};

use groups::runs::{Row, row_by_groups};
use starts::{first_factor, group_from};
use two_time::capacity::{Shape, clear_new, first_new};
use two_time::checks::{check_sizes, has_length, holds_block};
use two_time::sums::{SumError, Summed};

// Row t of G^<, from the product that `filled` holds.
#[derive(Drop)]
struct LesserRow<'a> {
    times: &'a [f64],
    retarded: &'a [f64],
    lesser_advanced: &'a [f64],
    filled: &'a [f64],
    capacity: usize,
    orbitals: usize,
    t: usize,
}

impl<'a> Row for LesserRow<'a> {
    ghost answer = { λ r u places xs. (group_from r.capacity r.orbitals r.times.now r.retarded.now r.lesser_advanced.now r.filled.now r.t u places xs).answer };

    ghost left = { λ r u places xs. (group_from r.capacity r.orbitals r.times.now r.retarded.now r.lesser_advanced.now r.filled.now r.t u places xs).out };

    fn write(&self, u: usize, places: usize, out: &mut [f64]) -> Summed {
        group_from(
            self.times,
            self.retarded,
            self.lesser_advanced,
            self.filled,
            self.capacity,
            self.orbitals,
            self.t,
            u,
            places,
            out,
        )
    }
}

// Writes G^< at `count` places of row t from column `from` on, where `filled` holds G^R(t,0)·g0, and answers whether all that is made for it after that
// product is finite.
fn blocks(
    times: &[f64],
    retarded: &[f64],
    lesser_advanced: &[f64],
    filled: &[f64],
    capacity: usize,
    orbitals: usize,
    t: usize,
    from: usize,
    count: usize,
    out: &mut [f64],
) -> bool
    requires t_lt_capacity { (t < capacity) × (from + count ≤ capacity) × (size_checks capacity orbitals true (retarded.now ∷ lesser_advanced.now ∷ []) ≡ pass) × (holds_block orbitals filled.now ≡ true) }
    requires out_len { length out.old ≡ count * (2 * (orbitals * orbitals)) }
    ensures { (result ≡ all_below count (λ p. from_finite capacity orbitals times.now retarded.now lesser_advanced.now filled.now t (from + p)))
        × (result ≡ true → out.new ≡ join count (λ p. from_block capacity orbitals times.now retarded.now lesser_advanced.now filled.now t (from + p))) }
{
    let row = LesserRow {
        times,
        retarded,
        lesser_advanced,
        filled,
        capacity,
        orbitals,
        t,
    };
    row_by_groups(&row, orbitals, from, count, out)
}

// Writes G^R(t,0)·g0 to the front of a slice of 512 numbers, and answers whether it is finite.
fn first(
    retarded: &[f64],
    g0: &[f64],
    capacity: usize,
    orbitals: usize,
    t: usize,
    filled: &mut [f64],
) -> bool
    requires { (t < capacity) × (size_checks capacity orbitals true (retarded.now ∷ []) ≡ pass) × (holds_block orbitals g0.now ≡ true) × (length filled.old ≡ 512) }
    ensures { (result ≡ all_finite orbitals orbitals (first_of capacity orbitals retarded.now g0.now t)) × (length filled.new ≡ 512)
        × (result ≡ true → Agree orbitals (entries_in orbitals filled.new) (first_of capacity orbitals retarded.now g0.now t)) }
{
    let block = 2 * (orbitals * orbitals);
    first_factor(retarded, g0, capacity, orbitals, t, &mut filled[..block]).is_ok()
}

// Writes G^< at `count` places of row t from column `from` on, and answers whether all that is made for it is finite. G^R(t,0)·g0 is formed once for all of
// them.
fn row(
    times: &[f64],
    retarded: &[f64],
    lesser_advanced: &[f64],
    g0: &[f64],
    capacity: usize,
    orbitals: usize,
    t: usize,
    from: usize,
    count: usize,
    out: &mut [f64],
) -> bool
    requires t_lt_capacity { (t < capacity) × (from + count ≤ capacity) × (size_checks capacity orbitals true (retarded.now ∷ lesser_advanced.now ∷ []) ≡ pass) × (holds_block orbitals g0.now ≡ true) }
    requires out_len { length out.old ≡ count * (2 * (orbitals * orbitals)) }
    ensures { (result ≡ all_below count (λ p. lesser_finite capacity orbitals times.now retarded.now lesser_advanced.now g0.now t (from + p)))
        × (result ≡ true → out.new ≡ join count (λ p. lay_out orbitals orbitals (lesser_block capacity orbitals times.now retarded.now lesser_advanced.now g0.now t (from + p)))) }
{
    if count == 0 {
        return true;
    }
    let mut filled = [0.0; 512];
    if !first(retarded, g0, capacity, orbitals, t, &mut filled) {
        return false;
    }
    blocks(
        times,
        retarded,
        lesser_advanced,
        &filled,
        capacity,
        orbitals,
        t,
        from,
        count,
        out,
    )
}

// Writes G^< at the new places, rows first, and answers whether all that is made for it is finite. Whatever it writes stands at new places.
// The loop is that of `fill` in crate `sums`, which says why it stands twice.
fn fill(
    times: &[f64],
    retarded: &[f64],
    lesser_advanced: &[f64],
    g0: &[f64],
    shape: Shape,
    old: usize,
    out: &mut [f64],
) -> bool
    requires le_points { (old ≤ shape.points) × (shape.points ≤ shape.capacity) × (size_checks shape.capacity shape.orbitals true (retarded.now ∷ lesser_advanced.now ∷ []) ≡ pass) × (holds_block shape.orbitals g0.now ≡ true) }
    requires out_len { length out.old ≡ length_of shape.capacity shape.orbitals }
    ensures { let start = occupied_by shape.capacity shape.orbitals g0.now retarded.now in
        (result ≡ new_lesser_finite start shape.capacity shape.orbitals old shape.points times.now retarded.now lesser_advanced.now)
        × (result ≡ true → out.new ≡ new_lesser_numbers start shape.capacity shape.orbitals old shape.points times.now retarded.now lesser_advanced.now out.old)
        × (cleared_new shape.capacity shape.orbitals old shape.points out.new ≡ cleared_new shape.capacity shape.orbitals old shape.points out.old) }
{
    let points = shape.points;
    let capacity = shape.capacity;
    let orbitals = shape.orbitals;
    let block = 2 * (orbitals * orbitals);
    let width = capacity * block;
    for t in 0..points {
        let from = first_new(old, t);
        let start = t * width + from * block;
        let end = t * width + points * block;
        let finite = row(
            times,
            retarded,
            lesser_advanced,
            g0,
            capacity,
            orbitals,
            t,
            from,
            points - from,
            &mut out[start..end],
        );
        if !finite {
            return false;
        }
    }
    true
}

// G^< at the new places, from (G^R(t,0)·g0)·G^A(0,t'), in the slice lent for it, where slices are laid out for the capacity: the places whose larger index
// is at least `old` and below the points. g0 is the block that its slice begins with. Where something is not finite the new places hold +0; the rest is as
// it was, and so is all where nothing is summed. Beside the products of the terms, one for each new place and one for each row that has one.
pub fn new_lesser_from(
    times: &[f64],
    retarded: &[f64],
    lesser_advanced: &[f64],
    g0: &[f64],
    shape: Shape,
    old: usize,
    out: &mut [f64],
) -> Summed
    ensures { let made = new_lesser_from shape.capacity shape.orbitals old shape.points times.now retarded.now lesser_advanced.now g0.now out.old in (result ≡ made.answer) × (out.new ≡ made.out) }
{
    let capacity = shape.capacity;
    let orbitals = shape.orbitals;
    let there = (old <= shape.points) & (shape.points <= capacity);
    let holds = holds_block(orbitals, g0);
    let retarded_fits = has_length(capacity, orbitals, retarded);
    let lesser_advanced_fits = has_length(capacity, orbitals, lesser_advanced);
    let out_fits = has_length(capacity, orbitals, out);
    check_sizes(
        capacity,
        orbitals,
        (there & holds) & (retarded_fits & (lesser_advanced_fits & out_fits)),
    )?;
    if fill(times, retarded, lesser_advanced, g0, shape, old, out) {
        return Ok(());
    }
    clear_new(shape, old, out);
    Err(SumError::Overflow)
}
