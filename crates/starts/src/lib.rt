// What G^< of a dot that starts occupied begins with at a group of places (document 02, L5), and its sums from there: G^R(t,0)·g0 is made once for a row,
// its product with G^A(0,t') for each place, in the lanes of the group.
#![tactic(auto)]

ghost use Rattle.std.specs.Prelude.{◌≡◌, ◌+◌, ◌*◌, ◌<◌, ◌≤◌};
ghost use Rattle.lists.specs.Prelude.{ℕ, length};
ghost use Rattle.complex.specs.Numbers.{entry_at};
ghost use Rattle.rows.specs.Numbers.{number_at};
ghost use Rattle.lanes.specs.Lanes.{lane_at};
ghost use Rattle.terms.specs.Kinds.{right_number};
ghost use Rattle.groups.specs.Packed.{Packed};
ghost use Rattle.starts.specs.Products.{dot, right_at};
ghost use Rattle.starts.specs.Calls.{first_factor, group_from};

use complex::Complex;
use groups::is_group;
use groups::onto::group_onto;
use lanes::write_group;
use terms::Factor;
use two_time::checks::{check_sizes, has_length, holds_block};
use two_time::sums::{Summed, Sums};

// Where the right factors of neighbouring places stand: number (k, b) of place p at `first` + p·`next` + b·`beside` + k·`below`, stored or to be
// conjugated.
#[derive(Clone, Copy)]
pub struct Right {
    pub factor: Factor,
    pub first: usize,
    pub next: usize,
    pub beside: usize,
    pub below: usize,
}

// An entry of a product: the row of the left factor begins at i, the column of the right one at j.
fn entry(
    factor: Factor,
    left: &[f64],
    i: usize,
    right: &[f64],
    j: usize,
    below: usize,
    orbitals: usize,
) -> Complex
    requires { (orbitals ≤ 16) × (i + 2 * orbitals ≤ length left.now) × ((k : ℕ) → k < orbitals → j + k * below + 1 < length right.now) }
    ensures { result ≡ dot orbitals left.now i (λ k. right_number factor (entry_at right.now (j + k * below))) }
{
    let mut sum = Complex::ZERO;
    for k in 0..orbitals {
        let p = i + 2 * k;
        let q = j + k * below;
        let x = Complex::new(left[p], left[p + 1]);
        let y = factor.number(Complex::new(right[q], right[q + 1]));
        sum = sum.plus(x.times(y));
    }
    sum
}

// Writes a row of a product to the lanes from `from` on; the first column of the right factor begins at j.
fn block_row(
    columns: Right,
    left: &[f64],
    i: usize,
    right: &[f64],
    j: usize,
    orbitals: usize,
    from: usize,
    row: &mut [f64],
)
    requires orbitals_bound { (orbitals ≤ 16) × (i + 2 * orbitals ≤ length left.now) × ((b k : ℕ) → b < orbitals → k < orbitals → j + b * columns.beside + k * columns.below + 1 < length right.now) }
    requires orbitals_bound_2 { (from + orbitals ≤ 16) × (length row.old ≡ 32) }
    ensures { Packed from orbitals (λ b. dot orbitals left.now i (λ k. right_number columns.factor (entry_at right.now (j + b * columns.beside + k * columns.below)))) row.old row.new }
{
    let factor = columns.factor;
    for b in 0..orbitals {
        let q = j + b * columns.beside;
        let z = entry(factor, left, i, right, q, columns.below, orbitals);
        let c = from + b;
        row[c] = z.re;
        row[c + 16] = z.im;
    }
}

// Writes that row of the products of all places, side by side.
fn lanes_row(
    columns: Right,
    left: &[f64],
    i: usize,
    right: &[f64],
    orbitals: usize,
    places: usize,
    row: &mut [f64],
)
    requires orbitals_bound { (orbitals ≤ 16) × (i + 2 * orbitals ≤ length left.now)
        × ((p b k : ℕ) → p < places → b < orbitals → k < orbitals → columns.first + p * columns.next + b * columns.beside + k * columns.below + 1 < length right.now) }
    requires orbitals_nonzero { (0 < orbitals) × (places * orbitals ≤ 16) × (length row.old ≡ 32) }
    ensures { (length row.new ≡ 32) × ((p b : ℕ) → p < places → b < orbitals → number_at row.new (p * orbitals + b) ≡ dot orbitals left.now i (right_at columns right.now p b)) }
{
    for p in 0..places {
        let j = columns.first + p * columns.next;
        block_row(columns, left, i, right, j, orbitals, p * orbitals, row);
    }
}

// Writes the products of a left factor, whose first number stands at i, with the right factors of all places.
fn product_lanes(
    columns: Right,
    left: &[f64],
    i: usize,
    right: &[f64],
    orbitals: usize,
    places: usize,
    lanes: &mut [f64],
)
    requires orbitals_bound { (orbitals ≤ 16) × (i + 2 * (orbitals * orbitals) ≤ length left.now)
        × ((p b k : ℕ) → p < places → b < orbitals → k < orbitals → columns.first + p * columns.next + b * columns.beside + k * columns.below + 1 < length right.now) }
    requires orbitals_bound_2 { (places * orbitals ≤ 16) × (length lanes.old ≡ 512) }
    ensures { (length lanes.new ≡ 512) × ((a p b : ℕ) → a < orbitals → p < places → b < orbitals → lane_at lanes.new a (p * orbitals + b)
        ≡ dot orbitals left.now (i + a * (2 * orbitals)) (right_at columns right.now p b)) }
{
    let width = 2 * orbitals;
    for a in 0..orbitals {
        let at = 32 * a;
        let end = at + 32;
        lanes_row(
            columns,
            left,
            i + a * width,
            right,
            orbitals,
            places,
            &mut lanes[at..end],
        );
    }
}

// Writes G^R(t,0)·g0, if it is finite, to a slice of its length.
pub fn first_factor(
    retarded: &[f64],
    g0: &[f64],
    points: usize,
    orbitals: usize,
    t: usize,
    out: &mut [f64],
) -> Summed
    ensures { let made = first_factor points orbitals retarded.now g0.now t out.old in (result ≡ made.answer) × (out.new ≡ made.out) }
{
    let holds = holds_block(orbitals, g0);
    let retarded_fits = has_length(points, orbitals, retarded);
    check_sizes(points, orbitals, ((t < points) & holds) & retarded_fits)?;
    let width = 2 * orbitals;
    let i = t * (points * (width * orbitals));
    let columns = Right {
        factor: Factor::Stored,
        first: 0,
        next: 0,
        beside: 2,
        below: width,
    };
    let mut lanes = [0.0; 512];
    product_lanes(columns, retarded, i, g0, orbitals, 1, &mut lanes);
    write_group(&lanes, orbitals, 1, 1, out)
}

// Writes G^< at the places of row t from u on, from `filled`·G^A(0,u + p), if that and all that is made for it is finite: `filled` holds G^R(t,0)·g0.
pub fn group_from(
    times: &[f64],
    retarded: &[f64],
    lesser_advanced: &[f64],
    filled: &[f64],
    points: usize,
    orbitals: usize,
    t: usize,
    u: usize,
    places: usize,
    out: &mut [f64],
) -> Summed
    ensures { let made = group_from points orbitals times.now retarded.now lesser_advanced.now filled.now t u places out.old in (result ≡ made.answer) × (out.new ≡ made.out) }
{
    let there = is_group(points, orbitals, t, u, places);
    let holds = holds_block(orbitals, filled);
    let retarded_fits = has_length(points, orbitals, retarded);
    let lesser_advanced_fits = has_length(points, orbitals, lesser_advanced);
    check_sizes(
        points,
        orbitals,
        (there & holds) & (retarded_fits & lesser_advanced_fits),
    )?;
    let width = 2 * orbitals;
    let next = points * (width * orbitals);
    let columns = Right {
        factor: Factor::Adjoint,
        first: u * next,
        next,
        beside: width,
        below: 2,
    };
    let mut starts = [0.0; 512];
    product_lanes(columns, filled, 0, retarded, orbitals, places, &mut starts);
    group_onto(
        Sums::Lesser,
        times,
        retarded,
        lesser_advanced,
        starts,
        points,
        orbitals,
        t,
        u,
        places,
        out,
    )
}
