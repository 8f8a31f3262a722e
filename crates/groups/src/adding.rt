// A term goes to all lanes of a group, and so do all terms, one after another.
ghost use Rattle.std.specs.Prelude.{◌≡◌, ◌+◌, ◌*◌, ◌<◌, ◌≤◌};
ghost use Rattle.lists.specs.Prelude.{ℕ, length};
ghost use Rattle.complex.specs.Arithmetic.{czero, real, cadd, cmul};
ghost use Rattle.two_time.specs.Layout.{read_as, length_of};
ghost use Rattle.two_time.specs.Sums.{terms_at};
ghost use Rattle.terms.specs.Kinds.{Reaches};
ghost use Rattle.rows.specs.Rows.{stepped};
ghost use Rattle.rows.specs.Numbers.{Mapped};
ghost use Rattle.rows.specs.Ranges.{only_from, Ranged};
ghost use Rattle.groups.specs.Right.{right_beside};
ghost use Rattle.groups.specs.InPlace.{in_place};
ghost use Rattle.groups.specs.PartialSums.{terms_of, added, partial_at};
ghost use Rattle.lanes.specs.Lanes.{lane_at};

use crate::packing::{pack, place, right_beside, right_number, right_place};
use complex::Complex;
use rows::add_packed;
use terms::{Factor, Term, factor_of, term_of};
use two_time::sums::Sums;

// Adds a term at one orbital to the totals of the lanes from lo to before hi: x times the right number, from +0, times the weight.
pub(crate) fn add_lanes(
    factor: Factor,
    x: Complex,
    weight: f64,
    right: &[f64],
    stride: usize,
    j: usize,
    lo: usize,
    hi: usize,
    totals: &mut [f64],
)
    requires lo_le_hi { (lo ≤ hi) × (hi ≤ 16) × (length totals.old ≡ 32) × (stride ≤ 256) }
    requires by_index { (c : ℕ) → c < hi → j + c * right_beside factor stride + 1 < length right.now }
    ensures { Mapped (only_from lo (λ c z. cadd z (cmul (in_place factor x right.now stride j c) (real weight)))) hi totals.old totals.new }
{
    for c in lo..hi {
        let beside = right_beside(factor, stride);
        let y = right_number(factor, right, j + c * beside);
        let p = Complex::ZERO.plus(x.times(y));
        let z = Complex::new(totals[c], totals[c + 16]);
        let sum = z.plus(p.times(Complex::real(weight)));
        totals[c] = sum.re;
        totals[c + 16] = sum.im;
    }
}

// The same to all lanes of a group, each by its weight.
pub(crate) fn add_in_place(
    factor: Factor,
    x: Complex,
    term: Term,
    right: &[f64],
    stride: usize,
    j: usize,
    totals: &mut [f64],
)
    requires ranged { Ranged term × (length totals.old ≡ 32) × (stride ≤ 256) }
    requires by_index { (c : ℕ) → c < term.lanes → j + c * right_beside factor stride + 1 < length right.now }
    ensures { Mapped (λ c z. stepped term c (in_place factor x right.now stride j c) z) term.lanes totals.old totals.new }
{
    let below = term.below;
    let above = term.above;
    let lanes = term.lanes;
    let common = term.common;
    if (below == 16) | ((above == 0) & (lanes == 16)) {
        add_lanes(factor, x, common, right, stride, j, 0, 16, totals);
    } else {
        add_lanes(factor, x, common, right, stride, j, 0, below, totals);
        add_lanes(
            factor,
            x,
            term.ends,
            right,
            stride,
            j,
            term.before,
            term.after,
            totals,
        );
        add_lanes(factor, x, common, right, stride, j, above, lanes, totals);
    }
}

// Adds term s to the total of every lane whose sum has it; `rows` is room for the packed right factor.
pub(crate) fn add_term(
    sums: Sums,
    times: &[f64],
    left: &[f64],
    right: &[f64],
    stride: usize,
    points: usize,
    orbitals: usize,
    t: usize,
    s: usize,
    u: usize,
    places: usize,
    rows: &mut [f64],
    totals: &mut [f64],
)
    requires t_lt_points { (t < points) × (s < points) × (points ≤ stride) × (stride ≤ 256) × (0 < orbitals) × (orbitals ≤ 16) × (0 < places) × (u + places ≤ stride) × (places * orbitals ≤ 16) }
    requires reaches { Reaches sums t s }
    requires orbitals_in_bounds { (length_of stride orbitals ≤ length left.now) × (length_of stride orbitals ≤ length right.now) × (length left.now ≤ 33554432) }
    requires rows_len { (length rows.old ≡ 512) × (length totals.old ≡ 512) }
    ensures { (length rows.new ≡ 512) × (length totals.new ≡ 512)
        × ((a p b : ℕ) → a < orbitals → p < places → b < orbitals → lane_at totals.new a (p * orbitals + b)
        ≡ added orbitals (terms_of sums points stride orbitals times.now left.now right.now t (u + p) czero) s a b (lane_at totals.old a (p * orbitals + b))) }
{
    let factor = factor_of(sums);
    let term = term_of(sums, times, points, orbitals, t, s, u, places);
    let i = place(stride, orbitals, t, s, 0, 0);
    if orbitals == 1 {
        let j = right_place(factor, stride, orbitals, s, u, 0);
        let x = Complex::new(left[i], left[i + 1]);
        let start = 0;
        let end = 32;
        add_in_place(factor, x, term, right, stride, j, &mut totals[start..end]);
    } else {
        pack(factor, right, stride, orbitals, s, u, places, rows);
        add_packed(left, i, orbitals, rows, term, totals);
    }
}

// Adds the terms from `first` to before `last` to totals that are given: afterwards each lane's total is its partial sum.
pub(crate) fn sum_group(
    sums: Sums,
    times: &[f64],
    left: &[f64],
    right: &[f64],
    stride: usize,
    points: usize,
    orbitals: usize,
    t: usize,
    u: usize,
    places: usize,
    first: usize,
    last: usize,
    totals: &mut [f64],
)
    requires t_lt_points { (t < points) × (points ≤ stride) × (stride ≤ 256) × (0 < orbitals) × (orbitals ≤ 16) × (0 < places) × (u + places ≤ stride) × (places * orbitals ≤ 16) }
    requires first_le_last { (first ≤ last) × (last ≤ points) × ((s : ℕ) → first ≤ s → s < last → Reaches sums t s) }
    requires by_index { (p : ℕ) → p < places → first ≤ (terms_at sums points times.now (read_as stride orbitals left.now) (read_as stride orbitals right.now) t (u + p)).from }
    requires orbitals_in_bounds { (length_of stride orbitals ≤ length left.now) × (length_of stride orbitals ≤ length right.now) × (length left.now ≤ 33554432) × (length totals.old ≡ 512) }
    ensures { (length totals.new ≡ 512) × ((a p b : ℕ) → a < orbitals → p < places → b < orbitals → lane_at totals.new a (p * orbitals + b)
        ≡ partial_at orbitals (terms_of sums points stride orbitals times.now left.now right.now t (u + p) (lane_at totals.old a (p * orbitals + b))) last a b) }
{
    let mut rows = [0.0; 512];
    for s in first..last {
        add_term(
            sums, times, left, right, stride, points, orbitals, t, s, u, places, &mut rows, totals,
        );
    }
}
