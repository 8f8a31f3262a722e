// The sums at a group of neighbouring places of a row, side by side: at most 16 columns, each summed by the same steps as an entry alone. Their
// totals stand in lanes (crate `lanes`).
#![tactic(auto)]

mod adding;
pub mod onto;
mod packing;
pub mod runs;

ghost use Rattle.std.specs.Prelude.{◌≡◌, ◌+◌, ◌*◌, ◌<◌, ◌≤◌};
ghost use Rattle.lists.specs.Prelude.{ℕ, length};
ghost use Rattle.two_time.specs.Layout.{read_as, length_of};
ghost use Rattle.two_time.specs.Sums.{dyson_terms};
ghost use Rattle.two_time.specs.WeightedSum.{weighted_sum};
ghost use Rattle.lanes.specs.Lanes.{lane_at};
ghost use Rattle.groups.specs.PartialSums.{terms_of};
ghost use Rattle.groups.specs.Groups.{is_group, is_below, group_sums, forward_group};

use crate::adding::sum_group;
use crate::packing::pack;
use lanes::write_group;
use terms::{Factor, span_of};
use two_time::checks::{check_sizes, has_length};
use two_time::layout::clear;
use two_time::sums::{Summed, Sums};

// Whether the places from (t, u) on are there, and few enough for the lanes.
#[tactic(auto, unfolding(crate::specs::Groups::is_group))]
pub fn is_group(points: usize, orbitals: usize, t: usize, u: usize, places: usize) -> bool
    ensures { result ≡ is_group points orbitals t u places }
{
    let limits = (points <= 256) & (orbitals <= 16);
    let there = (t < points) & (u < points);
    let few = (0 < places) & (places <= 16);
    if !(limits & (there & few)) {
        return false;
    }
    (u + places <= points) & (places * orbitals <= 16)
}

// Whether they stand on the diagonal or below it, too.
fn is_below(points: usize, orbitals: usize, t: usize, u: usize, places: usize) -> bool
    ensures { result ≡ is_below points orbitals t u places }
{
    is_group(points, orbitals, t, u, places) && u + places <= t + 1
}

// Adds the sums at the places of row t from u on to totals that are given.
pub(crate) fn group_totals(
    sums: Sums,
    times: &[f64],
    left: &[f64],
    right: &[f64],
    points: usize,
    orbitals: usize,
    t: usize,
    u: usize,
    places: usize,
    totals: &mut [f64],
)
    requires t_lt_points { (t < points) × (points ≤ 256) × (0 < orbitals) × (orbitals ≤ 16) × (0 < places) × (u + places ≤ points) × (places * orbitals ≤ 16) }
    requires orbitals_in_bounds { (length_of points orbitals ≤ length left.now) × (length_of points orbitals ≤ length right.now) × (length left.now ≤ 33554432) }
    requires totals_len { length totals.old ≡ 512 }
    ensures { (length totals.new ≡ 512) × ((a p b : ℕ) → a < orbitals → p < places → b < orbitals → lane_at totals.new a (p * orbitals + b)
        ≡ weighted_sum orbitals (terms_of sums points points orbitals times.now left.now right.now t (u + p) (lane_at totals.old a (p * orbitals + b))) a b) }
{
    let span = span_of(sums, points, t, u, places);
    sum_group(
        sums, times, left, right, points, points, orbitals, t, u, places, span.first, span.last,
        totals,
    );
}

// Writes the sums at the places of row t from u on, if all that is made for them is finite. Where no place has a term all are +0.
pub fn group(
    sums: Sums,
    times: &[f64],
    left: &[f64],
    right: &[f64],
    points: usize,
    orbitals: usize,
    t: usize,
    u: usize,
    places: usize,
    out: &mut [f64],
) -> Summed
    ensures { let made = group_sums sums points orbitals times.now left.now right.now t u places out.old in (result ≡ made.answer) × (out.new ≡ made.out) }
{
    let there = is_group(points, orbitals, t, u, places);
    let left_fits = has_length(points, orbitals, left);
    let right_fits = has_length(points, orbitals, right);
    check_sizes(points, orbitals, there & (left_fits & right_fits))?;
    let span = span_of(sums, points, t, u, places);
    let length = places * (2 * (orbitals * orbitals));
    if (span.first == span.last) & (out.len() == length) {
        clear(out);
        return Ok(());
    }
    let mut totals = [0.0; 512];
    group_totals(
        sums,
        times,
        left,
        right,
        points,
        orbitals,
        t,
        u,
        places,
        &mut totals,
    );
    write_group(&totals, orbitals, places, places, out)
}

// Dyson's sums at the places of row t from u on, at most to t: each begins with free(t, u + p) and reads the rows of G that are written.
fn forward_totals(
    times: &[f64],
    free: &[f64],
    kernel: &[f64],
    retarded: &[f64],
    points: usize,
    orbitals: usize,
    t: usize,
    u: usize,
    places: usize,
    totals: &mut [f64],
)
    requires t_lt_points { (t < points) × (points ≤ 256) × (0 < orbitals) × (orbitals ≤ 16) × (0 < places) × (u + places ≤ t + 1) × (places * orbitals ≤ 16) }
    requires orbitals_in_bounds { (length_of points orbitals ≤ length free.now) × (length_of points orbitals ≤ length kernel.now) × (length_of points orbitals ≤ length retarded.now) × (length kernel.now ≤ 33554432) }
    requires totals_len { length totals.old ≡ 512 }
    ensures { (length totals.new ≡ 512) × ((a p b : ℕ) → a < orbitals → p < places → b < orbitals → lane_at totals.new a (p * orbitals + b)
        ≡ weighted_sum orbitals (dyson_terms times.now (read_as points orbitals free.now) (read_as points orbitals kernel.now) (read_as points orbitals retarded.now) t (u + p)) a b) }
{
    pack(Factor::Stored, free, points, orbitals, t, u, places, totals);
    let first = u;
    let last = t;
    sum_group(
        Sums::Causal,
        times,
        kernel,
        retarded,
        points,
        points,
        orbitals,
        t,
        u,
        places,
        first,
        last,
        totals,
    );
}

// Writes Dyson's sums at the places of row t from u on, at most to the diagonal, if all that is made for them is finite: G(t, u) from K and the rows of G
// before it, as they stand in the slice.
pub fn forward_group(
    times: &[f64],
    free: &[f64],
    kernel: &[f64],
    points: usize,
    orbitals: usize,
    t: usize,
    u: usize,
    places: usize,
    retarded: &mut [f64],
) -> Summed
    ensures { let made = forward_group points orbitals times.now free.now kernel.now retarded.old t u places in (result ≡ made.answer) × (retarded.new ≡ made.out) }
{
    let below = is_below(points, orbitals, t, u, places);
    let free_fits = has_length(points, orbitals, free);
    let kernel_fits = has_length(points, orbitals, kernel);
    let retarded_fits = has_length(points, orbitals, retarded);
    let fits = free_fits & (kernel_fits & retarded_fits);
    check_sizes(points, orbitals, below & fits)?;
    let width = 2 * (orbitals * orbitals);
    let start = t * (points * width) + u * width;
    let end = start + places * width;
    let mut totals = [0.0; 512];
    forward_totals(
        times,
        free,
        kernel,
        retarded,
        points,
        orbitals,
        t,
        u,
        places,
        &mut totals,
    );
    write_group(&totals, orbitals, places, t - u, &mut retarded[start..end])
}
