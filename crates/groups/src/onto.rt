// The sums at a group of places, from numbers that are given.
ghost use Rattle.std.specs.Prelude.{◌≡◌};
ghost use Rattle.groups.specs.Onto.{group_onto};

use crate::{group_totals, is_group};
use lanes::write_group;
use two_time::checks::{check_sizes, has_length};
use two_time::sums::{Summed, Sums};

// Writes the sums at the places of row t from u on, each from what its lane of `starts` holds, if that and all that is made for them is finite.
pub fn group_onto(
    sums: Sums,
    times: &[f64],
    left: &[f64],
    right: &[f64],
    starts: [f64; 512],
    points: usize,
    orbitals: usize,
    t: usize,
    u: usize,
    places: usize,
    out: &mut [f64],
) -> Summed
    ensures { let made = group_onto sums points orbitals times.now left.now right.now starts t u places out.old in (result ≡ made.answer) × (out.new ≡ made.out) }
{
    let there = is_group(points, orbitals, t, u, places);
    let left_fits = has_length(points, orbitals, left);
    let right_fits = has_length(points, orbitals, right);
    check_sizes(points, orbitals, there & (left_fits & right_fits))?;
    let mut totals = starts;
    group_totals(
        sums,
        times,
        left,
        right,
        points,
        orbitals,
        t,
        u,
        places,
        &mut totals,
    );
    write_group(&totals, orbitals, places, places, out)
}
