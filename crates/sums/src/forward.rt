// Row t of Dyson's G (document 01, Dyson), group by group from the rows before it.
ghost use Rattle.std.specs.Prelude.{◌≡◌, ◌∷◌, ◌+◌, ◌*◌, ◌<◌};
ghost use Rattle.lists.specs.Prelude.{true, List, [], Float, put_mid};
ghost use Rattle.lists.specs.Indexed.{all_below, join};
ghost use Rattle.refusal.specs.Verdict.{pass};
ghost use Rattle.two_time.specs.Calls.{size_checks};
ghost use Rattle.groups.specs.Forward.{forward_finite, forward_block};

use groups::forward_group;
use groups::runs::group_places;

// Writes G(t, u) for u from 0 to t, and answers whether all that is made for it is finite; at the first group that is not the work ends. All that it
// writes stands at these places.
pub(crate) fn blocks(
    times: &[f64],
    free: &[f64],
    kernel: &[f64],
    points: usize,
    orbitals: usize,
    t: usize,
    retarded: &mut [f64],
) -> bool
    requires { (t < points) × (size_checks points orbitals true (free.now ∷ kernel.now ∷ retarded.old ∷ []) ≡ pass) }
    ensures { (result ≡ all_below (t + 1) (forward_finite points orbitals times.now free.now kernel.now retarded.old t))
        × (result ≡ true → retarded.new ≡ put_mid (t * (points * (2 * (orbitals * orbitals)))) ((t + 1) * (2 * (orbitals * orbitals))) retarded.old (join (t + 1) (forward_block points orbitals times.now free.now kernel.now retarded.old t)))
        × ((ys : List Float) → put_mid (t * (points * (2 * (orbitals * orbitals)))) ((t + 1) * (2 * (orbitals * orbitals))) retarded.new ys ≡ put_mid (t * (points * (2 * (orbitals * orbitals)))) ((t + 1) * (2 * (orbitals * orbitals))) retarded.old ys) }
{
    // The groups read what the groups before them wrote, so no `Row` can hold the slice, as `row_by_groups` has it.
    let mut u = 0;
    while u < t + 1 {
        let places = group_places(t + 1 - u, orbitals);
        if forward_group(
            times, free, kernel, points, orbitals, t, u, places, retarded,
        )
        .is_err()
        {
            return false;
        }
        u += places;
    }
    true
}
