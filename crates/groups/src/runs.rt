// The places of a run in a row, group by group.
ghost use Rattle.std.specs.Prelude.{◌≡◌, ◌+◌, ◌*◌, ◌<◌, ◌≤◌};
ghost use Rattle.lists.specs.Prelude.{ℕ, Bool, false, List, Float, length};
ghost use Rattle.two_time.specs.Summed.{Summed};
ghost use Rattle.lanes.specs.Filled.{Answered};
ghost use Rattle.groups.specs.Runs.{FitsRun, Writes, group_places, run};

use two_time::layout::clear;
use two_time::sums::Summed;

// What writes the blocks of a row: what it answers at places of it, and what it leaves of the slice that it is lent for them.
pub trait Row {
    ghost answer: { Self → ℕ → ℕ → List Float → Summed };

    ghost left: { Self → ℕ → ℕ → List Float → List Float };

    // Writes the blocks at `places` places from column u on.
    fn write(&self, u: usize, places: usize, out: &mut [f64]) -> Summed
        ensures { (result ≡ answer self.now u places out.old) × (out.new ≡ left self.now u places out.old) };
}

// How many places the next group has where `rest` are left: at most 16 columns, and none where there is no orbital.
#[tactic(auto, unfolding(crate::specs::Runs::group_places))]
pub fn group_places(rest: usize, orbitals: usize) -> usize
    ensures { result ≡ group_places rest orbitals }
{
    if orbitals == 0 {
        return 0;
    }
    rest.min(16 / orbitals)
}

// Writes the blocks at `count` places of a row from column `from` on, and answers whether all that is made for them is finite; at the first group that is
// not the work ends, and +0 stands throughout. Where places and slice don't fit one another it answers no and writes nothing.
pub fn row_by_groups<R: Row>(
    row: &R,
    orbitals: usize,
    from: usize,
    count: usize,
    out: &mut [f64],
) -> bool
    ensures { let made = run (R.answer row.now) (R.left row.now) orbitals from count out.old in (result ≡ made.answer) × (out.new ≡ made.out) }
{
    if orbitals == 0 || orbitals > 16 || from > 256 || count > 256 - from {
        return false;
    }
    let width = 2 * (orbitals * orbitals);
    if out.len() != count * width {
        return false;
    }
    // By hand: a step is as many places as the group has, which no range gives.
    let mut p = 0;
    while p < count {
        let places = group_places(count - p, orbitals);
        let start = p * width;
        let end = start + places * width;
        if row.write(from + p, places, &mut out[start..end]).is_err() {
            clear(out);
            return false;
        }
        p += places;
    }
    true
}

// The same with a closure: `group` writes the blocks of a group. After a group that is not finite the slice is left as it is. What a closure answers and
// leaves is a relation and no function, so `row_by_groups` can't serve here. Outside its tests no crate here calls it.
pub fn by_groups<G: Fn(usize, usize, &mut [f64]) -> Summed>(
    group: G,
    orbitals: usize,
    from: usize,
    count: usize,
    out: &mut [f64],
) -> bool
    requires callable { G.IsAlwaysCallable group }
    ensures unfit { (FitsRun orbitals from count (length out.old) → ⊥) → (result ≡ false) × (out.new ≡ out.old) }
    ensures fit { (finite : ℕ → Bool) (made : ℕ → List Float) → FitsRun orbitals from count (length out.old) → Writes orbitals from (from + count) finite made (λ u places x r y. G.post group u places x r y)
        → Answered count (λ p. finite (from + p)) (λ p. made (from + p)) result out.new }
{
    if orbitals == 0 || orbitals > 16 || from > 256 || count > 256 - from {
        return false;
    }
    let width = 2 * (orbitals * orbitals);
    if out.len() != count * width {
        return false;
    }
    // By hand, as in `row_by_groups`.
    let mut p = 0;
    while p < count {
        let places = group_places(count - p, orbitals);
        let start = p * width;
        let end = start + places * width;
        if group(from + p, places, &mut out[start..end]).is_err() {
            return false;
        }
        p += places;
    }
    true
}

#[cfg(test)]
mod tests;
