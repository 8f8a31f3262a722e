// The checks of document 01, "Questions in order", and 16, 17, 18 and 22 of document 02, each a question over plain values. All are total: a number past the end
// of a slice is a NaN to them.
ghost use Rattle.std.specs.Prelude.{◌≡◌, ◌+◌, ◌≤◌};
ghost use Rattle.lists.specs.Prelude.{max, get_or, length, nan, lt};
ghost use Rattle.complex.specs.Arithmetic.{finite};
ghost use Rattle.refusal.specs.Verdict.{by, ask, ask_all};
ghost use Rattle.refusal.specs.Checks.{large_enough, not_empty, within_limits, within_block, within_program, fitting, finite_times, rising_times, finite_at, finite_entries, valid_tolerance, retarded_at, finite_work, time_below, orbital_below, finite_factors, real_within, well_formed, within_capacity, counter_holds, within_list, desk_known};
ghost use Rattle.refusal.specs.Search.{Prefix};

use crate::{Refusal, Verdict};
use complex::Complex;

// The answer to one question.
#[tactic(auto, unfolding(crate::specs::Verdict::ask))]
fn asked(yes: bool, refusal: Refusal) -> Verdict
    ensures { result ≡ ask yes refusal }
{
    if yes { Ok(()) } else { Err(refusal) }
}

// The answer to a question of a check that has no places.
pub fn numbered(yes: bool, number: u8) -> Verdict
    ensures { result ≡ ask yes (by number) }
{
    asked(yes, Refusal::by(number))
}

// How many numbers are finite before the first that is not.
fn finite_before(xs: &[f64]) -> usize
    ensures { Prefix (λ i. finite (get_or xs.now i nan)) (length xs.now) result }
{
    xs.iter()
        .position(|x| !complex::is_finite(*x))
        .unwrap_or(xs.len())
}

// How many of the count numbers from `start` on are finite before the first that is not.
fn finite_prefix(xs: &[f64], start: usize, count: usize) -> usize
    ensures { (result + start ≤ max start (length xs.now)) × Prefix (λ i. finite (get_or xs.now (i + start) nan)) count result }
{
    let from = start.min(xs.len());
    let end = from + count.min(xs.len() - from);
    finite_before(&xs[from..end])
}

// How many of the first steps rise before the first that does not.
fn rising_prefix(times: &[f64], steps: usize) -> usize
    ensures { Prefix (λ i. lt (get_or times.now i nan) (get_or times.now (i + 1) nan)) steps result }
{
    let end = steps.min(times.len().saturating_sub(1));
    // By index: std has no lemma on a search over `windows`.
    for i in 0..end {
        if !(times[i] < times[i + 1]) {
            return i;
        }
    }
    end
}

// 1, of a call on a grid: N is at least 2 and n at least 1.
#[tactic(auto, unfolding(crate::specs::Checks::large_enough))]
pub fn large_enough(points: usize, orbitals: usize) -> Verdict
    ensures { result ≡ large_enough points orbitals }
{
    numbered((2 <= points) & (1 <= orbitals), 1)
}

// 1, of a block: it has a row and a column.
#[tactic(auto, unfolding(crate::specs::Checks::not_empty))]
pub fn not_empty(rows: usize, columns: usize) -> Verdict
    ensures { result ≡ not_empty rows columns }
{
    numbered((1 <= rows) & (1 <= columns), 1)
}

// 2, of a call on a grid: N is at most 256 and n at most 16.
#[tactic(auto, unfolding(crate::specs::Checks::within_limits))]
pub fn within_limits(points: usize, orbitals: usize) -> Verdict
    ensures { result ≡ within_limits points orbitals }
{
    numbered((points <= 256) & (orbitals <= 16), 2)
}

// 2, of a block: it has at most 16 rows and columns.
#[tactic(auto, unfolding(crate::specs::Checks::within_block))]
pub fn within_block(rows: usize, columns: usize) -> Verdict
    ensures { result ≡ within_block rows columns }
{
    numbered((rows <= 16) & (columns <= 16), 2)
}

// 2, of the program: N·n is at most 16.
#[tactic(auto, unfolding(crate::specs::Checks::within_program))]
pub fn within_program(points: usize, orbitals: usize) -> Verdict
    ensures { result ≡ within_program points orbitals }
{
    numbered(points.saturating_mul(orbitals) <= 16, 2)
}

// 3: each lent slice has its exact length, or the shapes of blocks fit.
#[tactic(auto, unfolding(crate::specs::Checks::fitting))]
pub fn fitting(all: bool) -> Verdict
    ensures { result ≡ fitting all }
{
    numbered(all, 3)
}

// 4: the times are finite.
#[tactic(auto, unfolding(crate::specs::Checks::finite_times))]
pub fn finite_times(points: usize, times: &[f64]) -> Verdict
    ensures { result ≡ finite_times points times.now }
{
    numbered(finite_prefix(times, 0, points) == points, 4)
}

// 5: each time exceeds the one before; with the first index that does not.
#[tactic(auto, unfolding(crate::specs::Checks::rising_times))]
pub fn rising_times(points: usize, times: &[f64]) -> Verdict
    ensures { result ≡ rising_times points times.now }
{
    let steps = points.saturating_sub(1);
    let risen = rising_prefix(times, steps);
    let refusal = Refusal {
        first: risen + 1,
        ..Refusal::by(5)
    };
    asked(risen == steps, refusal)
}

// 7: the first count numbers of an operand are finite; with the operand and the first position that is not.
#[tactic(auto, unfolding(crate::specs::Checks::finite_entries))]
pub fn finite_entries(operand: usize, xs: &[f64], count: usize) -> Verdict
    ensures { result ≡ finite_entries operand xs.now count }
{
    entries_from(operand, xs, 0, count)
}

// The same of the count numbers from `start` on.
pub fn entries_from(operand: usize, xs: &[f64], start: usize, count: usize) -> Verdict
    ensures { result ≡ ask_all count (λ i. finite_at operand xs.now (i + start)) }
{
    let passed = finite_prefix(xs, start, count);
    let refusal = Refusal {
        operand,
        first: passed + start,
        ..Refusal::by(7)
    };
    asked(passed == count, refusal)
}

// 8: the tolerance is finite and above 0.
#[tactic(auto, unfolding(crate::specs::Checks::valid_tolerance))]
pub fn valid_tolerance(tolerance: f64) -> Verdict
    ensures { result ≡ valid_tolerance tolerance }
{
    numbered(complex::is_finite(tolerance) & (0.0 < tolerance), 8)
}

// 9, at one place: the residual does not exceed the tolerance; a NaN does not.
#[tactic(auto, unfolding(crate::specs::Checks::retarded_at))]
pub fn retarded_at(
    operand: usize,
    first: usize,
    second: usize,
    tolerance: f64,
    residual: f64,
) -> Verdict
    ensures { result ≡ retarded_at operand first second tolerance residual }
{
    let refusal = Refusal {
        number: 9,
        operand,
        first,
        second,
        part: residual,
    };
    asked(!(tolerance < residual), refusal)
}

// 10: every block made during the work is finite.
#[tactic(auto, unfolding(crate::specs::Checks::finite_work))]
pub fn finite_work(all: bool) -> Verdict
    ensures { result ≡ finite_work all }
{
    numbered(all, 10)
}

// 11: the time index is below N.
#[tactic(auto, unfolding(crate::specs::Checks::time_below))]
pub fn time_below(index: usize, points: usize) -> Verdict
    ensures { result ≡ time_below index points }
{
    numbered(index < points, 11)
}

// 12: the orbital is below n.
#[tactic(auto, unfolding(crate::specs::Checks::orbital_below))]
pub fn orbital_below(index: usize, orbitals: usize) -> Verdict
    ensures { result ≡ orbital_below index orbitals }
{
    numbered(index < orbitals, 12)
}

// 13: the hopping and the charge factor are finite.
#[tactic(auto, unfolding(crate::specs::Checks::finite_factors))]
pub fn finite_factors(hopping: Complex, charge: f64) -> Verdict
    ensures { result ≡ finite_factors hopping charge }
{
    numbered(hopping.is_finite() & complex::is_finite(charge), 13)
}

// 14: the imaginary part's size does not exceed the tolerance; with that part. A NaN does not exceed.
#[tactic(auto, unfolding(crate::specs::Checks::real_within))]
pub fn real_within(tolerance: f64, part: f64) -> Verdict
    ensures { result ≡ real_within tolerance part }
{
    let refusal = Refusal {
        part,
        ..Refusal::by(14)
    };
    asked(!(tolerance < complex::abs(part)), refusal)
}

// 15: the run file is well formed.
#[tactic(auto, unfolding(crate::specs::Checks::well_formed))]
pub fn well_formed(all: bool) -> Verdict
    ensures { result ≡ well_formed all }
{
    numbered(all, 15)
}

// 16: the points are within the capacity.
#[tactic(auto, unfolding(crate::specs::Checks::within_capacity))]
pub fn within_capacity(points: usize, capacity: usize) -> Verdict
    ensures { result ≡ within_capacity points capacity }
{
    numbered(points <= capacity, 16)
}

// 17: the counter holds the count too.
#[tactic(auto, unfolding(crate::specs::Checks::counter_holds))]
pub fn counter_holds(counter: u64, count: u64) -> Verdict
    ensures { result ≡ counter_holds counter count }
{
    numbered(counter.checked_add(count).is_some(), 17)
}

// 18: the list has at most 1,024 queries.
#[tactic(auto, unfolding(crate::specs::Checks::within_list))]
pub fn within_list(queries: usize) -> Verdict
    ensures { result ≡ within_list queries }
{
    numbered(queries <= 1024, 18)
}

// 22: there are eight desks.
#[tactic(auto, unfolding(crate::specs::Checks::desk_known))]
pub fn desk_known(desk: usize) -> Verdict
    ensures { result ≡ desk_known desk }
{
    numbered(desk < 8, 22)
}
