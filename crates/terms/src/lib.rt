// For each kind of sums, the terms of a group of neighbouring places of a row: which s it has, to which of its lanes term s goes, and by what weight. Lane
// p·n + b is column b of the group's place p.
#![tactic(auto)]

ghost use Rattle.std.specs.Prelude.{◌≡◌, ◌+◌, ◌-◌, ◌<◌, ◌≤◌};
ghost use Rattle.lists.specs.Prelude.{cond, ltb};
ghost use Rattle.complex.specs.Arithmetic.{plus_zero};
ghost use Rattle.two_time.specs.Sums.{interval_count};
ghost use Rattle.terms.specs.Kinds.{factor_of, right_number, lanes_below, lanes_above, lanes_here, common_weight, end_weight, first_of, last_of};
ghost use Rattle.terms.specs.Calls.{term_of, span_fits, span_of};

use complex::Complex;
use grid::{full_weight, interval_weight};
use two_time::sums::Sums;

// The right factor at (s, t').
#[derive(Clone, Copy)]
pub enum Factor {
    // The block (s, t') as it is stored.
    Stored,
    // The adjoint of the stored block (t', s).
    Adjoint,
}

impl Factor {
    // The right factor's number, of the one that is stored.
    #[tactic(auto, unfolding(crate::specs::Kinds::right_number))]
    pub fn number(self, z: Complex) -> Complex
        ensures { result ≡ right_number self z }
    {
        match self {
            Factor::Stored => z,
            Factor::Adjoint => z.conj(),
        }
    }
}

// How a term goes to the `lanes` lanes of a group: to those below `below` and those from `above` on by the common weight, to those from
// `before` to before `after` by the weight at the end of their interval, to no other. The default goes to none.
#[derive(Clone, Copy, Default)]
pub struct Term {
    pub common: f64,
    pub ends: f64,
    pub below: usize,
    pub before: usize,
    pub after: usize,
    pub above: usize,
    pub lanes: usize,
}

// Which s a group has: those from `first` to before `last`.
#[derive(Clone, Copy)]
pub struct Span {
    pub first: usize,
    pub last: usize,
}

// The right factor of a kind of sums.
#[tactic(auto, unfolding(crate::specs::Kinds::factor_of))]
pub fn factor_of(sums: Sums) -> Factor
    ensures { result ≡ factor_of sums }
{
    match sums {
        Sums::LesserAdvanced => Factor::Adjoint,
        Sums::Full | Sums::Causal | Sums::Lesser | Sums::AntiCausal => Factor::Stored,
    }
}

// Of the places before s, how many have s; and the first place after s that has it.
#[tactic(auto, unfolding(crate::specs::Kinds::lanes_below))]
fn below_end(sums: Sums, before: usize) -> usize
    ensures { result ≡ cond (lanes_below sums) before 0 }
{
    match sums {
        Sums::Full | Sums::Causal | Sums::Lesser => before,
        Sums::LesserAdvanced | Sums::AntiCausal => 0,
    }
}

#[tactic(auto, unfolding(crate::specs::Kinds::lanes_above))]
fn above_start(sums: Sums, after: usize, places: usize) -> usize
    ensures { result ≡ cond (lanes_above sums) after places }
{
    match sums {
        Sums::Causal => places,
        Sums::Full | Sums::LesserAdvanced | Sums::Lesser | Sums::AntiCausal => after,
    }
}

// Whether the sum at place s has s, which row t has: not where the interval there is s alone.
#[tactic(auto, unfolding(crate::specs::Kinds::lanes_here))]
fn lanes_here(sums: Sums, t: usize, s: usize) -> bool
    ensures { result ≡ lanes_here sums t s }
{
    match sums {
        Sums::Full | Sums::Lesser => true,
        Sums::Causal => s < t,
        Sums::LesserAdvanced => 0 < s,
        Sums::AntiCausal => t < s,
    }
}

// The weight of s at every place but s, and at place s.
#[tactic(auto, unfolding(crate::specs::Kinds::common_weight))]
fn common_weight(sums: Sums, times: &[f64], points: usize, t: usize, s: usize) -> f64
    requires { (s < points) × (points ≤ 256) }
    ensures { result ≡ common_weight sums times.now points t s }
{
    let next = s + 1;
    match sums {
        Sums::Full => full_weight(times, points, s),
        Sums::Causal | Sums::Lesser => interval_weight(times, s, 0, t),
        Sums::LesserAdvanced => interval_weight(times, s, 0, next),
        Sums::AntiCausal => interval_weight(times, s, t, next),
    }
}

#[tactic(auto, unfolding(crate::specs::Kinds::end_weight))]
fn end_weight(sums: Sums, times: &[f64], points: usize, t: usize, s: usize) -> f64
    ensures { result ≡ end_weight sums times.now points t s }
{
    match sums {
        Sums::Full => full_weight(times, points, s),
        Sums::Causal => interval_weight(times, s, s, t),
        Sums::LesserAdvanced => interval_weight(times, s, 0, s),
        Sums::Lesser => interval_weight(times, s, 0, t),
        Sums::AntiCausal => interval_weight(times, s, t, s),
    }
}

// The weight at place s, if a lane stands there; else no lane asks.
fn end_weight_of(
    sums: Sums,
    times: &[f64],
    points: usize,
    t: usize,
    s: usize,
    before: usize,
    after: usize,
) -> f64
    ensures { result ≡ cond (ltb before after) (end_weight sums times.now points t s) plus_zero }
{
    if before < after {
        end_weight(sums, times, points, t, s)
    } else {
        0.0
    }
}

// How term s of row t goes to the lanes of `places` places from u on; to none where s is no point or a size is past its limit.
#[tactic(auto, unfolding(crate::specs::Calls::term_of))]
pub fn term_of(
    sums: Sums,
    times: &[f64],
    points: usize,
    orbitals: usize,
    t: usize,
    s: usize,
    u: usize,
    places: usize,
) -> Term
    ensures { result ≡ term_of sums times.now points orbitals t s u places }
{
    if !(((s < points) & (points <= 256)) & ((orbitals <= 16) & (places <= 16))) {
        return Term::default();
    }
    // How many of the places lie before s, and before s + 1.
    let before = s.saturating_sub(u).min(places);
    let after = (s + 1).saturating_sub(u).min(places);
    let ended = if lanes_here(sums, t, s) {
        after
    } else {
        before
    };
    Term {
        common: common_weight(sums, times, points, t, s),
        ends: end_weight_of(sums, times, points, t, s, before, ended),
        below: below_end(sums, before) * orbitals,
        before: before * orbitals,
        after: ended * orbitals,
        above: above_start(sums, after, places) * orbitals,
        lanes: places * orbitals,
    }
}

// How many terms the sum over the interval from 0 to `end` has.
#[tactic(auto, unfolding(two_time::specs::Sums::interval_count))]
fn interval_count(end: usize) -> usize
    requires { end < 256 }
    ensures { result ≡ interval_count 0 end }
{
    if 0 < end { end + 1 } else { 0 }
}

// The first s of the places from u on, and the s after their last.
#[tactic(auto, unfolding(crate::specs::Kinds::first_of))]
fn first_of(sums: Sums, t: usize, u: usize) -> usize
    ensures { result ≡ first_of sums t u }
{
    match sums {
        Sums::Full | Sums::LesserAdvanced | Sums::Lesser => 0,
        Sums::Causal => u,
        Sums::AntiCausal => t,
    }
}

#[tactic(auto, unfolding(crate::specs::Kinds::last_of))]
fn last_of(sums: Sums, points: usize, t: usize, u: usize, places: usize) -> usize
    requires { (t < points) × (points ≤ 256) × (u + places ≤ points) }
    ensures { result ≡ last_of sums points t u places }
{
    let row_end = t + 1;
    let row_count = interval_count(t);
    let places_end = u + places;
    match sums {
        Sums::Full => points,
        Sums::Causal => u.max(row_end),
        Sums::LesserAdvanced => places_end,
        Sums::Lesser => row_count,
        Sums::AntiCausal => t.max(places_end),
    }
}

// Whether row t and the places from u on are there, within the limits.
fn span_fits(points: usize, t: usize, u: usize, places: usize) -> bool
    ensures { result ≡ span_fits points t u places }
{
    u <= points && places <= points - u && t < points && points <= 256
}

// Which s the places of row t from u on have together; none where one of them is not there.
#[tactic(auto, unfolding(crate::specs::Calls::span_of))]
pub fn span_of(sums: Sums, points: usize, t: usize, u: usize, places: usize) -> Span
    ensures { result ≡ span_of sums points t u places }
{
    if !span_fits(points, t, u, places) {
        return Span { first: 0, last: 0 };
    }
    let first = first_of(sums, t, u);
    let last = last_of(sums, points, t, u, places);
    Span { first, last }
}
