// Many bond flows in a call (document 02, L6): the checks of the lesser function are asked once, then each query is answered as by the single call.
#![tactic(auto)]

ghost use Rattle.std.specs.Prelude.{◌≡◌, ◌*◌, ◌<◌};
ghost use Rattle.lists.specs.Prelude.{eqb, length};
ghost use Rattle.lists.specs.Singles.{singles};
ghost use Rattle.observables.specs.Calls.{observed_number};
ghost use Rattle.observables.specs.Measured.{outcome};
ghost use Rattle.flows.specs.Calls.{count, flow_of, list_checks, bond_flows_into};
ghost use Rattle.flows.specs.Asked.{Fit, asked_of};
ghost use Rattle.flows.specs.Held.{held};

use complex::Complex;
use observables::flow::flow_of;
use refusal::checks::within_list;
use refusal::{Refusal, Verdict};
use two_time::capacity::{Shape, check_capacity, check_points};
use two_time::checks::has_length;

// The queries, slice by slice, as they are lent: the hoppings have two numbers each.
#[derive(Clone, Copy)]
struct Queries<'a> {
    times: &'a [usize],
    a: &'a [usize],
    b: &'a [usize],
    hoppings: &'a [f64],
    factors: &'a [f64],
}

// Whether a slice has two numbers for each query. A product that wraps is no length.
fn is_twice(long: usize, queries: usize) -> bool
    ensures { result ≡ eqb long (2 * queries) }
{
    queries.checked_mul(2) == Some(long)
}

// 1, 2, 3, 16, 18 and 7: `fits` says whether each slice fits the list. `check_points` asks the sizes again, which passed.
fn check_list(lesser: &[f64], shape: Shape, queries: usize, fits: bool) -> Verdict
    ensures { result ≡ list_checks shape.capacity shape.points shape.orbitals lesser.now queries fits }
{
    let long = has_length(shape.capacity, shape.orbitals, lesser);
    check_capacity(shape, fits & long)?;
    within_list(queries)?;
    check_points(0, lesser, shape)
}

// The refusal's number, 0 if there is none.
#[tactic(auto, unfolding(observables::specs::Measured::outcome, observables::specs::Calls::observed_number))]
fn number(answer: Result<f64, Refusal>) -> u8
    ensures { result ≡ observed_number (outcome answer) }
{
    match answer {
        Ok(_) => 0,
        Err(r) => r.number,
    }
}

// The answer to query k.
fn answer_to(lesser: &[f64], shape: Shape, q: Queries, k: usize) -> Result<f64, Refusal>
    requires { Fit (held q) × (k < count (held q)) }
    ensures { outcome result ≡ asked_of shape.capacity shape.points shape.orbitals lesser.now (held q.entry) k }
{
    let hopping = Complex::new(q.hoppings[2 * k], q.hoppings[2 * k + 1]);
    flow_of(
        lesser,
        shape,
        q.times[k],
        q.a[k],
        q.b[k],
        hopping,
        q.factors[k],
    )
}

// Writes the answers in list order. The loop counts, as two slices are written at k: of mutable iterators in a zip a proof knows nothing.
fn fill(lesser: &[f64], shape: Shape, q: Queries, flows: &mut [f64], numbers: &mut [u8])
    requires fit { Fit (held q) }
    requires flows_len { (length flows.old ≡ count (held q)) × (length numbers.old ≡ count (held q)) }
    ensures { let asked = asked_of shape.capacity shape.points shape.orbitals lesser.now (held q.entry) in
        (flows.new ≡ singles (count (held q.entry)) (λ k. flow_of (asked k)))
        × (numbers.new ≡ singles (count (held q.entry)) (λ k. observed_number (asked k))) }
{
    for k in 0..q.times.len() {
        let answer = answer_to(lesser, shape, q, k);
        flows[k] = answer.unwrap_or(0.0);
        numbers[k] = number(answer);
    }
}

// The flow into orbital a[k] from b[k] at times[k] for each k, or +0, and beside it the number of its refusal, or 0. The hoppings have two numbers each.
pub fn bond_flows_into(
    lesser: &[f64],
    shape: Shape,
    times: &[usize],
    a: &[usize],
    b: &[usize],
    hoppings: &[f64],
    factors: &[f64],
    flows: &mut [f64],
    numbers: &mut [u8],
) -> Verdict
    ensures { let made = bond_flows_into shape.capacity shape.points shape.orbitals lesser.now (record { times = times.entry.now; a = a.now; b = b.now; hoppings = hoppings.now; factors = factors.now }) flows.old numbers.old in
        (result ≡ made.answer) × (flows.new ≡ made.flows) × (numbers.new ≡ made.numbers) }
{
    let queries = times.len();
    let bonds = (a.len() == queries) & (b.len() == queries);
    let couplings = is_twice(hoppings.len(), queries) & (factors.len() == queries);
    let outputs = (flows.len() == queries) & (numbers.len() == queries);
    check_list(lesser, shape, queries, bonds & (couplings & outputs))?;
    let asked = Queries {
        times,
        a,
        b,
        hoppings,
        factors,
    };
    fill(lesser, shape, asked, flows, numbers);
    Ok(())
}
