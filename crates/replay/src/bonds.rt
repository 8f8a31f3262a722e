// A list of bond flows of a lesser function in a capacity. Its queries stand in five slices, of which each has what is stored again and again up to the
// length that is told after the capacity; then come the lengths of the flows and of the refusals.
use crate::lent::{HELD, Head, Lent, output, repeated};
use crate::show::{self, Show};
use crate::words::{slice, word};
use flows::bond_flows_into;
use std::io::{self, Read, Write};
use two_time::capacity::Shape;

// What the refusals hold before the call, again and again.
const REFUSALS: [u8; 3] = [7, 0, 255];

// The outputs' lengths are the last words.
fn answer(
    input: &mut impl Read,
    out: &mut impl Write,
    shape: Shape,
    lesser: &[f64],
    times: &[usize],
    a: &[usize],
    b: &[usize],
    hoppings: &[f64],
    factors: &[f64],
) -> io::Result<()> {
    let mut flow_room = [0.0; 2052];
    let mut refusal_room = [0; 2052];
    let flows = output(input, &HELD, &mut flow_room);
    let refusals = output(input, &REFUSALS, &mut refusal_room);
    let verdict = bond_flows_into(
        lesser, shape, times, a, b, hoppings, factors, flows, refusals,
    );
    verdict.show(out)?;
    show::numbers(out, flows)?;
    show::bytes(out, refusals)
}

pub(crate) fn call(
    input: &mut impl Read,
    out: &mut impl Write,
    head: Head,
    lent: &Lent,
) -> io::Result<()> {
    let mut times = [0; 2052];
    let mut a = [0; 2052];
    let mut b = [0; 2052];
    let mut hoppings = [0.0; 2052];
    let mut factors = [0.0; 2052];
    let stored_times = slice(input, &mut times);
    let stored_a = slice(input, &mut a);
    let stored_b = slice(input, &mut b);
    let stored_hoppings = slice(input, &mut hoppings);
    let stored_factors = slice(input, &mut factors);
    let shape = Shape {
        points: head.points,
        capacity: word(input),
        orbitals: head.orbitals,
    };
    let all_times = repeated(input, stored_times, &mut times);
    let all_a = repeated(input, stored_a, &mut a);
    let all_b = repeated(input, stored_b, &mut b);
    let all_hoppings = repeated(input, stored_hoppings, &mut hoppings);
    let all_factors = repeated(input, stored_factors, &mut factors);
    answer(
        input,
        out,
        shape,
        lent.part(1),
        all_times,
        all_a,
        all_b,
        all_hoppings,
        all_factors,
    )
}
