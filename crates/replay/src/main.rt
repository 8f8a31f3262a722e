// Runs the calls of a stored list (document 01), which stands on standard input, and writes a line for each: its index, its answer, and
// what each output and scratch slice holds afterwards. CALLS.md says how a call stands in the list.
#![tactic(auto)]

mod blocks;
mod bonds;
mod calls;
mod lent;
mod made;
mod observe;
mod show;
mod solve;
mod transient;
mod weights;
mod words;
mod xorshift;

use calls::Function;
use lent::{Head, Lent};
use norm::norm;
use show::Show;
use std::io::{self, Read, Write};
use words::word;

fn call(
    input: &mut impl Read,
    out: &mut impl Write,
    head: Head,
    function: Function,
    lent: &Lent,
) -> io::Result<()> {
    match function {
        Function::Solve(solve) => solve::call(input, out, head, solve, lent),
        Function::Observe(observe) => observe::call(input, out, head, observe, lent),
        Function::Norm => norm(word(input), word(input)).show(out),
        Function::Blocks(blocks) => blocks::call(input, out, head, blocks, lent),
        Function::Weights(weights) => weights::call(input, out, head, weights, lent),
        Function::BondFlows => bonds::call(input, out, head, lent),
    }
}

// One call, and whether there was one. A function that is none ends the run, once what stands in its place is read. The index is written after the slices
// are read, and of bond flows before.
fn run_call(
    input: &mut impl Read,
    out: &mut impl Write,
    index: u64,
    numbers: &mut [f64],
) -> io::Result<bool> {
    let Some(number) = words::next(input) else {
        return Ok(false);
    };
    let function = Function::try_from(number % 64).ok();
    let head = lent::begin(input, function, number);
    let flows = matches!(function, Some(Function::BondFlows));
    if flows {
        write!(out, "{index}")?;
    }
    let lent = lent::lend(input, head, numbers);
    if !flows {
        write!(out, "{index}")?;
    }
    if let Some(function) = function {
        call(input, out, head, function, &lent)?;
    }
    out.write_all(b"\n")?;
    Ok(function.is_some())
}

// A proved loop has to end, so the calls are counted up to a number that no run reaches.
fn run(input: &mut impl Read, out: &mut impl Write, numbers: &mut [f64]) -> io::Result<()> {
    for index in 0..1_000_000 {
        if !run_call(input, out, index, numbers)? {
            break;
        }
    }
    Ok(())
}

// Room for the times and a function of the most numbers.
fn main(rt: HostRuntime) -> io::Result<()> {
    let mut numbers = [0.0; 131328];
    run(&mut rt.stdin(), &mut rt.stdout(), &mut numbers)
}
