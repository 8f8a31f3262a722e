// Two dots that do not couple (document 02, L12), of the running code: what two runs with one split leave of the first dot, and what a bond flow answers.
#![tactic(auto)]

ghost use Rattle.std.specs.Prelude.{◌≡◌};
ghost use Rattle.two_runs.specs.Promises.{run_with};
ghost use Rattle.two_dots.specs.Promises.{run_flow, flow_in, Separate};

use complex::Complex;
use observables::{Observed, bond_flow_into};
use transient_run::Booked;
use two_runs::{Given, run_by};

// A bond, its hopping and factor, and the time at which its flow is asked.
#[derive(Clone, Copy)]
pub struct Bond {
    pub time: usize,
    pub a: usize,
    pub b: usize,
    pub hopping: Complex,
    pub charge: f64,
}

// The answer of a run with the session after it, and the flow of a bond in what it left.
#[derive(Clone, Copy)]
pub struct Flow {
    pub run: Booked,
    pub flow: Observed,
}

// A run, and a bond flow asked of it.
pub fn run_and_flow(
    given: Given<'_>,
    retarded: &mut [f64],
    lesser: &mut [f64],
    kernel: &mut [f64],
    lesser_advanced: &mut [f64],
    bond: Bond,
) -> Flow
    ensures { flow_in result retarded.new lesser.new kernel.new lesser_advanced.new ≡ run_flow (run_with given.entry retarded.old lesser.old kernel.old lesser_advanced.old) bond }
{
    let run = run_by(given, retarded, lesser, kernel, lesser_advanced);
    let Bond {
        time,
        a,
        b,
        hopping,
        charge,
    } = bond;
    let flow = bond_flow_into(lesser, given.shape, time, a, b, hopping, charge);
    Flow { run, flow }
}

// Two runs, each given its own, and the flow of one bond asked of each; the second run's names end in 2. For every split of the orbitals: where both are
// accepted, do not couple the two groups and agree in the first, they leave the same first group, and the flow of a bond within it is the same answer.
pub fn two_dots(
    given: Given<'_>,
    retarded: &mut [f64],
    lesser: &mut [f64],
    kernel: &mut [f64],
    lesser_advanced: &mut [f64],
    given2: Given<'_>,
    retarded2: &mut [f64],
    lesser2: &mut [f64],
    kernel2: &mut [f64],
    lesser_advanced2: &mut [f64],
    bond: Bond,
) -> (Flow, Flow)
    ensures { let a = run_with given.entry retarded.old lesser.old kernel.old lesser_advanced.old in
        let b = run_with given2.entry retarded2.old lesser2.old kernel2.old lesser_advanced2.old in
        let x = flow_in result.0 retarded.new lesser.new kernel.new lesser_advanced.new in
        let y = flow_in result.1 retarded2.new lesser2.new kernel2.new lesser_advanced2.new in
        (x ≡ run_flow a bond) × (y ≡ run_flow b bond) × Separate a b bond x y }
{
    let first = run_and_flow(given, retarded, lesser, kernel, lesser_advanced, bond);
    let second = run_and_flow(given2, retarded2, lesser2, kernel2, lesser_advanced2, bond);
    (first, second)
}
