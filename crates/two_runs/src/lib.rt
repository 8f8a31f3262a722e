// Demand 3 of the running code: what two calls of the solver leave, and what each observable answers of two runs, whatever data come later. And the law of
// appends: what a run leaves with appends after it, and what they add to their desk's counter.
#![tactic(auto)]

ghost use Rattle.std.specs.Prelude.{◌≡◌};
ghost use Rattle.lists.specs.Prelude.{true};
ghost use Rattle.transient_run.specs.Calls.{append_point, is_accepted};
ghost use Rattle.causality.specs.Statement.{DysonDemanded};
ghost use Rattle.causality.specs.Dyson.{dyson_of};
ghost use Rattle.two_runs.specs.Promises.{run_with, call_with, step_of, run_step, step_in, run_answers, answers_in, solved_in, Blind};
ghost use Rattle.two_runs.specs.Appending.{run_then_append, AllPoints};

use complex::Complex;
use dyson::retarded_dyson_with_tolerance;
use matrix::DenseMatrix;
use observables::{Observed, bond_flow_into, one_body_expectation, particle_number};
use refusal::Verdict;
use transient_run::{
    Booked, Session, append_point, append_point_occupied, transient_run, transient_run_occupied,
};
use two_time::capacity::Shape;

// What is asked of a run beside a block: the time, the tolerance of the imaginary part, and the bond.
#[derive(Clone, Copy)]
pub struct Question {
    pub time: usize,
    pub tolerance: f64,
    pub a: usize,
    pub b: usize,
    pub hopping: Complex,
    pub charge: f64,
}

// The answer of a run with the session after it, and what the three observables answer of what it left.
#[derive(Clone, Copy)]
pub struct Answers {
    pub run: Booked,
    pub number: Observed,
    pub expectation: Observed,
    pub flow: Observed,
}

// What a run or an append is given beside the slices that it writes.
#[derive(Clone, Copy)]
pub struct Given<'a> {
    // The block g0 that an occupied device starts from; another starts empty.
    pub g0: Option<DenseMatrix>,
    pub session: Session,
    pub desk: usize,
    pub times: &'a [f64],
    pub free: &'a [f64],
    pub self_energy: &'a [f64],
    pub lesser_self_energy: &'a [f64],
    pub shape: Shape,
    pub tolerance: f64,
}

// What a Dyson call is given beside the slices that it writes.
#[derive(Clone, Copy)]
pub struct DysonGiven<'a> {
    pub times: &'a [f64],
    pub free: &'a [f64],
    pub self_energy: &'a [f64],
    pub points: usize,
    pub orbitals: usize,
    pub tolerance: f64,
}

// The run of that form. The slices that it writes stay parameters: of a struct of them it would also have to say that each field is the reference that it was,
// and as long.
pub fn run_by(
    given: Given<'_>,
    retarded: &mut [f64],
    lesser: &mut [f64],
    kernel: &mut [f64],
    lesser_advanced: &mut [f64],
) -> Booked
    ensures { step_in result retarded.new lesser.new kernel.new lesser_advanced.new ≡ run_step (run_with given.entry retarded.old lesser.old kernel.old lesser_advanced.old) }
{
    match given.g0 {
        None => transient_run(
            given.session,
            given.desk,
            given.times,
            given.free,
            given.self_energy,
            given.lesser_self_energy,
            given.shape,
            given.tolerance,
            retarded,
            lesser,
            kernel,
            lesser_advanced,
        ),
        Some(g0) => transient_run_occupied(
            given.session,
            given.desk,
            given.times,
            given.free,
            given.self_energy,
            given.lesser_self_energy,
            g0,
            given.shape,
            given.tolerance,
            retarded,
            lesser,
            kernel,
            lesser_advanced,
        ),
    }
}

// The append of that form. It stands beside `run_by`: one function for both would choose among four calls, and its contract between two.
fn append_by(
    given: Given<'_>,
    retarded: &mut [f64],
    lesser: &mut [f64],
    kernel: &mut [f64],
    lesser_advanced: &mut [f64],
) -> Booked
    ensures { step_in result retarded.new lesser.new kernel.new lesser_advanced.new
        ≡ step_of given.entry.session given.entry.desk (append_point (run_with given.entry retarded.old lesser.old kernel.old lesser_advanced.old)) }
{
    match given.g0 {
        None => append_point(
            given.session,
            given.desk,
            given.times,
            given.free,
            given.self_energy,
            given.lesser_self_energy,
            given.shape,
            given.tolerance,
            retarded,
            lesser,
            kernel,
            lesser_advanced,
        ),
        Some(g0) => append_point_occupied(
            given.session,
            given.desk,
            given.times,
            given.free,
            given.self_energy,
            given.lesser_self_energy,
            g0,
            given.shape,
            given.tolerance,
            retarded,
            lesser,
            kernel,
            lesser_advanced,
        ),
    }
}

// A run, and each observable asked of it.
pub fn run_and_ask(
    given: Given<'_>,
    retarded: &mut [f64],
    lesser: &mut [f64],
    kernel: &mut [f64],
    lesser_advanced: &mut [f64],
    question: Question,
    block: DenseMatrix,
) -> Answers
    ensures { answers_in result retarded.new lesser.new kernel.new lesser_advanced.new
        ≡ run_answers (run_with given.entry retarded.old lesser.old kernel.old lesser_advanced.old) question block }
{
    let run = run_by(given, retarded, lesser, kernel, lesser_advanced);
    let Question {
        time,
        tolerance,
        a,
        b,
        hopping,
        charge,
    } = question;
    let number = particle_number(lesser, given.shape, time, tolerance);
    let expectation = one_body_expectation(lesser, given.shape, time, block, tolerance);
    let flow = bond_flow_into(lesser, given.shape, time, a, b, hopping, charge);
    Answers {
        run,
        number,
        expectation,
        flow,
    }
}

// Two runs, each given its own, and the same question asked of each; the second run's names end in 2. Where both are accepted and agree up to k, they leave
// the same rows to k, and at a time up to k the observables answer the same.
pub fn two_runs(
    given: Given<'_>,
    retarded: &mut [f64],
    lesser: &mut [f64],
    kernel: &mut [f64],
    lesser_advanced: &mut [f64],
    block: DenseMatrix,
    given2: Given<'_>,
    retarded2: &mut [f64],
    lesser2: &mut [f64],
    kernel2: &mut [f64],
    lesser_advanced2: &mut [f64],
    block2: DenseMatrix,
    question: Question,
) -> (Answers, Answers)
    ensures { let a = run_with given.entry retarded.old lesser.old kernel.old lesser_advanced.old in
        let b = run_with given2.entry retarded2.old lesser2.old kernel2.old lesser_advanced2.old in
        let x = answers_in result.0 retarded.new lesser.new kernel.new lesser_advanced.new in
        let y = answers_in result.1 retarded2.new lesser2.new kernel2.new lesser_advanced2.new in
        (x ≡ run_answers a question block) × (y ≡ run_answers b question block2) × Blind a b question block block2 x y }
{
    let first = run_and_ask(
        given,
        retarded,
        lesser,
        kernel,
        lesser_advanced,
        question,
        block,
    );
    let second = run_and_ask(
        given2,
        retarded2,
        lesser2,
        kernel2,
        lesser_advanced2,
        question,
        block2,
    );
    (first, second)
}

// A run over the first points, or over all where there are no more, then one append after another up to all points, at one desk, each of one form and lent the
// same operands; the first refusal ends it and is the answer. Where every call is accepted, the slices hold what the run over all points leaves, the desk's
// counter has moved by its count, and the other desks' counters are as they were.
pub fn run_then_append(
    given: Given<'_>,
    first: usize,
    retarded: &mut [f64],
    lesser: &mut [f64],
    kernel: &mut [f64],
    lesser_advanced: &mut [f64],
) -> Booked
    ensures { let run = run_with given.entry retarded.old lesser.old kernel.old lesser_advanced.old in
        let made = step_in result retarded.new lesser.new kernel.new lesser_advanced.new in
        (made ≡ run_then_append first run) × (is_accepted result.answer ≡ true → AllPoints run made) }
{
    let shape = given.shape;
    let start = first.min(shape.points);
    let mut booked = run_by(
        Given {
            shape: Shape {
                points: start,
                ..shape
            },
            ..given
        },
        retarded,
        lesser,
        kernel,
        lesser_advanced,
    );
    for points in start..shape.points {
        let Ok(_) = booked.answer else {
            break;
        };
        booked = append_by(
            Given {
                session: booked.session,
                shape: Shape { points, ..shape },
                ..given
            },
            retarded,
            lesser,
            kernel,
            lesser_advanced,
        );
    }
    booked
}

// One Dyson call.
fn dyson_by(given: DysonGiven<'_>, retarded: &mut [f64], kernel: &mut [f64]) -> Verdict
    ensures { solved_in result retarded.new kernel.new ≡ dyson_of (call_with given.entry retarded.old kernel.old) }
{
    retarded_dyson_with_tolerance(
        given.times,
        given.free,
        given.self_energy,
        given.points,
        given.orbitals,
        given.tolerance,
        retarded,
        kernel,
    )
}

// Two Dyson calls, each given its own; the second call's names end in 2. Where both are accepted and agree up to k, they leave the same rows to k.
pub fn two_dysons(
    given: DysonGiven<'_>,
    retarded: &mut [f64],
    kernel: &mut [f64],
    given2: DysonGiven<'_>,
    retarded2: &mut [f64],
    kernel2: &mut [f64],
) -> (Verdict, Verdict)
    ensures { let a = call_with given.entry retarded.old kernel.old in
        let b = call_with given2.entry retarded2.old kernel2.old in
        let x = solved_in result.0 retarded.new kernel.new in
        let y = solved_in result.1 retarded2.new kernel2.new in
        (x ≡ dyson_of a) × (y ≡ dyson_of b) × DysonDemanded a b x y }
{
    let first = dyson_by(given, retarded, kernel);
    let second = dyson_by(given2, retarded2, kernel2);
    (first, second)
}
