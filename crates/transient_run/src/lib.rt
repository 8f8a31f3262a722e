// The transient run of a device that starts empty (document 01, transient) or occupied (document 02, L5), and an append of one time point (L1), each in a
// session that counts their products (L3), a counter for each desk (L13): the meaning of the calls is in specs/.
#![tactic(auto)]

mod checking;
mod counting;

ghost use Rattle.std.specs.Prelude.{is_ok, Ok, ◌≡◌, ◌+◌, ◌<◌, ◌≤◌, ◌∷◌};
ghost use Rattle.lists.specs.Prelude.{ℕ, true, []};
ghost use Rattle.two_time.specs.New.{cleared_new};
ghost use Rattle.two_time.specs.SizeChecks.{SizesPassed};
ghost use Rattle.transient_run.specs.Form.{form_of, HoldsBlock};
ghost use Rattle.transient_run.specs.Form.Form.{empty, occupied};
ghost use Rattle.transient_run.specs.Steps.{lesser_outcome};
ghost use Rattle.transient_run.specs.Inputs.{given};
ghost use Rattle.transient_run.specs.Calls.{run_of, counter_of, booked, kernel_made, retarded_made, lesser_advanced_made, lesser_made, made_finite, worked, transient_run, append_point};

use checking::checks;
use counting::{formed, start_products, with_count};
use dyson::solve_new;
use lesser::new_lesser_from;
use matrix::DenseMatrix;
use refusal::Refusal;
use sums::new_sums;
use two_time::capacity::{Shape, clear_new};
use two_time::checks::all_fit;
use two_time::layout::clear;
use two_time::sums::{Summed, Sums};

// What counts the products of accepted runs and appends: a counter for each desk.
#[derive(Clone, Copy)]
pub struct Session {
    pub products: [u64; 8],
}

// An answer, and the session after it.
#[derive(Clone, Copy)]
pub struct Booked {
    // With the count of matrix products.
    pub answer: Result<u64, Refusal>,
    pub session: Session,
}

// What the device starts from: nothing, or a block g0.
#[derive(Clone, Copy)]
pub enum Kind {
    Empty,
    Occupied,
}

// The form of a call: its kind, and how many rows and columns its block has, whose numbers stand in a slice beside it.
#[derive(Clone, Copy)]
pub struct Initial {
    pub kind: Kind,
    pub rows: usize,
    pub columns: usize,
}

// What a call is given beside its session, its desk and the slices that it writes.
#[derive(Clone, Copy)]
pub(crate) struct Inputs<'a> {
    pub(crate) initial: Initial,
    // The numbers of the block; any slice stands here where there is none.
    pub(crate) g0: &'a [f64],
    pub(crate) times: &'a [f64],
    pub(crate) free: &'a [f64],
    pub(crate) self_energy: &'a [f64],
    pub(crate) lesser_self_energy: &'a [f64],
    pub(crate) shape: Shape,
    pub(crate) tolerance: f64,
}

impl Session {
    // A session opened at the totals that the desks carry over.
    pub fn open(totals: [u64; 8]) -> Session
        ensures { result ≡ record { products = totals } }
    {
        Session { products: totals }
    }

    // An answer, with the session after the call at that desk.
    #[tactic(auto, unfolding(crate::specs::Calls::booked))]
    fn booked(self, desk: usize, answer: Result<u64, Refusal>) -> Booked
        requires { (count : ℕ) → answer ≡ Ok count → (desk < 8) × (counter_of self desk + count ≤ 0xffff_ffff_ffff_ffff) }
        ensures { (result.answer ≡ answer) × (result.session ≡ booked self desk answer) }
    {
        let session = match answer {
            Ok(count) => with_count(self, desk, count),
            Err(_) => self,
        };
        Booked { answer, session }
    }
}

// G^< at the new places, by the form.
fn new_lesser(
    inputs: Inputs,
    retarded: &[f64],
    lesser_advanced: &[f64],
    old: usize,
    out: &mut [f64],
) -> Summed
    ensures { let x = inputs.entry in
        let made = lesser_outcome (form_of x.initial x.g0.now) x.shape.capacity x.shape.orbitals old x.shape.points x.times.now retarded.now lesser_advanced.now out.old in
        (result ≡ made.answer) × (out.new ≡ made.out) }
{
    let times = inputs.times;
    let shape = inputs.shape;
    match inputs.initial.kind {
        Kind::Empty => new_sums(
            Sums::Lesser,
            times,
            retarded,
            lesser_advanced,
            shape,
            old,
            out,
        ),
        Kind::Occupied => new_lesser_from(
            times,
            retarded,
            lesser_advanced,
            inputs.g0,
            shape,
            old,
            out,
        ),
    }
}

// K and G^R, then X, then G^<, at the new places, where all that is made for them is finite; at the first that is not the work ends. All that it
// writes stands at new places.
fn work(
    inputs: Inputs,
    old: usize,
    retarded: &mut [f64],
    lesser: &mut [f64],
    kernel: &mut [f64],
    lesser_advanced: &mut [f64],
) -> Summed
    requires { (old ≤ inputs.shape.points) × (inputs.shape.points ≤ inputs.shape.capacity) × HoldsBlock inputs.shape.orbitals (form_of inputs.initial inputs.g0.now)
        × SizesPassed inputs.shape.capacity inputs.shape.orbitals true
        (inputs.free.now ∷ inputs.self_energy.now ∷ inputs.lesser_self_energy.now ∷ retarded.old ∷ lesser.old ∷ kernel.old ∷ lesser_advanced.old ∷ []) }
    ensures { (session : Session) (desk : ℕ) → let run = given inputs.entry session desk retarded.old lesser.old kernel.old lesser_advanced.old in
        let cleared = cleared_new run.capacity run.orbitals old run.points in
        (is_ok result ≡ made_finite old run.points run)
        × (is_ok result ≡ true → (retarded.new ≡ retarded_made old run.points run) × (lesser.new ≡ lesser_made old run.points run)
        × (kernel.new ≡ kernel_made old run.points run) × (lesser_advanced.new ≡ lesser_advanced_made old run.points run))
        × (cleared retarded.new ≡ cleared retarded.old) × (cleared lesser.new ≡ cleared lesser.old)
        × (cleared kernel.new ≡ cleared kernel.old) × (cleared lesser_advanced.new ≡ cleared lesser_advanced.old) }
{
    let times = inputs.times;
    let shape = inputs.shape;
    solve_new(
        times,
        inputs.free,
        inputs.self_energy,
        shape,
        old,
        retarded,
        kernel,
    )?;
    new_sums(
        Sums::LesserAdvanced,
        times,
        inputs.lesser_self_energy,
        retarded,
        shape,
        old,
        lesser_advanced,
    )?;
    new_lesser(inputs, retarded, lesser_advanced, old, lesser)
}

// A call that works out the places whose larger index is at least `old` and below the points, with its count; 10 leaves +0 there.
fn solve(
    inputs: Inputs,
    session: Session,
    desk: usize,
    old: usize,
    retarded: &mut [f64],
    lesser: &mut [f64],
    kernel: &mut [f64],
    lesser_advanced: &mut [f64],
) -> Result<u64, Refusal>
    requires { old ≤ inputs.shape.points }
    ensures made { let run = given inputs.entry session desk retarded.old lesser.old kernel.old lesser_advanced.old in
        let made = worked old run.points run (cleared_new run.capacity run.orbitals old run.points) in
        (result ≡ made.answer)
        × (retarded.new ≡ made.retarded)
        × (lesser.new ≡ made.lesser)
        × (kernel.new ≡ made.kernel)
        × (lesser_advanced.new ≡ made.lesser_advanced) }
    ensures room { (count : ℕ) → result ≡ Ok count → (desk < 8) × (counter_of session desk + count ≤ 0xffff_ffff_ffff_ffff) }
{
    let shape = inputs.shape;
    let fits = all_fit(
        retarded,
        lesser,
        kernel,
        lesser_advanced,
        shape.capacity,
        shape.orbitals,
    );
    checks(inputs, session, desk, old, fits)?;
    if work(inputs, old, retarded, lesser, kernel, lesser_advanced).is_err() {
        clear_new(shape, old, retarded);
        clear_new(shape, old, lesser);
        clear_new(shape, old, kernel);
        clear_new(shape, old, lesser_advanced);
        return Err(Refusal::by(10));
    }
    let start = start_products(inputs.initial.kind);
    Ok(formed(start, old, shape.points))
}

// A run: from the first point on, and 10 leaves +0 throughout.
fn run(
    inputs: Inputs,
    session: Session,
    desk: usize,
    retarded: &mut [f64],
    lesser: &mut [f64],
    kernel: &mut [f64],
    lesser_advanced: &mut [f64],
) -> Booked
    ensures { let made = transient_run (given inputs.entry session desk retarded.old lesser.old kernel.old lesser_advanced.old) in
        (result.answer ≡ made.answer)
        × (result.session ≡ booked session desk made.answer)
        × (retarded.new ≡ made.retarded)
        × (lesser.new ≡ made.lesser)
        × (kernel.new ≡ made.kernel)
        × (lesser_advanced.new ≡ made.lesser_advanced) }
{
    let answer = solve(
        inputs,
        session,
        desk,
        0,
        retarded,
        lesser,
        kernel,
        lesser_advanced,
    );
    if let Err(refusal) = answer {
        if refusal.number == 10 {
            clear(retarded);
            clear(lesser);
            clear(kernel);
            clear(lesser_advanced);
        }
    }
    session.booked(desk, answer)
}

// An append of one point to those that the shape tells.
fn append(
    inputs: Inputs,
    session: Session,
    desk: usize,
    retarded: &mut [f64],
    lesser: &mut [f64],
    kernel: &mut [f64],
    lesser_advanced: &mut [f64],
) -> Booked
    ensures { let made = append_point (given inputs.entry session desk retarded.old lesser.old kernel.old lesser_advanced.old) in
        (result.answer ≡ made.answer)
        × (result.session ≡ booked session desk made.answer)
        × (retarded.new ≡ made.retarded)
        × (lesser.new ≡ made.lesser)
        × (kernel.new ≡ made.kernel)
        × (lesser_advanced.new ≡ made.lesser_advanced) }
{
    // No capacity reaches past 256, so the points are cut there and one more fits.
    let old = inputs.shape.points.min(256);
    let longer = Inputs {
        shape: Shape {
            points: old + 1,
            ..inputs.shape
        },
        ..inputs
    };
    let answer = solve(
        longer,
        session,
        desk,
        old,
        retarded,
        lesser,
        kernel,
        lesser_advanced,
    );
    session.booked(desk, answer)
}

// The transient run of free, the retarded and the lesser self-energy over the points, in slices laid out for the capacity: G^R and G^< in the outputs, K
// and X in the scratch. G^A is never stored: its blocks are read as adjoints of G^R's. Room beyond the points is left, but for 10, which leaves +0
// throughout. N(N+1)(2N+1)/6 − N products of blocks for K and G^R and N·N·(N+1) − 2·N for X and G^<.
#[tactic(auto, unfolding(crate::specs::Form::form_by))]
pub fn transient_run(
    session: Session,
    desk: usize,
    times: &[f64],
    free: &[f64],
    self_energy: &[f64],
    lesser_self_energy: &[f64],
    shape: Shape,
    tolerance: f64,
    retarded: &mut [f64],
    lesser: &mut [f64],
    kernel: &mut [f64],
    lesser_advanced: &mut [f64],
) -> Booked
    ensures { let made = transient_run (run_of empty session desk shape tolerance times.now free.now self_energy.now lesser_self_energy.now
        retarded.old lesser.old kernel.old lesser_advanced.old) in
        (result.answer ≡ made.answer)
        × (result.session ≡ booked session desk made.answer)
        × (retarded.new ≡ made.retarded)
        × (lesser.new ≡ made.lesser)
        × (kernel.new ≡ made.kernel)
        × (lesser_advanced.new ≡ made.lesser_advanced) }
{
    let inputs = Inputs {
        initial: Initial {
            kind: Kind::Empty,
            rows: 0,
            columns: 0,
        },
        g0: times,
        times,
        free,
        self_energy,
        lesser_self_energy,
        shape,
        tolerance,
    };
    run(
        inputs,
        session,
        desk,
        retarded,
        lesser,
        kernel,
        lesser_advanced,
    )
}

// Appends one time point to the points that the shape tells: the new row and column of K, G^R, X and G^< are worked out from what the buffers hold at old
// places, which stay. 10 leaves +0 at the new row and column. As many products as a run over one point more forms beyond a run over the points.
#[tactic(auto, unfolding(crate::specs::Form::form_by))]
pub fn append_point(
    session: Session,
    desk: usize,
    times: &[f64],
    free: &[f64],
    self_energy: &[f64],
    lesser_self_energy: &[f64],
    shape: Shape,
    tolerance: f64,
    retarded: &mut [f64],
    lesser: &mut [f64],
    kernel: &mut [f64],
    lesser_advanced: &mut [f64],
) -> Booked
    ensures { let made = append_point (run_of empty session desk shape tolerance times.now free.now self_energy.now lesser_self_energy.now
        retarded.old lesser.old kernel.old lesser_advanced.old) in
        (result.answer ≡ made.answer)
        × (result.session ≡ booked session desk made.answer)
        × (retarded.new ≡ made.retarded)
        × (lesser.new ≡ made.lesser)
        × (kernel.new ≡ made.kernel)
        × (lesser_advanced.new ≡ made.lesser_advanced) }
{
    let inputs = Inputs {
        initial: Initial {
            kind: Kind::Empty,
            rows: 0,
            columns: 0,
        },
        g0: times,
        times,
        free,
        self_energy,
        lesser_self_energy,
        shape,
        tolerance,
    };
    append(
        inputs,
        session,
        desk,
        retarded,
        lesser,
        kernel,
        lesser_advanced,
    )
}

// The transient run of a dot that starts occupied: G^<(t,t') starts from (G^R(t,0)·g0)·G^A(0,t'). It counts 2·N·N products more; since G^R(t,0)·g0 is made
// once for a row, it forms N.N + N more.
#[tactic(auto, unfolding(crate::specs::Form::form_by))]
pub fn transient_run_occupied(
    session: Session,
    desk: usize,
    times: &[f64],
    free: &[f64],
    self_energy: &[f64],
    lesser_self_energy: &[f64],
    g0: DenseMatrix,
    shape: Shape,
    tolerance: f64,
    retarded: &mut [f64],
    lesser: &mut [f64],
    kernel: &mut [f64],
    lesser_advanced: &mut [f64],
) -> Booked
    ensures { let made = transient_run (run_of (occupied g0) session desk shape tolerance times.now free.now self_energy.now lesser_self_energy.now
        retarded.old lesser.old kernel.old lesser_advanced.old) in
        (result.answer ≡ made.answer)
        × (result.session ≡ booked session desk made.answer)
        × (retarded.new ≡ made.retarded)
        × (lesser.new ≡ made.lesser)
        × (kernel.new ≡ made.kernel)
        × (lesser_advanced.new ≡ made.lesser_advanced) }
{
    let inputs = Inputs {
        initial: Initial {
            kind: Kind::Occupied,
            rows: g0.rows,
            columns: g0.columns,
        },
        g0: &g0.values,
        times,
        free,
        self_energy,
        lesser_self_energy,
        shape,
        tolerance,
    };
    run(
        inputs,
        session,
        desk,
        retarded,
        lesser,
        kernel,
        lesser_advanced,
    )
}

// Appends one time point to a run of a dot that starts occupied, of the same g0. It counts 2·(2p + 1) products more than an append to p points of an empty
// start.
#[tactic(auto, unfolding(crate::specs::Form::form_by))]
pub fn append_point_occupied(
    session: Session,
    desk: usize,
    times: &[f64],
    free: &[f64],
    self_energy: &[f64],
    lesser_self_energy: &[f64],
    g0: DenseMatrix,
    shape: Shape,
    tolerance: f64,
    retarded: &mut [f64],
    lesser: &mut [f64],
    kernel: &mut [f64],
    lesser_advanced: &mut [f64],
) -> Booked
    ensures { let made = append_point (run_of (occupied g0) session desk shape tolerance times.now free.now self_energy.now lesser_self_energy.now
        retarded.old lesser.old kernel.old lesser_advanced.old) in
        (result.answer ≡ made.answer)
        × (result.session ≡ booked session desk made.answer)
        × (retarded.new ≡ made.retarded)
        × (lesser.new ≡ made.lesser)
        × (kernel.new ≡ made.kernel)
        × (lesser_advanced.new ≡ made.lesser_advanced) }
{
    let inputs = Inputs {
        initial: Initial {
            kind: Kind::Occupied,
            rows: g0.rows,
            columns: g0.columns,
        },
        g0: &g0.values,
        times,
        free,
        self_energy,
        lesser_self_energy,
        shape,
        tolerance,
    };
    append(
        inputs,
        session,
        desk,
        retarded,
        lesser,
        kernel,
        lesser_advanced,
    )
}
