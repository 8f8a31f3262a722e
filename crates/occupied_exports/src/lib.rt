// The transient run and the append of a dot that starts occupied, for a program in C or Rust to link: `scripts/archive`. The block g0 comes in after the
// lesser self-energy, as its rows, its columns and 512 numbers. How an answer leaves is in `answers`, how a session crosses in `counters`.
#![tactic(auto)]

ghost use Rattle.std.specs.Prelude.{◌≡◌};
ghost use Rattle.lists.specs.Prelude.{List, Float, false};
ghost use Rattle.refusal.specs.Verdict.{◌then◌};
ghost use Rattle.refusal.specs.Checks.{desk_known};
ghost use Rattle.transient_run.specs.Form.{form_sizes};
ghost use Rattle.transient_run.specs.Form.Form.{occupied};
ghost use Rattle.transient_run.specs.Calls.{run_of, booked};
ghost use Rattle.answers.specs.Answer.{after, answers, block};
ghost use Rattle.counters.specs.Counters.{session_of, solved_verdict, counted_run, counted_append};

use answers::blocks::block;
use answers::write_answer;
use counters::{session_of, write_booked};
use refusal::Verdict;
use refusal::checks::desk_known;
use two_time::capacity::{Shape, check_block_sizes};

// Checks 22, 1 and 2, those of the block in their lines, then 3 of counters that are not eight.
#[tactic(auto, unfolding(transient_run::specs::Form::form_sizes))]
fn no_counters_beside(
    desk: usize,
    points: usize,
    capacity: usize,
    orbitals: usize,
    rows: usize,
    columns: usize,
) -> Verdict
    ensures { (values : List Float) → result ≡ (desk_known desk then form_sizes (occupied (block rows columns values)) capacity points orbitals false) }
{
    let shape = Shape {
        points,
        capacity,
        orbitals,
    };
    desk_known(desk)?;
    check_block_sizes(shape, rows, columns, false)
}

// The transient run over the points from g0: G^R and G^< in the outputs, K and X in the scratch.
#[unsafe(no_mangle)]
pub extern "C" fn leechgrommet_transient_run_occupied(
    counters: &mut [u64],
    desk: usize,
    times: &[f64],
    free: &[f64],
    self_energy: &[f64],
    lesser_self_energy: &[f64],
    rows: usize,
    columns: usize,
    g0: &[f64; 512],
    points: usize,
    capacity: usize,
    orbitals: usize,
    tolerance: f64,
    retarded: &mut [f64],
    lesser: &mut [f64],
    kernel: &mut [f64],
    lesser_advanced: &mut [f64],
    places: &mut [usize],
    part: &mut [f64],
) -> u8
    ensures { let session = session_of counters.old in
        let made = counted_run (run_of (occupied (block rows columns g0.now)) session desk (record { points = points; capacity = capacity; orbitals = orbitals }) tolerance times.now free.now self_energy.now
        lesser_self_energy.now retarded.old lesser.old kernel.old lesser_advanced.old) in
        (after result places part ≡ answers (solved_verdict made.answer) places part)
        × (counters.new ≡ (booked session desk made.answer).products)
        × (retarded.new ≡ made.retarded)
        × (lesser.new ≡ made.lesser)
        × (kernel.new ≡ made.kernel)
        × (lesser_advanced.new ≡ made.lesser_advanced) }
{
    if counters.len() != 8 {
        return write_answer(
            no_counters_beside(desk, points, capacity, orbitals, rows, columns),
            places,
            part,
        );
    }
    let layout = Shape {
        points,
        capacity,
        orbitals,
    };
    let start = block(rows, columns, g0);
    let session = session_of(counters);
    let made = transient_run::transient_run_occupied(
        session,
        desk,
        times,
        free,
        self_energy,
        lesser_self_energy,
        start,
        layout,
        tolerance,
        retarded,
        lesser,
        kernel,
        lesser_advanced,
    );
    write_booked(made, counters, desk, places, part)
}

// The append of one point to those that it is told, of a run from g0.
#[unsafe(no_mangle)]
pub extern "C" fn leechgrommet_append_point_occupied(
    counters: &mut [u64],
    desk: usize,
    times: &[f64],
    free: &[f64],
    self_energy: &[f64],
    lesser_self_energy: &[f64],
    rows: usize,
    columns: usize,
    g0: &[f64; 512],
    points: usize,
    capacity: usize,
    orbitals: usize,
    tolerance: f64,
    retarded: &mut [f64],
    lesser: &mut [f64],
    kernel: &mut [f64],
    lesser_advanced: &mut [f64],
    places: &mut [usize],
    part: &mut [f64],
) -> u8
    ensures { let session = session_of counters.old in
        let made = counted_append (run_of (occupied (block rows columns g0.now)) session desk (record { points = points; capacity = capacity; orbitals = orbitals }) tolerance times.now free.now self_energy.now
        lesser_self_energy.now retarded.old lesser.old kernel.old lesser_advanced.old) in
        (after result places part ≡ answers (solved_verdict made.answer) places part)
        × (counters.new ≡ (booked session desk made.answer).products)
        × (retarded.new ≡ made.retarded)
        × (lesser.new ≡ made.lesser)
        × (kernel.new ≡ made.kernel)
        × (lesser_advanced.new ≡ made.lesser_advanced) }
{
    if counters.len() != 8 {
        return write_answer(
            no_counters_beside(desk, points.min(256) + 1, capacity, orbitals, rows, columns),
            places,
            part,
        );
    }
    let layout = Shape {
        points,
        capacity,
        orbitals,
    };
    let start = block(rows, columns, g0);
    let session = session_of(counters);
    let made = transient_run::append_point_occupied(
        session,
        desk,
        times,
        free,
        self_energy,
        lesser_self_energy,
        start,
        layout,
        tolerance,
        retarded,
        lesser,
        kernel,
        lesser_advanced,
    );
    write_booked(made, counters, desk, places, part)
}
