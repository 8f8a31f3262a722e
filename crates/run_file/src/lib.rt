// Run files and the text of the program `transient` (document 01, run file): bytes in, text out, both as slices. The meaning of the
// call is in specs/.
#![tactic(auto)]

mod bytes;
mod decoding;
mod text;

ghost use Rattle.std.specs.Prelude.{◌≡◌, ◌≤◌};
ghost use Rattle.lists.specs.Prelude.{length};
ghost use Rattle.lists.specs.Filling.{over};
ghost use Rattle.dyson.specs.Calls.{default_tolerance};
ghost use Rattle.two_time.specs.Layout.{length_of};
ghost use Rattle.transient_run.specs.Form.Form.{empty};
ghost use Rattle.transient_run.specs.Calls.{run_of};
ghost use Rattle.run_file.specs.File.{shape_of, file_checks, file_run};
ghost use Rattle.run_file.specs.Program.{run_text, solved_text, run_answer, file_text, printed};
ghost use Rattle.run_file.specs.Table.{FileSizes};
ghost use Rattle.run_file.specs.Appended.{Appended};

use bytes::word;
use decoding::{body_length, check_file, numbers};
use observables::particle_number;
use refusal::{Refusal, Verdict};
use text::Text;
use transient_run::{Session, transient_run};
use two_time::capacity::Shape;

// The tolerance of solve and particle number.
const TOLERANCE: f64 = 1e-12;

// The text of an accepted run: its sizes, and a line for each time.
fn run_text(points: usize, orbitals: usize, lesser: &[f64], text: &mut Text)
    requires { (points ≤ 16) × (orbitals ≤ 16) × (text.old.length ≡ 0) }
    ensures { Appended text.old.bytes text.new.bytes text.old.length text.new.length (run_text points orbitals default_tolerance lesser.now) }
{
    let shape = Shape {
        points,
        capacity: points,
        orbitals,
    };
    text.run_line(points as u8, orbitals as u8);
    for t in 0..points {
        text.time_line(t as u8, particle_number(lesser, shape, t, TOLERANCE));
    }
}

// The text of a run's answer, with the lesser function that it left.
#[tactic(auto, unfolding(crate::specs::Program::solved_text))]
fn answer_text(
    points: usize,
    orbitals: usize,
    solved: Result<u64, Refusal>,
    lesser: &[f64],
    text: &mut Text,
)
    requires { (points ≤ 16) × (orbitals ≤ 16) × (text.old.length ≡ 0) }
    ensures { Appended text.old.bytes text.new.bytes text.old.length text.new.length (solved_text points orbitals default_tolerance solved lesser.now) }
{
    match solved {
        Ok(_) => run_text(points, orbitals, lesser, text),
        Err(r) => text.refused_line(r.number),
    }
}

// The text of a run at desk 0, with slices for its outputs and scratch.
fn solve(
    session: Session,
    times: &[f64],
    free: &[f64],
    self_energy: &[f64],
    lesser_self_energy: &[f64],
    points: usize,
    orbitals: usize,
    retarded: &mut [f64],
    lesser: &mut [f64],
    kernel: &mut [f64],
    lesser_advanced: &mut [f64],
    text: &mut Text,
)
    requires { (points ≤ 16) × (orbitals ≤ 16) × (text.old.length ≡ 0) }
    ensures { Appended text.old.bytes text.new.bytes text.old.length text.new.length (run_answer (run_of empty session 0 (shape_of points orbitals) default_tolerance times.now free.now self_energy.now lesser_self_energy.now
        retarded.old lesser.old kernel.old lesser_advanced.old)) }
{
    let shape = Shape {
        points,
        capacity: points,
        orbitals,
    };
    let booked = transient_run(
        session,
        0,
        times,
        free,
        self_energy,
        lesser_self_energy,
        shape,
        TOLERANCE,
        retarded,
        lesser,
        kernel,
        lesser_advanced,
    );
    answer_text(points, orbitals, booked.answer, lesser, text)
}

// The text of a file's run, in a session whose eight counters are opened at 0, with slices for its four bodies: times, free, retarded self-energy, Σ^<.
fn decoded(
    bytes: &[u8],
    points: usize,
    orbitals: usize,
    times: &mut [f64],
    free: &mut [f64],
    self_energy: &mut [f64],
    lesser_self_energy: &mut [f64],
    text: &mut Text,
)
    requires file_sizes { FileSizes points orbitals bytes.now }
    requires times_len { (length times.old ≡ points) × (length free.old ≡ length_of points orbitals) × (length self_energy.old ≡ length_of points orbitals) × (length lesser_self_energy.old ≡ length_of points orbitals)
        × (text.old.length ≡ 0) }
    ensures { Appended text.old.bytes text.new.bytes text.old.length text.new.length (run_answer (file_run bytes.now)) }
{
    let each = body_length(points, orbitals);
    let first = 40 + 8 * points;
    numbers(bytes, 40, times);
    numbers(bytes, first, free);
    numbers(bytes, first + 8 * each, self_energy);
    numbers(bytes, first + 16 * each, lesser_self_energy);
    let mut retarded = [0.0; 512];
    let mut lesser = [0.0; 512];
    let mut kernel = [0.0; 512];
    let mut lesser_advanced = [0.0; 512];
    solve(
        Session::open([0; 8]),
        times,
        free,
        self_energy,
        lesser_self_energy,
        points,
        orbitals,
        &mut retarded[..each],
        &mut lesser[..each],
        &mut kernel[..each],
        &mut lesser_advanced[..each],
        text,
    )
}

// The text of a well-formed file.
fn run(bytes: &[u8], points: usize, orbitals: usize, text: &mut Text)
    requires { FileSizes points orbitals bytes.now × (text.old.length ≡ 0) }
    ensures { Appended text.old.bytes text.new.bytes text.old.length text.new.length (run_answer (file_run bytes.now)) }
{
    let each = body_length(points, orbitals);
    let mut times = [0.0; 16];
    let mut free = [0.0; 512];
    let mut self_energy = [0.0; 512];
    let mut lesser_self_energy = [0.0; 512];
    decoded(
        bytes,
        points,
        orbitals,
        &mut times[..points],
        &mut free[..each],
        &mut self_energy[..each],
        &mut lesser_self_energy[..each],
        text,
    )
}

// The text of a file.
#[tactic(auto, unfolding(crate::specs::Program::file_text))]
fn answer(bytes: &[u8], text: &mut Text)
    requires { text.old.length ≡ 0 }
    ensures { Appended text.old.bytes text.new.bytes text.old.length text.new.length (file_text (file_checks bytes.now) (file_run bytes.now)) }
{
    match check_file(bytes) {
        Ok(()) => run(
            bytes,
            word(bytes, 0, 4) as usize,
            word(bytes, 4, 4) as usize,
            text,
        ),
        Err(r) => text.refused_line(r.number),
    }
}

// Writes what the program prints for a file over the start of `out`, and answers how many bytes it is: every text fits.
#[tactic(auto, unfolding(crate::specs::Program::printed))]
pub fn print(bytes: &[u8], out: &mut [u8; 512]) -> usize
    ensures { (result ≡ length (printed bytes.now)) × (out.new ≡ over out.old (printed bytes.now)) }
{
    let mut text = Text {
        bytes: *out,
        length: 0,
    };
    answer(bytes, &mut text);
    *out = text.bytes;
    text.length
}
