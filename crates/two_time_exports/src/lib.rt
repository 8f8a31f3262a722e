// The calls on two-time functions, for a program in C or Rust to link: `scripts/archive`. How an answer leaves is in `answers`.
#![tactic(auto)]

pub mod keldysh;
pub mod observed;

ghost use Rattle.std.specs.Prelude.{◌≡◌};
ghost use Rattle.support.specs.Support.{check_support};
ghost use Rattle.convolution.specs.Calls.{time_convolution, causal_convolution};
ghost use Rattle.dyson.specs.Calls.{dyson_with_tolerance};
ghost use Rattle.answers.specs.Answer.{after, answers};

use answers::write_answer;

// The convolution over all times.
#[unsafe(no_mangle)]
pub extern "C" fn leechgrommet_time_convolution(
    times: &[f64],
    left: &[f64],
    right: &[f64],
    points: usize,
    orbitals: usize,
    out: &mut [f64],
    places: &mut [usize],
    part: &mut [f64],
) -> u8
    ensures { let made = time_convolution points orbitals times.now left.now right.now out.old in
        (after result places part ≡ answers made.answer places part)
        × (out.new ≡ made.out) }
{
    let verdict = convolution::time_convolution(times, left, right, points, orbitals, out);
    write_answer(verdict, places, part)
}

// The causal convolution.
#[unsafe(no_mangle)]
pub extern "C" fn leechgrommet_causal_volterra_convolution(
    times: &[f64],
    left: &[f64],
    right: &[f64],
    points: usize,
    orbitals: usize,
    out: &mut [f64],
    places: &mut [usize],
    part: &mut [f64],
) -> u8
    ensures { let made = causal_convolution points orbitals times.now left.now right.now out.old in
        (after result places part ≡ answers made.answer places part)
        × (out.new ≡ made.out) }
{
    let verdict = convolution::causal_volterra_convolution(
        times, left, right, points, orbitals, out,
    );
    write_answer(verdict, places, part)
}

// Whether a function is retarded within the tolerance.
#[unsafe(no_mangle)]
pub extern "C" fn leechgrommet_check_retarded_support(
    xs: &[f64],
    points: usize,
    orbitals: usize,
    tolerance: f64,
    places: &mut [usize],
    part: &mut [f64],
) -> u8
    ensures { after result places part ≡ answers (check_support points orbitals xs.now tolerance) places part }
{
    let verdict = support::check_retarded_support(xs, points, orbitals, tolerance);
    write_answer(verdict, places, part)
}

// The retarded function G, with the kernel K in the scratch.
#[unsafe(no_mangle)]
pub extern "C" fn leechgrommet_retarded_dyson_with_tolerance(
    times: &[f64],
    free: &[f64],
    self_energy: &[f64],
    points: usize,
    orbitals: usize,
    tolerance: f64,
    retarded: &mut [f64],
    kernel: &mut [f64],
    places: &mut [usize],
    part: &mut [f64],
) -> u8
    ensures { let made = dyson_with_tolerance points orbitals tolerance times.now
        free.now self_energy.now retarded.old kernel.old in
        (after result places part ≡ answers made.answer places part)
        × (retarded.new ≡ made.retarded)
        × (kernel.new ≡ made.kernel) }
{
    let verdict = dyson::retarded_dyson_with_tolerance(
        times,
        free,
        self_energy,
        points,
        orbitals,
        tolerance,
        retarded,
        kernel,
    );
    write_answer(verdict, places, part)
}
