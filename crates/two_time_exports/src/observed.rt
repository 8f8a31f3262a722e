// The observables. A number is written to a slice of one; the density matrix is written as a block.
ghost use Rattle.std.specs.Prelude.{◌≡◌};
ghost use Rattle.observables.specs.Calls.{density_matrix, particle_number, one_body_expectation, bond_flow_into};
ghost use Rattle.flows.specs.Calls.{bond_flows_into};
ghost use Rattle.answers.specs.Answer.{after, answers, after_with, answers_numbers, block, after_block, answers_block};
ghost use Rattle.two_time_exports.specs.Numbers.{observed_numbers};

use answers::blocks::{block, write_block};
use answers::numbers::{Numbers, write_numbers};
use answers::write_answer;
use complex::Complex;
use observables::Observed;
use refusal::Refusal;
use two_time::capacity::Shape;

// An observable's number; 14 carries the imaginary part.
// By hand, the other way than `Observed::from`: an `impl From` of it would belong to neither crate of its types.
fn numbers_of(observed: Observed) -> Numbers
    ensures { result ≡ observed_numbers observed }
{
    let measured = match observed {
        Observed::Number(x) => Ok(x),
        Observed::NotReal(part) => Err(Refusal {
            part,
            ..Refusal::by(14)
        }),
        Observed::Refused(r) => Err(r),
    };
    Numbers::measured(measured)
}

// The density matrix at a time.
#[unsafe(no_mangle)]
pub extern "C" fn leechgrommet_density_matrix(
    lesser: &[f64],
    points: usize,
    capacity: usize,
    orbitals: usize,
    time: usize,
    shape: &mut [usize],
    out: &mut [f64],
    places: &mut [usize],
    part: &mut [f64],
) -> u8
    ensures { after_block result shape out places part ≡ answers_block (density_matrix capacity points orbitals lesser.now time) shape out places part }
{
    let layout = Shape {
        points,
        capacity,
        orbitals,
    };
    let made = observables::density_matrix(lesser, layout, time);
    write_block(made, shape, out, places, part)
}

// The particle number at a time.
#[unsafe(no_mangle)]
pub extern "C" fn leechgrommet_particle_number(
    lesser: &[f64],
    points: usize,
    capacity: usize,
    orbitals: usize,
    time: usize,
    tolerance: f64,
    value: &mut [f64],
    places: &mut [usize],
    part: &mut [f64],
) -> u8
    ensures { let observed = particle_number capacity points orbitals lesser.now time tolerance in
        after_with result value places part ≡ answers_numbers (observed_numbers observed) value places part }
{
    let layout = Shape {
        points,
        capacity,
        orbitals,
    };
    let observed = observables::particle_number(lesser, layout, time, tolerance);
    write_numbers(numbers_of(observed), value, places, part)
}

// The expectation of a one-body matrix, passed as a block.
#[unsafe(no_mangle)]
pub extern "C" fn leechgrommet_one_body_expectation(
    lesser: &[f64],
    points: usize,
    capacity: usize,
    orbitals: usize,
    time: usize,
    rows: usize,
    columns: usize,
    values: &[f64; 512],
    tolerance: f64,
    value: &mut [f64],
    places: &mut [usize],
    part: &mut [f64],
) -> u8
    ensures { let observed = one_body_expectation capacity points orbitals lesser.now time (block rows columns values.now) tolerance in
        after_with result value places part ≡ answers_numbers (observed_numbers observed) value places part }
{
    let layout = Shape {
        points,
        capacity,
        orbitals,
    };
    let observable = block(rows, columns, values);
    let observed = observables::one_body_expectation(lesser, layout, time, observable, tolerance);
    write_numbers(numbers_of(observed), value, places, part)
}

// The flow into orbital a from b, of a hopping by its two parts.
#[unsafe(no_mangle)]
pub extern "C" fn leechgrommet_bond_flow_into(
    lesser: &[f64],
    points: usize,
    capacity: usize,
    orbitals: usize,
    time: usize,
    a: usize,
    b: usize,
    real: f64,
    imaginary: f64,
    charge: f64,
    value: &mut [f64],
    places: &mut [usize],
    part: &mut [f64],
) -> u8
    ensures { let observed = bond_flow_into capacity points orbitals lesser.now time a b (record { re = real; im = imaginary }) charge in
        after_with result value places part ≡ answers_numbers (observed_numbers observed) value places part }
{
    let layout = Shape {
        points,
        capacity,
        orbitals,
    };
    let hopping = Complex::new(real, imaginary);
    let observed = observables::bond_flow_into(lesser, layout, time, a, b, hopping, charge);
    write_numbers(numbers_of(observed), value, places, part)
}

// Many flows: queries by their times, a, b, hoppings of two numbers each and charges; flows and the numbers of refusals in list order.
#[unsafe(no_mangle)]
pub extern "C" fn leechgrommet_bond_flows_into(
    lesser: &[f64],
    points: usize,
    capacity: usize,
    orbitals: usize,
    times: &[usize],
    a: &[usize],
    b: &[usize],
    hoppings: &[f64],
    charges: &[f64],
    flows: &mut [f64],
    numbers: &mut [u8],
    places: &mut [usize],
    part: &mut [f64],
) -> u8
    ensures { let made = bond_flows_into capacity points orbitals lesser.now
        (record { times = times.entry.now; a = a.now; b = b.now; hoppings = hoppings.now; factors = charges.now })
        flows.old numbers.old in
        (after result places part ≡ answers made.answer places part)
        × (flows.new ≡ made.flows)
        × (numbers.new ≡ made.numbers) }
{
    let layout = Shape {
        points,
        capacity,
        orbitals,
    };
    let verdict = flows::bond_flows_into(
        lesser, layout, times, a, b, hoppings, charges, flows, numbers,
    );
    write_answer(verdict, places, part)
}
