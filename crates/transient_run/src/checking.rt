// The questions of a call in their order: 22, 1 to 9 with 16 after 3, and 17.
ghost use Rattle.std.specs.Prelude.{◌≡◌, ◌≤◌, ◌∷◌};
ghost use Rattle.lists.specs.Prelude.{List, [], Float};
ghost use Rattle.two_time.specs.Calls.{all_fit};
ghost use Rattle.transient_run.specs.Form.{form_of, form_sizes, form_entries, Small};
ghost use Rattle.transient_run.specs.Calls.{checks_of};
ghost use Rattle.transient_run.specs.Inputs.{given};

use crate::counting::{counter_of, formed, start_products};
use crate::{Initial, Inputs, Kind, Session};
use grid::check_grid;
use refusal::Verdict;
use refusal::checks::{counter_holds, desk_known, finite_entries};
use support::check_retarded_inputs;
use two_time::capacity::{Shape, check_block_sizes, check_capacity, check_points};
use two_time::checks::has_length;

// Checks 1, 2, 3 and 16, those of the block in their lines, where `fits` says whether each slice has its length.
fn form_sizes(initial: Initial, shape: Shape, fits: bool) -> Verdict
    ensures { (values : List Float) → result ≡ form_sizes (form_of initial values) shape.capacity shape.points shape.orbitals fits }
{
    match initial.kind {
        Kind::Empty => check_capacity(shape, fits),
        Kind::Occupied => {
            let square = (initial.rows == shape.orbitals) & (initial.columns == shape.orbitals);
            check_block_sizes(shape, initial.rows, initial.columns, fits & square)
        }
    }
}

// Check 7 of the block, operand 3.
fn form_entries(initial: Initial, g0: &[f64]) -> Verdict
    requires { Small (form_of initial g0.now) }
    ensures { result ≡ form_entries (form_of initial g0.now) }
{
    match initial.kind {
        Kind::Empty => Ok(()),
        Kind::Occupied => finite_entries(3, g0, 2 * (initial.rows * initial.columns)),
    }
}

// Checks 22, 1 to 9, 16 and 17, where `fits` says whether the outputs and the scratch have their length.
pub(crate) fn checks(
    inputs: Inputs,
    session: Session,
    desk: usize,
    old: usize,
    fits: bool,
) -> Verdict
    requires { old ≤ inputs.shape.points }
    ensures { (retarded lesser kernel lesser_advanced : List Float)
        → fits ≡ all_fit inputs.entry.shape.capacity inputs.entry.shape.orbitals (retarded ∷ lesser ∷ kernel ∷ lesser_advanced ∷ [])
        → result ≡ checks_of old inputs.entry.shape.points (given inputs.entry session desk retarded lesser kernel lesser_advanced) }
{
    desk_known(desk)?;
    let shape = inputs.shape;
    let free_fits = has_length(shape.capacity, shape.orbitals, inputs.free);
    let self_energy_fits = has_length(shape.capacity, shape.orbitals, inputs.self_energy);
    let lesser_self_energy_fits = has_length(
        shape.capacity,
        shape.orbitals,
        inputs.lesser_self_energy,
    );
    let long = free_fits & (self_energy_fits & (lesser_self_energy_fits & fits));
    form_sizes(
        inputs.initial,
        shape,
        (inputs.times.len() == shape.capacity) & long,
    )?;
    check_grid(inputs.times, shape.points)?;
    check_points(0, inputs.free, shape)?;
    check_points(1, inputs.self_energy, shape)?;
    check_points(2, inputs.lesser_self_energy, shape)?;
    form_entries(inputs.initial, inputs.g0)?;
    check_retarded_inputs(inputs.free, inputs.self_energy, shape, inputs.tolerance)?;
    let start = start_products(inputs.initial.kind);
    let count = formed(start, old, shape.points);
    counter_holds(counter_of(session, desk), count)
}
