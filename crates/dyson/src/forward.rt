// Forward substitution: G row by row, each from K and the rows before it, which are read again from the output slice.
ghost use Rattle.std.specs.Prelude.{is_ok, ◌≡◌, ◌≤◌, ◌∷◌};
ghost use Rattle.lists.specs.Prelude.{true, []};
ghost use Rattle.two_time.specs.New.{cleared_new};
ghost use Rattle.two_time.specs.SizeChecks.{SizesPassed};
ghost use Rattle.dyson.specs.Retarded.{new_retarded, new_retarded_finite};

use sums::forward_row;
use two_time::capacity::{Shape, clear_new};
use two_time::sums::Summed;

// Writes G at the new places, where all that is made for it is finite; at the first row that is not the work ends. All that it writes stands at new
// places.
pub(crate) fn forward(
    times: &[f64],
    free: &[f64],
    kernel: &[f64],
    shape: Shape,
    old: usize,
    retarded: &mut [f64],
) -> Summed
    requires { (old ≤ shape.points) × (shape.points ≤ shape.capacity) × SizesPassed shape.capacity shape.orbitals true (free.now ∷ kernel.now ∷ retarded.old ∷ []) }
    ensures { (is_ok result ≡ new_retarded_finite shape.capacity shape.orbitals old shape.points times.now free.now kernel.now retarded.old)
        × (is_ok result ≡ true → retarded.new ≡ new_retarded shape.capacity shape.orbitals old shape.points times.now free.now kernel.now retarded.old)
        × (cleared_new shape.capacity shape.orbitals old shape.points retarded.new ≡ cleared_new shape.capacity shape.orbitals old shape.points retarded.old) }
{
    let points = shape.points;
    let capacity = shape.capacity;
    let orbitals = shape.orbitals;
    clear_new(shape, old, retarded);
    for t in old..points {
        forward_row(times, free, kernel, capacity, orbitals, t, retarded)?;
    }
    Ok(())
}
