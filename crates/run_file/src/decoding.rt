// A run file's own lines, and the numbers of its bodies (document 01, run file).
ghost use Rattle.std.specs.Prelude.{◌≡◌, ◌&&◌, ◌∷◌, ◌+◌, ◌*◌, ◌≤◌};
ghost use Rattle.lists.specs.Prelude.{[], eqb, length};
ghost use Rattle.two_time.specs.Layout.{length_of};
ghost use Rattle.run_file.specs.Bytes.{u32, numbers};
ghost use Rattle.run_file.specs.File.{table_fits, file_checks};
ghost use Rattle.run_file.specs.Table.{Sized};

use crate::bytes::word;
use complex::bits::from_bits;
use refusal::Verdict;
use refusal::checks::{large_enough, well_formed, within_program};
use two_time::layout::function_length;

// Whether the table names that start and that count in a row.
fn row_fits(bytes: &[u8], row: usize, start: usize, count: usize) -> bool
    requires { row ≤ 4 }
    ensures { result ≡ (eqb (u32 (8 + 8 * row) bytes.now) start && eqb (u32 (12 + 8 * row) bytes.now) count) }
{
    let offset = word(bytes, 8 + 8 * row, 4) == start as u64;
    offset & (word(bytes, 12 + 8 * row, 4) == count as u64)
}

// How many numbers the body of a function has.
pub(crate) fn body_length(points: usize, orbitals: usize) -> usize
    requires { Sized points orbitals }
    ensures { (result ≡ length_of points orbitals) × (result ≤ 512) }
{
    function_length(points, orbitals)
}

// Whether the bodies adjoin in table order from byte 40, the counts match and the length is exact.
#[tactic(auto, using(crate::specs::Table::table_rows))]
fn table_fits(bytes: &[u8], points: usize, orbitals: usize) -> bool
    requires { Sized points orbitals }
    ensures { result ≡ table_fits bytes.now 0 40 (points ∷ length_of points orbitals ∷ length_of points orbitals ∷ length_of points orbitals ∷ []) }
{
    let each = body_length(points, orbitals);
    let free = 40 + 8 * points;
    let self_energy = free + 8 * each;
    let lesser_self_energy = self_energy + 8 * each;
    let last = row_fits(bytes, 3, lesser_self_energy, each)
        & (bytes.len() == lesser_self_energy + 8 * each);
    let later = row_fits(bytes, 2, self_energy, each) & last;
    row_fits(bytes, 0, 40, points) & (row_fits(bytes, 1, free, each) & later)
}

// 15 for the head, 1, 2, and 15 for the rest.
#[tactic(auto, unfolding(crate::specs::File::file_checks))]
pub(crate) fn check_file(bytes: &[u8]) -> Verdict
    ensures { result ≡ file_checks bytes.now }
{
    let points = word(bytes, 0, 4) as usize;
    let orbitals = word(bytes, 4, 4) as usize;
    well_formed(40 <= bytes.len())?;
    large_enough(points, orbitals)?;
    within_program(points, orbitals)?;
    well_formed(table_fits(bytes, points, orbitals))
}

// The numbers from a place on.
pub(crate) fn numbers(bytes: &[u8], at: usize, out: &mut [f64])
    requires { (at ≤ 16384) × (length out.old ≤ 512) }
    ensures { out.new ≡ numbers at (length out.old) bytes.now }
{
    // By index: after an adapter of `iter_mut` a proof does not know the values.
    for k in 0..out.len() {
        out[k] = from_bits(word(bytes, at + 8 * k, 8));
    }
}
