// Where an entry of a two-time function stands in its slice (document 01, "Kept, renewed, left behind"). A row of blocks has
// `stride` of them.
ghost use Rattle.std.specs.Prelude.{◌≡◌, ◌+◌, ◌*◌, ◌<◌, ◌≤◌};
ghost use Rattle.lists.specs.Prelude.{min, length, replicate};
ghost use Rattle.complex.specs.Arithmetic.{plus_zero};
ghost use Rattle.two_time.specs.Layout.{place, is_place, read_as, stored_at, length_of};
ghost use Rattle.two_time.specs.Places.{Placed};

use complex::Complex;

// How many numbers a function has, 2·N·N·n·n. N and n are cut to their limits, so that the product fits.
pub fn function_length(points: usize, orbitals: usize) -> usize
    ensures { result ≡ length_of (min points 256) (min orbitals 16) }
{
    let most_points = points.min(256);
    let most_orbitals = orbitals.min(16);
    2 * most_points * most_points * most_orbitals * most_orbitals
}

// Where the real part of entry (a, b) of block (t, u) stands.
#[tactic(auto, using(crate::specs::Places::within))]
fn place(stride: usize, orbitals: usize, t: usize, u: usize, a: usize, b: usize) -> usize
    requires { Placed stride orbitals t u a b }
    ensures { (result ≡ place stride orbitals t u a b) × (result + 1 < length_of stride orbitals) }
{
    2 * (((t * stride + u) * orbitals + a) * orbitals + b)
}

// Entry (a, b) of block (t, u).
fn entry(
    xs: &[f64],
    stride: usize,
    orbitals: usize,
    t: usize,
    u: usize,
    a: usize,
    b: usize,
) -> Complex
    requires placed { Placed stride orbitals t u a b }
    requires orbitals_in_bounds { length_of stride orbitals ≤ length xs.now }
    ensures { result ≡ read_as stride orbitals xs.now t u a b }
{
    let i = place(stride, orbitals, t, u, a, b);
    Complex::new(xs[i], xs[i + 1])
}

// Whether (t, u) is a place and (a, b) an entry there, within the limits of N and n.
#[tactic(auto, unfolding(crate::specs::Layout::is_place))]
fn is_place(stride: usize, orbitals: usize, t: usize, u: usize, a: usize, b: usize) -> bool
    ensures { result ≡ is_place stride orbitals t u a b }
{
    let limits = (stride <= 256) & (orbitals <= 16);
    limits & (((t < stride) & (u < stride)) & ((a < orbitals) & (b < orbitals)))
}

// Entry (a, b) of block (t, u), where the indices, N, n and the slice reach.
pub fn read(
    xs: &[f64],
    stride: usize,
    orbitals: usize,
    t: usize,
    u: usize,
    a: usize,
    b: usize,
) -> Option<Complex>
    ensures { result ≡ stored_at stride orbitals xs.now t u a b }
{
    let room = function_length(stride, orbitals) <= xs.len();
    if is_place(stride, orbitals, t, u, a, b) & room {
        return Some(entry(xs, stride, orbitals, t, u, a, b));
    }
    None
}

// Leaves +0 throughout.
pub fn clear(xs: &mut [f64])
    ensures { xs.new ≡ replicate (length xs.old) plus_zero }
{
    xs.fill(0.0);
}
