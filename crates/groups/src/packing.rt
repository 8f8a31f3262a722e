// The right factor of a term, packed: the rows of the blocks of neighbouring places, each a row of lanes.
ghost use Rattle.std.specs.Prelude.{◌≡◌, ◌+◌, ◌*◌, ◌<◌, ◌≤◌};
ghost use Rattle.lists.specs.Prelude.{ℕ, length};
ghost use Rattle.complex.specs.Numbers.{entry_at};
ghost use Rattle.two_time.specs.Layout.{place, read_as, length_of};
ghost use Rattle.two_time.specs.Places.{Placed};
ghost use Rattle.terms.specs.Kinds.{right_by, right_number};
ghost use Rattle.rows.specs.Numbers.{number_at};
ghost use Rattle.groups.specs.Right.{right_place, right_beside};
ghost use Rattle.groups.specs.Packed.{Packed};
ghost use Rattle.lanes.specs.Lanes.{lane_at};

use complex::Complex;
use terms::Factor;

pub(crate) fn right_number(factor: Factor, xs: &[f64], at: usize) -> Complex
    requires { at + 1 < length xs.now }
    ensures { result ≡ right_number factor (entry_at xs.now at) }
{
    let z = Complex::new(xs[at], xs[at + 1]);
    factor.number(z)
}

// How far the number beside one stands from it, where a row has `width` numbers.
#[tactic(auto, unfolding(crate::specs::Right::right_beside))]
pub(crate) fn right_beside(factor: Factor, width: usize) -> usize
    requires { width ≤ 256 }
    ensures { result ≡ right_beside factor width }
{
    match factor {
        Factor::Stored => 2,
        Factor::Adjoint => 2 * width,
    }
}

// Writes a row of a block of the right factor, whose first number stands at j, to the lanes from `from` on.
pub(crate) fn pack_block_row(
    factor: Factor,
    right: &[f64],
    orbitals: usize,
    j: usize,
    from: usize,
    row: &mut [f64],
)
    requires orbitals_bound { (from + orbitals ≤ 16) × (length row.old ≡ 32) }
    requires by_index { (b : ℕ) → b < orbitals → j + b * right_beside factor orbitals + 1 < length right.now }
    ensures { Packed from orbitals (λ b. right_number factor (entry_at right.now (j + b * right_beside factor orbitals))) row.old row.new }
{
    for b in 0..orbitals {
        let beside = right_beside(factor, orbitals);
        let y = right_number(factor, right, j + b * beside);
        let c = from + b;
        row[c] = y.re;
        row[c + 16] = y.im;
    }
}

// Where the real part of entry (a, b) of block (t, u) stands.
pub(crate) fn place(stride: usize, orbitals: usize, t: usize, u: usize, a: usize, b: usize) -> usize
    requires { Placed stride orbitals t u a b }
    ensures { (result ≡ place stride orbitals t u a b) × (result + 1 < length_of stride orbitals) }
{
    2 * (((t * stride + u) * orbitals + a) * orbitals + b)
}

// Where the first number of row k of the right factor at (s, u) stands.
#[tactic(auto, unfolding(crate::specs::Right::right_place))]
pub(crate) fn right_place(
    factor: Factor,
    stride: usize,
    orbitals: usize,
    s: usize,
    u: usize,
    k: usize,
) -> usize
    requires { Placed stride orbitals s u k 0 }
    ensures { result ≡ right_place factor stride orbitals s u k 0 }
{
    match factor {
        Factor::Stored => place(stride, orbitals, s, u, k, 0),
        Factor::Adjoint => place(stride, orbitals, u, s, 0, k),
    }
}

// Writes row k of the blocks of the right factor at (s, u), (s, u + 1), .., to the lanes of a row.
pub(crate) fn pack_row(
    factor: Factor,
    right: &[f64],
    stride: usize,
    orbitals: usize,
    s: usize,
    u: usize,
    k: usize,
    places: usize,
    row: &mut [f64],
)
    requires s_lt_stride { (s < stride) × (u + places ≤ stride) × (stride ≤ 256) × (k < orbitals) × (orbitals ≤ 16) × (places * orbitals ≤ 16) }
    requires orbitals_in_bounds { (length_of stride orbitals ≤ length right.now) × (length row.old ≡ 32) }
    ensures { (length row.new ≡ 32) × ((p b : ℕ) → p < places → b < orbitals → number_at row.new (p * orbitals + b)
        ≡ right_by factor (read_as stride orbitals right.now) s (u + p) k b) }
{
    for p in 0..places {
        let j = right_place(factor, stride, orbitals, s, u + p, k);
        pack_block_row(factor, right, orbitals, j, p * orbitals, row);
    }
}

// Writes the rows of those blocks, each to a row of lanes.
pub(crate) fn pack(
    factor: Factor,
    right: &[f64],
    stride: usize,
    orbitals: usize,
    s: usize,
    u: usize,
    places: usize,
    rows: &mut [f64],
)
    requires s_lt_stride { (s < stride) × (u + places ≤ stride) × (stride ≤ 256) × (orbitals ≤ 16) × (places * orbitals ≤ 16) }
    requires orbitals_in_bounds { (length_of stride orbitals ≤ length right.now) × (length rows.old ≡ 512) }
    ensures { (length rows.new ≡ 512) × ((k p b : ℕ) → k < orbitals → p < places → b < orbitals → lane_at rows.new k (p * orbitals + b)
        ≡ right_by factor (read_as stride orbitals right.now) s (u + p) k b) }
{
    for k in 0..orbitals {
        let at = 32 * k;
        let end = at + 32;
        pack_row(
            factor,
            right,
            stride,
            orbitals,
            s,
            u,
            k,
            places,
            &mut rows[at..end],
        );
    }
}
