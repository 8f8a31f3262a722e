// Rows of lanes: a row of products is made from a packed right factor, and goes to the totals by its weights. A row is 32 numbers, as crate `lanes`
// says.
#![tactic(auto)]

ghost use Rattle.std.specs.Prelude.{◌≡◌, ◌+◌, ◌*◌, ◌<◌, ◌≤◌};
ghost use Rattle.lists.specs.Prelude.{ℕ, length};
ghost use Rattle.complex.specs.Arithmetic.{real, cadd, cmul};
ghost use Rattle.complex.specs.Numbers.{entry_at};
ghost use Rattle.complex.specs.Sum.{sum_from};
ghost use Rattle.rows.specs.Numbers.{number_at, with_number, Mapped};
ghost use Rattle.rows.specs.Ranges.{only_from, Ranged};
ghost use Rattle.rows.specs.Rows.{stepped, packed_product, is_ranged, has_block, packed_fits, packed_totals};
ghost use Rattle.lanes.specs.Lanes.{lane_at, with_lanes};

use complex::Complex;
use terms::Term;

// The number of lane c of a row.
fn number(xs: &[f64], c: usize) -> Complex
    requires { (c < 16) × (length xs.now ≡ 32) }
    ensures { result ≡ number_at xs.now c }
{
    Complex::new(xs[c], xs[c + 16])
}

// Writes it.
fn set_number(xs: &mut [f64], c: usize, z: Complex)
    requires { (c < 16) × (length xs.old ≡ 32) }
    ensures { xs.new ≡ with_number xs.old c z }
{
    xs[c] = z.re;
    xs[c + 16] = z.im;
}

// Adds x times each lane of a row to that of the sums.
fn add_products(x: Complex, row: &[f64], sums: &mut [f64; 32])
    requires { (length row.now ≡ 32) × (length sums.old ≡ 32) }
    ensures { Mapped (λ c z. cadd z (cmul x (number_at row.now c))) 16 sums.old sums.new }
{
    // By index: the parts of a lane stand 16 apart.
    for c in 0..16 {
        let z = Complex::new(sums[c], sums[c + 16]);
        let sum = z.plus(x.times(number(row, c)));
        sums[c] = sum.re;
        sums[c + 16] = sum.im;
    }
}

// Adds the products of a row of the left factor, whose first number stands at i, with the packed rows of the right factor.
fn row_products(left: &[f64], i: usize, orbitals: usize, rows: &[f64], sums: &mut [f64; 32])
    requires { (orbitals ≤ 16) × (length rows.now ≡ 512) × (i + 2 * orbitals ≤ length left.now) × (length sums.old ≡ 32) }
    ensures { (length sums.new ≡ 32) × ((c : ℕ) → c < 16 → number_at sums.new c
        ≡ sum_from (number_at sums.old c) (λ k. cmul (entry_at left.now (i + 2 * k)) (lane_at rows.now k c)) 0 orbitals) }
{
    for k in 0..orbitals {
        let j = i + 2 * k;
        let at = 32 * k;
        let end = at + 32;
        let x = Complex::new(left[j], left[j + 1]);
        add_products(x, &rows[at..end], sums);
    }
}

// Adds the weight times each of the sums, from lane lo to before lane hi, to the totals.
fn scale_lanes(weight: f64, sums: &[f64; 32], lo: usize, hi: usize, totals: &mut [f64])
    requires { (lo ≤ hi) × (hi ≤ 16) × (length totals.old ≡ 32) }
    ensures { Mapped (only_from lo (λ c z. cadd z (cmul (number_at sums.now c) (real weight)))) hi totals.old totals.new }
{
    // By index: the parts of a lane stand 16 apart.
    for c in lo..hi {
        let p = Complex::new(sums[c], sums[c + 16]);
        let z = number(totals, c);
        let sum = z.plus(p.times(Complex::real(weight)));
        set_number(totals, c, sum);
    }
}

// Adds a term to the totals of a row: each lane by its weight.
fn add_scaled(term: Term, sums: &[f64; 32], totals: &mut [f64])
    requires { Ranged term × (length totals.old ≡ 32) }
    ensures { Mapped (λ c z. stepped term c (number_at sums.now c) z) term.lanes totals.old totals.new }
{
    let below = term.below;
    let above = term.above;
    let lanes = term.lanes;
    if (below == 16) | ((above == 0) & (lanes == 16)) {
        scale_lanes(term.common, sums, 0, 16, totals);
    } else {
        scale_lanes(term.common, sums, 0, below, totals);
        scale_lanes(term.ends, sums, term.before, term.after, totals);
        scale_lanes(term.common, sums, above, lanes, totals);
    }
}

// Adds a term to all rows.
fn add_rows(left: &[f64], i: usize, orbitals: usize, rows: &[f64], term: Term, totals: &mut [f64])
    requires ranged { Ranged term × (orbitals ≤ 16) × (length rows.now ≡ 512) × (length totals.old ≡ 512) }
    requires orbitals_in_bounds { (i + 2 * (orbitals * orbitals) ≤ length left.now) × (length left.now ≤ 33554432) }
    ensures { totals.new ≡ with_lanes orbitals term.lanes (λ a c. stepped term c (packed_product orbitals left.now i rows.now a c) (lane_at totals.old a c)) totals.old }
{
    let width = 2 * orbitals;
    // By index: once `chunks_mut` is over a proof does not know what it wrote.
    for a in 0..orbitals {
        let at = 32 * a;
        let end = at + 32;
        let mut sums = [0.0; 32];
        row_products(left, i + a * width, orbitals, rows, &mut sums);
        add_scaled(term, &sums, &mut totals[at..end]);
    }
}

// Whether the ranges of a term follow each other, within sixteen lanes.
#[tactic(auto, unfolding(crate::specs::Rows::is_ranged))]
fn is_ranged(term: Term) -> bool
    ensures { result ≡ is_ranged term }
{
    let low = (term.below <= term.before) & (term.before <= term.after);
    let top = (term.above <= term.lanes) & (term.lanes <= 16);
    low & ((term.after <= term.above) & top)
}

// Whether a block from i on lies in the left factor; a sum of places in one of this length is a usize.
#[tactic(auto, unfolding(crate::specs::Rows::has_block))]
fn has_block(left: &[f64], i: usize, orbitals: usize) -> bool
    ensures { result ≡ has_block left.now i orbitals }
{
    let len = left.len();
    orbitals <= 16 && len <= 33554432 && i <= len && i + 2 * (orbitals * orbitals) <= len
}

// Adds a term to the totals of all rows, each lane by its weight, and answers whether it fits; one that does not changes nothing. `i` is where
// left(t,s) stands, `rows` the packed right factor.
pub fn add_packed(
    left: &[f64],
    i: usize,
    orbitals: usize,
    rows: &[f64],
    term: Term,
    totals: &mut [f64],
) -> bool
    ensures { (result ≡ packed_fits left.now i orbitals rows.now term totals.old)
        × (totals.new ≡ packed_totals left.now i orbitals rows.now term totals.old) }
{
    let lengths = (rows.len() == 512) & (totals.len() == 512);
    if !(is_ranged(term) & (has_block(left, i, orbitals) & lengths)) {
        return false;
    }
    add_rows(left, i, orbitals, rows, term, totals);
    true
}
