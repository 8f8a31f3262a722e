// A view of one two-time function (document 01, "Where the Rust leans on heap and closures").
#![tactic(auto)]

ghost use Rattle.std.specs.Prelude.{◌≡◌};
ghost use Rattle.observables.specs.Calls.{lesser_checks, particle_number, one_body_expectation, bond_flow_into};
ghost use Rattle.view.specs.Calls.{stored_entry};

use complex::Complex;
use matrix::DenseMatrix;
use observables::Observed;
use observables::checks::check_lesser;
use refusal::checks::{orbital_below, time_below};
use refusal::{Refusal, Verdict};
use two_time::capacity::Shape;
use two_time::layout::read;

// The lent numbers, N and n.
#[derive(Clone, Copy)]
pub struct View<'a> {
    pub numbers: &'a [f64],
    pub points: usize,
    pub orbitals: usize,
}

impl<'a> View<'a> {
    // The view of what is lent, whatever its length.
    pub fn new(numbers: &'a [f64], points: usize, orbitals: usize) -> View<'a>
        ensures { result ≡ record { numbers = numbers.entry; points = points; orbitals = orbitals } }
    {
        View {
            numbers,
            points,
            orbitals,
        }
    }

    // The function is laid out for its points, so that its capacity is N.
    fn shape(self) -> Shape
        ensures { result ≡ record { points = self.entry.points; capacity = self.entry.points; orbitals = self.entry.orbitals } }
    {
        Shape {
            points: self.points,
            capacity: self.points,
            orbitals: self.orbitals,
        }
    }

    // Checks 1, 2, 3 and 7 of what a view holds. Every other call over it asks them too.
    pub fn check(self) -> Verdict
        ensures { result ≡ lesser_checks self.entry.points self.entry.points self.entry.orbitals self.entry.numbers.now }
    {
        check_lesser(self.numbers, self.shape())
    }

    // Entry (a, b) of block (t, u): 1, 2, 3 and 7, then 11 of t and of u, then 12 of a and of b.
    #[tactic(auto, unfolding(crate::specs::Calls::stored_entry, crate::specs::Calls::entry_checks, matrix::specs::Calls::valued))]
    pub fn entry(self, t: usize, u: usize, a: usize, b: usize) -> Result<Complex, Refusal>
        ensures { result ≡ stored_entry self.entry.points self.entry.orbitals self.entry.numbers.now t u a b }
    {
        self.check()?;
        time_below(t, self.points)?;
        time_below(u, self.points)?;
        orbital_below(a, self.orbitals)?;
        orbital_below(b, self.orbitals)?;
        // Zero is never taken: the checks passed.
        let stored = read(self.numbers, self.points, self.orbitals, t, u, a, b);
        Ok(stored.unwrap_or(Complex::ZERO))
    }

    // Tr rho of a lesser function.
    pub fn particle_number(self, time_index: usize, tolerance: f64) -> Observed
        ensures { result ≡ particle_number self.entry.points self.entry.points self.entry.orbitals self.entry.numbers.now time_index tolerance }
    {
        observables::particle_number(self.numbers, self.shape(), time_index, tolerance)
    }

    // Tr[O rho] of a one-body matrix O.
    pub fn one_body_expectation(
        self,
        time_index: usize,
        observable: DenseMatrix,
        tolerance: f64,
    ) -> Observed
        ensures { result ≡ one_body_expectation self.entry.points self.entry.points self.entry.orbitals self.entry.numbers.now time_index observable tolerance }
    {
        observables::one_body_expectation(
            self.numbers,
            self.shape(),
            time_index,
            observable,
            tolerance,
        )
    }

    // The flow into orbital a from b, J = 2 q/hbar Im[h_ab rho_ba].
    pub fn bond_flow_into(
        self,
        time_index: usize,
        a: usize,
        b: usize,
        hopping_ab: Complex,
        charge_over_hbar: f64,
    ) -> Observed
        ensures { result ≡ bond_flow_into self.entry.points self.entry.points self.entry.orbitals self.entry.numbers.now time_index a b hopping_ab charge_over_hbar }
    {
        observables::bond_flow_into(
            self.numbers,
            self.shape(),
            time_index,
            a,
            b,
            hopping_ab,
            charge_over_hbar,
        )
    }
}
