// Complex numbers of two binary64 parts, by value (document 01, "Arithmetic under everything").
#![tactic(auto)]

pub mod bits;

ghost use Rattle.std.specs.Prelude.{◌≡◌};
ghost use Rattle.complex.specs.Arithmetic.{real, finite, size, larger, cadd, csub, cmul, conj, cfinite};

#[derive(Clone, Copy)]
pub struct Complex {
    pub re: f64,
    pub im: f64,
}

// Whether x is neither an infinity nor a NaN.
pub fn is_finite(x: f64) -> bool
    ensures { result ≡ finite x }
{
    let most = 1.0 / 0.0;
    let least = -1.0 / 0.0;
    (x < most) & (least < x)
}

// The size of a part: x with its sign cleared, so that -0 gives +0.
pub fn abs(x: f64) -> f64
    ensures { result ≡ size x }
{
    if x < 0.0 {
        return -x;
    }
    if x == 0.0 {
        return 0.0;
    }
    x
}

// The larger of two numbers, and of a number and a NaN the number.
#[tactic(auto, unfolding(crate::specs::Arithmetic::larger))]
pub fn max(x: f64, y: f64) -> f64
    ensures { result ≡ larger x y }
{
    if (x != x) | (x < y) { y } else { x }
}

impl Complex {
    pub const ZERO: Complex = Complex { re: 0.0, im: 0.0 };

    pub const ONE: Complex = Complex { re: 1.0, im: 0.0 };

    pub const MINUS_I: Complex = Complex { re: 0.0, im: -1.0 };

    pub fn new(re: f64, im: f64) -> Complex
        ensures { result ≡ record { re = re; im = im } }
    {
        Complex { re, im }
    }

    // x+0i.
    pub fn real(x: f64) -> Complex
        ensures { result ≡ real x }
    {
        Complex::new(x, 0.0)
    }

    #[tactic(auto, unfolding(crate::specs::Arithmetic::cadd))]
    pub fn plus(self, other: Complex) -> Complex
        ensures { result ≡ cadd self other }
    {
        Complex {
            re: self.re + other.re,
            im: self.im + other.im,
        }
    }

    #[tactic(auto, unfolding(crate::specs::Arithmetic::csub))]
    pub fn minus(self, other: Complex) -> Complex
        ensures { result ≡ csub self other }
    {
        Complex {
            re: self.re - other.re,
            im: self.im - other.im,
        }
    }

    #[tactic(auto, unfolding(crate::specs::Arithmetic::cmul))]
    pub fn times(self, other: Complex) -> Complex
        ensures { result ≡ cmul self other }
    {
        Complex {
            re: self.re * other.re - self.im * other.im,
            im: self.re * other.im + self.im * other.re,
        }
    }

    #[tactic(auto, unfolding(crate::specs::Arithmetic::conj))]
    pub fn conj(self) -> Complex
        ensures { result ≡ conj self }
    {
        Complex {
            re: self.re,
            im: -self.im,
        }
    }

    #[tactic(auto, unfolding(crate::specs::Arithmetic::cfinite))]
    pub fn is_finite(self) -> bool
        ensures { result ≡ cfinite self }
    {
        is_finite(self.re) & is_finite(self.im)
    }
}
