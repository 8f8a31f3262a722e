// Answers as text on the output, each after a space: a refusal by its number, operand, first, second and part, a number by its
// bits.
use crate::xorshift::digest;
use complex::Complex;
use complex::bits::to_bits;
use matrix::DenseMatrix;
use observables::Observed;
use refusal::{Refusal, Verdict};
use report::ConsistencyReport;
use std::io::{self, Write};
use transient_run::Booked;

// What an answer has.
pub(crate) trait Show {
    fn show(self, out: &mut impl Write) -> io::Result<()>;
}

// An accepted call.
impl Show for () {
    fn show(self, out: &mut impl Write) -> io::Result<()> {
        out.write_all(b" accepted")
    }
}

// A NaN's bits are free, so it has none.
impl Show for f64 {
    fn show(self, out: &mut impl Write) -> io::Result<()> {
        if self.is_nan() {
            return out.write_all(b" nan");
        }
        let bits = to_bits(self);
        write!(out, " {bits:016x}")
    }
}

impl Show for bool {
    fn show(self, out: &mut impl Write) -> io::Result<()> {
        out.write_all(if self { b" yes" } else { b" no" })
    }
}

impl Show for Complex {
    fn show(self, out: &mut impl Write) -> io::Result<()> {
        self.re.show(out)?;
        self.im.show(out)
    }
}

impl Show for ConsistencyReport {
    fn show(self, out: &mut impl Write) -> io::Result<()> {
        self.retarded_causality.show(out)?;
        self.advanced_causality.show(out)?;
        self.advanced_adjoint.show(out)?;
        self.lesser_antihermiticity.show(out)?;
        self.greater_antihermiticity.show(out)?;
        self.spectral_identity.show(out)?;
        self.equal_time.show(out)
    }
}

impl Show for Refusal {
    fn show(self, out: &mut impl Write) -> io::Result<()> {
        write!(
            out,
            " refused {} {} {} {}",
            self.number, self.operand, self.first, self.second
        )?;
        self.part.show(out)
    }
}

impl<T: Show> Show for Result<T, Refusal> {
    fn show(self, out: &mut impl Write) -> io::Result<()> {
        match self {
            Ok(x) => x.show(out),
            Err(r) => r.show(out),
        }
    }
}

impl Show for Observed {
    fn show(self, out: &mut impl Write) -> io::Result<()> {
        match self {
            Observed::Number(x) => x.show(out),
            Observed::NotReal(x) => {
                out.write_all(b" not-real")?;
                x.show(out)
            }
            Observed::Refused(r) => r.show(out),
        }
    }
}

pub(crate) fn numbers(out: &mut impl Write, xs: &[f64]) -> io::Result<()> {
    for x in xs {
        x.show(out)?;
    }
    Ok(())
}

pub(crate) fn bytes(out: &mut impl Write, xs: &[u8]) -> io::Result<()> {
    for x in xs {
        write!(out, " {x}")?;
    }
    Ok(())
}

// An output or scratch slice: its numbers, or one digest of them.
pub(crate) fn output(out: &mut impl Write, digested: bool, xs: &[f64]) -> io::Result<()> {
    if digested && !xs.is_empty() {
        let bits = digest(xs);
        return write!(out, " {bits:016x}");
    }
    numbers(out, xs)
}

// The answer of a run or an append; with the count that an accepted one carries and the counters after any, if they are told.
pub(crate) fn booked(out: &mut impl Write, told: bool, booked: Booked) -> io::Result<()> {
    let verdict: Verdict = booked.answer.and(Ok(()));
    verdict.show(out)?;
    if !told {
        return Ok(());
    }
    if let Ok(count) = booked.answer {
        write!(out, " {count}")?;
    }
    for products in booked.session.products {
        write!(out, " {products}")?;
    }
    Ok(())
}

// The block that a call made, and that of no rows and columns beside a refusal: its numbers are told up to the last one that is not +0.
pub(crate) fn block(out: &mut impl Write, made: Result<DenseMatrix, Refusal>) -> io::Result<()> {
    let verdict: Verdict = made.and(Ok(()));
    verdict.show(out)?;
    let block = made.unwrap_or(DenseMatrix::NONE);
    write!(out, " {} {}", block.rows, block.columns)?;
    let values = &block.values;
    let count = values
        .iter()
        .rposition(|x| to_bits(*x) != 0)
        .map_or(0, |last| last + 1);
    numbers(out, &values[..count])
}
