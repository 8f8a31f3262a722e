// Questions to functions, and to a report's residuals.
use crate::blocks::{block, scalar};
use crate::calls::Observe;
use crate::lent::{Head, Lent, shape};
use crate::show::{self, Show};
use crate::words::word;
use observables::{bond_flow_into, density_matrix, one_body_expectation, particle_number};
use report::{ConsistencyReport, consistency_report};
use std::io::{self, Read, Write};
use support::check_retarded_support;

// The report of four components: its residuals, then the decision by the tolerance.
fn report(out: &mut impl Write, head: Head, lent: &Lent) -> io::Result<()> {
    let answer = consistency_report(
        lent.part(1),
        lent.part(2),
        lent.part(3),
        lent.part(4),
        head.points,
        head.orbitals,
    );
    answer.show(out)?;
    if let Ok(residuals) = answer {
        residuals.is_consistent(head.tolerance).show(out)?;
    }
    Ok(())
}

// The seven residuals of a decision.
fn residuals(input: &mut impl Read) -> ConsistencyReport {
    ConsistencyReport {
        retarded_causality: word(input),
        advanced_causality: word(input),
        advanced_adjoint: word(input),
        lesser_antihermiticity: word(input),
        greater_antihermiticity: word(input),
        spectral_identity: word(input),
        equal_time: word(input),
    }
}

// A lesser function has its capacity first where it has one, then the time's index; the expectation then has its block's shape, whose numbers are
// operand 2, and the flow a, b, the hopping's parts and the charge.
pub(crate) fn call(
    input: &mut impl Read,
    out: &mut impl Write,
    head: Head,
    observe: Observe,
    lent: &Lent,
) -> io::Result<()> {
    let xs = lent.part(1);
    let tolerance = head.tolerance;
    match observe {
        Observe::RetardedSupport => {
            check_retarded_support(xs, head.points, head.orbitals, tolerance).show(out)
        }
        Observe::DensityMatrix => show::block(
            out,
            density_matrix(xs, shape(input, head), word(input)),
        ),
        Observe::ParticleNumber => {
            particle_number(xs, shape(input, head), word(input), tolerance).show(out)
        }
        Observe::Expectation => {
            let shape = shape(input, head);
            let time = word(input);
            let observable = block(input, lent.part(2));
            one_body_expectation(xs, shape, time, observable, tolerance).show(out)
        }
        Observe::BondFlow => {
            let shape = shape(input, head);
            let time = word(input);
            let a = word(input);
            let b = word(input);
            bond_flow_into(xs, shape, time, a, b, scalar(input), word(input)).show(out)
        }
        Observe::Report => report(out, head, lent),
        Observe::Decision => residuals(input).is_consistent(tolerance).show(out),
    }
}
