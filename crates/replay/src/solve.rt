// Calls that leave functions: the convolutions, the Dyson equation, the Langreth product and the transient run. Times, the operands; then the length of
// each of four outputs, 0 for those that the function has not. Those in a capacity have it there, those in a session their desk and its eight counters after
// it, and what their outputs hold before stands in four more slices.
use crate::calls::Solve;
use crate::lent::{Head, Lent, output_of, shape};
use crate::show::{self, Show};
use crate::transient;
use convolution::{causal_volterra_convolution, time_convolution};
use dyson::{retarded_dyson, retarded_dyson_with_tolerance};
use langreth::langreth_product;
use std::io::{self, Read, Write};
use two_time::capacity::Shape;

// What a call leaves: its functions, and its scratch.
#[derive(Drop)]
pub(crate) struct Outputs<'a> {
    pub(crate) a: &'a mut [f64],
    pub(crate) b: &'a mut [f64],
    pub(crate) c: &'a mut [f64],
    pub(crate) d: &'a mut [f64],
}

// The call, and its answer as text. A convolution leaves one function, Dyson G and K.
fn with_outputs(
    input: &mut impl Read,
    out: &mut impl Write,
    head: Head,
    solve: Solve,
    shape: Shape,
    lent: &Lent,
    outputs: &mut Outputs,
) -> io::Result<()> {
    let times = lent.part(0);
    let x = lent.part(1);
    let y = lent.part(2);
    let points = head.points;
    let orbitals = head.orbitals;
    let verdict = match solve {
        Solve::TimeConvolution => time_convolution(times, x, y, points, orbitals, outputs.a),
        Solve::CausalConvolution => causal_volterra_convolution(
            times, x, y, points, orbitals, outputs.a,
        ),
        Solve::DysonWithTolerance => retarded_dyson_with_tolerance(
            times,
            x,
            y,
            points,
            orbitals,
            head.tolerance,
            outputs.a,
            outputs.b,
        ),
        Solve::Dyson => retarded_dyson(times, x, y, points, orbitals, outputs.a, outputs.b),
        // Retarded, advanced, lesser and greater of the left, of the right, and of the product.
        Solve::LangrethProduct => langreth_product(
            times,
            x,
            y,
            lent.part(3),
            lent.part(4),
            lent.part(5),
            lent.part(6),
            lent.part(7),
            lent.part(8),
            points,
            orbitals,
            outputs.a,
            outputs.b,
            outputs.c,
            outputs.d,
        ),
        Solve::Run(run) => {
            let booked = transient::call(input, head, run, shape, lent, outputs);
            return show::booked(out, head.in_session, booked);
        }
    };
    verdict.show(out)
}

// An output has room for a function of the most numbers.
pub(crate) fn call(
    input: &mut impl Read,
    out: &mut impl Write,
    head: Head,
    solve: Solve,
    lent: &Lent,
) -> io::Result<()> {
    let mut first = [0.0; 131072];
    let mut second = [0.0; 131072];
    let mut third = [0.0; 131072];
    let mut fourth = [0.0; 131072];
    let shape = shape(input, head);
    let mut outputs = Outputs {
        a: output_of(input, head, lent, 0, &mut first),
        b: output_of(input, head, lent, 1, &mut second),
        c: output_of(input, head, lent, 2, &mut third),
        d: output_of(input, head, lent, 3, &mut fourth),
    };
    with_outputs(input, out, head, solve, shape, lent, &mut outputs)?;
    show::output(out, head.made, outputs.a)?;
    show::output(out, head.made, outputs.b)?;
    show::output(out, head.made, outputs.c)?;
    show::output(out, head.made, outputs.d)
}
