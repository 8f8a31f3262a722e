// The grid of the head's points at the times.
use crate::calls::Weights;
use crate::lent::{HELD, Head, Lent, output};
use crate::show::{Show, numbers};
use crate::words::word;
use grid::{
    check_grid, check_times, checked_interval_weight, full_weight, full_weights, half_step,
    interval_weight,
};
use std::io::{self, Read, Write};

// The full weights: the output's length.
fn full(
    input: &mut impl Read,
    out: &mut impl Write,
    times: &[f64],
    points: usize,
) -> io::Result<()> {
    let mut room = [0.0; 1024];
    let weights = output(input, &HELD, &mut room);
    full_weights(times, points, weights).show(out)?;
    numbers(out, weights)
}

// An interval's weight has a point, a start and an end, a half step a later point and an earlier one, a full weight a point.
pub(crate) fn call(
    input: &mut impl Read,
    out: &mut impl Write,
    head: Head,
    weights: Weights,
    lent: &Lent,
) -> io::Result<()> {
    let times = lent.part(0);
    let points = head.points;
    match weights {
        Weights::Full => full(input, out, times, points),
        Weights::CheckedInterval => {
            checked_interval_weight(times, points, word(input), word(input), word(input)).show(out)
        }
        Weights::CheckTimes => check_times(times, points).show(out),
        Weights::CheckGrid => check_grid(times, points).show(out),
        Weights::HalfStep => half_step(times, word(input), word(input)).show(out),
        Weights::FullAt => full_weight(times, points, word(input)).show(out),
        Weights::Interval => interval_weight(times, word(input), word(input), word(input)).show(
            out,
        ),
    }
}
