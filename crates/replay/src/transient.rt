// The transient run and the append of a point, at desk 0 of a session that is opened at zeros, or at the desk that the next word names, of one whose eight
// counters follow; a call that starts from a block has its shape last.
use crate::blocks::block;
use crate::calls::Run;
use crate::lent::{Head, Lent};
use crate::solve::Outputs;
use crate::words::word;
use std::io::Read;
use transient_run::{
    Booked, Session, append_point, append_point_occupied, transient_run, transient_run_occupied,
};
use two_time::capacity::Shape;

// A session, and the desk that a call is at.
#[derive(Clone, Copy)]
struct AtDesk {
    session: Session,
    desk: usize,
}

fn at_desk(input: &mut impl Read, in_session: bool) -> AtDesk {
    let mut totals = [0; 8];
    let mut desk = 0;
    if in_session {
        desk = word(input);
        for total in &mut totals {
            *total = word(input);
        }
    }
    AtDesk {
        session: Session::open(totals),
        desk,
    }
}

// Free, both self-energies, the numbers of the block; G^R, G^<, K and X. The points of an append are those before it.
pub(crate) fn call(
    input: &mut impl Read,
    head: Head,
    run: Run,
    shape: Shape,
    lent: &Lent,
    outputs: &mut Outputs,
) -> Booked {
    let AtDesk { session, desk } = at_desk(input, head.in_session);
    let times = lent.part(0);
    let free = lent.part(1);
    let self_energy = lent.part(2);
    let lesser_self_energy = lent.part(3);
    let tolerance = head.tolerance;
    match run {
        Run::TransientRun => transient_run(
            session,
            desk,
            times,
            free,
            self_energy,
            lesser_self_energy,
            shape,
            tolerance,
            outputs.a,
            outputs.b,
            outputs.c,
            outputs.d,
        ),
        Run::AppendPoint => append_point(
            session,
            desk,
            times,
            free,
            self_energy,
            lesser_self_energy,
            shape,
            tolerance,
            outputs.a,
            outputs.b,
            outputs.c,
            outputs.d,
        ),
        Run::OccupiedRun => transient_run_occupied(
            session,
            desk,
            times,
            free,
            self_energy,
            lesser_self_energy,
            block(input, lent.part(4)),
            shape,
            tolerance,
            outputs.a,
            outputs.b,
            outputs.c,
            outputs.d,
        ),
        Run::OccupiedAppend => append_point_occupied(
            session,
            desk,
            times,
            free,
            self_energy,
            lesser_self_energy,
            block(input, lent.part(4)),
            shape,
            tolerance,
            outputs.a,
            outputs.b,
            outputs.c,
            outputs.d,
        ),
    }
}
