// What a call is lent: slices that stand in the list or are made, and what its outputs hold before.
ghost use Rattle.std.specs.Prelude.{◌<◌};

use crate::calls::{Function, Run, Solve};
use crate::made;
use crate::words::{slice, word};
use std::io::Read;
use two_time::capacity::Shape;

// What every call begins with: the function, if it is one, how its slices stand in the list, points, orbitals and the tolerance.
#[derive(Clone, Copy)]
pub(crate) struct Head {
    pub(crate) function: Option<Function>,
    // Whether its slices are made of a seed.
    pub(crate) made: bool,
    // Whether it has a capacity of its own, the next word after its slices, and its outputs hold slices of the list before.
    pub(crate) in_capacity: bool,
    // Whether it is told its desk and its session's counters.
    pub(crate) in_session: bool,
    pub(crate) points: usize,
    pub(crate) orbitals: usize,
    pub(crate) tolerance: f64,
}

// Where a slice begins and ends among the numbers.
#[derive(Clone, Copy)]
pub(crate) struct Slot {
    pub(crate) begin: usize,
    pub(crate) end: usize,
}

// The times' slot, then those of up to eight operands.
pub(crate) type Slots = [Slot; 9];

pub(crate) const NO_SLOTS: Slots = [Slot { begin: 0, end: 0 }; 9];

// The slices of a call.
#[derive(Clone, Copy)]
pub(crate) struct Lent<'a> {
    numbers: &'a [f64],
    slots: Slots,
}

impl<'a> Lent<'a> {
    // The times are slice 0; a slice that is none is empty.
    pub(crate) fn part(&self, k: usize) -> &'a [f64] {
        let Some(slot) = self.slots.get(k) else {
            return &[];
        };
        self.numbers.get(slot.begin..slot.end).unwrap_or(&[])
    }

    // What output k holds before a call in a capacity: after the operands, which in a call that starts occupied have a block.
    fn before(&self, function: Option<Function>, k: usize) -> &'a [f64]
        requires { k < 4 }
    {
        match function {
            Some(Function::Solve(Solve::Run(Run::OccupiedRun | Run::OccupiedAppend))) => {
                self.part(5 + k)
            }
            _ => self.part(4 + k),
        }
    }
}

// Number 64 + k is function k with slices that are made.
pub(crate) fn begin(input: &mut impl Read, function: Option<Function>, number: u64) -> Head {
    Head {
        function,
        made: number >= 64,
        in_capacity: (36..=45).contains(&(number % 64)),
        in_session: (42..=45).contains(&(number % 64)),
        points: word(input),
        orbitals: word(input),
        tolerance: word(input),
    }
}

// The points and orbitals of a call; a function without a capacity is laid out for its points.
pub(crate) fn shape(input: &mut impl Read, head: Head) -> Shape {
    Shape {
        points: head.points,
        capacity: if head.in_capacity {
            word(input)
        } else {
            head.points
        },
        orbitals: head.orbitals,
    }
}

// Slices that stand in the list, one after the other, none where they are too many.
fn stored(input: &mut impl Read, count: usize, numbers: &mut [f64]) -> Slots {
    let mut slots = NO_SLOTS;
    let Some(filled) = slots.get_mut(..count) else {
        return slots;
    };
    let mut begin = 0;
    for slot in filled {
        let end = begin + slice(input, &mut numbers[begin..]);
        *slot = Slot { begin, end };
        begin = end;
    }
    slots
}

fn slots(input: &mut impl Read, head: Head, numbers: &mut [f64]) -> Slots {
    let bond_flows = matches!(head.function, Some(Function::BondFlows));
    if head.made && !bond_flows {
        return made::lend(input, head.points, head.orbitals, numbers);
    }
    let count = word(input);
    stored(input, if bond_flows { 2 } else { count }, numbers)
}

// The slices of a call, of whose bond flows the queries are no numbers and stand after these.
pub(crate) fn lend<'a>(input: &mut impl Read, head: Head, numbers: &'a mut [f64]) -> Lent<'a> {
    let slots = slots(input, head, numbers);
    Lent { numbers, slots }
}

// What an output holds before a call, again and again: numbers of which none may stay.
pub(crate) const HELD: [f64; 5] = [7.5, -0.0, f64::NAN, -1.25, f64::INFINITY];

// An output of the next word's length that holds these again and again, empty where there is no room for it.
pub(crate) fn output<'a, T: Copy>(
    input: &mut impl Read,
    held: &[T],
    room: &'a mut [T],
) -> &'a mut [T] {
    let Some(output) = room.get_mut(..word(input)) else {
        return &mut [];
    };
    for (x, before) in output.iter_mut().zip(held.iter().cycle()) {
        *x = *before;
    }
    output
}

// What stands in the first places of a room, again and again up to the next word's length, empty where there is no room for it.
pub(crate) fn repeated<'a, T: Copy>(
    input: &mut impl Read,
    stored: usize,
    room: &'a mut [T],
) -> &'a mut [T] {
    let Some(output) = room.get_mut(..word(input)) else {
        return &mut [];
    };
    for i in stored..output.len() {
        output[i] = output[i - stored];
    }
    output
}

// An output that holds the numbers before the call, empty where there is no room for them.
fn copied<'a>(before: &[f64], room: &'a mut [f64]) -> &'a mut [f64] {
    let Some(output) = room.get_mut(..before.len()) else {
        return &mut [];
    };
    output.copy_from_slice(before);
    output
}

// Output k of a call: in a capacity it holds what is given in the list.
pub(crate) fn output_of<'a>(
    input: &mut impl Read,
    head: Head,
    lent: &Lent,
    k: usize,
    room: &'a mut [f64],
) -> &'a mut [f64]
    requires { k < 4 }
{
    if head.in_capacity {
        return copied(lent.before(head.function, k), room);
    }
    output(input, &HELD, room)
}
