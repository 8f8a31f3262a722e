// Slices that are made of a seed, for calls at sizes that are too large to be stored: rising times, and one function that is lent for
// every operand.
ghost use Rattle.std.specs.Prelude.{◌≤◌};

use crate::lent::{NO_SLOTS, Slot, Slots};
use crate::words::word;
use crate::xorshift::Xorshift;
use std::io::Read;

// The numbers of a function with these points and orbitals, 0 where they are more than there is room for.
fn length(points: usize, orbitals: usize) -> usize
    ensures { result ≤ 131072 }
{
    if points > 256 || orbitals > 16 {
        return 0;
    }
    let count = 2 * (points * points) * (orbitals * orbitals);
    if count > 131072 { 0 } else { count }
}

// Makes rising times.
fn make_times(random: &mut Xorshift, times: &mut [f64]) {
    let mut now = 0.0;
    for time in times {
        now += random.number() * 0.1 + 0.15;
        *time = now;
    }
}

// Whether the p-th number of a function stands at a place (t, u) with t ≥ u.
fn supported(p: usize, points: usize, orbitals: usize) -> bool {
    let block = length(1, orbitals);
    if block == 0 || points == 0 {
        return false;
    }
    let place = p / block;
    place % points <= place / points
}

// Makes a function that is +0 at every place (t, u) with t < u.
fn make_function(random: &mut Xorshift, points: usize, orbitals: usize, numbers: &mut [f64]) {
    for (p, x) in numbers.iter_mut().enumerate() {
        *x = if supported(p, points, orbitals) {
            random.number()
        } else {
            0.0
        };
    }
}

// Makes the slices of the next word's seed: the times, then the function, which is every operand.
pub(crate) fn lend(
    input: &mut impl Read,
    points: usize,
    orbitals: usize,
    numbers: &mut [f64],
) -> Slots {
    let mut random = Xorshift::new(word(input));
    let Some((times, rest)) = numbers.split_at_mut_checked(points) else {
        return NO_SLOTS;
    };
    let Some(function) = rest.get_mut(..length(points, orbitals)) else {
        return NO_SLOTS;
    };
    make_times(&mut random, times);
    make_function(&mut random, points, orbitals, function);
    let mut slots = [Slot {
        begin: points,
        end: points + function.len(),
    }; 9];
    slots[0] = Slot {
        begin: 0,
        end: points,
    };
    slots
}
