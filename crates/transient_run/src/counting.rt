// The counters of a session, and how many products a call forms (document 02, L3, L13 and L5).
ghost use Rattle.std.specs.Prelude.{Ok, ◌≡◌, ◌+◌, ◌<◌, ◌≤◌};
ghost use Rattle.lists.specs.Prelude.{ℕ, min, List, Float};
ghost use Rattle.transient_run.specs.Products.{formed, count_of};
ghost use Rattle.transient_run.specs.Form.{form_by, start_products};
ghost use Rattle.transient_run.specs.Calls.{counter_of, booked};

use crate::{Kind, Session};

// The counter of a desk.
pub(crate) fn counter_of(session: Session, desk: usize) -> u64
    requires { desk < 8 }
    ensures { result ≡ counter_of session desk }
{
    session.products[desk]
}

// The session after an accepted call of that count.
pub(crate) fn with_count(session: Session, desk: usize, count: u64) -> Session
    requires { (desk < 8) × (counter_of session desk + count ≤ 0xffff_ffff_ffff_ffff) }
    ensures { result ≡ booked session desk (Ok count) }
{
    let mut products = session.products;
    products[desk] += count;
    Session { products }
}

// How many products the start of G^< takes at a place.
pub(crate) fn start_products(kind: Kind) -> u64
    ensures { ((rows columns : ℕ) (values : List Float) → result ≡ start_products (form_by kind rows columns values)) × (result ≤ 2) }
{
    match kind {
        Kind::Empty => 0,
        Kind::Occupied => 2,
    }
}

// How many products a run over the points forms, cut at 256 points, where the start of G^< takes `start` at each place:
// N(N+1)(2N+1)/6 + N·N·(N+1) − 3N, and `start`·N·N more.
fn count_of(start: u64, points: usize) -> u64
    requires { start ≤ 2 }
    ensures { result ≡ count_of start (min points 256) }
{
    let n = points.min(256) as u64;
    n * (n + 1) * (2 * n + 1) / 6 + n * n * (n + 1) - 3 * n + start * (n * n)
}

// How many products a call forms that works out the places from `old` on.
pub(crate) fn formed(start: u64, old: usize, points: usize) -> u64
    requires { (start ≤ 2) × (old ≤ points) × (points ≤ 256) }
    ensures { result ≡ formed start old points }
{
    let before = count_of(start, old);
    count_of(start, points) - before
}
