// What `by_groups` makes of closures.
ghost use Rattle.std.specs.Prelude.{◌≡◌};
ghost use Rattle.lists.specs.Prelude.{true, length};
ghost use Rattle.refusal.specs.Verdict.{zeroed};
ghost use Rattle.groups.specs.Runs.{FitsRun};

use super::*;
use two_time::sums::SumError;

// Three orbitals: groups of five places, of 18 numbers each. The closure writes 2 to the group at column 2 and 7 to others, and refuses that at `bad`.
fn by_column(bad: usize, orbitals: usize, from: usize, count: usize, out: &mut [f64]) -> bool {
    by_groups(
        |u, _, part| {
            part.fill(if u == 2 { 2.0 } else { 7.0 });
            if u == bad {
                return Err(SumError::Overflow);
            }
            Ok(())
        },
        orbitals,
        from,
        count,
        out,
    )
}

// What a caller gets from the contract: a closure that writes +0 leaves it throughout a run that fits.
fn cleared(orbitals: usize, from: usize, count: usize, out: &mut [f64]) -> bool
    ensures { FitsRun orbitals from count (length out.old) → (result ≡ true) × (out.new ≡ zeroed out.old) }
{
    by_groups(
        |_, _, part| {
            clear(part);
            Ok(())
        },
        orbitals,
        from,
        count,
        out,
    )
}

#[test]
fn closure_clears_its_groups(rt: HostRuntime) {
    let mut out = [0.5; 126];
    assert!(rt; cleared(3, 2, 7, &mut out));
    assert!(rt; out.iter().all(|x| *x == 0.0 && x.is_sign_positive()));
}

#[test]
fn closure_writes_its_groups(rt: HostRuntime) {
    for (bad, said, second) in [(256, true, 7.0), (7, false, 7.0), (2, false, 0.5)] {
        let mut out = [0.5; 126];
        assert_eq!(rt;
            by_column(bad, 3, 2, 7, &mut out),
            said,
            "bad group at {bad}"
        );
        for (k, x) in out.iter().enumerate() {
            assert_eq!(rt;
                *x,
                if k < 90 { 2.0 } else { second },
                "number {k}, bad group at {bad}"
            );
        }
    }
}

#[test]
fn unfit_run_is_left_alone(rt: HostRuntime) {
    for (orbitals, from, count) in [
        (0, 2, 7),
        (17, 2, 7),
        (3, 257, 7),
        (3, 250, 7),
        (3, 2, 6),
        (3, 2, 8),
    ] {
        let mut out = [0.5; 126];
        assert!(rt;
            !by_column(256, orbitals, from, count, &mut out),
            "{orbitals} {from} {count}"
        );
        assert!(rt; out.iter().all(|x| *x == 0.5), "{orbitals} {from} {count}");
    }
}
