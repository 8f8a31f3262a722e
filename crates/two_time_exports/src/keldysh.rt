// The calls on all four components. A report's seven residuals are written to a slice of seven, and read from one.
ghost use Rattle.std.specs.Prelude.{◌≡◌};
ghost use Rattle.report.specs.Calls.{consistency_report};
ghost use Rattle.langreth.specs.Calls.{components_of, langreth_product};
ghost use Rattle.answers.specs.Answer.{after, answers, after_with, answers_numbers, answers_decision};
ghost use Rattle.two_time_exports.specs.Numbers.{report_numbers, decision_over};

use answers::decision::write_decision;
use answers::numbers::{Numbers, write_numbers};
use answers::write_answer;
use refusal::Refusal;
use report::ConsistencyReport;

// A report's seven residuals.
fn numbers_of(reported: Result<ConsistencyReport, Refusal>) -> Numbers
    ensures { result ≡ report_numbers reported }
{
    let values = match reported {
        Ok(report) => report.residuals(),
        Err(_) => [0.0; 7],
    };
    Numbers {
        verdict: reported.and(Ok(())),
        count: 7,
        values,
    }
}

// The seven residuals.
#[unsafe(no_mangle)]
pub extern "C" fn leechgrommet_consistency_report(
    retarded: &[f64],
    advanced: &[f64],
    lesser: &[f64],
    greater: &[f64],
    points: usize,
    orbitals: usize,
    residuals: &mut [f64],
    places: &mut [usize],
    part: &mut [f64],
) -> u8
    ensures { let reported = consistency_report points orbitals retarded.now advanced.now lesser.now greater.now in
        after_with result residuals places part ≡ answers_numbers (report_numbers reported) residuals places part }
{
    let reported = report::consistency_report(
        retarded, advanced, lesser, greater, points, orbitals,
    );
    write_numbers(numbers_of(reported), residuals, places, part)
}

// The decision over seven residuals in the report's order; 3 for a slice of another length.
#[tactic(auto, unfolding(crate::specs::Numbers::decision_over, crate::specs::Numbers::decided_past, refusal::specs::Checks::fitting, refusal::specs::Verdict::ask))]
fn decision_over(residuals: &[f64], tolerance: f64) -> Result<bool, Refusal>
    ensures { result ≡ decision_over residuals.now tolerance }
{
    let &[
        retarded_causality,
        advanced_causality,
        advanced_adjoint,
        lesser_antihermiticity,
        greater_antihermiticity,
        spectral_identity,
        equal_time,
    ] = residuals
    else {
        return Err(Refusal::by(3));
    };
    let report = ConsistencyReport {
        retarded_causality,
        advanced_causality,
        advanced_adjoint,
        lesser_antihermiticity,
        greater_antihermiticity,
        spectral_identity,
        equal_time,
    };
    report.is_consistent(tolerance)
}

// Whether the seven residuals are at most the tolerance.
#[unsafe(no_mangle)]
pub extern "C" fn leechgrommet_is_consistent(
    residuals: &[f64],
    tolerance: f64,
    decided: &mut [u8],
    places: &mut [usize],
    part: &mut [f64],
) -> u8
    ensures { after_with result decided places part ≡ answers_decision (decision_over residuals.now tolerance) decided places part }
{
    let decision = decision_over(residuals, tolerance);
    write_decision(decision, decided, places, part)
}

// The four components of a product, into the four outputs.
#[unsafe(no_mangle)]
pub extern "C" fn leechgrommet_langreth_product(
    times: &[f64],
    left_retarded: &[f64],
    left_advanced: &[f64],
    left_lesser: &[f64],
    left_greater: &[f64],
    right_retarded: &[f64],
    right_advanced: &[f64],
    right_lesser: &[f64],
    right_greater: &[f64],
    points: usize,
    orbitals: usize,
    retarded: &mut [f64],
    advanced: &mut [f64],
    lesser: &mut [f64],
    greater: &mut [f64],
    places: &mut [usize],
    part: &mut [f64],
) -> u8
    ensures { let product = langreth_product points orbitals times.now
        (components_of left_retarded.now left_advanced.now left_lesser.now left_greater.now)
        (components_of right_retarded.now right_advanced.now right_lesser.now right_greater.now)
        (components_of retarded.old advanced.old lesser.old greater.old) in
        (after result places part ≡ answers product.answer places part)
        × (retarded.new ≡ product.out.retarded)
        × (advanced.new ≡ product.out.advanced)
        × (lesser.new ≡ product.out.lesser)
        × (greater.new ≡ product.out.greater) }
{
    let verdict = langreth::langreth_product(
        times,
        left_retarded,
        left_advanced,
        left_lesser,
        left_greater,
        right_retarded,
        right_advanced,
        right_lesser,
        right_greater,
        points,
        orbitals,
        retarded,
        advanced,
        lesser,
        greater,
    );
    write_answer(verdict, places, part)
}
