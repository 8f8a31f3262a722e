// The functions of the list, by the module that calls them, and the number of each in CALLS.md.

// Functions that leave functions, and the runs and appends of `transient_run`.
#[derive(Clone, Copy)]
pub(crate) enum Solve {
    TimeConvolution,
    CausalConvolution,
    DysonWithTolerance,
    Dyson,
    LangrethProduct,
    Run(Run),
}

#[derive(Clone, Copy)]
pub(crate) enum Run {
    TransientRun,
    AppendPoint,
    OccupiedRun,
    OccupiedAppend,
}

// Questions to functions, and to a report's residuals.
#[derive(Clone, Copy)]
pub(crate) enum Observe {
    RetardedSupport,
    DensityMatrix,
    ParticleNumber,
    Expectation,
    BondFlow,
    Report,
    Decision,
}

// The operations on blocks, and two compositions of them.
#[derive(Clone, Copy)]
pub(crate) enum Blocks {
    FromNumbers,
    Identity,
    Adjoint,
    Scale,
    Multiply,
    Add,
    Subtract,
    Trace,
    Get,
    MaxDifference,
    IsHermitian,
    IdentityTimes,
    AdjointPlusIsHermitian,
    FromScalar,
    Zero,
}

// Weights and checks of a grid.
#[derive(Clone, Copy)]
pub(crate) enum Weights {
    Full,
    CheckedInterval,
    CheckTimes,
    CheckGrid,
    HalfStep,
    FullAt,
    Interval,
}

#[derive(Clone, Copy)]
pub(crate) enum Function {
    Solve(Solve),
    Observe(Observe),
    Norm,
    Blocks(Blocks),
    Weights(Weights),
    BondFlows,
}

// A number that no function has.
#[derive(Clone, Copy)]
pub(crate) struct Unknown;

impl TryFrom<u64> for Function {
    type Error = Unknown;

    fn try_from(number: u64) -> Result<Function, Unknown> {
        Ok(match number {
            0 => Function::Solve(Solve::TimeConvolution),
            1 => Function::Solve(Solve::CausalConvolution),
            2 => Function::Observe(Observe::RetardedSupport),
            3 => Function::Solve(Solve::DysonWithTolerance),
            4 => Function::Solve(Solve::Dyson),
            5 | 36 | 42 => Function::Solve(Solve::Run(Run::TransientRun)),
            6 | 38 => Function::Observe(Observe::DensityMatrix),
            7 | 39 => Function::Observe(Observe::ParticleNumber),
            8 | 40 => Function::Observe(Observe::Expectation),
            9 | 41 => Function::Observe(Observe::BondFlow),
            10 => Function::Observe(Observe::Report),
            11 => Function::Observe(Observe::Decision),
            12 => Function::Solve(Solve::LangrethProduct),
            13 => Function::Norm,
            14 => Function::Blocks(Blocks::FromNumbers),
            15 => Function::Blocks(Blocks::Identity),
            16 => Function::Blocks(Blocks::Adjoint),
            17 => Function::Blocks(Blocks::Scale),
            18 => Function::Blocks(Blocks::Multiply),
            19 => Function::Blocks(Blocks::Add),
            20 => Function::Blocks(Blocks::Subtract),
            21 => Function::Blocks(Blocks::Trace),
            22 => Function::Blocks(Blocks::Get),
            23 => Function::Blocks(Blocks::MaxDifference),
            24 => Function::Blocks(Blocks::IsHermitian),
            25 => Function::Weights(Weights::Full),
            26 => Function::Weights(Weights::CheckedInterval),
            27 => Function::Blocks(Blocks::IdentityTimes),
            28 => Function::Blocks(Blocks::AdjointPlusIsHermitian),
            29 => Function::Blocks(Blocks::FromScalar),
            30 => Function::Blocks(Blocks::Zero),
            31 => Function::Weights(Weights::CheckTimes),
            32 => Function::Weights(Weights::CheckGrid),
            33 => Function::Weights(Weights::HalfStep),
            34 => Function::Weights(Weights::FullAt),
            35 => Function::Weights(Weights::Interval),
            37 | 43 => Function::Solve(Solve::Run(Run::AppendPoint)),
            44 => Function::Solve(Solve::Run(Run::OccupiedRun)),
            45 => Function::Solve(Solve::Run(Run::OccupiedAppend)),
            46 => Function::BondFlows,
            _ => return Err(Unknown),
        })
    }
}
