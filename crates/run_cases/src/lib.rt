// Closed cases of runs and appends that take seconds to compute, so that no edit of the run proves them again; they are in specs/.
#![tactic(auto)]
