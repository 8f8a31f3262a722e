// Demand 3: no later data reaches an earlier row. The theorem is about the definitions of the crates below, in specs/.
#![tactic(auto)]
