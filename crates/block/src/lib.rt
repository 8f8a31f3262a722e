// Blocks of complex numbers: their entries and the operations on them. The meaning is in specs/; the crate `matrix` has the calls.
#![tactic(auto)]
