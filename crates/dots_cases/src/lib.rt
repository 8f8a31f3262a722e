// Closed cases of two dots that take seconds to compute, so that no edit of `two_dots` proves them again; they are in specs/.
#![tactic(auto)]
