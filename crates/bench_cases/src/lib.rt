// Document 01's bench cases P1 to P12: the theorem is in specs/.
#![tactic(auto)]
