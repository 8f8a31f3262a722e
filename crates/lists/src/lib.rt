// Lists and values that are built by an index: the meaning is in specs/.
#![tactic(auto)]
