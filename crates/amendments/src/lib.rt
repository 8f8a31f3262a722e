// What the requests of document 02 keep of document 01: theorems about the definitions of the crates below, in specs/.
#![tactic(auto)]
