// Demand 3, in specs/ alone: what a sheet is at a concrete R, and that the paper's definitions are the ordinary ones there.
#![tactic(auto)]
