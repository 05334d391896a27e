// Demand 3 of the code: for every input, what the kernel answers is what the cut pieces say. Specs only.
#![tactic(auto)]
