// Which numbers the public calls refuse by, shown of their contracts. Specs only.
#![tactic(auto)]
