// What joining two groups does to an account table, wherever it stands in some bytes: stated in specs/, proved in
// proofs/. Both logs have such a table.
#![tactic(auto)]
