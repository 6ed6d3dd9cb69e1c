// What demand 3 says of a replay, over any machine that plays records: allowed orders, the earliest stop, what is shown. It has no code.
#![tactic(auto)]
