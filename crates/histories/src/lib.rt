// What a doubtful bit means: it is marked exactly where two histories of the chips that fit the trace leave it different. It has no code.
#![tactic(auto)]
