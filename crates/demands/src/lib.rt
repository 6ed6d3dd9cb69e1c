// The theorems over what the exported call promises: what document 01 demands of a replay, and what it shuts out. It has no code.
#![tactic(auto)]
