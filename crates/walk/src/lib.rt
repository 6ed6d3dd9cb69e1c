// The loop over the stamps, as a law: what holds when it comes to a stamp, what each verdict leaves, and how it ends. It has no code.
#![tactic(auto)]
