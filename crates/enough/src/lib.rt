// Why the controls decide for the machine: what the orders of one stamp's records give on the controls alone, they give on controls, images, times and replies. It has no code.
#![tactic(auto)]
