// The theory of records that share a stamp: their orders, what one order gives, and why a chip's control decides. It has no code and knows no chip.
#![tactic(auto)]
