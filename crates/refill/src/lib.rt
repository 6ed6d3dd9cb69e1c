// That a plan is what the replay plays: the records of an entry, on the flash's control and any watched sector's image. It has no code.
#![tactic(auto)]
