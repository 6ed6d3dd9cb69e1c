// What the callers of the merge and of the second engine get: the claims of request 4/12, without code.
#![tactic(auto)]
