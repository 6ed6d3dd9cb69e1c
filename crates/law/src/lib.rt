// What every floor cites: laws about choices, yes-or-no answers, lists and places. It has no code, and knows nothing of chips or traces.
#![tactic(auto)]
