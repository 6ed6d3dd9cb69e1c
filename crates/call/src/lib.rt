// What the call on lent buffers answers and leaves: the promise of the exported function, and what playing records as they are written leaves. It has no code.
#![tactic(auto)]
