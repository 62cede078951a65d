// Sequences of numbers, counted, linked and walked: laws in specs/. There is no code here.
#![tactic(auto)]
