// That a heap holds a plain heap of sequences soundly, and that each path keeps it so: laws in specs/. There is no code
// here.
#![tactic(auto)]
