// The laws of the small-block heap: theorems over the definitions of crate rules, in specs/. There is no code here.
#![tactic(auto)]
