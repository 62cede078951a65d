// The path of an ask that takes a new pool, decided from the heap before it. Nothing is written here.
#![tactic(auto)]

pub mod ask;
pub mod class;
pub mod path;
