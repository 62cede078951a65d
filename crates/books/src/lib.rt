// The books: where their words stand, pool records, lists, links in memory, classes and blocks, and the tests that
// every call begins with.
#![tactic(auto)]

pub mod blocks;
pub mod links;
pub mod lists;
pub mod numbers;
pub mod pool;
pub mod reader;
pub mod refusal;
pub mod words;
