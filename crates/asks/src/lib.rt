// The ask: from its class list, or from a new pool; and its answer.
#![tactic(auto)]

pub mod ask;
mod ask_listed;
