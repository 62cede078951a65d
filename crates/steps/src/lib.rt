// The give-back, with what becomes of an arena, and resize, which is made of an ask, a copy and a give-back.
#![tactic(auto)]

mod arena;
pub mod give_back;
pub mod resize;
