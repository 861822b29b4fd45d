// The public calls.
#![tactic(auto)]

mod answer;
pub mod calls;
mod part;
pub mod row;
