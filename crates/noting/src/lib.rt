// The list of a repair's actions: an action noted, the sweep that notes what it empties, and the report.
#![tactic(auto)]

pub mod actions;
pub mod listing;
pub mod sweep;
