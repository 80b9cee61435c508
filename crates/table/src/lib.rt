// A spec's flat table in bytes (document 01, 'Spec bytes'), read where it stands: its rows, its four sections, and the row rules on all of it.
#![tactic(auto)]

pub mod preorder;
pub mod row;
pub mod sections;
