// Rectangles, tab bars and tabs (the Rust's util.rs).
#![tactic(auto)]

pub mod rects;
pub mod tabs;
