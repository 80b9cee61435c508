// One item of a layout's stream, read as an entry of a frame's lists (the Rust's frame.rs).
#![tactic(auto)]

use rules::frame::FrameItemId;

pub mod decode;

// One item of the paint order.
#[derive(Clone, Copy)]
pub struct Painted {
    pub item: FrameItemId,
}
