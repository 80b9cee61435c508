// Document 01's refusals, with their details as data: the Rust's TileError and TileSpecError, and document 01's own.
// specs/Refusals.antt gives each its number and its two detail numbers.
#[derive(Clone, Copy, PartialEq, Eq)]
pub enum Refusal {
    BadTable,
    ArenaFull,
    TooWide,
    NotSound,
    BadInput,
    InvalidTileId,
    InvalidPaneId,
    InvalidTarget,
    InvalidOperation,
    DuplicatePane(u64),
    RevisionExhausted,
    EmptyTabs,
    TooFewSplitChildren { children: usize },
    ShareCountMismatch { children: usize, shares: usize },
    InvalidShare { index: usize },
    TooManySplitConstraints { children: usize, constraints: usize },
    InvalidSplitConstraint { index: usize },
    InvalidActiveTab { active: usize, panes: usize },
}

// What a call answers beside the values that it hands back.
pub type Answer = Result<(), Refusal>;
