// Document 01's number and two details of every answer.
#![tactic(auto)]

ghost use Rattle.std.specs.Prelude.{◌≡◌};
ghost use Rattle.rules.specs.Refusals.{answer_of, refusal_of, told};
ghost use Rattle.answers.specs.Numbers.{told_of};

use rules::refusal::{Answer, Refusal};

// A number, 0 where it is accepted, and its two details, 0 unless document 01 names them.
#[derive(Clone, Copy, PartialEq, Eq, Debug)]
pub struct Told {
    pub number: u64,
    pub first: u64,
    pub second: u64,
}

impl Told {
    fn new(number: u64, first: u64, second: u64) -> Told
        ensures { told_of result ≡ told number first second }
    {
        Told {
            number,
            first,
            second,
        }
    }

    // A number with no details.
    fn plain(number: u64) -> Told
        ensures { told_of result ≡ told number 0 0 }
    {
        Told::new(number, 0, 0)
    }
}

// What a refusal is called in document 01's table.
impl From<Refusal> for Told {
    ghost from_gives = { λ e t. told_of t ≡ refusal_of e };

    fn from(e: Refusal) -> Told {
        match e {
            Refusal::BadTable => Told::plain(1),
            Refusal::ArenaFull => Told::plain(2),
            Refusal::TooWide => Told::plain(3),
            Refusal::NotSound => Told::plain(4),
            Refusal::BadInput => Told::plain(5),
            Refusal::InvalidTileId => Told::plain(6),
            Refusal::InvalidPaneId => Told::plain(7),
            Refusal::InvalidTarget => Told::plain(8),
            Refusal::InvalidOperation => Told::plain(9),
            Refusal::DuplicatePane(pane) => Told::new(10, pane, 0),
            Refusal::RevisionExhausted => Told::plain(11),
            Refusal::EmptyTabs => Told::plain(12),
            Refusal::TooFewSplitChildren { children } => Told::new(13, children as u64, 0),
            Refusal::ShareCountMismatch { children, shares } => {
                Told::new(14, children as u64, shares as u64)
            }
            Refusal::InvalidShare { index } => Told::new(15, index as u64, 0),
            Refusal::TooManySplitConstraints {
                children,
                constraints,
            } => Told::new(16, children as u64, constraints as u64),
            Refusal::InvalidSplitConstraint { index } => Told::new(17, index as u64, 0),
            Refusal::InvalidActiveTab { active, panes } => {
                Told::new(18, active as u64, panes as u64)
            }
        }
    }
}

// What an answer is called there.
impl From<Answer> for Told {
    ghost from_gives = { λ a t. told_of t ≡ answer_of a };

    fn from(a: Answer) -> Told {
        match a {
            Ok(()) => Told::plain(0),
            Err(e) => Told::from(e),
        }
    }
}
