// What stands in a place of a list that is not in use.
ghost use Rattle.std.specs.Prelude.{◌≡◌};
ghost use Rattle.rules.specs.Numbers.{zero-f};
ghost use Rattle.rules.specs.Tree.{tile};

use rules::model::TileId;

pub trait Blank: Copy {
    ghost blank: { Self };

    fn blank() -> Self
        ensures { result ≡ blank };
}

impl Blank for u64 {
    ghost blank = { 0 };

    fn blank() -> u64 {
        0u64
    }
}

impl Blank for f64 {
    ghost blank = { zero-f };

    fn blank() -> f64 {
        0.0
    }
}

impl Blank for TileId {
    ghost blank = { tile 0 };

    fn blank() -> TileId {
        TileId { slot: 0 }
    }
}
