//! Room for the numbers of a line's lists.
use arrayvec::ArrayVec;
use grammar::line::MOST_NUMBERS;

/// Room for the numbers of one list, which whoever reads a line lends, so that no memory is asked for: what is read
/// borrows them from here. Nothing is laid out before there is a list.
#[derive(Drop)]
pub struct Room {
    pub(crate) numbers: Option<ArrayVec<u64, MOST_NUMBERS>>,
}

impl Room {
    ghost use Rattle.lines.specs.Lists.{IsEmpty};

    /// No numbers yet.
    pub fn new() -> Room
        ensures { IsEmpty result }
    {
        Room { numbers: None }
    }
}

/// Room for the three lists of an opening.
#[derive(Drop)]
pub struct Lists {
    pub(crate) kinds: Room,
    pub(crate) counts: Room,
    pub(crate) installed: Room,
}

impl Lists {
    ghost use Rattle.lines.specs.Lists.{AreEmpty};

    /// No lists yet.
    pub fn new() -> Lists
        ensures { AreEmpty result }
    {
        Lists {
            kinds: Room::new(),
            counts: Room::new(),
            installed: Room::new(),
        }
    }
}
