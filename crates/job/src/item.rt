// An item type: its sides in millimetres, how often it is demanded, and its leave, 1 if it may be turned and 0 if not.
#[derive(Clone, Copy, Debug, PartialEq, Eq)]
pub struct Item {
    pub width: u16,
    pub height: u16,
    pub demand: u16,
    pub leave: u16,
}

// An item type in a position: its sides as it lies there, and whether the position is permitted.
#[derive(Clone, Copy, Debug, PartialEq, Eq)]
pub struct Position {
    pub width: u16,
    pub height: u16,
    pub allowed: bool,
}
