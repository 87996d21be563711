// A board size: its sides in millimetres, and what a board of it costs.
#[derive(Clone, Copy, Debug, PartialEq, Eq)]
pub struct Size {
    pub width: u16,
    pub height: u16,
    pub cost: u16,
}
