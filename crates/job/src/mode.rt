// The stage mode of a job.
ghost use Rattle.std.specs.Prelude.{◌≡◌};
ghost use Rattle.job.specs.Mode.{mode_of, three, exact};

// Two or three stages, exact or non-exact: 0 is 2E, 1 is 2N, 2 is 3E, 3 is 3N.
#[derive(Clone, Copy, Debug, PartialEq, Eq)]
pub struct Mode(pub u8);

#[tactic(auto, unfolding(crate::specs::Mode::three, crate::specs::Mode::exact, crate::specs::Mode::mode_of))]
impl Mode {
    pub const TWO_EXACT: Mode = Mode(0);

    pub const TWO_NON_EXACT: Mode = Mode(1);

    pub const THREE_EXACT: Mode = Mode(2);

    pub const THREE_NON_EXACT: Mode = Mode(3);

    // The mode of the two numbers of a job's first line: stages, 2 or 3, and exact, 1 or 0.
    pub fn from_line(stages: u16, exact: u16) -> Mode
        ensures { result ≡ mode_of stages exact }
    {
        match (stages, exact) {
            (3, 1) => Mode::THREE_EXACT,
            (3, _) => Mode::THREE_NON_EXACT,
            (_, 1) => Mode::TWO_EXACT,
            _ => Mode::TWO_NON_EXACT,
        }
    }

    // Whether the mode has three stages, or else two.
    pub fn three(self) -> bool
        ensures { result ≡ three self }
    {
        2 <= self.0
    }

    // Whether the mode is exact, or else non-exact.
    pub fn exact(self) -> bool
        ensures { result ≡ exact self }
    {
        self == Mode::TWO_EXACT || self == Mode::THREE_EXACT
    }
}
