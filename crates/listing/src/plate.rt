// A plate, what may be cut from it, and what the cut leaves.
ghost use Rattle.std.specs.Prelude.{◌≡◌, ◌-◌, ◌≤◌};
ghost use Rattle.listing.specs.Plate.{exact_fit, may_cut, leaves, same};

use job::item::Position;
use job::mode::Mode;

// A plate type: its sides in millimetres, and its stage, 1 to 3.
#[derive(Clone, Copy, Debug, PartialEq, Eq)]
pub struct Plate {
    pub width: u16,
    pub height: u16,
    pub stage: u16,
}

// What a cut leaves: above the item, and beside it.
#[derive(Clone, Copy, Debug, PartialEq, Eq)]
pub struct Residuals {
    pub top: Plate,
    pub right: Plate,
}

// What the exact modes ask besides: 3E of the width at stage 3, 2E of the height at stage 2.
#[tactic(auto, unfolding(crate::specs::Plate::exact_fit, job::specs::Mode::three, job::specs::Mode::exact))]
fn exact_fit(mode: Mode, item: Position, p: Plate) -> bool
    ensures { result ≡ exact_fit mode item p }
{
    match (mode.exact(), mode.three()) {
        (false, _) => true,
        (true, false) => p.stage != 2 || item.height == p.height,
        (true, true) => p.stage != 3 || item.width == p.width,
    }
}

// Whether an item may be cut from a plate in a position, which must be permitted.
#[tactic(auto, unfolding(crate::specs::Plate::may_cut))]
pub fn may_cut(mode: Mode, item: Position, p: Plate) -> bool
    ensures { result ≡ may_cut mode item p }
{
    item.allowed && item.width <= p.width && item.height <= p.height && exact_fit(mode, item, p)
}

// The side of a residual: what remains minus the blade's width, and 0 where that width or less remains.
fn past_blade(remains: u16, blade: u16) -> u16
    ensures { result ≡ remains - blade }
{
    remains.saturating_sub(blade)
}

// The top and the right residual of a cut, by the plate's stage and the mode. The blade is taken off the side that it divides, not off the other.
#[tactic(auto, unfolding(crate::specs::Plate::leaves, job::specs::Mode::three))]
pub fn cut_leaves(mode: Mode, blade: u16, item: Position, p: Plate) -> Residuals
    requires { (item.width ≤ p.width) × (item.height ≤ p.height) }
    ensures { result ≡ leaves mode blade item p }
{
    let waste = Plate {
        width: 0,
        height: 0,
        stage: 0,
    };
    let across = past_blade(p.width - item.width, blade);
    let up = past_blade(p.height - item.height, blade);
    let above = Plate {
        width: item.width,
        height: up,
        stage: 3,
    };
    let beside = Plate {
        width: across,
        height: item.height,
        stage: 2,
    };
    match (p.stage, mode.0) {
        (1, _) => Residuals {
            top: Plate {
                width: p.width,
                height: up,
                stage: 1,
            },
            right: beside,
        },
        (2, 0..=1) => Residuals {
            top: waste,
            right: beside,
        },
        (2, 2..=255) => Residuals {
            top: above,
            right: Plate {
                width: across,
                height: p.height,
                stage: 2,
            },
        },
        _ => Residuals {
            top: above,
            right: waste,
        },
    }
}

// Whether two plates are of one type.
#[tactic(auto, unfolding(crate::specs::Plate::same))]
pub fn same(p: Plate, q: Plate) -> bool
    ensures { result ≡ same p q }
{
    p == q
}
