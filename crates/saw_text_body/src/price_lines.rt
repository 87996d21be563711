// Lines 4, 5 and 6: the n and the m of line 4, and the price words in a lent buffer.
ghost use Rattle.std.specs.Prelude.{◌≡◌, false, ◌+◌, ◌≤◌, ◌<◌};
ghost use Rattle.job.specs.Sizes.{max_sizes, max_types, max_residuals};
ghost use Rattle.texts.specs.SawText.{after_item_price, after_plate_price};
ghost use Rattle.texts_reading.specs.Standing.{place_of};

use job::counters::{BoardSizes, ItemType, PlateType};
use texts_reading::text::Place;

// Whether there is a line 4, and its n and its m, 0 where there is none. No option: they are a part of the state that a host hands back, with any
// numbers beside the flag (`saw::feed`, clause state-same).
#[derive(Clone, Copy, Debug, PartialEq, Eq)]
pub struct PriceLines {
    pub given: bool,
    pub types: ItemType,
    pub residuals: u16,
}

// No line 4 yet.
pub fn no_prices() -> PriceLines
    ensures { (result.given ≡ false) × ((result.types.0 ≡ 0) × (result.residuals ≡ 0)) }
{
    PriceLines {
        given: false,
        types: ItemType(0),
        residuals: 0,
    }
}

// What comes after line 5 of type i, of t sizes, n types and m residual types.
#[tactic(auto, unfolding(texts::specs::SawText::after_item_price))]
pub fn after_item_price(t: BoardSizes, n: ItemType, m: u16, i: ItemType) -> Place
    requires { i.0 ≤ max_types }
    ensures { place_of result ≡ after_item_price t.0 n.0 m i.0 }
{
    if i != n {
        return Place::ItemPrices(ItemType(i.0 + 1));
    }
    if m == 0 {
        return Place::Done;
    }
    Place::PlatePrices(PlateType(t.0))
}

// What comes after line 6 of plate type j, of t sizes and m residual types, whose plate numbers follow those of the sizes.
#[tactic(auto, unfolding(texts::specs::SawText::after_plate_price))]
pub fn after_plate_price(t: BoardSizes, m: u16, j: PlateType) -> Place
    requires { j.0 < max_sizes + max_residuals }
    ensures { place_of result ≡ after_plate_price t.0 m j.0 }
{
    if j.0 as u32 + 1 != t.0 as u32 + m as u32 {
        return Place::PlatePrices(PlateType(j.0 + 1));
    }
    Place::Done
}
