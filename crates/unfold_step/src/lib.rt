// The step of an unfolding: the piece of the highest stage is cut or left over; and the placement of the item that it places.
#![tactic(auto)]

pub mod placements;
pub mod state;
