// Where a saw text may end.
ghost use Rattle.std.specs.Prelude.{◌≡◌};
ghost use Rattle.texts.specs.SawText.{Saw, saw_complete};
ghost use Rattle.texts_reading.specs.Standing.{place_of};

use texts_reading::text::Place;

// Whether a saw text may end where it stands: in its body, or after all of its prices.
#[tactic(auto, unfolding(texts::specs::SawText::saw_complete))]
pub fn may_end(place: Place) -> bool
    ensures { (s : Saw) → place_of place ≡ s.place → saw_complete s ≡ result }
{
    matches!(place, Place::Body | Place::Done)
}
