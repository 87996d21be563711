// The model of a saw text's job, once its lines are complete.
ghost use Rattle.std.specs.Prelude.{◌≡◌, List, ℕ, ◌≤◌, length};
ghost use Rattle.job.specs.Sizes.{job_size};
ghost use Rattle.listing.specs.Holds.{Holds};
ghost use Rattle.saw_text_body.specs.ModelRead.{ModelKept};

use job::counters::{BoardSizes, CutNumber, ItemType, PlateTypes};
use job::sizes::{HEAD_WORDS, ITEM_WORDS, SIZE_WORDS};
use listing_call::call::list;

// The model of a job: the plate types and the cuts that are listed, or the number of its refusal and the place.
// No `Result` of a refusal: it is a part of the state that a host hands back, with any number (`saw::feed`, clause state-same).
#[derive(Clone, Copy, Debug, PartialEq, Eq)]
pub enum Model {
    Listed(PlateTypes, CutNumber),
    Refused(u16, usize),
}

// What the listing call says of the words of a job of t sizes and n types, and the plates and cuts that it leaves.
pub fn list_job(
    job: &[u16],
    t: BoardSizes,
    n: ItemType,
    plates: &mut [u16],
    cuts: &mut [u16],
) -> Model
    requires { job_size t.0 n.0 ≤ length job.now }
    ensures { (ws : List ℕ) → length ws ≡ job_size t.0 n.0 → Holds job.now ws → ModelKept ws result plates.new cuts.new }
{
    let words = HEAD_WORDS + SIZE_WORDS * (t.0 as usize) + ITEM_WORDS * (n.0 as usize);
    match list(&job[..words], plates, cuts) {
        Ok(listed) => Model::Listed(listed.plates, listed.cuts),
        Err(refused) => Model::Refused(refused.refusal.number(), refused.place),
    }
}
