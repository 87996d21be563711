// The listing call.
ghost use Rattle.std.specs.Prelude.{◌≡◌, [], ◌∷◌, ◌≤◌, length};
ghost use Rattle.job.specs.Sizes.{plates_size, cuts_size};
ghost use Rattle.job.specs.Verdict.{pass, ◌then◌};
ghost use Rattle.job.specs.Buffers.{answer, sized};
ghost use Rattle.job.specs.Job.{job_of, job_words, admission};
ghost use Rattle.job.specs.Refused.{row_verdict};
ghost use Rattle.listing.specs.Listing.{listing_of, model_row, residual_types};
ghost use Rattle.listing.specs.Numbering.{IsListing};
ghost use Rattle.listing.specs.ListCall.{list_verdict, list_answer, plates_end, cuts_end};
ghost use Rattle.listing_call.specs.ListSays.{says_of, SizesListed, OnListed};

use crate::sizes::put_sizes;
use crate::walk::{Listed, walk};
use job::admit::check_job;
use job::job_read::JobRead;
use job::lent::model_sized;
use job::refused::Refused;
use job::words::clear;

// Lists a job whose words have passed into buffers of full size: plate types and cuts, and zeros past them. Refused are 6 and 7, naming 0; every word of
// both buffers is then 0.
pub fn list_into(job: &[u16], plates: &mut [u16], cuts: &mut [u16]) -> Result<Listed, Refused>
    requires job_value { job_words job.now ≡ pass }
    requires plates_size_in_bounds { (plates_size ≤ length plates.old) × (cuts_size ≤ length cuts.old) }
    ensures sizes_listed { SizesListed (job_of job.now) result }
    ensures result_value { says_of (job_of job.now) result ≡ answer (model_row (job_of job.now)) (residual_types (listing_of (job_of job.now)) ∷ length (listing_of (job_of job.now)).cuts ∷ []) }
    ensures plates_after { plates.new ≡ plates_end (model_row (job_of job.now)) job.now plates.old }
    ensures cuts_after { cuts.new ≡ cuts_end (model_row (job_of job.now)) job.now cuts.old }
{
    clear(plates);
    clear(cuts);
    let read = JobRead::new(job);
    put_sizes(job, read.head.sizes, plates);
    match walk(&read, plates, cuts) {
        Ok(listed) => Ok(listed),
        Err(refusal) => {
            clear(plates);
            clear(cuts);
            Err(refusal.at(0))
        }
    }
}

// The rows before the model: the job, and then the lent buffers.
fn list_checks(job: &[u16], plates: &[u16], cuts: &[u16]) -> Result<(), Refused>
    ensures { row_verdict result ≡ ((job_words job.now then admission (job_of job.now)) then sized 1 plates_size plates.now then sized 2 cuts_size cuts.now) }
{
    check_job(job)?;
    model_sized(plates, cuts)
}

// The listing call: the plate types and cuts of a job into lent buffers, and the numbers of plate types and cuts.
// Refused are 1 to 4 of the job; 5 a buffer shorter than its full size, plates 1, cuts 2; 6 and 7 of the model, naming 0. After 5 both buffers are
// unchanged, after another refusal every word of them is 0, after success the unused words are 0. On success what they hold is the listing of the job, of which
// there is exactly one.
pub fn list(job: &[u16], plates: &mut [u16], cuts: &mut [u16]) -> Result<Listed, Refused>
    ensures sizes_listed { SizesListed (job_of job.now) result }
    ensures on_listed { OnListed result (IsListing (job_of job.now) (listing_of (job_of job.now))) }
    ensures result_value { says_of (job_of job.now) result ≡ list_answer job.now plates.old cuts.old }
    ensures plates_after { plates.new ≡ plates_end (list_verdict job.now plates.old cuts.old) job.now plates.old }
    ensures cuts_after { cuts.new ≡ cuts_end (list_verdict job.now plates.old cuts.old) job.now cuts.old }
{
    match list_checks(job, plates, cuts) {
        Err(refused) => {
            refused.end(plates);
            refused.end(cuts);
            Err(refused)
        }
        Ok(()) => list_into(job, plates, cuts),
    }
}
