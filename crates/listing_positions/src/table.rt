// The positions of a job in words, for the walk: of each that is permitted its sides, the least sides from which what its cut leaves is kept, and the
// position that comes next.
ghost use Rattle.std.specs.Prelude.{◌≡◌, true, ◌+◌, ◌*◌, ◌≤◌, length};
ghost use Rattle.job.specs.Job.{job_of, position};
ghost use Rattle.listing_positions.specs.Table.{words_of_position, table_size, word_at, Next, TableTo, Table};

use crate::least::least_side;
use job::counters::ItemPosition;
use job::item::Position;
use job::job_read::JobRead;
use job::sizes::MAX_TYPES;
use listing::plate::Plate;

// The words of a position, of which five are used: so its place is found by a shift.
pub const POSITION_WORDS: usize = 8;

// The words of the table: positions are numbered from 2 to twice the item types plus 1.
pub const TABLE_SIZE: usize = POSITION_WORDS * (2 * (MAX_TYPES as usize) + 2);

// The least width of a right, and the least height of a top of stage 3, from which it is kept.
#[derive(Clone, Copy, Debug, PartialEq, Eq)]
pub struct Leasts {
    pub right: u16,
    pub top: u16,
}

// A permitted position, by its sides in the table.
pub fn lying_at(table: &[u16], q: ItemPosition) -> Position
    requires { words_of_position * q.0 + words_of_position ≤ length table.now }
    ensures { result ≡ position (word_at table.now q.0 0) (word_at table.now q.0 1) true }
{
    let at = POSITION_WORDS * (q.0 as usize);
    Position {
        width: table[at],
        height: table[at + 1],
        allowed: true,
    }
}

// The least sides of a position.
pub fn leasts_at(table: &[u16], q: ItemPosition) -> Leasts
    requires { words_of_position * q.0 + words_of_position ≤ length table.now }
    ensures { (result.right ≡ word_at table.now q.0 2) × (result.top ≡ word_at table.now q.0 3) }
{
    let at = POSITION_WORDS * (q.0 as usize);
    Leasts {
        right: table[at + 2],
        top: table[at + 3],
    }
}

// The position that comes next.
pub fn next_at(table: &[u16], q: ItemPosition) -> u16
    requires { words_of_position * q.0 + words_of_position ≤ length table.now }
    ensures { result ≡ word_at table.now q.0 4 }
{
    let at = POSITION_WORDS * (q.0 as usize);
    table[at + 4]
}

// The permitted position that follows position q.
#[tactic(auto, unfolding(job::specs::Job::type_of))]
fn next_of(job: &JobRead, q: ItemPosition) -> u16
    requires le_q { (2 ≤ q.0) × (q.0 ≤ 2 * job.now.head.types.0 + 1) }
    ensures { Next (job_of job.now.words.now) q.0 result }
{
    let last = 2 * job.head.types.0 + 1;
    let next = q.0 + 1;
    if last < next {
        return next;
    }
    let item = job.position(ItemPosition(next));
    if item.allowed {
        return next;
    }
    next + 1
}

// Writes the words of position q, if it is permitted.
#[tactic(auto, unfolding(job::specs::Job::type_of))]
fn put_position(job: &JobRead, q: ItemPosition, table: &mut [u16])
    requires le_q { (2 ≤ q.0) × ((q.0 ≤ 2 * job.now.head.types.0 + 1) × (table_size ≤ length table.old)) }
    ensures { TableTo (job_of job.now.words.now) q.0 table.old → TableTo (job_of job.now.words.now) (q.0 + 1) table.new }
{
    let item = job.position(q);
    if !item.allowed {
        return;
    }
    let at = POSITION_WORDS * (q.0 as usize);
    let right = least_side(
        job,
        Plate {
            width: 0,
            height: item.height,
            stage: 2,
        },
    );
    let top = least_side(
        job,
        Plate {
            width: item.width,
            height: 0,
            stage: 3,
        },
    );
    let next = next_of(job, q);
    table[at] = item.width;
    table[at + 1] = item.height;
    table[at + 2] = right;
    table[at + 3] = top;
    table[at + 4] = next;
}

// The table of a job.
pub fn learn(job: &JobRead, table: &mut [u16])
    requires table_size_in_bounds { table_size ≤ length table.old }
    ensures { Table (job_of job.now.words.now) table.new }
{
    for q in 2..2 * job.head.types.0 + 2 {
        put_position(job, ItemPosition(q), table);
    }
}
