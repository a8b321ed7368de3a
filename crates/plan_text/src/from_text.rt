// From a job's text to its plan's text: the reader, the planner and the writer in a row, and the job's tables are looked at once.
ghost use Rattle.std.specs.Prelude.{length};
ghost use Rattle.rules.specs.Answers.{answered};
ghost use Rattle.plan_text.specs.Told.{WrittenAs};

use crate::Plan;
use job::{Job, Refusal};
use job_text::LentLists;
use planner::from_text::read_and_plan;

// The plan's bytes for a job's bytes, in the lent room.
pub fn answer(text: &[u8], room: &mut [u8]) -> Result<u32, Refusal>
    ensures { WrittenAs (answered text.now (length room.old)) result room.old room.new }
{
    // nothing is allocated: arrays of the greatest sizes
    // tried as a struct of them with a method that lends each to `LentLists`: the borrow checker's part of its proof isn't made
    let mut origins = [0; Job::LINKS];
    let mut ends = [0; Job::LINKS];
    let mut sources = [0; Job::PACKETS];
    let mut stops = [0; Job::PACKETS];
    let mut hops = [0; Job::HOPS];
    let mut starts = [0; Job::PACKETS];
    let mut lists = LentLists {
        origins: &mut origins,
        ends: &mut ends,
        sources: &mut sources,
        stops: &mut stops,
        hops: &mut hops,
    };
    let job = read_and_plan(text, &mut lists, &mut starts)?;
    let plan = Plan {
        lists: lists.job(job),
        starts: &starts[..usize::from(job.packets)],
    };
    plan.write(room)
}
