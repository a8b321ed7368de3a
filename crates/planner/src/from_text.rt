// From a job's text to its greedy starts. What the reader accepts is a job, so its tables are not looked at again.
ghost use Rattle.job_text.specs.Told.{lists_in, read_in, SameLists};
ghost use Rattle.planner.specs.Told.{ReadAndPlannedAs};

use crate::fill;
use crate::paths::Paths;
use job::{Job, JobLists, Refusal};
use job_text::LentLists;

// Reads a job's text into the lists that are lent, and finds its greedy starts, over the first places of another.
pub fn read_and_plan(
    text: &[u8],
    lists: &mut LentLists,
    starts: &mut [u16; Job::PACKETS],
) -> Result<Job, Refusal>
    ensures read_and_planned { ReadAndPlannedAs (read_in text.now (lists_in lists.old)) result
        (lists_in lists.old) (lists_in lists.new) starts.old starts.new }
    ensures same { SameLists lists.old lists.new }
{
    let job = job_text::read(text, lists)?;
    let JobLists { stops, hops, .. } = lists.job(job);
    fill(&Paths { stops, hops }, starts);
    Ok(job)
}
