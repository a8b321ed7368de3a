// From a job's text and a plan's text to a clash, and to what is printed: both readers and the check in a row.
#![tactic(auto)]

ghost use Rattle.std.specs.Prelude.{◌≡◌, ◌≤◌, length};
ghost use Rattle.rules.specs.Outcome.{onward};
ghost use Rattle.rules.specs.Answers.{plan_read_in, checked as checked_starts};
ghost use Rattle.rules.specs.CheckedTexts.{checked_texts, clear_text, checks};
ghost use Rattle.job.specs.Lists.{job_in};
ghost use Rattle.planner.specs.Told.{checked_of};
ghost use Rattle.answer.specs.Told.{PrintedAs};
ghost use Rattle.checking.specs.Told.{texts_of};

use answer::refusal_line;
use job::{Job, JobLists, Refusal};
use job_text::LentLists;
use lines::writing;
use planner::Clash;

// Which of two texts is refused, and why.
#[derive(Clone, Copy, Debug, PartialEq, Eq)]
pub enum Refused {
    Job(Refusal),
    Plan(Refusal),
}

// The check of a plan's text for a job as lists. Its starts are found in a lent list.
fn checked_plan(lists: &JobLists, plan: &[u8], starts: &mut [u16]) -> Result<Option<Clash>, Refusal>
    ensures { checked_of result ≡ onward (plan_read_in (job_in lists.now) plan.now (length starts.old)) (λ starts. checked_starts (job_in lists.now) starts) }
{
    plan_text::reading::read(lists, plan, starts)?;
    let packets = lists.sources.len();
    planner::check(lists, &starts[..packets])
}

// The check of a plan's text for a job's text.
pub fn check(job: &[u8], plan: &[u8]) -> Result<Option<Clash>, Refused>
    ensures { texts_of result ≡ checked_texts job.now plan.now }
{
    // array by array, as in plan_text: tried as a struct with a method that lends each to LentLists, and the borrow checker's part isn't proved
    let mut origins = [0; Job::LINKS];
    let mut ends = [0; Job::LINKS];
    let mut sources = [0; Job::PACKETS];
    let mut stops = [0; Job::PACKETS];
    let mut hops = [0; Job::HOPS];
    let mut lists = LentLists {
        origins: &mut origins,
        ends: &mut ends,
        sources: &mut sources,
        stops: &mut stops,
        hops: &mut hops,
    };
    let counts = job_text::read(job, &mut lists).map_err(Refused::Job)?;
    let mut starts = [0; Job::PACKETS];
    checked_plan(&lists.job(counts), plan, &mut starts).map_err(Refused::Plan)
}

// Every line of a letter and four numbers fits in so many bytes, and so does all that is printed.
pub const ROOM: usize = 46;

// Writes the word `clear`.
fn tell_clear(room: &mut [u8]) -> usize
    requires { length clear_text ≤ length room.old }
    ensures { PrintedAs clear_text result room.old room.new }
{
    room[..6].copy_from_slice(b"clear\n");
    6
}

// What the program `check` prints for a job's text and a plan's text, and how many bytes it is.
pub fn print(job: &[u8], plan: &[u8], room: &mut [u8; ROOM]) -> usize
    ensures printed_as { PrintedAs (checks job.now plan.now) result room.old room.new }
    ensures near { result ≤ length room.new }
{
    match check(job, plan) {
        Ok(None) => tell_clear(room),
        Ok(Some(clash)) => {
            // as in zhevgulor's `shown`: one function for both would be public, and its contract as long as this
            let numbers = [
                u32::from(clash.later),
                u32::from(clash.earlier),
                u32::from(clash.link),
                clash.step.0,
            ];
            writing::line(room, 0, b'C', numbers)
        }
        Err(Refused::Job(refusal)) => refusal_line(room, b'R', refusal),
        Err(Refused::Plan(refusal)) => refusal_line(room, b'Q', refusal),
    }
}
