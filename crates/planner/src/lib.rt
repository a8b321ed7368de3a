// Start steps: the greedy plan of a job, the check of starts made elsewhere, and the lead of one packet over another.
#![tactic(auto)]

ghost use Rattle.std.specs.Prelude.{◌≡◌, ◌++◌, ◌*◌, ◌≤◌, ◌<◌, length, drop, IfOk};
ghost use Rattle.rules.specs.Sizes.{hops_most};
ghost use Rattle.rules.specs.Claims.{place, takes};
ghost use Rattle.rules.specs.Lead.{lead_of};
ghost use Rattle.rules.specs.Answers.{started_verdict, planned, checked, led};
ghost use Rattle.job.specs.Lists.{job_in};
ghost use Rattle.job.specs.Told.{outcome_of};
ghost use Rattle.planner.specs.Told.{entered_of, checked_of, led_of, PlannedAs, Near};
ghost use Rattle.planner.specs.PacketsInLists.{path_claims, greedy_starts};
ghost use Rattle.planner.specs.Entries.{EntriesBefore};

mod entries;
pub mod from_text;
mod paths;
mod repeats;
mod started;

use entries::Entries;
use job::{Job, JobLists, Refusal, Step};
use paths::Paths;
use started::Started;

// Words for the starts that are marked: no start lies further than there are hops.
const WORDS: usize = Job::HOPS / 64 + 1;

// Whether a packet with this path and start enters the link in the step.
pub fn enters(path: &[u16], start: u16, link: u16, step: Step) -> bool
    ensures { result ≡ takes (place start (path_claims path.now)) link step.0 }
{
    let begun = u32::from(start);
    if step.0 < begun {
        return false;
    }
    // `as`: std has no `usize::from` for 32 bits
    let hop = (step.0 - begun) as usize;
    // no `get`: it leaves no place past the path to look at, which the mistake `past_the_path` does
    hop < path.len() && path[hop] == link
}

// Starts one packet after the other, over the first places: each searches among the entries of those before it and then adds its own.
fn start_each(paths: &Paths, starts: &mut [u16], entries: &mut Entries, words: &mut [u64])
    requires { (length paths.now.stops.now ≤ length starts.old)
        × EntriesBefore paths.now.stops.now paths.now.hops.now starts.old 0 entries.old.firsts entries.old.nexts entries.old.steps
        × (hops_most < 64 * length words.old) }
    ensures { starts.new ≡ greedy_starts paths.now.stops.now paths.now.hops.now ++ drop (length paths.now.stops.now) starts.old }
{
    // by number: the path is asked for by it, and of what is written through an adapter of `iter_mut`, as `enumerate`, a proof knows nothing afterwards
    for k in 0..paths.stops.len() {
        let path = paths.path(k);
        // no start lies further than there are hops before it
        let enough = paths.begin(k) / 64 + 1;
        // `as`: a proof shows that it fits, and `try_from` would make a case of what cannot be
        let start = entries.search(path, &mut words[..enough]) as u16;
        starts[k] = start;
        entries.enter(path, start);
    }
}

// Writes the greedy starts, packet by packet, over the first places. Nothing is allocated: the entries and the marks are arrays of the
// greatest sizes.
pub(crate) fn fill(paths: &Paths, starts: &mut [u16])
    requires { length paths.now.stops.now ≤ length starts.old }
    ensures { starts.new ≡ greedy_starts paths.now.stops.now paths.now.hops.now ++ drop (length paths.now.stops.now) starts.old }
{
    let mut entries = Entries::empty();
    let mut words = [0u64; WORDS];
    entries.make_room(paths.hops);
    start_each(paths, starts, &mut entries, &mut words);
}

// The difference of two entry steps, where both packets enter. Document 01 names this form: the steps as i32, one less the other.
fn difference(first: Option<Step>, second: Option<Step>) -> Result<i32, Refusal>
    requires { Near first × Near second }
    ensures { led_of result ≡ lead_of (entered_of first) (entered_of second) }
{
    let one = first.ok_or(Refusal::NoLead)?;
    let other = second.ok_or(Refusal::NoLead)?;
    Ok(one.0 as i32 - other.0 as i32)
}

// Two packets enter the link in the step: `later`, and `earlier`, which is listed before it.
#[derive(Clone, Copy, Debug, PartialEq, Eq)]
pub struct Clash {
    pub later: u16,
    pub earlier: u16,
    pub link: u16,
    pub step: Step,
}

// The greedy starts of a job, in list order, over the first places of the lent list.
pub fn plan(lists: &JobLists, starts: &mut [u16]) -> Result<(), Refusal>
    ensures { PlannedAs (planned (job_in lists.now) (length starts.old)) result starts.old starts.new }
{
    lists.tables()?;
    if starts.len() < lists.sources.len() {
        return Err(Refusal::ShortRoom);
    }
    let JobLists { stops, hops, .. } = *lists;
    fill(&Paths { stops, hops }, starts);
    Ok(())
}

// The packets of a job with starts made elsewhere, where both are accepted.
fn accepted<'a>(lists: &JobLists<'a>, starts: &'a [u16]) -> Result<Started<'a>, Refusal>
    ensures verdict { outcome_of (λ packets. tt) result ≡ started_verdict (job_in lists.now) starts.now }
    ensures packets { IfOk result (λ packets. (packets.paths.stops.now ≡ lists.now.stops.now) × (packets.paths.hops.now ≡ lists.now.hops.now)
        × (packets.starts.now ≡ starts.now)) }
{
    lists.started(starts)?;
    let JobLists { stops, hops, .. } = *lists;
    let paths = Paths { stops, hops };
    Ok(Started { paths, starts })
}

// Whether starts made elsewhere keep all packets apart, and else the clash that is shown.
pub fn check(lists: &JobLists, starts: &[u16]) -> Result<Option<Clash>, Refusal>
    ensures { checked_of result ≡ checked (job_in lists.now) starts.now }
{
    Ok(accepted(lists, starts)?.first_clash())
}

// How far packet a is behind packet b on the link: negative where it is ahead.
pub fn lead(lists: &JobLists, starts: &[u16], a: u16, b: u16, link: u16) -> Result<i32, Refusal>
    ensures { led_of result ≡ led (job_in lists.now) starts.now a b link }
{
    let packets = accepted(lists, starts)?;
    if a == b {
        return Err(Refusal::NoLead);
    }
    let first = packets.entry(a, link);
    let second = packets.entry(b, link);
    difference(first, second)
}
