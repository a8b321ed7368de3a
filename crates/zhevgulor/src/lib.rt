// What a C program calls: include/zhevgulor.h declares it, and zhevgulor_c exports it. Each function is thin over a proved one. That the lists come
// one by one, and the answers in numbers, is the C interface's.
#![tactic(auto)]

ghost use Rattle.std.specs.Prelude.{◌≡◌, length};
ghost use Rattle.rules.specs.Outcome.{is, onward};
ghost use Rattle.rules.specs.Tables.{tables as tables_verdict};
ghost use Rattle.rules.specs.Answers.{planned, led, in_room, written, plan_read_in};
ghost use Rattle.job.specs.Lists.{job_of, job_in};
ghost use Rattle.job_text.specs.Told.{lists, reading_of};
ghost use Rattle.planner.specs.Told.{found_of};
ghost use Rattle.plan_text.specs.Told.{written_of, WrittenAs};
ghost use Rattle.zhevgulor.specs.Told.{answer_for, lead_for, read_for, about_text, clash_numbers, checked_in, LentAs, ReadFor};
ghost use Rattle.zhevgulor.specs.Promise.{PlanPromise, CheckPromise};
ghost use Rattle.zhevgulor.specs.PlanBackPromise.{ReadPlanPromise, CheckTextsPromise};

use checking::Refused;
use job::{Job, JobLists, Network, Refusal};
use job_text::LentLists;
use planner::Clash;

// Refusal 0 and a value, or a refusal's number and its place.
#[repr(C)]
#[derive(Clone, Copy)]
pub struct Answer {
    pub refusal: u32,
    pub value: u32,
}

// Refusal 0 and the lead, or a refusal's number and its place.
#[repr(C)]
#[derive(Clone, Copy)]
pub struct LeadAnswer {
    pub refusal: u32,
    pub place: u32,
    pub lead: i32,
}

// Refusal 0, value 0 and how much of each thing the job has; or a refusal's number and its place, and 0 of each thing.
#[repr(C)]
#[derive(Clone, Copy)]
pub struct ReadAnswer {
    pub refusal: u32,
    pub value: u32,
    pub nodes: u32,
    pub links: u32,
    pub packets: u32,
    pub hops: u32,
}

// An answer on two texts, and which of them is refused.
#[repr(C)]
#[derive(Clone, Copy)]
pub struct TextsAnswer {
    pub text: u32,
    pub refusal: u32,
    pub value: u32,
}

// The texts by number, as the C interface has them.
const NEITHER: u32 = 0;

const THE_JOB: u32 = 1;

const THE_PLAN: u32 = 2;

// The job in lists that come one by one.
fn job_lists<'a>(
    nodes: u16,
    origins: &'a [u16],
    ends: &'a [u16],
    sources: &'a [u16],
    stops: &'a [u16],
    hops: &'a [u16],
) -> JobLists<'a>
    ensures { job_in result ≡ job_of nodes origins.now ends.now sources.now stops.now hops.now }
{
    JobLists {
        network: Network {
            nodes,
            origins,
            ends,
        },
        sources,
        stops,
        hops,
    }
}

// A value, or a refusal's number and place.
fn answer_of(told: Result<u32, Refusal>) -> Answer
    ensures { result ≡ answer_for (written_of told) }
{
    match told {
        Ok(value) => Answer { refusal: 0, value },
        Err(refusal) => Answer {
            refusal: refusal.number(),
            value: refusal.place(),
        },
    }
}

// Whether the lists are a job: value 0.
pub fn zhevgulor_tables(
    nodes: u16,
    origins: &[u16],
    ends: &[u16],
    sources: &[u16],
    stops: &[u16],
    hops: &[u16],
) -> Answer
    ensures { result ≡ answer_for (onward (tables_verdict (job_of nodes origins.now ends.now sources.now stops.now hops.now)) (λ fine. is 0)) }
{
    let lists = job_lists(nodes, origins, ends, sources, stops, hops);
    answer_of(lists.tables().map(|()| 0))
}

// The greedy starts of a job in a lent list, and how many they are.
fn planned(lists: &JobLists, starts: &mut [u16]) -> Result<u32, Refusal>
    ensures { WrittenAs (planned (job_in lists.now) (length starts.old)) result starts.old starts.new }
{
    planner::plan(lists, starts)?;
    // `as` here and below: a proof shows that it fits, and `try_from` would make a case of what cannot be
    Ok(lists.sources.len() as u32)
}

// The greedy starts of a job: value is the number of packets, whose starts stand in the first places.
pub fn zhevgulor_starts(
    nodes: u16,
    origins: &[u16],
    ends: &[u16],
    sources: &[u16],
    stops: &[u16],
    hops: &[u16],
    starts: &mut [u16],
) -> Answer
    ensures { LentAs (planned (job_of nodes origins.now ends.now sources.now stops.now hops.now) (length starts.old)) result starts.old starts.new }
{
    let lists = job_lists(nodes, origins, ends, sources, stops, hops);
    answer_of(planned(&lists, starts))
}

// What a check found, in a lent list: the four numbers of a clash, where there is room for them, or nothing. And how many numbers it is.
fn shown(found: Option<Clash>, numbers: &mut [u32]) -> Result<u32, Refusal>
    ensures { WrittenAs (in_room (clash_numbers (found_of found)) (length numbers.old)) result numbers.old numbers.new }
{
    let Some(clash) = found else {
        return Ok(0);
    };
    if numbers.len() < 4 {
        return Err(Refusal::ShortRoom);
    }
    // as in checking's `print`: one function for both would be public, and its contract as long as this
    numbers[..4].copy_from_slice(&[
        u32::from(clash.later),
        u32::from(clash.earlier),
        u32::from(clash.link),
        clash.step.0,
    ]);
    Ok(4)
}

// The check of starts, and what it found in a lent list.
fn checked(lists: &JobLists, starts: &[u16], numbers: &mut [u32]) -> Result<u32, Refusal>
    ensures { WrittenAs (checked_in (job_in lists.now) starts.now (length numbers.old)) result numbers.old numbers.new }
{
    let found = planner::check(lists, starts)?;
    shown(found, numbers)
}

// The check of starts made elsewhere: value 0 is clear, value 4 a clash, whose later packet, earlier packet, link and step
// stand in the first places.
pub fn zhevgulor_check(
    nodes: u16,
    origins: &[u16],
    ends: &[u16],
    sources: &[u16],
    stops: &[u16],
    hops: &[u16],
    starts: &[u16],
    clash: &mut [u32],
) -> Answer
    ensures { CheckPromise (job_of nodes origins.now ends.now sources.now stops.now hops.now) starts.now clash.old result clash.new }
{
    let lists = job_lists(nodes, origins, ends, sources, stops, hops);
    answer_of(checked(&lists, starts, clash))
}

// The lead of packet a over packet b on the link.
pub fn zhevgulor_lead(
    nodes: u16,
    origins: &[u16],
    ends: &[u16],
    sources: &[u16],
    stops: &[u16],
    hops: &[u16],
    starts: &[u16],
    a: u16,
    b: u16,
    link: u16,
) -> LeadAnswer
    ensures { result ≡ lead_for (led (job_of nodes origins.now ends.now sources.now stops.now hops.now) starts.now a b link) }
{
    let lists = job_lists(nodes, origins, ends, sources, stops, hops);
    match planner::lead(&lists, starts, a, b, link) {
        Ok(lead) => LeadAnswer {
            refusal: 0,
            place: 0,
            lead,
        },
        // `why` here, and `reason` in `counts_of`: must-fail finds the mistakes of each by its text
        Err(why) => LeadAnswer {
            refusal: why.number(),
            place: why.place(),
            lead: 0,
        },
    }
}

// The plan's text of a job with starts made elsewhere: value is the number of bytes, which stand in the first places.
pub fn zhevgulor_plan_text(
    nodes: u16,
    origins: &[u16],
    ends: &[u16],
    sources: &[u16],
    stops: &[u16],
    hops: &[u16],
    starts: &[u16],
    room: &mut [u8],
) -> Answer
    ensures { LentAs (written (job_of nodes origins.now ends.now sources.now stops.now hops.now) starts.now (length room.old)) result room.old room.new }
{
    let lists = job_lists(nodes, origins, ends, sources, stops, hops);
    answer_of(plan_text::write(&lists, starts, room))
}

// From a job's text to its plan's text: value is the number of bytes, which stand in the first places.
pub fn zhevgulor_plan(job: &[u8], room: &mut [u8]) -> Answer
    ensures { PlanPromise job.now room.old result room.new }
{
    answer_of(plan_text::from_text::answer(job, room))
}

// How much of each thing a job has, or a refusal.
fn counts_of(told: Result<Job, Refusal>) -> ReadAnswer
    ensures { result ≡ read_for (reading_of told) }
{
    match told {
        Ok(job) => ReadAnswer {
            refusal: 0,
            value: 0,
            nodes: u32::from(job.nodes),
            links: u32::from(job.links),
            packets: u32::from(job.packets),
            hops: u32::from(job.hops),
        },
        Err(reason) => ReadAnswer {
            refusal: reason.number(),
            value: reason.place(),
            nodes: 0,
            links: 0,
            packets: 0,
            hops: 0,
        },
    }
}

// From a job's text to its lists, which stand in the first places: the counts tell how many.
pub fn zhevgulor_read(
    job: &[u8],
    origins: &mut [u16],
    ends: &mut [u16],
    sources: &mut [u16],
    stops: &mut [u16],
    hops: &mut [u16],
) -> ReadAnswer
    ensures { ReadFor job.now result (lists origins.old ends.old sources.old stops.old hops.old) (lists origins.new ends.new sources.new stops.new hops.new) }
{
    let mut lists = LentLists {
        origins,
        ends,
        sources,
        stops,
        hops,
    };
    counts_of(job_text::read(job, &mut lists))
}

// The starts that a plan's text says for a job, in a lent list, and how many they are.
fn starts_said(lists: &JobLists, plan: &[u8], starts: &mut [u16]) -> Result<u32, Refusal>
    ensures { WrittenAs (plan_read_in (job_in lists.now) plan.now (length starts.old)) result starts.old starts.new }
{
    plan_text::reading::read(lists, plan, starts)?;
    // named, and not as in `planned`: must-fail finds the mistakes of each by its text
    let packets = lists.sources.len();
    Ok(packets as u32)
}

// From a plan's text to the starts that it says for a job as lists: value is the number of packets, whose starts stand in the
// first places.
pub fn zhevgulor_read_plan(
    nodes: u16,
    origins: &[u16],
    ends: &[u16],
    sources: &[u16],
    stops: &[u16],
    hops: &[u16],
    plan: &[u8],
    starts: &mut [u16],
) -> Answer
    ensures { ReadPlanPromise (job_of nodes origins.now ends.now sources.now stops.now hops.now) plan.now starts.old result starts.new }
{
    let lists = job_lists(nodes, origins, ends, sources, stops, hops);
    answer_of(starts_said(&lists, plan, starts))
}

fn about(text: u32, answer: Answer) -> TextsAnswer
    ensures { result ≡ about_text text answer }
{
    TextsAnswer {
        text,
        refusal: answer.refusal,
        value: answer.value,
    }
}

// The check of a plan's text for a job's text: value 0 is clear, value 4 a clash, whose later packet, earlier packet, link and
// step stand in the first places.
pub fn zhevgulor_check_texts(job: &[u8], plan: &[u8], clash: &mut [u32]) -> TextsAnswer
    ensures { CheckTextsPromise job.now plan.now clash.old result clash.new }
{
    match checking::check(job, plan) {
        Ok(found) => about(NEITHER, answer_of(shown(found, clash))),
        Err(Refused::Job(refusal)) => about(THE_JOB, answer_of(Err(refusal))),
        Err(Refused::Plan(refusal)) => about(THE_PLAN, answer_of(Err(refusal))),
    }
}
