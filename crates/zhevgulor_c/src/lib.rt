// The archive for C programs: the functions that include/zhevgulor.h declares, each with the contract of the one that it calls.
// They stand twice: a crate is a library or a static library, and this one exports zhevgulor's for C. Lists come one by one for the C interface.
#![tactic(auto)]

ghost use Rattle.std.specs.Prelude.{◌≡◌, length};
ghost use Rattle.rules.specs.Outcome.{is, onward};
ghost use Rattle.rules.specs.Tables.{tables as tables_verdict};
ghost use Rattle.rules.specs.Answers.{planned, led, written};
ghost use Rattle.job.specs.Lists.{job_of};
ghost use Rattle.job_text.specs.Told.{lists};
ghost use Rattle.zhevgulor.specs.Told.{answer_for, lead_for, LentAs, ReadFor};
ghost use Rattle.zhevgulor.specs.Promise.{PlanPromise, CheckPromise};
ghost use Rattle.zhevgulor.specs.PlanBackPromise.{ReadPlanPromise, CheckTextsPromise};

use zhevgulor::{Answer, LeadAnswer, ReadAnswer, TextsAnswer};

// Whether the lists are a job: value 0.
#[unsafe(no_mangle)]
pub extern "C" fn zhevgulor_tables(
    nodes: u16,
    origins: &[u16],
    ends: &[u16],
    sources: &[u16],
    stops: &[u16],
    hops: &[u16],
) -> Answer
    ensures { result ≡ answer_for (onward (tables_verdict (job_of nodes origins.now ends.now sources.now stops.now hops.now)) (λ fine. is 0)) }
{
    zhevgulor::zhevgulor_tables(nodes, origins, ends, sources, stops, hops)
}

// The greedy starts of a job: value is the number of packets, whose starts stand in the first places.
#[unsafe(no_mangle)]
pub extern "C" fn zhevgulor_starts(
    nodes: u16,
    origins: &[u16],
    ends: &[u16],
    sources: &[u16],
    stops: &[u16],
    hops: &[u16],
    starts: &mut [u16],
) -> Answer
    ensures { LentAs (planned (job_of nodes origins.now ends.now sources.now stops.now hops.now) (length starts.old)) result starts.old starts.new }
{
    zhevgulor::zhevgulor_starts(nodes, origins, ends, sources, stops, hops, starts)
}

// The check of starts made elsewhere: value 0 is clear, value 4 a clash, whose later packet, earlier packet, link and step
// stand in the first places.
#[unsafe(no_mangle)]
pub extern "C" fn zhevgulor_check(
    nodes: u16,
    origins: &[u16],
    ends: &[u16],
    sources: &[u16],
    stops: &[u16],
    hops: &[u16],
    starts: &[u16],
    clash: &mut [u32],
) -> Answer
    ensures { CheckPromise (job_of nodes origins.now ends.now sources.now stops.now hops.now) starts.now clash.old result clash.new }
{
    zhevgulor::zhevgulor_check(nodes, origins, ends, sources, stops, hops, starts, clash)
}

// The lead of packet a over packet b on the link.
#[unsafe(no_mangle)]
pub extern "C" fn zhevgulor_lead(
    nodes: u16,
    origins: &[u16],
    ends: &[u16],
    sources: &[u16],
    stops: &[u16],
    hops: &[u16],
    starts: &[u16],
    a: u16,
    b: u16,
    link: u16,
) -> LeadAnswer
    ensures { result ≡ lead_for (led (job_of nodes origins.now ends.now sources.now stops.now hops.now) starts.now a b link) }
{
    zhevgulor::zhevgulor_lead(
        nodes, origins, ends, sources, stops, hops, starts, a, b, link,
    )
}

// The plan's text of a job with starts made elsewhere: value is the number of bytes, which stand in the first places.
#[unsafe(no_mangle)]
pub extern "C" fn zhevgulor_plan_text(
    nodes: u16,
    origins: &[u16],
    ends: &[u16],
    sources: &[u16],
    stops: &[u16],
    hops: &[u16],
    starts: &[u16],
    room: &mut [u8],
) -> Answer
    ensures { LentAs (written (job_of nodes origins.now ends.now sources.now stops.now hops.now) starts.now (length room.old)) result room.old room.new }
{
    zhevgulor::zhevgulor_plan_text(nodes, origins, ends, sources, stops, hops, starts, room)
}

// From a job's text to its plan's text: value is the number of bytes, which stand in the first places.
#[unsafe(no_mangle)]
pub extern "C" fn zhevgulor_plan(job: &[u8], room: &mut [u8]) -> Answer
    ensures { PlanPromise job.now room.old result room.new }
{
    zhevgulor::zhevgulor_plan(job, room)
}

// From a job's text to its lists, which stand in the first places: the counts tell how many.
#[unsafe(no_mangle)]
pub extern "C" fn zhevgulor_read(
    job: &[u8],
    origins: &mut [u16],
    ends: &mut [u16],
    sources: &mut [u16],
    stops: &mut [u16],
    hops: &mut [u16],
) -> ReadAnswer
    ensures { ReadFor job.now result (lists origins.old ends.old sources.old stops.old hops.old) (lists origins.new ends.new sources.new stops.new hops.new) }
{
    zhevgulor::zhevgulor_read(job, origins, ends, sources, stops, hops)
}

// From a plan's text to the starts that it says for a job as lists: value is the number of packets, whose starts stand in the
// first places.
#[unsafe(no_mangle)]
pub extern "C" fn zhevgulor_read_plan(
    nodes: u16,
    origins: &[u16],
    ends: &[u16],
    sources: &[u16],
    stops: &[u16],
    hops: &[u16],
    plan: &[u8],
    starts: &mut [u16],
) -> Answer
    ensures { ReadPlanPromise (job_of nodes origins.now ends.now sources.now stops.now hops.now) plan.now starts.old result starts.new }
{
    zhevgulor::zhevgulor_read_plan(nodes, origins, ends, sources, stops, hops, plan, starts)
}

// The check of a plan's text for a job's text: value 0 is clear, value 4 a clash, whose later packet, earlier packet, link and
// step stand in the first places.
#[unsafe(no_mangle)]
pub extern "C" fn zhevgulor_check_texts(job: &[u8], plan: &[u8], clash: &mut [u32]) -> TextsAnswer
    ensures { CheckTextsPromise job.now plan.now clash.old result clash.new }
{
    zhevgulor::zhevgulor_check_texts(job, plan, clash)
}
