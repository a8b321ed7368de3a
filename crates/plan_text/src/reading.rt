// The text of a plan, read back for a job as lists, by a reader that holds the bytes and a place in them.
ghost use Rattle.std.specs.Prelude.{◌≡◌, ◌≤◌, ◌<◌, length, take, set};
ghost use Rattle.rules.specs.Sizes.{text_most};
ghost use Rattle.rules.specs.Bytes.{line_feed};
ghost use Rattle.rules.specs.Travel.{one_step};
ghost use Rattle.rules.specs.Network.{paths};
ghost use Rattle.rules.specs.Outcome.{fine, onward};
ghost use Rattle.rules.specs.Tables.{tables};
ghost use Rattle.rules.specs.PlanBack.{rows_verdict, totals_verdict, followed};
ghost use Rattle.rules.specs.Answers.{plan_read_in};
ghost use Rattle.job.specs.Lists.{job_in};
ghost use Rattle.job.specs.Told.{outcome_of, verdict_of};
ghost use Rattle.lines.specs.Cursor.{top_line};
ghost use Rattle.plan_text.specs.PlanLines.{three_told, line_at, rows_at, rows_found, starts_stored, ends_stored, totals_at, rows_in, lines_say};
ghost use Rattle.plan_text.specs.Told.{ReadBackAs};

use crate::Plan;
use job::{Job, JobLists, Refusal};
use lines::reading::{Lines, begins_at, field_behind, letter_at};

// The three numbers of a line.
#[derive(Clone, Copy, Debug, PartialEq, Eq)]
struct Three {
    first: u16,
    second: u16,
    third: u16,
}

// What a line of three numbers says, and where the next line begins.
#[derive(Clone, Copy, Debug, PartialEq, Eq)]
struct ThreeLine {
    said: Three,
    next: Lines,
}

// How many S lines stand at a place, numbered from 0, and where the line behind them begins.
#[derive(Clone, Copy, Debug, PartialEq, Eq)]
struct Rows {
    count: usize,
    next: Lines,
}

// A whole line of a letter and three numbers, if one stands at a place: three numbers behind the letter, and a line feed behind those.
// The letter parts no fields or lines.
fn line_at(text: &[u8], place: Lines, letter: u8) -> Option<ThreeLine>
    requires { line_feed < letter }
    ensures { result ≡ line_at text.now place letter }
{
    if letter_at(text, place.at) != Some(letter) {
        return None;
    }
    let first = field_behind(text, place.at + 1).ok()?;
    let second = field_behind(text, first.end).ok()?;
    let third = field_behind(text, second.end).ok()?;
    if !begins_at(text, third.end, b'\n') {
        return None;
    }
    let said = Three {
        first: first.value,
        second: second.value,
        third: third.value,
    };
    Some(ThreeLine {
        said,
        next: place.moved(third.end + 1),
    })
}

// A number stored, if the list has the place. By `get_mut` the proof did not close: of what is written through it a slice's contract says
// nothing.
fn store(list: &mut [u16], k: usize, value: u16)
    ensures { list.new ≡ set list.old k value }
{
    if k < list.len() {
        list[k] = value;
    }
}

// The S lines at a place; each start and end is stored, as far as the lists go.
fn rows_at(text: &[u8], place: Lines, starts: &mut [u16], ends: &mut [u16]) -> Result<Rows, Refusal>
    ensures { (result ≡ rows_at text.now place)
        × (starts.new ≡ starts_stored starts.old (rows_found text.now place))
        × (ends.new ≡ ends_stored ends.old (rows_found text.now place)) }
{
    let mut next = place;
    let mut count = 0;
    // no `for`: the cursor goes on by `moved`, a form that document 01 names
    while begins_at(text, next.at, b'S') {
        let bad_form = Refusal::BadForm(next.line);
        let row = line_at(text, next, b'S').ok_or(bad_form)?;
        if usize::from(row.said.first) != count {
            return Err(bad_form);
        }
        store(starts, count, row.said.second);
        store(ends, count, row.said.third);
        next = row.next;
        count += 1;
    }
    Ok(Rows { count, next })
}

// The T line at a place, and the end of the plan behind it.
fn totals_at(text: &[u8], place: Lines) -> Result<Three, Refusal>
    ensures { result ≡ totals_at text.now place }
{
    let ThreeLine { said, next } = line_at(text, place, b'T').ok_or(Refusal::BadForm(place.line))?;
    if next.at < text.len() {
        return Err(Refusal::BadForm(next.line));
    }
    Ok(said)
}

// The plan's bytes, and the place of the next line in them. Document 01 names this form: a small struct with the slice in it, and thin
// functions over those of plain bytes. It can be named from outside; its functions cannot be called there.
#[derive(Clone, Copy)]
pub struct PlanReader<'a> {
    pub bytes: &'a [u8],
    pub place: Lines,
}

impl<'a> PlanReader<'a> {
    // At the first line.
    fn top(bytes: &'a [u8]) -> PlanReader<'a>
        ensures { result ≡ record { bytes = bytes.entry; place = top_line } }
    {
        PlanReader {
            bytes,
            place: Lines::top(),
        }
    }

    // At another place of the same bytes.
    fn moved(self, place: Lines) -> PlanReader<'a>
        ensures { result ≡ record { bytes = self.entry.bytes; place = place } }
    {
        PlanReader { place, ..self }
    }

    // The S lines from here on; each start and end is stored, as far as the lists go.
    fn rows(self, starts: &mut [u16], ends: &mut [u16]) -> Result<Rows, Refusal>
        ensures { (result ≡ rows_at self.entry.bytes.now self.entry.place)
            × (starts.new ≡ starts_stored starts.old (rows_found self.entry.bytes.now self.entry.place))
            × (ends.new ≡ ends_stored ends.old (rows_found self.entry.bytes.now self.entry.place)) }
    {
        rows_at(self.bytes, self.place, starts, ends)
    }

    // The T line here, and the end of the plan behind it.
    fn totals(self) -> Result<Three, Refusal>
        ensures { result ≡ totals_at self.entry.bytes.now self.entry.place }
    {
        totals_at(self.bytes, self.place)
    }
}

// Line by line: a start that is too late, then an end that does not follow from the start.
fn rows_verdict(plan: &Plan, ends: &[u16]) -> Result<(), Refusal>
    requires { length ends.now ≡ length plan.now.starts.now }
    ensures { verdict_of result ≡ rows_verdict one_step 1 (rows_in plan.now.starts.now ends.now) (paths (job_in plan.now.lists)) }
{
    for (k, (&start, &end)) in plan.starts.iter().zip(ends).enumerate() {
        // `as` here and below: a proof shows that it fits, and `try_from` would make a case of what cannot be
        let line = k as u32 + 1;
        if start > Job::START {
            return Err(Refusal::LateStart(line));
        }
        if u32::from(end) != plan.end(k).0 {
            return Err(Refusal::NotFollowing(line));
        }
    }
    Ok(())
}

// The T line, which is this line: routing time, C and D that do not follow from the starts.
fn totals_verdict(plan: &Plan, said: Three, line: u32) -> Result<(), Refusal>
    ensures { verdict_of result ≡ totals_verdict line (job_in plan.now.lists) plan.now.starts.now (three_told said) }
{
    if u32::from(said.first) != plan.routing_time() {
        return Err(Refusal::NotFollowing(line));
    }
    if u32::from(said.second) != plan.congestion() {
        return Err(Refusal::NotFollowing(line));
    }
    if u32::from(said.third) != plan.dilation() {
        return Err(Refusal::NotFollowing(line));
    }
    Ok(())
}

// What the lines say follows from the starts: the packets' lines, then the T line below them.
fn followed(plan: &Plan, ends: &[u16], said: Three) -> Result<(), Refusal>
    requires { length ends.now ≡ length plan.now.starts.now }
    ensures { verdict_of result
        ≡ onward (followed (job_in plan.now.lists) (rows_in plan.now.starts.now ends.now) (three_told said)) (λ starts. fine) }
{
    rows_verdict(plan, ends)?;
    let line = plan.starts.len() as u32 + 1;
    totals_verdict(plan, said, line)
}

// The starts that a plan's lines say for a job whose tables stand, in the first places of a lent list with room for every job's. Lent, since
// handed out by value they are copied, which takes a third of the time of a short plan.
fn find_starts(
    lists: &JobLists,
    text: &[u8],
    starts: &mut [u16; Job::PACKETS],
) -> Result<(), Refusal>
    requires { (tables (job_in lists.now) ≡ fine) × (length text.now ≤ text_most) }
    ensures { outcome_of (λ u. take (length lists.now.sources.now) starts.new) result ≡ lines_say (job_in lists.now) text.now }
{
    // nothing is allocated: an array of the greatest size
    let mut ends = [0; Job::PACKETS];
    let reader = PlanReader::top(text);
    let rows = reader.rows(starts, &mut ends)?;
    if rows.count != lists.sources.len() {
        return Err(Refusal::StartCount);
    }
    let said = reader.moved(rows.next).totals()?;
    let plan = Plan {
        lists: *lists,
        starts: &starts[..rows.count],
    };
    followed(&plan, &ends[..rows.count], said)?;
    Ok(())
}

// The starts of a plan's text, for a job as lists: found first in a list of their own, and copied once nothing is refused.
pub fn read(lists: &JobLists, text: &[u8], starts: &mut [u16]) -> Result<(), Refusal>
    ensures { ReadBackAs (plan_read_in (job_in lists.now) text.now (length starts.old)) result starts.old starts.new }
{
    lists.tables()?;
    if text.len() > Job::TEXT {
        return Err(Refusal::TextTooLong);
    }
    let mut found = [0; Job::PACKETS];
    find_starts(lists, text, &mut found)?;
    let packets = lists.sources.len();
    if packets > starts.len() {
        return Err(Refusal::ShortRoom);
    }
    starts[..packets].copy_from_slice(&found[..packets]);
    Ok(())
}
