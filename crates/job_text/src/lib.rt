// The reader of job texts: bytes in, the lists of a job out.
#![tactic(auto)]

ghost use Rattle.std.specs.Prelude.{◌≡◌, List, ℕ, ◌+◌, ◌-◌, ◌≤◌, length, take, drop};
ghost use Rattle.rules.specs.Sizes.{text_most, hops_most};
ghost use Rattle.rules.specs.Tables.{packet_verdict};
ghost use Rattle.job.specs.Lists.{job_in};
ghost use Rattle.job.specs.Told.{verdict_of};
ghost use Rattle.rules.specs.Bytes.{line_feed, letter_l, letter_n, letter_p, split};
ghost use Rattle.rules.specs.JobText.{Line as Said, link, packet as packet_line, with_line, first_line, all_lines};
ghost use Rattle.theorems.specs.TextRest.{with_rest};
ghost use Rattle.job_text.specs.Told.{Lists, lists_in, roomy, read_in, ReadAs, SameLists};
ghost use Rattle.job_text.specs.LineInText.{said_at, said_behind, line_told, PathStands, LineAs, ToldAs};
ghost use Rattle.job_text.specs.SoFar.{so_far, counted_of, if_fine, Room, Within, Took, front, Fronts};

use job::{Job, JobLists, Network, Refusal, link_verdict};
use lines::reading::{Copied, Lines, begins_at, copy_behind, field_behind, letter_at};

// The five lists that a job is read into, lent by whoever wants it: nothing is allocated.
#[derive(Drop)]
pub struct LentLists<'a> {
    pub origins: &'a mut [u16],
    pub ends: &'a mut [u16],
    pub sources: &'a mut [u16],
    pub stops: &'a mut [u16],
    pub hops: &'a mut [u16],
}

// The first places of a list, or all of them where it has fewer.
fn first(list: &[u16], count: u16) -> &[u16]
    ensures { result.now ≡ take count list.now }
{
    list.get(..usize::from(count)).unwrap_or(list)
}

// The counts of a job that is begun, which are within their sizes.
#[derive(Clone, Copy)]
struct Begun {
    job: Job,
    ghost within: { Within job },
}

impl LentLists<'_> {
    // The job in the first places of the lists, as many as are counted.
    pub fn job(&self, counts: Job) -> JobLists<'_>
        ensures { job_in result ≡ so_far counts (lists_in self.now) }
    {
        JobLists {
            network: Network {
                nodes: counts.nodes,
                origins: first(self.origins, counts.links),
                ends: first(self.ends, counts.links),
            },
            sources: first(self.sources, counts.packets),
            stops: first(self.stops, counts.packets),
            hops: first(self.hops, counts.hops),
        }
    }

    // Whether no list is shorter than its size.
    fn has_room(&self) -> bool
        ensures { result ≡ roomy (lists_in self.now) }
    {
        self.origins.len() >= Job::LINKS
            && self.ends.len() >= Job::LINKS
            && self.sources.len() >= Job::PACKETS
            && self.stops.len() >= Job::PACKETS
            && self.hops.len() >= Job::HOPS
    }

    // The verdict on one more packet, whose path stands behind the hops so far. It is called, to leave the registers to the loop over lines.
    // That the lists have room is a clause here and below, and no ghost field: a struct that held them as `&mut` would owe in each contract
    // that they are the same ones, so a clause for the one saved.
    #[inline(never)]
    fn packet_verdict(
        &self,
        begun: Begun,
        source: u16,
        count: usize,
        line: u32,
    ) -> Result<(), Refusal>
        requires room { Room (lists_in self.now) }
        requires path { begun.job.hops + count ≤ hops_most }
        ensures { verdict_of result ≡ packet_verdict (so_far begun.job (lists_in self.now)).network line source (take count (drop begun.job.hops self.now.hops.now)) }
    {
        let job = begun.job;
        let links = usize::from(job.links);
        let from = usize::from(job.hops);
        let network = Network {
            nodes: job.nodes,
            origins: &self.origins[..links],
            ends: &self.ends[..links],
        };
        network.packet_verdict(&self.hops[from..from + count], source, line)
    }

    // Zeros past the counts.
    fn clear_past(&mut self, counts: Job)
        ensures cleared { Fronts counts (lists_in self.old) (lists_in self.new) }
        ensures same { SameLists self.old self.new }
    {
        let links = usize::from(counts.links);
        let packets = usize::from(counts.packets);
        clear(self.origins, links);
        clear(self.ends, links);
        clear(self.sources, packets);
        clear(self.stops, packets);
        clear(self.hops, usize::from(counts.hops));
    }
}

// What a line says by itself. The path of a packet, so long, is left in the hops as far as they go.
#[derive(Clone, Copy, Debug, PartialEq, Eq)]
enum Line {
    Nodes(u16),
    Link { from: u16, to: u16 },
    Packet { source: u16, count: usize },
}

// A line in a text, and where it ends.
#[derive(Clone, Copy, Debug, PartialEq, Eq)]
struct Found {
    line: Line,
    end: usize,
}

// N: one number behind the letter, which ends at this place. It, `link_at` and the three numbers of a plan's line are no one function for
// N numbers: `?` leaves a line for each number, with its name, and one for all would hand them out by places.
#[inline(always)]
fn nodes_at(text: &[u8], at: usize) -> Option<Found>
    ensures { (hops : List ℕ) (from : ℕ) → ToldAs (said_behind letter_n text.now at) text.now at result hops from }
{
    let nodes = field_behind(text, at).ok()?;
    if !begins_at(text, nodes.end, b'\n') {
        return None;
    }
    Some(Found {
        line: Line::Nodes(nodes.value),
        end: nodes.end,
    })
}

// L: two numbers.
#[inline(always)]
fn link_at(text: &[u8], at: usize) -> Option<Found>
    ensures { (hops : List ℕ) (place : ℕ) → ToldAs (said_behind letter_l text.now at) text.now at result hops place }
{
    let from = field_behind(text, at).ok()?;
    let to = field_behind(text, from.end).ok()?;
    if !begins_at(text, to.end, b'\n') {
        return None;
    }
    Some(Found {
        line: Line::Link {
            from: from.value,
            to: to.value,
        },
        end: to.end,
    })
}

// P: a source, and a path that is copied into the hops from a place on.
#[inline(always)]
#[tactic(auto, using(crate::proofs::OneLine::stays))]
fn packet_at(text: &[u8], at: usize, hops: &mut [u16], from: usize) -> Option<Found>
    ensures told { ToldAs (said_behind letter_p text.now at) text.now at result hops.new from }
    ensures before { take from hops.new ≡ take from hops.old }
{
    let source = field_behind(text, at).ok()?;
    let Copied { count, end } = copy_behind(text, source.end, hops, from)?;
    if end >= text.len() {
        return None;
    }
    Some(Found {
        line: Line::Packet {
            source: source.value,
            count,
        },
        end,
    })
}

// The line that begins at a place. A packet's path is copied into the hops from a place on, and those before it stay. It and the three
// above become part of the loop over the lines, and that stands by itself: else None's zeros are made at each digit, and what the loop
// needs at each byte is not kept in registers. Reading took a fifth longer on a text of links.
#[inline(always)]
fn line_at(text: &[u8], at: usize, hops: &mut [u16], from: usize) -> Option<Found>
    ensures told { ToldAs (said_at text.now at) text.now at result hops.new from }
    ensures before { take from hops.new ≡ take from hops.old }
{
    match letter_at(text, at)? {
        b'P' => packet_at(text, at + 1, hops, from),
        b'L' => link_at(text, at + 1),
        b'N' => nodes_at(text, at + 1),
        _ => None,
    }
}

// L: one more link.
fn add_link(
    line: u32,
    begun: Begun,
    from: u16,
    to: u16,
    lists: &mut LentLists,
) -> Result<(), Refusal>
    requires room { Room (lists_in lists.old) }
    ensures took { Took (with_line line (so_far begun.job (lists_in lists.old)) (link from to))
        (if_fine result (counted_of begun.job (Line.Link from to))) (lists_in lists.new) }
    ensures same { SameLists lists.old lists.new }
{
    let job = begun.job;
    let links = usize::from(job.links);
    let packets = usize::from(job.packets);
    let out_of_place = Refusal::BadForm(line);
    let too_many = Refusal::Size(line);
    if packets > 0 {
        return Err(out_of_place);
    }
    if links >= Job::LINKS {
        return Err(too_many);
    }
    link_verdict(job.nodes, from, to, line)?;
    lists.origins[links] = from;
    lists.ends[links] = to;
    Ok(())
}

// P: one more packet, whose path is judged where it stands, behind the hops so far.
fn add_packet(
    line: u32,
    begun: Begun,
    source: u16,
    count: usize,
    lists: &mut LentLists,
) -> Result<(), Refusal>
    requires room { Room (lists_in lists.old) }
    ensures took { (path : List ℕ) → PathStands count lists.old.hops.now begun.job.hops path → Took
        (with_line line (so_far begun.job (lists_in lists.old)) (packet_line source path))
        (if_fine result (counted_of begun.job (Line.Packet source count))) (lists_in lists.new) }
    ensures same { SameLists lists.old lists.new }
{
    let packets = usize::from(begun.job.packets);
    let from = usize::from(begun.job.hops);
    if packets >= Job::PACKETS {
        return Err(Refusal::Size(line));
    }
    if count > Job::HOPS - from {
        return Err(Refusal::Size(line));
    }
    lists.packet_verdict(begun, source, count, line)?;
    lists.sources[packets] = source;
    // `as` here and below: a proof shows that it fits, and `try_from` would make a case of what cannot be
    lists.stops[packets] = (from + count) as u16;
    Ok(())
}

// A line below the first: what it adds goes into the lists, and `counted` has the counts.
fn add_line(told: Line, line: u32, begun: Begun, lists: &mut LentLists) -> Result<(), Refusal>
    requires room { Room (lists_in lists.old) }
    ensures took { (said : Said) → LineAs said told lists.old.hops.now begun.job.hops → Took
        (with_line line (so_far begun.job (lists_in lists.old)) said) (if_fine result (counted_of begun.job told)) (lists_in lists.new) }
    ensures same { SameLists lists.old lists.new }
{
    match told {
        Line::Nodes(_) => Err(Refusal::BadForm(line)),
        Line::Link { from, to } => add_link(line, begun, from, to, lists),
        Line::Packet { source, count } => add_packet(line, begun, source, count, lists),
    }
}

// The counts with one more line, once that is taken. They are no part of the answer of `add_line`, since to take them out of an
// enum costs time at each line.
fn counted(begun: Begun, told: Line) -> Begun
    requires { Within (counted_of begun.job told) }
    ensures { result.job ≡ counted_of begun.job told }
{
    let job = begun.job;
    let more = match told {
        Line::Nodes(_) => job,
        Line::Link { .. } => Job {
            links: job.links + 1,
            ..job
        },
        Line::Packet { count, .. } => Job {
            packets: job.packets + 1,
            hops: job.hops + count as u16,
            ..job
        },
    };
    Begun { job: more }
}

// The lines from a cursor on, which goes from line to line by `moved`: document 01 names this form.
// That the text is short stands in the contracts from here to `fill`: it is a fact of a lent text, which `read` learns by its first test.
#[inline(never)]
fn add_lines(text: &[u8], first: Lines, top: Begun, lists: &mut LentLists) -> Result<Job, Refusal>
    requires room { Room (lists_in lists.old) }
    requires short { length text.now ≤ text_most }
    requires place { first.line ≤ first.at + 1 }
    ensures took { Took
        (with_rest first.line (so_far top.job (lists_in lists.old)) (split line_feed (drop first.at text.now))) result (lists_in lists.new) }
    ensures same { SameLists lists.old lists.new }
{
    let mut cursor = first;
    let mut begun = top;
    while cursor.at < text.len() {
        let Some(found) = line_at(text, cursor.at, lists.hops, usize::from(begun.job.hops)) else {
            return Err(Refusal::BadForm(cursor.line));
        };
        add_line(found.line, cursor.line, begun, lists)?;
        begun = counted(begun, found.line);
        cursor = cursor.moved(found.end + 1);
    }
    Ok(begun.job)
}

// The counts of nothing that was read, or that stays of a text that is refused.
const NOTHING: Job = Job {
    nodes: 0,
    links: 0,
    packets: 0,
    hops: 0,
};

// The job of the first line alone, which is N's.
fn first_line(told: Line) -> Result<Job, Refusal>
    ensures { (path : List ℕ) (l : Lists) → Took (first_line (line_told path told)) result l }
{
    let Line::Nodes(nodes) = told else {
        return Err(Refusal::BadForm(1));
    };
    if !(1..=Job::NODES).contains(&usize::from(nodes)) {
        return Err(Refusal::Size(1));
    }
    Ok(Job { nodes, ..NOTHING })
}

// All lines, from the top. After a refusal the lists may hold anything.
fn read_lines(text: &[u8], lists: &mut LentLists) -> Result<Job, Refusal>
    requires short { length text.now ≤ text_most }
    requires room { Room (lists_in lists.old) }
    ensures took { Took (all_lines (split line_feed text.now)) result (lists_in lists.new) }
    ensures same { SameLists lists.old lists.new }
{
    let Some(found) = line_at(text, 0, lists.hops, 0) else {
        return Err(Refusal::BadForm(1));
    };
    let job = first_line(found.line)?;
    let next = Lines::top().moved(found.end + 1);
    add_lines(text, next, Begun { job }, lists)
}

// Zeros from a place on.
#[tactic(auto, unfolding(crate::specs::Told::filled))]
fn clear(list: &mut [u16], from: usize)
    ensures { list.new ≡ front from list.old }
{
    let kept = from.min(list.len());
    list[kept..].fill(0);
}

// The text, in lists that have room. Nothing stays in them of a text that is refused.
fn fill(text: &[u8], lists: &mut LentLists) -> Result<Job, Refusal>
    requires short { length text.now ≤ text_most }
    requires room { Room (lists_in lists.old) }
    ensures read { ReadAs (all_lines (split line_feed text.now)) result (lists_in lists.old) (lists_in lists.new) }
    ensures same { SameLists lists.old lists.new }
{
    let answer = read_lines(text, lists);
    lists.clear_past(answer.unwrap_or(NOTHING));
    answer
}

// Reads a job's text into the lists that are lent.
pub fn read(text: &[u8], lists: &mut LentLists) -> Result<Job, Refusal>
    ensures read { ReadAs (read_in text.now (lists_in lists.old)) result (lists_in lists.old) (lists_in lists.new) }
    ensures same { SameLists lists.old lists.new }
{
    if text.len() > Job::TEXT {
        return Err(Refusal::TextTooLong);
    }
    if !lists.has_room() {
        return Err(Refusal::ShortRoom);
    }
    fill(text, lists)
}
