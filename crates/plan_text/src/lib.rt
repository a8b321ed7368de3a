// The text of a plan: a job as lists and starts for its packets, written into bytes that the caller lends, also
// straight from a job's text (from_text.rt), and read back (reading.rt).
#![tactic(auto)]

ghost use Rattle.std.specs.Prelude.{◌≡◌, [], ℕ, ◌+◌, ◌*◌, ◌≤◌, ◌<◌, leb, length, get_or};
ghost use Rattle.rules.specs.Sizes.{links_most, packets_most};
ghost use Rattle.rules.specs.Network.{paths};
ghost use Rattle.rules.specs.Outcome.{fine};
ghost use Rattle.rules.specs.Tables.{tables};
ghost use Rattle.rules.specs.Travel.{one_step};
ghost use Rattle.rules.specs.Counts.{end_of, routing_time, load, congestion, dilation};
ghost use Rattle.rules.specs.PlanText.{packet_lines, text_of_plan};
ghost use Rattle.rules.specs.Answers.{started_verdict, written};
ghost use Rattle.job.specs.Lists.{job_in};
ghost use Rattle.lines.specs.Put.{Put, longest_line};
ghost use Rattle.plan_text.specs.LastLine.{CountsOf};
ghost use Rattle.plan_text.specs.Told.{WrittenAs};

use job::{Hop, Job, JobLists, Refusal, Step};
use lines::writing;

pub mod from_text;
pub mod reading;

// A job whose tables stand, and a start for each of its packets.
#[derive(Clone, Copy)]
pub(crate) struct Plan<'a> {
    pub(crate) lists: JobLists<'a>,
    pub(crate) starts: &'a [u16],
    ghost job: { tables (job_in lists) ≡ fine },
    ghost count: { length starts.now ≡ length lists.stops.now },
}

// What the plan's last line says: routing time, C and D.
#[derive(Clone, Copy, Debug, PartialEq, Eq)]
struct Counts {
    time: u32,
    c: u32,
    d: u32,
}

impl Plan<'_> {
    // How many hops packet k has: those from the stop before its own.
    fn hop_count(&self, k: usize) -> u16
        requires { k < length self.now.starts.now }
        ensures { result ≡ length (get_or (paths (job_in self.now.lists)) k []) }
    {
        let stops = self.lists.stops;
        let before = stops[..k].last().copied().unwrap_or(0);
        stops[k] - before
    }

    // The end of packet k: the step after its last hop.
    fn end(&self, k: usize) -> Step
        requires { k < length self.now.starts.now }
        ensures { result.0 ≡ end_of one_step (get_or self.now.starts.now k 0) (get_or (paths (job_in self.now.lists)) k []) }
    {
        Step::of(self.starts[k], Hop(self.hop_count(k)))
    }

    // The routing time: the greatest end.
    fn routing_time(&self) -> u32
        ensures { result ≡ routing_time one_step self.now.starts.now (paths (job_in self.now.lists)) }
    {
        let latest = (0..self.starts.len()).map(|k| self.end(k).0).max();
        latest.unwrap_or(0)
    }

    // D: the hops of the longest path.
    fn dilation(&self) -> u32
        ensures { result ≡ dilation (job_in self.now.lists) }
    {
        let longest = (0..self.starts.len()).map(|k| self.hop_count(k)).max();
        u32::from(longest.unwrap_or(0))
    }

    // How many of the paths have each link. No path has one twice, so it is how often the link is among the hops. `count` of the planner's
    // entries has the same loop: one function for both would be public and have a `requires`, which no public function has.
    fn loads(&self) -> [u16; Job::LINKS]
        ensures { (link : ℕ) → link < links_most → get_or result link 0 ≡ load link (paths (job_in self.now.lists)) }
    {
        let mut loads = [0; Job::LINKS];
        for &link in self.lists.hops {
            loads[usize::from(link)] += 1;
        }
        loads
    }

    // C: the greatest load of a link.
    fn congestion(&self) -> u32
        ensures { result ≡ congestion (job_in self.now.lists) }
    {
        let loads = self.loads();
        let links = self.lists.network.origins.len();
        u32::from(loads[..links].iter().copied().max().unwrap_or(0))
    }

    fn counts(&self) -> Counts
        ensures { CountsOf (job_in self.now.lists) self.now.starts.now result }
    {
        let time = self.routing_time();
        let c = self.congestion();
        let d = self.dilation();
        Counts { time, c, d }
    }

    // Writes a line for each packet.
    fn packet_lines(&self, room: &mut [u8]) -> usize
        ensures put { Put room.old 0 (packet_lines one_step 0 self.now.starts.now (paths (job_in self.now.lists))) room.new result }
        ensures near { result ≤ longest_line 3 * packets_most }
    {
        let mut at = 0;
        for (k, &start) in self.starts.iter().enumerate() {
            // `as` here and below: a proof shows that it fits, and `try_from` would make a case of what cannot be
            let numbers = [k as u32, u32::from(start), self.end(k).0];
            at = writing::line(room, at as u32, b'S', numbers);
        }
        at
    }

    // Writes the plan's text, as far as the room goes, and gives its length.
    fn text(&self, counts: Counts, room: &mut [u8]) -> usize
        requires { CountsOf (job_in self.now.lists) self.now.starts.now counts }
        ensures put { Put room.old 0 (text_of_plan (job_in self.now.lists) self.now.starts.now) room.new result }
        ensures near { result ≤ longest_line 3 * packets_most + longest_line 3 }
    {
        let at = self.packet_lines(room);
        writing::line(room, at as u32, b'T', [counts.time, counts.c, counts.d])
    }

    // Whether the plan's text has no more than so many bytes. For fewer than the longest plan may have, it goes into a room of one byte,
    // for its length.
    fn fits_in(&self, counts: Counts, bytes: usize) -> bool
        requires { CountsOf (job_in self.now.lists) self.now.starts.now counts
            × (started_verdict (job_in self.now.lists) self.now.starts.now ≡ fine) }
        ensures { result ≡ leb (length (text_of_plan (job_in self.now.lists) self.now.starts.now)) bytes }
    {
        if bytes >= Job::PLAN {
            return true;
        }
        let mut trial = [0; 1];
        self.text(counts, &mut trial) <= bytes
    }

    // Writes the plan's text, if the room holds it, and gives its length.
    fn write(&self, room: &mut [u8]) -> Result<u32, Refusal>
        requires { started_verdict (job_in self.now.lists) self.now.starts.now ≡ fine }
        ensures { WrittenAs (written (job_in self.now.lists) self.now.starts.now (length room.old)) result room.old room.new }
    {
        let counts = self.counts();
        if !self.fits_in(counts, room.len()) {
            return Err(Refusal::ShortRoom);
        }
        Ok(self.text(counts, room) as u32)
    }
}

// Writes the plan of a job as lists with starts for its packets.
pub fn write(lists: &JobLists, starts: &[u16], room: &mut [u8]) -> Result<u32, Refusal>
    ensures { WrittenAs (written (job_in lists.now) starts.now (length room.old)) result room.old room.new }
{
    lists.started(starts)?;
    let plan = Plan {
        lists: *lists,
        starts,
    };
    plan.write(room)
}
