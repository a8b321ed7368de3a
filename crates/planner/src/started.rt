// The packets of an accepted job with starts that were accepted too: who enters a link in a step, and the first clash.
ghost use Rattle.std.specs.Prelude.{◌≡◌, [], ℕ, ◌+◌, ◌*◌, ◌≤◌, ◌<◌, ◌==◌, length, get_or, position};
ghost use Rattle.counting.specs.Count.{occurs};
ghost use Rattle.rules.specs.Sizes.{packets_most, start_most};
ghost use Rattle.rules.specs.Travel.{one_step};
ghost use Rattle.rules.specs.Check.{holder as holder_of, clash_with, clash_after};
ghost use Rattle.rules.specs.Lead.{entry_at};
ghost use Rattle.planner.specs.Told.{entered_of, held_by, found_of, Near};
ghost use Rattle.planner.specs.PacketsInLists.{InTime, packet_enters};
ghost use Rattle.planner.specs.Entries.{widest, OnLinks, Counted, Enterable, EntriesBefore};
ghost use Rattle.planner.specs.Again.{FirstAgain};
ghost use Rattle.planner.specs.EntriesAdded.{all_steps, EntriesAdded};
ghost use Rattle.marks.specs.Marks.{unmarked};

use crate::entries::Entries;
use crate::paths::Paths;
use crate::{Clash, enters};
use job::{Hop, Step};

// Words for the steps that are marked: an entry step has 16 bits.
const STEP_WORDS: usize = 65535 / 64 + 1;

#[derive(Clone, Copy)]
pub(crate) struct Started<'a> {
    pub(crate) paths: Paths<'a>,
    pub(crate) starts: &'a [u16],
    ghost as_many: { length starts.now ≡ length paths.stops.now },
    ghost few: { length starts.now ≤ packets_most },
    ghost in_time: { InTime starts.now },
}

// Where the link stands on a path, if it does.
fn hop_of(path: &[u16], link: u16) -> Option<usize>
    ensures { result ≡ position (λ l. l == link) path.now }
{
    path.iter().position(|&on| on == link)
}

impl Started<'_> {
    ghost use Rattle.planner.specs.StartedPackets.{paths_in, packets_in, before_in};

    // Whether packet j enters the link in the step.
    fn enters(&self, j: usize, link: u16, step: Step) -> bool
        requires { j < length self.now.starts.now }
        ensures { result ≡ packet_enters self.now.paths.stops.now self.now.paths.hops.now self.now.starts.now j link step.0 }
    {
        enters(self.paths.path(j), self.starts[j], link, step)
    }

    // Where packet k is when it enters the link, if it does.
    pub(crate) fn entry(&self, k: u16, link: u16) -> Option<Step>
        ensures result_value { entered_of result ≡ entry_at one_step self.now.starts.now (paths_in self.now) link k }
        ensures near { Near result }
    {
        let packet = usize::from(k);
        let start = *self.starts.get(packet)?;
        let hop = hop_of(self.paths.path(packet), link)?;
        // `as` here and below: a proof shows that it fits, and `try_from` would make a case of what cannot be
        Some(Step::of(start, Hop(hop as u16)))
    }

    // The lowest packet listed before packet k that enters the link in the step, if one does.
    fn holder(&self, k: usize, link: u16, step: Step) -> Option<u16>
        requires { k ≤ length self.now.starts.now }
        ensures { held_by result ≡ holder_of 0 (before_in self.now k) link step.0 }
    {
        (0..k as u16).find(|&j| self.enters(usize::from(j), link, step))
    }

    // The clash of packet k on the link in the step, where one listed before it has it.
    fn clash_at(&self, k: usize, link: u16, step: Step) -> Option<Clash>
        requires { k ≤ length self.now.starts.now }
        ensures { found_of result ≡ clash_with k link step.0 (holder_of 0 (before_in self.now k) link step.0) }
    {
        let earlier = self.holder(k, link, step)?;
        let later = k as u16;
        Some(Clash {
            later,
            earlier,
            link,
            step,
        })
    }

    // Enters every packet at its start, one after the other.
    fn enter_each(&self, entries: &mut Entries)
        requires { Enterable self.now.paths.hops.now start_most entries.old.nexts (length entries.old.steps) }
        ensures by_index { Counted self.now.paths.hops.now entries.old.nexts entries.new.nexts }
        ensures entries { EntriesAdded self.now.paths.hops.now (all_steps (packets_in self.now))
            entries.old.nexts entries.old.steps entries.new.nexts entries.new.steps }
        ensures rooms { entries.new.firsts ≡ entries.old.firsts }
    {
        for (packet, &start) in self.starts.iter().enumerate() {
            entries.enter(self.paths.path(packet), start);
        }
    }

    // The first hop, in list order, that enters its link in a step in which a hop before it does, by way of the entries in the rooms that
    // are lent, if one does.
    fn conflict_among(
        &self,
        links: usize,
        entries: &mut Entries,
        words: &mut [u64],
    ) -> Option<usize>
        requires { EntriesBefore self.now.paths.stops.now self.now.paths.hops.now self.now.starts.now 0
            entries.old.firsts entries.old.nexts entries.old.steps
            × OnLinks links self.now.paths.hops.now × (widest < 64 * length words.old) × (words.old ≡ unmarked (length words.old)) }
        ensures { FirstAgain self.now.paths.hops.now (all_steps (packets_in self.now)) result }
    {
        self.enter_each(entries);
        entries.first_again(links, self.paths.hops, words)
    }

    // The same, with rooms of its own: nothing is allocated, so they are arrays of the greatest sizes.
    fn first_conflict(&self) -> Option<usize>
        ensures { FirstAgain self.now.paths.hops.now (all_steps (packets_in self.now)) result }
    {
        let mut entries = Entries::empty();
        let mut words = [0u64; STEP_WORDS];
        let links = entries.make_room(self.paths.hops);
        self.conflict_among(links, &mut entries, &mut words)
    }

    // The clash of the lowest packet that conflicts with one listed before it.
    pub(crate) fn first_clash(&self) -> Option<Clash>
        ensures { found_of result ≡ clash_after [] (packets_in self.now) }
    {
        let hop = self.first_conflict()?;
        let later = self.paths.packet_of(hop);
        let from = self.paths.begin(later);
        let step = Step::of(self.starts[later], Hop((hop - from) as u16));
        self.clash_at(later, self.paths.hops[hop], step)
    }
}
