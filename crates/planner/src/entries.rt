// Entry steps by link: those of link l stand side by side among the steps, from firsts[l] to nexts[l]. So a packet's pass over those
// that stand goes along its own links, and meets nobody else.
ghost use Rattle.std.specs.Prelude.{◌≡◌, List, ℕ, ◌+◌, ◌*◌, ◌≤◌, ◌<◌, length, get_or};
ghost use Rattle.counting.specs.Count.{occurs};
ghost use Rattle.rules.specs.Sizes.{links_most, hops_most};
ghost use Rattle.rules.specs.Travel.{one_step};
ghost use Rattle.rules.specs.Claims.{place};
ghost use Rattle.marks.specs.Marks.{numbers_most};
ghost use Rattle.planner.specs.PacketsInLists.{path_claims};
ghost use Rattle.planner.specs.Entries.{widest, steps_on, Below, Parts, OnLinks, Searchable, MarksAdded, FoundAmong, AllZero, Counted, total, Rooms, Enterable};
ghost use Rattle.planner.specs.Again.{FirstAgain, InOrder};
ghost use Rattle.planner.specs.Cuts.{Cuttable};
ghost use Rattle.planner.specs.EntriesAdded.{claim_steps, EntriesAdded};

use crate::repeats::{cut_at_repeats, first_beyond};
use job::{Hop, Job, Step};

// Adds to each link's load how often it stands among the hops.
// `Below` is a clause and no struct's fact: each function ties its hops to another number, here to the length of the loads, which are lent.
fn count(hops: &[u16], loads: &mut [u16])
    requires { Below hops.now (length loads.old) × (total loads.old + length hops.now ≤ widest) }
    ensures by_index { Counted hops.now loads.old loads.new }
    ensures sum { total loads.new ≡ total loads.old + length hops.now }
{
    for &link in hops {
        loads[usize::from(link)] += 1;
    }
}

// Opens a room for each link, as large as its load, one after the other until all entries to come have their place. At the call nexts has
// the loads, and firsts is 0 throughout; nobody has entered a room yet. The answer is how many links have one: none
// from there on has a load.
fn open(places: usize, firsts: &mut [u16], nexts: &mut [u16]) -> usize
    requires { (total nexts.old ≡ places) × (places ≤ widest) × (length firsts.old ≡ length nexts.old) × AllZero firsts.old }
    ensures rooms { Rooms (λ link. get_or nexts.old link 0) firsts.new places }
    ensures empty { (link : ℕ) → get_or nexts.new link 0 ≡ get_or firsts.new link 0 }
    ensures links { (result ≤ length nexts.old) × ((link : ℕ) → result ≤ link → get_or nexts.old link 0 ≡ 0) }
{
    let mut link = 0;
    let mut place: u16 = 0;
    // no `for`: one over the links would test the link's number at each turn besides the place, which is the test that ends it
    while usize::from(place) < places {
        let load = nexts[link];
        firsts[link] = place;
        nexts[link] = place;
        place += load;
        link += 1;
    }
    link
}

// How long after its start a packet enters the link that comes after this one.
// 1 more for every link now. What a link costs goes in here, by the link that isn't read yet; so no loop over a path counts by `enumerate`.
fn offset_after(offset: u16, link: u16) -> u16
    requires { offset < widest }
    ensures { result ≡ offset + one_step link }
{
    offset + 1
}

// The entries of all links: a room for each, from where its first entry stands to where its next will, over the steps.
#[derive(Drop)]
pub(crate) struct Entries {
    firsts: [u16; Job::LINKS],
    nexts: [u16; Job::LINKS],
    steps: [u16; Job::HOPS],
    ghost firsts_length: { length firsts ≡ links_most },
    ghost nexts_length: { length nexts ≡ links_most },
    ghost steps_length: { length steps ≡ hops_most },
    ghost steps_fit: { (i : ℕ) → get_or steps i 0 ≤ widest },
}

impl Entries {
    // Nobody has a room yet.
    pub(crate) fn empty() -> Entries
        ensures { AllZero result.firsts × AllZero result.nexts }
    {
        Entries {
            firsts: [0; Job::LINKS],
            nexts: [0; Job::LINKS],
            steps: [0; Job::HOPS],
        }
    }

    // Makes room for the entries of all hops: of each link, as often as it stands among them. At the call both lists are 0 throughout;
    // nobody has entered a room yet. The answer is how many links have one: every hop is on one of them.
    pub(crate) fn make_room(&mut self, hops: &[u16]) -> usize
        requires { Below hops.now links_most × (length hops.now ≤ widest) × AllZero self.old.firsts × AllZero self.old.nexts }
        ensures rooms { Rooms (λ link. occurs link hops.now) self.new.firsts (length hops.now) }
        ensures empty { (link : ℕ) → get_or self.new.nexts link 0 ≡ get_or self.new.firsts link 0 }
        ensures links { OnLinks result hops.now }
    {
        count(hops, &mut self.nexts);
        open(hops.len(), &mut self.firsts, &mut self.nexts)
    }

    // The steps in which the link is entered.
    fn steps_on(&self, link: u16) -> &[u16]
        requires { (link < links_most) × Parts self.now.firsts self.now.nexts (length self.now.steps) }
        ensures { result.now ≡ steps_on self.now.firsts self.now.nexts self.now.steps link }
    {
        let from = usize::from(self.firsts[usize::from(link)]);
        let to = usize::from(self.nexts[usize::from(link)]);
        &self.steps[from..to]
    }

    // Marks each start with which a packet on this path would enter a link in a step in which it is entered.
    fn rule_out(&self, path: &[u16], words: &mut [u64])
        requires { Searchable path.now self.now.firsts self.now.nexts (length self.now.steps) }
        ensures { MarksAdded path.now self.now.firsts self.now.nexts self.now.steps words.old words.new }
    {
        let mut offset = 0;
        for &link in path {
            marks::mark_starts(self.steps_on(link), usize::from(offset), words);
            offset = offset_after(offset, link);
        }
    }

    // The first step at which a packet on this path conflicts with none of those that stand. It is found if the words have a bit for it;
    // what stood in them is gone.
    pub(crate) fn search(&self, path: &[u16], words: &mut [u64]) -> usize
        requires { Searchable path.now self.now.firsts self.now.nexts (length self.now.steps) × (64 * length words.old ≤ numbers_most) }
        ensures { FoundAmong path.now self.now.firsts self.now.nexts self.now.steps (length words.old) result }
    {
        marks::clear(words);
        self.rule_out(path, words);
        marks::first_unmarked(words)
    }

    // Enters the links of a path, the first of them in the step of the start.
    pub(crate) fn enter(&mut self, path: &[u16], start: u16)
        requires { Enterable path.now start self.old.nexts (length self.old.steps) }
        ensures by_index { Counted path.now self.old.nexts self.new.nexts }
        ensures entries { EntriesAdded path.now (claim_steps (place start (path_claims path.now))) self.old.nexts self.old.steps
            self.new.nexts self.new.steps }
        ensures rooms { self.new.firsts ≡ self.old.firsts }
    {
        let mut offset = 0;
        for &link in path {
            let at = self.nexts[usize::from(link)];
            let step = Step::of(start, Hop(offset));
            // `as`: a proof shows that it fits, and `try_from` would make a case of what cannot be
            self.steps[usize::from(at)] = step.0 as u16;
            self.nexts[usize::from(link)] = at + 1;
            offset = offset_after(offset, link);
        }
    }

    // The first hop, in list order, that enters its link in a step in which a hop before it does, if one does.
    pub(crate) fn first_again(
        &mut self,
        links: usize,
        hops: &[u16],
        words: &mut [u64],
    ) -> Option<usize>
        requires { Below hops.now links × Cuttable links self.old.firsts self.old.nexts self.old.steps words.old }
        ensures { (all : List ℕ) → InOrder hops.now all self.old.firsts self.old.nexts self.old.steps → FirstAgain hops.now all result }
    {
        let shorter = cut_at_repeats(links, &self.firsts, &mut self.nexts, &self.steps, words);
        if shorter {
            first_beyond(hops, &mut self.firsts, &self.nexts)
        } else {
            None
        }
    }
}
