// A job as lists: its sizes, steps and hops, what can be refused, and the verdict on its tables.
#![tactic(auto)]

ghost use Rattle.std.specs.Prelude.{◌≡◌, true, [], ◌∷◌, ◌+◌, ◌≤◌, length, slice_get};
ghost use Rattle.counting.specs.Count.{among};
ghost use Rattle.rules.specs.Sizes.{nodes_most, links_most, packets_most, path_most, hops_most, text_most, plan_most, start_most};
ghost use Rattle.rules.specs.Network.{link_at, paths};
ghost use Rattle.rules.specs.Tables.{link_verdict, walk as walk_verdict, packet_verdict, links_verdict, packets_verdict, stops_agree, tables as tables_verdict};
ghost use Rattle.rules.specs.Answers.{starts_verdict, started_verdict};
ghost use Rattle.job.specs.Lists.{network_in, job_in, link_found, is_node, entered, lists_agree, sizes_fit};
ghost use Rattle.job.specs.Told.{number_place, verdict_of};
ghost use Rattle.job.specs.Visited.{mark_of, with_visit, MarkedAs};

// The counts of a job whose lists stand beside it.
#[derive(Clone, Copy, Debug, PartialEq, Eq)]
pub struct Job {
    pub nodes: u16,
    pub links: u16,
    pub packets: u16,
    pub hops: u16,
}

// The sizes are constants of the job's type: document 01 names this form.
impl Job {
    // nodes are 1 to this
    pub const NODES: usize = 1024;
    // links from node to node
    pub const LINKS: usize = 4096;
    // packets, each with its path
    pub const PACKETS: usize = 1024;
    // hops of one path are 1 to this
    pub const PATH: usize = 255;
    // hops of all paths together
    pub const HOPS: usize = 16384;
    // bytes of a job's text, and of a plan's that is read back
    pub const TEXT: usize = 65535;
    // bytes that no plan's text exceeds
    pub const PLAN: usize = 19473;
    // the latest start that may be handed in
    pub const START: u16 = 32767;

    // Each is the number of that name in the rules. There is nothing to do: the clauses are what is said.
    pub fn sizes()
        ensures nodes { Job.NODES ≡ nodes_most }
        ensures links { Job.LINKS ≡ links_most }
        ensures packets { Job.PACKETS ≡ packets_most }
        ensures path { Job.PATH ≡ path_most }
        ensures hops { Job.HOPS ≡ hops_most }
        ensures text { Job.TEXT ≡ text_most }
        ensures plan { Job.PLAN ≡ plan_most }
        ensures start { Job.START ≡ start_most }
    {}
}

// Words with a bit for each node of a job.
const NODE_WORDS: usize = Job::NODES / 64;

// A position along a path, or the one behind its last hop, which is how many it has. It and the step are tuple structs: document 01 names
// this form.
#[derive(Clone, Copy, Debug, PartialEq, Eq)]
pub struct Hop(pub u16);

// A step of the clock.
#[derive(Clone, Copy, Debug, PartialEq, Eq)]
pub struct Step(pub u32);

impl Step {
    // A step comes of a start and a hop position, and of nothing else.
    pub fn of(start: u16, hop: Hop) -> Step
        ensures { result.0 ≡ start + hop.0 }
    {
        Step(u32::from(start) + u32::from(hop.0))
    }
}

// What can be refused, with its place: a line of a text, a link or a packet.
#[derive(Clone, Copy, Debug, PartialEq, Eq)]
pub enum Refusal {
    TextTooLong,
    BadForm(u32),
    Size(u32),
    NoNode(u32),
    SelfLink(u32),
    NoLink(u32),
    NotLeaving(u32),
    Revisited(u32),
    Disagree,
    ShortRoom,
    StartCount,
    LateStart(u32),
    NoLead,
    NotFollowing(u32),
    NoHops(u32),
}

impl Refusal {
    // The number that the papers give it, by document 01, and by document 02 for those of its requests, and its place. That is 0, and
    // no `None`, where it has none: document 01 says so.
    fn number_place(self) -> (u32, u32)
        ensures { result ≡ number_place self }
    {
        match self {
            Refusal::TextTooLong => (1, 0),
            Refusal::BadForm(line) => (2, line),
            Refusal::Size(place) => (3, place),
            Refusal::NoNode(place) => (4, place),
            Refusal::SelfLink(place) => (5, place),
            Refusal::NoLink(place) => (6, place),
            Refusal::NotLeaving(place) => (7, place),
            Refusal::Revisited(place) => (8, place),
            Refusal::Disagree => (9, 0),
            Refusal::ShortRoom => (10, 0),
            Refusal::StartCount => (11, 0),
            Refusal::LateStart(place) => (12, place),
            Refusal::NoLead => (13, 0),
            Refusal::NotFollowing(line) => (14, line),
            Refusal::NoHops(place) => (15, place),
        }
    }

    pub fn number(self) -> u32
        ensures { result ≡ (number_place self).0 }
    {
        self.number_place().0
    }

    pub fn place(self) -> u32
        ensures { result ≡ (number_place self).1 }
    {
        self.number_place().1
    }
}

// The nodes of a network, and of each link the node it leaves and the node it enters.
#[derive(Clone, Copy)]
pub struct Network<'a> {
    pub nodes: u16,
    pub origins: &'a [u16],
    pub ends: &'a [u16],
}

// A job: its network, of each packet the node it starts from and where its path stops in the hops, and the links of all paths.
#[derive(Clone, Copy)]
pub struct JobLists<'a> {
    pub network: Network<'a>,
    pub sources: &'a [u16],
    pub stops: &'a [u16],
    pub hops: &'a [u16],
}

// One link: its nodes, then that they differ.
#[tactic(auto, unfolding(rules::specs::Tables::link_verdict))]
pub fn link_verdict(nodes: u16, from: u16, to: u16, place: u32) -> Result<(), Refusal>
    ensures { verdict_of result ≡ link_verdict nodes place from to }
{
    if from >= nodes || to >= nodes {
        return Err(Refusal::NoNode(place));
    }
    if from == to {
        return Err(Refusal::SelfLink(place));
    }
    Ok(())
}

// Whether the link is there, and enters the node.
fn enters(ends: &[u16], link: u16, node: u16) -> bool
    ensures { result ≡ is_node (slice_get ends.now link) node }
{
    ends.get(usize::from(link)) == Some(&node)
}

// Whether the node is the source, or one that the links enter.
fn visited(ends: &[u16], links: &[u16], source: u16, node: u16) -> bool
    ensures { result ≡ among node (source ∷ entered ends.now links.now) }
{
    source == node || links.iter().any(|&link| enters(ends, link, node))
}

// The number by which a node is marked. Often a path goes on to a node of a neighbouring number, and these have their marks in different
// words: one that was just written can be slow to read.
#[tactic(auto, unfolding(crate::specs::Visited::mark_of))]
fn mark_of(node: usize) -> usize
    ensures { result ≡ mark_of node }
{
    node % NODE_WORDS * 64 + node / NODE_WORDS
}

// Marks a node as visited, where it has a mark: a node of a job does.
#[tactic(auto, unfolding(crate::specs::Visited::with_visit))]
fn visit(words: &mut [u64], node: u16)
    ensures { words.new ≡ with_visit words.old node }
{
    let n = usize::from(node);
    if n < Job::NODES {
        marks::mark(words, mark_of(n));
    }
}

// Whether the node is the source, or one that the links enter: by its mark, where it has one.
fn seen(words: &[u64], ends: &[u16], links: &[u16], source: u16, node: u16) -> bool
    requires { MarkedAs (source ∷ entered ends.now links.now) words.now }
    ensures { result ≡ among node (source ∷ entered ends.now links.now) }
{
    let asked = usize::from(node);
    if asked < Job::NODES {
        return marks::is_marked(words, mark_of(asked));
    }
    visited(ends, links, source, node)
}

impl Network<'_> {
    // Where a link leaves and where it goes, if there is one of this number.
    fn link(&self, number: u16) -> Option<(u16, u16)>
        ensures { link_found result ≡ link_at (network_in self.now) number }
    {
        let number = usize::from(number);
        Some((*self.origins.get(number)?, *self.ends.get(number)?))
    }

    // The path hop by hop, from its source.
    fn walk(&self, path: &[u16], source: u16, place: u32) -> Result<(), Refusal>
        ensures { verdict_of result ≡ walk_verdict (network_in self.now) place source (source ∷ []) path.now }
    {
        let mut words = [0u64; NODE_WORDS];
        visit(&mut words, source);
        let mut reached = source;
        for (p, &link) in path.iter().enumerate() {
            let Some((from, to)) = self.link(link) else {
                return Err(Refusal::NoLink(place));
            };
            if from != reached {
                return Err(Refusal::NotLeaving(place));
            }
            if seen(&words, self.ends, &path[..p], source, to) {
                return Err(Refusal::Revisited(place));
            }
            visit(&mut words, to);
            reached = to;
        }
        Ok(())
    }

    // One packet: its path's length, its source, that it has hops, then each of them. It becomes part of the loop over the packets: as a call
    // for each, the look at the tables of short paths took half as long again.
    #[inline(always)]
    #[tactic(auto, unfolding(rules::specs::Tables::packet_verdict))]
    pub fn packet_verdict(&self, path: &[u16], source: u16, place: u32) -> Result<(), Refusal>
        ensures { verdict_of result ≡ packet_verdict (network_in self.now) place source path.now }
    {
        if path.len() > Job::PATH {
            return Err(Refusal::Size(place));
        }
        if source >= self.nodes {
            return Err(Refusal::NoNode(place));
        }
        if path.is_empty() {
            return Err(Refusal::NoHops(place));
        }
        self.walk(path, source, place)
    }

    // The links in order.
    fn links_verdict(&self) -> Result<(), Refusal>
        requires { length self.now.origins.now ≤ links_most }
        ensures { verdict_of result ≡ links_verdict self.now.nodes 0 self.now.origins.now self.now.ends.now }
    {
        for (l, (&from, &to)) in self.origins.iter().zip(self.ends).enumerate() {
            // `as` here and below: a proof shows that it fits, and `try_from` would make a case of what cannot be
            link_verdict(self.nodes, from, to, l as u32)?;
        }
        Ok(())
    }
}

// Whether the stops never fall, and the last is the number of hops.
fn stops_agree(stops: &[u16], hops: usize) -> bool
    ensures { result ≡ stops_agree 0 stops.now hops }
{
    let last = stops.last().copied().unwrap_or(0);
    stops.is_sorted_by(|a, b| a <= b) && usize::from(last) == hops
}

// The lowest packet whose start is too late.
fn starts_verdict(starts: &[u16]) -> Result<(), Refusal>
    requires { length starts.now ≤ packets_most }
    ensures { verdict_of result ≡ starts_verdict 0 starts.now }
{
    match starts.iter().position(|&start| start > Job::START) {
        Some(packet) => Err(Refusal::LateStart(packet as u32)),
        None => Ok(()),
    }
}

impl JobLists<'_> {
    // The packets in order.
    fn packets_verdict(&self) -> Result<(), Refusal>
        requires { (length self.now.stops.now ≡ length self.now.sources.now) × (length self.now.sources.now ≤ packets_most)
            × (stops_agree 0 self.now.stops.now (length self.now.hops.now) ≡ true) }
        ensures { verdict_of result ≡ packets_verdict (network_in self.now.network) 0 self.now.sources.now (paths (job_in self.now)) }
    {
        let mut from = 0;
        // by number, and no `zip`: to go along two lists and to count is more than the registers hold, and took a tenth more instructions
        for k in 0..self.sources.len() {
            let to = usize::from(self.stops[k]);
            let path = &self.hops[from..to];
            let source = self.sources[k];
            self.network.packet_verdict(path, source, k as u32)?;
            from = to;
        }
        Ok(())
    }

    // Whether the lists are of one job: an end for each origin, a stop for each source, and stops that agree with the hops.
    fn lists_agree(&self) -> bool
        ensures { result ≡ lists_agree (job_in self.now) }
    {
        self.network.origins.len() == self.network.ends.len()
            && self.sources.len() == self.stops.len()
            && stops_agree(self.stops, self.hops.len())
    }

    // Whether each size is within its bounds.
    fn sizes_fit(&self) -> bool
        ensures { result ≡ sizes_fit (job_in self.now) }
    {
        (1..=Job::NODES).contains(&usize::from(self.network.nodes))
            && self.network.origins.len() <= Job::LINKS
            && self.sources.len() <= Job::PACKETS
            && self.hops.len() <= Job::HOPS
    }

    // The tables of a job: that they agree, their sizes, then links and packets.
    #[tactic(auto, using(crate::proofs::VerdictLoops::tables_in_order))]
    pub fn tables(&self) -> Result<(), Refusal>
        ensures { verdict_of result ≡ tables_verdict (job_in self.now) }
    {
        if !self.lists_agree() {
            return Err(Refusal::Disagree);
        }
        if !self.sizes_fit() {
            return Err(Refusal::Size(0));
        }
        self.network.links_verdict()?;
        self.packets_verdict()
    }

    // A job with starts made elsewhere: its tables, a start for each packet, none too late.
    #[tactic(auto, unfolding(rules::specs::Answers::started_verdict))]
    pub fn started(&self, starts: &[u16]) -> Result<(), Refusal>
        ensures { verdict_of result ≡ started_verdict (job_in self.now) starts.now }
    {
        self.tables()?;
        if starts.len() != self.sources.len() {
            return Err(Refusal::StartCount);
        }
        starts_verdict(starts)
    }
}
