// The packets' paths, as they stand in an accepted job: one after the other among the hops, each up to its packet's stop.
ghost use Rattle.std.specs.Prelude.{◌≡◌, ◌≤◌, ◌<◌, length};
ghost use Rattle.planner.specs.PacketsInLists.{SimplePaths, OnPath, begin_from, path_at};

#[derive(Clone, Copy)]
pub(crate) struct Paths<'a> {
    pub(crate) stops: &'a [u16],
    pub(crate) hops: &'a [u16],
    ghost simple: { SimplePaths stops.now hops.now },
}

impl<'a> Paths<'a> {
    // Where packet k's path begins in the hops.
    pub(crate) fn begin(&self, k: usize) -> usize
        requires { k ≤ length self.now.stops.now }
        ensures { result ≡ begin_from 0 self.now.stops.now k }
    {
        if k == 0 {
            0
        } else {
            usize::from(self.stops[k - 1])
        }
    }

    // The links of packet k's path.
    pub(crate) fn path(&self, k: usize) -> &'a [u16]
        requires { k < length self.now.stops.now }
        ensures { result.now ≡ path_at self.now.stops.now self.now.hops.now k }
    {
        let from = self.begin(k);
        let to = usize::from(self.stops[k]);
        &self.hops[from..to]
    }

    // The packet whose path has the hop: as many stop at it or before.
    pub(crate) fn packet_of(&self, hop: usize) -> usize
        requires { hop < length self.now.hops.now }
        ensures { OnPath self.now.stops.now hop result }
    {
        self.stops.partition_point(|&stop| usize::from(stop) <= hop)
    }
}
