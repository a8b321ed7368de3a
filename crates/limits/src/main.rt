// The sessions at the limits, on lists: what is asked, the refusal's number and place (0 0 where there is none), and the
// starts added up. The output is held to the file stdout.
#![tactic(auto)]

ghost use Rattle.std.specs.Prelude.{◌<◌};

use job::{JobLists, Network, Refusal};
use planner::Clash;
use std::array;

fn show(rt: &impl Print, name: &str, number: u32, place: u32, sum: u64) {
    let _ = println!(rt; "{name} {number} {place} {sum}");
}

fn show_verdict(rt: &impl Print, name: &str, verdict: Result<(), Refusal>, sum: u64) {
    match verdict {
        Ok(()) => show(rt, name, 0, 0, sum),
        Err(refusal) => show(rt, name, refusal.number(), refusal.place(), sum),
    }
}

// A clash is shown by 100, where a refusal's number would stand, and by its later and earlier packet.
fn show_checked(rt: &impl Print, name: &str, checked: Result<Option<Clash>, Refusal>) {
    match checked {
        Ok(None) => show(rt, name, 0, 0, 0),
        Ok(Some(clash)) => show(
            rt,
            name,
            100,
            u32::from(clash.later),
            u64::from(clash.earlier),
        ),
        Err(refusal) => show(rt, name, refusal.number(), refusal.place(), 0),
    }
}

// The starts added up; no `sum`: its bound would have to be a `requires`.
fn total(starts: &[u16]) -> u64 {
    starts
        .iter()
        .fold(0, |sum: u64, &start| sum.saturating_add(u64::from(start)))
}

// What a list of a job holds at place i: 0, 1, 2, ..
fn number(i: usize) -> u16
    requires { i < 65536 }
{
    // `as` here and below: a proof shows that it fits, and `try_from` would make a case of what cannot be
    i as u16
}

// 1, 2, 3, ..
fn next(i: usize) -> u16
    requires { i < 65535 }
{
    (i + 1) as u16
}

// A stop after every sixteen hops.
fn sixteenth(i: usize) -> u16
    requires { i < 4095 }
{
    ((i + 1) * 16) as u16
}

// One link, from node 0 to node 1.
fn one_link<'a>() -> Network<'a> {
    Network {
        nodes: 2,
        origins: &[0],
        ends: &[1],
    }
}

// Packets of one hop, all over one link; at last one of them has none.
fn packets(rt: &impl Print) {
    let most = [0; 1024];
    let over = [0; 1025];
    let mut stops: [u16; 1024] = array::from_fn(next);
    let stops_over: [u16; 1025] = array::from_fn(next);
    let mut starts = [7; 1025];
    on_one_link(rt, "packets-1024", &most, &stops, &most, &mut starts);
    on_one_link(rt, "packets-1025", &over, &stops_over, &over, &mut starts);
    on_one_link(rt, "room-1023", &most, &stops, &most, &mut [7; 1023]);
    stops[1023] = 1023;
    on_one_link(
        rt,
        "last-without-hops",
        &most,
        &stops,
        &most[..1023],
        &mut starts,
    );
}

fn on_one_link<'a>(
    rt: &impl Print,
    name: &str,
    sources: &'a [u16],
    stops: &'a [u16],
    hops: &'a [u16],
    starts: &mut [u16],
) {
    let lists = JobLists {
        network: one_link(),
        sources,
        stops,
        hops,
    };
    let planned = planner::plan(&lists, starts);
    show_verdict(rt, name, planned, total(starts));
}

// One path along a line of nodes.
fn paths(rt: &impl Print) {
    let links: [u16; 256] = array::from_fn(number);
    let ends: [u16; 256] = array::from_fn(next);
    let network = Network {
        nodes: 257,
        origins: &links,
        ends: &ends,
    };
    path(rt, "path-255", network, &links[..255], &[255]);
    path(rt, "path-256", network, &links, &[256]);
}

fn path<'a>(rt: &impl Print, name: &str, network: Network<'a>, hops: &'a [u16], stops: &'a [u16]) {
    let lists = JobLists {
        network,
        sources: &[0],
        stops,
        hops,
    };
    let mut starts = [9];
    let planned = planner::plan(&lists, &mut starts);
    show_verdict(rt, name, planned, total(&starts));
}

// All packets on the same sixteen links, for the tables, and for starts that clash at once; and one hop more, in the last path.
fn hops_in_all(rt: &impl Print) {
    let links: [u16; 17] = array::from_fn(number);
    let ends: [u16; 17] = array::from_fn(next);
    let zeros = [0; 1024];
    let stops: [u16; 1024] = array::from_fn(sixteenth);
    let mut stops_over = stops;
    stops_over[1023] = 16385;
    let hops: [u16; 16384] = array::from_fn(|i| (i % 16) as u16);
    let hops_over: [u16; 16385] = array::from_fn(|i| (i % 16 + i / 16384 * 16) as u16);
    let network = Network {
        nodes: 18,
        origins: &links,
        ends: &ends,
    };
    let lists = JobLists {
        network,
        sources: &zeros,
        stops: &stops,
        hops: &hops,
    };
    show_verdict(rt, "hops-16384", lists.tables(), 0);
    show_checked(rt, "all-at-0", planner::check(&lists, &zeros));
    let over = JobLists {
        network,
        sources: &zeros,
        stops: &stops_over,
        hops: &hops_over,
    };
    show_verdict(rt, "hops-16385", over.tables(), 0);
}

// Starts at their latest, and one later.
fn late_starts(rt: &impl Print) {
    let lists = JobLists {
        network: one_link(),
        sources: &[0, 0],
        stops: &[1, 2],
        hops: &[0, 0],
    };
    for (name, starts) in [
        ("start-32767", [0, 32767]),
        ("start-32768", [0, 32768]),
        ("both-late", [65535, 32768]),
    ] {
        show_checked(rt, name, planner::check(&lists, &starts));
    }
    show_checked(rt, "one-start", planner::check(&lists, &[65535]));
}

// Nodes, links, packets and hops at their greatest together: a ring of 1,024 nodes with four links out of each, one to four nodes on, and two
// packets from every second node, each sixteen nodes on.
fn greatest(rt: &impl Print) {
    let origins: [u16; 4096] = array::from_fn(|i| (i / 4) as u16);
    let ends: [u16; 4096] = array::from_fn(|i| ((i / 4 + i % 4 + 1) % 1024) as u16);
    let sources: [u16; 1024] = array::from_fn(|i| (i / 2 * 2) as u16);
    let stops: [u16; 1024] = array::from_fn(sixteenth);
    let hops: [u16; 16384] = array::from_fn(|i| ((i / 32 * 2 + i % 16) % 1024 * 4) as u16);
    let mut ring = JobLists {
        network: Network {
            nodes: 1024,
            origins: &origins,
            ends: &ends,
        },
        sources: &sources,
        stops: &stops,
        hops: &hops,
    };
    let mut starts = [5; 1024];
    let planned = planner::plan(&ring, &mut starts);
    show_verdict(rt, "greatest", planned, total(&starts));
    show_checked(rt, "its-check", planner::check(&ring, &starts));
    ring.network.nodes = 1025;
    show_verdict(rt, "nodes-1025", ring.tables(), 0);
}

// Lists of two links and two packets that are no tables, and no lists at all.
fn no_tables(rt: &impl Print) {
    two_of_each(rt, "ends-fewer", &[0], &[0, 0], &[0, 0]);
    two_of_each(rt, "stops-fewer", &[0, 0], &[0], &[0, 0]);
    two_of_each(rt, "stops-fall", &[0, 0], &[1, 0], &[]);
    two_of_each(rt, "last-stop", &[0, 0], &[0, 0], &[0, 0]);
    let nothing = JobLists {
        network: Network {
            nodes: 0,
            origins: &[],
            ends: &[],
        },
        sources: &[],
        stops: &[],
        hops: &[],
    };
    show_verdict(rt, "no-nodes", nothing.tables(), 0);
}

fn two_of_each<'a>(
    rt: &impl Print,
    name: &str,
    ends: &'a [u16],
    stops: &'a [u16],
    hops: &'a [u16],
) {
    let lists = JobLists {
        network: Network {
            nodes: 2,
            origins: &[0, 0],
            ends,
        },
        sources: &[0, 0],
        stops,
        hops,
    };
    show_verdict(rt, name, lists.tables(), 0);
}

fn main(rt: HostRuntime) {
    packets(&rt);
    paths(&rt);
    hops_in_all(&rt);
    late_starts(&rt);
    greatest(&rt);
    no_tables(&rt);
}
