// Entries that repeat one before them: each link's steps are compared with the one before and, unless each is later, marked one by one, and
// the marks wiped; where a step was marked already, the hops are walked, in list order.
ghost use Rattle.std.specs.Prelude.{◌≡◌, false, ◌↔◌, IsTrue, ◌-◌, ◌≤◌, length, take, drop};
ghost use Rattle.std.specs.Option.{unwrap_or};
ghost use Rattle.std.specs.List.Sorted.{IsStrictlyIncreasing};
ghost use Rattle.marks.specs.Marks.{unmarked};
ghost use Rattle.planner.specs.Cuts.{FirstRepeat, MarksWithin, Markable, Cuttable, Cut, SameParts, Walkable, FirstBeyond};

use marks::Word;

// Marks the steps up to the first that is marked already, since it stands among those before it; its place, if there is one. A word stays
// in hand for as long as the steps fall in it, so that no look at it waits for a store.
// `Markable` is a clause and no struct's fact: it ties the steps, which are read, to the words, which are lent for writing.
fn mark_to_repeat(steps: &[u16], words: &mut [u64]) -> Option<usize>
    requires { Markable steps.now words.old }
    ensures first_repeat { FirstRepeat steps.now result }
    ensures marks { MarksWithin (take (unwrap_or result (length steps.now)) steps.now) words.new }
{
    let mut word = Word::take(words, 0);
    for (place, &step) in steps.iter().enumerate() {
        let step = usize::from(step);
        word = word.change(step, words);
        if word.is_marked(step) {
            word.put(words);
            return Some(place);
        }
        word = word.with_mark(step);
    }
    word.put(words);
    None
}

// Takes the marks of the steps away, where no word has others.
fn unmark(steps: &[u16], words: &mut [u64])
    requires { MarksWithin steps.now words.old }
    ensures { words.new ≡ unmarked (length words.old) }
{
    for &step in steps {
        marks::wipe(words, usize::from(step));
    }
}

// The place of the first step that stands among those before it, if one does. No mark is left.
fn first_repeat(steps: &[u16], words: &mut [u64]) -> Option<usize>
    requires { Markable steps.now words.old }
    ensures first_repeat { FirstRepeat steps.now result }
    ensures clear { words.new ≡ words.old }
{
    let repeat = mark_to_repeat(steps, words);
    unmark(&steps[..repeat.unwrap_or(steps.len())], words);
    repeat
}

// Whether each step is later than the one before it, so that none repeats another.
fn each_later(steps: &[u16]) -> bool
    ensures { IsTrue result ↔ IsStrictlyIncreasing steps.now }
{
    steps.is_sorted_by(|step, next| step < next)
}

// How far into its part a link's first entry stands that repeats one before it, if one does. Where each is later than the one before it, as
// with packets that follow one another along a path, none does, and no mark is needed.
fn cut(from: u16, to: u16, steps: &[u16], words: &mut [u64]) -> Option<usize>
    requires { (from ≤ to) × (to ≤ length steps.now) × Markable steps.now words.old }
    ensures first_repeat { FirstRepeat (take (to - from) (drop from steps.now)) result }
    ensures clear { words.new ≡ words.old }
{
    let part = &steps[usize::from(from)..usize::from(to)];
    if each_later(part) {
        None
    } else {
        first_repeat(part, words)
    }
}

// Cuts each link's part at its first entry that repeats one before it. Where it answers no, every part is as it was.
// `Cuttable` is a clause and no struct's fact: it ties the entries to the words, which are lent beside them.
pub(crate) fn cut_at_repeats(
    links: usize,
    firsts: &[u16],
    nexts: &mut [u16],
    steps: &[u16],
    words: &mut [u64],
) -> bool
    requires { Cuttable links firsts.now nexts.old steps.now words.old }
    ensures cut { Cut firsts.now nexts.old steps.now nexts.new }
    ensures whole { result ≡ false → SameParts nexts.old nexts.new }
{
    // a flag: every link is cut, and an iterator's `any` would stop at the first that is
    let mut shorter = false;
    // by number: of what is written through an adapter of `iter_mut`, as `zip`, a proof knows nothing afterwards
    for link in 0..links {
        if let Some(repeat) = cut(firsts[link], nexts[link], steps, words) {
            // `as`: a proof shows that it fits, and `try_from` would make a case of what cannot be
            nexts[link] = firsts[link] + repeat as u16;
            shorter = true;
        }
    }
    shorter
}

// The first hop whose entry lies at its link's cut, if one does. Each hop before it moves its link's place on.
pub(crate) fn first_beyond(hops: &[u16], firsts: &mut [u16], cuts: &[u16]) -> Option<usize>
    requires { Walkable hops.now firsts.old cuts.now }
    ensures { FirstBeyond hops.now firsts.old cuts.now result }
{
    for (hop, &link) in hops.iter().enumerate() {
        let link = usize::from(link);
        if firsts[link] == cuts[link] {
            return Some(hop);
        }
        firsts[link] += 1;
    }
    None
}
