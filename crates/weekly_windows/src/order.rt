// The windows of a week in order, and whether a second of the week is in one of them.
//
// Windows that overlap or touch are joined. What is left is kept as the seconds of the week where a window begins or ends, in turn and in order, the cuts; the end of the
// week stands after them. A second is in a window if the number of cuts at or below it is odd. For each part of the week of 4,096 seconds a table says how many
// cuts are at or below its first second, so the next few are compared and no others: two, mostly.
//
// But for `are_windows` the functions here are inner: they demand windows in form, or cuts as `order` leaves them.
ghost use Rattle.std.specs.Prelude.{true, ◌&&◌, ◌≡◌, [], ◌+◌, ◌%◌, ◌≤◌, ◌<◌, leb, ltb, length, take};
ghost use Rattle.broadword.specs.Fields.{flag};
ghost use Rattle.weekly_windows.specs.Ordering.{met_of, inserted, joined, Ordered, AllUpto, CutsUpto, PartStarts};
ghost use Rattle.weekly_windows.specs.Windows.{in_form, are_windows, in_some};

// The seconds of a week.
const WEEK: u64 = 604800;

// How many words windows have at most.
const MAX_WORDS: usize = 64;

// The week is cut into parts of so many seconds, and has so many of them.
const PART: u64 = 4096;

const PARTS: usize = 148;

// Inside the crate: what two windows that meet leave. The first of them is done with, if they do not touch; from x to y is what goes on.
#[derive(Clone, Copy)]
pub struct Met {
    pub done: Option<(u64, u64)>,
    pub x: u64,
    pub y: u64,
}

// The n cuts, and for each part of the week how many of them are at or below its first second.
#[derive(Clone, Copy)]
pub struct Cuts<'a> {
    pub at: &'a [u64; 65],
    pub n: usize,
    pub first: &'a [usize; 148],
    pub ghost ordered: { Ordered at.now n },
    pub ghost starts: { PartStarts at.now n first.now },
}

// Whether a pair is a window: the first second below the second one, and that at most the end of the week.
fn is_window(a: u64, b: u64) -> bool
    ensures { result ≡ (ltb a b && leb b 604800) }
{
    if a < b {
        return b <= WEEK;
    }
    false
}

// Whether the words are pairs, each a window. Pairs by number: with `chunks_exact(2).all` the proof stayed open, as its clause tells chunks by place, not down the list.
fn in_form(words: &[u64]) -> bool
    ensures { result ≡ in_form words.now }
{
    for k in 0..words.len() / 2 {
        if !is_window(words[2 * k], words[2 * k + 1]) {
            return false;
        }
    }
    words.len() % 2 == 0
}

// Whether the words are windows: 32 at most, two words each.
pub fn are_windows(words: &[u64]) -> bool
    ensures { result ≡ are_windows words.now }
{
    if MAX_WORDS < words.len() {
        return false;
    }
    in_form(words)
}

// The window from x to y meets the next of some windows in order, from c to d.
fn meet(x: u64, y: u64, c: u64, d: u64) -> Met
    ensures { result ≡ met_of x y c d }
{
    if d < x {
        return Met {
            done: Some((c, d)),
            x,
            y,
        };
    }
    if y < c {
        return Met {
            done: Some((x, y)),
            x: c,
            y: d,
        };
    }
    Met {
        done: None,
        x: x.min(c),
        y: y.max(d),
    }
}

// The window from a to b joins the first `len` words, windows in order; how many words there are then. One pass: what is written never passes what is read.
fn insert(cuts: &mut [u64; 65], len: usize, a: u64, b: u64) -> usize
    requires { (length cuts.old ≡ 65) × (len % 2 ≡ 0) × (len ≤ 62) }
    ensures { (length cuts.new ≡ 65) × (result % 2 ≡ 0) × (result ≤ len + 2) × (take result cuts.new ≡ inserted a b (take len cuts.old)) }
{
    let mut x = a;
    let mut y = b;
    let mut n: usize = 0;
    for k in 0..len / 2 {
        let m = meet(x, y, cuts[2 * k], cuts[2 * k + 1]);
        if let Some((first, last)) = m.done {
            cuts[n] = first;
            cuts[n + 1] = last;
            n += 2;
        }
        x = m.x;
        y = m.y;
    }
    cuts[n] = x;
    cuts[n + 1] = y;
    n + 2
}

// The windows in order, joined, and the end of the week after them; how many words they have.
pub fn order(windows: &[u64], cuts: &mut [u64; 65]) -> usize
    requires { (are_windows windows.now ≡ true) × (length cuts.old ≡ 65) }
    ensures { Ordered cuts.new result × (take result cuts.new ≡ joined [] windows.now) }
{
    let mut n: usize = 0;
    for k in 0..windows.len() / 2 {
        n = insert(cuts, n, windows[2 * k], windows[2 * k + 1]);
    }
    cuts[n] = WEEK;
    n
}

// How many cuts are at or below the second r of the week; those before `from` are. The number of cuts, n, is for the proof alone: the end of the week ends the search.
// A `while`, and no `for`: a range would test a bound besides.
fn cuts_upto(cuts: &[u64; 65], n: usize, from: usize, r: u64) -> usize
    requires { Ordered cuts.now n × (r < 604800) × (from ≤ n) × AllUpto cuts.now r from }
    ensures { CutsUpto cuts.now n r result }
{
    let mut k = from;
    while cuts[k] <= r {
        k += 1;
    }
    k
}

// For each part of the week, how many cuts are at or below its first second.
pub fn part_starts(cuts: &[u64; 65], n: usize, first: &mut [usize; 148])
    requires { Ordered cuts.now n × (length first.old ≡ 148) }
    ensures { PartStarts cuts.now n first.new }
{
    let mut k: usize = 0;
    for q in 0..PARTS {
        k = cuts_upto(cuts, n, k, q as u64 * PART);
        first[q] = k;
    }
}

impl<'a> Cuts<'a> {
    // 1 if the time is in a window, else 0. The first cut after the part's start is passed without a branch, which would be guessed wrong half the time.
    pub fn is_inside(&self, t: u64) -> usize
        ensures { result ≡ flag (in_some (take self.now.n self.now.at.now) (t % 604800)) }
    {
        let r = t % WEEK;
        let q = (r / PART) as usize;
        let k = self.first[q];
        let from = k + usize::from(self.at[k] <= r);
        cuts_upto(self.at, self.n, from, r) % 2
    }
}
