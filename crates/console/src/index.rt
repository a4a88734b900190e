// `index` and `index_select`: the select index over the ones or the zeros of the bits, built anew each time.
use console_text::line;
use console_text::output::{Output, Reply};
use console_text::reply::ToReply;
use darray::inner;
use darray::inner::Sizes;

// What stands after the first n words.
fn after(s: &[u64], n: usize) -> &[u64] {
    s.get(n..).unwrap_or(s)
}

// An entry, in two's complement, after a space.
fn entry(out: &mut Output, e: u64) {
    if e < 1 << 63 {
        out.next_number(e);
    } else {
        out.text(b" -");
        out.number(e.wrapping_neg());
    }
}

// Lane i, of which a word has four from the low end.
fn lane(s: &[u64], i: usize) -> u64 {
    let w = s.get(i / 4).copied().unwrap_or(0);
    (w >> (16 * (i % 4))) & 0xffff
}

// ` | lanes | overflow`, the words of which stand in s.
fn behind(s: Sizes, words: &[u64], out: &mut Output) {
    out.text(b" |");
    for i in 0..s.lanes {
        out.next_number(lane(words, i));
    }
    out.text(b" |");
    out.list(line::first(after(words, s.lanes.div_ceil(4)), s.overflow));
}

// `positions | entries | lanes | overflow` of an index of these sizes.
fn shown(s: Sizes, index: &[u64], out: &mut Output) {
    out.number(s.positions as u64);
    out.text(b" |");
    for e in line::first(index, s.entries) {
        entry(out, *e);
    }
    behind(s, after(index, s.entries), out);
    out.line_end();
}

// Bits of 4,096 words have an index of fewer than 8,192.
fn built(s: Sizes, words: &[u64], len: usize, over_one: bool, out: &mut Output) {
    let mut index = [0u64; 8192]; // no heap
    match inner::build(words, len, over_one, &mut index) {
        Ok(_) => shown(s, &index, out),
        Err(r) => out.reply_line(Reply::Refused(r)),
    }
}

// `index B`
pub fn answer(over_one: bool, words: &[u64], len: usize, out: &mut Output) {
    match inner::measure(words, len, over_one) {
        Ok(s) => built(s, words, len, over_one, out),
        Err(r) => out.reply_line(Reply::Refused(r)),
    }
}

// `index_select B K`
pub fn select(words: &[u64], len: usize, b: u64, k: usize) -> Reply {
    if 1 < b {
        return Reply::Bad;
    }
    let mut index = [0u64; 8192]; // no heap
    darray::select_built(words, len, b == 1, &mut index, k).reply()
}
