// `sums X..`: the record of the prefix sums of the numbers of a line, as many as a line holds.
ghost use Rattle.std.specs.Prelude.{◌≡◌, ◌≤◌, length, drop};
ghost use Rattle.prefix_summed_elias_fano.specs.Sums.{from_slice_of};
ghost use Rattle.console_text.specs.Line.{fields, values_of};
ghost use Rattle.console_text.specs.Says.{says_of};
ghost use Rattle.console_record.specs.Section.{turn};
ghost use Rattle.console_sums.specs.Commands.{of_whole, whole_within, sums_of};

use console_record::lent::{Lent, within};
use console_record::{Record, alter};
use console_text::line;
use console_text::output::Reply;
use prefix_summed_elias_fano::build::from_slice;

// The items whose sums are built.
#[derive(Clone, Copy)]
struct Sums<'a> {
    items: &'a [u64],
}

impl<'a> Lent for Sums<'a> {
    ghost leaves = { λ b s w. of_whole s (from_slice_of b.items.now w) };

    fn run(self, words: &mut [u64], s: &mut Record) -> Reply {
        alter::built(from_slice(self.items, &mut *words), s)
    }
}

// Of the n numbers after the word that ends at `end`, by way of `items`: a slice that `store` handed back would say no more.
fn stored(
    text: &[u8],
    end: usize,
    n: usize,
    items: &mut [u64],
    buffer: &mut [u64],
    s: &mut Record,
) -> Reply
    requires { (n ≡ length (fields (drop end text.now))) × (n ≤ length items.old) }
    ensures { turn (says_of result) s.new buffer.new ≡ whole_within (from_slice_of (values_of (fields (drop end text.now)))) s.old buffer.old }
{
    line::store(text, end, &mut *items);
    let items = line::first(items, n);
    within(Sums { items }, buffer, s)
}

// A line of 65,536 bytes has fewer than 32,768 numbers.
pub fn answer(text: &[u8], end: usize, buffer: &mut [u64], s: &mut Record) -> Reply
    ensures { turn (says_of result) s.new buffer.new ≡ sums_of (fields (drop end text.now)) s.old buffer.old }
{
    match line::numbers(text, end) {
        Some(r) if r.n <= 32768 => {
            let mut items = [0u64; 32768]; // no heap
            stored(text, end, r.n, &mut items, buffer, s)
        }
        _ => Reply::Bad,
    }
}
