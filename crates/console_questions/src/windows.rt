// `windows S E W..`: how many times of a span are in weekly windows, of the numbers of a line.
ghost use Rattle.std.specs.Prelude.{◌≡◌, ◌≤◌, length, drop};
ghost use Rattle.console_text.specs.Line.{fields, values_of};
ghost use Rattle.console_text.specs.Says.{says_of};
ghost use Rattle.console_questions.specs.Questions.{fits_windows_of, count_says, windows_of};

use console_text::line;
use console_text::line::Arguments;
use console_text::output::Reply;
use console_text::reply::ToReply;
use weekly_windows::count;

// A span, and no more words than a line may list.
fn fits(r: Arguments) -> bool
    ensures { result ≡ fits_windows_of r }
{
    2 <= r.n && r.n <= 4098
}

// The span, and the words after it.
fn counted(numbers: &[u64], image: &[u64]) -> Reply
    requires { 2 ≤ length numbers.now }
    ensures { says_of result ≡ count_says image.now numbers.now }
{
    count(image, &numbers[2..], numbers[0], numbers[1]).reply()
}

// Of the n numbers after the word that ends at `end`, by way of `numbers`: a slice that `store` handed back would say no more.
fn stored(text: &[u8], end: usize, n: usize, numbers: &mut [u64], image: &[u64]) -> Reply
    requires { (n ≡ length (fields (drop end text.now))) × (2 ≤ n) × (n ≤ length numbers.old) }
    ensures { says_of result ≡ count_says image.now (values_of (fields (drop end text.now))) }
{
    line::store(text, end, &mut *numbers);
    counted(line::first(numbers, n), image)
}

// The line is in form, or it is `bad command`.
pub fn answer(text: &[u8], end: usize, image: &[u64]) -> Reply
    ensures { says_of result ≡ windows_of (fields (drop end text.now)) image.now }
{
    match line::numbers(text, end) {
        Some(r) if fits(r) => {
            let mut numbers = [0u64; 4098]; // no heap
            stored(text, end, r.n, &mut numbers, image)
        }
        _ => Reply::Bad,
    }
}
