// The commands that write a list, each a whole line.
ghost use Rattle.std.specs.Prelude.{◌≡◌, take};
ghost use Rattle.console_text.specs.Gathered.{with_byte, with_numbers};
ghost use Rattle.console_text.specs.Held.{held};
ghost use Rattle.console_record.specs.Section.{numbers_in};

use crate::Record;
use console_text::line;
use console_text::output::Output;

// `words`
pub fn words(buffer: &[u64], s: Record, out: &mut Output)
    ensures { held out.new ≡ with_byte (with_numbers (held out.old) (take s.lent buffer.now)) 10 }
{
    out.numbers(line::first(buffer, s.lent));
    out.line_end();
}

// `builder`
pub fn builder(s: Record, out: &mut Output)
    ensures { held out.new ≡ with_byte (with_numbers (held out.old) (numbers_in s)) 10 }
{
    let b = s.builder;
    out.numbers(&[b.universe, b.num_vals, b.num_pushed, b.last]);
    out.line_end();
}
