// Columns: each is padded on the left to its width; what is longer takes more.
ghost use Rattle.std.specs.Prelude.{◌≡◌, ◌-◌, length, replicate};
ghost use Rattle.decimal.specs.Decimal.{num_digits};
ghost use Rattle.console_text.specs.Gathered.{with_text, with_number};
ghost use Rattle.console_text.specs.Held.{held};

use console_text::output::Output;

// The byte n times.
pub fn repeated(out: &mut Output, b: u8, n: usize)
    ensures { held out.new ≡ with_text (held out.old) (replicate n b) }
{
    for _ in 0..n {
        out.byte(b);
    }
}

// How many digits x has.
fn digits(x: u64) -> usize
    ensures { result ≡ num_digits 19 x }
{
    let mut text = [0u8; 20];
    decimal::write(x, &mut text, 0).unwrap_or(20)
}

pub fn text(out: &mut Output, width: usize, s: &[u8])
    ensures { held out.new ≡ with_text (with_text (held out.old) (replicate (width - length s.now) 32)) s.now }
{
    repeated(out, b' ', width.saturating_sub(s.len()));
    out.text(s);
}

pub fn number(out: &mut Output, width: usize, x: u64)
    ensures { held out.new ≡ with_number (with_text (held out.old) (replicate (width - num_digits 19 x) 32)) x }
{
    repeated(out, b' ', width.saturating_sub(digits(x)));
    out.number(x);
}

// The number after its sign and before a per cent sign.
pub fn per_cent(out: &mut Output, width: usize, sign: u8, x: u64) {
    repeated(out, b' ', width.saturating_sub(2).saturating_sub(digits(x)));
    out.byte(sign);
    out.number(x);
    out.byte(b'%');
}
