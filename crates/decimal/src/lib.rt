// Decimal text to a u64 and back. `parse` passes over the text twice at most, `write` divides twice for each digit.
#![tactic(auto)]

ghost use Rattle.std.specs.Prelude.{true, ◌++◌, ◌≡◌, ◌+◌, ◌≤◌, length, take, drop};
ghost use Rattle.decimal.specs.Decimal.{all_digits, value_from, sized, parse_of, digits, num_digits, left, write_of};

// Why a text is no number.
#[derive(Clone, Copy, Debug, PartialEq, Eq)]
pub enum ParseError {
    // No byte at all, or one that is no digit.
    OutOfForm,
    // 2^64 or more.
    TooLarge,
}

// The number that the whole text spells. Leading zeros are allowed.
pub fn parse(text: &[u8]) -> Result<u64, ParseError>
    ensures { result ≡ parse_of text.now }
{
    if text.is_empty() || !all_digits(text) {
        return Err(ParseError::OutOfForm);
    }
    value(text)
}

// Writes the digits of x, with no leading zero, from `at` on, and gives the place after the last. None: they do not fit, and nothing is written.
// (No Display: `write_of` says of each byte of `out` what it is.)
pub fn write(x: u64, out: &mut [u8], at: usize) -> Option<usize>
    ensures { left result out.new ≡ write_of x out.old at }
{
    let n = count(x);
    if out.len() < at || out.len() - at < n {
        return None;
    }
    fill(x, n, &mut *out, at);
    Some(at + n)
}

fn all_digits(text: &[u8]) -> bool
    ensures { result ≡ all_digits text.now }
{
    text.iter().all(|b| b.is_ascii_digit())
}

// What digits alone spell.
fn value(text: &[u8]) -> Result<u64, ParseError>
    requires { all_digits text.now ≡ true }
    ensures { result ≡ sized (value_from 0 text.now) }
{
    let mut x: u64 = 0;
    for b in text {
        let d = u64::from(*b - b'0');
        if (u64::MAX - d) / 10 < x {
            return Err(ParseError::TooLarge);
        }
        x = x * 10 + d;
    }
    Ok(x)
}

// How many digits x has.
fn count(x: u64) -> usize
    ensures value { result ≡ num_digits 19 x }
    ensures upper_bound { result ≤ 20 }
{
    let mut rest = x;
    for k in 1..20 {
        if rest < 10 {
            return k;
        }
        rest /= 10;
    }
    20
}

// Writes the last n digits of x from `at` on, the last one first.
fn fill(x: u64, n: usize, out: &mut [u8], at: usize)
    requires { at + n ≤ length out.old }
    ensures { out.new ≡ take at out.old ++ (digits n x ++ drop (at + n) out.old) }
{
    let mut rest = x;
    for i in (0..n).rev() {
        out[at + i] = b'0' + (rest % 10) as u8;
        rest /= 10;
    }
}
