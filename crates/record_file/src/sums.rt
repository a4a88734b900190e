// The sum that stands in a record's file, by which a changed word is seen.
ghost use Rattle.std.specs.Prelude.{◌≡◌, [], ◌∷◌};
ghost use Rattle.record_file.specs.Sum.{sum_with, sum_from, sum_of};

use broadword::wrapping_mul;
use elias_fano::builder::Builder;

// The sum with a word more.
fn sum_with(c: u64, w: u64) -> u64
    ensures { result ≡ sum_with c w }
{
    wrapping_mul(c, 1099511628211).wrapping_add(w)
}

fn sum_from(c: u64, words: &[u64]) -> u64
    ensures { result ≡ sum_from c words.now }
{
    let mut d = c;
    for w in words {
        d = sum_with(d, *w);
    }
    d
}

// A builder's numbers.
fn numbers(b: Builder) -> [u64; 4]
    ensures { result ≡ b.universe ∷ b.num_vals ∷ b.num_pushed ∷ b.last ∷ [] }
{
    [b.universe, b.num_vals, b.num_pushed, b.last]
}

// The sum of a builder's numbers and the words of its start. No change of a single one leaves it as it was.
pub fn sum(b: Builder, words: &[u64]) -> u64
    ensures { result ≡ sum_of b words.now }
{
    sum_from(sum_from(1, &numbers(b)), words)
}
