// Writing the image of a vector.
ghost use Rattle.std.specs.Prelude.{◌≡◌};
ghost use Rattle.errors.specs.Answer.{leaves, of_result};
ghost use Rattle.sarray.specs.Build.{sparse_from_bits};

use bit_words::checked;
use darray_positions::scan::count_positions;
use elias_fano_from_bits::build::from_ones;
use errors::Refusal;

// Writes the image of the vector of so many bits to the front of the buffer, and leaves its later words. The answer is how many words it has: none for
// zeros, of which nothing is written. (Another function than that of `elias_fano_from_bits`, which refuses zeros.)
pub fn from_bits(
    words: &[u64],
    len: usize,
    rank: bool,
    buffer: &mut [u64],
) -> Result<usize, Refusal>
    ensures { leaves (of_result result) buffer.new ≡ sparse_from_bits words.now len rank buffer.old }
{
    checked(words, len)?;
    let n = count_positions(words, len, true);
    if n == 0 {
        return Ok(0);
    }
    from_ones(words, len, n, rank, &mut *buffer)
}
