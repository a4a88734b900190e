// Words as bytes and back, little end first, as many as both have room for.
ghost use Rattle.std.specs.Prelude.{◌≡◌, ◌+◌, ◌≤◌, length, take, drop};
ghost use Rattle.std.proofs.lemmas.List.Edits.{sets};
ghost use Rattle.word_files.specs.Bytes.{digits, number as number·of, filled, pack_of, unpack_of};

fn put_word(bytes: &mut [u8], at: usize, w: u64)
    requires { at + 8 ≤ length bytes.old }
    ensures { bytes.new ≡ sets bytes.old at (digits 8 w) }
{
    bytes[at..at + 8].copy_from_slice(&w.to_le_bytes());
}

fn word_at(bytes: &[u8], at: usize) -> u64
    requires { at + 8 ≤ length bytes.now }
    ensures { result ≡ number·of (take 8 (drop at bytes.now)) }
{
    u64::from_le_bytes(*bytes[at..].first_chunk().unwrap())
}

// Packs the words at the front of the bytes, and answers how many words it packed.
pub fn pack(words: &[u64], bytes: &mut [u8]) -> usize
    ensures { filled result bytes.new ≡ pack_of words.now bytes.old }
{
    let n = words.len().min(bytes.len() / 8);
    for i in 0..n {
        put_word(&mut *bytes, 8 * i, words[i]);
    }
    n
}

// Unpacks the bytes to the front of the words, and answers how many words it unpacked.
pub fn unpack(bytes: &[u8], words: &mut [u64]) -> usize
    ensures { filled result words.new ≡ unpack_of bytes.now words.old }
{
    let n = words.len().min(bytes.len() / 8);
    for i in 0..n {
        words[i] = word_at(bytes, 8 * i);
    }
    n
}
