// A line as words with one space between them, and its numbers.
ghost use Rattle.std.specs.Prelude.{◌≡◌, ◌+◌, ◌≤◌, length, take, drop, set};
ghost use Rattle.std.proofs.lemmas.List.Edits.{sets};
ghost use Rattle.decimal.specs.Decimal.{parse_of};
ghost use Rattle.console_text.specs.Line.{up_to, words_in, same_text, place_among, fields, if_at, numbers_from, or_zero, values_of};

// The words after a command as numbers: how many there are, and the first four. `numbers_from` and each section's specs name these fields.
#[derive(Clone, Copy, Debug, PartialEq, Eq)]
pub struct Arguments {
    pub n: usize,
    pub a: u64,
    pub b: u64,
    pub c: u64,
    pub d: u64,
}

// The first place from `from` on that holds the byte, or the end. (The end is no none: its clauses say so, and each caller goes on there.)
pub fn find(text: &[u8], from: usize, b: u8) -> usize
    requires { from ≤ length text.now }
    ensures lower_bound { from ≤ result }
    ensures upper_bound { result ≤ length text.now }
    ensures value { result ≡ from + up_to b (drop from text.now) }
{
    let rest = &text[from..];
    from + rest.iter().position(|x| *x == b).unwrap_or(rest.len())
}

// Where the word that starts at `from` ends. (One call of the above, named for what the sections ask.)
pub fn word_end(line: &[u8], from: usize) -> usize
    requires { from ≤ length line.now }
    ensures lower_bound { from ≤ result }
    ensures upper_bound { result ≤ length line.now }
    ensures value { result ≡ from + up_to 32 (drop from line.now) }
{
    find(line, from, b' ')
}

// Whether a word is this one.
pub fn same(a: &[u8], b: &[u8]) -> bool
    ensures { result ≡ same_text a.now b.now }
{
    a == b
}

// Here and below the words are walked by `word_end`: `split` makes a word of an empty text, and these lists have none there.
// Which word of the list the name is, counted from 0, or how many words the list has: so `place_among` has it, which `named` of the burner's commands promises.
pub fn place_in(list: &[u8], name: &[u8]) -> usize
    ensures { result ≡ place_among (words_in list.now) name.now }
{
    let mut k: usize = 0;
    let mut at: usize = 0;
    while at < list.len() {
        let end = word_end(list, at);
        if same(&list[at..end], name) {
            return k;
        }
        k += 1;
        at = end + 1;
    }
    k
}

// As `if_at` of the specs, by which `numbers` is proved.
fn if_at(n: usize, k: usize, x: u64, other: u64) -> u64
    ensures { result ≡ if_at n k x other }
{
    if n == k { x } else { other }
}

// The words after the one that ends at `end`. None: one of them is no number. The clauses of `numbers` and `store` name the line and `end`, and so do their callers'.
pub fn numbers(line: &[u8], end: usize) -> Option<Arguments>
    ensures { result ≡ numbers_from 0 0 0 0 0 (fields (drop end line.now)) }
{
    let mut n: usize = 0;
    let mut a: u64 = 0;
    let mut b: u64 = 0;
    let mut c: u64 = 0;
    let mut d: u64 = 0;
    let mut at = end;
    while at < line.len() {
        let start = at + 1;
        at = word_end(line, start);
        let x = decimal::parse(&line[start..at]).ok()?;
        a = if_at(n, 0, x, a);
        b = if_at(n, 1, x, b);
        c = if_at(n, 2, x, c);
        d = if_at(n, 3, x, d);
        n += 1;
    }
    Some(Arguments { n, a, b, c, d })
}

fn value(text: &[u8]) -> u64
    ensures { result ≡ or_zero (parse_of text.now) }
{
    decimal::parse(text).unwrap_or(0)
}

// A word past the end is dropped. `get_mut` was tried, and its two arms did not prove.
fn put(words: &mut [u64], i: usize, x: u64)
    ensures { words.new ≡ set words.old i x }
{
    if i < words.len() {
        words[i] = x;
    }
}

// Stores the numbers after the word that ends at `end`, as many as there are words.
pub fn store(line: &[u8], end: usize, words: &mut [u64])
    ensures { words.new ≡ sets words.old 0 (values_of (fields (drop end line.now))) }
{
    let mut i: usize = 0;
    let mut at = end;
    while at < line.len() {
        let start = at + 1;
        at = word_end(line, start);
        put(&mut *words, i, value(&line[start..at]));
        i += 1;
    }
}

// The first n words, where there are so many.
pub fn first(s: &[u64], n: usize) -> &[u64]
    ensures { result.now ≡ take n s.now }
{
    s.get(..n).unwrap_or(s)
}
