// Longest Lyndon words, naively and apart from the library: every length is tried, every suffix is compared, sample by sample. `place_of` alone knows
// the order of samples.
#![tactic(auto)]

ghost use Rattle.std.specs.Prelude.{◌≡◌, map, ◌+◌, ◌%◌, ◌≤◌, length};
ghost use Rattle.definitions.specs.Words.{lexlt, lyndon, lyndon_length};
ghost use Rattle.definitions.specs.Table.{rank_of};
ghost use Rattle.definitions.specs.Services.{sample_order};

// The length of the longest Lyndon word that begins at place i of the text: lengths are tried from that of the rest down to 1.
pub fn longest_at(text: &[u8], i: usize) -> usize
    requires { i ≤ length text.now }
    ensures { result ≡ lyndon_length (map (rank_of sample_order) text.now) i }
{
    for k in (1..=text.len() - i).rev() {
        if is_lyndon(&text[i..i + k]) {
            return k;
        }
    }
    0
}

// Whether a word is a Lyndon word: not empty, and smaller than each of its non-empty proper suffixes.
pub fn is_lyndon(word: &[u8]) -> bool
    ensures { result ≡ lyndon (map (rank_of sample_order) word.now) }
{
    !word.is_empty() && (1..word.len()).all(|k| is_smaller(word, &word[k..]))
}

// Whether the word x is smaller than the word y: at the first different sample, or as a proper prefix.
pub fn is_smaller(x: &[u8], y: &[u8]) -> bool
    ensures { result ≡ lexlt (map (rank_of sample_order) x.now) (map (rank_of sample_order) y.now) }
{
    x.iter()
        .map(|a| place_of(*a))
        .cmp(y.iter().map(|b| place_of(*b)))
        .is_lt()
}

// The place of a sample in the order of signed numbers: 128 and above mean themselves minus 256, so they come before all below 128.
fn place_of(sample: u8) -> u8
    ensures { result ≡ (sample + 128) % 256 }
{
    sample.wrapping_add(128)
}
