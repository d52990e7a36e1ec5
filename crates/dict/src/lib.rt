// A dictionary of rules by their two words, in buckets (specs/Dictionary.antt says what the links hold).
#![tactic(auto)]

ghost use Rattle.std.specs.Prelude.{◌≡◌, ℕ, ◌+◌, ◌*◌, ◌≤◌, ◌<◌, length, get_or, set};
ghost use Rattle.lists.specs.Newest.{has_words};
ghost use Rattle.dict.specs.Dictionary.{bucket_of, Dict, IsLatest};

// The newest rule with the words x and y.
pub fn find(rules: &[u32], links: &[u32], x: u32, y: u32) -> Option<usize>
    requires { (n : ℕ) × Dict rules.now links.now n × (2 * n ≤ length rules.now) × (1024 + n ≤ length links.now) }
    ensures { (n : ℕ) → Dict rules.now links.now n → IsLatest (has_words rules.now x y) n result }
{
    let mut next = links[bucket(x, y)] as usize;
    while next != 0 {
        let r = next - 1;
        if has_words(rules, r, x, y) {
            return Some(r);
        }
        next = links[1024 + r] as usize;
    }
    None
}

// Whether the words of rule r are x and y.
#[tactic(auto, unfolding(lists::specs::Newest::has_words))]
fn has_words(rules: &[u32], r: usize, x: u32, y: u32) -> bool
    requires { 2 * r + 1 < length rules.now }
    ensures { result ≡ has_words rules.now x y r }
{
    rules[2 * r] == x && rules[2 * r + 1] == y
}

// Links rule n, with the words x and y, into its bucket; the links begin at `links`.
pub fn link(work: &mut [u32], links: usize, n: usize, x: u32, y: u32)
    requires { (n < 65536) × (links < 65536) × (links + 1024 + n < length work.old) }
    ensures { work.new ≡ set (set work.old (links + 1024 + n) (get_or work.old (links + bucket_of x y) 0)) (links + bucket_of x y) (n + 1) }
{
    let b = links + bucket(x, y);
    work[links + 1024 + n] = work[b];
    work[b] = n as u32 + 1;
}

// Stores the words x and y of rule n; the rules begin at `rules`.
pub fn store(work: &mut [u32], rules: usize, n: usize, x: u32, y: u32)
    requires { (n < 65536) × (rules < 65536) × (rules + 2 * n + 1 < length work.old) }
    ensures { work.new ≡ set (set work.old (rules + 2 * n) x) (rules + 2 * n + 1) y }
{
    work[rules + 2 * n] = x;
    work[rules + 2 * n + 1] = y;
}

// The bucket of the words x and y.
#[tactic(auto, unfolding(crate::specs::Dictionary::bucket_of))]
fn bucket(x: u32, y: u32) -> usize
    ensures value { result ≡ bucket_of x y }
    ensures small { result < 1024 }
{
    let h = x as u64 * 1640531527 + y as u64 * 374761392;
    (h / 2097152 % 1024) as usize
}
