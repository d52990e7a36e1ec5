// Which of two adjacent words is the smaller: a prefix is smaller than what extends it. Building and judging compare by this one function.
//
// The first symbols most often decide. Else short words are compared symbol by symbol; of long ones blocks of eight symbols are passed while they are alike, and then
// the symbols of the first that is not are compared. The worst case is two long words that are alike to the end.
#![tactic(auto)]

ghost use Rattle.std.specs.Prelude.{◌≡◌, ◌+◌, ◌-◌, ◌*◌, ◌≤◌, ◌<◌, min, length, drop, get_or};
ghost use Rattle.definitions.specs.Words.{lexlt};
ghost use Rattle.lists.specs.Parts.{part};

// Whether the word from i up to j is smaller than that of k symbols from j on.
pub fn before(s: &[u32], i: usize, j: usize, k: usize) -> bool
    requires { (i < j) × (0 < k) × (j + k ≤ length s.now) }
    ensures { result ≡ lexlt (part i (j - i) s.now) (part j k s.now) }
{
    let a = s[i];
    let b = s[j];
    if a != b {
        return a < b;
    }
    rest_before(s, i, j, k)
}

// The same of two words that begin with the same symbol: what follows it decides.
pub fn rest_before(s: &[u32], i: usize, j: usize, k: usize) -> bool
    requires { (i < j) × (0 < k) × (j + k ≤ length s.now) × (get_or s.now i 0 ≡ get_or s.now j 0) }
    ensures { result ≡ lexlt (part i (j - i) s.now) (part j k s.now) }
{
    let p = i + 1;
    if p == j {
        return 1 < k;
    }
    if k == 1 {
        return false;
    }
    smaller(&s[p..j], &s[j + 1..j + k])
}

// Whether the string x is smaller than the string y.
fn smaller(x: &[u32], y: &[u32]) -> bool
    ensures { result ≡ lexlt x.now y.now }
{
    let short = x.len().min(y.len());
    if short < 16 {
        return smaller_from(x, y, 0, short);
    }
    let i = 8 * alike(x, y, short / 8);
    smaller_from(x, y, i, short)
}

// How many of the first blocks of eight symbols are passed, which is a matter of speed: what follows them decides. The loop stops at the first that is not alike.
fn alike(x: &[u32], y: &[u32], blocks: usize) -> usize
    requires { (8 * blocks ≤ length x.now) × (8 * blocks ≤ length y.now) }
    ensures { (result ≤ blocks) × (lexlt x.now y.now ≡ lexlt (drop (8 * result) x.now) (drop (8 * result) y.now)) }
{
    for i in 0..blocks {
        let a = 8 * i;
        if !equality::equal_many(&x[a..a + 8], &y[a..a + 8]) {
            return i;
        }
    }
    blocks
}

// Whether what follows the first symbols of x is smaller than what follows those of y; `short` is the length of the shorter.
fn smaller_from(x: &[u32], y: &[u32], from: usize, short: usize) -> bool
    requires { (from ≤ short) × (short ≡ min (length x.now) (length y.now)) }
    ensures { result ≡ lexlt (drop from x.now) (drop from y.now) }
{
    for i in from..short {
        let a = x[i];
        let b = y[i];
        if a != b {
            return a < b;
        }
    }
    x.len() < y.len()
}
