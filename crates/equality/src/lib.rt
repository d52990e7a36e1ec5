// Whether two lent slices of words hold the same.
#![tactic(auto)]

ghost use Rattle.std.specs.Prelude.{◌≡◌, ◌≤◌, length, take};
ghost use Rattle.definitions.specs.Words.{same};

// Whether two slices hold the same words. Few are compared one by one; of more the first eight, and then blocks, so that the compiler may compare several
// words at once. The last block ends with the slice, and may begin inside what is compared before.
pub fn equal(x: &[u32], y: &[u32]) -> bool
    ensures { result ≡ same x.now y.now }
{
    let n = x.len();
    if n != y.len() {
        return false;
    }
    if n < 8 {
        return equal_front(x, y, n);
    }
    if !equal_front(x, y, 8) {
        return false;
    }
    if n < 16 {
        return equal_many(&x[n - 8..n], &y[n - 8..n]);
    }
    equal_by_sixteen(x, y)
}

// Whether their first n words are the same, one after the other, up to the first that differs: `==` of the two fronts would be a call at every test.
fn equal_front(x: &[u32], y: &[u32], n: usize) -> bool
    requires { (n ≤ length x.now) × (n ≤ length y.now) }
    ensures { result ≡ same (take n x.now) (take n y.now) }
{
    for i in 0..n {
        if x[i] != y[i] {
            return false;
        }
    }
    true
}

// Whether two slices of one length from 16 on hold the same words: blocks of sixteen, up to the first that differs, and the last sixteen.
fn equal_by_sixteen(x: &[u32], y: &[u32]) -> bool
    requires { (length x.now ≡ length y.now) × (16 ≤ length x.now) }
    ensures { result ≡ same x.now y.now }
{
    let n = x.len();
    for i in 0..n / 16 {
        let a = 16 * i;
        if !equal_many(&x[a..a + 16], &y[a..a + 16]) {
            return false;
        }
    }
    equal_many(&x[n - 16..], &y[n - 16..])
}

// Whether two slices of one length hold the same words: the loop goes to the end, so that the compiler may compare several words at once.
pub fn equal_many(x: &[u32], y: &[u32]) -> bool
    requires { length x.now ≡ length y.now }
    ensures { result ≡ same x.now y.now }
{
    let mut alike = true;
    for (i, word) in x.iter().enumerate() {
        alike &= *word == y[i];
    }
    alike
}
