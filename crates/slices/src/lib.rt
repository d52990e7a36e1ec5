// Small functions on lent slices: a word stored, words cleared, entries copied; a word as an index.
#![tactic(auto)]

ghost use Rattle.std.specs.Prelude.{◌≡◌, ◌≤◌, ◌<◌, length, set, replicate};
ghost use Rattle.definitions.specs.Words.{placed};

// Stores x.
pub fn put(s: &mut [u32], at: usize, x: u32)
    requires { at < length s.old }
    ensures { s.new ≡ set s.old at x }
{
    s[at] = x;
}

// Sets every word to 0.
pub fn clear(s: &mut [u32])
    ensures { s.new ≡ replicate (length s.old) 0 }
{
    s.fill(0);
}

// Copies all of a slice to the front of another. A loop, and not the library's method, which would call a function from outside.
pub fn copy<T: Copy>(from: &[T], to: &mut [T])
    requires { length from.now ≤ length to.old }
    ensures { to.new ≡ placed from.now to.old }
{
    for (i, entry) in from.iter().enumerate() {
        to[i] = *entry;
    }
}

// A word as an index.
pub fn wide(x: u32) -> usize
    ensures { result ≡ x }
{
    x as usize
}
