// A naive scanner, written apart from the library: the pattern is compared with the text at every place.
#![tactic(auto)]

ghost use Rattle.std.specs.Prelude.{◌≡◌, ◌≤◌, ◌<◌, length};
ghost use Rattle.definitions.specs.Words.{placed};
ghost use Rattle.definitions.specs.Occurrences.{occurrences};

// Writes the places of the text at which the pattern begins to the front of a slice, and answers how many there are.
pub fn scan(pattern: &[u8], text: &[u8], places: &mut [u32]) -> usize
    requires { (length text.now ≤ 2047) × (length text.now < length places.old) }
    ensures value { result ≡ length (occurrences pattern.now text.now) }
    ensures places_after { places.new ≡ placed (occurrences pattern.now text.now) places.old }
{
    let mut n = 0;
    for i in 0..=text.len() {
        if text[i..].starts_with(pattern) {
            places[n] = i as u32;
            n += 1;
        }
    }
    n
}
