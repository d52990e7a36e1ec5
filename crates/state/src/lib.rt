// A text that is loaded in the work slice: every service that is handed something stored starts from it. What the slice holds then is said in specs/.
#![tactic(auto)]

ghost use Rattle.std.specs.Prelude.{◌≡◌, length};
ghost use Rattle.definitions.specs.declared.Order.{Order};
ghost use Rattle.definitions.specs.Services.{sample_order};
ghost use Rattle.state.specs.State.{Held};
ghost use Rattle.state.specs.One.{held_one};

use decoding::chair_of;
use layout::{LENGTHS, TABLE};
use slices::wide;

// A text that is loaded in a work slice, in the order that the services speak of; its table has so many rules.
#[derive(Clone, Copy)]
pub struct LoadedText<'w> {
    pub rules: usize,
    pub work: &'w [u32],
    pub ghost held: { Held sample_order rules work.now } by { held_one },
}

impl<'w> LoadedText<'w> {
    // The text that is loaded in these words.
    pub fn new(rules: usize, work: &'w [u32]) -> Self
        requires { Held sample_order rules work.now }
        ensures { (h : Held sample_order rules work.now) → (result.held.text ≡ h.text) × (result.held.chair ≡ h.chair) × (result.rules ≡ rules) × (result.work.now ≡ work.now) }
    {
        LoadedText { rules, work }
    }

    // How many samples it has.
    pub fn len(&self) -> usize
        ensures { result ≡ length self.now.held.text }
    {
        text_length(self.rules, self.work)
    }

    // Its chair number.
    pub fn chair(&self) -> u16
        ensures { result ≡ self.now.held.chair }
    {
        chair_number(self.rules, self.work)
    }
}

// The number of samples of a text that is loaded, in any order: the root's length without the mark.
pub fn text_length(rules: usize, work: &[u32]) -> usize
    requires { (o : Order) × Held o rules work.now }
    ensures { (o : Order) (h : Held o rules work.now) → result ≡ length h.text }
{
    wide(work[LENGTHS + (rules - 1)]) - 1
}

// Its chair number.
pub fn chair_number(rules: usize, work: &[u32]) -> u16
    requires { (o : Order) × Held o rules work.now }
    ensures { (o : Order) (h : Held o rules work.now) → result ≡ h.chair }
{
    let end = TABLE + 2 * rules;
    chair_of(&work[TABLE..end])
}
