// The paper's number of each refusal, and its place: what an answer says of a refusal to those who know no enum.
#![tactic(auto)]

ghost use Rattle.std.specs.Prelude.{◌≡◌};
ghost use Rattle.definitions.specs.Services.{refusal_number, refusal_place};

use definitions::Refusal;

// The number of a refusal.
#[tactic(auto, unfolding(definitions::specs::Services::refusal_number))]
pub fn number_of(refusal: Refusal) -> u32
    ensures { result ≡ refusal_number refusal }
{
    match refusal {
        Refusal::TextTooLong => 1,
        Refusal::PatternEmpty => 2,
        Refusal::PatternTooLong => 3,
        Refusal::WorkTooShort => 4,
        Refusal::TableLength => 5,
        Refusal::BadWord(_) => 6,
        Refusal::NotATable => 7,
        Refusal::RangePastEnd => 8,
        Refusal::ResultTooShort(_) => 9,
        Refusal::NoStep => 10,
        Refusal::OffHeading(_) => 11,
        Refusal::NotAtRest => 12,
        Refusal::OddWindow => 13,
    }
}

// The place of a refusal: the lowest index of what is wrong, or the entries needed; 0 where it has none.
#[tactic(auto, unfolding(definitions::specs::Services::refusal_place))]
pub fn place_of(refusal: Refusal) -> usize
    ensures { result ≡ refusal_place refusal }
{
    match refusal {
        Refusal::BadWord(at) => at,
        Refusal::ResultTooShort(needed) => needed,
        Refusal::OffHeading(at) => at,
        _ => 0,
    }
}
