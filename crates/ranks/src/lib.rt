// Bytes, ranks and symbol numbers: all that depends on the order of samples.
#![tactic(auto)]

ghost use Rattle.std.specs.Prelude.{◌≡◌, map, ◌≤◌, ◌<◌, length};
ghost use Rattle.definitions.specs.Words.{placed};
ghost use Rattle.definitions.specs.Table.{rank_of, byte_of, number_of_rank, rank_of_number};

use definitions::Order;

// The order that the services speak of, and the one that they spoke of before request S-2.
pub const SAMPLE_ORDER: Order = Order::Signed;

pub const FORMER_ORDER: Order = Order::Unsigned;

// The rank of a byte in an order of samples.
pub fn rank_of(order: Order, byte: u8) -> u32
    ensures { result ≡ rank_of order byte }
{
    match order {
        Order::Unsigned => byte as u32 + 1,
        Order::Signed => (byte as u32 + 128) % 256 + 1,
    }
}

// Writes the ranks of samples at the front of a slice.
pub fn write(order: Order, samples: &[u8], ranks: &mut [u32])
    requires { length samples.now ≤ length ranks.old }
    ensures { ranks.new ≡ placed (map (rank_of order) samples.now) ranks.old }
{
    for (i, sample) in samples.iter().enumerate() {
        ranks[i] = rank_of(order, *sample);
    }
}

// The byte of a sample's rank.
pub fn byte_of(order: Order, rank: u32) -> u8
    requires { (0 < rank) × (rank < 257) }
    ensures { result ≡ byte_of order rank }
{
    match order {
        Order::Unsigned => (rank - 1) as u8,
        Order::Signed => ((rank + 127) % 256) as u8,
    }
}

// The number of a sample's rank in a symbol rule's first word.
pub fn number_of_rank(order: Order, rank: u32) -> u32
    requires { (0 < rank) × (rank < 257) }
    ensures { result ≡ number_of_rank order rank }
{
    byte_of(order, rank) as u32 + 1
}

// The rank of a sample's number in a symbol rule.
pub fn rank_of_number(order: Order, number: u32) -> u32
    requires { (0 < number) × (number < 257) }
    ensures { result ≡ rank_of_number order number }
{
    rank_of(order, (number - 1) as u8)
}
