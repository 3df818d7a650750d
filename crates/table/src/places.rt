// Places of the two tables, and bits of rider sets.
ghost use Rattle.std.specs.Prelude.{◌+◌, ◌*◌, ◌^◌, ◌<◌, ◌≡◌, length};
ghost use Rattle.rules.specs.Limits.{most_riders};
ghost use Rattle.rules.specs.Network.{node_count};
ghost use Rattle.records.specs.Inner.{Is};
ghost use Rattle.table.specs.Places.{value_at};

use records::inner::Network;

// The place of node v in a row.
pub fn place(network: &Network, row: usize, v: usize) -> usize
    requires { (row < 2 ^ most_riders) × (v < node_count network.now.bytes) }
    ensures { Is (row * node_count network.now.bytes + v) 65536 result }
{
    row * network.node_count() + v
}

// The value of the work table at a rider set and a node.
pub fn value(network: &Network, table: &[u64], riders: u32, v: usize) -> u64
    requires { (riders < 2 ^ most_riders) × (v < node_count network.now.bytes)
        × (riders * node_count network.now.bytes + v < length table.now) }
    ensures { result ≡ value_at network.now.bytes table.now riders v }
{
    table[place(network, riders as usize, v)]
}

// The bit of rider j.
pub fn rider_bit(j: u32) -> u32
    requires { j < 32 }
    ensures { result ≡ 2 ^ j }
{
    1 << j
}
