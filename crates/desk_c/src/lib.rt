// The desk's library for C: its functions under their names, as include/tivelgor.h declares them. The clauses stand a second time, as what
// C gets.
#![tactic(auto)]

ghost use Rattle.std.specs.Prelude.{◌≡◌};
ghost use Rattle.rules.specs.Network.{network_of};
ghost use Rattle.rules.specs.Request.{request_of};
ghost use Rattle.rules.specs.Rooms.{lent};
ghost use Rattle.rules.specs.Answers.{network_outcome, request_outcome};
ghost use Rattle.desk.specs.Numbers.{short_range, desk_number, WalkTold, PriceTold, PlanTold, NetworkWriteTold, RequestWriteTold};

#[unsafe(no_mangle)]
pub extern "C" fn tivelgor_network(network: &[u8]) -> u64
    ensures { result ≡ desk_number short_range (network_outcome (network_of network.now)) }
{
    desk::tivelgor_network(network)
}

#[unsafe(no_mangle)]
pub extern "C" fn tivelgor_request(network: &[u8], request: &[u8]) -> u64
    ensures { result ≡ desk_number short_range (request_outcome (request_of network.now request.now)) }
{
    desk::tivelgor_request(network, request)
}

#[unsafe(no_mangle)]
pub extern "C" fn tivelgor_walk(network: &[u8], start: usize, distances: &mut [u32]) -> u64
    ensures { WalkTold network.now start distances.old distances.new result }
{
    desk::tivelgor_walk(network, start, distances)
}

#[unsafe(no_mangle)]
pub extern "C" fn tivelgor_price(
    network: &[u8],
    request: &[u8],
    route: &[u16],
    meeting: &mut [u16],
) -> u64
    ensures { PriceTold network.now request.now route.now meeting.old meeting.new result }
{
    desk::tivelgor_price(network, request, route, meeting)
}

#[unsafe(no_mangle)]
pub extern "C" fn tivelgor_search(
    network: &[u8],
    request: &[u8],
    distances: &mut [u32],
    table: &mut [u64],
    steps: &mut [u16],
) -> u64
    ensures { PlanTold network.now request.now
        (lent distances.old table.old steps.old)
        (lent distances.new table.new steps.new) result }
{
    desk::tivelgor_search(network, request, distances, table, steps)
}

#[unsafe(no_mangle)]
pub extern "C" fn tivelgor_write_network(n: usize, links: &[u16], room: &mut [u8]) -> u64
    ensures { NetworkWriteTold n links.now room.old room.new result }
{
    desk::tivelgor_write_network(n, links, room)
}

#[unsafe(no_mangle)]
pub extern "C" fn tivelgor_write_request(n: usize, request: &[u64], room: &mut [u8]) -> u64
    ensures { RequestWriteTold n request.now room.old room.new result }
{
    desk::tivelgor_write_request(n, request, room)
}
