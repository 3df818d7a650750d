// The tablet's library for C: its entry under its name, as include/tivelgor.h declares it. The clauses stand a second time, as what C gets.
#![tactic(auto)]

ghost use Rattle.rules.specs.Answers.{Tablet};

#[unsafe(no_mangle)]
pub extern "C" fn tivelgor_tablet_price(network: &[u8], request: &[u8], route: &[u8]) -> u64
    ensures { Tablet network.now request.now route.now result }
{
    tablet::tivelgor_tablet_price(network, request, route)
}
