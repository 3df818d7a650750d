// The engine: rounds over all links until nothing changes.
ghost use Rattle.std.specs.Prelude.{ℕ, ◌≤◌, ◌<◌, ◌≡◌, List, length, get_or};
ghost use Rattle.least.specs.Trips.{Arcs, Inside};
ghost use Rattle.least.specs.Spread.{Spread};
ghost use Rattle.least.specs.WalkTrips.{Linked};
ghost use Rattle.spread.specs.Relaxing.{RelaxedLink, RelaxedBelow, Progress};

// The links of a network in one use of them, and a place for each node's sum.
pub trait Links: Copy {
    type Place;

    // The sums in such places, and the cap, which stands for none.
    ghost sums: { List Self.Place → List ℕ };

    ghost cap: { ℕ };

    ghost node_count: { Self → ℕ };

    ghost link_count: { Self → ℕ };

    // The arcs of each link.
    ghost arcs: { Self → ℕ → Arcs };

    fn link_count(&self) -> usize
        ensures { result ≡ link_count self.now };

    // Relaxes link k: whether that makes a sum smaller.
    fn relax(&self, k: usize, places: &mut [Self::Place]) -> bool
        requires exists { k < link_count self.now }
        requires room { node_count self.now ≤ length (sums places.old) }
        ensures { Progress (node_count self.now) (Linked (arcs self.now)) (RelaxedLink (arcs self.now) k)
            (sums places.old) (sums places.new) result };

    // Arcs stay among the nodes, and no link beyond the last has one.
    ghost inside: { (it : Self) → Inside (node_count it) (Linked (arcs it)) };

    ghost exist: { (it : Self) (k u v w : ℕ) → arcs it k u v w → k < link_count it };
}

// Spreads least sums over the arcs of the links, from the values that stand in the places.
pub fn spread<L: Links>(links: &L, places: &mut [L::Place])
    requires room { L.node_count links.now ≤ length (L.sums places.old) }
    requires capped { (u : ℕ) → get_or (L.sums places.old) u 0 ≤ L.cap }
    ensures { Spread L.cap (L.node_count links.now) (Linked (L.arcs links.now)) (L.sums places.old) (L.sums places.new) }
{
    while round(links, places) {}
}

// One round over all links: whether one of them made a sum smaller. A call, and the links as its own value: inlined, the two loops become
// one, which takes a third longer.
#[inline(never)]
fn round<L: Links>(links: &L, places: &mut [L::Place]) -> bool
    requires { L.node_count links.now ≤ length (L.sums places.old) }
    ensures { Progress (L.node_count links.now) (Linked (L.arcs links.now)) (RelaxedBelow (L.arcs links.now) (L.link_count links.now))
        (L.sums places.old) (L.sums places.new) result }
{
    let own = *links;
    let mut changed = false;
    for k in 0..own.link_count() {
        changed |= own.relax(k, places);
    }
    changed
}
