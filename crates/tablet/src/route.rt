// A route as bytes.
ghost use Rattle.std.specs.Prelude.{◌/◌, ◌≡◌, length};
ghost use Rattle.rules.specs.Answers.{route_of};

use records::inner::two;

// Puts the link numbers of all pairs of bytes into `links`.
pub fn decode(bytes: &[u8], links: &mut [u16])
    requires { length links.old ≡ length bytes.now / 2 }
    ensures { links.new ≡ route_of bytes.now }
{
    for (i, link) in links.iter_mut().enumerate() {
        *link = two(bytes, 2 * i) as u16;
    }
}
