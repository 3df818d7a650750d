// Numbers put into a room that is known to be long enough, the highest byte first. Whatever writes a record puts its numbers
// by these. Room and place stay two parameters: a struct that holds a `&mut` has twice as many moments to speak of in a clause.
ghost use Rattle.std.specs.Prelude.{◌+◌, ◌*◌, ◌≤◌, length};
ghost use Rattle.rules.specs.Network.{opening_bytes, link_start, network_head};
ghost use Rattle.rules.specs.Numbers.{bytes_of, twos_of};
ghost use Rattle.rules.specs.Rooms.{Put};

use rules::inner::link_start;

// Puts the low bytes of a number from a place on, `size` of them, and gives the place behind.
pub fn put_number(x: usize, size: usize, room: &mut [u8], at: usize) -> usize
    requires { at + size ≤ length room.old }
    ensures { Put at (bytes_of size x) room.old room.new result }
{
    let end = at + size;
    let mut left = x;
    for i in (0..size).rev() {
        room[at + i] = (left % 256) as u8;
        left /= 256;
    }
    end
}

// Puts numbers of two bytes each, one behind the other, and gives the place behind.
pub fn put_twos(numbers: &[u16], room: &mut [u8], at: usize) -> usize
    requires { at + 2 * length numbers.now ≤ length room.old }
    ensures { Put at (twos_of numbers.now) room.old room.new result }
{
    let mut end = at;
    for &x in numbers {
        end = put_number(x as usize, 2, room, end);
    }
    end
}

// Puts what a record of so many bytes opens with, its version and that number in `size` bytes, and gives the place behind.
pub fn put_opening(version: usize, stated: usize, size: usize, room: &mut [u8]) -> usize
    requires { 1 + size ≤ length room.old }
    ensures { Put 0 (opening_bytes version size stated) room.old room.new result }
{
    let version_end = put_number(version, 1, room, 0);
    put_number(stated, size, room, version_end)
}

// Puts what a network record of n nodes and m links begins with, and gives the place behind.
pub fn put_network_head(n: usize, m: usize, room: &mut [u8]) -> usize
    requires { link_start m ≤ length room.old }
    ensures { Put 0 (network_head n m) room.old room.new result }
{
    let opening_end = put_opening(1, link_start(m), 4, room);
    let nodes_end = put_number(n, 2, room, opening_end);
    put_number(m, 2, room, nodes_end)
}
