// Lines, their words and their parts.
ghost use Rattle.std.specs.Prelude.{◌≡◌, ◌+◌, length};

// A line: the word at its beginning, and behind it parts with bars between them.
#[derive(Clone, Copy)]
pub struct Line<'a> {
    pub word: &'a [u8],
    parts: &'a [u8],
}

impl<'a> Line<'a> {
    pub fn of(text: &'a [u8]) -> Line<'a> {
        let (word, parts) = split_before(text, |byte| *byte == b' ');
        Line { word, parts }
    }

    // Part i, which is empty where there are fewer.
    pub fn part(&self, i: usize) -> &'a [u8] {
        self.parts.split(is_bar).nth(i).unwrap_or(b"")
    }

    // How many parts there are. An empty one behind the last bar does not count.
    pub fn part_count(&self) -> usize {
        self.parts.split_inclusive(is_bar).count()
    }
}

fn is_bar(byte: &u8) -> bool {
    *byte == b'|'
}

// What stands before the first byte that ends it, and the rest.
pub fn split_before<F: FnMut(&u8) -> bool>(text: &[u8], ends: F) -> (&[u8], &[u8])
    requires { (state : F) (x : _) → F.pre state x }
    ensures { length result.0.now + length result.1.now ≡ length text.now }
{
    let end = text.iter().position(ends).unwrap_or(text.len());
    text.split_at(end)
}
