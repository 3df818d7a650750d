// A line that grows at its front: its bytes stand at the end of their room.
ghost use Rattle.std.specs.Prelude.{◌≡◌, ◌+◌, ◌*◌, ◌<◌, ◌≤◌, [], ◌∷◌, ◌++◌, length};
ghost use Rattle.rules.specs.Program.{decimal, line};
ghost use Rattle.lines.specs.Limits.{longest_line, longest_field};

use std::marker::Model;

// How many bytes a line may have.
pub const LONGEST_LINE: usize = 96;

// The text is the bytes from the start on.
#[derive(Clone, Copy)]
pub struct Line {
    bytes: [u8; LONGEST_LINE],
    start: usize,
}

// Clauses see the text. All before it is zero, so that no two lines have one text.
impl Model for Line {
    ghost use Rattle.std.specs.Prelude.{ℕ, List};

    ghost Value = { List ℕ };

    ghost use Rattle.lines.specs.Text.{text_of, line_of, Reads, reads_back};

    ghost view = { text_of };

    ghost invariant = { λ l. Reads l (text_of l) };

    ghost inverse = { line_of };

    ghost inverse_ok = { reads_back };
}

impl Line {
    // The line of a word and its numbers, made from the line feed backwards.
    #[tactic(auto, using(crate::proofs::TextLaws::spelt_none, crate::proofs::TextLaws::spelt_more))]
    pub(crate) fn of(word: &[u8], numbers: &[u64]) -> Self
        requires { length word.now + longest_field * length numbers.now < longest_line }
        ensures { result ≡ line word.now numbers.now }
    {
        let mut line = Line::empty();
        line.put(b"\n");
        for &x in numbers.iter().rev() {
            line.put_field(x);
        }
        line.put(word);
        line
    }

    // The text.
    pub fn as_bytes(&self) -> &[u8]
        ensures says { result.now ≡ self.now }
        ensures few { length self.now ≤ longest_line }
    {
        &self.bytes[self.start..]
    }

    fn empty() -> Self
        ensures { result ≡ [] }
    {
        Line {
            bytes: [0; LONGEST_LINE],
            start: LONGEST_LINE,
        }
    }

    // A space and a number, in front.
    #[tactic(auto, using(crate::proofs::DecimalLaws::decimals))]
    fn put_field(&mut self, x: u64)
        requires { longest_field + length self.old ≤ longest_line }
        ensures { self.new ≡ 32 ∷ decimal x ++ self.old }
    {
        self.put_decimal(x);
        self.put(b" ");
    }

    // A number's digits, in front, from the last one on. Not by `write!`: its clauses let it fail, and ok_line and the others can't.
    #[tactic(auto, using(crate::proofs::DecimalLaws::decimals))]
    fn put_decimal(&mut self, x: u64)
        requires { length (decimal x) + length self.old ≤ longest_line }
        ensures { self.new ≡ decimal x ++ self.old }
    {
        self.put(&[b'0' + (x % 10) as u8]);
        if 10 <= x {
            self.put_decimal(x / 10);
        }
    }

    // Bytes, in front.
    fn put(&mut self, front: &[u8])
        requires { length front.now + length self.old ≤ longest_line }
        ensures { self.new ≡ front.now ++ self.old }
    {
        let end = self.start;
        self.start -= front.len();
        self.bytes[self.start..end].copy_from_slice(front);
    }
}
