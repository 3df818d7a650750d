// The numbers of a part.
ghost use Rattle.std.specs.Prelude.{◌<◌, ◌≤◌, length, IfSome};

use crate::text::split_before;
use rules::FIRST_REFUSAL;

// How many numbers a part may have.
pub const NUMBERS: usize = 65552;

// From here on a number takes no further digit.
const LARGE: u64 = u64::MAX / 10;

// A number, or so many numbers before it so many times more.
#[derive(Clone, Copy)]
enum Token {
    Number(u64),
    Copies { size: u64, times: u64 },
}

// The numbers of a part, in fixed memory. It copies parts of itself behind its end, for which an `ArrayVec` has no method.
#[derive(Drop)]
pub struct List {
    room: [u64; NUMBERS],
    count: usize,
    ghost in_room: { count ≤ 65552 },
}

impl List {
    pub fn new() -> List {
        List {
            room: [0; NUMBERS],
            count: 0,
        }
    }

    pub fn numbers(&self) -> &[u64] {
        &self.room[..self.count]
    }

    // Puts the numbers of a part behind those of the list, and gives all. None where there are too many, or at something
    // that is none; the list then has those before it.
    pub fn read(&mut self, part: &[u8]) -> Option<&[u64]> {
        let mut rest = without_spaces(part);
        while !rest.is_empty() {
            let (token, behind) = first_token(rest)?;
            match token {
                Token::Number(number) => self.push(number)?,
                Token::Copies { size, times } => self.repeat(size as usize, times as usize)?,
            }
            rest = without_spaces(behind);
        }
        Some(self.numbers())
    }

    fn push(&mut self, number: u64) -> Option<()> {
        *self.room.get_mut(self.count)? = number;
        self.count += 1;
        Some(())
    }

    fn repeat(&mut self, size: usize, times: usize) -> Option<()> {
        if NUMBERS < times {
            return None;
        }
        for _ in 0..times {
            self.push_again(size)?;
        }
        Some(())
    }

    // Puts so many numbers of the end once more behind it.
    fn push_again(&mut self, size: usize) -> Option<()> {
        let start = self.count.checked_sub(size)?;
        let (before, behind) = self.room.split_at_mut(self.count);
        behind.get_mut(..size)?.copy_from_slice(&before[start..]);
        self.count += size;
        Some(())
    }
}

fn without_spaces(text: &[u8]) -> &[u8]
    ensures { length result.now ≤ length text.now }
{
    let (_, rest) = split_before(text, |byte| *byte != b' ');
    rest
}

// A number, or two with a sign between them; and what stands behind.
fn first_token(text: &[u8]) -> Option<(Token, &[u8])>
    ensures { IfSome result (λ token. length token.1.now < length text.now) }
{
    let (first, rest) = plain_number(text)?;
    match rest {
        [] | [b' ', ..] => Some((Token::Number(first), rest)),
        [sign, behind @ ..] => {
            let (second, behind) = plain_number(behind)?;
            Some((joined(*sign, first, second)?, behind))
        }
    }
}

// Digits, or the sign that stands for every bit; and what stands behind.
fn plain_number(text: &[u8]) -> Option<(u64, &[u8])>
    ensures { IfSome result (λ number. length number.1.now < length text.now) }
{
    if let [b'-', rest @ ..] = text {
        return Some((u64::MAX, rest));
    }
    let (digits, rest) = split_before(text, |byte| !byte.is_ascii_digit());
    if digits.is_empty() {
        return None;
    }
    let number = digits.iter().try_fold(0, with_digit)?;
    Some((number, rest))
}

fn with_digit(number: u64, digit: &u8) -> Option<u64> {
    if LARGE <= number {
        return None;
    }
    let value = char::from(*digit).to_digit(10)?;
    Some(number * 10 + u64::from(value))
}

// What two numbers with a sign between them are.
fn joined(sign: u8, a: u64, b: u64) -> Option<Token> {
    let number = match sign {
        b'*' => return Some(Token::Copies { size: a, times: b }),
        b':' if a < 1 << 52 && b < 4096 => a * 4096 + b,
        b',' if a < 65536 && b < 65536 => a * 65536 + b,
        b'@' if a < 65536 && b < 65536 => FIRST_REFUSAL + b * 65536 + a,
        _ => return None,
    };
    Some(Token::Number(number))
}
