// What can be wrong with a line.
use rules::FIRST_REFUSAL;
use std::fmt;

#[derive(Clone, Copy)]
pub enum Wrong {
    NotHanded,
    NoEntry,
    NotGiven,
    NotNumbers,
    Number {
        what: &'static str,
        got: u64,
        right: u64,
    },
    Place {
        what: &'static str,
        place: usize,
        got: u64,
        right: u64,
    },
}

impl fmt::Display for Wrong {
    fn fmt<W: fmt::Write>(&self, f: &mut fmt::Formatter<W>) -> fmt::Result {
        match *self {
            Wrong::NotHanded => f.write_str("nothing that can be handed over"),
            Wrong::NoEntry => f.write_str("there is no such entry or record"),
            Wrong::NotGiven => f.write_str("not the numbers, places and parts of the entry"),
            Wrong::NotNumbers => f.write_str(
                "a part has too many numbers, too few, or something that is none",
            ),
            Wrong::Number { what, got, right } => {
                write!(f, "{what}: got {}, not {}", Told(got), Told(right))
            }
            Wrong::Place {
                what,
                place,
                got,
                right,
            } => write!(
                f,
                "{what}, place {place}: got {}, not {}",
                Told(got),
                Told(right)
            ),
        }
    }
}

// A number as the file writes it, if that can be told from the number.
#[derive(Clone, Copy)]
struct Told(u64);

impl fmt::Display for Told {
    fn fmt<W: fmt::Write>(&self, f: &mut fmt::Formatter<W>) -> fmt::Result {
        let number = self.0;
        if number == u64::MAX {
            return f.write_str("-");
        }
        if number < FIRST_REFUSAL {
            return write!(f, "{number}");
        }
        write!(f, "{}@{}", number % 65536, (number - FIRST_REFUSAL) / 65536)
    }
}
