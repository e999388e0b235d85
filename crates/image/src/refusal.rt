// Why an input is refused: by which rule of docs/RULES.md, and for which record.
ghost use Rattle.std.specs.Prelude.{◌≡◌, Some};
ghost use Rattle.image.specs.Refusal.{number_of, refusal, refusal_text};

use std::error::Error;
use std::fmt;

// The rules, each with its number of refusal. Rules 1 to 9 are about an image, the others about what a call was lent or asked.
#[derive(Clone, Copy, Debug, PartialEq, Eq)]
pub enum Rule {
    Length = 1,
    Version = 2,
    Cycle = 3,
    Counts = 4,
    Layout = 5,
    Phases = 6,
    Synchronizers = 7,
    Arcs = 8,
    Order = 9,
    ResultBuffer = 10,
    ArcBuffer = 11,
    NoSynchronizer = 12,
    NothingEnters = 13,
    GrowingLoop = 14,
    Text = 15,
    ImageBuffer = 16,
}

impl Rule {
    pub fn number(self) -> u32
        ensures { result ≡ number_of self }
    {
        self as u32
    }

    // A refusal by the rule, with the record at fault.
    pub fn at(self, culprit: u32) -> Refusal
        ensures { result ≡ refusal self culprit }
    {
        Refusal {
            rule: self,
            record: culprit,
        }
    }
}

// The rule, and the lowest record at fault, or line of a text. It is 0 where the rule speaks of no record: C's structs and the theorems on refusals
// (`TimingRule`, `PathRule` of the crate demands) have that 0, so it is no Option.
#[derive(Clone, Copy, Debug, PartialEq, Eq)]
pub struct Refusal {
    pub rule: Rule,
    pub record: u32,
}

// By a rule that speaks of no record.
impl From<Rule> for Refusal {
    ghost from_gives = { λ rule given. given ≡ refusal rule 0 };

    fn from(rule: Rule) -> Refusal {
        Refusal { rule, record: 0 }
    }
}

impl fmt::Display for Refusal {
    ghost output = { λ given. Some (refusal_text given) };

    fn fmt<W: fmt::Write>(&self, f: &mut fmt::Formatter<W>) -> fmt::Result {
        let number = self.rule.number();
        let record = self.record;
        write!(f, "refused {number} {record}")
    }
}

impl Error for Refusal {}
