// What a synchronizer is: its kind, and the number that stands for it in an image (docs/RULES.md).
ghost use Rattle.std.specs.Prelude.{◌≡◌};
ghost use Rattle.image.specs.Kind.{kind_number, kind_of};

#[derive(Clone, Copy, Debug, PartialEq, Eq)]
pub enum Kind {
    Latch = 0,
    FlipFlop = 1,
}

// A number that stands for no kind.
#[derive(Clone, Copy, Debug, PartialEq, Eq)]
pub struct NoKind(pub u32);

impl Kind {
    pub fn number(self) -> u32
        ensures { result ≡ kind_number self }
    {
        self as u32
    }
}

impl TryFrom<u32> for Kind {
    type Error = NoKind;

    ghost try_from_gives = { λ number given. given ≡ kind_of number };

    fn try_from(number: u32) -> Result<Kind, NoKind> {
        match number {
            0 => Ok(Kind::Latch),
            1 => Ok(Kind::FlipFlop),
            _ => Err(NoKind(number)),
        }
    }
}
