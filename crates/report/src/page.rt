// The page that a report is written on.
ghost use Rattle.std.specs.Prelude.{◌≡◌, ◌≤◌, [], ◌++◌, length};
ghost use Rattle.report.specs.Decimal.{digits};

// A buffer that is lent, written from the front up to `end`.
#[derive(Drop)]
pub(crate) struct Page<'a> {
    text: &'a mut [u8],
    end: usize,
    ghost within: { end ≤ length text.now },
}

impl<'a> Page<'a> {
    ghost use Rattle.report.specs.Inside.Page.{room, sheet, ◌then◌};

    // A page with nothing on it.
    pub(crate) fn new(text: &'a mut [u8]) -> Page<'a>
        ensures { sheet result ≡ record { words = []; rest = text.old; buffer = text.entry.ghost_name } }
    {
        Page { text, end: 0 }
    }

    // Words as they are.
    pub(crate) fn write(&mut self, words: &[u8])
        requires { length words.now ≤ room self.old }
        ensures { sheet self.new ≡ sheet self.old then words.now }
    {
        let end = self.end + words.len();
        self.text[self.end..end].copy_from_slice(words);
        self.end = end;
    }

    // A number in decimal. `write!` promises what it wrote only where it answers Ok, and nothing says that it does; and `itoa`'s buffer would
    // copy each number once more, which made long reports slower.
    pub(crate) fn write_digits(&mut self, n: u64)
        requires { length (digits n) ≤ room self.old }
        ensures { sheet self.new ≡ sheet self.old then digits n }
    {
        let end = self.end + digit_count(n);
        itoa::write_digits(n, self.text, end);
        self.end = end;
    }

    // Gives the buffer back, and how much of it is written.
    pub(crate) fn finish(self) -> usize
        ensures sized { result ≡ length (sheet self.entry).words }
        ensures left { self.exit.0.now ≡ (sheet self.entry).words ++ (sheet self.entry).rest }
    {
        self.end
    }
}

// How many digits a number has.
fn digit_count(n: u64) -> usize
    ensures { result ≡ length (digits n) }
{
    n.checked_ilog10().unwrap_or(0) as usize + 1
}
