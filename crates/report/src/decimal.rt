// Signed numbers and results as text.
ghost use Rattle.std.specs.Prelude.{◌≡◌, ◌≤◌, length};
ghost use Rattle.report.specs.Decimal.{signed, result_text};
ghost use Rattle.report.specs.Inside.Page.{room, sheet, ◌then◌};

use crate::page::Page;

// What stands where no arc leads in (`mark` of circuit/specs/Times), and how it is written.
const MARK: i64 = i64::MAX;

const MARK_TEXT: &[u8; 1] = b"-";

impl Page<'_> {
    // A signed number.
    pub(crate) fn write_signed(&mut self, z: i64)
        requires { length (signed z) ≤ room self.old }
        ensures { sheet self.new ≡ sheet self.old then signed z }
    {
        if z < 0 {
            self.write(b"-");
            self.write_digits(z.unsigned_abs());
        } else {
            self.write_digits(z as u64);
        }
    }

    // A result: a number, or a dash for the mark.
    pub(crate) fn write_result(&mut self, z: i64)
        requires { length (result_text z) ≤ room self.old }
        ensures { sheet self.new ≡ sheet self.old then result_text z }
    {
        if z == MARK {
            self.write(MARK_TEXT);
        } else {
            self.write_signed(z);
        }
    }
}
