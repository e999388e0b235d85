// Fields and lines.
ghost use Rattle.std.specs.Prelude.{◌≡◌, ◌/◌, ◌≤◌, [], ◌∷◌, length, map};
ghost use Rattle.report.specs.Decimal.{digits, signed, result_text};
ghost use Rattle.report.specs.Text.{space, feed, spaced, line, each, arc_line, row};
ghost use Rattle.report.specs.Inside.Page.{room, sheet, ◌then◌};

use crate::page::Page;

impl Page<'_> {
    // A space and a number. No plainer as one generic function for what follows a space: three impls of a trait in place of three methods.
    pub(crate) fn write_number(&mut self, n: u32)
        requires { length (space ∷ digits n) ≤ room self.old }
        ensures { sheet self.new ≡ sheet self.old then (space ∷ digits n) }
    {
        self.write(b" ");
        self.write_digits(n.into());
    }

    // A space and a signed number.
    pub(crate) fn write_gain(&mut self, gain: i64)
        requires { length (space ∷ signed gain) ≤ room self.old }
        ensures { sheet self.new ≡ sheet self.old then (space ∷ signed gain) }
    {
        self.write(b" ");
        self.write_signed(gain);
    }

    // A space and a result.
    fn write_time(&mut self, time: i64)
        requires { length (space ∷ result_text time) ≤ room self.old }
        ensures { sheet self.new ≡ sheet self.old then (space ∷ result_text time) }
    {
        self.write(b" ");
        self.write_result(time);
    }

    // The end of a line.
    pub(crate) fn end_line(&mut self)
        requires { 1 ≤ room self.old }
        ensures { sheet self.new ≡ sheet self.old then (feed ∷ []) }
    {
        self.write(b"\n");
    }

    // The line of an arc.
    fn write_arc(&mut self, arc: u32)
        requires { length (line (digits arc) []) ≤ room self.old }
        ensures { sheet self.new ≡ sheet self.old then line (digits arc) [] }
    {
        self.write_digits(arc.into());
        self.end_line();
    }

    // The lines of arcs.
    pub(crate) fn write_arcs(&mut self, arcs: &[u32])
        requires { length (each (arc_line arcs.now) (length arcs.now)) ≤ room self.old }
        ensures { sheet self.new ≡ sheet self.old then each (arc_line arcs.now) (length arcs.now) }
    {
        for &arc in arcs {
            self.write_arc(arc);
        }
    }

    // The results of a synchronizer, each after a space.
    fn write_times(&mut self, times: &[i64])
        requires { length (spaced (map result_text times.now)) ≤ room self.old }
        ensures { sheet self.new ≡ sheet self.old then spaced (map result_text times.now) }
    {
        for &time in times {
            self.write_time(time);
        }
    }

    // The line of a synchronizer: its number and its results.
    fn write_row(&mut self, i: usize, times: &[i64])
        requires { length (line (digits i) (map result_text times.now)) ≤ room self.old }
        ensures { sheet self.new ≡ sheet self.old then line (digits i) (map result_text times.now) }
    {
        self.write_digits(i as u64);
        self.write_times(times);
        self.end_line();
    }

    // The lines of the synchronizers, each of six results.
    pub(crate) fn write_rows(&mut self, numbers: &[i64])
        requires { length (each (row numbers.now) (length numbers.now / 6)) ≤ room self.old }
        ensures { sheet self.new ≡ sheet self.old then each (row numbers.now) (length numbers.now / 6) }
    {
        let (rows, _) = numbers.as_chunks::<6>();
        for (i, times) in rows.iter().enumerate() {
            self.write_row(i, times);
        }
    }
}
