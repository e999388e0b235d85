// A reader holds the caller's bytes and a place in them, and hands out the records of a table in order. A table ends at a byte that the
// caller names, and its records are those that end no later. Any bytes, any place, any size and any end will do: past the end of the bytes
// every field reads 0.
ghost use Rattle.std.specs.Prelude.{◌≡◌};
ghost use Rattle.image.specs.Reader.{onward_of, found_of, reader_at, next_of};

use crate::bytes::fits;
use crate::records::Stored;

#[derive(Clone, Copy)]
pub struct Reader<'a> {
    pub bytes: &'a [u8],
    pub at: usize,
}

// The place behind the record; where the table has none there, the place itself. Of numbers and not of a reader: so proofs/ReaderSteps speaks of it.
fn onward(at: usize, size: usize, end: usize) -> usize
    ensures { result ≡ onward_of at size end }
{
    if fits(at, size, end) { at + size } else { at }
}

// The record at a place, where the table has one there. Of the slice and plain numbers.
fn found<R: Stored>(bytes: &[u8], at: usize, size: usize, end: usize) -> Option<R>
    ensures { result ≡ found_of R.from bytes.now at size end }
{
    if fits(at, size, end) {
        Some(R::at(bytes, at))
    } else {
        None
    }
}

impl<'a> Reader<'a> {
    pub fn new(bytes: &'a [u8], at: usize) -> Reader<'a>
        ensures { result ≡ reader_at bytes.entry at }
    {
        Reader { bytes, at }
    }

    // Where the reader stands.
    pub fn place(self) -> usize
        ensures { result ≡ self.entry.at }
    {
        self.at
    }

    // The next record of a table whose records have that size; for synchronizers it is the layout's.
    pub fn next<R: Stored>(&mut self, size: usize, end: usize) -> Option<R>
        ensures moved { self.new ≡ next_of self.old size end }
        ensures found { result ≡ found_of R.from self.old.bytes.now self.old.at size end }
    {
        let at = self.at;
        self.at = onward(at, size, end);
        found(self.bytes, at, size, end)
    }
}
