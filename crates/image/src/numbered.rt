// One record of a table, by its number.
ghost use Rattle.std.specs.Prelude.{◌≡◌, ℕ, List, refl};
ghost use Rattle.image.specs.Records.{place_of, phase_at, synchronizer_at, arc_at};
ghost use Rattle.image.specs.declared.header.Layout.{Layout};

use crate::header::{Image, Layout};
use crate::reader::Reader;
use crate::records::{Arc, Phase, Stored, Synchronizer, Whole, place};

// Record i of its table, from a reader that is made at the record's place, in a table that ends with the record.
fn in_turn<R: Stored>(bytes: &[u8], layout: Layout, i: u32) -> R
    ensures { result ≡ R.from bytes.now (place_of (R.table layout) (R.size layout) i) }
{
    let size = R::size(layout);
    let at = place(R::table(layout), size, i);
    let mut reader = Reader::new(bytes, at);
    reader.next(size as usize, at + size as usize).unwrap()
}

// The same where the image says how many there are: whole, where all the table is there, and through the reader where it is not. Whether all of it lies
// within the bytes is the same question for each record, so compiled code asks it once for a loop over the table.
fn in_table<R: Whole>(bytes: &[u8], image: Image, i: u32) -> R
    ensures { result ≡ R.from bytes.now (place_of (R.table image.layout) (R.size image.layout) i) }
{
    let table = R::table(image.layout);
    let size = R::size(image.layout);
    let count = R::count(image);
    if size == R::BYTES && i < count && place(table, R::BYTES, count) <= bytes.len() {
        R::whole(bytes, place(table, R::BYTES, i))
    } else {
        in_turn(bytes, image.layout, i)
    }
}

pub trait Record: Stored {
    // Record i of its table, which the layout places.
    ghost numbered: { List ℕ → Layout → ℕ → Self };

    // As `read`, where the image says how many there are: whole, where all the table is there.
    fn of(bytes: &[u8], image: Image, i: u32) -> Self
        ensures { result ≡ numbered bytes.now image.layout i };

    ghost lies: { (bytes : List ℕ) (layout : Layout) (i : ℕ) → numbered bytes layout i ≡ Self.from bytes (place_of (Self.table layout) (Self.size layout) i) };

    final fn read(bytes: &[u8], layout: Layout, i: u32) -> Self
        ensures { result ≡ numbered bytes.now layout i }
    {
        in_turn(bytes, layout, i)
    }
}

impl Record for Phase {
    ghost numbered = { phase_at };

    ghost lies = { λ bytes layout i. unfold phase_at in refl };

    #[tactic(auto, unfolding(crate::specs::Records::phase_at))]
    fn of(bytes: &[u8], image: Image, i: u32) -> Phase {
        in_table(bytes, image, i)
    }
}

impl Record for Synchronizer {
    ghost numbered = { synchronizer_at };

    ghost lies = { λ bytes layout i. unfold synchronizer_at in refl };

    #[tactic(auto, unfolding(crate::specs::Records::synchronizer_at))]
    fn of(bytes: &[u8], image: Image, i: u32) -> Synchronizer {
        in_table(bytes, image, i)
    }
}

impl Record for Arc {
    ghost numbered = { arc_at };

    ghost lies = { λ bytes layout i. unfold arc_at in refl };

    #[tactic(auto, unfolding(crate::specs::Records::arc_at))]
    fn of(bytes: &[u8], image: Image, i: u32) -> Arc {
        in_table(bytes, image, i)
    }
}
