// An image that the check accepted.
ghost use Rattle.std.specs.Prelude.{Ok, ◌≡◌, ◌≤◌};
ghost use Rattle.image.specs.Checks.{check_of};
ghost use Rattle.tables.specs.Inside.Sizes.{ARCS, NODES, PHASES};

use image::Image;

// A good image, and its bytes. The tables have room for its records.
#[derive(Clone, Copy)]
pub(crate) struct Good<'a> {
    pub(crate) bytes: &'a [u8],
    pub(crate) image: Image,
    ghost good: { check_of bytes.now ≡ Ok image },
    ghost fits: { (image.phases ≤ PHASES) × (image.synchronizers ≤ NODES) × (image.arcs ≤ ARCS) },
}
