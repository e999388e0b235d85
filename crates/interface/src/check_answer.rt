// What C is told of a check. A field that does not apply is 0.
ghost use Rattle.std.specs.Prelude.{◌≡◌};
ghost use Rattle.interface.specs.Answers.{check_answer};

use image::{Image, Refusal};

// Refusal 0 and the image's numbers; or the number of refusal and the record at fault.
#[repr(C)]
#[derive(Clone, Copy, Default)]
pub struct CheckAnswer {
    pub refusal: u32,
    pub record: u32,
    pub cycle: u32,
    pub phases: u32,
    pub synchronizers: u32,
    pub arcs: u32,
}

impl From<Result<Image, Refusal>> for CheckAnswer {
    ghost from_gives = { λ answer given. given ≡ check_answer answer };

    fn from(answer: Result<Image, Refusal>) -> CheckAnswer {
        match answer {
            Ok(image) => CheckAnswer {
                refusal: 0,
                record: 0,
                cycle: image.cycle,
                phases: image.phases,
                synchronizers: image.synchronizers,
                arcs: image.arcs,
            },
            Err(refusal) => CheckAnswer {
                refusal: refusal.rule.number(),
                record: refusal.record,
                ..CheckAnswer::default()
            },
        }
    }
}
