// What C is told of an image made from a text. A field that does not apply is 0.
ghost use Rattle.std.specs.Prelude.{◌≡◌};
ghost use Rattle.interface.specs.Answers.{text_answer};

use image::Refusal;

// Refusal 0 and how many bytes the image has; or the number of refusal and the line or the record at fault.
#[repr(C)]
#[derive(Clone, Copy, Default)]
pub struct TextAnswer {
    pub refusal: u32,
    pub record: u32,
    pub image_bytes: u32,
}

impl From<Result<u32, Refusal>> for TextAnswer {
    ghost from_gives = { λ answer given. given ≡ text_answer answer };

    fn from(answer: Result<u32, Refusal>) -> TextAnswer {
        match answer {
            Ok(bytes) => TextAnswer {
                refusal: 0,
                record: 0,
                image_bytes: bytes,
            },
            Err(refusal) => TextAnswer {
                refusal: refusal.rule.number(),
                record: refusal.record,
                ..TextAnswer::default()
            },
        }
    }
}
