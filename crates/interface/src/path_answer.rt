// What C is told of a path. A field that does not apply is 0.
ghost use Rattle.std.specs.Prelude.{◌≡◌};
ghost use Rattle.interface.specs.Answers.{path_answer};

use image::Refusal;
use timing::Path;

// Refusal 0, where the path starts and how many arcs it has.
#[repr(C)]
#[derive(Clone, Copy, Default)]
pub struct PathAnswer {
    pub refusal: u32,
    pub record: u32,
    pub launch: u32,
    pub arcs: u32,
}

impl From<Result<Path, Refusal>> for PathAnswer {
    ghost from_gives = { λ answer given. given ≡ path_answer answer };

    fn from(answer: Result<Path, Refusal>) -> PathAnswer {
        match answer {
            Ok(path) => PathAnswer {
                refusal: 0,
                record: 0,
                launch: path.launch,
                arcs: path.count,
            },
            Err(refusal) => PathAnswer {
                refusal: refusal.rule.number(),
                record: refusal.record,
                ..PathAnswer::default()
            },
        }
    }
}
