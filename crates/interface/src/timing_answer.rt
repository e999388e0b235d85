// What C is told of timing. A field that does not apply is 0.
ghost use Rattle.std.specs.Prelude.{◌≡◌};
ghost use Rattle.interface.specs.Answers.{timing_answer};

use image::Refusal;
use timing::Answer;

// Refusal 0 and no arcs of a loop: timed. Refusal 0 and some arcs: a growing loop. The gain stands first, so that no gap lies between fields.
#[repr(C)]
#[derive(Clone, Copy, Default)]
pub struct TimingAnswer {
    pub gain: i64,
    pub refusal: u32,
    pub record: u32,
    pub loop_arcs: u32,
    pub missed_setups: u32,
    pub missed_holds: u32,
}

impl From<Result<Answer, Refusal>> for TimingAnswer {
    ghost from_gives = { λ answer given. given ≡ timing_answer answer };

    fn from(answer: Result<Answer, Refusal>) -> TimingAnswer {
        match answer {
            Ok(Answer::Growing { arcs, gain }) => TimingAnswer {
                gain,
                loop_arcs: arcs,
                ..TimingAnswer::default()
            },
            Ok(Answer::Timed { setups, holds }) => TimingAnswer {
                missed_setups: setups,
                missed_holds: holds,
                ..TimingAnswer::default()
            },
            Err(refusal) => TimingAnswer {
                refusal: refusal.rule.number(),
                record: refusal.record,
                ..TimingAnswer::default()
            },
        }
    }
}
