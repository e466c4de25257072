// What the program tells at its end.
ghost use Rattle.std.specs.Prelude.{◌≡◌, if◌then◌else◌};
ghost use Rattle.std.specs.List.{list_any};
ghost use Rattle.gt_next.specs.Texts.{is_refusal as is_refusal_of};
ghost use Rattle.gt_run.specs.Ended.{refusal_status as refusal_status_of};

use crate::ending::Ending;
use gt_answers::Answers;
use gt_front::Refusal;

/// How a call of the program ended: its status, the answers so far, and the refusal where there was one.
/// The status is 0 where all lines were answered, 1 where one of the answers is a refusal, 2 or 3 where no line was run, 4
/// where the sink failed, and 9 if memory ran out.
#[derive(Debug, Drop)]
pub struct Outcome {
    pub status: u8,
    pub answers: Answers,
    pub refusal: Option<Refusal>,
}

impl Outcome {
    ghost use Rattle.std.specs.Prelude.{◌≡◌};
    ghost use Rattle.gt_run.specs.Ended.{status_of, refusal_of};

    /// The outcome of an ending.
    pub fn of(ending: Ending, answers: Answers) -> Outcome
        ensures status { result.status ≡ status_of ending answers.items }
        ensures answers { result.answers ≡ answers }
        ensures refusal { result.refusal ≡ refusal_of ending }
    {
        match ending {
            Ending::Finished => Outcome {
                status: finished_status(&answers),
                answers,
                refusal: None,
            },
            Ending::Refused(refusal) => Outcome {
                status: refusal_status(refusal),
                answers,
                refusal: Some(refusal),
            },
            Ending::SinkFailed => Outcome {
                status: 4,
                answers,
                refusal: None,
            },
            Ending::NoMemory => Outcome {
                status: 9,
                answers,
                refusal: None,
            },
        }
    }
}

// 1 where some answer is a refusal, else 0.
fn finished_status(answers: &Answers) -> u8
    ensures { result ≡ (if list_any is_refusal_of answers.now.items then 1 else 0) }
{
    if answers.has_refusal() { 1 } else { 0 }
}

// 3 for a file, else 2.
fn refusal_status(refusal: Refusal) -> u8
    ensures { result ≡ refusal_status_of refusal }
{
    match refusal {
        Refusal::File { .. } => 3,
        _ => 2,
    }
}
