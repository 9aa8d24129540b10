// `validate_acceleration_structure_actions`: the start is judged, then the actions in turn.
#![tactic(auto)]

ghost use Rattle.std.specs.Prelude.{◌≡◌, ℕ};
ghost use Rattle.ray_tracing.specs.Submission.{piece_of, answer_of, answer_numbers, counter_of, Submits, Validates};
ghost use Rattle.ray_tracing.specs.Submission.{judge, lent_with, lent_buffers, SameBuffers};
ghost use Rattle.submit_checks.specs.Outcome.{checked_cause};
ghost use Rattle.submit.specs.Told.{numbers_in, Tells};

use causes::submission_figures;
use ray_tracing::{
    CommandIndices, SubmissionBuffers, SubmissionRefusal, ValidateAsActionsError, Validated,
};
use submit_run::run;
use submit_start::judge_start;

// The start, judged. A proof has no value for a part lent from behind `&mut`, but has it from behind `&`.
fn judge_lent(buffers: &SubmissionBuffers<'_>) -> Result<(), ValidateAsActionsError>
    ensures { (n : ℕ) → checked_cause result ≡ judge (lent_with n (lent_buffers buffers.now)) }
{
    judge_start(
        buffers.blases,
        buffers.tlases,
        buffers.dependency_counts,
        buffers.dependencies,
    )
}

// A submission: the start is judged, then the actions in turn.
#[tactic(auto, unfolding(ray_tracing::specs::Submission::submission))]
pub fn submit(
    counter: u64,
    buffers: &mut SubmissionBuffers<'_>,
    actions: &[u32],
    lists: &[u16],
) -> Result<u64, SubmissionRefusal>
    ensures submits { Submits counter (lent_buffers buffers.old) (piece_of actions.now lists.now) result
        (lent_buffers buffers.new) }
    ensures same { SameBuffers buffers.old buffers.new }
{
    judge_lent(buffers).map_err(|error| SubmissionRefusal {
        error,
        action: 0,
        counter,
    })?;
    run(counter, buffers, actions, lists)
}

// What a submission came to, by the paper's numbers, as the C answer has them: number, action and two figures, 0 where it was accepted; and
// the counter.
#[derive(Clone, Copy)]
pub struct Numbered {
    pub number: u64,
    pub action: u64,
    pub first: u64,
    pub second: u64,
    pub counter: u64,
}

fn answered(answer: Result<u64, SubmissionRefusal>) -> Numbered
    ensures { (numbers_in result ≡ answer_numbers (answer_of answer)) × (result.counter ≡ counter_of answer) }
{
    match answer {
        Ok(counter) => Numbered {
            number: 0,
            action: 0,
            first: 0,
            second: 0,
            counter,
        },
        Err(refusal) => {
            let figures = submission_figures(refusal.error);
            Numbered {
                number: figures.number,
                action: refusal.action as u64,
                first: figures.first,
                second: figures.second,
                counter: refusal.counter,
            }
        }
    }
}

// `submit`, told by numbers.
pub fn submit_numbers(
    counter: u64,
    buffers: &mut SubmissionBuffers<'_>,
    actions: &[u32],
    lists: &[u16],
) -> Numbered
    ensures tells { Tells counter (lent_buffers buffers.old) (piece_of actions.now lists.now) result (lent_buffers buffers.new) }
    ensures same { SameBuffers buffers.old buffers.new }
{
    answered(submit(counter, buffers, actions, lists))
}

pub fn validate_acceleration_structure_actions(
    indices: &mut CommandIndices,
    buffers: &mut SubmissionBuffers<'_>,
    actions: &[u32],
    lists: &[u16],
) -> Validated
    ensures validates { Validates indices.old (lent_buffers buffers.old) (piece_of actions.now lists.now) result
        indices.new (lent_buffers buffers.new) }
    ensures same { SameBuffers buffers.old buffers.new }
{
    let counter = indices.next_acceleration_structure_build_command_index;
    let s = submit_numbers(counter, buffers, actions, lists);
    indices.next_acceleration_structure_build_command_index = s.counter;
    Validated {
        number: s.number,
        action: s.action,
        first: s.first,
        second: s.second,
    }
}
