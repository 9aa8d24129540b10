// The actions of a submission: one by its kind, a Build, a use, or a mark, which is a Build too; and in turn, to the first that is
// refused.
#![tactic(auto)]

ghost use Rattle.std.specs.Prelude.{◌≡◌, ℕ, cond, ◌+◌, ◌≤◌, length, eqb, IfOk};
ghost use Rattle.std.proofs.Math.Option.{none};
ghost use Rattle.ray_tracing.specs.Causes.{bare};
ghost use Rattle.ray_tracing.specs.Submission as Submission;
ghost use Rattle.ray_tracing.specs.Submission.{judge, action, use_tlas, taken_for, decode, accepted, refused, answer_of, counter_of};
ghost use Rattle.ray_tracing.specs.Submission.{outcome_of, lent_with, piece_of, lent_buffers, SameBuffers};
ghost use Rattle.submit_checks.specs.Outcome.{Acts};
ghost use Rattle.submit_run.specs.Cells.{cells_at, operand_cause, id_cause};

use ray_tracing::{SubmissionBuffers, SubmissionRefusal, TlasId, ValidateAsActionsError};
use submit_build::build_action;
use submit_checks::{Acted, BuildLists};
use submit_use::use_action;

// Kinds of action: numbers, as they stand in the lent cells.
const BUILD: u32 = 1;

const USE_TLAS: u32 = 2;

const MARK_BLAS: u32 = 3;

const MARK_TLAS: u32 = 4;

const MARK_BUILT: u32 = 5;

// The four cells of an action.
#[derive(Clone, Copy)]
struct Cells {
    kind: u32,
    operand: u32,
    blas_count: u32,
    tlas_count: u32,
}

fn cells_at(actions: &[u32], at: usize) -> Cells
    requires { at + 4 ≤ length actions.now }
    ensures { result ≡ cells_at actions.now at }
{
    Cells {
        kind: actions[at],
        operand: actions[at + 1],
        blas_count: actions[at + 2],
        tlas_count: actions[at + 3],
    }
}

// The mark that names each Tlas's Blases is taken for a Build.
fn taken_for(kind: u32) -> u32
    ensures { result ≡ taken_for kind }
{
    if kind == MARK_BUILT {
        return BUILD;
    }
    kind
}

// The id of an action that is no Build: 5 of its kind, then 6 of an operand that no id is as large as.
fn judge_operand(kind: u32, operand: u32) -> Result<u16, ValidateAsActionsError>
    ensures cause { id_cause result ≡ operand_cause kind operand }
    ensures id { IfOk result (λ id. id ≡ operand) }
{
    if kind < USE_TLAS || MARK_TLAS < kind {
        return Err(ValidateAsActionsError::InvalidValue);
    }
    u16::try_from(operand).map_err(|_| ValidateAsActionsError::InvalidResource)
}

// A use. A proof has no value for a part lent from behind `&mut`, but has it from behind `&`.
fn use_lent(buffers: &SubmissionBuffers<'_>, tlas: TlasId) -> Result<(), ValidateAsActionsError>
    requires { judge (lent_with 0 (lent_buffers buffers.now)) ≡ none }
    ensures { (n : ℕ) → Acts n (lent_buffers buffers.now) (use_tlas tlas.0) result n (lent_buffers buffers.now) }
{
    use_action(
        buffers.blases,
        buffers.tlases,
        buffers.dependency_counts,
        buffers.dependencies,
        tlas,
    )
}

// One action. A mark of one id is a Build whose Tlases list nothing: its lists stand in an array of its own. What a Build
// answers is taken apart, so that it is not in memory, where it is answered, for a use too.
fn step(counter: u64, buffers: &mut SubmissionBuffers<'_>, lists: &[u16], cells: Cells) -> Acted
    requires { judge (lent_with counter (lent_buffers buffers.old)) ≡ none }
    ensures acts { Acts counter (lent_buffers buffers.old)
        (action lists.now cells.kind cells.operand cells.blas_count cells.tlas_count)
        result.came_to result.counter (lent_buffers buffers.new) }
    ensures same { SameBuffers buffers.old buffers.new }
{
    let kind = taken_for(cells.kind);
    if kind == BUILD {
        let build = BuildLists {
            cells: lists,
            start: cells.operand as usize,
            blas_count: cells.blas_count as usize,
            tlas_count: cells.tlas_count as usize,
        };
        let built = build_action(counter, buffers, &build);
        return Acted {
            came_to: built.came_to,
            counter: built.counter,
        };
    }
    let id = match judge_operand(kind, cells.operand) {
        Ok(id) => id,
        Err(error) => {
            return Acted {
                came_to: Err(error),
                counter,
            };
        }
    };
    if kind == USE_TLAS {
        return Acted {
            came_to: use_lent(buffers, TlasId(id)),
            counter,
        };
    }
    let own = [id, 0];
    let mark = BuildLists {
        cells: &own,
        start: 0,
        blas_count: usize::from(kind == MARK_BLAS),
        tlas_count: usize::from(kind == MARK_TLAS),
    };
    let marked = build_action(counter, buffers, &mark);
    Acted {
        came_to: marked.came_to,
        counter: marked.counter,
    }
}

// Where no whole action is left: a part of one is none.
fn ends(left: usize, index: usize, counter: u64) -> Result<u64, SubmissionRefusal>
    ensures { (answer_of result ≡ cond (eqb left 0) accepted (refused index (bare 5))) × (counter_of result ≡ counter) }
{
    if left != 0 {
        return Err(SubmissionRefusal {
            error: ValidateAsActionsError::InvalidValue,
            action: index,
            counter,
        });
    }
    Ok(counter)
}

// The actions in turn, to the first that is refused.
pub fn run(
    counter: u64,
    buffers: &mut SubmissionBuffers<'_>,
    actions: &[u32],
    lists: &[u16],
) -> Result<u64, SubmissionRefusal>
    requires { judge (lent_with counter (lent_buffers buffers.old)) ≡ none }
    ensures runs { let y = lent_buffers buffers.new in
        outcome_of result y.blases y.tlases y.dependency_counts y.dependencies
        ≡ Submission.run (lent_with counter (lent_buffers buffers.old)) (decode (piece_of actions.now lists.now)) }
    ensures same { SameBuffers buffers.old buffers.new }
{
    let mut number = counter;
    let count = actions.len() / 4;
    for index in 0..count {
        let acted = step(number, &mut *buffers, lists, cells_at(actions, index * 4));
        number = acted.counter;
        // Tried as `map_err(..)?`: the exit of the `?` stayed open, since what the closure returns does not compute there.
        if let Err(error) = acted.came_to {
            return Err(SubmissionRefusal {
                error,
                action: index,
                counter: number,
            });
        }
    }
    ends(actions.len() % 4, count, number)
}
