// Judging a build, in the paper's order: tables, ids, entries, packages, the scratch, the final checks. Nothing is written.
#![tactic(auto)]

ghost use Rattle.std.specs.Prelude.{◌≡◌};
ghost use Rattle.ray_tracing.specs.Code.{verdict_of};
ghost use Rattle.ray_tracing.specs.Plan.{lent_tables};
ghost use Rattle.build_judge.specs.Judging.{judgement_of, judge_to_packages, judge_build};

use build_entries::judge_entries;
use build_final::{judge_states, scratch_size};
use build_ids::judge_ids;
use build_packages::judge_packages;
use build_tables::judge_tables;
use ray_tracing::{BuildRefusal, BuildTables};

// Tables, ids, entries, packages: what is judged in any case.
#[tactic(auto, unfolding(crate::specs::Judging::judge_to_packages))]
fn judge_records(tables: &BuildTables<'_>) -> Result<(), BuildRefusal>
    ensures { verdict_of result ≡ judge_to_packages (lent_tables tables.now) }
{
    judge_tables(tables)?;
    judge_ids(tables)?;
    judge_entries(tables)?;
    judge_packages(tables)
}

// A build, up to where only room is left to judge: the scratch size of what is to be recorded, or None. With a larger total of 0
// nothing is recorded, and nothing more is judged.
#[tactic(auto, using(crate::proofs::Build::ends))]
pub fn judge_build(tables: &BuildTables<'_>) -> Result<Option<u64>, BuildRefusal>
    ensures { judgement_of result ≡ judge_build (lent_tables tables.now) }
{
    judge_records(tables)?;
    let size = scratch_size(tables)?;
    if size == 0 {
        return Ok(None);
    }
    judge_states(tables)?;
    Ok(Some(size))
}
