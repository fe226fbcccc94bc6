//! The ranking of the winners that keeps faithfulness constraints low.

ghost use Rattle.std.specs.Prelude.{◌≡◌, ◌≤◌, true, false, length, All, IfOk, IfSome, IfNone};
ghost use Rattle.erc_vectors.specs.declared.condition.TheConstants.{LIMIT};
ghost use Rattle.ot_theory.specs.Refutations.{no_ranking_keeps};
ghost use Rattle.biased_demotion.specs.Biased.{IsBiased};
ghost use Rattle.biased_demotion.specs.Measure.{r_measure};
ghost use Rattle.command_words.specs.Words.{named};

use biased_demotion::{biased, r_measure};
use command_words::named_flags;
use demotion::Demoted;
use erc_vectors::{ConId, Condition, NoMemory, Strata};
use std::alloc::Global;

/// A hierarchy of biased demotion, and its r-measure.
#[derive(Clone, Copy, Debug)]
pub(crate) struct BiasedRanking {
    pub(crate) strata: Strata,
    pub(crate) measure: u32,
}

/// The biased ranking of conditions that are each of n constraints, where those are faithfulness constraints that a list names.
/// None where no ranking keeps the conditions.
pub(crate) fn biased_ranking(
    alloc: Global,
    n: usize,
    set: &[Condition],
    faith: &[ConId],
) -> Result<Option<BiasedRanking>, NoMemory>
    requires within { n ≤ LIMIT }
    requires widths { All (λ marks. length marks ≡ n) set.now }
    ensures kept { IfOk result (λ found. IfSome found (λ ranking. no_ranking_keeps n set.now ≡ false)) }
    ensures strata { IfOk result (λ found. IfSome found (λ ranking. IsBiased (named n faith.now) set.now ranking.strata)) }
    ensures width { IfOk result (λ found. IfSome found (λ ranking. length ranking.strata ≡ n)) }
    ensures measure { IfOk result (λ found. IfSome found (λ ranking. ranking.measure ≡ r_measure (named n faith.now) ranking.strata)) }
    ensures stuck { IfOk result (λ found. IfNone found (no_ranking_keeps n set.now ≡ true)) }
{
    let flags = named_flags(alloc, n, faith)?;
    ranking_by(alloc, set, flags.as_slice())
}

/// The same, where of each constraint a flag says whether it is a faithfulness constraint.
fn ranking_by(
    alloc: Global,
    set: &[Condition],
    flags: &[bool],
) -> Result<Option<BiasedRanking>, NoMemory>
    requires within { length flags.now ≤ LIMIT }
    requires widths { All (λ marks. length marks ≡ length flags.now) set.now }
    ensures kept { IfOk result (λ found. IfSome found (λ ranking. no_ranking_keeps (length flags.now) set.now ≡ false)) }
    ensures strata { IfOk result (λ found. IfSome found (λ ranking. IsBiased flags.now set.now ranking.strata)) }
    ensures width { IfOk result (λ found. IfSome found (λ ranking. length ranking.strata ≡ length flags.now)) }
    ensures measure { IfOk result (λ found. IfSome found (λ ranking. ranking.measure ≡ r_measure flags.now ranking.strata)) }
    ensures stuck { IfOk result (λ found. IfNone found (no_ranking_keeps (length flags.now) set.now ≡ true)) }
{
    match biased(alloc, set, flags)? {
        Demoted::Ranked(strata) => {
            let measure = r_measure(&strata, flags);
            Ok(Some(BiasedRanking { strata, measure }))
        }
        Demoted::Stuck(_) => Ok(None),
    }
}
