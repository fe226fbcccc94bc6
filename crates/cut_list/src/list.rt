//! A list of cuts by what each does not share with the one before it.

ghost use Rattle.std.specs.Prelude.{◌≡◌, ◌<◌, ◌+◌, ◌≤◌, List, Some, [], ◌∷◌, ◌++◌, IfOk, OnOk, OnErr, length, slice_get, take};
ghost use Rattle.ot_base.specs.declared.tableau.ClassId.{ClassId};
ghost use Rattle.refutation.specs.Prefixes.{class_numbers};
ghost use Rattle.cut_list.specs.Changed.{prefix_before};
ghost use Rattle.std.specs.Vec.{vec_len, vec_capacity};

use crate::front::common_front;
use erc_vectors::{List, NoMemory};
use ot_base::ClassId;
use refutation::{Cut, Prefix};
use std::alloc::Global;
use std::marker::Model;

/// How a cut comes from the one before it: so many classes of that one stay, and these stand behind them.
#[derive(Clone, Copy, Debug)]
pub struct Change<'a> {
    pub kept: usize,
    pub own: &'a [ClassId],
    /// The position of its certificate, from 0 on.
    pub certificate: usize,
}

/// The same, where its own classes stand among those of all.
#[derive(Clone, Copy, Debug)]
struct Step {
    kept: usize,
    start: usize,
    count: usize,
    certificate: usize,
}

/// A list of cuts that grows at its end. A contract sees it as the list of the cuts.
#[derive(Debug, Drop)]
pub struct CutList {
    steps: Vec<Step>,
    classes: Vec<ClassId>,
    /// The classes of the last cut.
    last: Vec<ClassId>,
}

impl Model for CutList {
    ghost use Rattle.std.specs.Prelude.{List, []};
    ghost use Rattle.refutation.specs.declared.typology.Cut.{Cut};
    ghost use Rattle.cut_list.specs.Changed.{cuts_by, IsWhole};

    ghost Value = { List Cut };

    ghost view = { λ cuts. cuts_by cuts.classes.items [] cuts.steps.items };

    ghost invariant = { λ cuts. IsWhole cuts.classes.items cuts.steps.items cuts.last.items };
}

impl CutList {
    /// No cut. It takes no memory yet.
    pub fn new(alloc: Global) -> CutList
        ensures { result ≡ [] }
    {
        CutList {
            steps: Vec::new(alloc),
            classes: Vec::new(alloc),
            last: Vec::new(alloc),
        }
    }

    /// The number of cuts.
    pub fn len(&self) -> usize
        ensures { result ≡ length self.now }
    {
        self.steps.len()
    }

    /// Puts a cut behind the others. Where there is no memory for it the list stays as it was.
    pub fn push(&mut self, prefix: &[ClassId], certificate: usize) -> Result<(), NoMemory>
        ensures ok { OnOk result (self.new ≡ self.old ++ (record { prefix = class_numbers prefix.now; certificate = certificate }) ∷ []) }
        ensures refused { OnErr result (self.new ≡ self.old) }
    {
        let kept = common_front(self.last.as_slice(), prefix);
        let own = &prefix[kept..];
        let step = Step {
            kept,
            start: self.classes.len(),
            count: own.len(),
            certificate,
        };
        self.last.reserve(own.len())?;
        self.classes.extend_from_slice(own)?;
        self.steps.push(step)?;
        self.last.truncate(kept);
        put_reserved(&mut self.last, own);
        Ok(())
    }

    /// How the cut at this place, from 0 on, comes from the one before it, and the first from no class.
    pub fn change(&self, k: usize) -> Change<'_>
        requires { k < length self.now }
        ensures { (before : List ClassId) → class_numbers before ≡ prefix_before self.now k
            → slice_get self.now k ≡ Some (record { prefix = class_numbers (take result.kept before ++ result.own.now); certificate = result.certificate }) }
    {
        let step = self.steps[k];
        prove!(step.count <= self.classes.len());
        prove!(step.start <= self.classes.len() - step.count);
        Change {
            kept: step.kept,
            own: &self.classes[step.start..step.start + step.count],
            certificate: step.certificate,
        }
    }

    /// The cuts, each with its whole prefix.
    pub fn listed(&self, alloc: Global) -> Result<List<Cut>, NoMemory>
        ensures { IfOk result (λ cuts. cuts ≡ self.now) }
    {
        let mut cuts = List::new(alloc);
        let mut prefix = Vec::new(alloc);
        for k in 0..self.len() {
            let change = self.change(k);
            prefix.truncate(change.kept);
            prefix.extend_from_slice(change.own)?;
            cuts.push(Cut {
                prefix: Prefix::of(alloc, prefix.as_slice())?,
                certificate: change.certificate,
            })?;
        }
        Ok(cuts)
    }
}

/// Puts classes behind others, for which there is room.
fn put_reserved(classes: &mut Vec<ClassId>, own: &[ClassId])
    requires { vec_len classes.old + length own.now ≤ vec_capacity classes.old }
    ensures { classes.new.items ≡ classes.old.items ++ own.now }
{
    for class in own {
        classes.push_reserved(*class);
    }
}
