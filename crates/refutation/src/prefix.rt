//! The first classes of a choice.

ghost use Rattle.std.specs.Prelude.{◌≡◌, true, false, [], ◌∷◌, ◌++◌, IfOk};
ghost use Rattle.refutation.specs.Prefixes.{class_numbers};
ghost use Rattle.violation_profiles.specs.WellFormed.{IsPrefix};
ghost use Rattle.refutation.specs.declared.prefix.TheConstants.{FEW};

use erc_vectors::{List, NoMemory};
use ot_base::{ClassId, InId};
use std::alloc::Global;
use std::marker::Model;
use violation_profiles::Problem;

/// How many classes stand in the prefix itself. Those of a longer one stand in a list.
const FEW: usize = 15;

/// Classes in place, of which the first ones count, or a list of them.
#[derive(Debug, Drop)]
enum Classes {
    Few(Global, u8, [ClassId; FEW]),
    Many(List<ClassId>),
}

/// The first classes of a choice of one class for each input, in the order of the inputs: none, or all, or any number between.
/// A contract sees it as the list of their numbers, each from 0 on.
#[derive(Debug, Drop)]
pub struct Prefix {
    classes: Classes,
}

impl Model for Prefix {
    ghost use Rattle.std.specs.Prelude.{List, ℕ};
    ghost use Rattle.refutation.specs.Prefixes.{class_numbers};
    ghost use Rattle.refutation.specs.Places.{classes_in, AreWithin};
    ghost use Rattle.refutation.specs.declared.prefix.TheConstants.{FEW};

    ghost Value = { List ℕ };

    ghost view = { λ prefix. class_numbers (classes_in prefix.classes) };

    ghost invariant = { λ prefix. AreWithin FEW prefix.classes };
}

impl Prefix {
    /// The prefix of no class, which takes no memory yet.
    pub fn empty(alloc: Global) -> Prefix
        ensures { result ≡ [] }
    {
        Prefix {
            classes: Classes::Many(List::new(alloc)),
        }
    }

    /// The prefix of these classes.
    pub fn of(alloc: Global, classes: &[ClassId]) -> Result<Prefix, NoMemory>
        ensures { IfOk result (λ prefix. prefix ≡ class_numbers classes.now) }
    {
        if classes.len() > FEW {
            return Ok(Prefix {
                classes: Classes::Many(List::of(alloc, classes)?),
            });
        }
        let mut few = [ClassId(0); FEW];
        few[..classes.len()].copy_from_slice(classes);
        Ok(Prefix {
            classes: Classes::Few(alloc, classes.len() as u8, few),
        })
    }

    /// The classes, that of the first input first.
    pub fn as_slice(&self) -> &[ClassId]
        ensures { class_numbers result.now ≡ self.now }
    {
        match &self.classes {
            Classes::Few(_, count, few) => &few[..*count as usize],
            Classes::Many(classes) => classes.as_slice(),
        }
    }

    /// An equal prefix.
    pub fn copy(&self) -> Result<Prefix, NoMemory>
        ensures { IfOk result (λ copy. copy ≡ self.now) }
    {
        Ok(Prefix {
            classes: Classes::Many(self.listed()?),
        })
    }

    /// The prefix with this class of the next input behind its own.
    pub fn child(&self, c: ClassId) -> Result<Prefix, NoMemory>
        ensures { IfOk result (λ child. child ≡ self.now ++ c.0 ∷ []) }
    {
        let mut classes = self.listed()?;
        classes.push(c)?;
        Ok(Prefix {
            classes: Classes::Many(classes),
        })
    }

    /// The classes as a list.
    fn listed(&self) -> Result<List<ClassId>, NoMemory>
        ensures { IfOk result (λ classes. class_numbers classes ≡ self.now) }
    {
        match &self.classes {
            Classes::Few(alloc, count, few) => List::of(*alloc, &few[..*count as usize]),
            Classes::Many(classes) => classes.copy(),
        }
    }
}

/// Whether these are the first classes of a choice of the problem: at most as many as it has inputs, and each one of its input.
/// It takes no memory.
pub fn is_prefix(p: &Problem, classes: &[ClassId]) -> bool
    ensures holds { result ≡ true → IsPrefix p.now (class_numbers classes.now) }
    ensures fails { result ≡ false → IsPrefix p.now (class_numbers classes.now) → ⊥ }
{
    if classes.len() > p.inputs() {
        return false;
    }
    for (i, class) in classes.iter().enumerate() {
        if class.0 as usize >= p.classes(InId(i as u32)) {
            return false;
        }
    }
    true
}
