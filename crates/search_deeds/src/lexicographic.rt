//! The order of prefixes.

ghost use Rattle.std.specs.Prelude.{◌≡◌};
ghost use Rattle.std.specs.Ordering.{nat_cmp};
ghost use Rattle.std.specs.Cmp.Lexicographic.{slice_cmp};
ghost use Rattle.refutation.specs.Prefixes.{class_numbers};

use ot_base::ClassId;
use std::cmp::Ordering;

/// Which of two lists of classes comes first in lexicographic order, in which a list comes before those that it begins.
pub(crate) fn order(a: &[ClassId], b: &[ClassId]) -> Ordering
    ensures { result ≡ slice_cmp nat_cmp (class_numbers a.now) (class_numbers b.now) }
{
    a.iter()
        .map(|class| class.0)
        .cmp(b.iter().map(|class| class.0))
}
