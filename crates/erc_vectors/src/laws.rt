//! The number behind the limit that contracts cite: the function's contract is the law, and its body is empty.

ghost use Rattle.std.specs.Prelude.{◌≡◌};

use crate::condition::LIMIT;

/// A condition, a ranking and a hierarchy have at most 64 constraints.
pub fn limit_of_constraints()
    ensures { LIMIT ≡ 64 }
{}
