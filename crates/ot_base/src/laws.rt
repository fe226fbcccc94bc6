//! The limits in digits: each function's contract is a law, and its body is empty.

ghost use Rattle.std.specs.Prelude.{◌≡◌};
ghost use Rattle.ot_base.specs.declared.limits.TheConstants.{INPUT_LIMIT, CANDIDATE_LIMIT, ROW_LIMIT, VIOLATION_LIMIT, PLACE_LIMIT};

/// The limits of a tableau, and of what a search keeps.
pub fn limits_in_digits()
    ensures inputs { INPUT_LIMIT ≡ 1000 }
    ensures candidates { CANDIDATE_LIMIT ≡ 200 }
    ensures rows { ROW_LIMIT ≡ 20000 }
    ensures violation { VIOLATION_LIMIT ≡ 1000000 }
    ensures places { PLACE_LIMIT ≡ 4096 }
{}
