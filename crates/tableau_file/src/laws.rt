//! The limits in digits: the function's contract is a law, and its body is empty.

ghost use Rattle.std.specs.Prelude.{◌≡◌};
ghost use Rattle.tableau_file.specs.declared.limits.TheConstants.{FILE_LIMIT, BILLION};

/// The greatest number of bytes of a file, and the unit of counts.
pub fn limits_in_digits()
    ensures bytes { FILE_LIMIT ≡ 16777216 }
    ensures billion { BILLION ≡ 1000000000 }
{}
