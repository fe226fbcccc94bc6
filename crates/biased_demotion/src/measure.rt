ghost use Rattle.std.specs.Prelude.{◌≡◌, ◌<◌, ◌≤◌, length};
ghost use Rattle.biased_demotion.specs.Measure.{r_measure, markedness_above};

use erc_vectors::{ConId, LIMIT, Strata};

/// The r-measure of a hierarchy of as many constraints as there are flags (Prince and Tesar 2004): the sum, over the
/// faithfulness constraints, of the number of markedness constraints in strictly higher strata. A flag says of a constraint
/// whether it is a faithfulness constraint.
pub fn r_measure(s: &Strata, faith: &[bool]) -> u32
    requires { length s.now ≡ length faith.now }
    ensures { result ≡ r_measure faith.now s.now }
{
    let mut sum = 0;
    for f in 0..s.width() {
        if faith[f] {
            sum += markedness_above(s, faith, ConId(f as u16));
        }
    }
    sum
}

/// The number of markedness constraints in strictly higher strata than this constraint.
fn markedness_above(s: &Strata, faith: &[bool], f: ConId) -> u32
    requires same { length s.now ≡ length faith.now }
    requires within { f.0 < length s.now }
    ensures number { result ≡ markedness_above faith.now s.now f.0 }
    ensures small { result ≤ LIMIT }
{
    let mut count = 0;
    for m in 0..s.width() {
        if !faith[m] && s.level(ConId(m as u16)) < s.level(f) {
            count += 1;
        }
    }
    count
}
