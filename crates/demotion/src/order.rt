ghost use Rattle.std.specs.Prelude.{◌≡◌, ◌+◌, ◌++◌, ◌≤◌, List, IsTrue, All, map, take, length};
ghost use Rattle.ot_theory.specs.declared.Mark.{Mark};
ghost use Rattle.ot_theory.specs.Rankings.{IsRanking};
ghost use Rattle.ot_theory.specs.Conditions.{keeps};
ghost use Rattle.ot_theory.specs.Hierarchies.{satisfies, in_stratum, order_along};

use erc_vectors::{ConId, LIMIT, Order, Strata};

/// The ranking along a hierarchy: the constraints by stratum number, and within a stratum in the order of the file. Of a
/// hierarchy that satisfies a set of conditions it is a ranking that keeps them (Tesar and Smolensky 2000).
pub fn order_of(s: &Strata) -> Order
    ensures along { result ≡ order_along s.now }
    ensures width { length result ≡ length s.now }
    ensures ranking { IsRanking (length s.now) result }
    ensures keeping { (set : List (List Mark)) → All (λ marks. IsTrue (satisfies s.now marks) × (length marks ≡ length s.now)) set → All (λ marks. IsTrue (keeps result marks)) set }
{
    prove!(s.width() <= LIMIT);
    let mut list = [ConId(0); LIMIT];
    let mut placed = 0;
    for above in 0..s.lowest() {
        placed = put_stratum(&mut list, placed, s, above + 1);
    }
    match Order::of(&list[..placed]) {
        Some(order) => order,
        None => unreachable!(),
    }
}

/// Writes the constraints of a stratum, ascending, behind those that are placed, and answers how many are placed then.
fn put_stratum(list: &mut [ConId], placed: usize, s: &Strata, level: u8) -> usize
    requires room { placed + length (in_stratum s.now level) ≤ length list.old }
    ensures count { result ≡ placed + length (in_stratum s.now level) }
    ensures numbers { map (λ c. c.0) (take result list.new) ≡ map (λ c. c.0) (take placed list.old) ++ in_stratum s.now level }
{
    let mut end = placed;
    for c in 0..s.width() {
        let id = ConId(c as u16);
        if s.level(id) == level {
            list[end] = id;
            end += 1;
        }
    }
    end
}
