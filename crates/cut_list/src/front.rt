//! The front that two lists of classes have in common.

ghost use Rattle.std.specs.Prelude.{◌≡◌, ℕ, ◌+◌, ◌<◌, ◌≤◌, true, false, length, take};

use ot_base::ClassId;

/// How many classes are compared at once.
const MANY: usize = 32;

/// How many are compared at once where fewer are left.
const FEW: usize = 4;

/// The greatest number of classes with which both begin.
pub fn common_front(before: &[ClassId], classes: &[ClassId]) -> usize
    ensures within { (result ≤ length before.now) × (result ≤ length classes.now) }
    ensures same { take result before.now ≡ take result classes.now }
    ensures greatest { (n : ℕ) → n ≤ length before.now → n ≤ length classes.now → take n before.now ≡ take n classes.now → n ≤ result }
{
    let front = front_by(MANY, before, classes, 0);
    let front = front_by(FEW, before, classes, front);
    front_by(1, before, classes, front)
}

/// The front, and as many classes more as both have in common, of which so many are compared at once.
#[inline(always)]
fn front_by(count: usize, before: &[ClassId], classes: &[ClassId], front: usize) -> usize
    requires some { 0 < count }
    requires within { (front ≤ length before.now) × (front ≤ length classes.now) }
    requires same { take front before.now ≡ take front classes.now }
    ensures within { (result ≤ length before.now) × (result ≤ length classes.now) }
    ensures same { take result before.now ≡ take result classes.now }
    ensures ended { result + count ≤ length before.now → result + count ≤ length classes.now → take (result + count) before.now ≡ take (result + count) classes.now → ⊥ }
{
    let most = before.len().min(classes.len());
    let mut end = front;
    while most - end >= count && are_same(&before[end..end + count], &classes[end..end + count]) {
        end += count;
    }
    end
}

/// Whether the classes are the same. All are compared, without a branch at each.
fn are_same(before: &[ClassId], classes: &[ClassId]) -> bool
    requires { length before.now ≡ length classes.now }
    ensures same { result ≡ true → before.now ≡ classes.now }
    ensures differ { result ≡ false → before.now ≡ classes.now → ⊥ }
{
    let mut same = true;
    for k in 0..before.len() {
        same &= before[k] == classes[k];
    }
    same
}
