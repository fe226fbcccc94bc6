//! The text of a prefix, of which most stands in the text of the prefix before it.

ghost use Rattle.std.specs.Prelude.{◌≡◌, ◌≤◌, ◌-◌, ◌++◌, OnOk, decimal, length, take};
ghost use Rattle.refutation.specs.Prefixes.{class_numbers};
ghost use Rattle.report_text.specs.Spelling.{prefix, each_behind_space};

use crate::text::Text;
use cut_list::common_front;
use erc_vectors::NoMemory;
use ot_base::ClassId;

/// The numbers of the classes, by input, and a dash where there are none. The text of the prefix before, each number behind a space,
/// is kept and becomes that of this one: mostly they have a long front in common, which is not written anew.
#[inline(always)]
pub(crate) fn put_prefix(
    text: &mut Text,
    kept: &mut Text,
    before: &[ClassId],
    classes: &[ClassId],
) -> Result<(), NoMemory>
    requires { kept.old ≡ each_behind_space (class_numbers before.now) }
    ensures written { OnOk result (text.new ≡ text.old ++ prefix (class_numbers classes.now)) }
    ensures kept { OnOk result (kept.new ≡ each_behind_space (class_numbers classes.now)) }
{
    let front = common_front(before, classes);
    keep_front(kept, before, front);
    put_behind(text, kept, classes, front)
}

/// Of the kept text of some classes only that of the first ones, which are so many.
pub(crate) fn keep_front(kept: &mut Text, before: &[ClassId], front: usize)
    requires within { front ≤ length before.now }
    requires kept { kept.old ≡ each_behind_space (class_numbers before.now) }
    ensures { kept.new ≡ each_behind_space (class_numbers (take front before.now)) }
{
    drop_numbers(kept, &before[front..]);
}

/// The numbers of the classes, where the text of the first ones, which are so many, is kept.
#[inline(always)]
pub(crate) fn put_behind(
    text: &mut Text,
    kept: &mut Text,
    classes: &[ClassId],
    front: usize,
) -> Result<(), NoMemory>
    requires within { front ≤ length classes.now }
    requires kept { kept.old ≡ each_behind_space (class_numbers (take front classes.now)) }
    ensures written { OnOk result (text.new ≡ text.old ++ prefix (class_numbers classes.now)) }
    ensures kept { OnOk result (kept.new ≡ each_behind_space (class_numbers classes.now)) }
{
    for class in &classes[front..] {
        kept.byte_and_number(b' ', class.0 as usize + 1)?;
    }
    if classes.is_empty() {
        text.put(b"-")
    } else {
        text.put(&kept.bytes()[1..])
    }
}

/// Without the numbers of these classes at the end, each behind a space.
fn drop_numbers(kept: &mut Text, classes: &[ClassId])
    requires { length (each_behind_space (class_numbers classes.now)) ≤ length kept.old }
    ensures { kept.new ≡ take (length kept.old - length (each_behind_space (class_numbers classes.now))) kept.old }
{
    let mut end = kept.bytes().len();
    for class in classes {
        end -= 1 + digit_count(class.0 as usize + 1);
    }
    kept.cut_back(end);
}

/// How many digits a number has.
fn digit_count(n: usize) -> usize
    ensures count { result ≡ length (decimal n) }
    ensures short { result ≤ 20 }
{
    let mut count = 1;
    let mut left = n;
    while left >= 10 {
        left /= 10;
        count += 1;
    }
    count
}
