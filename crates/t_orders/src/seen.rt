//! What is seen of classes of one input, one after another.

ghost use Rattle.std.specs.Prelude.{◌≡◌};
ghost use Rattle.t_orders.specs.Rows.{only_of, seen_with};

use ot_base::ClassId;

/// What is seen of some classes of one input.
#[derive(Clone, Copy, Debug, PartialEq, Eq)]
pub(crate) enum Seen {
    /// There was none yet.
    Nothing,
    /// All were this one.
    One(ClassId),
    /// Two or more were different.
    Several,
}

impl Seen {
    /// What is seen with one class more.
    #[inline]
    pub(crate) fn with(self, class: ClassId) -> Seen
        ensures { result ≡ seen_with self class.0 }
    {
        match self {
            Seen::Nothing => Seen::One(class),
            Seen::One(only) => {
                if class.0 == only.0 {
                    self
                } else {
                    Seen::Several
                }
            }
            Seen::Several => Seen::Several,
        }
    }

    /// The class, where all were one.
    pub(crate) fn only(self) -> Option<ClassId>
        ensures { result ≡ only_of self }
    {
        match self {
            Seen::One(only) => Some(only),
            _ => None,
        }
    }
}
