use ot_base::{ClassId, InId};

/// An implication between outputs: every ranking that makes the one class optimal in its input makes the other class optimal in its
/// own. All numbers are counted from 0. The listing of implications is this project's own.
#[derive(Clone, Copy, Debug, PartialEq, Eq)]
pub struct Implication {
    pub from_input: InId,
    pub from_class: ClassId,
    pub to_input: InId,
    pub to_class: ClassId,
}
