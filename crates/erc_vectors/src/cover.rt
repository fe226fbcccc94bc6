use crate::condition::ConId;

/// A cover of a set of conditions: the one constraint stands above the other in every ranking that keeps the set, and no third
/// constraint necessarily stands between them (Prince 2002; the listing of covers is this project's own).
#[derive(Clone, Copy, Debug, PartialEq, Eq)]
pub struct Cover {
    pub above: ConId,
    pub below: ConId,
}
