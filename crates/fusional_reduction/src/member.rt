use erc_vectors::Condition;

/// A kept fusion with its skeletal form.
#[derive(Clone, Copy, Debug)]
pub(crate) struct Member {
    pub(crate) informative: Condition,
    pub(crate) skeletal: Condition,
}
