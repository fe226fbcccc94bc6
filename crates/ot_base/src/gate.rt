/// What is told of each turn of a worker of a search. It changes nothing of the search.
pub trait Gate: Sync {
    /// A worker begins a turn, after so many that it has ended in this call, and after so many prefixes that it has taken or
    /// stolen.
    fn turn(&self, worker: usize, turn: u64, taken: u64);
}

/// A gate that does nothing.
pub struct NoGate;

impl Gate for NoGate {
    fn turn(&self, _worker: usize, _turn: u64, _taken: u64) {}
}
