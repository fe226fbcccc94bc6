//! The steps of the machine of the search.

/// A step of a worker, by its number from 0 on. `Machine` says where each is enabled and what it does.
#[derive(Clone, Copy, Debug, PartialEq, Eq)]
pub enum Step {
    /// The front of the worker's own queue goes into its hand.
    Take(usize),
    /// The front of the queue of the second worker goes into the hand of the first.
    Steal(usize, usize),
    /// The next entry of the store is tried on the prefix in the hand.
    Consult(usize),
    /// The prefix in the hand is judged by demotion.
    Learn(usize),
    /// The deed of the prefix in the hand is added, and its children go into the outbox where it is opened.
    Settle(usize),
    /// The front of the outbox goes to the back of the queue.
    Put(usize),
}

/// Why a step was not made.
#[derive(Clone, Copy, Debug, PartialEq, Eq)]
pub enum StepRefused {
    /// It is not enabled.
    NotEnabled,
    /// There was no memory for it.
    NoMemory,
}
