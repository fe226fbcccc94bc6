//! Deques of prefixes that threads share, with books: each prefix that was put into a deque is taken by its owner, stolen by
//! another, or left, exactly once.
//!
//! A make of n seats has n deques, of which each seat owns one. A seat puts prefixes at the back of its own deque, takes them
//! from its front, and steals from the front of the others'. No call waits for another thread, holds a lock, or tries twice. The
//! deques are those of `crossbeam_deque`, after Chase and Lev (Dynamic circular work-stealing deque, 2005), under a rule of
//! this project's own: beside each deque stands what each seat has put into it and got out of it (`rule`). At the end the
//! seats come together again (`settle_up`), and the books of every deque agree: the places from which something was got are
//! the first ones, each once over all seats, and each prefix that was got is the one that was put there.
//!
//! The books exist in proofs alone; the running seats carry no lists. Nothing is said of the order between threads, nor of
//! who gets what.
#![tactic(auto)]

mod booked;
mod close;
mod handout;
mod lane;
mod own;
mod owner;
mod rule;
mod seat;
mod seats;
mod settling;
mod shared;

pub use booked::Books;
pub use lane::Stolen;
pub use seat::{Put, Seat};
pub use seats::make;
pub use settling::{Settled, settle_up};
pub use shared::seats_go;
