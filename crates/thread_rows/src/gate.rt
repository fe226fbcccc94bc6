//! That two workers run at the same time, in a search and in whole runs.

use crossbeam_utils::CachePadded;
use demonstration_file::demonstration_file;
use memory_runs::{Outside, run_gated};
use ot_base::Gate;
use otsoft_run::Status;
use std::sync::atomic::{AtomicBool, Ordering};
use std::test::Fail;
use tableau_file::read_tableau;
use typology_workers::search;
use violation_profiles::Problem;

/// How often a worker that is held looks at the flag.
const LOOKS: u32 = 1 << 30;

/// A gate that holds one worker in its first turn until another one has got a prefix, for so many looks at a flag.
#[derive(Drop)]
struct Held {
    held: usize,
    other: usize,
    flag: CachePadded<AtomicBool>,
    seen: CachePadded<AtomicBool>,
}

impl Held {
    fn new(held: usize, other: usize) -> Held {
        Held {
            held,
            other,
            flag: CachePadded::new(AtomicBool::new(false)),
            seen: CachePadded::new(AtomicBool::new(false)),
        }
    }
}

impl Gate for Held {
    fn turn(&self, worker: usize, turn: u64, taken: u64) {
        if worker == self.other && taken > 0 {
            self.flag.store(true, Ordering::SeqCst);
        }
        if worker == self.held && turn == 0 {
            for _ in 0..LOOKS {
                if self.flag.load(Ordering::SeqCst) {
                    self.seen.store(true, Ordering::SeqCst);
                    return;
                }
            }
        }
    }
}

#[test]
fn one_worker_waits_for_the_other(rt: HostRuntime) -> Result<(), Fail> {
    let file = demonstration_file(rt.alloc(), 1)?;
    let outside = Outside {
        room: 1 << 20,
        ..Outside::sound("f.txt", file.bytes())
    };
    for words in [
        "demo 1 --workers 2",
        "typology f.txt --workers 2",
        "torder f.txt --workers 2",
    ] {
        for (held, other) in [(0, 1), (1, 0)] {
            let gate = Held::new(held, other);
            let left = run_gated(&rt, rt.alloc(), words, &outside, &gate)?;
            assert_eq!(rt; left.status, Status::Done, "{words}");
            let seen = gate.seen.load(Ordering::SeqCst);
            assert!(rt; seen, "{words}, worker {held} held");
        }
    }
    Ok(())
}

#[test]
fn one_worker_of_a_search_waits_for_the_other(rt: HostRuntime) -> Result<(), Fail> {
    let file = demonstration_file(rt.alloc(), 1)?;
    let Ok(tableau) = read_tableau(rt.alloc(), file.bytes()) else {
        panic!(rt; "the demonstration file is refused");
    };
    let problem = Problem::of(rt.alloc(), &tableau)?;
    for (held, other) in [(0, 1), (1, 0)] {
        let gate = Held::new(held, other);
        let found = search(&rt, rt.alloc(), &problem, 2, 1_024, &gate)?;
        let seen = gate.seen.load(Ordering::SeqCst);
        assert!(rt; seen, "worker {held} held");
        let typology = &found.typology;
        let counts = (
            typology.languages.len(),
            typology.certificates.len(),
            typology.cuts.len(),
        );
        assert_eq!(rt; counts, (300, 74, 5_404), "worker {held} held");
    }
    Ok(())
}
