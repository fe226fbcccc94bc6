//! Entailment.

use crate::marks::condition;
use Mark::{E, L, W};
use entailment::entails;
use erc_vectors::{Mark, NoMemory};

#[test]
fn what_a_set_entails(rt: HostRuntime) -> Result<(), NoMemory> {
    let chain = [condition(&rt, [W, L, E]), condition(&rt, [E, W, L])];
    let choice = [condition(&rt, [W, W, L]), condition(&rt, [W, L, E])];
    let never = [condition(&rt, [W, L, E]), condition(&rt, [L, W, E])];
    for (marks, by_none, by_one, by_chain, by_choice, by_never) in [
        ([E, E, E], true, true, true, true, true),
        ([W, E, E], true, true, true, true, true),
        ([L, E, E], false, false, false, false, true),
        ([W, L, E], false, true, true, true, true),
        ([L, W, E], false, false, false, false, true),
        ([E, W, L], false, false, true, false, true),
        ([W, E, L], false, false, true, true, true),
        ([W, L, L], false, false, true, true, true),
        ([W, L, W], false, true, true, true, true),
        ([E, L, W], false, false, false, false, true),
    ] {
        let asked = condition(&rt, marks);
        assert_eq!(rt; entails(rt.alloc(), &chain[..0], &asked)?, by_none);
        assert_eq!(rt; entails(rt.alloc(), &chain[..1], &asked)?, by_one);
        assert_eq!(rt; entails(rt.alloc(), &chain, &asked)?, by_chain);
        assert_eq!(rt; entails(rt.alloc(), &choice, &asked)?, by_choice);
        assert_eq!(rt; entails(rt.alloc(), &never, &asked)?, by_never);
    }
    Ok(())
}
