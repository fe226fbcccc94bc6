//! Covers, bases and implications, as whole reports.

use crate::cases::{Case, first_difference};
use crate::given::{CHAIN, DEVOICING, SINGLE, SYLLABLES, UNCOUNTED, UNLIKE};
use otsoft_run::Status;
use std::test::Fail;

const CASES: [Case; 15] = [
    Case {
        name: "the covers of a chain",
        words: "hasse a.txt",
        given: CHAIN,
        tail: "winner\t1\t1\n\
            winner\t2\t1\n\
            covers\t2\n\
            cover\t1\t2\tA\tB\n\
            cover\t2\t3\tB\tC\n\
            end\n",
        status: Status::Done,
    },
    Case {
        name: "the bases of a chain",
        words: "bases a.txt",
        given: CHAIN,
        tail: "winner\t1\t1\n\
            winner\t2\t1\n\
            conditions\t2\n\
            condition\t1\tWLe\t1:1>2\n\
            condition\t2\teWL\t2:1>2\n\
            members\t2\n\
            member\t1\tWLL\tWLe\n\
            member\t2\teWL\teWL\n\
            end\n",
        status: Status::Done,
    },
    Case {
        name: "the implications of a chain",
        words: "torder a.txt",
        given: CHAIN,
        tail: "implications\t0\n\
            end\n",
        status: Status::Done,
    },
    Case {
        name: "no covers of a contradiction",
        words: "hasse a.txt",
        given: UNLIKE,
        tail: "winner\t1\t1\n\
            winner\t2\t2\n\
            contradiction\tLLe\t1:1>2 2:2>1\n\
            end\n",
        status: Status::Contradictory,
    },
    Case {
        name: "no bases of a contradiction",
        words: "bases a.txt",
        given: UNLIKE,
        tail: "winner\t1\t1\n\
            winner\t2\t2\n\
            contradiction\tLLe\t1:1>2 2:2>1\n\
            end\n",
        status: Status::Contradictory,
    },
    Case {
        name: "implications both ways",
        words: "torder a.txt",
        given: UNLIKE,
        tail: "implications\t6\n\
            implication\t1.1\t2.1\n\
            implication\t1.2\t2.2\n\
            implication\t1.3\t2.3\n\
            implication\t2.1\t1.1\n\
            implication\t2.2\t1.2\n\
            implication\t2.3\t1.3\n\
            end\n",
        status: Status::Done,
    },
    Case {
        name: "implications by three workers without places",
        words: "torder a.txt --workers 3 --store=0",
        given: UNLIKE,
        tail: "implications\t6\n\
            implication\t1.1\t2.1\n\
            implication\t1.2\t2.2\n\
            implication\t1.3\t2.3\n\
            implication\t2.1\t1.1\n\
            implication\t2.2\t1.2\n\
            implication\t2.3\t1.3\n\
            end\n",
        status: Status::Done,
    },
    Case {
        name: "two constraints over two",
        words: "hasse a.txt",
        given: SYLLABLES,
        tail: "winner\t1\t1\n\
            winner\t2\t1\n\
            covers\t4\n\
            cover\t3\t1\tMax\tOns\n\
            cover\t3\t2\tMax\tNoC\n\
            cover\t4\t1\tDep\tOns\n\
            cover\t4\t2\tDep\tNoC\n\
            end\n",
        status: Status::Done,
    },
    Case {
        name: "four conditions in two members",
        words: "bases a.txt",
        given: SYLLABLES,
        tail: "winner\t1\t1\n\
            winner\t2\t1\n\
            conditions\t4\n\
            condition\t1\tLeeW\t1:1>2\n\
            condition\t2\tLeWe\t1:1>3\n\
            condition\t3\teLeW\t2:1>2\n\
            condition\t4\teLWe\t2:1>3\n\
            members\t2\n\
            member\t1\tLLWe\tLLWe\n\
            member\t2\tLLeW\tLLeW\n\
            end\n",
        status: Status::Done,
    },
    Case {
        name: "no implication",
        words: "torder a.txt",
        given: SYLLABLES,
        tail: "implications\t0\n\
            end\n",
        status: Status::Done,
    },
    Case {
        name: "a cover by two conditions",
        words: "hasse a.txt",
        given: DEVOICING,
        tail: "winner\t1\t2\n\
            covers\t2\n\
            cover\t1\t2\tIdOns\tNV\n\
            cover\t2\t3\tNV\tId\n\
            end\n",
        status: Status::Done,
    },
    Case {
        name: "a member without its shared L",
        words: "bases a.txt",
        given: DEVOICING,
        tail: "winner\t1\t2\n\
            conditions\t2\n\
            condition\t1\teWL\t1:2>1\n\
            condition\t2\tWLW\t1:2>3\n\
            members\t2\n\
            member\t1\tWLL\tWLe\n\
            member\t2\teWL\teWL\n\
            end\n",
        status: Status::Done,
    },
    Case {
        name: "no winner and no cover",
        words: "hasse a.txt",
        given: UNCOUNTED,
        tail: "winner\t1\tnone\n\
            covers\t0\n\
            end\n",
        status: Status::Done,
    },
    Case {
        name: "no winner and no member",
        words: "bases a.txt",
        given: UNCOUNTED,
        tail: "winner\t1\tnone\n\
            conditions\t0\n\
            members\t0\n\
            end\n",
        status: Status::Done,
    },
    Case {
        name: "one input",
        words: "torder a.txt",
        given: SINGLE,
        tail: "implications\t0\n\
            end\n",
        status: Status::Done,
    },
];

#[test]
fn files_give_their_listings(rt: HostRuntime) -> Result<(), Fail> {
    assert_eq!(rt; first_difference(&rt, rt.alloc(), &CASES)?, None);
    Ok(())
}
