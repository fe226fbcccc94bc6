//! Rankings as whole reports, without faithfulness constraints and with them.

use crate::cases::{Case, first_difference};
use crate::given::{BIASED, CHAIN, SINGLE, TIE, UNCOUNTED, UNLIKE, VOICING};
use otsoft_run::Status;
use std::test::Fail;

const LEAST: [Case; 6] = [
    Case {
        name: "a chain of constraints",
        words: "rank a.txt",
        given: CHAIN,
        tail: "winner\t1\t1\n\
            winner\t2\t1\n\
            strata\t3\n\
            stratum\t1\t1\tA\n\
            stratum\t2\t2\tB\n\
            stratum\t3\t3\tC\n\
            tableau\t1\tx\n\
            order\t1\t2\t3\n\
            row\t1\t>\t0\t1\t0\n\
            row\t2\t-\t1!\t0\t0\n\
            tableau\t2\ty\n\
            order\t1\t2\t3\n\
            row\t1\t>\t0\t0\t1\n\
            row\t2\t-\t0\t1!\t0\n\
            end\n",
        status: Status::Done,
    },
    Case {
        name: "a spreadsheet's file",
        words: "rank a.txt",
        given: VOICING,
        tail: "winner\t1\t1\n\
            strata\t2\n\
            stratum\t1\t1\tId\n\
            stratum\t2\t2\tNV\n\
            tableau\t1\tbad\n\
            order\t1\t2\n\
            row\t1\t>\t0\t2\n\
            row\t2\t-\t1!\t1\n\
            end\n",
        status: Status::Done,
    },
    Case {
        name: "a tie, and an input without a winner",
        words: "rank a.txt",
        given: TIE,
        tail: "winner\t1\t1\n\
            winner\t2\tnone\n\
            strata\t2\n\
            stratum\t1\t1\tA\n\
            stratum\t2\t2\tB\n\
            tableau\t1\tx\n\
            order\t1\t2\n\
            row\t1\t>\t0\t1\n\
            row\t2\t-\t1!\t0\n\
            end\n",
        status: Status::Done,
    },
    Case {
        name: "one candidate",
        words: "rank a.txt",
        given: SINGLE,
        tail: "winner\t1\t1\n\
            strata\t1\n\
            stratum\t1\t1 2 3\tA\tB\tC\n\
            tableau\t1\tx\n\
            order\t1\t2\t3\n\
            row\t1\t>\t0\t0\t0\n\
            end\n",
        status: Status::Done,
    },
    Case {
        name: "no winner",
        words: "rank a.txt",
        given: UNCOUNTED,
        tail: "winner\t1\tnone\n\
            strata\t1\n\
            stratum\t1\t1 2\tA\tB\n\
            end\n",
        status: Status::Done,
    },
    Case {
        name: "a contradiction",
        words: "rank a.txt",
        given: UNLIKE,
        tail: "winner\t1\t1\n\
            winner\t2\t2\n\
            contradiction\tLLe\t1:1>2 2:2>1\n\
            end\n",
        status: Status::Contradictory,
    },
];

const BIASES: [Case; 9] = [
    Case {
        name: "faithfulness low",
        words: "rank a.txt --faith 3,4",
        given: BIASED,
        tail: "winner\t1\t1\n\
            winner\t2\t1\n\
            strata\t3\n\
            stratum\t1\t3\tF1\n\
            stratum\t2\t1 2\tM1\tM2\n\
            stratum\t3\t4\tF2\n\
            rmeasure\t2\n\
            tableau\t1\tx\n\
            order\t3\t1\t2\t4\n\
            row\t1\t>\t0\t1\t0\t0\n\
            row\t2\t-\t1!\t0\t0\t0\n\
            tableau\t2\ty\n\
            order\t3\t1\t2\t4\n\
            row\t1\t>\t0\t0\t1\t0\n\
            row\t2\t-\t1!\t0\t0\t1\n\
            end\n",
        status: Status::Done,
    },
    Case {
        name: "a repeat, and zeros in front",
        words: "rank a.txt --faith 004,3,003,4",
        given: BIASED,
        tail: "winner\t1\t1\n\
            winner\t2\t1\n\
            strata\t3\n\
            stratum\t1\t3\tF1\n\
            stratum\t2\t1 2\tM1\tM2\n\
            stratum\t3\t4\tF2\n\
            rmeasure\t2\n\
            tableau\t1\tx\n\
            order\t3\t1\t2\t4\n\
            row\t1\t>\t0\t1\t0\t0\n\
            row\t2\t-\t1!\t0\t0\t0\n\
            tableau\t2\ty\n\
            order\t3\t1\t2\t4\n\
            row\t1\t>\t0\t0\t1\t0\n\
            row\t2\t-\t1!\t0\t0\t1\n\
            end\n",
        status: Status::Done,
    },
    Case {
        name: "no bias",
        words: "rank a.txt",
        given: BIASED,
        tail: "winner\t1\t1\n\
            winner\t2\t1\n\
            strata\t2\n\
            stratum\t1\t3 4\tF1\tF2\n\
            stratum\t2\t1 2\tM1\tM2\n\
            tableau\t1\tx\n\
            order\t3\t4\t1\t2\n\
            row\t1\t>\t0\t0\t1\t0\n\
            row\t2\t-\t1!\t0\t0\t0\n\
            tableau\t2\ty\n\
            order\t3\t4\t1\t2\n\
            row\t1\t>\t0\t0\t0\t1\n\
            row\t2\t-\t1!\t1\t0\t0\n\
            end\n",
        status: Status::Done,
    },
    Case {
        name: "faithfulness first in the file",
        words: "rank a.txt --faith 1,2",
        given: BIASED,
        tail: "winner\t1\t1\n\
            winner\t2\t1\n\
            strata\t2\n\
            stratum\t1\t3 4\tF1\tF2\n\
            stratum\t2\t1 2\tM1\tM2\n\
            rmeasure\t4\n\
            tableau\t1\tx\n\
            order\t3\t4\t1\t2\n\
            row\t1\t>\t0\t0\t1\t0\n\
            row\t2\t-\t1!\t0\t0\t0\n\
            tableau\t2\ty\n\
            order\t3\t4\t1\t2\n\
            row\t1\t>\t0\t0\t0\t1\n\
            row\t2\t-\t1!\t1\t0\t0\n\
            end\n",
        status: Status::Done,
    },
    Case {
        name: "nothing to rank",
        words: "rank a.txt --faith 2,3",
        given: SINGLE,
        tail: "winner\t1\t1\n\
            strata\t2\n\
            stratum\t1\t1\tA\n\
            stratum\t2\t2 3\tB\tC\n\
            rmeasure\t2\n\
            tableau\t1\tx\n\
            order\t1\t2\t3\n\
            row\t1\t>\t0\t0\t0\n\
            end\n",
        status: Status::Done,
    },
    Case {
        name: "one number above the last",
        words: "rank a.txt --faith 2,4,128",
        given: SINGLE,
        tail: "winner\t1\t1\n\
            strata\t2\n\
            stratum\t1\t1 3\tA\tC\n\
            stratum\t2\t2\tB\n\
            rmeasure\t2\n\
            tableau\t1\tx\n\
            order\t1\t3\t2\n\
            row\t1\t>\t0\t0\t0\n\
            end\n",
        status: Status::Done,
    },
    Case {
        name: "all numbers above the last",
        words: "rank a.txt --faith 7,128",
        given: SINGLE,
        tail: "winner\t1\t1\n\
            strata\t1\n\
            stratum\t1\t1 2 3\tA\tB\tC\n\
            rmeasure\t0\n\
            tableau\t1\tx\n\
            order\t1\t2\t3\n\
            row\t1\t>\t0\t0\t0\n\
            end\n",
        status: Status::Done,
    },
    Case {
        name: "every constraint",
        words: "rank a.txt --faith 1,2,3",
        given: SINGLE,
        tail: "winner\t1\t1\n\
            strata\t1\n\
            stratum\t1\t1 2 3\tA\tB\tC\n\
            rmeasure\t0\n\
            tableau\t1\tx\n\
            order\t1\t2\t3\n\
            row\t1\t>\t0\t0\t0\n\
            end\n",
        status: Status::Done,
    },
    Case {
        name: "a contradiction",
        words: "rank a.txt --faith 2,3",
        given: UNLIKE,
        tail: "winner\t1\t1\n\
            winner\t2\t2\n\
            contradiction\tLLe\t1:1>2 2:2>1\n\
            end\n",
        status: Status::Contradictory,
    },
];

#[test]
fn files_give_their_rankings(rt: HostRuntime) -> Result<(), Fail> {
    assert_eq!(rt; first_difference(&rt, rt.alloc(), &LEAST)?, None);
    Ok(())
}

#[test]
fn files_give_their_biased_rankings(rt: HostRuntime) -> Result<(), Fail> {
    assert_eq!(rt; first_difference(&rt, rt.alloc(), &BIASES)?, None);
    Ok(())
}
