//! Typologies as whole reports.

use erc_vectors::NoMemory;
use memory_runs::{Outside, Part, run_on};
use otsoft_run::Status;
use std::alloc::Global;
use std::test::Fail;
use std::thread::Threads;

/// A strict file and its whole report.
#[derive(Clone, Copy)]
pub(crate) struct Row {
    pub(crate) name: &'static str,
    pub(crate) file: &'static str,
    pub(crate) report: &'static str,
}

const CODA_REPORT: &str = "otsoft report 1\ttypology\n\
        constraints\t3\n\
        constraint\t1\tNoCoda\tNoCoda\n\
        constraint\t2\tMax\tMax\n\
        constraint\t3\tDep\tDep\n\
        inputs\t1\n\
        input\t1\tpat\t3\n\
        class\t1.1\t1 0 0\tpat\n\
        class\t1.2\t0 1 0\tpa\n\
        class\t1.3\t0 0 1\tpa.ti\n\
        languages\t3\n\
        language\t1\t1\t2 3 | 1\n\
        language\t2\t2\t1 3 | 2\n\
        language\t3\t3\t1 2 | 3\n\
        certificates\t0\n\
        cuts\t0\n\
        end\n";

const CHAIN_REPORT: &str = "otsoft report 1\ttypology\n\
        constraints\t3\n\
        constraint\t1\tA\tA\n\
        constraint\t2\tB\tB\n\
        constraint\t3\tC\tC\n\
        inputs\t2\n\
        input\t1\tx\t2\n\
        class\t1.1\t0 1 0\tp\n\
        class\t1.2\t1 0 0\tq\n\
        input\t2\ty\t2\n\
        class\t2.1\t0 0 1\tr\n\
        class\t2.2\t0 1 0\ts\n\
        languages\t4\n\
        language\t1\t1 1\t1 | 2 | 3\n\
        language\t2\t1 2\t1 3 | 2\n\
        language\t3\t2 1\t2 | 1 3\n\
        language\t4\t2 2\t3 | 2 | 1\n\
        certificates\t0\n\
        cuts\t0\n\
        end\n";

const SYLLABLES_REPORT: &str = "otsoft report 1\ttypology\n\
        constraints\t4\n\
        constraint\t1\tOns\tOnset\n\
        constraint\t2\tNoC\tNoCoda\n\
        constraint\t3\tMax\tMax\n\
        constraint\t4\tDep\tDep\n\
        inputs\t2\n\
        input\t1\ta\t3\n\
        class\t1.1\t1 0 0 0\t.a.\n\
        class\t1.2\t0 0 0 1\t.ta.\n\
        class\t1.3\t0 0 1 0\t<a>\n\
        input\t2\ttat\t3\n\
        class\t2.1\t0 1 0 0\t.tat.\n\
        class\t2.2\t0 0 0 1\t.ta.ta.\n\
        class\t2.3\t0 0 1 0\t.ta.\n\
        languages\t7\n\
        language\t1\t1 1\t3 4 | 1 2\n\
        language\t2\t1 2\t2 3 | 4 | 1\n\
        language\t3\t1 3\t2 4 | 3 | 1\n\
        language\t4\t2 1\t1 3 | 4 | 2\n\
        language\t5\t2 2\t1 2 3 | 4\n\
        language\t6\t3 1\t1 4 | 3 | 2\n\
        language\t7\t3 3\t1 2 4 | 3\n\
        certificates\t2\n\
        certificate\t1\teeLL\t1:2>3 2:3>2\n\
        certificate\t2\teeLL\t1:3>2 2:2>3\n\
        cuts\t2\n\
        cut\t1\t2 3\t1\n\
        cut\t2\t3 2\t2\n\
        end\n";

/// A coda is kept, deleted or made an onset.
pub(crate) const CODA: Row = Row {
    name: "coda repair",
    file: "\t\t\tNoCoda\tMax\tDep\n\
        \t\t\tNoCoda\tMax\tDep\n\
        pat\tpat\t1\t1\t0\t0\n\
        \tpa\t0\t0\t1\t0\n\
        \tpa.ti\t0\t0\t0\t1\n",
    report: CODA_REPORT,
};

/// Two inputs that are repaired alike.
const TWO_CODAS: Row = Row {
    name: "two inputs alike",
    file: "\t\t\tNoCoda\tMax\tDep\n\
        \t\t\tNoCoda\tMax\tDep\n\
        pat\tpat\t1\t1\t0\t0\n\
        \tpa\t0\t0\t1\t0\n\
        \tpa.ti\t0\t0\t0\t1\n\
        tak\ttak\t1\t1\t0\t0\n\
        \tta\t0\t0\t1\t0\n\
        \tta.ki\t0\t0\t0\t1\n",
    report: "otsoft report 1\ttypology\n\
        constraints\t3\n\
        constraint\t1\tNoCoda\tNoCoda\n\
        constraint\t2\tMax\tMax\n\
        constraint\t3\tDep\tDep\n\
        inputs\t2\n\
        input\t1\tpat\t3\n\
        class\t1.1\t1 0 0\tpat\n\
        class\t1.2\t0 1 0\tpa\n\
        class\t1.3\t0 0 1\tpa.ti\n\
        input\t2\ttak\t3\n\
        class\t2.1\t1 0 0\ttak\n\
        class\t2.2\t0 1 0\tta\n\
        class\t2.3\t0 0 1\tta.ki\n\
        languages\t3\n\
        language\t1\t1 1\t2 3 | 1\n\
        language\t2\t2 2\t1 3 | 2\n\
        language\t3\t3 3\t1 2 | 3\n\
        certificates\t6\n\
        certificate\t1\tLLe\t1:1>2 2:2>1\n\
        certificate\t2\tLeL\t1:1>3 2:3>1\n\
        certificate\t3\tLLe\t1:2>1 2:1>2\n\
        certificate\t4\teLL\t1:2>3 2:3>2\n\
        certificate\t5\tLeL\t1:3>1 2:1>3\n\
        certificate\t6\teLL\t1:3>2 2:2>3\n\
        cuts\t6\n\
        cut\t1\t1 2\t1\n\
        cut\t2\t1 3\t2\n\
        cut\t3\t2 1\t3\n\
        cut\t4\t2 3\t4\n\
        cut\t5\t3 1\t5\n\
        cut\t6\t3 2\t6\n\
        end\n",
};

/// Each constraint decides for one input.
const CHAIN: Row = Row {
    name: "a chain of constraints",
    file: "\t\t\tA\tB\tC\n\
        \t\t\tA\tB\tC\n\
        x\tp\t1\t0\t1\t0\n\
        \tq\t0\t1\t0\t0\n\
        y\tr\t1\t0\t0\t1\n\
        \ts\t0\t0\t1\t0\n",
    report: CHAIN_REPORT,
};

/// A candidate of the second input is worse than another everywhere.
const BOUNDED: Row = Row {
    name: "a bounded candidate",
    file: "\t\t\tNoCoda\tMax\tDep\n\
        \t\t\tNoCoda\tMax\tDep\n\
        pat\tpat\t1\t1\t0\t0\n\
        \tpa\t0\t0\t1\t0\n\
        \tpa.ti\t0\t0\t0\t1\n\
        ku\tku\t1\t0\t0\t0\n\
        \tkut\t0\t1\t0\t0\n",
    report: "otsoft report 1\ttypology\n\
        constraints\t3\n\
        constraint\t1\tNoCoda\tNoCoda\n\
        constraint\t2\tMax\tMax\n\
        constraint\t3\tDep\tDep\n\
        inputs\t2\n\
        input\t1\tpat\t3\n\
        class\t1.1\t1 0 0\tpat\n\
        class\t1.2\t0 1 0\tpa\n\
        class\t1.3\t0 0 1\tpa.ti\n\
        input\t2\tku\t2\n\
        class\t2.1\t0 0 0\tku\n\
        class\t2.2\t1 0 0\tkut\n\
        languages\t3\n\
        language\t1\t1 1\t2 3 | 1\n\
        language\t2\t2 1\t1 3 | 2\n\
        language\t3\t3 1\t1 2 | 3\n\
        certificates\t1\n\
        certificate\t1\tLee\t2:2>1\n\
        cuts\t3\n\
        cut\t1\t1 2\t1\n\
        cut\t2\t2 2\t1\n\
        cut\t3\t3 2\t1\n\
        end\n",
};

/// Basic syllable structure.
const SYLLABLES: Row = Row {
    name: "syllables",
    file: "\t\t\tOnset\tNoCoda\tMax\tDep\n\
        \t\t\tOns\tNoC\tMax\tDep\n\
        a\t.a.\t1\t1\t0\t0\t0\n\
        \t.ta.\t0\t0\t0\t0\t1\n\
        \t<a>\t0\t0\t0\t1\t0\n\
        tat\t.tat.\t1\t0\t1\t0\t0\n\
        \t.ta.ta.\t0\t0\t0\t0\t1\n\
        \t.ta.\t0\t0\t0\t1\t0\n",
    report: SYLLABLES_REPORT,
};

/// A class between two others wins under no ranking.
const MIDDLE: Row = Row {
    name: "a class in the middle",
    file: "\t\t\tA\tB\n\
        \t\t\tA\tB\n\
        x\tp\t1\t2\t0\n\
        \tq\t0\t0\t2\n\
        \tr\t0\t1\t1\n",
    report: "otsoft report 1\ttypology\n\
        constraints\t2\n\
        constraint\t1\tA\tA\n\
        constraint\t2\tB\tB\n\
        inputs\t1\n\
        input\t1\tx\t3\n\
        class\t1.1\t2 0\tp\n\
        class\t1.2\t0 2\tq\n\
        class\t1.3\t1 1\tr\n\
        languages\t2\n\
        language\t1\t1\t2 | 1\n\
        language\t2\t2\t1 | 2\n\
        certificates\t1\n\
        certificate\t1\tLL\t1:3>1 1:3>2\n\
        cuts\t1\n\
        cut\t1\t3\t1\n\
        end\n",
};

/// The second class violates more, and nothing less.
const WORSE: Row = Row {
    name: "a worse class",
    file: "\t\t\tA\tB\n\
        \t\t\tA\tB\n\
        x\tp\t1\t0\t0\n\
        \tq\t0\t1\t0\n",
    report: "otsoft report 1\ttypology\n\
        constraints\t2\n\
        constraint\t1\tA\tA\n\
        constraint\t2\tB\tB\n\
        inputs\t1\n\
        input\t1\tx\t2\n\
        class\t1.1\t0 0\tp\n\
        class\t1.2\t1 0\tq\n\
        languages\t1\n\
        language\t1\t1\t1 2\n\
        certificates\t1\n\
        certificate\t1\tLe\t1:2>1\n\
        cuts\t1\n\
        cut\t1\t2\t1\n\
        end\n",
};

/// Two candidates of one class.
const ALIKE: Row = Row {
    name: "candidates alike",
    file: "\t\t\tA\n\
        \t\t\tA\n\
        x\tx\t0\t1\n\
        \ty\t0\t1\n",
    report: "otsoft report 1\ttypology\n\
        constraints\t1\n\
        constraint\t1\tA\tA\n\
        inputs\t1\n\
        input\t1\tx\t1\n\
        class\t1.1\t1\tx\ty\n\
        languages\t1\n\
        language\t1\t1\t1\n\
        certificates\t0\n\
        cuts\t0\n\
        end\n",
};

/// One candidate, and nothing to decide.
const ALONE: Row = Row {
    name: "one candidate",
    file: "\t\t\tA\tB\tC\n\
        \t\t\tA\tB\tC\n\
        x\tp\t1\t0\t0\t0\n",
    report: "otsoft report 1\ttypology\n\
        constraints\t3\n\
        constraint\t1\tA\tA\n\
        constraint\t2\tB\tB\n\
        constraint\t3\tC\tC\n\
        inputs\t1\n\
        input\t1\tx\t1\n\
        class\t1.1\t0 0 0\tp\n\
        languages\t1\n\
        language\t1\t1\t1 2 3\n\
        certificates\t0\n\
        cuts\t0\n\
        end\n",
};

/// The same chain with cells that are left out, as they may be.
const CHAIN_LEFT_OUT: Row = Row {
    name: "a chain with cells left out",
    file: "\t\t\tA\tB\tC\n\
        \t\t\tA\tB\tC\n\
        x\tp\t1\t\t1\t\n\
        \tq\t\t1\t\t\n\
        y\tr\t1\t\t\t1\n\
        \ts\t\t\t1\t\n",
    report: CHAIN_REPORT,
};

/// The syllables with cells that are left out.
const SYLLABLES_LEFT_OUT: Row = Row {
    name: "syllables with cells left out",
    file: "\t\t\tOnset\tNoCoda\tMax\tDep\n\
        \t\t\tOns\tNoC\tMax\tDep\n\
        a\t.a.\t1\t1\t\t\t\n\
        \t.ta.\t\t\t\t\t1\n\
        \t<a>\t\t\t\t1\t\n\
        tat\t.tat.\t1\t\t1\t\t\n\
        \t.ta.ta.\t\t\t\t\t1\n\
        \t.ta.\t\t\t\t1\t\n",
    report: SYLLABLES_REPORT,
};

/// A file as a spreadsheet saves it: quotes, CR LF, blank lines, and cells past the last that is used.
const SPREADSHEET: Row = Row {
    name: "a spreadsheet's file",
    file: "\t\t\t\"Ident, voice\"\tNoVoice\t\r\n\
        \t\t\tId\tNV\t\r\n\
        bad\tbad\t12\t\t2\t\r\n\
        \tbat\t3\t1\t1\t\r\n\
        \t\t\t\t\t\r\n\
        \r\n",
    report: "otsoft report 1\ttypology\n\
        constraints\t2\n\
        constraint\t1\tId\tIdent, voice\n\
        constraint\t2\tNV\tNoVoice\n\
        inputs\t1\n\
        input\t1\tbad\t2\n\
        class\t1.1\t0 2\tbad\n\
        class\t1.2\t1 1\tbat\n\
        languages\t2\n\
        language\t1\t1\t1 | 2\n\
        language\t2\t2\t2 | 1\n\
        certificates\t0\n\
        cuts\t0\n\
        end\n",
};

/// A byte order mark, and CR as the end of each line.
const OLD_MACHINE: Row = Row {
    name: "a byte order mark and carriage returns",
    file: "\u{feff}\t\t\tNoCoda\tMax\tDep\r\t\t\tNoCoda\tMax\tDep\rpat\tpat\t1\t1\t0\t0\r\tpa\t0\t0\t1\t0\r\tpa.ti\t0\t0\t0\t1\r",
    report: CODA_REPORT,
};

/// The least that a file may have: no abbreviation, no violation, no line end.
const LEAST: Row = Row {
    name: "the least file",
    file: "\t\t\tA\n\nx\t\"p\"\"q\"\t1",
    report: "otsoft report 1\ttypology\n\
        constraints\t1\n\
        constraint\t1\tA\tA\n\
        inputs\t1\n\
        input\t1\tx\t1\n\
        class\t1.1\t0\tp\"q\n\
        languages\t1\n\
        language\t1\t1\t1\n\
        certificates\t0\n\
        cuts\t0\n\
        end\n",
};

const ROWS: [Row; 14] = [
    CODA,
    TWO_CODAS,
    CHAIN,
    BOUNDED,
    SYLLABLES,
    MIDDLE,
    WORSE,
    ALIKE,
    ALONE,
    CHAIN_LEFT_OUT,
    SYLLABLES_LEFT_OUT,
    SPREADSHEET,
    OLD_MACHINE,
    LEAST,
];

/// Searches by several workers, each under a schedule.
const SCHEDULES: [&str; 9] = [
    "typology a.txt --schedule=0 --workers 3",
    "typology a.txt --schedule=1 --workers 3",
    "typology a.txt --schedule=2 --workers 3",
    "typology a.txt --schedule=3 --workers=8 --store=0",
    "typology a.txt --schedule=4 --workers=8 --store=0",
    "typology a.txt --schedule=5 --workers=8 --store=0",
    "typology a.txt --schedule=7 --store 1",
    "typology a.txt --schedule=8 --store 1",
    "typology a.txt --schedule=9 --store 1",
];

/// The part in which the run of these words on the row's file is not as it has to be.
fn difference<R: Threads + Sync>(
    threads: &R,
    alloc: Global,
    words: &str,
    row: &Row,
) -> Result<Option<Part>, NoMemory> {
    let outside = Outside::sound("a.txt", row.file.as_bytes());
    let left = run_on(threads, alloc, words, &outside)?;
    Ok(left.difference(Status::Done, &[row.report.as_bytes()], b""))
}

/// The first row on whose file the run of these words is not as it has to be, and in what.
fn first_difference<R: Threads + Sync>(
    threads: &R,
    alloc: Global,
    words: &str,
    rows: &[Row],
) -> Result<Option<(&'static str, Part)>, NoMemory> {
    for row in rows {
        if let Some(part) = difference(threads, alloc, words, row)? {
            return Ok(Some((row.name, part)));
        }
    }
    Ok(None)
}

#[test]
fn files_give_their_reports(rt: HostRuntime) -> Result<(), Fail> {
    let found = first_difference(&rt, rt.alloc(), "typology a.txt", &ROWS)?;
    assert_eq!(rt; found, None);
    Ok(())
}

#[test]
fn every_schedule_gives_the_same_report(rt: HostRuntime) -> Result<(), Fail> {
    for words in &SCHEDULES {
        let found = first_difference(&rt, rt.alloc(), words, &[TWO_CODAS, BOUNDED])?;
        assert_eq!(rt; found, None, "{words}");
    }
    Ok(())
}
