//! The texts of reports, whole.

ghost use Rattle.std.specs.Prelude.{◌≡◌, ◌<◌, length, IfOk, All};
ghost use Rattle.ot_base.specs.Acceptable.{AreRows, IsAcceptable};
ghost use Rattle.report_text.specs.Posed.{Poses};

use erc_vectors::{ConId, Condition, Cover, List, Mark, NoMemory, Strata};
use fusional_reduction::Bases;
use ot_base::{ClassId, InId, InputRows, Pair, Tableau, input_of, tableau_of};
use refutation::{Contradiction, Cut, Implication, Language, Prefix, Term, Typology, is_genuine};
use report_text::{
    bases_text, contradiction_text, hasse_text, rank_text, torder_text, typology_text,
};
use std::alloc::Global;
use std::process::Abort;
use std::test::Fail;
use violation_profiles::Problem;

/// A tableau of three constraints and two inputs.
fn tableau(
    alloc: Global,
    names: &[&str; 3],
    abbrevs: &[&str; 3],
    first: InputRows,
    second: InputRows,
) -> Result<Tableau, NoMemory>
    requires first { AreRows 3 first }
    requires second { AreRows 3 second }
    ensures acceptable { IfOk result IsAcceptable }
    ensures names { IfOk result (λ tableau. length tableau.names ≡ 3) }
{
    let mut inputs = List::new(alloc);
    inputs.push(first)?;
    inputs.push(second)?;
    tableau_of(alloc, names, abbrevs, inputs)
}

fn strata(rt: &impl Abort, levels: &[u8; 3]) -> Strata
    ensures { length result ≡ 3 }
{
    Strata::of(levels).expect(rt, "three levels")
}

/// The text of a report: its title, its lines from there to the last class, and those behind them.
fn report_of(alloc: Global, command: &str, head: &str, rest: &str) -> Result<String, Fail> {
    let mut report = String::new(alloc);
    for part in ["otsoft report 1\t", command, "\n", head, rest] {
        report.push_str(part)?;
    }
    Ok(report)
}

fn conditions(
    rt: &impl Abort,
    alloc: Global,
    rows: &[[Mark; 3]; 2],
) -> Result<List<Condition>, NoMemory>
    ensures { IfOk result (λ conditions. length conditions ≡ 2) }
{
    let mut conditions = List::new(alloc);
    for marks in rows {
        conditions.push(Condition::of(marks).expect(rt, "three marks"))?;
    }
    Ok(conditions)
}

/// The lines of the head of two inputs, of which each constraint decides for one class.
const CHAIN_HEAD: &str =
    "constraints\t3\nconstraint\t1\tA\tA\nconstraint\t2\tB\tB\nconstraint\t3\tC\tC\ninputs\t2\ninput\t1\tx\t2\nclass\t1.1\t0 1 0\tp\nclass\t1.2\t1 0 0\tq\ninput\t2\ty\t2\nclass\t2.1\t0 0 1\tr\nclass\t2.2\t0 1 0\ts\n";

/// Two inputs, of which each constraint decides for one class.
fn chain(alloc: Global) -> Result<Tableau, NoMemory>
    ensures acceptable { IfOk result IsAcceptable }
    ensures names { IfOk result (λ tableau. length tableau.names ≡ 3) }
{
    let names = ["A", "B", "C"];
    let x = input_of(alloc, "x", &[("p", 1, [0, 1, 0]), ("q", 0, [1, 0, 0])])?;
    let y = input_of(alloc, "y", &[("r", 1, [0, 0, 1]), ("s", 0, [0, 1, 0])])?;
    tableau(alloc, &names, &names, x, y)
}

#[test]
fn a_hierarchy_of_three_strata(rt: HostRuntime) -> Result<(), Fail> {
    let alloc = rt.alloc();
    let tableau = chain(alloc)?;
    let problem = Problem::of(alloc, &tableau)?;
    let strata = strata(&rt, &[1, 2, 3]);
    let report = rank_text(alloc, &tableau, &problem, &strata, None)?;
    let rest =
        "winner\t1\t1\nwinner\t2\t1\nstrata\t3\nstratum\t1\t1\tA\nstratum\t2\t2\tB\nstratum\t3\t3\tC\ntableau\t1\tx\norder\t1\t2\t3\nrow\t1\t>\t0\t1\t0\nrow\t2\t-\t1!\t0\t0\ntableau\t2\ty\norder\t1\t2\t3\nrow\t1\t>\t0\t0\t1\nrow\t2\t-\t0\t1!\t0\nend\n";
    let expected = report_of(alloc, "rank", CHAIN_HEAD, rest)?;
    assert!(rt; report.bytes() == expected.as_bytes());
    Ok(())
}

#[test]
fn covers_of_three_strata(rt: HostRuntime) -> Result<(), Fail> {
    let alloc = rt.alloc();
    let tableau = chain(alloc)?;
    let problem = Problem::of(alloc, &tableau)?;
    let covers = [
        Cover {
            above: ConId(0),
            below: ConId(1),
        },
        Cover {
            above: ConId(1),
            below: ConId(2),
        },
    ];
    let report = hasse_text(alloc, &tableau, &problem, &covers)?;
    let rest = "winner\t1\t1\nwinner\t2\t1\ncovers\t2\ncover\t1\t2\tA\tB\ncover\t2\t3\tB\tC\nend\n";
    let expected = report_of(alloc, "hasse", CHAIN_HEAD, rest)?;
    assert!(rt; report.bytes() == expected.as_bytes());
    Ok(())
}

#[test]
fn bases_of_two_members(rt: HostRuntime) -> Result<(), Fail> {
    let alloc = rt.alloc();
    let tableau = chain(alloc)?;
    let problem = Problem::of(alloc, &tableau)?;
    let whole = [[Mark::W, Mark::L, Mark::L], [Mark::E, Mark::W, Mark::L]];
    let less = [[Mark::W, Mark::L, Mark::E], [Mark::E, Mark::W, Mark::L]];
    let bases = Bases {
        informative: conditions(&rt, alloc, &whole)?,
        skeletal: conditions(&rt, alloc, &less)?,
    };
    let report = bases_text(alloc, &tableau, &problem, &bases)?;
    let rest =
        "winner\t1\t1\nwinner\t2\t1\nconditions\t2\ncondition\t1\tWLe\t1:1>2\ncondition\t2\teWL\t2:1>2\nmembers\t2\nmember\t1\tWLL\tWLe\nmember\t2\teWL\teWL\nend\n";
    let expected = report_of(alloc, "bases", CHAIN_HEAD, rest)?;
    assert!(rt; report.bytes() == expected.as_bytes());
    Ok(())
}

/// The lines of the head of two inputs with the same repairs.
const CODAS_HEAD: &str =
    "constraints\t3\nconstraint\t1\tNoCoda\tNoCoda\nconstraint\t2\tMax\tMax\nconstraint\t3\tDep\tDep\ninputs\t2\ninput\t1\tpat\t3\nclass\t1.1\t1 0 0\tpat\nclass\t1.2\t0 1 0\tpa\nclass\t1.3\t0 0 1\tpa.ti\ninput\t2\ttak\t3\nclass\t2.1\t1 0 0\ttak\nclass\t2.2\t0 1 0\tta\nclass\t2.3\t0 0 1\tta.ki\n";

/// Two inputs that would be repaired alike, and whose winners are not.
fn codas(alloc: Global) -> Result<Tableau, NoMemory>
    ensures acceptable { IfOk result IsAcceptable }
    ensures names { IfOk result (λ tableau. length tableau.names ≡ 3) }
{
    let names = ["NoCoda", "Max", "Dep"];
    let pat = [
        ("pat", 1, [1, 0, 0]),
        ("pa", 0, [0, 1, 0]),
        ("pa.ti", 0, [0, 0, 1]),
    ];
    let tak = [
        ("tak", 0, [1, 0, 0]),
        ("ta", 1, [0, 1, 0]),
        ("ta.ki", 0, [0, 0, 1]),
    ];
    let first = input_of(alloc, "pat", &pat)?;
    let second = input_of(alloc, "tak", &tak)?;
    tableau(alloc, &names, &names, first, second)
}

/// Two winners that would be repaired in different ways.
#[test]
fn terms_that_no_ranking_keeps(rt: HostRuntime) -> Result<(), Fail> {
    let alloc = rt.alloc();
    let tableau = codas(alloc)?;
    let problem = Problem::of(alloc, &tableau)?;
    let mut terms = List::new(alloc);
    for (i, a, b) in [(0, 0, 1), (1, 1, 0)] {
        terms.push(Term::Loser {
            input: InId(i),
            winner: ClassId(a),
            loser: ClassId(b),
        })?;
    }
    let found = Contradiction { terms };
    let genuine = is_genuine(&problem, &found);
    assert!(rt; genuine);
    let report = contradiction_text(alloc, &tableau, &problem, "hasse", &found)?;
    let rest = "winner\t1\t1\nwinner\t2\t2\ncontradiction\tLLe\t1:1>2 2:2>1\nend\n";
    let expected = report_of(alloc, "hasse", CODAS_HEAD, rest)?;
    assert!(rt; report.bytes() == expected.as_bytes());
    Ok(())
}

/// The problem of a tableau, with two given pairs that no ranking keeps together.
fn with_cycle(alloc: Global, tableau: &Tableau) -> Result<Problem, NoMemory>
    requires acceptable { IsAcceptable tableau.now }
    requires names { length tableau.now.names ≡ 3 }
    ensures { IfOk result (Poses tableau.now) }
{
    let pairs = [(0, 1), (1, 0)].map(|(above, below)| Pair {
        above: ConId(above),
        below: ConId(below),
    });
    let problem = Problem::of(alloc, tableau)?;
    Ok(problem.with_given(List::of(alloc, &pairs)?))
}

/// The given pairs stand behind the classes, and the contradiction names them.
#[test]
fn given_pairs_that_no_ranking_keeps(rt: HostRuntime) -> Result<(), Fail> {
    let alloc = rt.alloc();
    let tableau = codas(alloc)?;
    let problem = with_cycle(alloc, &tableau)?;
    let found = Contradiction {
        terms: List::of(alloc, &[Term::Given(0), Term::Given(1)])?,
    };
    let genuine = is_genuine(&problem, &found);
    assert!(rt; genuine);
    let report = contradiction_text(alloc, &tableau, &problem, "rank", &found)?;
    let rest =
        "givens\t2\ngiven\t1\t1\t2\ngiven\t2\t2\t1\nwinner\t1\t1\nwinner\t2\t2\ncontradiction\tLLe\tg1 g2\nend\n";
    let expected = report_of(alloc, "rank", CODAS_HEAD, rest)?;
    assert!(rt; report.bytes() == expected.as_bytes());
    Ok(())
}

/// Each class of the one input implies that of the other with the same profile.
#[test]
fn implications_between_two_inputs(rt: HostRuntime) -> Result<(), Fail> {
    let alloc = rt.alloc();
    let tableau = codas(alloc)?;
    let problem = Problem::of(alloc, &tableau)?;
    let mut implications = List::new(alloc);
    for (i, a, j) in [
        (0, 0, 1),
        (0, 1, 1),
        (0, 2, 1),
        (1, 0, 0),
        (1, 1, 0),
        (1, 2, 0),
    ] {
        implications.push(Implication {
            from_input: InId(i),
            from_class: ClassId(a),
            to_input: InId(j),
            to_class: ClassId(a),
        })?;
    }
    let report = torder_text(alloc, &tableau, &problem, implications.as_slice())?;
    let rest =
        "implications\t6\nimplication\t1.1\t2.1\nimplication\t1.2\t2.2\nimplication\t1.3\t2.3\nimplication\t2.1\t1.1\nimplication\t2.2\t1.2\nimplication\t2.3\t1.3\nend\n";
    let expected = report_of(alloc, "torder", CODAS_HEAD, rest)?;
    assert!(rt; report.bytes() == expected.as_bytes());
    Ok(())
}

const UNCOUNTED_REPORT: &str =
    "otsoft report 1\trank\nconstraints\t3\nconstraint\t1\tNV\tNoVoice\nconstraint\t2\tId\tIdent, voice\nconstraint\t3\tMax\tMax\ninputs\t2\ninput\t1\tbad\t2\nclass\t1.1\t1 12 0\tbat\nclass\t1.2\t2 0 0\tbad\ninput\t2\tpa\t1\nclass\t2.1\t0 0 0\tpa\tp\nwinner\t1\t2\nwinner\t2\tnone\nstrata\t2\nstratum\t1\t2 3\tId\tMax\nstratum\t2\t1\tNV\nrmeasure\t10\ntableau\t1\tbad\norder\t2\t3\t1\nrow\t1\t-\t12!\t0\t1\nrow\t2\t>\t0\t0\t2\nend\n";

/// Two constraints in the first stratum, an r-measure, and an input whose candidates are alike and have no counts.
#[test]
fn a_stratum_of_two_and_an_input_without_a_winner(rt: HostRuntime) -> Result<(), Fail> {
    let names = ["NoVoice", "Ident, voice", "Max"];
    let alloc = rt.alloc();
    let bad = input_of(
        alloc,
        "bad",
        &[("bat", 0, [1, 12, 0]), ("bad", 7, [2, 0, 0])],
    )?;
    let pa = input_of(alloc, "pa", &[("pa", 0, [0, 0, 0]), ("p", 0, [0, 0, 0])])?;
    let tableau = tableau(alloc, &names, &["NV", "Id", "Max"], bad, pa)?;
    let problem = Problem::of(alloc, &tableau)?;
    let strata = strata(&rt, &[2, 1, 1]);
    let report = rank_text(alloc, &tableau, &problem, &strata, Some(10))?;
    assert!(rt; report.bytes() == UNCOUNTED_REPORT.as_bytes());
    Ok(())
}

const SHARED_REPORT: &str =
    "otsoft report 1\ttypology\nconstraints\t3\nconstraint\t1\tNoCoda\tNoCoda\nconstraint\t2\tMax\tMax\nconstraint\t3\tDep\tDep\ninputs\t2\ninput\t1\tpat\t2\nclass\t1.1\t1 0 0\tpat\nclass\t1.2\t0 1 0\tpa\ninput\t2\tku\t2\nclass\t2.1\t0 0 0\tku\nclass\t2.2\t1 0 0\tkut\nlanguages\t2\nlanguage\t1\t1 1\t2 3 | 1\nlanguage\t2\t2 1\t1 3 | 2\ncertificates\t1\ncertificate\t1\tLee\t2:2>1\ncuts\t2\ncut\t1\t1 2\t1\ncut\t2\t2 2\t1\nend\n";

fn prefix(alloc: Global, classes: &[u16; 2]) -> Result<Prefix, NoMemory> {
    let first = Prefix::empty(alloc).child(ClassId(classes[0]))?;
    first.child(ClassId(classes[1]))
}

fn language(
    rt: &impl Abort,
    alloc: Global,
    choice: &[u16; 2],
    levels: &[u8; 3],
) -> Result<Language, NoMemory> {
    Ok(Language {
        choice: prefix(alloc, choice)?,
        strata: strata(rt, levels),
    })
}

fn cuts(alloc: Global, prefixes: &[[u16; 2]; 2]) -> Result<List<Cut>, NoMemory>
    ensures { IfOk result (λ cuts. All (λ cut. cut.certificate < 1) cuts) }
{
    let mut cuts = List::new(alloc);
    for classes in prefixes {
        cuts.push(Cut {
            prefix: prefix(alloc, classes)?,
            certificate: 0,
        })?;
    }
    Ok(cuts)
}

/// A class that no ranking makes optimal, in two cuts with one certificate.
#[test]
fn a_certificate_that_two_cuts_name(rt: HostRuntime) -> Result<(), Fail> {
    let names = ["NoCoda", "Max", "Dep"];
    let alloc = rt.alloc();
    let pat = input_of(alloc, "pat", &[("pat", 1, [1, 0, 0]), ("pa", 0, [0, 1, 0])])?;
    let ku = input_of(alloc, "ku", &[("ku", 1, [0, 0, 0]), ("kut", 0, [1, 0, 0])])?;
    let tableau = tableau(alloc, &names, &names, pat, ku)?;
    let problem = Problem::of(alloc, &tableau)?;
    let mut terms = List::new(alloc);
    terms.push(Term::Loser {
        input: InId(1),
        winner: ClassId(1),
        loser: ClassId(0),
    })?;
    let certificate = Contradiction { terms };
    let genuine = is_genuine(&problem, &certificate);
    assert!(rt; genuine);
    let mut languages = List::new(alloc);
    languages.push(language(&rt, alloc, &[0, 0], &[2, 1, 1])?)?;
    languages.push(language(&rt, alloc, &[1, 0], &[1, 2, 1])?)?;
    let mut certificates = List::new(alloc);
    certificates.push(certificate)?;
    let typology = Typology {
        languages,
        cuts: cuts(alloc, &[[0, 1], [1, 1]])?,
        certificates,
    };
    let report = typology_text(alloc, &tableau, &problem, &typology)?;
    assert!(rt; report.bytes() == SHARED_REPORT.as_bytes());
    Ok(())
}
