//! The report of a factorial typology: its languages, and what shows that the other choices are none.

ghost use Rattle.std.specs.Prelude.{◌≡◌, ◌-◌, ◌^◌, ◌++◌, ◌<◌, ◌≤◌, length, take, codes, All, IsTrue, IfOk, OnOk};
ghost use Rattle.refutation.specs.Prefixes.{class_numbers};
ghost use Rattle.refutation.specs.Terms.{are_terms, terms_in};
ghost use Rattle.refutation.specs.Typologies.{found_of, cuts_of, certificates_of};
ghost use Rattle.report_text.specs.Posed.{Poses};
ghost use Rattle.report_text.specs.Spelling.{each_behind_space};
ghost use Rattle.report_text.specs.Reports as reports;

use crate::head::put_head;
use crate::hierarchy::put_hierarchy;
use crate::prefixes::{keep_front, put_behind, put_prefix};
use crate::terms::put_fused_terms;
use crate::text::Text;
use cut_list::{CompactTypology, CutList, common_front};
use erc_vectors::{NoMemory, Strata};
use ot_base::{ClassId, Label, Tableau};
use refutation::{Contradiction, Cut, Language, Term, Typology};
use std::alloc::Global;
use violation_profiles::Problem;

/// The whole report of the command `typology`: the head, the languages, each with its classes by input and its hierarchy
/// (Tesar and Smolensky 2000), the certificates, each with the fusion of its conditions (Prince 2002) and its terms, and the
/// cuts, each with its classes by input and the number of its certificate.
///
/// `p` is the problem of `t`, with given pairs or without. Each certificate of `y` has at least one term, each of its terms is in range for `p`, with a
/// loser other than the winner, and each cut names one of the certificates.
pub fn typology_text(
    alloc: Global,
    t: &Tableau,
    p: &Problem,
    y: &Typology,
) -> Result<Label, NoMemory>
    requires poses { Poses t.now p.now }
    requires some_term { All (λ certificate. 0 < length certificate.terms) y.now.certificates }
    requires terms { All (λ certificate. IsTrue (are_terms p.now certificate.terms)) y.now.certificates }
    requires named { All (λ cut. cut.certificate < length y.now.certificates) y.now.cuts }
    ensures { IfOk result (λ text. text
        ≡ reports.typology_report t.now p.now (found_of y.now.languages) (certificates_of y.now.certificates) (cuts_of y.now.cuts)) }
{
    let languages = y.languages.as_slice();
    let certificates = y.certificates.as_slice();
    let mut text = text_before_cuts(alloc, t, p, languages, certificates)?;
    put_cuts(alloc, &mut text, certificates.len(), y.cuts.as_slice())?;
    text.put(b"end\n")?;
    Ok(text.into_label())
}

/// The same report, of a typology whose cuts are kept by what each does not share with the one before.
pub fn compact_typology_text(
    alloc: Global,
    t: &Tableau,
    p: &Problem,
    y: &CompactTypology,
) -> Result<Label, NoMemory>
    requires poses { Poses t.now p.now }
    requires some_term { All (λ certificate. 0 < length certificate.terms) y.now.certificates }
    requires terms { All (λ certificate. IsTrue (are_terms p.now certificate.terms)) y.now.certificates }
    requires named { All (λ cut. cut.certificate < length y.now.certificates) y.now.cuts }
    ensures { IfOk result (λ text. text
        ≡ reports.typology_report t.now p.now (found_of y.now.languages) (certificates_of y.now.certificates) (cuts_of y.now.cuts)) }
{
    let languages = y.languages.as_slice();
    let certificates = y.certificates.as_slice();
    let mut text = text_before_cuts(alloc, t, p, languages, certificates)?;
    put_cut_list(alloc, &mut text, certificates.len(), &y.cuts)?;
    text.put(b"end\n")?;
    Ok(text.into_label())
}

/// What stands before the cuts: the head, the languages and the certificates.
fn text_before_cuts(
    alloc: Global,
    t: &Tableau,
    p: &Problem,
    languages: &[Language],
    certificates: &[Contradiction],
) -> Result<Text, NoMemory>
    requires poses { Poses t.now p.now }
    requires some_term { All (λ certificate. 0 < length certificate.terms) certificates.now }
    requires terms { All (λ certificate. IsTrue (are_terms p.now certificate.terms)) certificates.now }
    ensures { IfOk result (λ text. text ≡ reports.head (codes "typology") t.now p.now ++ reports.language_lines (found_of languages.now) ++ reports.certificate_lines p.now (certificates_of certificates.now)) }
{
    let mut text = Text::new(alloc);
    put_head(&mut text, b"typology", t, p)?;
    put_languages(alloc, &mut text, languages)?;
    put_certificates(&mut text, p, certificates)?;
    Ok(text)
}

/// The number of languages, and a line for each.
fn put_languages(alloc: Global, text: &mut Text, languages: &[Language]) -> Result<(), NoMemory>
    ensures { OnOk result (text.new ≡ text.old ++ reports.language_lines (found_of languages.now)) }
{
    text.count_line(b"languages", languages.len())?;
    let mut kept = Text::new(alloc);
    let mut before: &[ClassId] = &[];
    for (k, language) in languages.iter().enumerate() {
        let choice = language.choice.as_slice();
        put_language(text, &mut kept, before, k + 1, choice, &language.strata)?;
        before = choice;
    }
    Ok(())
}

/// The line of a language: its number, its classes by input, of which the text of those before is kept, and its hierarchy.
fn put_language(
    text: &mut Text,
    kept: &mut Text,
    before: &[ClassId],
    number: usize,
    choice: &[ClassId],
    strata: &Strata,
) -> Result<(), NoMemory>
    requires { kept.old ≡ each_behind_space (class_numbers before.now) }
    ensures written { OnOk result (text.new ≡ text.old ++ reports.language_line number (class_numbers choice.now, strata.now)) }
    ensures kept { OnOk result (kept.new ≡ each_behind_space (class_numbers choice.now)) }
{
    text.line_number(b"language", number)?;
    put_prefix(text, kept, before, choice)?;
    text.put(b"\t")?;
    put_hierarchy(text, strata)?;
    text.end_line()
}

/// The number of certificates, and a line for each.
fn put_certificates(
    text: &mut Text,
    p: &Problem,
    certificates: &[Contradiction],
) -> Result<(), NoMemory>
    requires some_term { All (λ certificate. 0 < length certificate.terms) certificates.now }
    requires terms { All (λ certificate. IsTrue (are_terms p.now certificate.terms)) certificates.now }
    ensures { OnOk result (text.new ≡ text.old ++ reports.certificate_lines p.now (certificates_of certificates.now)) }
{
    text.count_line(b"certificates", certificates.len())?;
    for (k, certificate) in certificates.iter().enumerate() {
        put_certificate(text, p, k + 1, certificate.terms.as_slice())?;
    }
    Ok(())
}

/// The line of a certificate: its number, the marks of its fusion, and its terms.
fn put_certificate(
    text: &mut Text,
    p: &Problem,
    number: usize,
    terms: &[Term],
) -> Result<(), NoMemory>
    requires some { 0 < length terms.now }
    requires terms { IsTrue (are_terms p.now terms.now) }
    ensures { OnOk result (text.new ≡ text.old ++ reports.certificate_line p.now number (terms_in terms.now)) }
{
    text.put(b"certificate")?;
    text.number_field(number)?;
    put_fused_terms(text, p, terms)?;
    text.end_line()
}

/// The number of cuts, each of which names one of so many certificates, and a line for each.
fn put_cuts(
    alloc: Global,
    text: &mut Text,
    certificates: usize,
    cuts: &[Cut],
) -> Result<(), NoMemory>
    requires { All (λ cut. cut.certificate < certificates) cuts.now }
    ensures { OnOk result (text.new ≡ text.old ++ reports.cut_lines (cuts_of cuts.now)) }
{
    text.count_line(b"cuts", cuts.len())?;
    let mut kept = Text::new(alloc);
    let mut before: &[ClassId] = &[];
    for (k, cut) in cuts.iter().enumerate() {
        prove!(cut.certificate < certificates);
        let prefix = cut.prefix.as_slice();
        let front = common_front(before, prefix);
        keep_front(&mut kept, before, front);
        put_cut(text, &mut kept, front, k + 1, prefix, cut.certificate)?;
        before = prefix;
    }
    Ok(())
}

/// The same of cuts that are kept by what each does not share with the one before.
fn put_cut_list(
    alloc: Global,
    text: &mut Text,
    certificates: usize,
    cuts: &CutList,
) -> Result<(), NoMemory>
    requires { All (λ cut. cut.certificate < certificates) cuts.now }
    ensures { OnOk result (text.new ≡ text.old ++ reports.cut_lines (cuts_of cuts.now)) }
{
    text.count_line(b"cuts", cuts.len())?;
    let mut kept = Text::new(alloc);
    let mut prefix = Vec::new(alloc);
    for k in 0..cuts.len() {
        let change = cuts.change(k);
        prove!(change.certificate < certificates);
        let front = change.kept.min(prefix.len());
        keep_front(&mut kept, prefix.as_slice(), front);
        prefix.truncate(front);
        prefix.extend_from_slice(change.own)?;
        put_cut(
            text,
            &mut kept,
            front,
            k + 1,
            prefix.as_slice(),
            change.certificate,
        )?;
    }
    Ok(())
}

/// The line of a cut: its number, its classes by input, of which the text of the first ones, so many, is kept, and the place of
/// its certificate, counted from 1.
fn put_cut(
    text: &mut Text,
    kept: &mut Text,
    front: usize,
    number: usize,
    prefix: &[ClassId],
    certificate: usize,
) -> Result<(), NoMemory>
    requires within { front ≤ length prefix.now }
    requires kept { kept.old ≡ each_behind_space (class_numbers (take front prefix.now)) }
    requires counted { certificate < 2 ^ 64 - 1 }
    ensures written { OnOk result (text.new ≡ text.old ++ reports.cut_line number (class_numbers prefix.now, certificate)) }
    ensures kept { OnOk result (kept.new ≡ each_behind_space (class_numbers prefix.now)) }
{
    text.line_number(b"cut", number)?;
    put_behind(text, kept, prefix, front)?;
    text.number_between(b'\t', certificate + 1, b'\n')
}
