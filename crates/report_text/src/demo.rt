//! The report of the command `demo`.

ghost use Rattle.std.specs.Prelude.{◌≡◌, IfOk, length};
ghost use Rattle.report_text.specs.Summary.{demo_report};

use crate::head::put_title;
use crate::text::Text;
use erc_vectors::NoMemory;
use ot_base::Label;
use refutation::Typology;
use std::alloc::Global;

/// The whole report of the command `demo`: the number of the file, how many bytes it has, how many languages, certificates and cuts
/// its typology, and how many bytes the report of that typology.
pub fn demo_text(
    alloc: Global,
    number: u64,
    bytes: usize,
    typology: &Typology,
    report: usize,
) -> Result<Label, NoMemory>
    ensures { IfOk result (λ text. text ≡ demo_report number bytes (length typology.now.languages) (length typology.now.certificates) (length typology.now.cuts) report) }
{
    let languages = typology.languages.len();
    let certificates = typology.certificates.len();
    let cuts = typology.cuts.len();
    let mut text = Text::new(alloc);
    put_title(&mut text, b"demo")?;
    text.count_line(b"number", number as usize)?;
    text.count_line(b"bytes", bytes)?;
    text.count_line(b"languages", languages)?;
    text.count_line(b"certificates", certificates)?;
    text.count_line(b"cuts", cuts)?;
    text.count_line(b"report", report)?;
    text.put(b"end\n")?;
    Ok(text.into_label())
}
