//! What a command judges poses: its files, each of which is read to its end, or the demonstration file, which is made.

ghost use Rattle.std.specs.Prelude.{◌≡◌, ◌+◌, ℕ, List, Result, drop, Ok, Err, Some, None, IfOk, IfErr};
ghost use Rattle.tableau_file.specs.Given.{given_reading};
ghost use Rattle.tableau_file.specs.Reading.{reading};
ghost use Rattle.tableau_file.specs.declared.FileRefusal.{FileRefusal};
ghost use Rattle.tableau_file.specs.declared.given.GivenRefusal.{GivenRefusal};
ghost use Rattle.tableau_file.specs.declared.limits.TheConstants.{FILE_LIMIT};
ghost use Rattle.ot_base.specs.Causes.{next_number};
ghost use Rattle.ot_base.specs.Outside.{KeepsFiles, FilesRose};
ghost use Rattle.ot_base.specs.Acceptable.{IsAcceptable};
ghost use Rattle.report_text.specs.Posed.{Poses};
ghost use Rattle.demonstration_file.specs.Demonstration.{demonstration_file};
ghost use Rattle.otsoft_run.specs.declared.judging.Posed.{Posed};
ghost use Rattle.otsoft_run.specs.declared.sources.Source.{Source};
ghost use Rattle.otsoft_run.specs.declared.sources.SourceError.{SourceError};
ghost use Rattle.otsoft_run.specs.declared.sources.SourceRefusal.{SourceRefusal};
ghost use Rattle.otsoft_run.specs.Answers.{IsAccepted, IsReadOut, IsUntouched, Judges, Reads, ReadsNothing, Refusal, given_refusal_of, posed_alone, posed_under};
ghost use Rattle.otsoft_run.specs.Poses.{IsReadThrough, IsSourceRead, HasFault};
ghost use Rattle.otsoft_run.specs.Sources.{name_of, told_of};
ghost use Rattle.command_words.specs.Words.{made_of};

use crate::judging::{Posed, judge, judge_given};
use crate::reading::{ReadEnd, read_whole};
use crate::sources::{PoseError, Source, SourceError, SourceRefusal};
use command_words::Settings;
use demonstration_file::demonstration_file;
use ot_base::Files;
use std::alloc::Global;
use tableau_file::{FileRefusal, GivenError, GivenRefusal, ReadError};

/// Judges what a command is asked of: reads its files to their ends, that of the tableau first, or makes the demonstration file.
pub(crate) fn pose<F: Files>(
    alloc: Global,
    files: &mut F,
    settings: &Settings,
) -> Result<Posed, PoseError>
    ensures accepted { IfOk result (λ posed. (verdict : Result Posed Refusal) → Judges settings.now (F.told files.old) verdict → verdict ≡ Ok posed) }
    ensures poses { IfOk result (λ posed. Poses posed.tableau posed.problem) }
    ensures acceptable { IfOk result (λ posed. IsAcceptable posed.tableau) }
    ensures refused { (refusal : SourceRefusal) → result ≡ Err (PoseError.Refused refusal) → (verdict : Result Posed Refusal) → Judges settings.now (F.told files.old) verdict
        → verdict ≡ Err (told_of settings.now refusal) }
    ensures refused_file { (refusal : SourceRefusal) → result ≡ Err (PoseError.Refused refusal) → Reads settings.now (told_of settings.now refusal).file }
    ensures read_out { IsReadThrough result → IsReadOut settings.now (F.told files.old) (F.told files.new) }
    ensures unfailed { (HasFault result → ⊥) → (F.told files.new).failed ≡ (F.told files.old).failed }
    ensures fault { (source : Source) → result ≡ Err (PoseError.Fault source) → FilesRose (name_of settings.now source) (F.told files.old) (F.told files.new) }
    ensures fault_file { (source : Source) → result ≡ Err (PoseError.Fault source) → Reads settings.now (name_of settings.now source) }
    ensures fault_first { result ≡ Err (PoseError.Fault Source.Given) → IsAccepted settings.now (F.told files.old) }
    ensures failed { (source : Source) → result ≡ Err (PoseError.Fault source) → (F.told files.new).failed ≡ next_number (F.told files.old).failed }
    ensures keeps { KeepsFiles (F.told files.old) (F.told files.new) }
    ensures untouched { ReadsNothing settings.now → IsUntouched (F.told files.old) (F.told files.new) }
{
    match settings.made() {
        Some(number) => pose_made(alloc, number),
        None => pose_read(alloc, files, settings),
    }
}

/// Makes the demonstration file of a number and judges it. It is accepted.
fn pose_made(alloc: Global, number: u64) -> Result<Posed, PoseError>
    ensures accepted { IfOk result (λ posed. reading (demonstration_file number) ≡ Ok posed.tableau) }
    ensures alone { IfOk result (λ posed. posed ≡ posed_alone posed.tableau) }
    ensures acceptable { IfOk result (λ posed. IsAcceptable posed.tableau) }
    ensures no_memory { IfErr result (λ error. error ≡ PoseError.NoMemory) }
{
    let Ok(file) = demonstration_file(alloc, number) else {
        return Err(PoseError::NoMemory);
    };
    match judge(alloc, file.bytes()) {
        Ok(posed) => Ok(posed),
        Err(ReadError::Refused(_)) => unreachable!(),
        Err(ReadError::NoMemory) => Err(PoseError::NoMemory),
    }
}

/// Reads the file of the tableau, and where it is accepted that of the given pairs, if there is one.
fn pose_read<F: Files>(
    alloc: Global,
    files: &mut F,
    settings: &Settings,
) -> Result<Posed, PoseError>
    requires { made_of settings.now ≡ None }
    ensures accepted { IfOk result (λ posed. (verdict : Result Posed Refusal) → Judges settings.now (F.told files.old) verdict → verdict ≡ Ok posed) }
    ensures poses { IfOk result (λ posed. Poses posed.tableau posed.problem) }
    ensures acceptable { IfOk result (λ posed. IsAcceptable posed.tableau) }
    ensures refused { (refusal : SourceRefusal) → result ≡ Err (PoseError.Refused refusal) → (verdict : Result Posed Refusal) → Judges settings.now (F.told files.old) verdict
        → verdict ≡ Err (told_of settings.now refusal) }
    ensures refused_file { (refusal : SourceRefusal) → result ≡ Err (PoseError.Refused refusal) → Reads settings.now (told_of settings.now refusal).file }
    ensures read_out { IsReadThrough result → IsReadOut settings.now (F.told files.old) (F.told files.new) }
    ensures unfailed { (HasFault result → ⊥) → (F.told files.new).failed ≡ (F.told files.old).failed }
    ensures fault { (source : Source) → result ≡ Err (PoseError.Fault source) → FilesRose (name_of settings.now source) (F.told files.old) (F.told files.new) }
    ensures fault_file { (source : Source) → result ≡ Err (PoseError.Fault source) → Reads settings.now (name_of settings.now source) }
    ensures fault_first { result ≡ Err (PoseError.Fault Source.Given) → IsAccepted settings.now (F.told files.old) }
    ensures failed { (source : Source) → result ≡ Err (PoseError.Fault source) → (F.told files.new).failed ≡ next_number (F.told files.old).failed }
    ensures keeps { KeepsFiles (F.told files.old) (F.told files.new) }
{
    let posed = match read_tableau_file(alloc, files, settings.file()) {
        Ok(posed) => posed,
        Err(SourceError::Fault) => return Err(PoseError::Fault(Source::Tableau)),
        Err(SourceError::Refused(refusal)) => {
            return Err(PoseError::Refused(SourceRefusal::Tableau(refusal)));
        }
        Err(SourceError::NoMemory) => return Err(PoseError::NoMemory),
    };
    match settings.given() {
        None => Ok(posed),
        Some(name) => match read_given_file(alloc, files, name, posed) {
            Ok(posed) => Ok(posed),
            Err(SourceError::Fault) => Err(PoseError::Fault(Source::Given)),
            Err(SourceError::Refused(refusal)) => {
                Err(PoseError::Refused(SourceRefusal::Given(refusal)))
            }
            Err(SourceError::NoMemory) => Err(PoseError::NoMemory),
        },
    }
}

/// Reads the file of a tableau to its end and judges it.
fn read_tableau_file<F: Files>(
    alloc: Global,
    files: &mut F,
    name: &str,
) -> Result<Posed, SourceError<FileRefusal>>
    ensures accepted { IfOk result (λ posed. (bytes : List ℕ) → (F.told files.old).stored name.now ≡ Some bytes → reading bytes ≡ Ok posed.tableau) }
    ensures alone { IfOk result (λ posed. posed ≡ posed_alone posed.tableau) }
    ensures acceptable { IfOk result (λ posed. IsAcceptable posed.tableau) }
    ensures refused { (refusal : FileRefusal) → result ≡ Err (SourceError.Refused refusal) → (bytes : List ℕ) → (F.told files.old).stored name.now ≡ Some bytes → reading bytes ≡ Err refusal }
    ensures read_through { IsSourceRead result → (bytes : List ℕ) → (F.told files.old).stored name.now ≡ Some bytes → (F.told files.new).left ≡ Some (drop (FILE_LIMIT + 1) bytes) }
    ensures unfailed { (result ≡ Err SourceError.Fault → ⊥) → (F.told files.new).failed ≡ (F.told files.old).failed }
    ensures fault { result ≡ Err SourceError.Fault → FilesRose name.now (F.told files.old) (F.told files.new) }
    ensures failed { result ≡ Err SourceError.Fault → (F.told files.new).failed ≡ next_number (F.told files.old).failed }
    ensures keeps { KeepsFiles (F.told files.old) (F.told files.new) }
{
    let bytes = match read_whole(alloc, files, name) {
        Ok(bytes) => bytes,
        Err(ReadEnd::Fault) => return Err(SourceError::Fault),
        Err(ReadEnd::NoMemory) => return Err(SourceError::NoMemory),
    };
    match judge(alloc, bytes.as_slice()) {
        Ok(posed) => Ok(posed),
        Err(ReadError::Refused(refusal)) => Err(SourceError::Refused(refusal)),
        Err(ReadError::NoMemory) => Err(SourceError::NoMemory),
    }
}

/// Reads the file of given pairs to its end and judges it. What is posed is under its pairs.
fn read_given_file<F: Files>(
    alloc: Global,
    files: &mut F,
    name: &str,
    posed: Posed,
) -> Result<Posed, SourceError<GivenRefusal>>
    requires alone { posed ≡ posed_alone posed.tableau }
    requires acceptable { IsAcceptable posed.tableau }
    ensures accepted { IfOk result (λ under. (bytes : List ℕ) → (F.told files.old).stored name.now ≡ Some bytes → posed_under posed.tableau name.now (given_reading posed.tableau bytes) ≡ Ok under) }
    ensures same { IfOk result (λ under. under.tableau ≡ posed.tableau) }
    ensures poses { IfOk result (λ under. Poses under.tableau under.problem) }
    ensures refused { (refusal : GivenRefusal) → result ≡ Err (SourceError.Refused refusal) → (bytes : List ℕ) → (F.told files.old).stored name.now ≡ Some bytes
        → posed_under posed.tableau name.now (given_reading posed.tableau bytes) ≡ Err (given_refusal_of name.now refusal) }
    ensures read_through { IsSourceRead result → (bytes : List ℕ) → (F.told files.old).stored name.now ≡ Some bytes → (F.told files.new).left ≡ Some (drop (FILE_LIMIT + 1) bytes) }
    ensures unfailed { (result ≡ Err SourceError.Fault → ⊥) → (F.told files.new).failed ≡ (F.told files.old).failed }
    ensures fault { result ≡ Err SourceError.Fault → FilesRose name.now (F.told files.old) (F.told files.new) }
    ensures failed { result ≡ Err SourceError.Fault → (F.told files.new).failed ≡ next_number (F.told files.old).failed }
    ensures keeps { KeepsFiles (F.told files.old) (F.told files.new) }
{
    let bytes = match read_whole(alloc, files, name) {
        Ok(bytes) => bytes,
        Err(ReadEnd::Fault) => return Err(SourceError::Fault),
        Err(ReadEnd::NoMemory) => return Err(SourceError::NoMemory),
    };
    match judge_given(alloc, bytes.as_slice(), posed) {
        Ok(posed) => Ok(posed),
        Err(GivenError::Refused(refusal)) => Err(SourceError::Refused(refusal)),
        Err(GivenError::NoMemory) => Err(SourceError::NoMemory),
    }
}
