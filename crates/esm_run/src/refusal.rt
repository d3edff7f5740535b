// Turns the reason why a run refused its lines, files or mapping into the ending of its report.
ghost use Rattle.std.specs.Prelude.{◌≡◌, ◌++◌, Some, IfOk, OnErr};
ghost use Rattle.esm_config.specs.Names.{name_of};
ghost use Rattle.esm_input.specs.declared.ending.InputEnd.{InputEnd};
ghost use Rattle.esm_record.specs.declared.error.LineError.TheVariants.{Backwards};
ghost use Rattle.esm_report.specs.declared.ending.Ending.TheVariants.{BadParameter};
ghost use Rattle.esm_run.specs.Endings.{why_text, ddb_why_text, ending_of, ending_of_ddb, ending_of_reading, ending_of_redrive};
ghost use Rattle.esm_run.specs.Endings.{ending_of_replay, ending_of_turned, ending_of_files, ending_of_mapping, file_of};

use esm_config::Param;
use esm_ddb::{DdbError, InputTurned};
use esm_folder::JournalFile;
use esm_input::InputEnd;
use esm_mapping::MappingError;
use esm_model::{FileName, OutOfMemory, Text};
use esm_record::LineError;
use esm_redrive_run::RedriveEnd;
use esm_replay_run::ReplayEnd;
use esm_report::Ending;
use esm_runner::{FilesError, MappingEnd};
use std::alloc::Global;

fn text_of(alloc: Global, text: &str) -> Result<Text, OutOfMemory>
    ensures { IfOk result (λ t. t ≡ text.now) }
{
    Ok(Text::from_vec(String::from_str(alloc, text)?))
}

/// Joins two texts.
fn joined(alloc: Global, first: &str, second: &str) -> Result<Text, OutOfMemory>
    ensures { IfOk result (λ t. t ≡ first.now ++ second.now) }
{
    let mut text = String::from_str(alloc, first)?;
    text.push_str(second)?;
    Ok(Text::from_vec(text))
}

/// Writes the refusal of a sequence number that is not greater than the shard's last one.
fn backwards(alloc: Global, kept: &str, given: &str) -> Result<Text, OutOfMemory>
    ensures { IfOk result (λ t. t ≡ why_text (Backwards kept.now given.now)) }
{
    let mut text = String::from_str(alloc, "Backwards kept ")?;
    text.push_str(kept)?;
    text.push_str(" given ")?;
    text.push_str(given)?;
    Ok(Text::from_vec(text))
}

/// Writes why a line was refused, as the report has it.
fn why_text(alloc: Global, why: &LineError) -> Result<Text, OutOfMemory>
    ensures { IfOk result (λ t. t ≡ why_text why.now) }
{
    match why {
        LineError::NotJson => text_of(alloc, "NotJson"),
        LineError::Missing(field) => joined(alloc, "Missing ", field.name()),
        LineError::BadField(field) => joined(alloc, "BadField ", field.name()),
        LineError::Backwards { kept, given } => backwards(alloc, kept.as_str(), given.as_str()),
        LineError::LineTooLong => text_of(alloc, "LineTooLong"),
        LineError::Repeated(id) => joined(alloc, "Repeated ", id.as_str()),
    }
}

/// The refusal of a mapping's field.
fn bad_parameter(alloc: Global, param: Param) -> Result<Ending, OutOfMemory>
    ensures { IfOk result (λ ending. ending ≡ BadParameter (name_of param)) }
{
    let name = text_of(alloc, param.name())?;
    Ok(Ending::BadParameter { name })
}

/// Returns the ending of a run that left nothing: every record or message that arrived has its fate, or a replay has nothing
/// left to call.
fn ending_of_reading(alloc: Global, end: InputEnd) -> Result<Ending, OutOfMemory>
    ensures { IfOk result (λ ending. ending ≡ ending_of_reading end) }
{
    match end {
        InputEnd::End => Ok(Ending::Done),
        InputEnd::BadLine(bad) => {
            let why = why_text(alloc, &bad.why)?;
            Ok(Ending::BadLine {
                number: bad.line,
                why,
            })
        }
        InputEnd::Fault => Ok(Ending::InputFault),
        InputEnd::Limit(limit) => Ok(Ending::Limit(limit)),
    }
}

/// Writes why a line of a DynamoDB stream was refused, as the report has it.
fn ddb_why_text(alloc: Global, why: DdbError) -> Result<Text, OutOfMemory>
    ensures { IfOk result (λ t. t ≡ ddb_why_text why) }
{
    match why {
        DdbError::NotJson => text_of(alloc, "NotJson"),
        DdbError::Missing(field) => joined(alloc, "Missing ", field.name()),
        DdbError::BadField(field) => joined(alloc, "BadField ", field.name()),
        DdbError::LineTooLong => text_of(alloc, "LineTooLong"),
    }
}

/// Returns the ending of a run in which every record of the turned lines has its fate.
fn ending_of_turned(alloc: Global, end: InputTurned) -> Result<Ending, OutOfMemory>
    ensures { IfOk result (λ ending. ending ≡ ending_of_turned end) }
{
    match end {
        InputTurned::Ended => Ok(Ending::Done),
        InputTurned::BadLine(bad) => {
            let why = ddb_why_text(alloc, bad.why)?;
            Ok(Ending::BadLine {
                number: bad.line,
                why,
            })
        }
        InputTurned::Failed => Ok(Ending::InputFault),
    }
}

/// Returns the ending of the run of a DynamoDB stream's mapping over turned lines; `turned` says how the reading of the
/// input ended.
pub fn ending_of_ddb(
    alloc: Global,
    turned: InputTurned,
    end: MappingEnd,
) -> Result<Ending, OutOfMemory>
    ensures { IfOk result (λ ending. ending ≡ ending_of_ddb turned end) }
{
    match end {
        MappingEnd::Finished(InputEnd::End) => ending_of_turned(alloc, turned),
        _ => ending_of(alloc, end),
    }
}

/// Returns the ending of a redrive's run. Takes memory only for the text of a bad line; `OutOfMemory` if that failed.
pub fn ending_of_redrive(alloc: Global, end: RedriveEnd) -> Result<Ending, OutOfMemory>
    ensures { IfOk result (λ ending. ending ≡ ending_of_redrive end) }
{
    match end {
        RedriveEnd::Finished(why) => ending_of_reading(alloc, why),
        RedriveEnd::CallsSpent => Ok(Ending::CallsSpent),
        RedriveEnd::DiskFault => Ok(Ending::DiskFault),
        RedriveEnd::DestFault => Ok(Ending::DestFault),
        RedriveEnd::Changed(change) => Ok(Ending::StreamChanged(change)),
        RedriveEnd::BadLine(index) => Ok(Ending::BadPayload {
            file: FileName::Failures,
            index,
        }),
    }
}

/// Returns the ending of a replay's run. Takes memory only for the text of a bad line; `OutOfMemory` if that failed.
pub fn ending_of_replay(alloc: Global, end: ReplayEnd) -> Result<Ending, OutOfMemory>
    ensures { IfOk result (λ ending. ending ≡ ending_of_replay end) }
{
    match end {
        ReplayEnd::Finished(why) => ending_of_reading(alloc, why),
        ReplayEnd::CallsSpent => Ok(Ending::CallsSpent),
        ReplayEnd::DiskFault => Ok(Ending::DiskFault),
        ReplayEnd::Changed(change) => Ok(Ending::StreamChanged(change)),
        ReplayEnd::BadLine(index) => Ok(Ending::BadPayload {
            file: FileName::Failures,
            index,
        }),
    }
}

/// Returns the ending of a mapping's run. Takes memory only for the text of a bad line; `OutOfMemory` if that failed.
pub fn ending_of(alloc: Global, end: MappingEnd) -> Result<Ending, OutOfMemory>
    ensures told { IfOk result (λ ending. ending ≡ ending_of end) }
    ensures memory { OnErr result ((why : InputEnd) × (end ≡ MappingEnd.Finished why)) }
{
    match end {
        MappingEnd::Finished(why) => ending_of_reading(alloc, why),
        MappingEnd::CallsSpent => Ok(Ending::CallsSpent),
        MappingEnd::DiskFault => Ok(Ending::DiskFault),
        MappingEnd::DestFault => Ok(Ending::DestFault),
        MappingEnd::Changed(change) => Ok(Ending::StreamChanged(change)),
    }
}

fn file_of(file: JournalFile) -> FileName
    ensures { result ≡ file_of file }
{
    match file {
        JournalFile::Journal => FileName::Journal,
        JournalFile::Failures => FileName::Failures,
    }
}

/// Returns the ending of a run whose files were refused, or `OutOfMemory` if they were refused for that.
pub fn ending_of_files(why: FilesError) -> Result<Ending, OutOfMemory>
    ensures told { IfOk result (λ ending. ending_of_files why ≡ Some ending) }
    ensures memory { OnErr result (why ≡ FilesError.OutOfMemory) }
{
    match why {
        FilesError::NotAJournal { file } => Ok(Ending::NotAJournal {
            file: file_of(file),
        }),
        FilesError::Damaged { file, place } => Ok(Ending::Damaged {
            file: file_of(file),
            place,
        }),
        FilesError::BadPayload { index } => Ok(Ending::BadPayload {
            file: FileName::Journal,
            index,
        }),
        FilesError::DiskFault => Ok(Ending::OpenFault),
        FilesError::OutOfMemory => Err(OutOfMemory),
    }
}

/// Returns the ending of a run whose mapping was refused, or `OutOfMemory` if it was refused for that or its parameter's
/// name could not be copied.
pub fn ending_of_mapping(alloc: Global, why: MappingError) -> Result<Ending, OutOfMemory>
    ensures { IfOk result (λ ending. ending_of_mapping why ≡ Some ending) }
{
    let file = FileName::Registry;
    match why {
        MappingError::NotAJournal => Ok(Ending::NotAJournal { file }),
        MappingError::Damaged { place } => Ok(Ending::Damaged { file, place }),
        MappingError::BadPayload { index } => Ok(Ending::BadPayload { file, index }),
        MappingError::DiskFault => Ok(Ending::OpenFault),
        MappingError::Unknown => Ok(Ending::UnknownMapping),
        MappingError::Disabled => Ok(Ending::DisabledMapping),
        MappingError::BadParam(param) => bad_parameter(alloc, param),
        MappingError::OutOfMemory => Err(OutOfMemory),
    }
}
