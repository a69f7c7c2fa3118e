// The services: where the inputs of each come from, and what each writes.
ghost use Rattle.std.specs.Prelude.{◌≡◌};
ghost use Rattle.report.specs.Output.{Writes};
ghost use Rattle.bench.specs.Words.{service_of, words_in};
ghost use Rattle.report.specs.Dialogue.{begun as begun_of};
ghost use Rattle.bench.specs.Bench.{inputs_in, sheet_output, output, sheet_from, source_of};
ghost use Rattle.bench.specs.Bench.{bench as bench_of};

use crate::words::{Service, SheetService, Source, Words};
use report::{
    OUTPUT, Written, answers_sheet, begin, build_sheet, certify_sheet, help, house_sheet,
    judge_sheet, read_record, tell, word_sheet, write_sheet,
};

// What there is to read: a sheet, and the parts of one. The parts are no struct within it: who writes a
// sheet is lent them one by one.
#[derive(Clone, Copy)]
pub struct Inputs<'a> {
    pub sheet: &'a [u8],
    pub machine: &'a [u8],
    pub word: &'a [u8],
    pub sequence: &'a [u8],
    pub answers: &'a [u8],
}

impl<'a> Inputs<'a> {
    // A sheet and answers, and none of the other parts.
    pub(crate) fn of_sheet(sheet: &'a [u8], answers: &'a [u8]) -> Inputs<'a> {
        Inputs {
            sheet,
            machine: b"",
            word: b"",
            sequence: b"",
            answers,
        }
    }

    // Parts, and no sheet.
    pub(crate) fn of_parts(
        machine: &'a [u8],
        word: &'a [u8],
        sequence: &'a [u8],
        answers: &'a [u8],
    ) -> Inputs<'a> {
        Inputs {
            sheet: b"",
            machine,
            word,
            sequence,
            answers,
        }
    }
}

// Where the sheet of a service on a sheet comes from, an arm for each, as the definition has it.
fn sheet_from(service: SheetService) -> Source
    ensures { result ≡ sheet_from service }
{
    match service {
        SheetService::Judge
        | SheetService::Certify
        | SheetService::Word
        | SheetService::Build
        | SheetService::Read { .. } => Source::Standard,
        SheetService::Desk => Source::File,
    }
}

// Where a service's inputs come from, likewise.
fn source_of(service: Service) -> Source
    ensures { result ≡ source_of service }
{
    match service {
        Service::Wrong { .. } | Service::House | Service::Help => Source::Nothing,
        Service::OnSheet { service: on } => sheet_from(on),
        Service::Write { .. } => Source::Parts,
        Service::AddAnswers => Source::Answers,
    }
}

// Where the inputs come from of the service that the words ask for.
pub fn input_source(words: &Words) -> Source
    ensures { result ≡ source_of (service_of (words_in words.now)) }
{
    source_of(words.service_of())
}

// What the desk writes before the first answer.
fn begun(sheet: &[u8], out: &mut [u8; OUTPUT]) -> Written
    ensures { Writes (begun_of sheet.now) out.old out.new result }
{
    begin(sheet, out).written
}

// What a service on a sheet writes: an arm for each, as `sheet_output` has it. A table of closures
// would be made by such a match.
fn perform_on_sheet(service: SheetService, sheet: &[u8], out: &mut [u8; OUTPUT]) -> Written
    ensures { Writes (sheet_output service sheet.now) out.old out.new result }
{
    match service {
        SheetService::Judge => judge_sheet(sheet, out),
        SheetService::Certify => certify_sheet(sheet, out),
        SheetService::Word => word_sheet(sheet, out),
        SheetService::Build => build_sheet(sheet, out),
        SheetService::Read { kind } => read_record(sheet, kind, out),
        SheetService::Desk => begun(sheet, out),
    }
}

// What a service writes, likewise as `output` has it.
fn perform(service: Service, inputs: &Inputs, out: &mut [u8; OUTPUT]) -> Written
    ensures { Writes (output service (inputs_in inputs.now)) out.old out.new result }
{
    match service {
        Service::Wrong { mistake } => tell(mistake, out),
        Service::OnSheet { service: on } => perform_on_sheet(on, inputs.sheet, out),
        Service::Write { wanted } => write_sheet(
            wanted,
            inputs.machine,
            inputs.word,
            inputs.sequence,
            inputs.answers,
            out,
        ),
        Service::AddAnswers => answers_sheet(inputs.sheet, inputs.answers, out),
        Service::House => house_sheet(out),
        Service::Help => help(out),
    }
}

// What the bench writes, by its words and what it was given; of the desk, before the first answer.
#[tactic(auto, unfolding(crate::specs::Bench::bench))]
pub fn bench(words: &Words, inputs: &Inputs, out: &mut [u8; OUTPUT]) -> Written
    ensures { Writes (bench_of (words_in words.now) (inputs_in inputs.now)) out.old out.new result }
{
    perform(words.service_of(), inputs, out)
}
