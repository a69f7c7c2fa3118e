// From the words that the bench is started with to the service that they ask for.
ghost use Rattle.std.specs.Prelude.{◌≡◌, ◌-◌, ◌<◌, [], map, get_or, drop};
ghost use Rattle.bench.specs.Words.{kind_in, kind_of, on_files, wanted_by, unless_unfit};
ghost use Rattle.bench.specs.Words.{services, words_of, words_in, service_of, named_among};
ghost use Rattle.bench.specs.Words.{named as named_in, counted as counted_of};

use report::{Mistake, number_in};
use writer::Wanted;

// The most bytes of a word.
const WORD: usize = 4_095;

// The bytes of a buffer for a word: one more than a word may have, so that a longer one is seen to
// be too long.
pub const WORD_BUFFER: usize = WORD + 1;

// How many words are looked at, the first of all; later ones are counted.
pub const WORDS: usize = 5;

// The largest number of a kind.
const KIND: u16 = 65_535;

// The words that the bench is started with: how many there are, which may be more than the array has,
// and the first of them.
#[derive(Clone, Copy)]
pub struct Words<'a> {
    pub count: usize,
    pub first: [&'a [u8]; WORDS],
}

// The services on a sheet.
#[derive(Clone, Copy)]
pub enum SheetService {
    Judge,
    Certify,
    Word,
    Build,
    Read { kind: u16 },
    Desk,
}

// Where a service's inputs come from: from nowhere, where it takes nothing; a sheet from
// standard input, or from the file that a word names; parts from such files; a sheet from standard
// input and answers from such a file.
#[derive(Clone, Copy)]
pub enum Source {
    Nothing,
    Standard,
    File,
    Parts,
    Answers,
}

// What the words ask for: to be told what is wrong with them, or a service. No `Result`: what is wrong
// is told as any service's answer is (`output`).
#[derive(Clone, Copy)]
pub enum Service {
    Wrong { mistake: Mistake },
    OnSheet { service: SheetService },
    Write { wanted: Wanted },
    AddAnswers,
    House,
    Help,
}

// The words are wrong, and this is why.
fn wrong(mistake: Mistake) -> Service
    ensures { result ≡ Service.Wrong mistake }
{
    Service::Wrong { mistake }
}

// A service on a sheet.
fn on_sheet(service: SheetService) -> Service
    ensures { result ≡ Service.OnSheet service }
{
    Service::OnSheet { service }
}

// What a word stands for, unless it is empty or too long.
#[tactic(auto, unfolding(crate::specs::Words::unless_unfit))]
fn unless_unfit(word: &[u8], service: Service) -> Service
    ensures { result ≡ unless_unfit word.now service }
{
    if word.len() == 0 {
        return wrong(Mistake::Empty);
    }
    if WORD < word.len() {
        return wrong(Mistake::Long);
    }
    service
}

// The kind that a word of decimal digits is.
fn kind_in(word: &[u8]) -> Service
    ensures { result ≡ kind_in word.now }
{
    match number_in(word, KIND) {
        Some(kind) => on_sheet(SheetService::Read { kind }),
        None => wrong(Mistake::Kind),
    }
}

// A word that is to be a kind.
#[tactic(auto, unfolding(crate::specs::Words::kind_of))]
fn kind_of(word: &[u8]) -> Service
    ensures { result ≡ kind_of word.now }
{
    unless_unfit(word, kind_in(word))
}

// Writing a sheet of these parts.
fn write(wanted: Wanted) -> Service
    ensures { result ≡ Service.Write wanted }
{
    Service::Write { wanted }
}

// What is wanted by so many names of files.
fn wanted_by(n: usize) -> Wanted
    ensures { result ≡ wanted_by n }
{
    match n {
        0..=2 => Wanted::Word,
        3 => Wanted::Sequence,
        _ => Wanted::Answers,
    }
}

// The service, with inputs in the files that these words name, or what is wrong with the first unfit
// one.
fn on_files(service: Service, files: &[&[u8]]) -> Service
    ensures { result ≡ on_files service (map (λ x. x.now) files.now) }
{
    match files {
        [] => service,
        [first, rest @ ..] => unless_unfit(first, on_files(service, rest)),
    }
}

// The service, where so many words as it may have stand behind its name: at least and at most.
#[tactic(auto, unfolding(crate::specs::Words::counted))]
fn counted(n: usize, least: usize, most: usize, service: Service) -> Service
    ensures { result ≡ counted_of n least most service }
{
    if n < least {
        return wrong(Mistake::Few);
    }
    if most < n {
        return wrong(Mistake::Many);
    }
    service
}

// A service's name, how many words may stand behind it, at least and at most, and which service it
// is.
#[derive(Clone, Copy)]
struct Row {
    name: &'static [u8],
    least: usize,
    most: usize,
    service: Service,
}

impl Row {
    // The row of these fields.
    fn new(name: &'static [u8], least: usize, most: usize, service: Service) -> Row
        ensures { result ≡ record { name = name.entry; least = least; most = most; service = service } }
    {
        Row {
            name,
            least,
            most,
            service,
        }
    }
}

// The service of the row that has the name, with so many words behind it; no such row is a mistake.
fn named(name: &[u8], n: usize, rows: &[Row]) -> Service
    ensures { result ≡ named_among rows.now name.now n }
{
    for row in rows {
        if row.name == name {
            return counted(n, row.least, row.most, row.service);
        }
    }
    wrong(Mistake::Unknown)
}

impl Words<'_> {
    // The service that the first word names, with the words behind it.
    fn named(&self) -> Service
        requires { 0 < self.now.count }
        ensures { result ≡ named_in services (get_or (map (λ x. x.now) self.now.first) 0 [])
            (words_of (self.now.count - 1) (drop 1 (map (λ x. x.now) self.now.first))) }
    {
        let n = self.count - 1;
        let files = &self.first[1..self.count.min(WORDS)];
        // The last service first, as `services` has them.
        let rows = [
            Row::new(b"-h", 0, 0, Service::Help),
            Row::new(b"--help", 0, 0, Service::Help),
            Row::new(b"help", 0, 0, Service::Help),
            Row::new(b"house", 0, 0, Service::House),
            Row::new(b"desk", 1, 1, on_files(on_sheet(SheetService::Desk), files)),
            Row::new(b"answers", 1, 1, on_files(Service::AddAnswers, files)),
            Row::new(b"write", 2, 4, on_files(write(wanted_by(n)), files)),
            Row::new(b"read", 1, 1, kind_of(self.first[1])),
            Row::new(b"build", 0, 0, on_sheet(SheetService::Build)),
            Row::new(b"word", 0, 0, on_sheet(SheetService::Word)),
            Row::new(b"certify", 0, 0, on_sheet(SheetService::Certify)),
            Row::new(b"judge", 0, 0, on_sheet(SheetService::Judge)),
        ];
        named(self.first[0], n, &rows)
    }

    // What the words ask for.
    pub fn service_of(&self) -> Service
        ensures { result ≡ service_of (words_in self.now) }
    {
        if self.count == 0 {
            return on_sheet(SheetService::Judge);
        }
        unless_unfit(self.first[0], self.named())
    }
}
