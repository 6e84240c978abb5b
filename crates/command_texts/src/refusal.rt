//! Why a line is refused: each reason, with its status and its text.
ghost use Rattle.std.specs.Prelude.{◌≡◌, IfOk, string_bytes};
ghost use Rattle.ew_model.specs.Answers.{ruling_of};
ghost use Rattle.ew_model.specs.Verdicts.Ruling.{Unknown};
ghost use Rattle.event_file.specs.Faults.{kind_of};
ghost use Rattle.command_table.specs.Refusals.{bad_digest, bad_event, bad_journal_event, clash, no_event, refusal_status, refusal_text, unknown};
ghost use Rattle.command_table.specs.Text.{field_words, verdict_words};
ghost use Rattle.command_texts.specs.Reasons.{refusal_view};

use event_file::RecordFault;
use ew_model::NoMem;
use ew_model::id::Id;
use ew_model::name::Name;
use ew_model::verdict::Verdict;
use std::alloc::Global;

// A line for each command.
const USAGE: &str =
    "usage: egw new FILE\n       egw edit FILE --agent NAME\n       egw cat FILE [--at VERSION]\n       egw heads FILE\n       egw log FILE\n       egw replay FILE\n       egw check FILE\n       egw merge FILE OTHER\n       egw ask FILE\n       egw serve FILE\n       egw net\n       egw make --seed N --count N\n       egw marks FILE\n       egw upgrade FILE\n       egw watch --agent NAME\n       egw export FILE\n       egw undo FILE --agent NAME --of ID --count N\n       egw caret FILE --at VERSION --index N\n       egw blame FILE --columns N [--at VERSION]\n";

/// Why a line is refused. Lines and frames are counted from 1; a name is told as it was given.
#[derive(Debug, Drop)]
pub enum Refusal {
    /// The words aren't taken: the usage is told.
    NotTaken,
    NoFile(String),
    /// A file that is to be made is there.
    FileThere(String),
    /// A file of so many bytes is too short to be an event file.
    ShortFile {
        name: String,
        len: u64,
    },
    /// A file doesn't begin as an event file does.
    NoEventFile(String),
    UnknownVersion {
        name: String,
        version: u8,
    },
    /// The digest stored in the file isn't the one found of its bytes.
    BadDigest {
        name: String,
        stored: [u8; 32],
        found: [u8; 32],
    },
    /// A field of the file is bad, which begins at this byte.
    BadField {
        name: String,
        offset: u64,
        kind: RecordFault,
    },
    /// The event at a position of the file isn't good after those before it.
    BadEvent {
        name: String,
        position: u32,
        verdict: Verdict,
    },
    /// At this byte of the journal a gate stands open, and no batch is behind it.
    BadBatch {
        offset: u64,
    },
    /// The event at a position of the journal isn't good after those before it.
    BadJournalEvent {
        position: u32,
        verdict: Verdict,
    },
    /// A line of the script can't be read.
    Unreadable {
        line: u32,
    },
    /// The edit of a line reaches past the end of the text, which has `len` characters.
    LineOutOfRange {
        line: u32,
        len: u32,
    },
    /// The same of an edit that stands in no line.
    OutOfRange {
        len: u32,
    },
    /// An index is above the length of a version's text.
    IndexOutOfRange {
        index: u32,
        len: u32,
    },
    /// The net of a script has no peer of the name that a line says.
    NoPeer {
        line: u32,
        name: Name,
    },
    /// The net has a peer of the name already.
    PeerThere {
        line: u32,
        name: Name,
    },
    /// No packet of this number was made.
    NoPacket {
        line: u32,
        packet: u32,
    },
    /// A peer of the net of a script holds no event with this id, which a line undoes.
    NoEvent {
        line: u32,
        id: Id,
    },
    /// No event of the file has this id of a version.
    Unknown(Id),
    /// Two different events have this id.
    Clash(Id),
    /// The input ends within the frame of this number.
    FrameCut {
        number: u32,
    },
    /// The first byte of a frame is no kind of frame.
    BadKind {
        number: u32,
        kind: u8,
    },
    /// The body of a frame has `len` bytes, which are too many.
    FrameTooLong {
        number: u32,
        len: u32,
    },
    /// The body of a frame is none of its kind.
    BadBody {
        number: u32,
    },
    /// The file has more than `most` bytes.
    FileTooLong {
        name: String,
        most: u64,
    },
    /// The file has more than `most` events.
    FileTooMany {
        name: String,
        most: u32,
    },
    /// The journal has more than `most` events.
    JournalTooMany {
        most: u32,
    },
    /// The input has more than `most` bytes.
    InputTooLong {
        most: u32,
    },
    /// There would be more than `most` events.
    TooManyEvents {
        most: u32,
    },
    /// The history has so many heads, more than one event may have parents.
    TooManyHeads {
        heads: u32,
    },
}

impl Refusal {
    /// The status that a refused line ends with: 2 to 5, or 7.
    pub fn status(&self) -> u8
        ensures { result ≡ refusal_status (refusal_view self.now) }
    {
        match self {
            Refusal::NotTaken => 2,
            Refusal::NoFile(_) | Refusal::FileThere(_) => 3,
            Refusal::ShortFile { .. }
            | Refusal::NoEventFile(_)
            | Refusal::UnknownVersion { .. }
            | Refusal::BadDigest { .. }
            | Refusal::BadField { .. }
            | Refusal::BadEvent { .. }
            | Refusal::BadBatch { .. }
            | Refusal::BadJournalEvent { .. } => 4,
            Refusal::Unreadable { .. }
            | Refusal::LineOutOfRange { .. }
            | Refusal::OutOfRange { .. }
            | Refusal::IndexOutOfRange { .. }
            | Refusal::NoPeer { .. }
            | Refusal::PeerThere { .. }
            | Refusal::NoPacket { .. }
            | Refusal::NoEvent { .. }
            | Refusal::Unknown(_)
            | Refusal::Clash(_)
            | Refusal::FrameCut { .. }
            | Refusal::BadKind { .. }
            | Refusal::FrameTooLong { .. }
            | Refusal::BadBody { .. } => 5,
            Refusal::FileTooLong { .. }
            | Refusal::FileTooMany { .. }
            | Refusal::JournalTooMany { .. }
            | Refusal::InputTooLong { .. }
            | Refusal::TooManyEvents { .. }
            | Refusal::TooManyHeads { .. } => 7,
        }
    }

    /// What is told of it: one line, or the usage.
    pub fn text(&self, alloc: Global) -> Result<Vec<u8>, NoMem>
        ensures { IfOk result (λ t. t.items ≡ refusal_text (refusal_view self.now)) }
    {
        let text = self.line(alloc)?;
        Ok(text.into_bytes())
    }

    fn line(&self, alloc: Global) -> Result<String, NoMem>
        ensures { IfOk result (λ t. string_bytes t ≡ refusal_text (refusal_view self.now)) }
    {
        match self {
            Refusal::NotTaken => String::from_str(alloc, USAGE),
            Refusal::NoFile(name) => format!(in alloc; "egw: no file {name}\n"),
            Refusal::FileThere(name) => format!(in alloc; "egw: file {name} is there\n"),
            Refusal::ShortFile { name, len } => {
                format!(in alloc; "egw: {name}: short, {len} bytes\n")
            }
            Refusal::NoEventFile(name) => format!(in alloc; "egw: {name}: not an event file\n"),
            Refusal::UnknownVersion { name, version } => {
                format!(in alloc; "egw: {name}: version {version}\n")
            }
            Refusal::BadDigest {
                name,
                stored,
                found,
            } => digest_line(alloc, name.as_str(), stored, found),
            Refusal::BadField { name, offset, kind } => {
                let words = words_of_field(*kind);
                format!(in alloc; "egw: {name}: byte {offset}: {words}\n")
            }
            Refusal::BadEvent {
                name,
                position,
                verdict,
            } => event_line(alloc, name.as_str(), *position, *verdict),
            Refusal::BadBatch { offset } => {
                format!(in alloc; "egw: journal: byte {offset}: bad batch\n")
            }
            Refusal::BadJournalEvent { position, verdict } => {
                journal_event_line(alloc, *position, *verdict)
            }
            Refusal::Unreadable { line } => format!(in alloc; "egw: line {line}: unreadable\n"),
            Refusal::LineOutOfRange { line, len } => {
                format!(in alloc; "egw: line {line}: out of range, length {len}\n")
            }
            Refusal::OutOfRange { len } => format!(in alloc; "egw: out of range, length {len}\n"),
            Refusal::IndexOutOfRange { index, len } => {
                format!(in alloc; "egw: index {index}: out of range, length {len}\n")
            }
            Refusal::NoPeer { line, name } => format!(in alloc;
                "egw: line {line}: no peer {name}\n"
            ),
            Refusal::PeerThere { line, name } => {
                format!(in alloc; "egw: line {line}: peer {name} is there\n")
            }
            Refusal::NoPacket { line, packet } => {
                format!(in alloc; "egw: line {line}: no packet {packet}\n")
            }
            Refusal::NoEvent { line, id } => no_event_line(alloc, *line, id),
            Refusal::Unknown(id) => unknown_line(alloc, id),
            Refusal::Clash(id) => clash_line(alloc, id),
            Refusal::FrameCut { number } => format!(in alloc; "egw: frame {number}: cut\n"),
            Refusal::BadKind { number, kind } => {
                format!(in alloc; "egw: frame {number}: bad kind {kind}\n")
            }
            Refusal::FrameTooLong { number, len } => {
                format!(in alloc; "egw: frame {number}: too long, {len}\n")
            }
            Refusal::BadBody { number } => format!(in alloc; "egw: frame {number}: bad body\n"),
            Refusal::FileTooLong { name, most } => {
                format!(in alloc; "egw: {name}: more than {most} bytes\n")
            }
            Refusal::FileTooMany { name, most } => {
                format!(in alloc; "egw: {name}: more than {most} events\n")
            }
            Refusal::JournalTooMany { most } => {
                format!(in alloc; "egw: journal: more than {most} events\n")
            }
            Refusal::InputTooLong { most } => {
                format!(in alloc; "egw: input: more than {most} bytes\n")
            }
            Refusal::TooManyEvents { most } => format!(in alloc; "egw: more than {most} events\n"),
            Refusal::TooManyHeads { heads } => {
                format!(in alloc; "egw: {heads} heads, more than 16\n")
            }
        }
    }
}

fn digest_line(alloc: Global, name: &str, stored: &[u8], found: &[u8]) -> Result<String, NoMem>
    ensures { IfOk result (λ t. string_bytes t ≡ refusal_text (bad_digest name.now stored.now found.now)) }
{
    let stored = hex::encode(alloc, stored)?;
    let found = hex::encode(alloc, found)?;
    format!(in alloc; "egw: {name}: digest {stored}, found {found}\n")
}

fn event_line(alloc: Global, name: &str, position: u32, verdict: Verdict) -> Result<String, NoMem>
    ensures { IfOk result (λ t. string_bytes t ≡ refusal_text (bad_event name.now position (ruling_of verdict))) }
{
    let words = words_of_verdict(alloc, verdict)?;
    format!(in alloc; "egw: {name}: event {position}: {words}\n")
}

fn journal_event_line(alloc: Global, position: u32, verdict: Verdict) -> Result<String, NoMem>
    ensures { IfOk result (λ t. string_bytes t ≡ refusal_text (bad_journal_event position (ruling_of verdict))) }
{
    let words = words_of_verdict(alloc, verdict)?;
    format!(in alloc; "egw: journal: event {position}: {words}\n")
}

fn unknown_line(alloc: Global, id: &Id) -> Result<String, NoMem>
    ensures { IfOk result (λ t. string_bytes t ≡ refusal_text (unknown id.now)) }
{
    let Id { agent, seq } = id;
    format!(in alloc; "egw: unknown {agent}:{seq}\n")
}

fn no_event_line(alloc: Global, line: u32, id: &Id) -> Result<String, NoMem>
    ensures { IfOk result (λ t. string_bytes t ≡ refusal_text (no_event line id.now)) }
{
    let Id { agent, seq } = id;
    format!(in alloc; "egw: line {line}: unknown {agent}:{seq}\n")
}

fn clash_line(alloc: Global, id: &Id) -> Result<String, NoMem>
    ensures { IfOk result (λ t. string_bytes t ≡ refusal_text (clash id.now)) }
{
    let Id { agent, seq } = id;
    format!(in alloc; "egw: clash {agent}:{seq}\n")
}

/// What is wrong with a field, in words.
fn words_of_field(kind: RecordFault) -> &'static str
    ensures { result.now ≡ field_words (kind_of kind) }
{
    match kind {
        RecordFault::Cut => "cut",
        RecordFault::NameBad => "bad name",
        RecordFault::NameTwice => "name twice",
        RecordFault::AgentNumber => "agent number",
        RecordFault::IdTwice => "id twice",
        RecordFault::ParentCount => "parent count",
        RecordFault::ParentPosition => "parent position",
        RecordFault::ParentOrder => "parent order",
        RecordFault::KindBad => "kind",
        RecordFault::RunJoin => "run join",
        RecordFault::RunLength => "run length",
        RecordFault::Scalar => "scalar",
        RecordFault::Trailing => "trailing bytes",
        RecordFault::UnusedAgent => "unused agent",
    }
}

/// That an event isn't held, in words.
fn unknown_words(alloc: Global, id: &Id) -> Result<String, NoMem>
    ensures { IfOk result (λ t. string_bytes t ≡ verdict_words (Unknown id.now)) }
{
    let Id { agent, seq } = id;
    format!(in alloc; "unknown {agent}:{seq}")
}

/// Why an event isn't good, in words.
fn words_of_verdict(alloc: Global, verdict: Verdict) -> Result<String, NoMem>
    ensures { IfOk result (λ t. string_bytes t ≡ verdict_words (ruling_of verdict)) }
{
    match verdict {
        Verdict::Repeat => String::from_str(alloc, "repeat"),
        Verdict::Clash => String::from_str(alloc, "clash"),
        Verdict::SelfParent => String::from_str(alloc, "own parent"),
        Verdict::TooManyParents => String::from_str(alloc, "too many parents"),
        Verdict::ParentsUnsorted => String::from_str(alloc, "parents unsorted"),
        Verdict::Unknown(parent) => unknown_words(alloc, &parent),
        Verdict::NotReduced => String::from_str(alloc, "not reduced"),
        Verdict::Skipped => String::from_str(alloc, "skipped"),
        Verdict::OutOfRange { len } => format!(in alloc; "out of range, length {len}"),
        Verdict::Good => String::from_str(alloc, "good"),
    }
}
