//! The lines of refusals. Each cause gets its number, name and status in `Cause::row`, and nowhere else.

ghost use Rattle.std.specs.Prelude.{◌≡◌, ◌++◌, codes, decimal, map, slice_get};
ghost use Rattle.std.specs.Option.{option_copied};
ghost use Rattle.id_sink.specs.Told.{Prints};
ghost use Rattle.id_compile.specs.Refusals.{at_text, cause_text, checker_refusal, compiler_refusal, detail_text};
ghost use Rattle.id_compile.specs.Refusals.{IsDetailInside, IsInside, IsPrintedLine, IsWord, kind_text, kinds_text};
ghost use Rattle.id_compile.specs.Refusals.{lexer_refusal, number_text, parser_refusal, plain, refusal_text, row_of};
ghost use Rattle.id_compile.specs.Refusals.{source_cause, Tells};

use crate::compiled::CompileError;
use crate::error::EngineError;
use id_check::CheckCause;
use id_sink::{PrintError, Sink, SourceFault, put, put_number, put_place};
use id_text::TextError;
use id_tree::TreeError;
use id_value::Kind;

/// Why there is no answer. A text that is given with a cause is a shortest one, or a shortest body of `main`, that
/// brings it.
#[derive(Clone, Copy)]
pub enum Cause {
    /// More than 1,048,576 bytes.
    TooLong,
    /// A character that begins no token: `$`
    BadByte,
    /// A number above 9223372036854775807: `9223372036854775808`
    NumberTooLarge,
    /// A file that can't be read, or isn't UTF-8: the byte 128.
    File,
    /// No program goes on with the token: `1`
    Unexpected,
    /// Each program that goes on with the token has nesting above 200: `def main(): int = `, and 200 signs.
    TooDeep,
    /// No procedure is called `main`: the empty text.
    NoMain,
    /// An array parameter of `main`: `def main(a: array): int = 1;`
    MainKind,
    /// A second binder of one name: `{ x = 1; x = 2; in x }`
    Duplicate,
    /// A name without binder: `x`
    Unknown,
    /// A call with another number of arguments than its procedure has parameters: `main(1)`, where `main` has none.
    WrongCount,
    /// An expression of another kind than is wanted: `true`, where `main` is an int.
    WrongKind,
    /// More than 16 parameters.
    TooManyParams,
    /// The graph would have more than 1,000,000 instructions: 5,250 bindings of 190 signs and a number.
    TooLarge,
    /// A parameter of `main` without an input: `def main(n: int): int = n;`, and no word.
    MissingInput,
    /// An input word without `=`, or for no parameter: `n`
    UnknownInput,
    /// A second input word for one parameter: `n=1 n=`
    RepeatedInput,
    /// An input word with no value of its parameter's kind: `n=`
    BadInput,
    /// No element, or more than 64: 0.
    BadElements,
    /// No step, or more than 100,000,000: 0.
    BadSteps,
    /// More rounds than 10,000: 10001.
    BadRounds,
    /// More than 1,000,000 facts: 2,700 bindings of 190 signs and a number, in round 10,000.
    TooManyFacts,
    /// A growth was refused: no text brings it.
    Memory,
    /// A write failed: no text brings it.
    Write,
}

/// What is told of a cause, and the status of the program after it.
#[derive(Clone, Copy)]
struct Row {
    number: Option<u32>,
    name: &'static [u8],
    status: u8,
}

/// A row of the table.
fn numbered(number: u32, name: &'static [u8], status: u8) -> Row
    ensures number { result.number ≡ Some number }
    ensures name { result.name.now ≡ name.entry.now }
    ensures status { result.status ≡ status }
{
    Row {
        number: Some(number),
        name,
        status,
    }
}

/// A row without a number.
fn unnumbered(name: &'static [u8]) -> Row
    ensures number { result.number ≡ None }
    ensures name { result.name.now ≡ name.entry.now }
    ensures status { result.status ≡ 5 }
{
    Row {
        number: None,
        name,
        status: 5,
    }
}

impl Cause {
    /// Its number among the refusals, where it has one, its name, and the status after it.
    fn row(self) -> Row
        ensures { (result.number ≡ (row_of self).0) × (result.name.now ≡ (row_of self).1)
            × (result.status ≡ (row_of self).2) }
    {
        match self {
            Cause::TooLong => numbered(1, b"TooLong", 2),
            Cause::BadByte => numbered(2, b"BadByte", 2),
            Cause::NumberTooLarge => numbered(3, b"NumberTooLarge", 2),
            Cause::File => numbered(4, b"File", 5),
            Cause::Unexpected => numbered(5, b"Unexpected", 2),
            Cause::TooDeep => numbered(6, b"TooDeep", 2),
            Cause::NoMain => numbered(7, b"NoMain", 2),
            Cause::MainKind => numbered(8, b"MainKind", 2),
            Cause::Duplicate => numbered(9, b"Duplicate", 2),
            Cause::Unknown => numbered(10, b"Unknown", 2),
            Cause::WrongCount => numbered(11, b"WrongCount", 2),
            Cause::WrongKind => numbered(12, b"WrongKind", 2),
            Cause::TooManyParams => numbered(13, b"TooManyParams", 2),
            Cause::TooLarge => numbered(14, b"TooLarge", 2),
            Cause::MissingInput => numbered(15, b"MissingInput", 2),
            Cause::UnknownInput => numbered(16, b"UnknownInput", 2),
            Cause::RepeatedInput => numbered(17, b"RepeatedInput", 2),
            Cause::BadInput => numbered(18, b"BadInput", 2),
            Cause::BadElements => numbered(19, b"BadElements", 4),
            Cause::BadSteps => numbered(20, b"BadSteps", 4),
            Cause::BadRounds => numbered(24, b"BadRounds", 4),
            Cause::TooManyFacts => numbered(25, b"TooManyFacts", 3),
            Cause::Memory => unnumbered(b"Memory"),
            Cause::Write => unnumbered(b"Write"),
        }
    }

    /// The status of the program after it.
    pub fn status(self) -> u8
        ensures { result ≡ (row_of self).2 }
    {
        self.row().status
    }
}

/// What a refusal tells beside its cause.
#[derive(Clone, Copy)]
pub enum Detail<'a> {
    Nothing,
    /// A place of the text.
    Place(usize),
    /// The place of an expression, the kind that is wanted of it, and the kind that it has.
    Kinds {
        at: usize,
        wanted: Kind,
        found: Kind,
    },
    /// An input word, or a parameter's name.
    Word(&'a str),
}

/// A refusal: its cause, and what it tells beside that.
#[derive(Clone, Copy)]
pub struct Refusal<'a> {
    pub cause: Cause,
    pub detail: Detail<'a>,
}

/// The refusal that tells its cause alone.
pub fn plain<'a>(cause: Cause) -> Refusal<'a>
    ensures { result ≡ plain cause }
{
    Refusal {
        cause,
        detail: Detail::Nothing,
    }
}

/// The refusal at a place.
fn placed<'a>(cause: Cause, at: usize) -> Refusal<'a>
    ensures { result ≡ record { cause = cause; detail = Detail.Place at } }
{
    Refusal {
        cause,
        detail: Detail::Place(at),
    }
}

/// The refusal of a word, if there is one.
fn worded<'a>(cause: Cause, word: Option<&'a str>) -> Refusal<'a>
    ensures cause { result.cause ≡ cause }
    ensures word { IsWord (option_copied word.entry) result.detail }
{
    match word {
        Some(word) => Refusal {
            cause,
            detail: Detail::Word(word),
        },
        None => plain(cause),
    }
}

/// The refusal of a text without tokens.
fn of_text_error<'a>(error: TextError) -> Refusal<'a>
    ensures { result ≡ lexer_refusal error }
{
    match error {
        TextError::TooLong => plain(Cause::TooLong),
        TextError::BadByte { at } => placed(Cause::BadByte, at),
        TextError::NumberTooLarge { at } => placed(Cause::NumberTooLarge, at),
        TextError::Memory => plain(Cause::Memory),
    }
}

/// The refusal of tokens without tree.
fn of_tree_error<'a>(error: TreeError) -> Refusal<'a>
    ensures { result ≡ parser_refusal error }
{
    match error {
        TreeError::Unexpected { at } => placed(Cause::Unexpected, at),
        TreeError::TooDeep { at } => placed(Cause::TooDeep, at),
        TreeError::Memory => plain(Cause::Memory),
    }
}

/// The refusal of a program.
fn of_check_cause<'a>(cause: CheckCause) -> Refusal<'a>
    ensures { result ≡ checker_refusal cause }
{
    match cause {
        CheckCause::NoMain => plain(Cause::NoMain),
        CheckCause::MainKind { at } => placed(Cause::MainKind, at),
        CheckCause::Duplicate { at, .. } => placed(Cause::Duplicate, at),
        CheckCause::Unknown { at } => placed(Cause::Unknown, at),
        CheckCause::WrongCount { at } => placed(Cause::WrongCount, at),
        CheckCause::WrongKind { at, wanted, found } => Refusal {
            cause: Cause::WrongKind,
            detail: Detail::Kinds { at, wanted, found },
        },
        CheckCause::TooManyParams { at } => placed(Cause::TooManyParams, at),
        CheckCause::Memory => plain(Cause::Memory),
    }
}

/// The refusal of a text without graph.
fn of_compile_error<'a>(error: CompileError) -> Refusal<'a>
    ensures { result ≡ compiler_refusal error }
{
    match error {
        CompileError::Text(error) => of_text_error(error),
        CompileError::Tree(error) => of_tree_error(error),
        CompileError::Check(cause) => of_check_cause(cause),
        CompileError::TooLarge => plain(Cause::TooLarge),
        CompileError::Memory => plain(Cause::Memory),
    }
}

/// The refusal of the input word of a number.
fn of_word<'a>(cause: Cause, words: &'a [&'a str], word: usize) -> Refusal<'a>
    ensures cause { result.cause ≡ cause }
    ensures word { IsWord (slice_get (map (λ w. w.now) words.now) word) result.detail }
{
    worded(cause, words.get(word).copied())
}

/// The refusal for an error of a command on these input words.
pub fn of_engine_error<'a>(words: &'a [&'a str], error: &'a EngineError) -> Refusal<'a>
    ensures { Tells (map (λ w. w.now) words.now) error.now result }
{
    match error {
        EngineError::Compile(error) => of_compile_error(*error),
        EngineError::MissingInput { param } => worded(Cause::MissingInput, Some(param.as_str())),
        EngineError::UnknownInput { word } => of_word(Cause::UnknownInput, words, *word),
        EngineError::RepeatedInput { word } => of_word(Cause::RepeatedInput, words, *word),
        EngineError::BadInput { word } => of_word(Cause::BadInput, words, *word),
        EngineError::BadElements => plain(Cause::BadElements),
        EngineError::BadSteps => plain(Cause::BadSteps),
        EngineError::BadRounds => plain(Cause::BadRounds),
        EngineError::TooManyFacts => plain(Cause::TooManyFacts),
        EngineError::Memory => plain(Cause::Memory),
        EngineError::Write => plain(Cause::Write),
    }
}

/// The cause where a source has no text.
pub fn of_source_fault(fault: SourceFault) -> Cause
    ensures { result ≡ source_cause fault }
{
    match fault {
        SourceFault::TooLong => Cause::TooLong,
        SourceFault::File => Cause::File,
        SourceFault::Memory => Cause::Memory,
    }
}

fn put_spaced_number<W: Sink>(number: u32, sink: &mut W) -> Result<(), PrintError>
    ensures { Prints (W.told sink.old) (W.told sink.new) (codes " " ++ decimal number) result }
{
    put(sink, b" ")?;
    put_number(sink, number)
}

fn put_cause_number<W: Sink>(number: Option<u32>, sink: &mut W) -> Result<(), PrintError>
    ensures { Prints (W.told sink.old) (W.told sink.new) (number_text number) result }
{
    match number {
        Some(number) => put_spaced_number(number, sink),
        None => Ok(()),
    }
}

fn put_row<W: Sink>(row: &Row, sink: &mut W) -> Result<(), PrintError>
    ensures { Prints (W.told sink.old) (W.told sink.new)
        (number_text row.now.number ++ (codes " " ++ row.now.name.now)) result }
{
    put_cause_number(row.number, sink)?;
    put(sink, b" ")?;
    put(sink, row.name)
}

fn put_cause<W: Sink>(cause: Cause, sink: &mut W) -> Result<(), PrintError>
    ensures { Prints (W.told sink.old) (W.told sink.new) (cause_text cause) result }
{
    put_row(&cause.row(), sink)
}

fn put_at<W: Sink>(at: usize, text: &str, sink: &mut W) -> Result<(), PrintError>
    requires { IsInside text.now at }
    ensures { Prints (W.told sink.old) (W.told sink.new) (at_text text.now at) result }
{
    put(sink, b" at ")?;
    put_place(sink, text, at)
}

fn put_spaced<W: Sink>(word: &str, sink: &mut W) -> Result<(), PrintError>
    ensures { Prints (W.told sink.old) (W.told sink.new) (codes " " ++ word.now) result }
{
    put(sink, b" ")?;
    put(sink, word.as_bytes())
}

/// The name of a kind.
fn kind_name(kind: Kind) -> &'static [u8]
    ensures { result.now ≡ kind_text kind }
{
    match kind {
        Kind::Int => b"int",
        Kind::Bool => b"bool",
        Kind::Array => b"array",
        Kind::Nested => b"array array",
    }
}

fn put_kind<W: Sink>(kind: Kind, sink: &mut W) -> Result<(), PrintError>
    ensures { Prints (W.told sink.old) (W.told sink.new) (kind_text kind) result }
{
    put(sink, kind_name(kind))
}

fn put_kinds<W: Sink>(wanted: Kind, found: Kind, sink: &mut W) -> Result<(), PrintError>
    ensures { Prints (W.told sink.old) (W.told sink.new) (kinds_text wanted found) result }
{
    put(sink, b" wanted ")?;
    put_kind(wanted, sink)?;
    put(sink, b" found ")?;
    put_kind(found, sink)
}

fn put_at_kinds<W: Sink>(
    at: usize,
    wanted: Kind,
    found: Kind,
    text: &str,
    sink: &mut W,
) -> Result<(), PrintError>
    requires { IsInside text.now at }
    ensures { Prints (W.told sink.old) (W.told sink.new) (at_text text.now at ++ kinds_text wanted found) result }
{
    put_at(at, text, sink)?;
    put_kinds(wanted, found, sink)
}

fn put_detail<W: Sink>(detail: &Detail<'_>, text: &str, sink: &mut W) -> Result<(), PrintError>
    requires { IsDetailInside text.now detail.now }
    ensures { Prints (W.told sink.old) (W.told sink.new) (detail_text text.now detail.now) result }
{
    match detail {
        Detail::Nothing => Ok(()),
        Detail::Place(at) => put_at(*at, text, sink),
        Detail::Kinds { at, wanted, found } => put_at_kinds(*at, *wanted, *found, text, sink),
        Detail::Word(word) => put_spaced(word, sink),
    }
}

/// Writes the line of a refusal on a text. Takes no memory.
pub fn put_refusal<W: Sink>(
    refusal: &Refusal<'_>,
    text: &str,
    sink: &mut W,
) -> Result<(), PrintError>
    requires { IsDetailInside text.now refusal.now.detail }
    ensures { Prints (W.told sink.old) (W.told sink.new) (refusal_text text.now refusal.now) result }
{
    put(sink, b"refused")?;
    put_cause(refusal.cause, sink)?;
    put_detail(&refusal.detail, text, sink)?;
    put(sink, b"\n")
}

/// Writes the line of a refusal, and answers its status. A failed write changes no status.
pub fn refuse<E: Sink>(refusal: &Refusal<'_>, text: &str, err: &mut E) -> u8
    requires { IsDetailInside text.now refusal.now.detail }
    ensures status { result ≡ (row_of refusal.now.cause).2 }
    ensures printed { IsPrintedLine text.now refusal.now (E.told err.old) (E.told err.new) }
{
    let _ = put_refusal(refusal, text, err);
    refusal.cause.status()
}
