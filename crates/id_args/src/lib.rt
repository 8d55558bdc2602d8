//! The words of the command line: which of them ask for what. Its texts are `clap`'s.
//!
//! Keeps: nothing beyond its values.
//! Errors: `Unasked`: help, a refused command line, or want of memory.
//! Read first: `Request`, `specs/Requests.antt`, then `read_words`; docs/PROMISES.md, "The program".
//! Not here: what is done with a request (`id_engine`).
#![tactic(auto)]

/// The elements of a machine where the words say nothing.
const DEFAULT_ELEMENTS: &str = "1";

/// The most elements that the words may ask for.
const MAX_ELEMENTS: i64 = 64;

/// The most logs that the words may name.
const MAX_LOGS: usize = 64;

/// The steps that an element may make where the words say nothing.
const DEFAULT_STEPS: &str = "1000000";

/// The most steps that the words may ask for.
const MAX_STEPS: i64 = 100_000_000;

/// The version of the program.
const VERSION: &str = "1.0.0";

/// The last round whose facts the words may ask for.
const LAST_ROUND: i64 = 10_000;

/// The round in which the words ask what lacks a value, where they say nothing.
const DEFAULT_ROUNDS: &str = "300";

ghost use Rattle.std.specs.Prelude.{◌≡◌, ◌++◌, ◌∷◌, ◌↔◌, [], List, IfErr, IfOk, IsTrue, OnOk, codes, false, filter};
ghost use Rattle.std.specs.Prelude.{map};
ghost use Rattle.std.specs.IoError.{error_kind};
ghost use Rattle.std.specs.List.{All};
ghost use Rattle.clap.specs.Simple.{Shape};
ghost use Rattle.clap.specs.Words.{app_of, found_of, kind_of, rows_of, rule_of, subcommand_rows_of};
ghost use Rattle.id_args.specs.Commands.{AreCommands, IsCommand, bare_shape, check_shape, command_shape};
ghost use Rattle.id_args.specs.Commands.{elements_rule, facts_shape, file_rule, flag_rule, graph_shape};
ghost use Rattle.id_args.specs.Commands.{inputs_rule, judge_rules, judge_shape, number_rule, order_rule};
ghost use Rattle.id_args.specs.Commands.{program_app, rounds_option_rule, rounds_rule, run_rules, run_shape};
ghost use Rattle.id_args.specs.Commands.{steps_rule, why_shape, words_rule};
ghost use Rattle.id_args.specs.Matches.{Gives, IsAsked, IsAskedIn, IsNumberOf, IsOrderOf, IsRefusal, Tells};
ghost use Rattle.id_args.specs.Requests.{AreLogs, AskFor, HasFile, IsRequestOf, IsUnread, IsUnreadWords};
ghost use Rattle.id_args.specs.Requests.{judge_words, names_log, words_read};
ghost use Rattle.id_args.specs.Requests.{end_in_help, gives_input, input_words, is_help, is_set};

mod request;
mod texts;

use clap::builder::ValueParser;
use clap::error::ErrorKind;
use clap::{Arg, ArgAction, ArgMatches, Command, Error, value_parser};
pub use request::{Request, Unasked};
use std::alloc::{AllocError, Global};
use std::convert::AsStr;
use std::env::Env;
use std::{env, io};
use texts::{BAD_LOGS, FACTS_HELP, JUDGE_HELP, JUDGED, OVERVIEW, STATUSES, UNREAD, WHY_HELP};

/// The argument that names the file.
fn file_argument<'a>(alloc: Global) -> Arg<'a>
    ensures rule { rule_of result ≡ file_rule }
    ensures local { result.global ≡ false }
{
    Arg::new(alloc, "FILE")
        .required(true)
        .help("The text of the program")
}

/// The argument for input words.
fn inputs_argument<'a>(alloc: Global) -> Arg<'a>
    ensures rule { rule_of result ≡ inputs_rule }
    ensures local { result.global ≡ false }
{
    Arg::new(alloc, "INPUT")
        .value_name("NAME=VALUE")
        .num_args(0..)
        .help("A value for the parameter of main with that name")
}

/// An option with a number.
fn number_option<'a>(
    alloc: Global,
    name: &'a str,
    parser: ValueParser<'a>,
    default: &'a str,
    help: &'a str,
) -> Arg<'a>
    ensures rule { rule_of result ≡ number_rule name.entry.now parser.entry default.entry.now }
    ensures local { result.global ≡ false }
{
    Arg::new(alloc, name)
        .long(name)
        .value_name("N")
        .value_parser(parser)
        .default_value(default)
        .help(help)
}

/// The option for the number of elements.
fn elements_option<'a>(alloc: Global) -> Arg<'a>
    ensures rule { rule_of result ≡ elements_rule }
    ensures local { result.global ≡ false }
{
    let parser = value_parser!(u32).range(1..=MAX_ELEMENTS).into();
    let help = "How many elements the machine has";
    number_option(alloc, "elements", parser, DEFAULT_ELEMENTS, help)
}

/// The option for the limit of steps.
fn steps_option<'a>(alloc: Global) -> Arg<'a>
    ensures rule { rule_of result ≡ steps_rule }
    ensures local { result.global ≡ false }
{
    let parser = value_parser!(u64).range(1..=MAX_STEPS).into();
    let help = "The most messages that each element handles";
    number_option(alloc, "steps", parser, DEFAULT_STEPS, help)
}

/// The option for the seed of the order.
fn order_option<'a>(alloc: Global) -> Arg<'a>
    ensures rule { rule_of result ≡ order_rule }
    ensures local { result.global ≡ false }
{
    Arg::new(alloc, "order")
        .long("order")
        .value_name("SEED")
        .value_parser(value_parser!(u64))
        .help("Delivers messages in the random order that this number gives, by one thread")
}

/// An option without a value.
fn flag<'a>(alloc: Global, name: &'a str, help: &'a str) -> Arg<'a>
    ensures rule { rule_of result ≡ flag_rule name.entry.now }
    ensures local { result.global ≡ false }
{
    Arg::new(alloc, name)
        .long(name)
        .action(ArgAction::SetTrue)
        .help(help)
}

/// The argument for the round.
fn rounds_argument<'a>(alloc: Global) -> Arg<'a>
    ensures rule { rule_of result ≡ rounds_rule }
    ensures local { result.global ≡ false }
{
    Arg::new(alloc, "ROUNDS")
        .required(true)
        .value_parser(value_parser!(u32).range(0..=LAST_ROUND))
        .help("How often the rules are used")
}

/// The option for the round.
fn rounds_option<'a>(alloc: Global) -> Arg<'a>
    ensures rule { rule_of result ≡ rounds_option_rule }
    ensures local { result.global ≡ false }
{
    let parser = value_parser!(u32).range(0..=LAST_ROUND).into();
    let help = "How often the rules are used";
    number_option(alloc, "rounds", parser, DEFAULT_ROUNDS, help)
}

/// The argument for the words of `judge` behind its file.
fn words_argument<'a>(alloc: Global) -> Arg<'a>
    ensures rule { rule_of result ≡ words_rule }
    ensures local { result.global ≡ false }
{
    Arg::new(alloc, "WORD")
        .value_name("LOG|NAME=VALUE")
        .required(true)
        .num_args(1..)
        .help(JUDGED)
}

/// A command with these arguments.
fn command_with<'a>(
    alloc: Global,
    name: &'a str,
    about: &'a str,
    arguments: Vec<Arg<'a>>,
) -> Result<Command<'a>, AllocError>
    requires { All (λ a. a.global ≡ false) arguments.items }
    ensures { IfOk result (IsCommand (command_shape name.entry.now (map rule_of arguments.entry.items))) }
{
    Command::new(alloc, name).about(about).args(arguments)
}

/// The command `check`.
fn check_command<'a>(alloc: Global) -> Result<Command<'a>, AllocError>
    ensures { IfOk result (IsCommand check_shape) }
{
    let about = "Says whether a program is accepted";
    let arguments = vec![in alloc; file_argument(alloc)]?;
    command_with(alloc, "check", about, arguments)
}

/// The command `graph`.
fn graph_command<'a>(alloc: Global) -> Result<Command<'a>, AllocError>
    ensures { IfOk result (IsCommand graph_shape) }
{
    let about = "Prints the tagged-token graph of a program";
    let dot = flag(alloc, "dot", "Prints it in the language of Graphviz");
    let arguments = vec![in alloc; file_argument(alloc), dot]?;
    command_with(alloc, "graph", about, arguments)
}

/// The arguments of `run`.
fn run_arguments<'a>(alloc: Global) -> Result<Vec<Arg<'a>>, AllocError>
    ensures rules { IfOk result (λ v. map rule_of v.items ≡ run_rules) }
    ensures local { IfOk result (λ v. All (λ a. a.global ≡ false) v.items) }
{
    let arguments = vec![in alloc;
        file_argument(alloc),
        inputs_argument(alloc),
        elements_option(alloc),
        steps_option(alloc),
        order_option(alloc),
        flag(alloc, "names", "Prints the value of each name"),
        flag(alloc, "trace", "Prints each event before the answer"),
    ]?;
    Ok(arguments)
}

/// The command `run`.
fn run_command<'a>(alloc: Global) -> Result<Command<'a>, AllocError>
    ensures { IfOk result (IsCommand run_shape) }
{
    let about = "Runs a program and prints its answer or its fault";
    let command = command_with(alloc, "run", about, run_arguments(alloc)?)?;
    Ok(command.after_help(STATUSES))
}

/// The command `facts`.
fn facts_command<'a>(alloc: Global) -> Result<Command<'a>, AllocError>
    ensures { IfOk result (IsCommand facts_shape) }
{
    let about = "Prints the facts that the rules of the language give a program";
    let arguments = vec![in alloc;
        file_argument(alloc),
        rounds_argument(alloc),
        inputs_argument(alloc),
    ]?;
    let command = command_with(alloc, "facts", about, arguments)?;
    Ok(command.after_help(FACTS_HELP))
}

/// The command `why`.
fn why_command<'a>(alloc: Global) -> Result<Command<'a>, AllocError>
    ensures { IfOk result (IsCommand why_shape) }
{
    let about = "Says what lacks a value in a program, and what it waits for";
    let arguments = vec![in alloc;
        file_argument(alloc),
        inputs_argument(alloc),
        rounds_option(alloc),
    ]?;
    let command = command_with(alloc, "why", about, arguments)?;
    Ok(command.after_help(WHY_HELP))
}

/// The arguments of `judge`.
fn judge_arguments<'a>(alloc: Global) -> Result<Vec<Arg<'a>>, AllocError>
    ensures rules { IfOk result (λ v. map rule_of v.items ≡ judge_rules) }
    ensures local { IfOk result (λ v. All (λ a. a.global ≡ false) v.items) }
{
    let arguments = vec![in alloc;
        file_argument(alloc),
        words_argument(alloc),
        elements_option(alloc),
        flag(alloc, "names", "Prints the value of each name"),
    ]?;
    Ok(arguments)
}

/// The command `judge`.
fn judge_command<'a>(alloc: Global) -> Result<Command<'a>, AllocError>
    ensures { IfOk result (IsCommand judge_shape) }
{
    let about =
        "Says whether the events of logs are those of a run of a program, and prints what that run shows";
    let command = command_with(alloc, "judge", about, judge_arguments(alloc)?)?;
    Ok(command.after_help(JUDGE_HELP))
}

/// Puts a command behind these, unless it could not be made.
fn put<'a>(
    commands: &mut Vec<Command<'a>>,
    command: Result<Command<'a>, AllocError>,
) -> Result<(), AllocError>
    ensures { (s : Shape) (ss : List Shape) → IfOk command.entry (IsCommand s) → AreCommands ss commands.old.items
        → OnOk result (AreCommands (ss ++ s ∷ []) commands.new.items) }
{
    commands.push(command?)?;
    Ok(())
}

/// Puts the commands behind these, in the order of help.
fn put_all<'a>(alloc: Global, commands: &mut Vec<Command<'a>>) -> Result<(), AllocError>
    ensures { commands.old.items ≡ [] → OnOk result (AreCommands program_app.subs commands.new.items) }
{
    put(commands, check_command(alloc))?;
    put(commands, graph_command(alloc))?;
    put(commands, run_command(alloc))?;
    put(commands, facts_command(alloc))?;
    put(commands, why_command(alloc))?;
    put(commands, judge_command(alloc))
}

/// The command line without its commands.
fn bare_command<'a>(alloc: Global) -> Result<Command<'a>, AllocError>
    ensures { IfOk result (λ c. app_of c ≡ record { top = bare_shape; subs = [] }) }
{
    Command::new(alloc, "idc")
        .about("Compiles a lenient dataflow program to a tagged-token graph and runs it")
        .after_help(OVERVIEW)
        .version(VERSION)
        .no_binary_name(true)
        .subcommand_required(true)
        .bin_name("idc")
}

/// The whole command line.
fn command<'a>(alloc: Global) -> Result<Command<'a>, AllocError>
    ensures { IfOk result (λ c. app_of c ≡ program_app) }
{
    let mut commands = Vec::new(alloc);
    put_all(alloc, &mut commands)?;
    bare_command(alloc)?.subcommands(commands)
}

/// Whether a word is an option that takes a number.
fn takes_number(word: &str) -> bool {
    word == "--elements" || word == "--steps" || word == "--order" || word == "--rounds"
}

/// The first option that takes a number and has a word with a sign behind it, with that word. Behind `--` there is
/// none.
fn signed_value<S: AsStr>(words: &[S]) -> Option<(&str, &str)> {
    let mut option = "";
    for word in words {
        let value = word.as_str();
        if value == "--" {
            return None;
        }
        if takes_number(option) && value.starts_with('-') && value.len() > 1 {
            return Some((option, value));
        }
        option = value;
    }
    None
}

/// The text of the parser's error.
fn text_of(alloc: Global, error: &Error) -> Result<String, AllocError> {
    Ok(format!(in alloc; "{error}")?)
}

/// What the parser's error tells the user.
fn answer_to(alloc: Global, error: &Error) -> Unasked
    ensures { Tells (kind_of error.now) result }
{
    if error.kind() == ErrorKind::OutOfMemory {
        return Unasked::Memory;
    }
    match text_of(alloc, error) {
        Err(_) => Unasked::Memory,
        Ok(text) if error.use_stderr() => Unasked::Refused(text),
        Ok(text) => Unasked::Help(text),
    }
}

/// The refusal that the parser's error tells.
fn refusal_by(alloc: Global, error: &Error) -> Unasked
    ensures { IsRefusal result }
{
    if error.kind() == ErrorKind::OutOfMemory {
        return Unasked::Memory;
    }
    match text_of(alloc, error) {
        Err(_) => Unasked::Memory,
        Ok(text) => Unasked::Refused(text),
    }
}

/// What the parser says of words that it refuses.
fn refusal_of(alloc: Global, words: &[&str]) -> Result<Unasked, AllocError>
    ensures { IfOk result IsRefusal }
{
    match command(alloc)?.try_get_matches_from(words) {
        Ok(_) => Ok(Unasked::Refused(String::new(alloc))),
        Err(error) => Ok(refusal_by(alloc, &error)),
    }
}

/// What the parser says of a command line with this value of the option.
fn refused_value(alloc: Global, option: &str, value: &str) -> Result<Unasked, AllocError>
    ensures { IfOk result IsRefusal }
{
    let word = format!(in alloc; "{option}={value}")?;
    refusal_of(alloc, &["run", "FILE", word.as_str()])
}

/// What the parser says of the value with a sign among words of which it knows one for no option of its own.
fn answer_to_sign<S: AsStr>(alloc: Global, words: &[S], error: &Error) -> Unasked
    requires { kind_of error.now ≡ ErrorKind.UnknownArgument }
    ensures { Tells (kind_of error.now) result }
{
    let Some((option, value)) = signed_value(words) else {
        return answer_to(alloc, error);
    };
    match refused_value(alloc, option, value) {
        Ok(unasked) => unasked,
        Err(_) => Unasked::Memory,
    }
}

/// What the parser's error tells the user of these words. A value with a sign it takes for an option, so where it knows
/// none of that name it is asked again, with the option and its value in one word.
fn answer_for<S: AsStr>(alloc: Global, words: &[S], error: &Error) -> Unasked
    ensures { Tells (kind_of error.now) result }
{
    if error.kind() == ErrorKind::UnknownArgument {
        answer_to_sign(alloc, words, error)
    } else {
        answer_to(alloc, error)
    }
}

/// Whether a flag was given.
fn has_flag(matches: &ArgMatches<'_>, id: &str) -> bool
    ensures { result ≡ is_set id.now (rows_of (found_of matches.now)) }
{
    matches.get_one::<bool>(id).unwrap_or(false)
}

/// The number of 32 bits that an argument has.
fn number_of(matches: &ArgMatches<'_>, id: &str) -> Option<u32>
    ensures { IsNumberOf 32 id.now (rows_of (found_of matches.now)) result }
{
    matches.get_one::<u32>(id)
}

/// The steps that are asked for.
fn steps_of(matches: &ArgMatches<'_>) -> Option<u64>
    ensures { IsNumberOf 64 (codes "steps") (rows_of (found_of matches.now)) result }
{
    matches.get_one::<u64>("steps")
}

/// The seed of the order, where one is asked for.
fn order_of(matches: &ArgMatches<'_>) -> Option<Option<u64>>
    ensures { IsOrderOf (rows_of (found_of matches.now)) result }
{
    match matches.try_get_one::<u64>("order") {
        Ok(order) => Some(order),
        Err(_) => None,
    }
}

/// The input words among these.
fn inputs_of<'a>(alloc: Global, matches: &ArgMatches<'a>) -> Result<Vec<&'a str>, AllocError>
    ensures { IfOk result (λ v. map (λ w. w.now) v.items ≡ input_words (rows_of (found_of matches.now))) }
{
    match matches.get_strs("INPUT") {
        Some(words) => Vec::from_slice(alloc, words),
        None => Ok(Vec::new(alloc)),
    }
}

/// What the words of `graph` ask for of this file.
fn graph_request<'a>(file: &'a str, matches: &ArgMatches<'a>) -> Request<'a>
    requires { HasFile (rows_of (found_of matches.now)) file.now }
    ensures { IsRequestOf (codes "graph") (rows_of (found_of matches.now)) result }
{
    if has_flag(matches, "dot") {
        Request::Draw { file }
    } else {
        Request::Graph { file }
    }
}

/// What the words of `run` ask for of this file, if they say how much.
fn run_request<'a>(
    alloc: Global,
    file: &'a str,
    matches: &ArgMatches<'a>,
) -> Result<Option<Request<'a>>, AllocError>
    requires { HasFile (rows_of (found_of matches.now)) file.now }
    ensures { IfOk result (IsAsked (codes "run") (rows_of (found_of matches.now))) }
{
    let Some(count) = number_of(matches, "elements") else {
        return Ok(None);
    };
    let Some(steps) = steps_of(matches) else {
        return Ok(None);
    };
    let Some(order) = order_of(matches) else {
        return Ok(None);
    };
    let inputs = inputs_of(alloc, matches)?;
    Ok(Some(Request::Run {
        file,
        inputs,
        count,
        trace: has_flag(matches, "trace"),
        steps,
        order,
        names: has_flag(matches, "names"),
    }))
}

/// What the words of `facts` ask for of this file, if they name a round.
fn facts_request<'a>(
    alloc: Global,
    file: &'a str,
    matches: &ArgMatches<'a>,
) -> Result<Option<Request<'a>>, AllocError>
    requires { HasFile (rows_of (found_of matches.now)) file.now }
    ensures { IfOk result (IsAsked (codes "facts") (rows_of (found_of matches.now))) }
{
    let Some(rounds) = number_of(matches, "ROUNDS") else {
        return Ok(None);
    };
    let inputs = inputs_of(alloc, matches)?;
    Ok(Some(Request::Facts {
        file,
        rounds,
        inputs,
    }))
}

/// What the words of `why` ask for of this file, if they name a round.
fn why_request<'a>(
    alloc: Global,
    file: &'a str,
    matches: &ArgMatches<'a>,
) -> Result<Option<Request<'a>>, AllocError>
    requires { HasFile (rows_of (found_of matches.now)) file.now }
    ensures { IfOk result (IsAsked (codes "why") (rows_of (found_of matches.now))) }
{
    let Some(rounds) = number_of(matches, "rounds") else {
        return Ok(None);
    };
    let inputs = inputs_of(alloc, matches)?;
    Ok(Some(Request::Why {
        file,
        rounds,
        inputs,
    }))
}

/// Whether a word gives an input.
fn gives_input(word: &str) -> bool
    ensures { result ≡ gives_input word.now }
{
    word.as_bytes().contains(&b'=')
}

/// The words among these that give inputs.
fn inputs_among<'a>(alloc: Global, words: &[&'a str]) -> Result<Vec<&'a str>, AllocError>
    ensures { IfOk result (λ v. v.items ≡ filter (λ w. gives_input w.now) words.now) }
{
    words
        .iter()
        .copied()
        .filter(|word| gives_input(word))
        .collect(alloc)
}

/// The words among these that name logs.
fn logs_among<'a>(alloc: Global, words: &[&'a str]) -> Result<Vec<&'a str>, AllocError>
    ensures { IfOk result (λ v. v.items ≡ filter (λ w. names_log w.now) words.now) }
{
    words
        .iter()
        .copied()
        .filter(|word| !gives_input(word))
        .collect(alloc)
}

/// Whether a judge takes these logs.
fn are_logs(logs: &[&str]) -> bool
    ensures { IsTrue result ↔ AreLogs (map (λ w. w.now) logs.now) }
{
    let streams = logs.iter().filter(|log| **log == "-").count();
    !logs.is_empty() && logs.len() <= MAX_LOGS && streams <= 1
}

/// What these words of `judge` ask for of this file, if they name logs that a judge takes, and it is said on how many
/// elements.
fn judge_request_of<'a>(
    alloc: Global,
    file: &'a str,
    words: &[&'a str],
    matches: &ArgMatches<'a>,
) -> Result<Option<Request<'a>>, AllocError>
    requires file { HasFile (rows_of (found_of matches.now)) file.now }
    requires words { map (λ w. w.now) words.now ≡ judge_words (rows_of (found_of matches.now)) }
    ensures { IfOk result (IsAsked (codes "judge") (rows_of (found_of matches.now))) }
{
    let Some(elements) = number_of(matches, "elements") else {
        return Ok(None);
    };
    let logs = logs_among(alloc, words)?;
    if !are_logs(logs.as_slice()) {
        return Ok(None);
    }
    let inputs = inputs_among(alloc, words)?;
    Ok(Some(Request::Judge {
        file,
        logs,
        inputs,
        count: elements,
        names: has_flag(matches, "names"),
    }))
}

/// What the words of `judge` ask for of this file, if they name logs that a judge takes, and say on how many elements.
fn judge_request<'a>(
    alloc: Global,
    file: &'a str,
    matches: &ArgMatches<'a>,
) -> Result<Option<Request<'a>>, AllocError>
    requires { HasFile (rows_of (found_of matches.now)) file.now }
    ensures { IfOk result (IsAsked (codes "judge") (rows_of (found_of matches.now))) }
{
    match matches.get_strs("WORD") {
        Some(words) => judge_request_of(alloc, file, words, matches),
        None => Ok(None),
    }
}

/// What the words of a command ask for of this file, if there is such a command, and they say what else it needs.
fn request_of_file<'a>(
    alloc: Global,
    name: &str,
    file: &'a str,
    matches: &ArgMatches<'a>,
) -> Result<Option<Request<'a>>, AllocError>
    requires { HasFile (rows_of (found_of matches.now)) file.now }
    ensures { IfOk result (IsAsked name.now (rows_of (found_of matches.now))) }
{
    match name {
        "check" => Ok(Some(Request::Check { file })),
        "graph" => Ok(Some(graph_request(file, matches))),
        "run" => run_request(alloc, file, matches),
        "facts" => facts_request(alloc, file, matches),
        "why" => why_request(alloc, file, matches),
        "judge" => judge_request(alloc, file, matches),
        _ => Ok(None),
    }
}

/// What the words of a command ask for, if they name a file and what else the command needs.
fn request_of<'a>(
    alloc: Global,
    name: &str,
    matches: &ArgMatches<'a>,
) -> Result<Option<Request<'a>>, AllocError>
    ensures { IfOk result (IsAsked name.now (rows_of (found_of matches.now))) }
{
    match matches.get_str("FILE") {
        Some(file) => request_of_file(alloc, name, file, matches),
        None => Ok(None),
    }
}

/// What the words with these matches ask for, if they ask for something.
fn request_in<'a>(
    alloc: Global,
    matches: &ArgMatches<'a>,
) -> Result<Option<Request<'a>>, AllocError>
    ensures { IfOk result (IsAskedIn (subcommand_rows_of matches.now)) }
{
    match matches.subcommand() {
        Some((name, matches)) => request_of(alloc, name, matches),
        None => Ok(None),
    }
}

/// The refusal of words that `clap` takes and that ask for nothing.
fn bad_logs(alloc: Global) -> Unasked
    ensures { IsRefusal result }
{
    match String::from_str(alloc, BAD_LOGS) {
        Ok(text) => Unasked::Refused(text),
        Err(_) => Unasked::Memory,
    }
}

/// What the words with these matches ask for.
fn request_by<'a>(alloc: Global, matches: &ArgMatches<'a>) -> Result<Request<'a>, Unasked>
    ensures { Gives (subcommand_rows_of matches.now) result }
{
    match request_in(alloc, matches) {
        Ok(Some(request)) => Ok(request),
        Ok(None) => Err(bad_logs(alloc)),
        Err(_) => Err(Unasked::Memory),
    }
}

/// Whether a word asks for help.
fn is_help(word: &str) -> bool
    ensures { result ≡ is_help word.now }
{
    word == "--help" || word == "-h"
}

/// Whether the last word asks for help.
fn end_in_help<S: AsStr>(words: &[S]) -> bool
    ensures { result ≡ end_in_help (map S.text words.now) }
{
    match words.last() {
        Some(word) => is_help(word.as_str()),
        None => false,
    }
}

/// The words without a first `help` where the last one asks for help as well, which says the same once more.
fn without_help<'a, S: AsStr>(words: &'a [S]) -> &'a [S]
    ensures { map S.text result.now ≡ words_read (map S.text words.entry.now) }
{
    match words.split_first() {
        Some((first, rest)) if first.as_str() == "help" && end_in_help(rest) => rest,
        _ => words,
    }
}

/// What these words ask for, the program's own name left out.
pub fn read_words<'a, S: AsStr>(alloc: Global, words: &'a [S]) -> Result<Request<'a>, Unasked>
    ensures { AskFor (words_read (map S.text words.entry.now)) result }
{
    match command(alloc)?.try_get_matches_from(without_help(words)) {
        Ok(matches) => request_by(alloc, &matches),
        Err(error) => Err(answer_for(alloc, words, &error)),
    }
}

/// Why the process has no words that can be read: one is no text, or a growth was refused.
fn unread(alloc: Global, error: &io::Error) -> Unasked
    ensures { IsUnread (error_kind error.now) result }
{
    match error.kind() {
        io::ErrorKind::OutOfMemory => Unasked::Memory,
        _ => match String::from_str(alloc, UNREAD) {
            Ok(text) => Unasked::Refused(text),
            Err(_) => Unasked::Memory,
        },
    }
}

/// The words of the process after the program's name.
pub fn arguments<R: Env + AllocGlobal>(rt: &R) -> Result<Vec<String>, Unasked>
    ensures { IfErr result IsUnreadWords }
{
    let all = match env::args(rt) {
        Ok(all) => all,
        Err(error) => return Err(unread(rt.alloc(), &error)),
    };
    let mut words = Vec::new(rt.alloc());
    for (i, word) in all.enumerate() {
        if i > 0 && words.push(word).is_err() {
            return Err(Unasked::Memory);
        }
    }
    Ok(words)
}
