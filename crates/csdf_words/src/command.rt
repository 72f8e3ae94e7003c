//! The command line.

ghost use Rattle.std.specs.Prelude.{◌≡◌, ◌≤◌, [], true, false, codes, map, string_bytes, Some, None, Ok, IfErr, IfOk, IfSome, is_some, option_and_then, option_map};
ghost use Rattle.std.specs.Result.{result_ok};
ghost use Rattle.clap.specs.Words.{app_of, fault_of, first_of, found_of, kind_of, rows_of, rule_of, subcommand_of, subcommand_rows_of, takes, with_rule, FailsBy};
ghost use Rattle.clap.specs.declared.builder.command.Command.TheViews.{out-Command as fields_of};
ghost use Rattle.clap.specs.declared.builder.value_parser.ValueParser.TheVariants.{Names, Unsigned};
ghost use Rattle.csdf_words.specs.CommandLine.{no_commands, program, IsProgram};
ghost use Rattle.csdf_words.specs.Rows.{app_of_row, rule_of_row, with_command_row, with_command_rows, with_rows};
ghost use Rattle.csdf_analysis.specs.Room.{HasSomePeriod};
ghost use Rattle.csdf_journal.specs.View.{is_kept};
ghost use Rattle.csdf_words.specs.CommandLine.{Ask, Run, Flow, AskForNothing, asked_view, asked_by, asked_of, asked_with, asked, words_ask, IsUnread};
ghost use Rattle.csdf_words.specs.CommandLine.{form_in, form_of, how_long_of, is_given, number_in, number_of, order_of, order_view, room_in, room_of, word_of, word_or};
ghost use Rattle.csdf_words.specs.CommandLine.{folders_of, folders_view, format_in, format_of, run_asked, stream_asked, stream_view, stream_with, usual_room};
ghost use Rattle.csdf_words.specs.CommandLine.{workers_in, workers_of};
ghost use Rattle.csdf_words.specs.HowLong.{MayBeAsked};
ghost use Rattle.csdf_words.specs.Workers.{AreFew};

use crate::help;
use crate::order::{Folders, Inquiry, RunWords, StreamWords};
use crate::rows::{
    ArgumentRow, COMMANDS, CommandRow, FIRINGS, FOLDER, FORMAT, GRAPH, Given, JOURNAL, JSON, OUT,
    PERIODS, PROGRESS, ROOM, SEGMENT, UNTIL_DRY, WORKERS,
};
use crate::workers::Workers;
use clap::builder::ValueParser;
use clap::error::ErrorKind;
use clap::{Arg, ArgAction, ArgMatches, Command, Error};
use csdf_analysis::{Length, Room};
use csdf_answers::{Form, Question};
use csdf_journal::Keeping;
use csdf_model::{MAX_FIRINGS, MAX_PERIODS, MAX_ROOM};
use csdf_run::RunOptions;
use csdf_stream::{StreamOptions, TokenFormat};
use std::alloc::{AllocError, Global};

/// What the program is asked to do.
#[derive(Clone, Copy)]
pub enum Request<'a> {
    /// To play the script of standard input.
    Input,
    /// To play the script of this file.
    Moves(&'a str),
    /// To answer a question about the graph of this file.
    Ask(Inquiry<'a>),
    /// To explain why the graph of this file is refused, and what is wrong with the token files of
    /// this folder.
    Explain(&'a str, Option<&'a str>),
    /// To run the graph of a file.
    Run(RunWords<'a>),
    /// To run the graph of a file over a stream of any length.
    Stream(StreamWords<'a>),
}

/// Why words are no request.
#[derive(Drop)]
pub enum Unread<'a> {
    /// The parser refuses them, or they ask for help or the version.
    Parse(Error),
    /// The room that they ask for is none.
    Room(&'a str),
    /// The workers that they ask for are none.
    Workers(&'a str),
    /// They say twice how long a run goes on.
    Lengths,
    /// They name a folder for the sinks' files of a stream that has none for those of its sources.
    OutAlone,
}

/// An option that takes a number in a range.
fn with_range<'a>(option: Arg<'a>, letter: &'a str, range: (u32, u32)) -> Arg<'a>
    ensures rule { rule_of result ≡ record (rule_of option.entry) { value_names = 1; parser = Some (Unsigned range.0 range.1) } }
    ensures local { result.global ≡ option.entry.global }
{
    option
        .value_parser(ValueParser::unsigned(u64::from(range.0), u64::from(range.1)))
        .value_name(letter)
}

/// An option that takes one of these names.
fn with_names<'a>(option: Arg<'a>, word: &'a str, names: &'a [&'a str]) -> Arg<'a>
    ensures rule { rule_of result ≡ record (rule_of option.entry) { value_names = 1; parser = Some (Names names.entry) } }
    ensures local { result.global ≡ option.entry.global }
{
    option
        .value_parser(ValueParser::Names(names))
        .value_name(word)
}

/// The argument of a row.
fn argument_of<'a>(alloc: Global, row: &ArgumentRow<'a>) -> Arg<'a>
    ensures rule { rule_of result ≡ rule_of_row row.now }
    ensures local { result.global ≡ false }
{
    let argument = Arg::new(alloc, row.name).help(row.help);
    match row.given {
        Given::Place => argument.required(true),
        Given::LastPlace => argument,
        Given::Nothing => argument.long(row.name).action(ArgAction::SetTrue),
        Given::Text(word) => argument.long(row.name).value_name(word),
        Given::Number(letter, range) => with_range(argument.long(row.name), letter, range),
        Given::Name(word, names) => with_names(argument.long(row.name), word, names),
    }
}

/// A command with one more argument.
fn with_argument<'a>(
    alloc: Global,
    command: Command<'a>,
    row: &ArgumentRow<'a>,
) -> Result<Command<'a>, AllocError>
    ensures app { IfOk result (λ r. app_of r ≡ with_rule (app_of command.entry) (rule_of_row row.now)) }
    ensures globals { IfOk result (λ r. (fields_of r).has_globals ≡ (fields_of command.entry).has_globals) }
{
    command.arg(argument_of(alloc, row))
}

/// A command with more arguments.
fn with_arguments<'a>(
    alloc: Global,
    command: Command<'a>,
    rows: &[ArgumentRow<'a>],
) -> Result<Command<'a>, AllocError>
    ensures app { IfOk result (λ r. app_of r ≡ with_rows (app_of command.entry) rows.now) }
    ensures globals { IfOk result (λ r. (fields_of r).has_globals ≡ (fields_of command.entry).has_globals) }
{
    let mut command = command;
    for row in rows {
        command = with_argument(alloc, command, row)?;
    }
    Ok(command)
}

/// The command of a row.
fn command_of<'a>(alloc: Global, row: &CommandRow<'a>) -> Result<Command<'a>, AllocError>
    ensures app { IfOk result (λ command. app_of command ≡ app_of_row row.now) }
    ensures local { IfOk result (λ command. (fields_of command).has_globals ≡ false) }
{
    let command = Command::new(alloc, row.name)
        .about(row.about)
        .after_help(help::ending_text(row.ending));
    with_arguments(alloc, command, row.arguments)
}

/// The program, and no command yet.
fn no_commands<'a>(alloc: Global) -> Result<Command<'a>, AllocError>
    ensures { IfOk result (λ program. app_of program ≡ no_commands) }
{
    Command::new(alloc, "csdf")
        .version("0.1.0")
        .about("Runs and analyses cyclo-static dataflow graphs")
        .after_help(help::PROGRAM)
        .no_binary_name(true)
        .bin_name("csdf")
}

/// The program with one more command.
fn with_command<'a>(
    alloc: Global,
    program: Command<'a>,
    row: &CommandRow<'a>,
) -> Result<Command<'a>, AllocError>
    ensures { IfOk result (λ r. app_of r ≡ with_command_row (app_of program.entry) row.now) }
{
    program.subcommand(command_of(alloc, row)?)
}

/// The program with the commands of rows.
fn program_of<'a>(alloc: Global, rows: &[CommandRow<'a>]) -> Result<Command<'a>, AllocError>
    ensures { IfOk result (λ program. app_of program ≡ with_command_rows no_commands rows.now) }
{
    let mut program = no_commands(alloc)?;
    for row in rows {
        program = with_command(alloc, program, row)?;
    }
    Ok(program)
}

/// The program's command line.
fn program<'a>(alloc: Global) -> Result<Command<'a>, AllocError>
    ensures { IfOk result (λ command. IsProgram (app_of command)) }
{
    program_of(alloc, COMMANDS)
}

/// The words as the parser of command lines matches them.
fn matches_of<'a>(alloc: Global, words: &'a [String]) -> Result<ArgMatches<'a>, Error>
    ensures met { IfOk result (λ m. subcommand_rows_of m ≡ subcommand_of program (map string_bytes words.entry.now)) }
    ensures taken { takes program (map string_bytes words.entry.now) ≡ true → IfErr result (λ e. kind_of e ≡ ErrorKind.OutOfMemory) }
    ensures kinds { FailsBy (fault_of program (map string_bytes words.entry.now)) result }
{
    program(alloc)?.try_get_matches_from(words)
}

/// The form in which what is asked for is told, and a fault of it.
pub fn form_of(request: &Request<'_>) -> Form
    ensures { result ≡ form_of (asked_view request.now) }
{
    match request {
        Request::Ask(inquiry) => inquiry.form,
        Request::Run(order) => order.form,
        Request::Stream(order) => order.form,
        Request::Input | Request::Moves(_) | Request::Explain(_, _) => Form::Text,
    }
}

/// A question about the graph of a file, to be answered in this form with this room.
fn asking<'a>(question: Question, form: Form, room: Room, graph: &'a str) -> Request<'a>
    requires { HasSomePeriod room }
    ensures { asked_view result ≡ Ask question form room graph.entry.now }
{
    Request::Ask(Inquiry {
        question,
        form,
        graph,
        room,
    })
}

/// What a command but `run`, `stream` and `explain` asks for in this form with this room and the file
/// that it names. No other command has a file alone, and a drawing is text.
#[tactic(auto, unfolding(crate::specs::CommandLine::asked_by))]
fn asked_by<'a>(command: &str, form: Form, room: Room, graph: &'a str) -> Request<'a>
    requires { HasSomePeriod room }
    ensures { asked_view result ≡ asked_by command.now form room graph.entry.now }
{
    match command {
        "check" => asking(Question::Check, form, room, graph),
        "repetition" => asking(Question::Repetition, form, room, graph),
        "schedule" => asking(Question::Schedule, form, room, graph),
        "capacity" => asking(Question::Capacity, form, room, graph),
        "dot" => asking(Question::Dot, Form::Text, room, graph),
        "moves" => Request::Moves(graph),
        _ => Request::Input,
    }
}

/// The word in a place, and another where none was given.
fn word_or<'a>(arguments: &ArgMatches<'a>, place: &str, other: &'a str) -> &'a str
    ensures { result.now ≡ word_or place.now (rows_of (found_of arguments.now)) other.entry.now }
{
    arguments.get_str(place).unwrap_or(other)
}

/// The word in a place.
fn word_of<'a>(arguments: &ArgMatches<'a>, place: &str) -> &'a str
    ensures { result.now ≡ word_of place.now (rows_of (found_of arguments.now)) }
{
    word_or(arguments, place, "")
}

/// The word in a place, where one was given.
fn given_of<'a>(arguments: &ArgMatches<'a>, place: &str) -> Option<&'a str>
    ensures { option_map (λ word. word.now) result ≡ first_of place.now (rows_of (found_of arguments.now)) }
{
    arguments.get_str(place)
}

/// The number in a text, where it is one and in the range.
fn number_in(text: &str, least: u32, most: u32) -> Option<u32>
    ensures value { result ≡ number_in least most text.now }
    ensures least { IfSome result (λ n. least ≤ n) }
    ensures most { IfSome result (λ n. n ≤ most) }
{
    match text.parse::<u32>() {
        Ok(number) => {
            if least <= number && number <= most {
                Some(number)
            } else {
                None
            }
        }
        Err(_) => None,
    }
}

/// The number of an option, where it was given.
fn number_of(arguments: &ArgMatches<'_>, option: &str, least: u32, most: u32) -> Option<u32>
    ensures value { result ≡ number_of least most option.now (rows_of (found_of arguments.now)) }
    ensures least { IfSome result (λ n. least ≤ n) }
    ensures most { IfSome result (λ n. n ≤ most) }
{
    match arguments.get_str(option) {
        Some(text) => number_in(text, least, most),
        None => None,
    }
}

/// The room that a text names.
fn room_in(text: &str) -> Option<Room>
    ensures value { result ≡ room_in text.now }
    ensures some { IfSome result HasSomePeriod }
{
    if text == "auto" {
        return Some(Room::Auto);
    }
    match number_in(text, 1, MAX_ROOM) {
        Some(periods) => Some(Room::Periods(periods)),
        None => None,
    }
}

/// The room of a command where none is given.
fn usual_room(command: &str) -> Room
    ensures value { result ≡ usual_room command.now }
    ensures some { HasSomePeriod result }
{
    if command == "stream" {
        Room::Auto
    } else {
        Room::Least
    }
}

/// The room that is asked for, or another where none was given.
///
/// The error is a text that names no room.
fn room_of<'a>(arguments: &ArgMatches<'a>, absent: Room) -> Result<Room, &'a str>
    requires { HasSomePeriod absent }
    ensures value { result_ok result ≡ room_of absent (rows_of (found_of arguments.now)) }
    ensures text { IfErr result (λ text. (room_in text.now ≡ None) × (first_of (codes "room") (rows_of (found_of arguments.now)) ≡ Some text.now)) }
    ensures some { IfOk result HasSomePeriod }
{
    match arguments.get_str(ROOM) {
        Some(text) => match room_in(text) {
            Some(room) => Ok(room),
            None => Err(text),
        },
        None => Ok(absent),
    }
}

/// The workers that a text names.
fn workers_in(text: &str) -> Option<Workers>
    ensures value { result ≡ workers_in text.now }
    ensures few { IfSome result AreFew }
{
    if text == "auto" {
        return Some(Workers::Auto);
    }
    match number_in(text, 1, 8) {
        Some(count) => Some(Workers::Count(count)),
        None => None,
    }
}

/// The workers that are asked for, one where none are.
///
/// The error says why that is nothing: a text names no workers.
fn workers_of<'a>(arguments: &ArgMatches<'a>) -> Result<Workers, Unread<'a>>
    ensures value { result_ok result ≡ workers_of (rows_of (found_of arguments.now)) }
    ensures why { IfErr result (AskForNothing (rows_of (found_of arguments.now))) }
    ensures few { IfOk result AreFew }
{
    match arguments.get_str(WORKERS) {
        Some(text) => match workers_in(text) {
            Some(workers) => Ok(workers),
            None => Err(Unread::Workers(text)),
        },
        None => Ok(Workers::Count(1)),
    }
}

/// The form that is asked for.
fn form_in(arguments: &ArgMatches<'_>) -> Form
    ensures { result ≡ form_in (rows_of (found_of arguments.now)) }
{
    if is_given(arguments, JSON) {
        Form::Json
    } else {
        Form::Text
    }
}

/// Whether an option without a value is given.
fn is_given(arguments: &ArgMatches<'_>, option: &str) -> bool
    ensures { result ≡ is_given option.now (rows_of (found_of arguments.now)) }
{
    word_of(arguments, option) == "true"
}

/// How long a run goes on; nothing where it is said twice.
///
/// The parser refuses a number out of its range; where one is read all the same, it counts as absent.
fn how_long_of(arguments: &ArgMatches<'_>) -> Option<Length>
    ensures value { result ≡ how_long_of (rows_of (found_of arguments.now)) }
    ensures may { IfSome result MayBeAsked }
{
    let periods = number_of(arguments, PERIODS, 1, MAX_PERIODS);
    match (is_given(arguments, UNTIL_DRY), periods) {
        (true, None) => Some(Length::UntilDry),
        (true, Some(_)) => None,
        (false, None) => Some(Length::Periods(1)),
        (false, Some(periods)) => Some(Length::Periods(periods)),
    }
}

/// Whether a run keeps its moves: where there is a file for them.
fn keeping_of(journal: Option<&str>) -> Keeping
    ensures { is_kept result ≡ is_some journal.entry }
{
    if journal.is_some() {
        Keeping::Kept
    } else {
        Keeping::NotKept
    }
}

/// The run that the words after `run` ask for, so long, with this room and by these workers.
///
/// The parser refuses a number out of its range; where one is read all the same, it counts as absent.
fn order_of<'a>(
    arguments: &ArgMatches<'a>,
    room: Room,
    workers: Workers,
    how_long: Length,
) -> RunWords<'a>
    requires some_room { HasSomePeriod room }
    requires few_workers { AreFew workers }
    requires may { MayBeAsked how_long }
    ensures { order_view result ≡ order_of (rows_of (found_of arguments.now)) room workers how_long }
{
    let folder = word_of(arguments, FOLDER);
    let journal = given_of(arguments, JOURNAL);
    let options = RunOptions {
        workers: workers.most(),
        how_long,
        firings: number_of(arguments, FIRINGS, 0, MAX_FIRINGS),
        room,
        keeping: keeping_of(journal),
    };
    RunWords {
        graph: word_of(arguments, GRAPH),
        folder,
        sink_folder: word_or(arguments, OUT, folder),
        workers,
        options,
        journal,
        progress: is_given(arguments, PROGRESS),
        form: form_in(arguments),
    }
}

/// The run that the words after `run` ask for, with this room.
///
/// The error says why that is nothing: they name no workers, or two lengths.
fn run_of<'a>(arguments: &ArgMatches<'a>, room: Room) -> Result<Request<'a>, Unread<'a>>
    requires { HasSomePeriod room }
    ensures asked { option_map asked_view (result_ok result)
        ≡ option_and_then (run_asked (rows_of (found_of arguments.now)) room) (workers_of (rows_of (found_of arguments.now))) }
    ensures why { IfErr result (AskForNothing (rows_of (found_of arguments.now))) }
{
    let workers = workers_of(arguments)?;
    match how_long_of(arguments) {
        Some(how_long) => Ok(Request::Run(order_of(arguments, room, workers, how_long))),
        None => Err(Unread::Lengths),
    }
}

/// The format of a name.
fn format_in(name: &str) -> Option<TokenFormat>
    ensures { result ≡ format_in name.now }
{
    TokenFormat::named(name)
}

/// The format that is asked for, text where none was given.
///
/// The parser refuses a name of no format; where one is read all the same, it counts as absent.
fn format_of(arguments: &ArgMatches<'_>) -> TokenFormat
    ensures { result ≡ format_of (rows_of (found_of arguments.now)) }
{
    let name = word_or(arguments, FORMAT, "text");
    format_in(name).unwrap_or(TokenFormat::Text)
}

/// The folders of a stream, where DIR is given. The sinks' files go to the folder of the sources' where
/// no other is named.
///
/// The error says that another is named alone.
fn folders_of<'a>(arguments: &ArgMatches<'a>) -> Result<Option<Folders<'a>>, Unread<'a>>
    ensures folders { option_map (option_map folders_view) (result_ok result) ≡ folders_of (rows_of (found_of arguments.now)) }
    ensures why { IfErr result (AskForNothing (rows_of (found_of arguments.now))) }
{
    let other = given_of(arguments, OUT);
    match given_of(arguments, FOLDER) {
        Some(sources) => {
            let sinks = other.unwrap_or(sources);
            Ok(Some(Folders { sources, sinks }))
        }
        None if other.is_some() => Err(Unread::OutAlone),
        None => Ok(None),
    }
}

/// The stream that the words after `stream` ask for, with this room, by these workers and with these folders.
///
/// The parser refuses a number out of its range; where one is read all the same, it counts as absent.
fn stream_with<'a>(
    arguments: &ArgMatches<'a>,
    room: Room,
    workers: Workers,
    folders: Option<Folders<'a>>,
) -> StreamWords<'a>
    requires some_room { HasSomePeriod room }
    requires few_workers { AreFew workers }
    ensures { stream_view result ≡ stream_with (rows_of (found_of arguments.now)) room workers (option_map folders_view folders.entry) }
{
    let progress = is_given(arguments, PROGRESS);
    let options = StreamOptions {
        workers: workers.most(),
        segment: number_of(arguments, SEGMENT, 1, u32::MAX),
        periods: number_of(arguments, PERIODS, 1, u32::MAX),
        format: format_of(arguments),
    };
    StreamWords {
        graph: word_of(arguments, GRAPH),
        folders,
        room,
        workers,
        options,
        progress,
        form: form_in(arguments),
    }
}

/// The stream that the words after `stream` ask for, with this room.
///
/// The error says why that is nothing: they name no workers, or `--out` is given, and DIR is not.
fn stream_of<'a>(arguments: &ArgMatches<'a>, room: Room) -> Result<Request<'a>, Unread<'a>>
    requires { HasSomePeriod room }
    ensures asked { option_map asked_view (result_ok result)
        ≡ option_and_then (stream_asked (rows_of (found_of arguments.now)) room) (workers_of (rows_of (found_of arguments.now))) }
    ensures why { IfErr result (AskForNothing (rows_of (found_of arguments.now))) }
{
    let workers = workers_of(arguments)?;
    let folders = folders_of(arguments)?;
    Ok(Request::Stream(stream_with(arguments, room, workers, folders)))
}

/// What a command asks for with the words after it, with this room.
///
/// The error says why that is nothing.
#[tactic(auto, unfolding(crate::specs::CommandLine::asked_with))]
fn asked_with<'a>(
    command: &str,
    arguments: &ArgMatches<'a>,
    room: Room,
) -> Result<Request<'a>, Unread<'a>>
    requires { HasSomePeriod room }
    ensures asked { option_map asked_view (result_ok result) ≡ asked_with command.now (rows_of (found_of arguments.now)) room }
    ensures why { IfErr result (AskForNothing (rows_of (found_of arguments.now))) }
{
    match command {
        "run" => run_of(arguments, room),
        "stream" => stream_of(arguments, room),
        "explain" => Ok(Request::Explain(word_of(arguments, GRAPH), given_of(arguments, FOLDER))),
        _ => Ok(asked_by(command, form_in(arguments), room, word_of(arguments, GRAPH))),
    }
}

/// What a command asks for with the words after it.
///
/// The error says why that is nothing.
fn asked_of<'a>(command: &str, arguments: &ArgMatches<'a>) -> Result<Request<'a>, Unread<'a>>
    ensures asked { option_map asked_view (result_ok result) ≡ asked_of command.now (rows_of (found_of arguments.now)) }
    ensures why { IfErr result (AskForNothing (rows_of (found_of arguments.now))) }
{
    match room_of(arguments, usual_room(command)) {
        Ok(room) => asked_with(command, arguments, room),
        Err(text) => Err(Unread::Room(text)),
    }
}

/// What the command that was met asks for, and standard input where none was.
///
/// The error says why that is nothing.
fn asked<'a>(matches: &ArgMatches<'a>) -> Result<Request<'a>, Unread<'a>>
    ensures asked { option_map asked_view (result_ok result) ≡ asked (subcommand_rows_of matches.now) }
    ensures why { IfErr result (λ why. IfSome (subcommand_rows_of matches.now) (λ met. AskForNothing met.1 why)) }
{
    match matches.subcommand() {
        Some((command, arguments)) => asked_of(command, arguments),
        None => Ok(Request::Input),
    }
}

/// What the words of a command line ask for; the program's own name is not among them.
///
/// The error of the parser has the text to print: help or the version where they were asked for, or
/// else why the words are refused.
pub fn request_of<'a>(alloc: Global, words: &'a [String]) -> Result<Request<'a>, Unread<'a>>
    ensures none { words.entry.now ≡ [] → result ≡ Ok Request.Input }
    ensures asked { IfOk result (λ r. words_ask (map string_bytes words.entry.now) ≡ Some (asked_view r)) }
    ensures read { IfOk result (λ r. fault_of program (map string_bytes words.entry.now) ≡ []) }
    ensures unread { IfErr result (IsUnread (map string_bytes words.entry.now)) }
{
    if words.is_empty() {
        return Ok(Request::Input);
    }
    match matches_of(alloc, words) {
        Ok(matches) => asked(&matches),
        Err(error) => Err(Unread::Parse(error)),
    }
}
