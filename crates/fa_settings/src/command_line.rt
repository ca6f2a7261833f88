//! The command line, as `clap` reads it.
ghost use Rattle.std.specs.Prelude.{◌≡◌, [], ◌∷◌, Some, true, map, option_map, option_and_then, string_bytes, codes, IfOk, IfErr};
ghost use Rattle.clap.specs.Kinds.{FailsBy, HasKind};
ghost use Rattle.clap.specs.Simple.{App, app_of, new_app, new_rule, subcommand_of, subcommand_rows_of, with_rule, with_subcommand};
ghost use Rattle.clap.specs.Walk.{Rule, rows_of, rule_of, first_of, one_of};
ghost use Rattle.clap.specs.Matches.{found_of};
ghost use Rattle.clap.specs.declared.builder.action.ArgAction.TheVariants.{Set};
ghost use Rattle.fa_settings.specs.CommandLine.{command_line as line, found_instead, wanted_in, wanted_by, formats, checks, dumps};
ghost use Rattle.fa_settings.specs.CommandLine.{serves, asks, talks, verifies, plans_in, misses_plans as plans_missed, ArePlans, IsDie, IsEvery, IsWanted};
ghost use Rattle.fa_settings.specs.CommandLine.{is_given as flag_given, terms_in, with_arguments, array_arguments, serve_arguments};
ghost use Rattle.fa_settings.specs.CommandLine.{status_arguments, talk_arguments, verify_arguments};
ghost use Rattle.fa_settings.specs.CommandLine.{program as program_shape, settings_argument as settings_rule, die_argument as die_rule};
ghost use Rattle.fa_settings.specs.CommandLine.{flag as flag_rule, option_argument as option_rule, every_argument as every_rule};

use crate::help::{self, Help};
use crate::terms::Terms;
use clap::{Arg, ArgAction, ArgMatches, Command, Error};
use fa_types::Die;
use std::alloc::{AllocError, Allocator, Global};

/// What the program is asked to do.
#[derive(Clone, Copy)]
pub enum Subcommand<'a> {
    /// Makes the images of an array.
    Format {
        /// The path of the settings.
        settings: &'a str,
        /// The one die whose image is made, as a spare's.
        die: Option<Die>,
    },
    /// Tells what the images of an array hold.
    Check {
        /// The path of the settings.
        settings: &'a str,
        /// On what terms its images are taken.
        terms: Terms,
        /// One JSON document is printed.
        json: bool,
    },
    /// Lists the written pages of an array.
    Dump {
        /// The path of the settings.
        settings: &'a str,
        /// On what terms its images are taken.
        terms: Terms,
        /// One JSON document is printed.
        json: bool,
    },
    /// Serves an array to clients over NBD.
    Serve {
        /// The path of the settings.
        settings: &'a str,
        /// On what terms its images are taken.
        terms: Terms,
        /// Clients that come and go are told on standard error.
        verbose: bool,
        /// The address at which others may ask how the array is.
        status: Option<&'a str>,
        /// The file to which plans are appended.
        plans: Option<PlansFile<'a>>,
    },
    /// Asks a server how its array is.
    Status {
        /// The address at which it answers.
        address: &'a str,
        /// It is asked again and again.
        watch: bool,
    },
    /// Plans a batch.
    Plan,
    /// Serves one client, whose bytes are given as text, over a store in memory.
    Talk,
    /// The same over an array.
    TalkArray {
        /// The path of the settings.
        settings: &'a str,
        /// On what terms its images are taken.
        terms: Terms,
    },
    /// Checks a certificate.
    Verify,
    /// Checks each plan of a file.
    VerifyLog {
        /// The path of the file.
        file: &'a str,
    },
}

/// The file to which a server appends plans.
#[derive(Clone, Copy)]
pub struct PlansFile<'a> {
    /// The path of the file.
    pub path: &'a str,
    /// How many batches there are for one whose plan is appended, 1 to 1,000,000. Each plan is appended where
    /// no number was given.
    pub every: Option<u32>,
}

/// The command that the arguments ask for, those behind the program's name. An `Err` is a request for
/// help or for the version, or a mistake, and has the text for it; or memory was refused.
///
/// The arguments are read by `clap`, which takes its memory of the process.
pub fn command<'a, A: Allocator>(
    global: Global,
    arguments: &'a [String<A>],
) -> Result<Option<Subcommand<'a>>, Error>
    ensures command { IfOk result (λ found. IsWanted found (wanted_in (map string_bytes arguments.now))) }
    ensures no_other { IfOk result (λ _. found_instead (map string_bytes arguments.now) ≡ []) }
    ensures instead { IfErr result (HasKind (found_instead (map string_bytes arguments.now))) }
{
    let matches = matches_of(global, arguments)?;
    Ok(asked(&matches))
}

/// What `clap` finds in the arguments.
fn matches_of<'a, A: Allocator>(
    global: Global,
    arguments: &'a [String<A>],
) -> Result<ArgMatches<'a>, Error>
    ensures rows { IfOk result (λ matches. subcommand_rows_of matches ≡ subcommand_of line (map string_bytes arguments.now)) }
    ensures fault { FailsBy (found_instead (map string_bytes arguments.now)) result }
{
    command_line(global)?.try_get_matches_from(arguments)
}

/// The command line that the program has.
fn command_line<'a>(global: Global) -> Result<Command<'a>, AllocError>
    ensures { IfOk result (λ command. app_of command ≡ line) }
{
    let program = Ok(program(global));
    let program = with_command(program, format_line(global));
    let check = array_line(global, "check", help::CHECK, "json", help::ABOUT_JSON);
    let program = with_command(program, check);
    let dump = array_line(global, "dump", help::DUMP, "json", help::ABOUT_JSON);
    let program = with_command(program, dump);
    let program = with_command(program, serve_line(global));
    let program = with_command(program, status_line(global));
    let program = with_command(program, Ok(plain_line(global, "plan", help::PLAN)));
    let program = with_command(program, talk_line(global));
    with_command(program, verify_line(global))
}

/// The program with one command more.
fn with_command<'a>(
    program: Result<Command<'a>, AllocError>,
    command: Result<Command<'a>, AllocError>,
) -> Result<Command<'a>, AllocError>
    ensures { (before added : App) → IfOk program.entry (λ p. app_of p ≡ before) → IfOk command.entry (λ c. app_of c ≡ added)
        → added.top.is_plain ≡ true → IfOk result (λ p. app_of p ≡ with_subcommand before added.top) }
{
    let Ok(program) = program else {
        return Err(AllocError);
    };
    let Ok(command) = command else {
        return Err(AllocError);
    };
    program.subcommand(command)
}

/// The command with one argument more.
fn with_argument<'a>(
    command: Result<Command<'a>, AllocError>,
    argument: Arg<'a>,
) -> Result<Command<'a>, AllocError>
    ensures { (before : App) (rule : Rule) → IfOk command.entry (λ c. app_of c ≡ before) → rule_of argument.entry ≡ rule
        → rule.is_simple ≡ true → IfOk result (λ c. app_of c ≡ with_rule before rule) }
{
    let Ok(command) = command else {
        return Err(AllocError);
    };
    command.arg(argument)
}

/// The program with no commands.
fn program<'a>(global: Global) -> Command<'a>
    ensures { app_of result ≡ record { top = program_shape; subs = [] } }
{
    Command::new(global, "flasharr")
        .about(help::ABOUT)
        .after_help(help::STATUSES)
        .version(help::VERSION)
        .subcommand_required(true)
        .disable_help_subcommand(true)
        .no_binary_name(true)
}

/// A command with no arguments.
fn plain_line<'a>(global: Global, name: &'a str, help: Help) -> Command<'a>
    ensures { app_of result ≡ new_app name.entry.now }
{
    Command::new(global, name)
        .about(help.about)
        .override_usage(help.usage)
        .after_help(help.more)
}

/// A command with the path of the settings.
fn settings_line<'a>(global: Global, name: &'a str, help: Help) -> Result<Command<'a>, AllocError>
    ensures { IfOk result (λ c. app_of c ≡ record { top = with_arguments name.entry.now (settings_rule ∷ []); subs = [] }) }
{
    let line = Ok(plain_line(global, name, help));
    let settings = required_argument(global, "settings", "SETTINGS", help::ABOUT_SETTINGS);
    with_argument(line, settings)
}

/// The command that makes images.
fn format_line<'a>(global: Global) -> Result<Command<'a>, AllocError>
    ensures { IfOk result (λ c. app_of c
        ≡ record { top = with_arguments (codes "format") (settings_rule ∷ die_rule ∷ []); subs = [] }) }
{
    let line = settings_line(global, "format", help::FORMAT);
    with_argument(line, die_argument(global))
}

/// A command that mounts an array. It has a flag besides `--unclean` and `--recover`, of this
/// name and with this help.
fn array_line<'a>(
    global: Global,
    name: &'a str,
    help: Help,
    flag_name: &'a str,
    about: &'a str,
) -> Result<Command<'a>, AllocError>
    ensures { IfOk result (λ c. app_of c
        ≡ record { top = with_arguments name.entry.now (array_arguments flag_name.entry.now); subs = [] }) }
{
    let line = settings_line(global, name, help);
    let line = with_argument(line, flag(global, "unclean", help::ABOUT_UNCLEAN));
    let line = with_argument(line, flag(global, "recover", help::ABOUT_RECOVER));
    with_argument(line, flag(global, flag_name, about))
}

/// The command that serves an array.
fn serve_line<'a>(global: Global) -> Result<Command<'a>, AllocError>
    ensures { IfOk result (λ c. app_of c
        ≡ record { top = with_arguments (codes "serve") serve_arguments; subs = [] }) }
{
    let line = array_line(global, "serve", help::SERVE, "verbose", help::ABOUT_VERBOSE);
    let status = text_option(global, "status", "ADDRESS", help::ABOUT_STATUS);
    let line = with_argument(line, status);
    let plans = text_option(global, "plans", "FILE", help::ABOUT_PLANS);
    let line = with_argument(line, plans);
    with_argument(line, every_argument(global))
}

/// The command that asks a server.
fn status_line<'a>(global: Global) -> Result<Command<'a>, AllocError>
    ensures { IfOk result (λ c. app_of c
        ≡ record { top = with_arguments (codes "status") status_arguments; subs = [] }) }
{
    let line = Ok(plain_line(global, "status", help::STATUS));
    let address = required_argument(global, "address", "ADDRESS", help::ABOUT_ADDRESS);
    let line = with_argument(line, address);
    with_argument(line, flag(global, "watch", help::ABOUT_WATCH))
}

/// The command that serves one client.
fn talk_line<'a>(global: Global) -> Result<Command<'a>, AllocError>
    ensures { IfOk result (λ c. app_of c
        ≡ record { top = with_arguments (codes "talk") talk_arguments; subs = [] }) }
{
    let line = Ok(plain_line(global, "talk", help::TALK));
    let array = text_option(global, "array", "SETTINGS", help::ABOUT_ARRAY);
    let line = with_argument(line, array);
    let line = with_argument(line, flag(global, "unclean", help::ABOUT_UNCLEAN));
    with_argument(line, flag(global, "recover", help::ABOUT_RECOVER))
}

/// The command that checks certificates.
fn verify_line<'a>(global: Global) -> Result<Command<'a>, AllocError>
    ensures { IfOk result (λ c. app_of c
        ≡ record { top = with_arguments (codes "verify") verify_arguments; subs = [] }) }
{
    let line = Ok(plain_line(global, "verify", help::VERIFY));
    let log = text_option(global, "log", "FILE", help::ABOUT_LOG);
    with_argument(line, log)
}

/// An option with a text, shown under this name in the help.
fn text_option<'a>(global: Global, name: &'a str, value: &'a str, about: &'a str) -> Arg<'a>
    ensures { rule_of result ≡ option_rule name.entry.now }
{
    Arg::new(global, name)
        .long(name)
        .action(ArgAction::Set)
        .value_name(value)
        .help(about)
}

/// How many batches there are for one whose plan is appended.
fn every_argument<'a>(global: Global) -> Arg<'a>
    ensures { rule_of result ≡ every_rule }
{
    let parser = clap::value_parser!(u32).range(1..1_000_001);
    text_option(global, "plans-every", "N", help::ABOUT_PLANS_EVERY).value_parser(parser)
}

/// A text that has to be given, shown under this name in the help.
fn required_argument<'a>(global: Global, name: &'a str, value: &'a str, about: &'a str) -> Arg<'a>
    ensures { rule_of result
        ≡ record (new_rule name.entry.now) { action = Some Set; value_names = 1; required = true } }
{
    Arg::new(global, name)
        .action(ArgAction::Set)
        .required(true)
        .value_name(value)
        .help(about)
}

/// A flag.
fn flag<'a>(global: Global, name: &'a str, about: &'a str) -> Arg<'a>
    ensures { rule_of result ≡ flag_rule name.entry.now }
{
    Arg::new(global, name)
        .long(name)
        .action(ArgAction::SetTrue)
        .help(about)
}

/// The die whose image is made.
fn die_argument<'a>(global: Global) -> Arg<'a>
    ensures { rule_of result ≡ die_rule }
{
    let parser = clap::value_parser!(u8).range(0..64);
    text_option(global, "die", "K", help::ABOUT_DIE).value_parser(parser)
}

/// The command that was found.
fn asked<'a>(matches: &ArgMatches<'a>) -> Option<Subcommand<'a>>
    ensures { IsWanted result (option_and_then (λ found. wanted_by found.0 found.1) (subcommand_rows_of matches.now)) }
{
    match matches.subcommand() {
        Some((name, found)) => wanted(name, found),
        None => None,
    }
}

/// The command of this name, with what was found of its arguments.
fn wanted<'a>(name: &str, found: &ArgMatches<'a>) -> Option<Subcommand<'a>>
    ensures { IsWanted result (wanted_by name.now (rows_of (found_of found.now))) }
{
    match name {
        "format" => wanted_format(found),
        "check" => wanted_check(found),
        "dump" => wanted_dump(found),
        "serve" => wanted_serve(found),
        "status" => wanted_status(found),
        "plan" => Some(Subcommand::Plan),
        "talk" => wanted_talk(found),
        "verify" => Some(wanted_verify(found)),
        _ => None,
    }
}

/// What `format` is asked to do.
fn wanted_format<'a>(found: &ArgMatches<'a>) -> Option<Subcommand<'a>>
    ensures { IsWanted result (formats (rows_of (found_of found.now))) }
{
    match text_of(found, "settings") {
        Some(settings) => Some(Subcommand::Format {
            settings,
            die: die_of(found),
        }),
        None => None,
    }
}

/// What `check` is asked to do.
fn wanted_check<'a>(found: &ArgMatches<'a>) -> Option<Subcommand<'a>>
    ensures { IsWanted result (checks (rows_of (found_of found.now))) }
{
    match (text_of(found, "settings"), terms_of(found)) {
        (Some(settings), Some(terms)) => Some(Subcommand::Check {
            settings,
            terms,
            json: is_given(found, "json"),
        }),
        _ => None,
    }
}

/// What `dump` is asked to do.
fn wanted_dump<'a>(found: &ArgMatches<'a>) -> Option<Subcommand<'a>>
    ensures { IsWanted result (dumps (rows_of (found_of found.now))) }
{
    match (text_of(found, "settings"), terms_of(found)) {
        (Some(settings), Some(terms)) => Some(Subcommand::Dump {
            settings,
            terms,
            json: is_given(found, "json"),
        }),
        _ => None,
    }
}

/// What `serve` is asked to do. Nothing is where plans are counted and there is no file for them.
fn wanted_serve<'a>(found: &ArgMatches<'a>) -> Option<Subcommand<'a>>
    ensures { IsWanted result (serves (rows_of (found_of found.now))) }
{
    if misses_plans(found) {
        return None;
    }
    match (text_of(found, "settings"), terms_of(found)) {
        (Some(settings), Some(terms)) => Some(Subcommand::Serve {
            settings,
            terms,
            verbose: is_given(found, "verbose"),
            status: text_of(found, "status"),
            plans: plans_of(found),
        }),
        _ => None,
    }
}

/// What `status` is asked to do.
fn wanted_status<'a>(found: &ArgMatches<'a>) -> Option<Subcommand<'a>>
    ensures { IsWanted result (asks (rows_of (found_of found.now))) }
{
    match text_of(found, "address") {
        Some(address) => Some(Subcommand::Status {
            address,
            watch: is_given(found, "watch"),
        }),
        None => None,
    }
}

/// What `talk` is asked to do. No terms are named for an array where there is none.
fn wanted_talk<'a>(found: &ArgMatches<'a>) -> Option<Subcommand<'a>>
    ensures { IsWanted result (talks (rows_of (found_of found.now))) }
{
    match (text_of(found, "array"), terms_of(found)) {
        (Some(settings), Some(terms)) => Some(Subcommand::TalkArray { settings, terms }),
        (None, Some(Terms::Closed)) => Some(Subcommand::Talk),
        _ => None,
    }
}

/// What `verify` is asked to do.
fn wanted_verify<'a>(found: &ArgMatches<'a>) -> Subcommand<'a>
    ensures { IsWanted (Some result) (Some (verifies (rows_of (found_of found.now)))) }
{
    match text_of(found, "log") {
        Some(file) => Subcommand::VerifyLog { file },
        None => Subcommand::Verify,
    }
}

/// Whether plans are counted, and there is no file for them.
fn misses_plans(found: &ArgMatches<'_>) -> bool
    ensures { result ≡ plans_missed (rows_of (found_of found.now)) }
{
    text_of(found, "plans-every").is_some() && text_of(found, "plans").is_none()
}

/// The file for plans that was named.
fn plans_of<'a>(found: &ArgMatches<'a>) -> Option<PlansFile<'a>>
    ensures { ArePlans result (plans_in (rows_of (found_of found.now))) }
{
    match text_of(found, "plans") {
        Some(path) => Some(PlansFile {
            path,
            every: every_of(found),
        }),
        None => None,
    }
}

/// The terms that the flags name. There are none where both flags are given.
fn terms_of(found: &ArgMatches<'_>) -> Option<Terms>
    ensures { result ≡ terms_in (rows_of (found_of found.now)) }
{
    match (is_given(found, "unclean"), is_given(found, "recover")) {
        (false, false) => Some(Terms::Closed),
        (false, true) => Some(Terms::Whole),
        (true, false) => Some(Terms::Unclean),
        (true, true) => None,
    }
}

/// What was given for an argument.
fn text_of<'a>(found: &ArgMatches<'a>, name: &str) -> Option<&'a str>
    ensures { option_map (λ text. text.now) result ≡ first_of name.now (rows_of (found_of found.now)) }
{
    found.get_str(name)
}

/// Whether a flag was given.
fn is_given(found: &ArgMatches<'_>, name: &str) -> bool
    ensures { result ≡ flag_given name.now (rows_of (found_of found.now)) }
{
    match text_of(found, name) {
        Some(text) => text == "true",
        None => false,
    }
}

/// The die that was named.
fn die_of(found: &ArgMatches<'_>) -> Option<Die>
    ensures { IsDie (one_of (codes "die") (rows_of (found_of found.now))) result }
{
    match found.get_one::<u8>("die") {
        Some(number) => Some(Die(number)),
        None => None,
    }
}

/// For how many batches one plan is appended, where a number was given.
fn every_of(found: &ArgMatches<'_>) -> Option<u32>
    ensures { IsEvery (one_of (codes "plans-every") (rows_of (found_of found.now))) result }
{
    found.get_one::<u32>("plans-every")
}
