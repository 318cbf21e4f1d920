//! What the words of a command line ask for, by the forms that `clap` reads.
ghost use Rattle.std.specs.Prelude.{◌≡◌, IfOk, MatchResult, None, Some, codes, false, map, option_map, true};
ghost use Rattle.clap.specs.Words.{app_of, first_of, found_of, has_subcommand, kind_of, rows_of, rule_of};
ghost use Rattle.clap.specs.Simple.{subcommand_rows_of};
ghost use Rattle.clap.specs.declared.builder.command.Command.TheViews.{out-Command as fields_of};
ghost use Rattle.am_options.specs.CommandLine.{Asks, Spells, Tells, address_in, address_of, app_named, asked_by, asked_of, check, command_line, flag, given_in, has_flag, has_start, instances_in, instances_of, key_in, limits_in, log_form_of, log_in, number_in, number_within, operand, option, option_or, running_in, serve, served_limits, serving_in, settings_in, store_in, world_asked};

use crate::bad_option::{BadOption, MOST_CACHED, MOST_PORT, MOST_START};
use am_limit::Limits;
use am_log::Form;
use am_scenario::number;
use am_setup::Setup;
use am_text::Text;
use clap::error::ErrorKind;
use clap::{Arg, ArgAction, ArgMatches, Command, Error};
use hex::FromHex;
use std::alloc::{AllocError, Global};
use std::convert::AsStr;
use std::net::Ipv4Addr;

/// What `--version` prints.
const VERSION: &str = "0.1.0";

const CACHE_HELP: &str = "How many patterns each instance keeps built, 1 to 65536";

const KEY_HELP: &str = "The service key, 64 hexadecimal digits; zeros without it";

const RING_HELP: &str = "The instances of the ring, 3 to 8 different numbers of 1 to 8";

const START_HELP: &str = "The first incarnation, 1 to 4294967295, greater than any before";

const STORE_HELP: &str = "The folder of the stores 1.db to 8.db; in memory without it";

const ADDRESS_HELP: &str = "The IPv4 address to listen on";

const PORT_HELP: &str = "The port to listen on, 1 to 65535";

const ADMIN_HELP: &str = "The port on 127.0.0.1 that shows and changes the ring, 1 to 65535";

const LIMITS_HELP: &str = "The file of tenants' limits, read again as it serves";

const LOG_HELP: &str = "How lines are written on standard error, plain or json";

const BY_TENANT_HELP: &str = "Shows what is counted by tenant too";

const FILE_HELP: &str = "The configuration: its text, or the document to be posted";

const COUNT_HELP: &str = "Ends once so many connections were answered";

/// The greatest number of an instance.
const MOST_INSTANCE: u64 = 8;

/// The first incarnation where none is given.
const START: u64 = 1;

/// How many bytes the alerts of a tenant that is served take together at most, until another limit is set for it.
const ALERT_BYTES: u64 = 67_108_864;

/// How the program plays a scenario.
#[derive(Drop)]
pub struct Running {
    pub setup: Setup,
    /// The folder of the instances' stores; they are in memory where none is given.
    pub store: Option<Text>,
}

/// How the program serves connections.
#[derive(Drop)]
pub struct Serving {
    /// Its first incarnation is 1 where none is given.
    pub setup: Setup,
    /// Whether the first incarnation is given.
    pub has_start: bool,
    /// The folder of the instances' stores; they are in memory where none is given.
    pub store: Option<Text>,
    /// The address that it listens on.
    pub address: Ipv4Addr,
    /// The port that it listens on, at least 1.
    pub port: u16,
    /// The port on 127.0.0.1 for those who run it, at least 1; none where it isn't given.
    pub admin: Option<u16>,
    /// How many connections are answered, at least 1; any number where none is given.
    pub count: Option<u64>,
    /// The file of tenants' limits; none where it isn't given.
    pub limits: Option<Text>,
    /// How it writes its lines on standard error.
    pub log: Form,
    /// Whether what is counted is shown by tenant too.
    pub by_tenant: bool,
}

/// What a command line asks for.
#[derive(Drop)]
pub enum CommandLine {
    /// To play the scenario on standard input.
    Run(Running),
    /// To serve connections.
    Serve(Serving),
    /// To judge the configuration in the file at this path.
    Check(Text),
    /// To see the help or the version, which is this text.
    Help(String),
    /// Nothing that the program does; the text says what is wrong.
    Bad(String),
}

/// What the words of a command line ask for, of which the first is the program's own name.
pub fn options<S: AsStr>(alloc: Global, words: &[S]) -> Result<CommandLine, AllocError>
    ensures { IfOk result (Asks (map S.text words.entry.now)) }
{
    match form(alloc)?.try_get_matches_from(words) {
        Ok(matches) => match asked(alloc, &matches)? {
            Ok(line) => Ok(line),
            Err(bad) => Ok(CommandLine::Bad(format!(in alloc; "{bad}")?)),
        },
        Err(error) => told(alloc, &error),
    }
}

/// The form of the program's command lines.
fn form<'a>(alloc: Global) -> Result<Command<'a>, AllocError>
    ensures { IfOk result (λ form. app_of form ≡ command_line) }
{
    let run = form_of(alloc, "run", "Plays the scenario on standard input")?;
    let serve = serve_form(alloc)?;
    let check = check_form(alloc)?;
    Command::new(alloc, "amring")
        .about("A multi-tenant Alertmanager")
        .version(VERSION)
        .subcommand_required(true)
        .subcommand(run)?
        .subcommand(serve)?
        .subcommand(check)
}

/// The form of `serve`.
fn serve_form<'a>(alloc: Global) -> Result<Command<'a>, AllocError>
    ensures app { IfOk result (λ form. app_of form ≡ serve) }
    ensures local { IfOk result (λ form. (fields_of form).has_globals ≡ false) }
{
    form_of(alloc, "serve", "Serves connections over HTTP")?
        .arg(option_or(alloc, "address", "A", "127.0.0.1", ADDRESS_HELP))?
        .arg(option(alloc, "port", "P", PORT_HELP))?
        .arg(option(alloc, "admin", "P", ADMIN_HELP))?
        .arg(option(alloc, "count", "N", COUNT_HELP))?
        .arg(option(alloc, "limits", "FILE", LIMITS_HELP))?
        .arg(option_or(alloc, "log", "FORM", "plain", LOG_HELP))?
        .arg(flag(alloc, "metrics-by-tenant", BY_TENANT_HELP))
}

/// The form of `check`.
fn check_form<'a>(alloc: Global) -> Result<Command<'a>, AllocError>
    ensures app { IfOk result (λ form. app_of form ≡ check) }
    ensures local { IfOk result (λ form. (fields_of form).has_globals ≡ false) }
{
    Command::new(alloc, "check")
        .about("Says whether a configuration would be accepted")
        .arg(operand(alloc, "file", "FILE", FILE_HELP))
}

/// A word that must be there.
fn operand<'a>(alloc: Global, name: &'a str, value: &'a str, help: &'a str) -> Arg<'a>
    ensures rule { rule_of result ≡ operand name.entry.now }
    ensures local { result.global ≡ false }
{
    Arg::new(alloc, name)
        .value_name(value)
        .help(help)
        .required(true)
}

/// The form of a subcommand over a world, with the options of both of them.
fn form_of<'a>(alloc: Global, name: &'a str, about: &'a str) -> Result<Command<'a>, AllocError>
    ensures app { IfOk result (λ form. app_of form ≡ app_named name.entry.now) }
    ensures local { IfOk result (λ form. (fields_of form).has_globals ≡ false) }
{
    Command::new(alloc, name)
        .about(about)
        .arg(option_or(alloc, "cache", "N", "512", CACHE_HELP))?
        .arg(option(alloc, "key", "K", KEY_HELP))?
        .arg(option_or(alloc, "ring", "A,B,C", "1,2,3", RING_HELP))?
        .arg(option(alloc, "start", "N", START_HELP))?
        .arg(option(alloc, "store", "DIR", STORE_HELP))
}

/// An option that may be absent.
fn option<'a>(alloc: Global, name: &'a str, value: &'a str, help: &'a str) -> Arg<'a>
    ensures rule { rule_of result ≡ option name.entry.now }
    ensures local { result.global ≡ false }
{
    Arg::new(alloc, name)
        .long(name)
        .value_name(value)
        .help(help)
}

/// An option that has this value where it is absent.
fn option_or<'a>(
    alloc: Global,
    name: &'a str,
    value: &'a str,
    absent: &'a str,
    help: &'a str,
) -> Arg<'a>
    ensures rule { rule_of result ≡ option_or name.entry.now absent.entry.now }
    ensures local { result.global ≡ false }
{
    option(alloc, name, value, help).default_value(absent)
}

/// An option without a value.
fn flag<'a>(alloc: Global, name: &'a str, help: &'a str) -> Arg<'a>
    ensures rule { rule_of result ≡ flag name.entry.now }
    ensures local { result.global ≡ false }
{
    Arg::new(alloc, name)
        .long(name)
        .action(ArgAction::SetTrue)
        .help(help)
}

/// What the subcommand of a command line asks for.
fn asked(
    alloc: Global,
    matches: &ArgMatches<'_>,
) -> Result<Result<CommandLine, BadOption>, AllocError>
    requires { has_subcommand matches.now ≡ true }
    ensures { IfOk result (λ asked. MatchResult asked
        (λ line. asked_of (subcommand_rows_of matches.now) ≡ Some line)
        (λ _. asked_of (subcommand_rows_of matches.now) ≡ None)) }
{
    let (name, options) = matches.subcommand().unwrap();
    if name == "check" {
        let file = text_in(alloc, options, "file")?;
        return Ok(file.map(CommandLine::Check).ok_or(BadOption::File));
    }
    world_asked(alloc, name, options)
}

/// What a subcommand over a world asks for, by its name and its options.
fn world_asked(
    alloc: Global,
    name: &str,
    options: &ArgMatches<'_>,
) -> Result<Result<CommandLine, BadOption>, AllocError>
    ensures { IfOk result (λ asked. MatchResult asked
        (λ line. world_asked name.now (rows_of (found_of options.now)) ≡ Some line)
        (λ _. world_asked name.now (rows_of (found_of options.now)) ≡ None)) }
{
    let instances = instances_in(alloc, options)?;
    let store = text_in(alloc, options, "store")?;
    if name == "serve" {
        let limits = text_in(alloc, options, "limits")?;
        Ok(serving_in(options, instances, store, limits).map(CommandLine::Serve))
    } else {
        Ok(running_in(options, instances, store).map(CommandLine::Run))
    }
}

/// The text of an option or a word; none where it is absent.
fn text_in(alloc: Global, matches: &ArgMatches<'_>, name: &str) -> Result<Option<Text>, AllocError>
    ensures { IfOk result (λ text. text ≡ first_of name.now (rows_of (found_of matches.now))) }
{
    match matches.get_str(name) {
        Some(text) => Ok(Some(Text::read(alloc, text)?)),
        None => Ok(None),
    }
}

/// The instances that the options name for the ring; none where they name anything else.
fn instances_in(alloc: Global, matches: &ArgMatches<'_>) -> Result<Option<Vec<u8>>, AllocError>
    ensures { IfOk result (λ named. option_map (λ v. v.items) named ≡ instances_in (rows_of (found_of matches.now))) }
{
    match matches.get_str("ring") {
        Some(text) => {
            let texts: Vec<&str> = text.split(',').collect(alloc)?;
            instances_of(alloc, &texts)
        }
        None => Ok(None),
    }
}

/// The instances that these texts name by their numbers; none where one of them names none.
fn instances_of(alloc: Global, texts: &[&str]) -> Result<Option<Vec<u8>>, AllocError>
    ensures { IfOk result (λ named. option_map (λ v. v.items) named ≡ instances_of (map (λ t. t.now) texts.now)) }
{
    let mut instances = Vec::new(alloc);
    for text in texts {
        match number_within(text, 1, MOST_INSTANCE) {
            Some(instance) => instances.push(instance as u8)?,
            None => return Ok(None),
        }
    }
    Ok(Some(instances))
}

/// How the options of `run` say to play, with these instances named for the ring, over the stores of this folder.
fn running_in(
    run: &ArgMatches<'_>,
    instances: Option<Vec<u8>>,
    store: Option<Text>,
) -> Result<Running, BadOption>
    requires instances { option_map (λ v. v.items) instances ≡ instances_in (rows_of (found_of run.now)) }
    requires store { store ≡ store_in (rows_of (found_of run.now)) }
    ensures { MatchResult result
        (λ running. running_in (rows_of (found_of run.now)) ≡ Some running)
        (λ _. running_in (rows_of (found_of run.now)) ≡ None) }
{
    let setup = settings_in(run, instances)?;
    Ok(Running { setup, store })
}

/// How the options of `serve` say to serve, with these instances named for the ring, over the stores of this folder, by
/// the limits of this file.
fn serving_in(
    serve: &ArgMatches<'_>,
    instances: Option<Vec<u8>>,
    store: Option<Text>,
    limits: Option<Text>,
) -> Result<Serving, BadOption>
    requires instances { option_map (λ v. v.items) instances ≡ instances_in (rows_of (found_of serve.now)) }
    requires store { store ≡ store_in (rows_of (found_of serve.now)) }
    requires limits { limits ≡ limits_in (rows_of (found_of serve.now)) }
    ensures { MatchResult result
        (λ serving. serving_in (rows_of (found_of serve.now)) ≡ Some serving)
        (λ _. serving_in (rows_of (found_of serve.now)) ≡ None) }
{
    let setup = settings_in(serve, instances)?;
    let address = address_in(serve).ok_or(BadOption::Address)?;
    let port = number_in(serve, "port", 1, MOST_PORT).ok_or(BadOption::Port)?;
    let admin = given_in(serve, "admin", MOST_PORT).ok_or(BadOption::Admin)?;
    let count = given_in(serve, "count", u64::MAX).ok_or(BadOption::Count)?;
    let log = log_in(serve).ok_or(BadOption::Log)?;
    Ok(Serving {
        setup: setup.with_limits(served_limits()),
        has_start: has_start(serve),
        store,
        address,
        port: port as u16,
        admin: admin.map(|port| port as u16),
        count,
        limits,
        log,
        by_tenant: has_flag(serve, "metrics-by-tenant"),
    })
}

/// The limits of a tenant that is served, until others are set for it.
fn served_limits() -> Limits
    ensures { result ≡ served_limits }
{
    let mut limits = Limits::default();
    limits.alert_bytes = Some(ALERT_BYTES);
    limits
}

/// Whether the options say a first incarnation.
fn has_start(serve: &ArgMatches<'_>) -> bool
    ensures { result ≡ has_start (rows_of (found_of serve.now)) }
{
    match serve.get_str("start") {
        Some(_) => true,
        None => false,
    }
}

/// Whether an option without a value is given.
fn has_flag(matches: &ArgMatches<'_>, name: &str) -> bool
    ensures { result ≡ has_flag name.now (rows_of (found_of matches.now)) }
{
    match matches.get_str(name) {
        // `clap` writes it so where the option is given.
        Some(text) => text == "true",
        None => false,
    }
}

/// How the options say to write lines.
fn log_in(serve: &ArgMatches<'_>) -> Option<Form>
    ensures { result ≡ log_in (rows_of (found_of serve.now)) }
{
    log_form_of(serve.get_str("log")?)
}

/// The form of lines that has this name.
fn log_form_of(name: &str) -> Option<Form>
    ensures { result ≡ log_form_of name.now }
{
    match name {
        "plain" => Some(Form::Plain),
        "json" => Some(Form::Json),
        _ => None,
    }
}

/// The address that the options say to listen on.
fn address_in(serve: &ArgMatches<'_>) -> Option<Ipv4Addr>
    ensures { result ≡ address_in (rows_of (found_of serve.now)) }
{
    address_of(serve.get_str("address")?)
}

/// The IPv4 address that a text spells.
fn address_of(text: &str) -> Option<Ipv4Addr>
    ensures value { result ≡ address_of text.now }
    ensures spelled { Spells text.now result }
{
    text.parse().ok()
}

/// The settings that the options of a subcommand say, with these instances named for the ring.
fn settings_in(run: &ArgMatches<'_>, instances: Option<Vec<u8>>) -> Result<Setup, BadOption>
    requires { option_map (λ v. v.items) instances ≡ instances_in (rows_of (found_of run.now)) }
    ensures { MatchResult result
        (λ setup. settings_in (rows_of (found_of run.now)) ≡ Some setup)
        (λ _. settings_in (rows_of (found_of run.now)) ≡ None) }
{
    let cache = number_in(run, "cache", 1, MOST_CACHED).ok_or(BadOption::Cache)?;
    let key = key_in(run).ok_or(BadOption::Key)?;
    let start = given_in(run, "start", MOST_START).ok_or(BadOption::Start)?;
    let start = start.unwrap_or(START);
    let ring = instances.ok_or(BadOption::Ring)?;
    Setup::new(key, &ring, cache as u32, start as u32).ok_or(BadOption::Ring)
}

/// The number, from 1 to the most, that an option says which may be absent; none where it is absent.
fn given_in(matches: &ArgMatches<'_>, name: &str, most: u64) -> Option<Option<u64>>
    ensures { result ≡ given_in name.now most (rows_of (found_of matches.now)) }
{
    match matches.get_str(name) {
        Some(_) => number_in(matches, name, 1, most).map(Some),
        None => Some(None),
    }
}

/// The number that an option says, where it is one from the least to the most.
fn number_in(matches: &ArgMatches<'_>, name: &str, least: u64, most: u64) -> Option<u64>
    ensures { result ≡ number_in name.now least most (rows_of (found_of matches.now)) }
{
    number_within(matches.get_str(name)?, least, most)
}

/// The number that a text says, where it is one from the least to the most.
fn number_within(text: &str, least: u64, most: u64) -> Option<u64>
    ensures { result ≡ number_within least most text.now }
{
    let number = number(text)?;
    (least <= number && number <= most).then_some(number)
}

/// The service key that an option says; zeros where none does.
fn key_in(matches: &ArgMatches<'_>) -> Option<[u8; 32]>
    ensures { result ≡ key_in (rows_of (found_of matches.now)) }
{
    match matches.get_str("key") {
        Some(digits) => <[u8; 32]>::from_hex(digits).ok(),
        None => Some([0; 32]),
    }
}

/// What clap's error tells: the help, the version, or what is wrong with the words.
fn told(alloc: Global, error: &Error) -> Result<CommandLine, AllocError>
    ensures { IfOk result (Tells (kind_of error.now)) }
{
    match error.kind() {
        ErrorKind::OutOfMemory => Err(AllocError),
        ErrorKind::DisplayHelp | ErrorKind::DisplayVersion => {
            Ok(CommandLine::Help(error.to_string(alloc)?))
        }
        _ => {
            // Without clap's own mark in front.
            let text = error.to_string(alloc)?;
            let text = text.as_str();
            let text = text.strip_prefix("error: ").unwrap_or(text);
            Ok(CommandLine::Bad(String::from_str(alloc, text.trim_end())?))
        }
    }
}
