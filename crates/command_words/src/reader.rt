ghost use Rattle.std.specs.Prelude.{◌≡◌, [], ◌∷◌, ℕ, List, true, false, IfOk, MatchResult, codes, drop, map, string_bytes};
ghost use Rattle.clap.specs.Words.{app_of, found_of, is_simple_and_free, rows_of, rule_of, with_rule};
ghost use Rattle.command_words.specs.Given.{IsGiven};
ghost use Rattle.command_words.specs.Words.{DEMO_OPTIONS, RECOVER_OPTIONS, STUBS_OPTION, TABLE_OPTIONS, all_pieces, is_refused};
ghost use Rattle.command_words.specs.Reader.{IsRead, WORDS, is_known, listed, option_rule, reader, words_rule};

use crate::words::WordsFault;
use clap::builder::ValueParser;
use clap::error::ErrorKind;
use clap::{Arg, ArgAction, ArgMatches, Command};
use std::alloc::{AllocError, Global};

// `--NAME VALUE`, with a value that is not empty.
fn option<'a>(alloc: Global, name: &'a str) -> Arg<'a>
    ensures rule { rule_of result ≡ option_rule name.now }
    ensures local { result.global ≡ false }
{
    Arg::new(alloc, name)
        .long(name)
        .action(ArgAction::Set)
        .value_parser(ValueParser::NonEmptyString)
}

// The words that are no option and no option's value.
fn positional_words<'a>(alloc: Global) -> Arg<'a>
    ensures rule { rule_of result ≡ words_rule }
    ensures local { result.global ≡ false }
{
    Arg::new(alloc, "words")
        .action(ArgAction::Append)
        .value_parser(ValueParser::NonEmptyString)
}

// `decode`, which has no option.
pub fn decode_reader<'a>(alloc: Global) -> Result<Command<'a>, AllocError>
    ensures { IfOk result (λ c. app_of c ≡ reader (codes "decode") []) }
{
    Command::new(alloc, "decode")
        .disable_help_flag(true)
        .arg(positional_words(alloc))
}

// A command on an image, which may have stubs and has no other option.
pub fn image_reader<'a>(alloc: Global, name: &'a str) -> Result<Command<'a>, AllocError>
    ensures { IfOk result (λ c. app_of c ≡ reader name.now STUBS_OPTION) }
{
    Command::new(alloc, name)
        .disable_help_flag(true)
        .arg(positional_words(alloc))?
        .arg(option(alloc, "stubs"))
}

// `recover` with its options.
pub fn recover_reader<'a>(alloc: Global) -> Result<Command<'a>, AllocError>
    ensures { IfOk result (λ c. app_of c ≡ reader (codes "recover") RECOVER_OPTIONS) }
{
    let command = image_reader(alloc, "recover")?;
    with_limits(alloc, command)?.arg(option(alloc, "text"))
}

// `table` with its options.
pub fn table_reader<'a>(alloc: Global) -> Result<Command<'a>, AllocError>
    ensures { IfOk result (λ c. app_of c ≡ reader (codes "table") TABLE_OPTIONS) }
{
    let command = image_reader(alloc, "table")?;
    with_counts(alloc, command)
}

// `demo` with its options.
pub fn demo_reader<'a>(alloc: Global) -> Result<Command<'a>, AllocError>
    ensures { IfOk result (λ c. app_of c ≡ reader (codes "demo") DEMO_OPTIONS) }
{
    let command = Command::new(alloc, "demo")
        .disable_help_flag(true)
        .arg(positional_words(alloc))?;
    with_limits(alloc, command)
}

// How many values and rows, behind the options that the command has.
fn with_counts<'a>(alloc: Global, command: Command<'a>) -> Result<Command<'a>, AllocError>
    ensures { IfOk result (λ c. app_of c ≡ with_rule (with_rule (app_of command.entry) (option_rule (codes "k"))) (option_rule (codes "budget"))) }
{
    command
        .arg(option(alloc, "k"))?
        .arg(option(alloc, "budget"))
}

// The options of an analysis, behind those that the command has.
fn with_limits<'a>(alloc: Global, command: Command<'a>) -> Result<Command<'a>, AllocError>
    ensures { IfOk result (λ c. app_of c ≡ with_rule (with_rule (with_rule (app_of command.entry) (option_rule (codes "k"))) (option_rule (codes "budget"))) (option_rule (codes "domain"))) }
{
    command
        .arg(option(alloc, "k"))?
        .arg(option(alloc, "budget"))?
        .arg(option(alloc, "domain"))
}

// The words behind the command's name, parsed.
pub fn read<'a>(command: Command<'a>, words: &'a [String]) -> Result<ArgMatches<'a>, WordsFault>
    ensures { (name : List ℕ) (options : List (List ℕ)) → app_of command.entry ≡ reader name options
        → is_simple_and_free (reader name options) ≡ true → is_known WORDS options ≡ false
        → MatchResult result (λ m. IsRead options (all_pieces (drop 1 (map string_bytes words.now))) (rows_of (found_of m)))
        (λ fault. fault ≡ WordsFault.Usage → is_refused options (all_pieces (drop 1 (map string_bytes words.now))) ≡ true) }
{
    match command.try_get_matches_from(words) {
        Ok(matches) => Ok(matches),
        Err(error) => {
            if error.kind() == ErrorKind::OutOfMemory {
                Err(WordsFault::Memory)
            } else {
                Err(WordsFault::Usage)
            }
        }
    }
}

/// What was given under an id.
#[derive(Clone, Copy)]
pub enum Given<'a> {
    Never,
    Once(&'a str),
    Often,
}

pub fn given_under<'a>(matches: &ArgMatches<'a>, id: &str) -> Given<'a>
    ensures { IsGiven result (listed id.now (rows_of (found_of matches.now))) }
{
    match matches.get_strs(id) {
        None => Given::Never,
        Some([]) => Given::Never,
        Some([value]) => Given::Once(value),
        Some([_, _, ..]) => Given::Often,
    }
}
