ghost use Rattle.std.specs.Prelude.{◌≡◌, ◌≤◌, ◌<◌, ◌+◌, [], ◌∷◌, List, ℕ, length, map, drop, option_map, string_bytes, codes, Some, None, MatchResult};
ghost use Rattle.std.specs.List.{list_all};
ghost use Rattle.clap.specs.Words.{found_of, rows_of};
ghost use Rattle.command_words.specs.Words.{command_of, list_of, file_given, recover_of, decode_of, run_of, replay_of, table_of, check_of, demo_of, address_of, number_within, is_digit, is_number, number_given, domain_given, domain_named, only_word, three_words, two_words};
ghost use Rattle.command_words.specs.Given.{IsGiven};
ghost use Rattle.command_words.specs.Reader.{WORDS, listed, options_read, version_read, recover_read, list_read, decode_read, run_read, replay_read, table_read, check_read, demo_read, three_of, two_of, asked_of, Answers};

use crate::reader::{
    Given, decode_reader, demo_reader, given_under, image_reader, read, recover_reader,
    table_reader,
};
use crate::task::{Asked, DomainName, ImageCommand, Options, Task, TextVersion};
use clap::ArgMatches;
use demo_images::MOST_BLOCKS;
use std::alloc::Global;
use text_fields::{parse_hex8_any_case, parse_number};

/// Why words are no command.
#[derive(Clone, Copy, PartialEq, Eq, Debug)]
pub enum WordsFault {
    /// The words are none.
    Usage,
    /// Memory was refused.
    Memory,
}

/// `--k` where the words do not say, and at most.
const K: u32 = 32;

const K_LIMIT: u32 = 1_024;

/// `--budget` where the words do not say, and at most.
const BUDGET: u32 = 100_000;

const BUDGET_LIMIT: u32 = 1_000_000;

/// The number of `--text` where the words do not say, and at most.
const TEXT: u32 = 2;

/// The count of `decode`, at most.
const COUNT_LIMIT: u32 = 100_000;

/// The steps of `run`, at most.
const STEPS_LIMIT: u32 = 1_000_000;

/// The command that the words behind the program's name are: the names of its files, and what it does with them.
/// `Usage` comes only where they are no command; want of memory may come at any words.
pub fn command<'a>(alloc: Global, words: &'a [String]) -> Result<Asked<'a>, WordsFault>
    ensures { Answers result (command_of (map string_bytes words.now)) }
{
    match words {
        [] => Err(WordsFault::Usage),
        [command, ..] => match command.as_str() {
            "recover" => recover_words(alloc, words),
            "list" => list_words(alloc, words),
            "decode" => decode_words(alloc, words),
            "run" => run_words(alloc, words),
            "replay" => replay_words(alloc, words),
            "table" => table_words(alloc, words),
            "check" => check_words(alloc, words),
            "demo" => demo_words(alloc, words),
            _ => Err(WordsFault::Usage),
        },
    }
}

// The command `recover IMAGE` with its options.
fn recover_words<'a>(alloc: Global, words: &'a [String]) -> Result<Asked<'a>, WordsFault>
    ensures { Answers result (recover_of (drop 1 (map string_bytes words.now))) }
{
    let Ok(command) = recover_reader(alloc) else {
        return Err(WordsFault::Memory);
    };
    match read(command, words) {
        Ok(matches) => recover_given(&matches).ok_or(WordsFault::Usage),
        Err(fault) => Err(fault),
    }
}

// What was read of the words of `recover`.
fn recover_given<'a>(matches: &ArgMatches<'a>) -> Option<Asked<'a>>
    ensures { option_map asked_of result ≡ recover_read (rows_of (found_of matches.now)) }
{
    let image = only_word(given_under(matches, "words"))?;
    let stubs = file_given(given_under(matches, "stubs"))?;
    let options = options_given(matches)?;
    let version = version_given(matches)?;
    Some(Asked::OnImage(ImageCommand {
        image,
        stubs,
        task: Task::Recover { options, version },
    }))
}

// The command `list IMAGE`.
fn list_words<'a>(alloc: Global, words: &'a [String]) -> Result<Asked<'a>, WordsFault>
    ensures { Answers result (list_of (drop 1 (map string_bytes words.now))) }
{
    let Ok(command) = image_reader(alloc, "list") else {
        return Err(WordsFault::Memory);
    };
    match read(command, words) {
        Ok(matches) => list_given(&matches).ok_or(WordsFault::Usage),
        Err(fault) => Err(fault),
    }
}

// What was read of the words of `list`.
fn list_given<'a>(matches: &ArgMatches<'a>) -> Option<Asked<'a>>
    ensures { option_map asked_of result ≡ list_read (rows_of (found_of matches.now)) }
{
    let image = only_word(given_under(matches, "words"))?;
    let stubs = file_given(given_under(matches, "stubs"))?;
    Some(Asked::OnImage(ImageCommand {
        image,
        stubs,
        task: Task::List,
    }))
}

// The command `decode IMAGE ADDRESS COUNT`.
fn decode_words<'a>(alloc: Global, words: &'a [String]) -> Result<Asked<'a>, WordsFault>
    ensures { Answers result (decode_of (drop 1 (map string_bytes words.now))) }
{
    let Ok(command) = decode_reader(alloc) else {
        return Err(WordsFault::Memory);
    };
    match read(command, words) {
        Ok(matches) => decode_given(&matches).ok_or(WordsFault::Usage),
        Err(fault) => Err(fault),
    }
}

// What was read of the words of `decode`.
fn decode_given<'a>(matches: &ArgMatches<'a>) -> Option<Asked<'a>>
    ensures { option_map asked_of result ≡ decode_read (rows_of (found_of matches.now)) }
{
    let words = three_words(matches)?;
    let address = address_of(words.second.as_bytes())?;
    let count = number_within(words.third.as_bytes(), 1, COUNT_LIMIT)?;
    Some(Asked::OnImage(ImageCommand {
        image: words.first,
        stubs: None,
        task: Task::Decode { address, count },
    }))
}

// The command `run IMAGE START STEPS`.
fn run_words<'a>(alloc: Global, words: &'a [String]) -> Result<Asked<'a>, WordsFault>
    ensures { Answers result (run_of (drop 1 (map string_bytes words.now))) }
{
    let Ok(command) = image_reader(alloc, "run") else {
        return Err(WordsFault::Memory);
    };
    match read(command, words) {
        Ok(matches) => run_given(&matches).ok_or(WordsFault::Usage),
        Err(fault) => Err(fault),
    }
}

// What was read of the words of `run`.
fn run_given<'a>(matches: &ArgMatches<'a>) -> Option<Asked<'a>>
    ensures { option_map asked_of result ≡ run_read (rows_of (found_of matches.now)) }
{
    let stubs = file_given(given_under(matches, "stubs"))?;
    let words = three_words(matches)?;
    let steps = number_within(words.third.as_bytes(), 0, STEPS_LIMIT)?;
    Some(Asked::OnImage(ImageCommand {
        image: words.first,
        stubs,
        task: Task::Run {
            start: words.second,
            steps,
        },
    }))
}

// The command `replay IMAGE AUTOMATON RECORD`.
fn replay_words<'a>(alloc: Global, words: &'a [String]) -> Result<Asked<'a>, WordsFault>
    ensures { Answers result (replay_of (drop 1 (map string_bytes words.now))) }
{
    let Ok(command) = image_reader(alloc, "replay") else {
        return Err(WordsFault::Memory);
    };
    match read(command, words) {
        Ok(matches) => replay_given(&matches).ok_or(WordsFault::Usage),
        Err(fault) => Err(fault),
    }
}

// What was read of the words of `replay`.
fn replay_given<'a>(matches: &ArgMatches<'a>) -> Option<Asked<'a>>
    ensures { option_map asked_of result ≡ replay_read (rows_of (found_of matches.now)) }
{
    let stubs = file_given(given_under(matches, "stubs"))?;
    let words = three_words(matches)?;
    Some(Asked::OnImage(ImageCommand {
        image: words.first,
        stubs,
        task: Task::Replay {
            automaton: words.second,
            record: words.third,
        },
    }))
}

// The command `table IMAGE` with its options.
fn table_words<'a>(alloc: Global, words: &'a [String]) -> Result<Asked<'a>, WordsFault>
    ensures { Answers result (table_of (drop 1 (map string_bytes words.now))) }
{
    let Ok(command) = table_reader(alloc) else {
        return Err(WordsFault::Memory);
    };
    match read(command, words) {
        Ok(matches) => table_given(&matches).ok_or(WordsFault::Usage),
        Err(fault) => Err(fault),
    }
}

// What was read of the words of `table`.
fn table_given<'a>(matches: &ArgMatches<'a>) -> Option<Asked<'a>>
    ensures { option_map asked_of result ≡ table_read (rows_of (found_of matches.now)) }
{
    let image = only_word(given_under(matches, "words"))?;
    let stubs = file_given(given_under(matches, "stubs"))?;
    let k = number_given(given_under(matches, "k"), K, K_LIMIT)?;
    let budget = number_given(given_under(matches, "budget"), BUDGET, BUDGET_LIMIT)?;
    Some(Asked::OnImage(ImageCommand {
        image,
        stubs,
        task: Task::Tabulate { k, budget },
    }))
}

// The command `check IMAGE TABLE`.
fn check_words<'a>(alloc: Global, words: &'a [String]) -> Result<Asked<'a>, WordsFault>
    ensures { Answers result (check_of (drop 1 (map string_bytes words.now))) }
{
    let Ok(command) = image_reader(alloc, "check") else {
        return Err(WordsFault::Memory);
    };
    match read(command, words) {
        Ok(matches) => check_given(&matches).ok_or(WordsFault::Usage),
        Err(fault) => Err(fault),
    }
}

// What was read of the words of `check`.
fn check_given<'a>(matches: &ArgMatches<'a>) -> Option<Asked<'a>>
    ensures { option_map asked_of result ≡ check_read (rows_of (found_of matches.now)) }
{
    let stubs = file_given(given_under(matches, "stubs"))?;
    let words = two_words(matches)?;
    Some(Asked::OnImage(ImageCommand {
        image: words.first,
        stubs,
        task: Task::Check {
            table: words.second,
        },
    }))
}

// The command `demo N` with its options.
fn demo_words<'a>(alloc: Global, words: &'a [String]) -> Result<Asked<'a>, WordsFault>
    ensures { Answers result (demo_of (drop 1 (map string_bytes words.now))) }
{
    let Ok(command) = demo_reader(alloc) else {
        return Err(WordsFault::Memory);
    };
    match read(command, words) {
        Ok(matches) => demo_given(&matches).ok_or(WordsFault::Usage),
        Err(fault) => Err(fault),
    }
}

// What was read of the words of `demo`.
fn demo_given<'a>(matches: &ArgMatches<'a>) -> Option<Asked<'a>>
    ensures { option_map asked_of result ≡ demo_read (rows_of (found_of matches.now)) }
{
    let number = only_word(given_under(matches, "words"))?;
    let blocks = number_within(number.as_bytes(), 0, MOST_BLOCKS)?;
    let options = options_given(matches)?;
    Some(Asked::Demo { blocks, options })
}

// The options of an analysis.
fn options_given(matches: &ArgMatches) -> Option<Options>
    ensures { result ≡ options_read (rows_of (found_of matches.now)) }
{
    let k = number_given(given_under(matches, "k"), K, K_LIMIT)?;
    let budget = number_given(given_under(matches, "budget"), BUDGET, BUDGET_LIMIT)?;
    let domain = domain_given(given_under(matches, "domain"))?;
    Some(Options { k, budget, domain })
}

// The version that is printed.
fn version_given(matches: &ArgMatches) -> Option<TextVersion>
    ensures { result ≡ version_read (rows_of (found_of matches.now)) }
{
    let number = number_given(given_under(matches, "text"), TEXT, TEXT)?;
    Some(if number == 1 {
        TextVersion::First
    } else {
        TextVersion::Second
    })
}

// The only positional word.
fn only_word<'a>(given: Given<'a>) -> Option<&'a str>
    ensures { (values : List (List ℕ)) → IsGiven given.entry values → option_map (λ s. s.now) result ≡ only_word values }
{
    match given {
        Given::Never => None,
        Given::Once(word) => Some(word),
        Given::Often => None,
    }
}

/// Two positional words.
#[derive(Clone, Copy)]
struct TwoWords<'a> {
    first: &'a str,
    second: &'a str,
}

// The positional words, where they are two.
fn two_words<'a>(matches: &ArgMatches<'a>) -> Option<TwoWords<'a>>
    ensures { option_map two_of result ≡ two_words (listed WORDS (rows_of (found_of matches.now))) }
{
    match matches.get_strs("words") {
        Some(words) => two_among(words),
        None => None,
    }
}

fn two_among<'a>(words: &[&'a str]) -> Option<TwoWords<'a>>
    ensures { option_map two_of result ≡ two_words (map (λ s. s.now) words.now) }
{
    if words.len() != 2 {
        return None;
    }
    Some(TwoWords {
        first: words[0],
        second: words[1],
    })
}

/// Three positional words.
#[derive(Clone, Copy)]
struct ThreeWords<'a> {
    first: &'a str,
    second: &'a str,
    third: &'a str,
}

// The positional words, where they are three.
fn three_words<'a>(matches: &ArgMatches<'a>) -> Option<ThreeWords<'a>>
    ensures { option_map three_of result ≡ three_words (listed WORDS (rows_of (found_of matches.now))) }
{
    match matches.get_strs("words") {
        Some(words) => three_among(words),
        None => None,
    }
}

fn three_among<'a>(words: &[&'a str]) -> Option<ThreeWords<'a>>
    ensures { option_map three_of result ≡ three_words (map (λ s. s.now) words.now) }
{
    if words.len() != 3 {
        return None;
    }
    Some(ThreeWords {
        first: words[0],
        second: words[1],
        third: words[2],
    })
}

// The name of a file given to an option, which may be left out.
fn file_given<'a>(given: Given<'a>) -> Option<Option<&'a str>>
    ensures { (values : List (List ℕ)) → IsGiven given.entry values → option_map (λ o. option_map (λ s. s.now) o) result ≡ file_given values }
{
    match given {
        Given::Never => Some(None),
        Given::Once(name) => Some(Some(name)),
        Given::Often => None,
    }
}

// The number given to an option, or its default.
fn number_given(given: Given<'_>, default: u32, most: u32) -> Option<u32>
    ensures { (values : List (List ℕ)) → IsGiven given.entry values → result ≡ number_given default most values }
{
    match given {
        Given::Never => Some(default),
        Given::Once(value) => number_within(value.as_bytes(), 1, most),
        Given::Often => None,
    }
}

fn domain_given(given: Given<'_>) -> Option<DomainName>
    ensures { (values : List (List ℕ)) → IsGiven given.entry values → result ≡ domain_given values }
{
    match given {
        Given::Never => Some(DomainName::Bounded),
        Given::Once(value) => domain_named(value),
        Given::Often => None,
    }
}

fn domain_named(word: &str) -> Option<DomainName>
    ensures { result ≡ domain_named word.now }
{
    match word {
        "flat" => Some(DomainName::Flat),
        "bounded" => Some(DomainName::Bounded),
        "interval" => Some(DomainName::Interval),
        _ => None,
    }
}

// The address that a word writes.
fn address_of(word: &[u8]) -> Option<u32>
    ensures { result ≡ address_of word.now }
{
    parse_hex8_any_case(word)
}

fn are_digits(word: &[u8]) -> bool
    ensures { result ≡ list_all is_digit word.now }
{
    word.iter().all(|c| b'0' <= *c && *c <= b'9')
}

fn is_number(word: &[u8]) -> bool
    ensures { result ≡ is_number word.now }
{
    if word.is_empty() || word.len() > 10 {
        return false;
    }
    are_digits(word)
}

// The number that a word writes, where it is in a range, bounds included.
fn number_within(word: &[u8], least: u32, most: u32) -> Option<u32>
    ensures { result ≡ number_within least most word.now }
{
    if !is_number(word) {
        return None;
    }
    match parse_number(word) {
        Some(n) => {
            if least <= n && n <= most {
                Some(n)
            } else {
                None
            }
        }
        None => None,
    }
}
