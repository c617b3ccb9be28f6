ghost use Rattle.std.specs.Prelude.{◌≡◌, IfOk, IfSome, false, map, option_map, string_bytes};
ghost use Rattle.clap.specs.Words.{app_of, found_of, kind_of, rows_of, rule_of};
ghost use Rattle.overlay_top.specs.Words.{AreInRange, IsFromOne, MatchesWords, ReadsWords, command_line, flag_of, is_set, option_number, option_of, words_refusal, seed_of, settings_in};

use clap::error::ErrorKind;
use clap::{Arg, ArgAction, ArgMatches, Command, Error};
use sizes::MOST_FRAMES;
use std::alloc::{AllocError, Global};

/// How many frames the machine has where no word says it.
pub const FRAMES: u32 = 1024;

/// How many turns a process takes before the next one does, where no word says it.
pub const QUANTUM: u32 = 100;

/// The most turns that a quantum may have.
pub const MOST_QUANTUM: u32 = 1_000_000;

/// What the words set.
#[derive(Clone, Copy, Debug, PartialEq, Eq)]
pub struct Settings {
    /// How many frames the machine has: 1 to 65,536.
    pub frames: u32,
    /// How many turns a process takes before the next one does: 1 to 1,000,000.
    pub quantum: u32,
    /// What the script and its file are made of, in place of those of the outside.
    pub seed: Option<u64>,
    /// Whether the machine has extension M: multiplication and division.
    pub extension: bool,
    /// Whether processes may speculate by themselves.
    pub calls: bool,
}

/// Why words give no settings.
#[derive(Clone, Copy, Debug, PartialEq, Eq)]
pub enum WordsError {
    /// They aren't the command's.
    Refused,
    /// There is no memory to read them.
    Memory,
}

impl From<AllocError> for WordsError {
    ghost use Rattle.overlay_top.specs.declared.words.WordsError.TheVariants.{Memory};

    ghost from_gives = { λ _ e. e ≡ Memory };

    fn from(_: AllocError) -> WordsError {
        WordsError::Memory
    }
}

/// The option `--NAME VALUE`.
fn option<'a>(alloc: Global, name: &'a str) -> Arg<'a>
    ensures rule { rule_of result ≡ option_of name.now }
    ensures local { result.global ≡ false }
{
    Arg::new(alloc, name).long(name).action(ArgAction::Set)
}

/// The flag `--NAME`, which has no value.
fn flag<'a>(alloc: Global, name: &'a str) -> Arg<'a>
    ensures rule { rule_of result ≡ flag_of name.now }
    ensures local { result.global ≡ false }
{
    Arg::new(alloc, name).long(name).action(ArgAction::SetTrue)
}

/// The command, as `clap` has it.
fn command<'a>(alloc: Global) -> Result<Command<'a>, AllocError>
    ensures { IfOk result (λ command. app_of command ≡ command_line) }
{
    Command::new(alloc, "overlay-run")
        .no_binary_name(true)
        .disable_help_flag(true)
        .arg(option(alloc, "frames"))?
        .arg(option(alloc, "quantum"))?
        .arg(option(alloc, "make"))?
        .arg(flag(alloc, "m"))?
        .arg(flag(alloc, "calls"))
}

/// The number of an option, from 1 on: the default where it isn't given, and none where its value is no number of the range.
fn number(value: Option<&str>, default: u32, most: u32) -> Option<u32>
    requires { IsFromOne most default }
    ensures value { result ≡ option_number default most (option_map (λ text. text.now) value.entry) }
    ensures range { IfSome result (IsFromOne most) }
{
    match value {
        None => Some(default),
        Some(text) => match text.parse::<u32>() {
            Ok(number) if 1 <= number && number <= most => Some(number),
            _ => None,
        },
    }
}

/// The seed of an option: none is set where it isn't given. Answers none where its value is no number of 64 bits.
fn seed_from(value: Option<&str>) -> Option<Option<u64>>
    ensures { result ≡ seed_of (option_map (λ text. text.now) value.entry) }
{
    match value {
        None => Some(None),
        Some(text) => match text.parse::<u64>() {
            Ok(seed) => Some(Some(seed)),
            Err(_) => None,
        },
    }
}

/// Whether a flag is given, by the value that `clap` has for it.
fn is_set(value: Option<&str>) -> bool
    ensures { result ≡ is_set (option_map (λ text. text.now) value.entry) }
{
    match value {
        None => false,
        Some(text) => text == "true",
    }
}

/// What the words say to `clap`.
fn matched<'a>(alloc: Global, words: &'a [String]) -> Result<ArgMatches<'a>, WordsError>
    ensures { MatchesWords (map string_bytes words.now) result }
{
    match command(alloc)?.try_get_matches_from(words) {
        Ok(matches) => Ok(matches),
        Err(error) => Err(refusal(&error)),
    }
}

/// Why `clap` gives nothing.
fn refusal(error: &Error) -> WordsError
    ensures { result ≡ words_refusal (kind_of error.now) }
{
    match error.kind() {
        ErrorKind::OutOfMemory => WordsError::Memory,
        _ => WordsError::Refused,
    }
}

/// What the words set, by what `clap` found in them.
fn settings_in(matches: &ArgMatches<'_>) -> Option<Settings>
    ensures value { result ≡ settings_in (rows_of (found_of matches.now)) }
    ensures range { IfSome result AreInRange }
{
    let frames = number(matches.get_str("frames"), FRAMES, MOST_FRAMES);
    let quantum = number(matches.get_str("quantum"), QUANTUM, MOST_QUANTUM);
    let seed = seed_from(matches.get_str("make"));
    let extension = is_set(matches.get_str("m"));
    let calls = is_set(matches.get_str("calls"));
    Some(Settings {
        frames: frames?,
        quantum: quantum?,
        seed: seed?,
        extension,
        calls,
    })
}

/// Reads the words of the command line, without the program's name.
pub(crate) fn read_words(alloc: Global, words: &[String]) -> Result<Settings, WordsError>
    ensures reads { ReadsWords (map string_bytes words.now) result }
    ensures range { IfOk result AreInRange }
{
    match matched(alloc, words) {
        Ok(matches) => match settings_in(&matches) {
            Some(settings) => Ok(settings),
            None => Err(WordsError::Refused),
        },
        Err(error) => Err(error),
    }
}
