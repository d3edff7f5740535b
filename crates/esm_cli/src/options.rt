// Reads the options of a command with `clap`, and the numbers, texts and mapping that they give.
ghost use Rattle.std.specs.Prelude.{◌≡◌, ◌≢◌, List, ℕ, map, drop, true, false, IfOk, IsErr, option_map};
ghost use Rattle.std.specs.String.{string_bytes};
ghost use Rattle.std.specs.List.{list_any};
ghost use Rattle.clap.specs.Words.{app_of, found_of, kind_of, one_text, rule_of};
ghost use Rattle.uuid.specs.Text.{parsed_hyphenated};
ghost use Rattle.esm_cli.specs.Spelling.{Given, AreOptions, is_stray_dash};
ghost use Rattle.esm_cli.specs.Tables.{has_value, listing, option_name, options_of};
ghost use Rattle.esm_cli.specs.Words.{IsNumber, IsText, IsWhich, values_in, flags_in};
ghost use Rattle.esm_cli.specs.Clap.{FlagReads, app, raw_rule, values_found};
ghost use Rattle.esm_cli.specs.declared.command.Which.{Which};
ghost use Rattle.esm_cli.specs.declared.table.OptionName.TheVariants.{ReadFirst, Trace};

use crate::command::{Flags, Which, WordsError};
use crate::number::whole_number;
use crate::table::{NumberRule, OptionName, Verb};
use clap::builder::ValueParser;
use clap::error::ErrorKind;
use clap::{Arg, ArgAction, ArgMatches, Command, Error};
use esm_model::text::Text;
use std::alloc::Global;
use uuid::Uuid;

/// The options that words give.
#[derive(Drop)]
pub struct Options<'a> {
    matches: ArgMatches<'a>,
    pub flags: Flags,
}

/// Reads the words after the first as options of the command.
/// `BadWords` if they are none; `OutOfMemory` if an allocation failed.
pub fn read_options<'a>(
    alloc: Global,
    verb: Verb,
    words: &'a [String],
) -> Result<Options<'a>, WordsError>
    requires { list_any (λ w. is_stray_dash (string_bytes w)) words.now ≡ false }
    ensures spelled { IfOk result (λ o. (gs : List Given)
        × AreOptions (listing (options_of verb)) gs (drop 1 (map string_bytes words.entry.now))
        × (values_in gs ≡ values_found o.matches) × (flags_in gs ≡ o.flags)) }
    ensures bad { result ≡ Err WordsError.BadWords → (gs : List Given)
        → ¬ AreOptions (listing (options_of verb)) gs (drop 1 (map string_bytes words.entry.now)) }
{
    let command = parser(alloc, verb.options())?;
    match command.try_get_matches_from(words) {
        Ok(matches) => {
            let flags = flags(&matches);
            Ok(Options { matches, flags })
        }
        Err(error) => Err(refusal(&error)),
    }
}

/// Which flags the words give.
fn flags(matches: &ArgMatches<'_>) -> Flags
    ensures read_first { FlagReads (one_text (found_of matches.now) (option_name ReadFirst)) result.read_first }
    ensures trace { FlagReads (one_text (found_of matches.now) (option_name Trace)) result.trace }
{
    Flags {
        read_first: flag(matches, OptionName::ReadFirst),
        trace: flag(matches, OptionName::Trace),
    }
}

/// Whether the flag is given.
fn flag(matches: &ArgMatches<'_>, option: OptionName) -> bool
    ensures { FlagReads (one_text (found_of matches.now) (option_name option)) result }
{
    matches.get_flag(option.name())
}

/// A command of `clap` with these options.
fn parser<'a>(alloc: Global, options: &[OptionName]) -> Result<Command<'a>, WordsError>
    ensures made { IfOk result (λ c. app_of c ≡ app (listing options.now)) }
    ensures memory { result ≢ Err WordsError.BadWords }
{
    let mut command = Command::new(alloc, "esm").disable_help_flag(true);
    for option in options {
        command = command.arg(argument(alloc, *option))?;
    }
    Ok(command)
}

/// An option as `clap` knows it.
fn argument<'a>(alloc: Global, option: OptionName) -> Arg<'a>
    ensures rule { rule_of result ≡ raw_rule (option_name option, has_value option) }
    ensures local { result.global ≡ false }
{
    let argument = Arg::new(alloc, option.name()).long(option.name());
    if option.has_value() {
        argument
            .action(ArgAction::Set)
            .value_parser(ValueParser::NonEmptyString)
    } else {
        argument.action(ArgAction::SetTrue)
    }
}

fn refusal(error: &Error) -> WordsError
    ensures { result ≡ WordsError.BadWords → kind_of error.now ≢ ErrorKind.OutOfMemory }
{
    match error.kind() {
        ErrorKind::OutOfMemory => WordsError::OutOfMemory,
        _ => WordsError::BadWords,
    }
}

/// Reads a UUID in the hyphenated form, in either case of letters.
fn hyphenated(word: &str) -> Option<Uuid>
    ensures { result ≡ parsed_hyphenated word.now }
{
    if word.len() != 36 {
        return None;
    }
    Uuid::parse_str(word).ok()
}

impl<'a> Options<'a> {
    /// Returns the value of the option, if it is given.
    fn value(&self, option: OptionName) -> Option<&'a str>
        requires { has_value option ≡ true }
        ensures { option_map (λ s. s.now) result ≡ values_found self.now.matches option }
    {
        self.matches.get_str(option.name())
    }

    /// Reads the number of an option. `BadWords` if it gives none within the bounds, or is absent and has no default.
    pub fn number(&self, rule: NumberRule) -> Result<u32, WordsError>
        requires { has_value rule.option ≡ true }
        ensures read { IfOk result (IsNumber rule (values_found self.now.matches)) }
        ensures bad { IsErr result → (n : ℕ) → ¬ IsNumber rule (values_found self.now.matches) n }
    {
        let Some(text) = self.value(rule.option) else {
            return rule.default.ok_or(WordsError::BadWords);
        };
        match whole_number(text) {
            Some(n) if rule.least <= n && n <= rule.greatest => Ok(n),
            _ => Err(WordsError::BadWords),
        }
    }

    /// Copies the text of an option. `BadWords` if it is absent; `OutOfMemory` if an allocation failed.
    pub fn text(&self, alloc: Global, option: OptionName) -> Result<Text, WordsError>
        requires { has_value option ≡ true }
        ensures read { IfOk result (IsText option (values_found self.now.matches)) }
        ensures bad { result ≡ Err WordsError.BadWords → (t : List ℕ) → ¬ IsText option (values_found self.now.matches) t }
    {
        let Some(text) = self.value(option) else {
            return Err(WordsError::BadWords);
        };
        copied(alloc, text)
    }

    /// Reads which mapping is run. `BadWords` if none is named, both ways of naming one are used, or the id is no hyphenated
    /// UUID; `OutOfMemory` if an allocation failed.
    pub fn which(&self, alloc: Global) -> Result<Which, WordsError>
        ensures read { IfOk result (IsWhich (values_found self.now.matches)) }
        ensures bad { result ≡ Err WordsError.BadWords → (w : Which) → ¬ IsWhich (values_found self.now.matches) w }
    {
        match (
            self.value(OptionName::Config),
            self.value(OptionName::Mapping),
        ) {
            (Some(text), None) => Ok(Which::Config(copied(alloc, text)?)),
            (None, Some(word)) => match hyphenated(word) {
                Some(id) => Ok(Which::Mapping(id)),
                None => Err(WordsError::BadWords),
            },
            _ => Err(WordsError::BadWords),
        }
    }
}

fn copied(alloc: Global, text: &str) -> Result<Text, WordsError>
    ensures copied { IfOk result (λ t. t ≡ text.now) }
    ensures memory { result ≢ Err WordsError.BadWords }
{
    Ok(Text::from_vec(String::from_str(alloc, text)?))
}
