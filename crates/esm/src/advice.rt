// What standard error says after a refusal: what to do about it.
use esm_cli::table::{COMMANDS, NUMBERS, OptionName, Verb};
use memchr::memrchr;
use std::io::Eprint;

/// The exit status of bad words.
const BAD_WORDS: u8 = 2;

/// The exit status of a failed output, whose last line then names no refusal.
const OUTPUT_FAULT: u8 = 5;

/// The exit status if memory ran out; nothing is told then.
const OUT_OF_MEMORY: u8 = 70;

/// The beginning of the usage text; docs/FORMATS.md explains its words.
const USAGE: [&str; 5] = [
    "usage: esm FOLDER FUNCTIONS DOOR COMMAND [OPTIONS]",
    "  FOLDER     - for memory and standard input, or a folder that init made ready, with its input.jsonl",
    "  FUNCTIONS  ok, poison:TEXT, or the port of 127.0.0.1 at which the function is served",
    "  DOOR       the port of serve; 0 where none is served",
    "  COMMAND    one of these, with its options:",
];

/// How a refusal's line begins, and what to do about it. The first entry that fits counts.
const REMEDIES: [(&[u8], &str); 18] = [
    (
        b"calls spent",
        "give the command again: what is left is called then",
    ),
    (
        b"disk fault",
        "see that the folder is there, can be written and has room, and that no other process has its files",
    ),
    (
        b"input fault",
        "put an input.jsonl into the folder, or see why the input failed",
    ),
    (
        b"not a journal journal.esm",
        "make the folder ready with init; a journal of version 1 is brought to version 2 by migrate",
    ),
    (
        b"not a journal",
        "this program did not write the file: put back a copy of it, or give another folder",
    ),
    (
        b"not empty",
        "the folder is ready; where an init was cut off, remove its four files and do it again",
    ),
    (
        b"damaged",
        "the file was cut off or changed: put back a copy of it",
    ),
    (
        b"bad payload failures.esm",
        "the line names nothing of this mapping: give the folder's own mapping",
    ),
    (
        b"bad payload",
        "the file was changed, or another program wrote it: put back a copy of it",
    ),
    (
        b"destination fault",
        "make room on the disk of failures.esm, or correct its permissions, and give the command again",
    ),
    (
        b"door fault",
        "the port of serve is taken, or is not this user's to open: give another one",
    ),
    (
        b"stream changed",
        "a record came that is not the one which the journal knows: give the same input, or another folder",
    ),
    (
        b"unknown mapping",
        "the folder's registry has no such mapping: list those it has over serve",
    ),
    (
        b"disabled mapping",
        "enable the mapping over serve, or with \"Enabled\":true",
    ),
    (
        b"bad parameter Body",
        "the text behind --config is no JSON object: give the mapping itself, as \"$(cat FILE)\"",
    ),
    (
        b"bad parameter",
        "the mapping's field has a value that this command does not take: docs/FORMATS.md has each field's values",
    ),
    (
        b"bad line",
        "mend this line of the input, counted from 1, and give the command again: what stands before it is not called again",
    ),
    (
        b"limit",
        "the input has more than a run can hold: docs/FORMATS.md has the limits",
    ),
];

/// Returns what to do about the refusal on this line, or `None` if it needs nothing.
fn remedy(line: &[u8]) -> Option<&'static str> {
    for remedy in REMEDIES.iter() {
        if line.starts_with(remedy.0) {
            return Some(remedy.1);
        }
    }
    None
}

/// Returns the last line of a text whose lines all end with a line feed, without that line feed.
fn last_line(text: &[u8]) -> &[u8] {
    let Some((_, text)) = text.split_last() else {
        return text;
    };
    match memrchr(b'\n', text) {
        Some(at) => &text[at + 1..],
        None => text,
    }
}

/// Whether the command needs the option.
fn is_needed(option: OptionName) -> bool {
    for rule in NUMBERS.iter() {
        if rule.option == option {
            return rule.default.is_none();
        }
    }
    option == OptionName::Config
}

/// Returns what follows the option's name in the usage text.
fn value_of(option: OptionName) -> &'static str {
    match option {
        OptionName::Config => " TEXT",
        OptionName::Mapping => " UUID",
        _ if option.has_value() => " N",
        _ => "",
    }
}

/// Prints how the option is spelled, in brackets if the command does not need it.
fn tell_option<R: Eprint>(rt: &R, option: OptionName) {
    let (open, close) = if is_needed(option) {
        (" --", "")
    } else {
        (" [--", "]")
    };
    for part in [open, option.name(), value_of(option), close] {
        let _ = rt.eprint(part);
    }
}

/// Prints how the command is spelled, with the options of its table. `--mapping UUID` is shown as taking the place of
/// `--config`.
fn tell_command<R: Eprint>(rt: &R, word: &str) {
    let _ = rt.eprint("             ");
    let _ = rt.eprint(word);
    let options: &[OptionName] = match Verb::named(word) {
        Some(verb) => verb.options(),
        None => &[],
    };
    for option in options {
        if *option == OptionName::Mapping {
            let _ = rt.eprint(", or --mapping UUID in its place,");
        } else {
            tell_option(rt, *option);
        }
    }
    let _ = rt.eprintln("");
}

/// Prints which word names no command, if the fourth word does not, and then how each command is spelled.
fn tell_usage<R: Eprint>(rt: &R, words: &[String]) {
    if let Some(verb) = words.get(3) {
        if Verb::named(verb.as_str()).is_none() {
            let _ = rt.eprint("esm: there is no command ");
            let _ = rt.eprintln(verb.as_str());
        }
    }
    for line in USAGE.iter() {
        let _ = rt.eprintln(*line);
    }
    for word in COMMANDS.iter() {
        tell_command(rt, *word);
    }
}

/// Prints on standard error that memory ran out and what to do about it, and returns the exit status. A failure of standard
/// error is ignored.
pub fn out_of_memory<R: Eprint>(rt: &R) -> u8 {
    let _ = rt.eprintln(
        "esm: memory ran out: raise its limit (ulimit -v), or split the input by shard as docs/SCALING.md shows",
    );
    OUT_OF_MEMORY
}

/// Prints on standard error what to do: for bad words how commands are spelled, where `words` are those of the program; for a
/// failed output and for want of memory by the status; and otherwise about the refusal that the last line of the output
/// (`told`) names. Prints nothing if there is nothing to be done. A failure of standard error is ignored.
pub fn advise<R: Eprint>(rt: &R, words: &[String], status: u8, told: &[u8]) {
    if status == BAD_WORDS {
        tell_usage(rt, words);
        return;
    }
    if status == OUT_OF_MEMORY {
        let _ = out_of_memory(rt);
        return;
    }
    if status == OUTPUT_FAULT {
        let _ = rt.eprintln("esm: standard output could not be written: what was done stays");
        return;
    }
    if let Some(remedy) = remedy(last_line(told)) {
        let _ = rt.eprint("esm: ");
        let _ = rt.eprintln(remedy);
    }
}
