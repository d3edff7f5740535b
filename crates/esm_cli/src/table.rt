//! The commands, the options that each takes, and the bounds of their numbers, in one table, which the definition of the
//! command line also reads. This product's own.
ghost use Rattle.std.specs.Prelude.{◌≡◌};
ghost use Rattle.esm_cli.specs.Tables.{has_value, option_name, options_of, verb_named};

/// The command that the first word names.
#[derive(Clone, Copy, Debug, PartialEq, Eq)]
pub enum Verb {
    Init,
    Run,
    Show,
    Failures,
    Gen,
    Compact,
    Serve,
    Migrate,
    Ddb,
    Redrive,
    Replay,
}

/// An option, written `--name`.
#[derive(Clone, Copy, Debug, PartialEq, Eq)]
pub enum OptionName {
    Config,
    Mapping,
    Calls,
    Visibility,
    Timeout,
    ReadFirst,
    Trace,
    Records,
    Requests,
    MaxReceives,
}

pub const NO_OPTIONS: [OptionName; 0] = [];

pub const RUN_OPTIONS: [OptionName; 7] = [
    OptionName::Config,
    OptionName::Mapping,
    OptionName::Calls,
    OptionName::Visibility,
    OptionName::Timeout,
    OptionName::ReadFirst,
    OptionName::Trace,
];

pub const GEN_OPTIONS: [OptionName; 1] = [OptionName::Records];

pub const SERVE_OPTIONS: [OptionName; 1] = [OptionName::Requests];

pub const DDB_OPTIONS: [OptionName; 4] = [
    OptionName::Config,
    OptionName::Calls,
    OptionName::Timeout,
    OptionName::Trace,
];

pub const REDRIVE_OPTIONS: [OptionName; 6] = [
    OptionName::Config,
    OptionName::MaxReceives,
    OptionName::Calls,
    OptionName::Visibility,
    OptionName::Timeout,
    OptionName::Trace,
];

pub const REPLAY_OPTIONS: [OptionName; 4] = [
    OptionName::Config,
    OptionName::Calls,
    OptionName::Timeout,
    OptionName::Trace,
];

/// A number that an option gives.
#[derive(Clone, Copy, Debug, PartialEq, Eq)]
pub struct NumberRule {
    pub option: OptionName,
    pub least: u32,
    pub greatest: u32,
    /// The number if the option is absent. Without a default the option is required.
    pub default: Option<u32>,
}

/// The greatest number of calls of functions.
pub const CALLS: NumberRule = NumberRule {
    option: OptionName::Calls,
    least: 0,
    greatest: 10_000_000,
    default: Some(1_000_000),
};

/// The visibility timeout of a queue's messages, in seconds.
pub const VISIBILITY: NumberRule = NumberRule {
    option: OptionName::Visibility,
    least: 0,
    greatest: 43_200,
    default: Some(30),
};

/// The time limit of one call of a function, in seconds. The bounds are those of a function's timeout (Lambda Developer
/// Guide, Lambda quotas). If the option is absent, a call has the longest.
pub const TIMEOUT: NumberRule = NumberRule {
    option: OptionName::Timeout,
    least: 1,
    greatest: 900,
    default: Some(900),
};

/// The number of records of a generated stream.
pub const RECORDS: NumberRule = NumberRule {
    option: OptionName::Records,
    least: 1,
    greatest: 50_000,
    default: None,
};

/// The number of connections that `serve` answers.
pub const REQUESTS: NumberRule = NumberRule {
    option: OptionName::Requests,
    least: 0,
    greatest: 10_000_000,
    default: None,
};

/// How often a message is received before it is moved to the dead letters.
pub const MAX_RECEIVES: NumberRule = NumberRule {
    option: OptionName::MaxReceives,
    least: 1,
    greatest: 1_000,
    default: None,
};

/// The words that name the commands, in the order of the usage text.
pub const COMMANDS: [&str; 11] = [
    "run", "ddb", "redrive", "replay", "init", "show", "failures", "compact", "migrate", "serve",
    "gen",
];

/// The rule of each option that gives a number.
pub const NUMBERS: [NumberRule; 6] = [CALLS, VISIBILITY, TIMEOUT, RECORDS, REQUESTS, MAX_RECEIVES];

impl Verb {
    /// Returns the command that the word names.
    pub fn named(word: &str) -> Option<Verb>
        ensures { result ≡ verb_named word.now }
    {
        match word {
            "init" => Some(Verb::Init),
            "run" => Some(Verb::Run),
            "show" => Some(Verb::Show),
            "failures" => Some(Verb::Failures),
            "gen" => Some(Verb::Gen),
            "compact" => Some(Verb::Compact),
            "serve" => Some(Verb::Serve),
            "migrate" => Some(Verb::Migrate),
            "ddb" => Some(Verb::Ddb),
            "redrive" => Some(Verb::Redrive),
            "replay" => Some(Verb::Replay),
            _ => None,
        }
    }

    /// Returns the options that the command takes.
    pub fn options(self) -> &'static [OptionName]
        ensures { result.now ≡ options_of self }
    {
        match self {
            Verb::Run => &RUN_OPTIONS,
            Verb::Gen => &GEN_OPTIONS,
            Verb::Serve => &SERVE_OPTIONS,
            Verb::Ddb => &DDB_OPTIONS,
            Verb::Redrive => &REDRIVE_OPTIONS,
            Verb::Replay => &REPLAY_OPTIONS,
            _ => &NO_OPTIONS,
        }
    }
}

impl OptionName {
    /// Returns the name, without the two dashes before it.
    pub fn name<'a>(self) -> &'a str
        ensures { result.now ≡ option_name self }
    {
        match self {
            OptionName::Config => "config",
            OptionName::Mapping => "mapping",
            OptionName::Calls => "calls",
            OptionName::Visibility => "visibility",
            OptionName::Timeout => "timeout",
            OptionName::ReadFirst => "read-first",
            OptionName::Trace => "trace",
            OptionName::Records => "records",
            OptionName::Requests => "requests",
            OptionName::MaxReceives => "max-receives",
        }
    }

    /// Whether the option takes a value.
    pub fn has_value(self) -> bool
        ensures { result ≡ has_value self }
    {
        !matches!(self, OptionName::ReadFirst | OptionName::Trace)
    }
}
