// The lines of the examples' text, and what each of them says.

/// The devices of a world that may fail, among them the first of its callers.
#[derive(Clone, Copy, PartialEq, Eq)]
pub enum Device {
    Input,
    Output,
    Journal,
    Spare,
    Failures,
    Registry,
    Caller,
}

/// A call of a device that is to fail; `call` is its number, counted from 0.
#[derive(Clone, Copy)]
pub struct Fault {
    pub device: Device,
    pub call: u64,
}

/// A line of the text.
#[derive(Clone, Copy)]
pub enum Line<'a> {
    /// `# ..`, or an empty line.
    Nothing,
    /// `= NAME`: begins a new example, in a new world.
    Example,
    /// `let NAME TEXT`: the name stands for the text in all later lines.
    Name { name: &'a str, text: &'a str },
    Given(Given<'a>),
    Deed(Deed<'a>),
    Look(Look),
}

/// What a line says of the world in which commands are carried out.
#[derive(Clone, Copy)]
pub enum Given<'a> {
    /// `bare`: the four files are empty.
    Bare,
    /// `journal HEX`, and the same for the other files: the file's bytes.
    File {
        device: Device,
        hex: &'a str,
    },
    /// `< TEXT`: a line of the input.
    InputLine(&'a str),
    /// `<< TEXT`: a line of the input without its line feed.
    InputPart(&'a str),
    /// `no input`: the input is empty.
    NoInput,
    /// `many FIRST LAST TEXT`: a line of the input for each of the numbers, which replaces each `%` of the text and has
    /// at least as many digits as FIRST.
    Many {
        first: u64,
        last: u64,
        digits: usize,
        text: &'a str,
    },
    /// `spaces N`: this many spaces in the input.
    Spaces(usize),
    /// `succeeds`: the function answers status 200 with no body.
    Succeeds,
    /// `answers STATUS BODY`: one more answer of the function, after which it succeeds.
    Answers {
        status: u16,
        body: &'a str,
    },
    /// `fails TEXT`: the function answers with the function error if its event has the text.
    Fails(&'a str),
    /// `clock N`: the moment, in milliseconds since 1970.
    Clock(u64),
    /// `fault DEVICE N`: the call of the device with this number, from 0, fails in the next command.
    Fault(Fault),
    /// `connection TEXT`: a connection of the next command, which sends the text; `\r` and `\n` in it are escapes.
    Connection(&'a str),
}

/// What a line has carried out.
#[derive(Clone, Copy)]
pub enum Deed<'a> {
    /// `$ WORDS`: the command.
    Command(&'a str),
    /// `each DEVICE: WORDS`: the command again and again, each time with the next call of the device failing.
    Each {
        device: Device,
        words: &'a str,
    },
    /// `stops DEVICE: WORDS; WORDS`: the same, each time followed by a crash and the second command.
    Stops {
        device: Device,
        words: &'a str,
        then: &'a str,
    },
    /// `cuts DEVICE: WORDS`: the command over each prefix of the file's bytes.
    Cuts {
        device: Device,
        words: &'a str,
    },
}

/// What is looked at after a command.
#[derive(Clone, Copy)]
pub enum Look {
    /// `calls`: the calls of functions, in the order in which they began.
    Calls,
    /// `events`: the events that the callers sent, caller by caller.
    Events,
    /// `sizes`: the lengths in bytes of these events.
    Sizes,
    /// `entries`: the number of entries of the history.
    Entries,
    /// `bytes DEVICE`: the file's bytes.
    Bytes(Device),
    /// `answered`: the answer to each connection.
    Answered,
}

/// The device with this name.
fn device_of(word: &str) -> Option<Device> {
    match word {
        "input" => Some(Device::Input),
        "output" => Some(Device::Output),
        "journal" => Some(Device::Journal),
        "spare" => Some(Device::Spare),
        "failures" => Some(Device::Failures),
        "registry" => Some(Device::Registry),
        "caller" => Some(Device::Caller),
        _ => None,
    }
}

/// The bytes of a file.
fn file_of<'a>(word: &str, hex: &'a str) -> Option<Given<'a>> {
    let device = device_of(word)?;
    let is_hex = hex.len() % 2 == 0 && hex.bytes().all(|digit| digit.is_ascii_hexdigit());
    match device {
        Device::Input | Device::Output | Device::Caller => None,
        _ if is_hex => Some(Given::File { device, hex }),
        _ => None,
    }
}

fn fault_of(rest: &str) -> Option<Fault> {
    let (word, number) = rest.split_once(' ')?;
    Some(Fault {
        device: device_of(word)?,
        call: number.parse::<u64>().ok()?,
    })
}

fn many(rest: &str) -> Option<Given<'_>> {
    let (first, rest) = rest.split_once(' ')?;
    let (last, text) = rest.split_once(' ')?;
    Some(Given::Many {
        first: first.parse::<u64>().ok()?,
        last: last.parse::<u64>().ok()?,
        digits: first.len(),
        text,
    })
}

fn answers(rest: &str) -> Option<Given<'_>> {
    let (status, body) = rest.split_once(' ').unwrap_or((rest, ""));
    Some(Given::Answers {
        status: status.parse::<u16>().ok()?,
        body,
    })
}

/// What a line with this first word and this rest says of the world.
fn given_of<'a>(word: &str, rest: &'a str) -> Option<Given<'a>> {
    match word {
        "bare" if rest.is_empty() => Some(Given::Bare),
        "<" => Some(Given::InputLine(rest)),
        "<<" => Some(Given::InputPart(rest)),
        "no" if rest == "input" => Some(Given::NoInput),
        "many" => many(rest),
        "spaces" => Some(Given::Spaces(rest.parse::<usize>().ok()?)),
        "succeeds" if rest.is_empty() => Some(Given::Succeeds),
        "answers" => answers(rest),
        "fails" => Some(Given::Fails(rest)),
        "clock" => Some(Given::Clock(rest.parse::<u64>().ok()?)),
        "fault" => Some(Given::Fault(fault_of(rest)?)),
        "connection" => Some(Given::Connection(rest)),
        _ => file_of(word, rest),
    }
}

fn stops(rest: &str) -> Option<Deed<'_>> {
    let (word, rest) = rest.split_once(": ")?;
    let (words, then) = rest.split_once("; ")?;
    Some(Deed::Stops {
        device: device_of(word)?,
        words,
        then,
    })
}

/// What a line with this first word and this rest has carried out.
fn deed_of<'a>(word: &str, rest: &'a str) -> Option<Deed<'a>> {
    match word {
        "$" => Some(Deed::Command(rest)),
        "each" => {
            let (word, words) = rest.split_once(": ")?;
            let device = device_of(word)?;
            Some(Deed::Each { device, words })
        }
        "stops" => stops(rest),
        "cuts" => {
            let (word, words) = rest.split_once(": ")?;
            let device = device_of(word)?;
            Some(Deed::Cuts { device, words })
        }
        _ => None,
    }
}

/// What a line with this first word and this rest looks at.
fn look_of(word: &str, rest: &str) -> Option<Look> {
    match word {
        "calls" if rest.is_empty() => Some(Look::Calls),
        "events" if rest.is_empty() => Some(Look::Events),
        "sizes" if rest.is_empty() => Some(Look::Sizes),
        "entries" if rest.is_empty() => Some(Look::Entries),
        "answered" if rest.is_empty() => Some(Look::Answered),
        "bytes" => Some(Look::Bytes(device_of(rest)?)),
        _ => None,
    }
}

fn name(rest: &str) -> Option<Line<'_>> {
    let (name, text) = rest.split_once(' ')?;
    if name.is_empty() {
        return None;
    }
    Some(Line::Name { name, text })
}

/// Returns what a line says; `None` if it has none of the forms.
pub fn read_line(text: &str) -> Option<Line<'_>> {
    let (word, rest) = text.split_once(' ').unwrap_or((text, ""));
    if text.is_empty() || word == "#" {
        return Some(Line::Nothing);
    }
    if word == "=" {
        return Some(Line::Example);
    }
    if word == "let" {
        return name(rest);
    }
    if let Some(look) = look_of(word, rest) {
        return Some(Line::Look(look));
    }
    if let Some(deed) = deed_of(word, rest) {
        return Some(Line::Deed(deed));
    }
    Some(Line::Given(given_of(word, rest)?))
}
