//! The request that the arguments of a call are.
ghost use Rattle.std.specs.Prelude.{◌≡◌, IfSome, option_map};
ghost use Rattle.std.specs.Option.{IfNone};
ghost use Rattle.tower.specs.Requests.{Asks, IsUsage, check_request, compile_request, encode_request, entry_request, is_at_end, request_alone, request_from, request_with, run_request, without_circuit, without_entry};
ghost use Rattle.tower.specs.Given.{file_request, request_of, settings_seen, text_seen};

use crate::settings::{Settings, settings_of};
use crate::words::Words;
use tw_types::Widths;

/// The entry that a command names.
#[derive(Debug, Clone, Copy, PartialEq, Eq)]
pub struct Options<'w> {
    /// The widths that the program is compiled for, or run with.
    pub widths: Widths,
    /// The name of the function.
    pub entry: &'w str,
    /// The number that its bound has.
    pub bound: Option<u8>,
    /// Whether the request is for its inverse: the inverse file, the run back, or the states at its end.
    pub inverse: bool,
}

/// A command, with its options.
#[derive(Debug, Clone, Copy, PartialEq, Eq)]
pub enum Command<'w> {
    /// The printed form of a program.
    Format,
    /// Whether a program is well-typed and reversible, at these widths.
    Check(Widths),
    /// The gate file of a program, or the inverse file.
    Compile(Options<'w>),
    /// The results of a program on states, or the states whose results are given.
    Run(Options<'w>),
    /// The encodings of states at the start of a function, or of those at its end.
    Encode(Options<'w>),
    /// The images of lines of bits under the gates of a file.
    Simulate,
    /// The inverse of a gate file.
    Invert,
}

/// `check` with these settings. The widths are needed, and no other option is allowed.
fn check_of<'w>(settings: &Settings<'w>) -> Option<Command<'w>>
    ensures { option_map request_of result ≡ check_request (settings_seen settings.now) }
{
    let unwanted = Settings {
        widths: None,
        ..*settings
    };
    if !unwanted.is_empty() {
        return None;
    }
    let widths = settings.widths?;
    Some(Command::Check(widths))
}

/// The settings without those of an entry.
fn without_entry<'w>(settings: &Settings<'w>) -> Settings<'w>
    ensures { settings_seen result ≡ without_entry (settings_seen settings.now) }
{
    Settings {
        widths: None,
        entry: None,
        bound: None,
        ..*settings
    }
}

/// The settings without those of an entry and of its circuit.
fn without_circuit<'w>(settings: &Settings<'w>) -> Settings<'w>
    ensures { settings_seen result ≡ without_circuit (settings_seen settings.now) }
{
    Settings {
        level: None,
        flatten: None,
        narrow: None,
        ..without_entry(settings)
    }
}

/// The entry that settings name, or its inverse. The widths and the entry are needed.
fn entry_of<'w>(settings: &Settings<'w>, inverse: bool) -> Option<Options<'w>>
    ensures { option_map file_request result ≡ entry_request inverse (settings_seen settings.now) }
{
    let widths = settings.widths?;
    let entry = settings.entry?;
    Some(Options {
        widths,
        entry,
        bound: settings.bound,
        inverse,
    })
}

/// `compile` with these settings.
fn compile_of<'w>(settings: &Settings<'w>) -> Option<Command<'w>>
    ensures { option_map request_of result ≡ compile_request (settings_seen settings.now) }
{
    let others = Settings {
        inverse: false,
        ..without_circuit(settings)
    };
    if !(settings.is_as_built() && others.is_empty()) {
        return None;
    }
    let Some(options) = entry_of(settings, settings.inverse) else {
        return None;
    };
    Some(Command::Compile(options))
}

/// `run` with these settings.
fn run_of<'w>(settings: &Settings<'w>) -> Option<Command<'w>>
    ensures { option_map request_of result ≡ run_request (settings_seen settings.now) }
{
    let others = Settings {
        back: false,
        ..without_entry(settings)
    };
    if !others.is_empty() {
        return None;
    }
    let Some(options) = entry_of(settings, settings.back) else {
        return None;
    };
    Some(Command::Run(options))
}

/// Whether the value of `--side` is the end of the function. `None` if it is no side.
fn is_at_end(side: Option<&str>) -> Option<bool>
    ensures { result ≡ is_at_end (text_seen side.entry) }
{
    let Some(side) = side else {
        return Some(false);
    };
    match side {
        "in" => Some(false),
        "out" => Some(true),
        _ => None,
    }
}

/// `encode` with these settings.
fn encode_of<'w>(settings: &Settings<'w>) -> Option<Command<'w>>
    ensures { option_map request_of result ≡ encode_request (settings_seen settings.now) }
{
    let others = Settings {
        side: None,
        ..without_circuit(settings)
    };
    if !(settings.is_as_built() && others.is_empty()) {
        return None;
    }
    let Some(at_end) = is_at_end(settings.side) else {
        return None;
    };
    let Some(options) = entry_of(settings, at_end) else {
        return None;
    };
    Some(Command::Encode(options))
}

/// The command of this name without options. `None` if there is none.
fn command_alone<'w>(command: &str) -> Option<Command<'w>>
    ensures { option_map request_of result ≡ request_alone command.now }
{
    match command {
        "format" => Some(Command::Format),
        "sim" => Some(Command::Simulate),
        "invert" => Some(Command::Invert),
        _ => None,
    }
}

/// The command of this name with options. `None` if there is none, or if an option is missing or not allowed.
fn command_with<'w>(command: &str, settings: &Settings<'w>) -> Option<Command<'w>>
    ensures { option_map request_of result ≡ request_with command.now (settings_seen settings.now) }
{
    match command {
        "check" => check_of(settings),
        "compile" => compile_of(settings),
        "run" => run_of(settings),
        "encode" => encode_of(settings),
        _ => None,
    }
}

/// The command of this name with these settings. `None` if there is none, or if an option is missing or not allowed.
fn request_from<'w>(command: &str, settings: &Settings<'w>) -> Option<Command<'w>>
    ensures { option_map request_of result ≡ request_from command.now (settings_seen settings.now) }
{
    if settings.is_empty() {
        command_alone(command)
    } else {
        command_with(command, settings)
    }
}

/// The command that the arguments are, with its options. `None` if they are none.
pub fn command_of(words: &Words) -> Option<Command<'_>>
    ensures some { IfSome result (λ command. Asks words.now (request_of command)) }
    ensures none { IfNone result (IsUsage words.now) }
{
    if words.is_empty() {
        return None;
    }
    let Some(settings) = settings_of(words) else {
        return None;
    };
    request_from(words.word(0), &settings)
}
