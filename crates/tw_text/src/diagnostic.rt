//! Diagnostics: the reason of a refusal, and its line, composed on the stack.
ghost use Rattle.std.specs.Prelude.{◌≡◌, ◌≤◌, length};
ghost use Rattle.tw_text.specs.Refusals.{counted_name, rule_name, state_why_name, plain_line, place_line, limit_line, number_line, refusal_line, diagnostic_line};

use crate::place::Pos;
use crate::refusal::{Counted, Refusal, Rule, StateWhy};
use arrayvec::ArrayString;
use itoa::Buffer;

/// The line of a diagnostic; the longest one takes fewer bytes.
pub type DiagnosticLine = ArrayString<128>;

/// The reason of a refusal.
#[derive(Debug, Clone, Copy, PartialEq, Eq)]
pub enum Diagnostic {
    /// The command-line arguments are not those of a command.
    Usage,
    /// The source breaks a rule, or a limit is passed.
    Refused(Refusal),
    /// A gate file is wrong at this line. Lines count from 1.
    BadGateText { line: u32 },
    /// This line of bits is wrong. Lines count from 1.
    BitsLength { line: u32 },
    /// A text of states is wrong at this line, or the state that begins there is not well-formed. Lines count from 1.
    BadState { line: u32, why: StateWhy },
    /// A gate file of level t can't be simulated.
    LevelT,
    /// The source is a program that is not compiled yet.
    NotBuilt,
}

impl Diagnostic {
    /// The line of the diagnostic, with its newline. It is `refused NAME at LINE:COL` for a rule of the source,
    /// `refused limit NAME found F limit L` for a limit, `refused NAME at line N` for a line of a gate file, of bits or of
    /// states, and `refused NAME` for the others. All numbers are decimal.
    pub fn line(&self) -> DiagnosticLine
        ensures { result.bytes ≡ diagnostic_line self.now }
    {
        match self {
            Diagnostic::Usage => plain_line("usage"),
            Diagnostic::Refused(refusal) => refusal.line(),
            Diagnostic::BadGateText { line } => number_line("bad-gate-text", *line),
            Diagnostic::BitsLength { line } => number_line("bits-length", *line),
            Diagnostic::BadState { line, why } => number_line(why.name(), *line),
            Diagnostic::LevelT => plain_line("level-t"),
            Diagnostic::NotBuilt => plain_line("not-built"),
        }
    }
}

impl Counted {
    /// The name of the limit in its line.
    pub fn name(&self) -> &'static str
        ensures name { result.now ≡ counted_name self.now }
        ensures short { length result.now ≤ 10 }
    {
        match self {
            Counted::Input => "input",
            Counted::Nesting => "nesting",
            Counted::Statements => "statements",
            Counted::Depth => "depth",
            Counted::Controls => "controls",
            Counted::Wires => "wires",
            Counted::Lines => "lines",
            Counted::States => "states",
        }
    }
}

impl Rule {
    /// The name of the rule in its line: lower-case words, joined by `-`.
    pub fn name(&self) -> &'static str
        ensures name { result.now ≡ rule_name self.now }
        ensures short { length result.now ≤ 17 }
    {
        match self {
            Rule::Utf8 => "utf8",
            Rule::Token => "token",
            Rule::Syntax => "syntax",
            Rule::DuplicateName => "duplicate-name",
            Rule::UnknownName => "unknown-name",
            Rule::RecursiveType => "recursive-type",
            Rule::TypeTooDeep => "type-too-deep",
            Rule::TypeTooLarge => "type-too-large",
            Rule::CallOrder => "call-order",
            Rule::BadCall => "bad-call",
            Rule::RepeatedArgument => "repeated-argument",
            Rule::LiteralTooWide => "literal-too-wide",
            Rule::TypeMismatch => "type-mismatch",
            Rule::TypeChanged => "type-changed",
            Rule::BadReturn => "bad-return",
            Rule::BadEntry => "bad-entry",
            Rule::NotDeclared => "not-declared",
            Rule::Redeclared => "redeclared",
            Rule::ConditionWritten => "condition-written",
            Rule::SelfUse => "self-use",
            Rule::Overlap => "overlap",
            Rule::BranchesDiffer => "branches-differ",
            Rule::WithNotUndone => "with-not-undone",
            Rule::Left => "left",
            Rule::Limit(counted) => counted.name(),
        }
    }
}

impl StateWhy {
    /// The name of the refusal in its line.
    pub fn name(&self) -> &'static str
        ensures name { result.now ≡ state_why_name self.now }
        ensures short { length result.now ≤ 16 }
    {
        match self {
            StateWhy::Syntax => "bad-state syntax",
            StateWhy::Chain => "bad-state chain",
        }
    }
}

/// The line of a refusal that has a name alone.
fn plain_line(name: &str) -> DiagnosticLine
    requires { length name.now ≤ 17 }
    ensures { result.bytes ≡ plain_line name.now }
{
    let mut line = DiagnosticLine::new();
    line.push_str("refused ");
    line.push_str(name);
    line.push_str("\n");
    line
}

/// The line of a refusal at a line of the input.
fn number_line(name: &str, number: u32) -> DiagnosticLine
    requires { length name.now ≤ 17 }
    ensures { result.bytes ≡ number_line name.now number }
{
    let mut line = DiagnosticLine::new();
    line.push_str("refused ");
    line.push_str(name);
    line.push_str(" at line ");
    line.push_str(Buffer::new().format(number));
    line.push_str("\n");
    line
}

/// The line of a rule that is broken at a place.
fn place_line(rule: &Rule, at: Pos) -> DiagnosticLine
    ensures { result.bytes ≡ place_line (rule_name rule.now) at }
{
    let mut line = DiagnosticLine::new();
    line.push_str("refused ");
    line.push_str(rule.name());
    line.push_str(" at ");
    line.push_str(Buffer::new().format(at.line));
    line.push_str(":");
    line.push_str(Buffer::new().format(at.col));
    line.push_str("\n");
    line
}

/// The line of a limit that is passed.
fn limit_line(counted: &Counted, found: u64, limit: u64) -> DiagnosticLine
    ensures { result.bytes ≡ limit_line (counted_name counted.now) found limit }
{
    let mut line = DiagnosticLine::new();
    line.push_str("refused limit ");
    line.push_str(counted.name());
    line.push_str(" found ");
    line.push_str(Buffer::new().format(found));
    line.push_str(" limit ");
    line.push_str(Buffer::new().format(limit));
    line.push_str("\n");
    line
}

impl Refusal {
    /// The line of a broken rule, or of a limit that is passed.
    fn line(&self) -> DiagnosticLine
        ensures { result.bytes ≡ refusal_line self.now }
    {
        match &self.rule {
            Rule::Limit(counted) => limit_line(counted, self.found, self.limit),
            rule => place_line(rule, self.at),
        }
    }
}
