//! The top call: what each command line does, and what the call promises of it.
ghost use Rattle.std.specs.Prelude.{◌≡◌, ◌≢◌, ◌≤◌, ◌+◌, ◌⊎◌, ℕ, List, length, IfSome};
ghost use Rattle.tw_io.specs.Devices.{Rose, TakesBetween, IsAtEnd};
ghost use Rattle.tw_text.specs.declared.limits.TheConstants.{INPUT_LIMIT};
ghost use Rattle.tower.specs.Requests.{FileRequest, Format, Check, Compile, Run, Encode, Simulate, Invert, Asks, IsUsage};
ghost use Rattle.tower.specs.Outcomes.{Outcome};
ghost use Rattle.tower.specs.Answer.{InputAnswer, Answer, Answered, IsComplete, IsCutShort, Cause};
ghost use Rattle.tw_types.specs.Types as types;
ghost use Rattle.tower.specs.Check.{Checked};
ghost use Rattle.tower.specs.Format.{Formatted};
ghost use Rattle.tower.specs.Compile.{Compiled};
ghost use Rattle.tower.specs.Run.{Ran};
ghost use Rattle.tower.specs.Encode.{EncodedStates};
ghost use Rattle.tower.specs.Simulate.{Simulated};
ghost use Rattle.tower.specs.Invert.{Inverted};
ghost use Rattle.tower.specs.Given.{request_of};
ghost use Rattle.tower.specs.Ending.{Did, IsKept};

use crate::check::check;
use crate::compile::compile;
use crate::encode::encode;
use crate::ending::{Unanswered, finish, refuse};
use crate::format::format;
use crate::invert::invert;
use crate::request::{Command, command_of};
use crate::run::run_program;
use crate::simulate::simulate;
use crate::status::Status;
use crate::words::Words;
use std::alloc::Global;
use tw_io::{ReadError, Sink, Source, read_all};
use tw_text::{Counted, Diagnostic, INPUT_LIMIT, Pos, Refusal};

/// Runs a command on an input within the limit.
fn answer<K: Sink>(
    alloc: Global,
    command: &Command<'_>,
    bytes: &[u8],
    output: &mut K,
) -> Result<(), Unanswered>
    requires { length bytes.now ≤ INPUT_LIMIT }
    ensures { Did K.taken K.faults output.old output.new result (InputAnswer (request_of command.now) bytes.now) }
{
    match command {
        Command::Format => format(alloc, bytes, output),
        Command::Check(widths) => check(alloc, *widths, bytes, output),
        Command::Compile(options) => compile(alloc, options, bytes, output),
        Command::Run(options) => run_program(alloc, options, bytes, output),
        Command::Encode(options) => encode(alloc, options, bytes, output),
        Command::Simulate => simulate(alloc, bytes, output),
        Command::Invert => invert(alloc, bytes, output),
    }
}

/// Runs the command that the arguments name. `tower_main` says the same in more clauses.
fn run<S: Source, K: Sink>(alloc: Global, words: &Words, input: &mut S, output: &mut K) -> Status
    ensures answered { Answered (S.left input.old) (K.taken output.old) (K.taken output.new) words.now result }
    ensures usage { IsUsage words.now → (result ≡ Status.Usage) ⊎ (result ≡ Status.WriteFault) }
    ensures unread { IsUsage words.now → input.new ≡ input.old }
    ensures bounded { TakesBetween (S.left input.old) (S.left input.new) 0 (INPUT_LIMIT + 1) }
    ensures ended { result ≡ Status.Ok → IsAtEnd (S.left input.new) }
    ensures source { IsKept Status.ReadFault (S.faults input.old) (S.faults input.new) result }
    ensures sink { IsKept Status.WriteFault (K.faults output.old) (K.faults output.new) result }
{
    let Some(command) = command_of(words) else {
        return refuse(output, &Diagnostic::Usage);
    };
    match read_all(alloc, input, INPUT_LIMIT) {
        Ok(bytes) => {
            let did = answer(alloc, &command, &bytes, output);
            finish(output, did)
        }
        Err(ReadError::TooLong) => {
            let at = Pos { line: 1, col: 1 };
            let refusal = Refusal::passed(Counted::Input, INPUT_LIMIT + 1, at);
            refuse(output, &Diagnostic::Refused(refusal))
        }
        Err(ReadError::ReadFault) => Status::ReadFault,
        Err(ReadError::Memory) => Status::Memory,
    }
}

/// Runs the command that the arguments name: reads the input, writes the answer to the output, and returns how the call ended.
///
/// `format` reads a program and writes its printed form.
///
/// `invert` reads a gate file and writes its inverse: the gates in reverse order, with T and its inverse exchanged.
///
/// `sim` reads a gate file of X gates. Lines of bits follow the file after a line `%%`. A line has one bit for each wire, wire 0
/// first. `sim` writes the image of each line under the gates.
///
/// `check --word W --addr A` reads a program and writes `ok` if it is well-typed and reversible. `W`, from 1 to 32, is the width
/// of a word; `A`, from 1 to 8, is the width of an address.
///
/// `compile --word W --addr A --entry F` reads a program and writes the gate file of its function `F`, or with `--inverse` the
/// inverse file. `--bound N`, from 0 to 255, gives the number of the bound that `F` declares. The options may come in any order.
/// A program that `check` refuses is refused alike, and then an entry that the program does not have. Functions of `let` with atoms,
/// pairs and `&&`, of `if`, `with`, blocks and `skip` are compiled so far. A program with any other function is refused as not built.
/// Then an entry that passes a limit is refused. `--level mcx`, `--flatten off` and `--narrow off` may be given: these are the only
/// values so far, and the ones that hold without them.
///
/// `run --word W --addr A --entry F` reads a program, a line `%%`, and the texts of up to 1,024 states of its function `F`, separated by
/// lines `--`. It writes for each state the result of `F`, or the statement that is stuck, with the same separators. With `--back` the
/// states are those at the end of `F`, and it writes the states whose results they are. `--bound N` is as for `compile`.
///
/// `encode` takes the options of `compile` but `--inverse`, and the input of `run`. It writes for each state a line of its bits on the
/// wires of the gate file that `compile` writes with these options, wire 0 first. The states are those at the start of `F`, or with
/// `--side out` those at its end; `--side in` is as without it.
///
/// An input that the command does not read is refused with a line that gives the reason, and the place if the refusal has one.
/// `docs/FORMATS.md` has all texts and refusals.
pub fn tower_main<S: Source, K: Sink>(
    alloc: Global,
    words: &Words,
    input: &mut S,
    output: &mut K,
) -> Status
    // What was written with each status, compared with the defined answer. There is one such answer. If no device fails and the
    // source reports its bytes, the whole answer is written, or memory runs out and nothing is.
    ensures answered { Answered (S.left input.old) (K.taken output.old) (K.taken output.new) words.now result }
    ensures one_answer { (bytes : List ℕ) (outcome other : Outcome) → Answer words.now bytes outcome → Answer words.now bytes other → outcome ≡ other }
    ensures complete { ¬ Rose (S.faults input.old) (S.faults input.new) → ¬ Rose (K.faults output.old) (K.faults output.new)
        → IsComplete (S.left input.old) (K.taken output.old) (K.taken output.new) words.now result }

    // What each command promises of the text that it printed.
    ensures headline { (request : FileRequest) → Asks words.now (Compile request) → result ≡ Status.Ok
        → IfSome (S.left input.old) (λ bytes. Compiled request bytes (K.taken output.old) (K.taken output.new)) }
    ensures formatted { Asks words.now Format → result ≡ Status.Ok
        → IfSome (S.left input.old) (λ bytes. Formatted bytes (K.taken output.old) (K.taken output.new)) }
    ensures checked { (widths : types.Widths) → Asks words.now (Check widths) → result ≡ Status.Ok
        → IfSome (S.left input.old) (λ bytes. Checked widths bytes (K.taken output.old) (K.taken output.new)) }
    ensures ran { (request : FileRequest) → Asks words.now (Run request) → (result ≡ Status.Ok) ⊎ (result ≡ Status.Stuck)
        → IfSome (S.left input.old) (λ bytes. Ran request bytes (K.taken output.old) (K.taken output.new)) }
    ensures encoded { (request : FileRequest) → Asks words.now (Encode request) → result ≡ Status.Ok
        → IfSome (S.left input.old) (λ bytes. EncodedStates request bytes (K.taken output.old) (K.taken output.new)) }
    ensures inverted { Asks words.now Invert → result ≡ Status.Ok
        → IfSome (S.left input.old) (λ bytes. Inverted bytes (K.taken output.old) (K.taken output.new)) }
    ensures simulated { Asks words.now Simulate → result ≡ Status.Ok
        → IfSome (S.left input.old) (λ bytes. Simulated bytes (K.taken output.old) (K.taken output.new)) }

    // If the source reports its bytes, a status comes exactly if its cause holds, unless the call is cut short.
    ensures only_where { IfSome (S.left input.old) (λ bytes. IsCutShort result ⊎ Cause result words.now bytes) }
    ensures comes { (wanted : Status) → IfSome (S.left input.old) (λ bytes. Cause wanted words.now bytes → (result ≡ wanted) ⊎ IsCutShort result) }
    ensures usage_only { result ≡ Status.Usage → IsUsage words.now }
    ensures usage { IsUsage words.now → (result ≡ Status.Usage) ⊎ (result ≡ Status.WriteFault) }

    // Nothing is read if the arguments are no request. At most one byte more than the limit is read. On Ok all bytes were read.
    ensures unread { IsUsage words.now → input.new ≡ input.old }
    ensures bounded { TakesBetween (S.left input.old) (S.left input.new) 0 (INPUT_LIMIT + 1) }
    ensures ended { result ≡ Status.Ok → IsAtEnd (S.left input.new) }

    // A device's error counter rises if the call ends with that device's fault, and is unchanged otherwise.
    ensures read_fault { result ≡ Status.ReadFault → Rose (S.faults input.old) (S.faults input.new) }
    ensures no_read_fault { result ≢ Status.ReadFault → S.faults input.new ≡ S.faults input.old }
    ensures write_fault { result ≡ Status.WriteFault → Rose (K.faults output.old) (K.faults output.new) }
    ensures no_write_fault { result ≢ Status.WriteFault → K.faults output.new ≡ K.faults output.old }
{
    run(alloc, words, input, output)
}
