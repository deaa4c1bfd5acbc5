//! The program: the top call on the command-line arguments, standard input, and standard output behind a buffer.
#![tactic(auto)]

use std::alloc::AllocError;
use std::env;
use std::io::ErrorKind;
use std::process::ExitCode;
use tower::{Status, Words, tower_main};
use tw_io::{BufferedSink, HostSink, HostSource, WriteFault};

/// The commands and options, printed on standard error after a usage error.
const SYNOPSIS: &str = "\
usage: yathrefon COMMAND [OPTION..]    the input is read from standard input, the answer goes to standard output

  format     print a program in its canonical form
  check      check that a program is well-typed and reversible
    --word W     bits of a word, from 1 to 32
    --addr A     bits of an address, from 1 to 8
  compile    compile a program to a gate file
    --word W     bits of a word, from 1 to 32
    --addr A     bits of an address, from 1 to 8
    --entry F    the function to compile
    --bound N    the number of its bound, from 0 to 255 (if it declares one)
    --level mcx, --flatten off, --narrow off    the only values so far (optional)
    --inverse    the inverse circuit (optional)
  run        run a program on states: the input is the program, a line `%%`, and the states
    --word W     bits of a word, from 1 to 32
    --addr A     bits of an address, from 1 to 8
    --entry F    the function to run
    --bound N    the number of its bound, from 0 to 255 (if it declares one)
    --back       find the states whose results are given (optional)
  encode     print the bits of states on the wires of the gate file: the input is that of `run`
    --word, --addr, --entry, --bound, --level, --flatten, --narrow    as for `compile`
    --side S     `in` for the states at the start of the function, `out` for those at its end (optional, `in`)
  sim        run a gate file on lines of bits: the input is the gate file, a line `%%`, and the lines
  invert     print the inverse of a gate file
";

/// The command-line arguments. If one is invalid UTF-8, the list is empty, which is no command.
fn arguments(rt: &HostRuntime) -> Result<Words, AllocError> {
    let mut words = Words::new(rt.alloc());
    let arguments = match env::args(rt) {
        Ok(arguments) => arguments,
        Err(error) if error.kind() == ErrorKind::InvalidData => return Ok(words),
        Err(_) => return Err(AllocError),
    };
    for argument in arguments.skip(1) {
        words.push(argument.as_str())?;
    }
    Ok(words)
}

/// Writes the rest of the answer, which is in the buffer. Returns the status of the call, or `WriteFault` if standard output fails.
/// If it failed before, nothing more is written.
fn finish(status: Status, output: &mut BufferedSink<HostSink>) -> Status {
    if status == Status::WriteFault {
        return status;
    }
    match output.flush() {
        Ok(()) => status,
        Err(WriteFault) => Status::WriteFault,
    }
}

fn run(rt: &HostRuntime) -> Status {
    let Ok(words) = arguments(rt) else {
        return Status::Memory;
    };
    let Ok(mut output) = BufferedSink::new(rt.alloc(), HostSink::new(rt.stdout())) else {
        return Status::Memory;
    };
    let mut input = HostSource::new(rt.stdin());
    let status = tower_main(rt.alloc(), &words, &mut input, &mut output);
    finish(status, &mut output)
}

fn main(rt: HostRuntime) -> ExitCode {
    let status = run(&rt);
    if status == Status::Usage {
        // The refusal is on standard output already, so an error of standard error is ignored.
        let _ = eprint!(rt; "{SYNOPSIS}");
    }
    ExitCode::from(status.number())
}
