//! Commands over devices of which one call fails, and over sinks whose room ends.
use std::alloc::{AllocError, Global};
use tower::{Status, Words, tower_main};
use tw_io::{MemSink, MemSource};

/// A command line, an input, and the answer when no device fails.
#[derive(Clone, Copy)]
struct Call {
    line: &'static str,
    text: &'static str,
    answer: &'static str,
}

const AND: &str = "fun main(a: bool, b: bool) -> bool { let c <- a && b; return c; }";

const AND_PRINTED: &str =
    "fun main(a: bool, b: bool) -> bool {\n  let c <- a && b;\n  return c;\n}\n";

const AND_FILE: &str = "tower-gates 1\nlevel mcx\nwires 7\ngates 5\nt-count 7\n\
cx 2 5\ncx 3 6\nccx 5 6 4\ncx 3 6\ncx 2 5\nend\n";

const AND_STATE: &str = "tower-gates 1\nlevel mcx\nwires 7\ngates 5\nt-count 7\n\
cx 2 5\ncx 3 6\nccx 5 6 4\ncx 3 6\ncx 2 5\nend\n%%\n1011000\n";

const COMPILE: Call = Call {
    line: "compile --word 1 --addr 1 --entry main",
    text: AND,
    answer: AND_FILE,
};

const FORMAT: Call = Call {
    line: "format",
    text: AND,
    answer: AND_PRINTED,
};

const INVERT: Call = Call {
    line: "invert",
    text: AND_FILE,
    answer: AND_FILE,
};

const SIMULATE: Call = Call {
    line: "sim",
    text: AND_STATE,
    answer: "1011100\n",
};

/// A call whose arguments are wrong, so that it reads nothing.
const WRONG: Call = Call {
    line: "compile --word 33 --addr 1 --entry main",
    text: AND,
    answer: "",
};

/// How a call ended, and what it wrote.
#[derive(Drop)]
struct Ending {
    status: Status,
    text: Vec<u8>,
}

/// The arguments of a command line, which single spaces separate.
fn words_of(alloc: Global, line: &str) -> Result<Words, AllocError> {
    let mut words = Words::new(alloc);
    for word in line.split(' ') {
        words.push(word)?;
    }
    Ok(words)
}

/// How a call ends if the read and the write of these numbers fail, each read gives a byte, and the sink has this room.
fn cut_short(
    alloc: Global,
    call: Call,
    read: u64,
    room: usize,
    write: u64,
) -> Result<Ending, AllocError> {
    let words = words_of(alloc, call.line)?;
    let text = Vec::from_slice(alloc, call.text.as_bytes())?;
    let mut input = MemSource::new(text, 1, vec![in alloc; read]?);
    let mut output = MemSink::new(alloc, room, vec![in alloc; write]?)?;
    let status = tower_main(alloc, &words, &mut input, &mut output);
    let text = Vec::from_slice(alloc, output.taken())?;
    Ok(Ending { status, text })
}

/// How many reads there are up to the first whose failure does not end the call with a read fault and no text.
fn failing_reads(alloc: Global, call: Call) -> Result<usize, AllocError> {
    for read in 0..1_000 {
        let ending = cut_short(alloc, call, read + 1, 1_000, 0)?;
        if ending.status != Status::ReadFault || !ending.text.is_empty() {
            return Ok(read as usize);
        }
    }
    Ok(1_000)
}

/// The number of bytes that a call writes, which are the first of its answer, before a write fault.
fn bytes_before_fault(
    alloc: Global,
    call: Call,
    room: usize,
    write: u64,
) -> Result<Option<usize>, AllocError> {
    let ending = cut_short(alloc, call, 0, room, write)?;
    let bytes = ending.text.as_slice();
    let is_cut = ending.status == Status::WriteFault && call.answer.as_bytes().starts_with(bytes);
    Ok(is_cut.then_some(bytes.len()))
}

/// How many rooms from 0 on there are up to the first that does not end the call with a write fault and a full room.
fn failing_rooms(alloc: Global, call: Call) -> Result<usize, AllocError> {
    for room in 0..1_000 {
        if bytes_before_fault(alloc, call, room, 0)? != Some(room) {
            return Ok(room);
        }
    }
    Ok(1_000)
}

// Each byte is a read, and one more read finds the end.
#[test]
fn each_read_fails_in_turn(rt: HostRuntime) -> Result<(), AllocError> {
    let table = [
        (COMPILE, 66),
        (FORMAT, 66),
        (INVERT, 93),
        (SIMULATE, 104),
        (WRONG, 0),
    ];
    for (call, reads) in table {
        assert_eq!(rt; failing_reads(rt.alloc(), call)?, reads, "{}", call.line);
    }
    Ok(())
}

// The header, each gate and the last line of a compiled file are one write each. Every other answer is one write.
#[test]
fn each_write_fails_in_turn(rt: HostRuntime) -> Result<(), AllocError> {
    let table = [
        (COMPILE, 1, 0),
        (COMPILE, 2, 50),
        (COMPILE, 3, 57),
        (COMPILE, 4, 64),
        (COMPILE, 5, 74),
        (COMPILE, 6, 81),
        (COMPILE, 7, 88),
        (FORMAT, 1, 0),
        (INVERT, 1, 0),
        (SIMULATE, 1, 0),
    ];
    for (call, write, bytes) in table {
        let found = bytes_before_fault(rt.alloc(), call, 1_000, write)?;
        assert_eq!(rt; found, Some(bytes), "{} {write}", call.line);
    }
    Ok(())
}

// The room of a sink ends after each byte but the last.
#[test]
fn each_room_ends_in_turn(rt: HostRuntime) -> Result<(), AllocError> {
    let table = [(COMPILE, 92), (FORMAT, 70), (INVERT, 92), (SIMULATE, 8)];
    for (call, rooms) in table {
        assert_eq!(rt; failing_rooms(rt.alloc(), call)?, rooms, "{}", call.line);
    }
    Ok(())
}
