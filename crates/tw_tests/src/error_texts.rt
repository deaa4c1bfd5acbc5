//! The texts of the errors, which no command writes.
use std::alloc::AllocError;
use tw_gate::Stopped;
use tw_gatetext::GateFault;
use tw_ground::GroundFault;
use tw_io::{Failed, ReadError, WriteFault};
use tw_text::{Counted, Pos, Refusal};

#[test]
fn errors_have_texts(rt: HostRuntime) -> Result<(), AllocError> {
    let alloc = rt.alloc();
    let passed = Refusal::passed(Counted::Wires, 1_048_577, Pos { line: 1, col: 1 });
    let many = GroundFault::TooMany { found: 4, limit: 3 };
    let wrong = GateFault::BadGateText { line: 3 };
    let table = [
        (format!(in alloc; "{Failed}")?, "device fault"),
        (
            format!(in alloc; "{WriteFault}")?,
            "device fault while writing",
        ),
        (
            format!(in alloc; "{}", ReadError::ReadFault)?,
            "device fault while reading",
        ),
        (
            format!(in alloc; "{}", ReadError::TooLong)?,
            "input too long",
        ),
        (format!(in alloc; "{}", ReadError::Memory)?, "out of memory"),
        (format!(in alloc; "{Stopped}")?, "not all gates were taken"),
        (
            format!(in alloc; "{wrong}")?,
            "a line of the gate file is wrong",
        ),
        (
            format!(in alloc; "{}", GateFault::Over(passed))?,
            "the gate file passes a limit",
        ),
        (format!(in alloc; "{}", GateFault::Memory)?, "out of memory"),
        (
            format!(in alloc; "{many}")?,
            "there are more items than blocks",
        ),
        (
            format!(in alloc; "{}", GroundFault::Memory)?,
            "out of memory",
        ),
    ];
    for (text, wanted) in table {
        assert_eq!(rt; text.as_str(), wanted);
    }
    Ok(())
}
