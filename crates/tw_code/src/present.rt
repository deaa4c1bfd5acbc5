//! The controls that a gate gets besides its own.
ghost use Rattle.std.specs.Prelude.{◌≡◌, ◌+◌, ◌≤◌, ◌++◌, length, take};
ghost use Rattle.tw_code.specs.Present.{present_list};

/// The controls that are present at a part of a code: those given for the whole code, and the wires of the `If`s around the part.
/// Each `If` on the way to the part adds one link, which lives as long as the part is gone through.
#[derive(Clone, Copy)]
pub enum Present<'a> {
    Given(&'a [u32]),
    Under(u32, &'a Present<'a>),
}

/// Writes the present controls into the buffer, after the first `count` entries. Returns the number of entries then.
fn append_present(buffer: &mut [u32], count: usize, present: &Present) -> usize
    requires { count + length (present_list present.now) ≤ length buffer.old }
    ensures len { result ≡ count + length (present_list present.now) }
    ensures appended { take result buffer.new ≡ take count buffer.old ++ present_list present.now }
{
    match present {
        Present::Given(controls) => {
            let end = count + controls.len();
            buffer[count..end].copy_from_slice(controls);
            end
        }
        Present::Under(wire, outer) => {
            buffer[count] = *wire;
            append_present(buffer, count + 1, outer)
        }
    }
}

/// Writes the own controls of a gate and then the present ones to the front of the buffer. Returns their number.
pub fn gather(buffer: &mut [u32], own: &[u32], present: &Present) -> usize
    requires { length (own.now ++ present_list present.now) ≤ length buffer.old }
    ensures len { result ≡ length (own.now ++ present_list present.now) }
    ensures gathered { take result buffer.new ≡ own.now ++ present_list present.now }
{
    let count = own.len();
    buffer[..count].copy_from_slice(own);
    append_present(buffer, count, present)
}
