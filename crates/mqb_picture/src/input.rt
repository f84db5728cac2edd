ghost use Rattle.std.specs.Prelude.{◌≡◌, IfOk, IfErr, OnOk};
ghost use Rattle.mqb_picture.specs.Input.{IsWhole, IsPart, InputCause};

use mqb_outside::Source;
use std::alloc::Global;

/// Why an input was not taken whole.
#[derive(Clone, Copy)]
pub enum InputFault {
    TooLong,
    Failed,
    Memory,
}

/// The greatest length of an input.
const MAX_LENGTH: usize = 1_048_576;

/// Takes all bytes of a source, up to the longest input.
pub fn read_all<S: Source>(alloc: Global, source: &mut S) -> Result<Vec<u8>, InputFault>
    ensures whole { IfOk result (λ t. IsWhole (S.held source.old) (S.held source.new) t.items) }
    ensures part { IfErr result (IsPart (S.held source.old) (S.held source.new)) }
    ensures quiet { OnOk result (S.read_faults source.new ≡ S.read_faults source.old) }
    ensures cause { IfErr result (InputCause (S.read_faults source.old)
        (S.read_faults source.new)) }
{
    let mut text = Vec::new(alloc);
    let mut buffer = [0; 4096];
    loop {
        let Ok(count) = source.read(&mut buffer) else {
            return Err(InputFault::Failed);
        };
        if count == 0 {
            return Ok(text);
        }
        if text.len() + count > MAX_LENGTH {
            return Err(InputFault::TooLong);
        }
        if text.extend_from_slice(&buffer[..count]).is_err() {
            return Err(InputFault::Memory);
        }
    }
}
