ghost use Rattle.std.specs.Prelude.{IfOk};
ghost use Rattle.mqb_inspect.specs.Input.{InputCause, IsTaken};

use mqb_capture::MAX_CAPTURE;
use mqb_outside::Source;
use std::alloc::Global;

/// Why the bytes of a source were not taken.
#[derive(Clone, Copy)]
pub enum InputFault {
    Failed,
    Memory,
}

/// So many bytes are looked at.
const LIMIT: usize = MAX_CAPTURE as usize;

/// Takes the bytes of a source, up to so many as are looked at, and asks for no more.
pub fn read_most<S: Source>(alloc: Global, source: &mut S) -> Result<Vec<u8>, InputFault>
    ensures taken { IfOk result (λ t. IsTaken (S.held source.old) (S.held source.new) t.items) }
    ensures cause { InputCause (S.read_faults source.old) (S.read_faults source.new) result }
{
    let mut text = Vec::new(alloc);
    let mut buffer = [0; 4096];
    while text.len() < LIMIT {
        let room = buffer.len().min(LIMIT - text.len());
        let Ok(count) = source.read(&mut buffer[..room]) else {
            return Err(InputFault::Failed);
        };
        if count == 0 {
            return Ok(text);
        }
        if text.extend_from_slice(&buffer[..count]).is_err() {
            return Err(InputFault::Memory);
        }
    }
    Ok(text)
}
