ghost use Rattle.std.specs.Prelude.{◌≡◌, ◌≤◌, length, map, Ok, IfOk, IfErr, IfSome};
ghost use Rattle.mqb_forms.specs.Faults.{Reads};
ghost use Rattle.mqb_script.specs.Reading.{LONGEST, MOST_LINES, line_count, ReadsScript};
ghost use Rattle.mqb_script.specs.Reading.{ReadCause, IsScriptFault};
ghost use Rattle.mqb_script.specs.Ring.{IsRing, count_from, count_in, ring_of};

use crate::faults::{ScriptFault, at_line};
use crate::grammar::Grammar;
use crate::lines::{are_printable, is_skipped};
use crate::reading::{Script, read_text, script_from};
use mqb_forms::{LineFault, LineKind, is_word, number_in, parts};
use mqb_outside::Source;
use std::alloc::Global;

/// The script of a ring: how many managers it has, by the line of this number, and the events of
/// the lines behind that one.
#[derive(Debug, Drop)]
pub struct RingScript {
    pub line: u32,
    pub count: u32,
    pub script: Script,
}

/// The greatest count of managers.
const MAX_MANAGERS: u32 = 8;

#[tactic(auto, unfolding(crate::specs::Ring::count_from))]
fn count_from(words: &[&[u8]]) -> Result<u32, LineKind>
    ensures { result ≡ count_from (map (λ word. word.now) words.now) }
{
    let [word, words @ ..] = words else {
        return Err(LineKind::Word);
    };
    if !is_word(word, b"managers") {
        return Err(LineKind::Word);
    }
    match words {
        [count] if !count.is_empty() => number_in(2, MAX_MANAGERS, count),
        _ => Err(LineKind::Count),
    }
}

/// How many managers the first line says.
#[tactic(auto, unfolding(crate::specs::Ring::count_in))]
fn count_in(alloc: Global, line: &[u8]) -> Result<u32, LineFault>
    ensures { Reads (count_in line.now) result }
{
    if !are_printable(line) {
        return Err(LineFault::Faulty(LineKind::Byte));
    }
    let words = parts(alloc, line, b' ')?;
    let count = count_from(words.as_slice())?;
    Ok(count)
}

/// The script of a ring that a text is, or the first of its lines that fails. Where it has no lines
/// but those that are skipped, it is a script of any ring.
fn ring_of(alloc: Global, text: &[u8]) -> Result<Option<RingScript>, ScriptFault>
    requires { length text.now ≤ LONGEST }
    ensures script { IfOk result (λ script. ring_of text.now ≡ Ok script) }
    ensures fault { IfErr result (IsScriptFault (ring_of text.now)) }
{
    let lines = parts(alloc, text, b'\n')?;
    let mut number = 0;
    for line in &lines {
        number += 1;
        if is_skipped(line) {
            continue;
        }
        let count = count_in(alloc, line).map_err(|fault| at_line(number, fault))?;
        let behind = &lines[number as usize..];
        let script = script_from(Grammar::Ring { count }, alloc, number, behind)?;
        return Ok(Some(RingScript {
            line: number,
            count,
            script,
        }));
    }
    Ok(None)
}

/// Reads a script of a ring whole: its first line says how many managers there are, and the others
/// are those of a script. `None` where it has no lines.
#[tactic(auto, using(crate::proofs::Unread::unread))]
pub fn read_ring<S: Source>(
    alloc: Global,
    source: &mut S,
) -> Result<Option<RingScript>, ScriptFault>
    ensures reads { ReadsScript ring_of (S.held source.old) (S.held source.new) result }
    ensures kept { IfOk result (λ ring. IfSome ring IsRing) }
    ensures cause { ReadCause (S.read_faults source.old) (S.read_faults source.new) result }
{
    let text = read_text(alloc, source)?;
    ring_of(alloc, text.as_slice())
}
