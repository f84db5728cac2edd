ghost use Rattle.mqb_script.specs.declared.grammar.Grammar.TheVariants.{Pair};
ghost use Rattle.std.specs.Prelude.{◌≡◌, ◌+◌, map, ◌==◌, ◌≤◌, ◌++◌, ◌∷◌, [], false, length, Ok};
ghost use Rattle.std.specs.Prelude.{Err, IfOk, IfErr, OnOk, OnErr};
ghost use Rattle.std.specs.List.{AllByRecursion, count_by};
ghost use Rattle.mqb_script.specs.Lines.{is_skipped, event_of};
ghost use Rattle.mqb_script.specs.Script.{numbered, script_from, script_of};
ghost use Rattle.mqb_script.specs.Reading.{LONGEST, MOST_LINES, line_count, ReadsScript, IsUnread};
ghost use Rattle.mqb_script.specs.Reading.{IsCause, ReadCause, ReadsLine, IsScriptFault, IsWhole};
ghost use Rattle.mqb_script.specs.Formed.{IsFormed};

use crate::events::Event;
use crate::faults::{ScriptFault, at_line};
use crate::grammar::Grammar;
use crate::lines::{add_event, is_skipped};
use mqb_base::Memory;
use mqb_forms::parts;
use mqb_outside::Source;
use std::alloc::Global;
use std::marker::Model;

/// The events of a script, each with the number of its line. Contracts see the list of pairs.
#[derive(Debug, Drop)]
pub struct Script {
    events: Vec<(u32, Event)>,
}

impl Model for Script {
    ghost use Rattle.std.specs.Prelude.{ℕ, List};
    ghost use Rattle.mqb_script.specs.declared.events.Event.{Event};

    ghost Value = { List (ℕ × Event) };

    ghost view = { λ s. s.events.items };
}

impl Script {
    pub fn events(&self) -> &[(u32, Event)]
        ensures { result.now ≡ self.now }
    {
        self.events.as_slice()
    }

    /// Adds the event of the line of a number.
    pub(crate) fn push(&mut self, number: u32, event: Event) -> Result<(), Memory>
        ensures ok { OnOk result (self.new ≡ self.old ++ (number, event) ∷ []) }
        ensures err { OnErr result (self.new ≡ self.old) }
    {
        self.events.push((number, event))?;
        Ok(())
    }

    /// Adds the event of a line, where it is not one that is skipped.
    #[tactic(auto, using(crate::proofs::Faulty::at_line_fault))]
    fn read_line(
        &mut self,
        grammar: Grammar,
        alloc: Global,
        number: u32,
        line: &[u8],
    ) -> Result<(), ScriptFault>
        ensures line { OnOk result (ReadsLine grammar number line.now self.old self.new) }
        ensures kept { IfErr result (λ _. is_skipped line.now ≡ false) }
        ensures fault { IfErr result (IsScriptFault (numbered number (event_of grammar line.now))) }
    {
        if is_skipped(line) {
            return Ok(());
        }
        add_event(self, grammar, alloc, number, line).map_err(|fault| at_line(number, fault))
    }
}

/// The greatest length of a script in bytes.
const MAX_LENGTH: usize = 16_777_216;

/// The greatest count of its lines.
const MAX_LINES: usize = 200_000;

/// Takes all bytes of a source, up to the longest script.
fn read_all<S: Source>(alloc: Global, source: &mut S) -> Result<Vec<u8>, ScriptFault>
    ensures whole { IfOk result (λ t. IsWhole (S.held source.old) (S.held source.new) t.items) }
    ensures fault { IfErr result (IsUnread (S.held source.old) (S.held source.new)) }
    ensures quiet { OnOk result (S.read_faults source.new ≡ S.read_faults source.old) }
    ensures cause { IfErr result (IsCause (S.read_faults source.old) (S.read_faults source.new)) }
{
    let mut text = Vec::new(alloc);
    let mut buffer = [0; 4096];
    loop {
        let Ok(count) = source.read(&mut buffer) else {
            return Err(ScriptFault::ReadFault);
        };
        if count == 0 {
            return Ok(text);
        }
        if text.len() + count > MAX_LENGTH {
            return Err(ScriptFault::TooLong);
        }
        if text.extend_from_slice(&buffer[..count]).is_err() {
            return Err(ScriptFault::Memory);
        }
    }
}

fn line_feeds(text: &[u8]) -> usize
    ensures { result ≡ count_by (λ b. b == 10) text.now }
{
    text.iter().filter(|byte| **byte == b'\n').count()
}

/// The lines of a text: the first one, and one behind each line feed that is not its last byte.
fn line_count(text: &[u8]) -> usize
    ensures { result ≡ line_count text.now }
{
    let [front @ .., _] = text else {
        return 0;
    };
    line_feeds(front) + 1
}

/// The script that these lines are, whose numbers go on behind this one, or the
/// first of them that fails.
pub(crate) fn script_from(
    grammar: Grammar,
    alloc: Global,
    before: u32,
    lines: &[&[u8]],
) -> Result<Script, ScriptFault>
    requires { before + length lines.now ≤ LONGEST + 1 }
    ensures script { IfOk result (λ script. script_from grammar (before + 1)
        (map (λ line. line.now) lines.now) ≡ Ok script) }
    ensures fault { IfErr result (IsScriptFault (script_from grammar (before + 1)
        (map (λ line. line.now) lines.now))) }
{
    let mut script = Script {
        events: Vec::new(alloc),
    };
    let mut number = before;
    for line in lines {
        number += 1;
        script.read_line(grammar, alloc, number, line)?;
    }
    Ok(script)
}

/// The script that a text is, or the first of its lines that fails.
fn script_of(alloc: Global, text: &[u8]) -> Result<Script, ScriptFault>
    requires { length text.now ≤ LONGEST }
    ensures script { IfOk result (λ script. script_of text.now ≡ Ok script) }
    ensures fault { IfErr result (IsScriptFault (script_of text.now)) }
{
    let lines = parts(alloc, text, b'\n')?;
    script_from(Grammar::Pair, alloc, 0, lines.as_slice())
}

/// The text of a script, which was read to its end and is within the limits.
pub(crate) fn read_text<S: Source>(alloc: Global, source: &mut S) -> Result<Vec<u8>, ScriptFault>
    ensures whole { IfOk result (λ t. IsWhole (S.held source.old) (S.held source.new) t.items) }
    ensures few { IfOk result (λ t. line_count t.items ≤ MOST_LINES) }
    ensures fault { IfErr result (IsUnread (S.held source.old) (S.held source.new)) }
    ensures quiet { OnOk result (S.read_faults source.new ≡ S.read_faults source.old) }
    ensures cause { IfErr result (IsCause (S.read_faults source.old) (S.read_faults source.new)) }
{
    let text = read_all(alloc, source)?;
    if line_count(text.as_slice()) > MAX_LINES {
        return Err(ScriptFault::TooManyLines);
    }
    Ok(text)
}

/// Reads a script of a pair whole. Its lines are looked at only once the input was read to its end,
/// and they are counted first.
#[tactic(auto, using(crate::proofs::Unread::unread))]
pub fn read_script<S: Source>(alloc: Global, source: &mut S) -> Result<Script, ScriptFault>
    ensures reads { ReadsScript script_of (S.held source.old) (S.held source.new) result }
    ensures formed { IfOk result (λ script. AllByRecursion (λ e. IsFormed Pair e.1) script) }
    ensures few { IfOk result (λ script. length script ≤ MOST_LINES) }
    ensures cause { ReadCause (S.read_faults source.old) (S.read_faults source.new) result }
{
    let text = read_text(alloc, source)?;
    script_of(alloc, text.as_slice())
}
