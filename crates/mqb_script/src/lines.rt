ghost use Rattle.std.specs.Prelude.{◌≡◌, ◌≤◌, map, IfOk};
ghost use Rattle.std.specs.List.{list_all};
ghost use Rattle.mqb_forms.specs.Faults.{Adds, Reads};
ghost use Rattle.mqb_forms.specs.Plans.{public_of, plan_of, how_of};
ghost use Rattle.mqb_script.specs.Lines.{words_of, is_skipped, is_printable, is_some_word};
ghost use Rattle.mqb_script.specs.Lines.{are_counted, event_of_words, event_of};
ghost use Rattle.mqb_script.specs.Grammar.{at_of, queue_from, commit_from, sent_with, send_event};
ghost use Rattle.mqb_script.specs.Grammar.{take_event, purge_from, tick_from, between_two};
ghost use Rattle.mqb_script.specs.Grammar.{connect_pair, connect_named, connect_from};
ghost use Rattle.mqb_script.specs.Grammar.{disconnect_from, pump_from, deliver_from, drop_from};
ghost use Rattle.mqb_script.specs.Grammar.{flow_from, resend_from, arm_from, restart_from};
ghost use Rattle.mqb_script.specs.Grammar.{roll_from, checkpoint_from, event_from};

use crate::events::Event;
use crate::forms::{Form, form_of};
use crate::grammar::{Grammar, manager_of};
use crate::reading::Script;
use mqb_forms::{
    FEW, LineFault, LineKind, call_of, few_parts, how_of, mode_of, moment_of, ops_of, packet_of,
    parts, pick_of, place_of, plan_of, roll_of, send_of, window_of,
};
use std::alloc::Global;

#[tactic(auto, unfolding(crate::specs::Grammar::at_of))]
fn at_of(grammar: Grammar, manager: &[u8], now: &[u8]) -> Result<(u32, u32), LineKind>
    ensures { result ≡ at_of grammar manager.now now.now }
{
    Ok((manager_of(grammar, manager)?, moment_of(now)?))
}

#[tactic(auto, unfolding(crate::specs::Grammar::queue_from))]
fn queue_from(grammar: Grammar, alloc: Global, words: &[&[u8]]) -> Result<Event, LineFault>
    ensures { Reads (queue_from grammar (map (λ word. word.now) words.now)) result }
{
    let [manager, name, kind, quota, journal, guid @ ..] = words else {
        return Err(LineFault::VALUE);
    };
    let manager = manager_of(grammar, manager)?;
    let plan = plan_of(alloc, name, kind, quota, journal, guid)?;
    Ok(Event::Queue { manager, plan })
}

#[tactic(auto, unfolding(crate::specs::Grammar::commit_from))]
fn commit_from(grammar: Grammar, alloc: Global, words: &[&[u8]]) -> Result<Event, LineFault>
    ensures { Reads (commit_from grammar (map (λ word. word.now) words.now)) result }
{
    let [manager, now, ops @ ..] = words else {
        return Err(LineFault::VALUE);
    };
    let (manager, now) = at_of(grammar, manager, now)?;
    let ops = ops_of(alloc, ops)?;
    Ok(Event::Commit { manager, now, ops })
}

#[tactic(auto, unfolding(crate::specs::Grammar::sent_with))]
fn sent_with(
    grammar: Grammar,
    alloc: Global,
    manager: &[u8],
    now: &[u8],
    kind: &[u8],
    priority: &[u8],
    send: &[u8],
) -> Result<Event, LineFault>
    ensures { Reads (sent_with grammar manager.now now.now kind.now priority.now send.now) result }
{
    let (manager, now) = at_of(grammar, manager, now)?;
    let (recoverable, priority) = how_of(kind, priority)?;
    let draft = send_of(alloc, priority, send)?;
    Ok(Event::Send {
        manager,
        now,
        recoverable,
        draft,
    })
}

#[tactic(auto, unfolding(crate::specs::Grammar::send_event))]
fn send_event(grammar: Grammar, alloc: Global, words: &[&[u8]]) -> Result<Event, LineFault>
    ensures { Reads (send_event grammar (map (λ word. word.now) words.now)) result }
{
    let [manager, now, kind, priority, send] = words else {
        return Err(LineFault::VALUE);
    };
    sent_with(grammar, alloc, manager, now, kind, priority, send)
}

#[tactic(auto, unfolding(crate::specs::Grammar::take_event))]
fn take_event(grammar: Grammar, alloc: Global, words: &[&[u8]]) -> Result<Event, LineFault>
    ensures { Reads (take_event grammar (map (λ word. word.now) words.now)) result }
{
    let [manager, now, place] = words else {
        return Err(LineFault::VALUE);
    };
    let (manager, now) = at_of(grammar, manager, now)?;
    let place = place_of(alloc, place)?;
    Ok(Event::Take {
        manager,
        now,
        place,
    })
}

#[tactic(auto, unfolding(crate::specs::Grammar::purge_from))]
fn purge_from(grammar: Grammar, alloc: Global, words: &[&[u8]]) -> Result<Event, LineFault>
    ensures { Reads (purge_from grammar (map (λ word. word.now) words.now)) result }
{
    let [manager, now, place] = words else {
        return Err(LineFault::VALUE);
    };
    let (manager, now) = at_of(grammar, manager, now)?;
    let place = place_of(alloc, place)?;
    Ok(Event::Purge {
        manager,
        now,
        place,
    })
}

#[tactic(auto, unfolding(crate::specs::Grammar::tick_from))]
fn tick_from(grammar: Grammar, words: &[&[u8]]) -> Result<Event, LineKind>
    ensures { result ≡ tick_from grammar (map (λ word. word.now) words.now) }
{
    let [manager, now] = words else {
        return Err(LineKind::Value);
    };
    let (manager, now) = at_of(grammar, manager, now)?;
    Ok(Event::Tick { manager, now })
}

/// The connection of the two managers of a pair, with the windows of the first one and the second.
fn between_two(initiator: u32, now: u32, first_window: u16, second_window: u16) -> Event
    ensures { result ≡ between_two initiator now first_window second_window }
{
    if initiator == 0 {
        Event::Connect {
            initiator: 0,
            acceptor: 1,
            now,
            initiator_window: first_window,
            acceptor_window: second_window,
        }
    } else {
        Event::Connect {
            initiator: 1,
            acceptor: 0,
            now,
            initiator_window: second_window,
            acceptor_window: first_window,
        }
    }
}

#[tactic(auto, unfolding(crate::specs::Grammar::connect_pair))]
fn connect_pair(words: &[&[u8]]) -> Result<Event, LineKind>
    ensures { result ≡ connect_pair (map (λ word. word.now) words.now) }
{
    let [manager, now, alpha, beta] = words else {
        return Err(LineKind::Value);
    };
    let (initiator, now) = at_of(Grammar::Pair, manager, now)?;
    let alpha_window = window_of(alpha)?;
    let beta_window = window_of(beta)?;
    Ok(between_two(initiator, now, alpha_window, beta_window))
}

#[tactic(auto, unfolding(crate::specs::Grammar::connect_named))]
fn connect_named(grammar: Grammar, words: &[&[u8]]) -> Result<Event, LineKind>
    ensures { result ≡ connect_named grammar (map (λ word. word.now) words.now) }
{
    let [manager, peer, now, own, other] = words else {
        return Err(LineKind::Value);
    };
    let (initiator, now) = at_of(grammar, manager, now)?;
    let acceptor = manager_of(grammar, peer)?;
    let initiator_window = window_of(own)?;
    let acceptor_window = window_of(other)?;
    if initiator == acceptor {
        return Err(LineKind::Value);
    }
    Ok(Event::Connect {
        initiator,
        acceptor,
        now,
        initiator_window,
        acceptor_window,
    })
}

#[tactic(auto, unfolding(crate::specs::Grammar::connect_from))]
fn connect_from(grammar: Grammar, words: &[&[u8]]) -> Result<Event, LineKind>
    ensures { result ≡ connect_from grammar (map (λ word. word.now) words.now) }
{
    match grammar {
        Grammar::Pair => connect_pair(words),
        Grammar::Ring { .. } => connect_named(grammar, words),
    }
}

#[tactic(auto, unfolding(crate::specs::Grammar::disconnect_from))]
fn disconnect_from(grammar: Grammar, words: &[&[u8]]) -> Result<Event, LineKind>
    ensures { result ≡ disconnect_from grammar (map (λ word. word.now) words.now) }
{
    match (grammar, words) {
        (Grammar::Pair, []) => Ok(Event::Disconnect { manager: 0 }),
        (Grammar::Ring { .. }, [manager]) => {
            let manager = manager_of(grammar, manager)?;
            Ok(Event::Disconnect { manager })
        }
        _ => Err(LineKind::Value),
    }
}

#[tactic(auto, unfolding(crate::specs::Grammar::pump_from))]
fn pump_from(grammar: Grammar, words: &[&[u8]]) -> Result<Event, LineKind>
    ensures { result ≡ pump_from grammar (map (λ word. word.now) words.now) }
{
    let [manager, now] = words else {
        return Err(LineKind::Value);
    };
    let (manager, now) = at_of(grammar, manager, now)?;
    Ok(Event::Pump { manager, now })
}

#[tactic(auto, unfolding(crate::specs::Grammar::deliver_from))]
fn deliver_from(words: &[&[u8]]) -> Result<Event, LineKind>
    ensures { result ≡ deliver_from (map (λ word. word.now) words.now) }
{
    let [packet, now] = words else {
        return Err(LineKind::Value);
    };
    let packet = packet_of(packet)?;
    let now = moment_of(now)?;
    Ok(Event::Deliver { packet, now })
}

#[tactic(auto, unfolding(crate::specs::Grammar::drop_from))]
fn drop_from(words: &[&[u8]]) -> Result<Event, LineKind>
    ensures { result ≡ drop_from (map (λ word. word.now) words.now) }
{
    let [packet] = words else {
        return Err(LineKind::Value);
    };
    let packet = packet_of(packet)?;
    Ok(Event::Drop { packet })
}

#[tactic(auto, unfolding(crate::specs::Grammar::flow_from))]
fn flow_from(grammar: Grammar, words: &[&[u8]]) -> Result<Event, LineKind>
    ensures { result ≡ flow_from grammar (map (λ word. word.now) words.now) }
{
    let [manager, now] = words else {
        return Err(LineKind::Value);
    };
    let (manager, now) = at_of(grammar, manager, now)?;
    Ok(Event::Flow { manager, now })
}

#[tactic(auto, unfolding(crate::specs::Grammar::resend_from))]
fn resend_from(grammar: Grammar, words: &[&[u8]]) -> Result<Event, LineKind>
    ensures { result ≡ resend_from grammar (map (λ word. word.now) words.now) }
{
    let [manager] = words else {
        return Err(LineKind::Value);
    };
    let manager = manager_of(grammar, manager)?;
    Ok(Event::Resend { manager })
}

#[tactic(auto, unfolding(crate::specs::Grammar::arm_from))]
fn arm_from(grammar: Grammar, words: &[&[u8]]) -> Result<Event, LineKind>
    ensures { result ≡ arm_from grammar (map (λ word. word.now) words.now) }
{
    let [manager, call, mode] = words else {
        return Err(LineKind::Value);
    };
    let manager = manager_of(grammar, manager)?;
    let call = call_of(call)?;
    let mode = mode_of(mode)?;
    Ok(Event::Arm {
        manager,
        call,
        mode,
    })
}

#[tactic(auto, unfolding(crate::specs::Grammar::restart_from))]
fn restart_from(grammar: Grammar, words: &[&[u8]]) -> Result<Event, LineKind>
    ensures { result ≡ restart_from grammar (map (λ word. word.now) words.now) }
{
    let [manager, pick] = words else {
        return Err(LineKind::Value);
    };
    let manager = manager_of(grammar, manager)?;
    let pick = pick_of(pick)?;
    Ok(Event::Restart { manager, pick })
}

#[tactic(auto, unfolding(crate::specs::Grammar::roll_from))]
fn roll_from(grammar: Grammar, words: &[&[u8]]) -> Result<Event, LineKind>
    ensures { result ≡ roll_from grammar (map (λ word. word.now) words.now) }
{
    let [manager, count] = words else {
        return Err(LineKind::Value);
    };
    let manager = manager_of(grammar, manager)?;
    let count = roll_of(count)?;
    Ok(Event::Roll { manager, count })
}

#[tactic(auto, unfolding(crate::specs::Grammar::checkpoint_from))]
fn checkpoint_from(grammar: Grammar, words: &[&[u8]]) -> Result<Event, LineKind>
    ensures { result ≡ checkpoint_from grammar (map (λ word. word.now) words.now) }
{
    let [manager] = words else {
        return Err(LineKind::Value);
    };
    let manager = manager_of(grammar, manager)?;
    Ok(Event::Checkpoint { manager })
}

/// Adds the event of a line of this form, from the words behind the first one.
#[tactic(auto, unfolding(crate::specs::Grammar::event_from))]
fn add_from(
    script: &mut Script,
    grammar: Grammar,
    alloc: Global,
    number: u32,
    form: Form,
    words: &[&[u8]],
) -> Result<(), LineFault>
    ensures { Adds (λ event. (number, event))
        (event_from grammar form (map (λ word. word.now) words.now))
        script.old script.new result }
{
    let event = match form {
        Form::Queue => queue_from(grammar, alloc, words)?,
        Form::Commit => commit_from(grammar, alloc, words)?,
        Form::Send => send_event(grammar, alloc, words)?,
        Form::Take => take_event(grammar, alloc, words)?,
        Form::Purge => purge_from(grammar, alloc, words)?,
        Form::Tick => tick_from(grammar, words)?,
        Form::Connect => connect_from(grammar, words)?,
        Form::Disconnect => disconnect_from(grammar, words)?,
        Form::Pump => pump_from(grammar, words)?,
        Form::Deliver => deliver_from(words)?,
        Form::Drop => drop_from(words)?,
        Form::Flow => flow_from(grammar, words)?,
        Form::Resend => resend_from(grammar, words)?,
        Form::Arm => arm_from(grammar, words)?,
        Form::Restart => restart_from(grammar, words)?,
        Form::Roll => roll_from(grammar, words)?,
        Form::Checkpoint => checkpoint_from(grammar, words)?,
    };
    script.push(number, event)?;
    Ok(())
}

fn are_some_words(words: &[&[u8]]) -> bool
    ensures { result ≡ list_all is_some_word (map (λ word. word.now) words.now) }
{
    for word in words {
        if word.is_empty() {
            return false;
        }
    }
    true
}

#[tactic(auto, using(crate::proofs::Counts::counting), unfolding(crate::specs::Lines::are_counted))]
fn are_counted(grammar: Grammar, form: Form, words: &[&[u8]]) -> bool
    ensures { result ≡ are_counted grammar form (map (λ word. word.now) words.now) }
{
    are_some_words(words) && form.has_count(grammar, words.len())
}

#[tactic(auto, unfolding(crate::specs::Lines::event_of_words))]
fn add_words(
    script: &mut Script,
    grammar: Grammar,
    alloc: Global,
    number: u32,
    words: &[&[u8]],
) -> Result<(), LineFault>
    ensures { Adds (λ event. (number, event))
        (event_of_words grammar (map (λ word. word.now) words.now))
        script.old script.new result }
{
    let [word, words @ ..] = words else {
        return Err(LineFault::Faulty(LineKind::Word));
    };
    let form = form_of(word)?;
    if !are_counted(grammar, form, words) {
        return Err(LineFault::Faulty(LineKind::Count));
    }
    add_from(script, grammar, alloc, number, form, words)
}

/// Adds the event of a line of any number of words.
fn add_long(
    script: &mut Script,
    grammar: Grammar,
    alloc: Global,
    number: u32,
    line: &[u8],
) -> Result<(), LineFault>
    ensures { Adds (λ event. (number, event)) (event_of_words grammar (words_of line.now))
        script.old script.new result }
{
    let words = parts(alloc, line, b' ')?;
    add_words(script, grammar, alloc, number, words.as_slice())
}

pub(crate) fn are_printable(line: &[u8]) -> bool
    ensures { result ≡ list_all is_printable line.now }
{
    let mut all = true;
    for byte in line {
        all &= matches!(*byte, 0x20..=0x7E);
    }
    all
}

/// Adds the event of the line of a number. An event is large, so it goes to the script at once, and
/// not through the answer of each function.
#[tactic(auto, unfolding(crate::specs::Lines::event_of))]
pub(crate) fn add_event(
    script: &mut Script,
    grammar: Grammar,
    alloc: Global,
    number: u32,
    line: &[u8],
) -> Result<(), LineFault>
    ensures { Adds (λ event. (number, event))
        (event_of grammar line.now) script.old script.new result }
{
    if !are_printable(line) {
        return Err(LineFault::Faulty(LineKind::Byte));
    }
    let mut room = [line; FEW];
    match few_parts(line, b' ', &mut room) {
        Some(count) => add_words(script, grammar, alloc, number, &room[..count]),
        None => add_long(script, grammar, alloc, number, line),
    }
}

pub(crate) fn is_skipped(line: &[u8]) -> bool
    ensures { result ≡ is_skipped line.now }
{
    match line {
        [] => true,
        [first, ..] => *first == b'#',
    }
}
