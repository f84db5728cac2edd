ghost use Rattle.std.specs.Prelude.{◌≡◌, ◌==◌, ◌+◌, ◌≤◌, ℕ, List, length, drop, map, codes, Ok};
ghost use Rattle.std.specs.Prelude.{Err, IfOk, OnOk, IfErr};
ghost use Rattle.std.specs.List.{position};
ghost use Rattle.mqb_base.specs.Same.{same_bytes};
ghost use Rattle.mqb_picture.specs.Faults.{IsFaultOf};
ghost use Rattle.mqb_picture.specs.Reading.{is_skipped, is_fault, is_given_up, ended, drawn_first};
ghost use Rattle.mqb_picture.specs.Reading.{drawn_from, blank, picture_of, TurnsTo, Stops};

use crate::faults::{Fault, Kind};
use crate::picture::Picture;
use crate::texts::clipped;
use crate::words::{is_word, parts};
use mqb_svg::Element;
use std::alloc::Global;

fn is_skipped(line: &[u8]) -> bool
    ensures { result ≡ is_skipped line.now }
{
    match line {
        [] => true,
        [byte, ..] => *byte == b'#',
    }
}

/// The place of the first line `transcript`.
fn transcript_at(lines: &[&[u8]]) -> Option<usize>
    ensures { result ≡ position (λ line. same_bytes line (codes "transcript"))
        (map (λ line. line.now) lines.now) }
{
    lines.iter().position(|line| is_word(line, b"transcript"))
}

/// Whether a replay was given up with this line.
#[tactic(auto, unfolding(crate::specs::Reading::is_fault))]
fn is_fault(reply: &[u8]) -> bool
    ensures { result ≡ is_fault reply.now }
{
    reply.starts_with(b"fault: ")
}

fn is_given_up(replies: &[&[u8]]) -> bool
    ensures { result ≡ is_given_up (map (λ reply. reply.now) replies.now) }
{
    match replies {
        [reply, ..] => is_fault(reply),
        [] => false,
    }
}

/// Ends a picture with the rest of a transcript.
#[tactic(auto, unfolding(crate::specs::Reading::ended))]
fn end(alloc: Global, picture: &mut Picture, replies: &[&[u8]]) -> Result<(), Fault>
    ensures ok { OnOk result (ended (map (λ reply. reply.now) replies.now) picture.old
        ≡ Ok picture.new) }
    ensures err { IfErr result
        (IsFaultOf (ended (map (λ reply. reply.now) replies.now) picture.old)) }
{
    let [reply, ..] = replies else {
        return Err(Fault::Input(Kind::NoEnd));
    };
    if is_word(reply, b"end") {
        return Ok(());
    }
    if !is_fault(reply) {
        return Err(Fault::Input(Kind::NoEnd));
    }
    let text = clipped(alloc, reply)?;
    picture.add(Element::End { text })?;
    Ok(())
}

/// Draws line `number` with its reply, and tells how many of the replies it has: one, or none
/// where it is not answered.
fn turn(
    alloc: Global,
    picture: &mut Picture,
    number: usize,
    line: &[u8],
    replies: &[&[u8]],
) -> Result<usize, Fault>
    ensures ok { IfOk result
        (λ count. TurnsTo number line.now (map (λ reply. reply.now) replies.now)
        picture.old (map (λ reply. reply.now) (drop count replies.now)) picture.new) }
    ensures within { IfOk result (λ count. count ≤ length replies.now) }
    ensures err { IfErr result (Stops number line.now (map (λ reply. reply.now) replies.now)
        picture.old) }
{
    if is_skipped(line) || is_given_up(replies) {
        return Ok(0);
    }
    let [reply, ..] = replies else {
        return Err(Fault::Input(Kind::NoEnd));
    };
    picture.draw(number, line, reply)?;
    Ok(1)
}

/// Draws the lines of a script and the replies to them.
fn read_lines(alloc: Global, script: &[&[u8]], replies: &[&[u8]]) -> Result<Picture, Fault>
    ensures ok { IfOk result (λ picture. drawn_from 0 (map (λ line. line.now) script.now)
        (map (λ reply. reply.now) replies.now) blank ≡ Ok picture) }
    ensures err { IfErr result (IsFaultOf (drawn_from 0 (map (λ line. line.now) script.now)
        (map (λ reply. reply.now) replies.now) blank)) }
{
    let mut picture = Picture::new(alloc);
    let mut number = 0;
    let mut answered = 0;
    for line in script {
        number += 1;
        answered += turn(alloc, &mut picture, number, line, &replies[answered..])?;
    }
    end(alloc, &mut picture, &replies[answered..])?;
    Ok(picture)
}

/// The picture of a script, a line `transcript`, and what a replay wrote of the script.
#[tactic(auto, unfolding(crate::specs::Reading::picture_of))]
pub fn read_picture(alloc: Global, text: &[u8]) -> Result<Picture, Fault>
    ensures ok { IfOk result (λ picture. picture_of text.now ≡ Ok picture) }
    ensures err { IfErr result (IsFaultOf (picture_of text.now)) }
{
    let lines = parts(alloc, text, b'\n')?;
    let Some(at) = transcript_at(&lines) else {
        return Err(Fault::Input(Kind::NoTranscript));
    };
    read_lines(alloc, &lines[..at], &lines[at + 1..])
}
