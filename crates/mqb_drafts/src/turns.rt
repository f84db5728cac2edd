ghost use Rattle.std.specs.Prelude.{◌≡◌, ◌≤◌, [], IfOk, length};
ghost use Rattle.mqb_contents.specs.Changes.{AllReady, messages, messages_back};
ghost use Rattle.mqb_contents.specs.Changes.{redone, rooms_redone};

use crate::logs::Log;
use mqb_base::Memory;
use mqb_contents::Contents;
use std::alloc::Global;

/// Makes the changes of a log, and puts the changes back onto another. It takes no memory.
fn turn(contents: &mut Contents, from: &mut Log, onto: &mut Log)
    requires ready { AllReady contents.old from.old.items }
    requires room { length from.old.items ≤ onto.old.room }
    requires empty { onto.old.items ≡ [] }
    ensures made { contents.new.lists ≡ redone contents.old.lists from.old.items }
    ensures rooms { contents.new.rooms ≡ rooms_redone contents.old.rooms from.old.items }
    ensures back { redone contents.new.lists onto.new.items ≡ contents.old.lists }
    ensures ready { AllReady contents.new onto.new.items }
    ensures messages { messages onto.new.items ≡ messages_back from.old.items }
{
    while let Some(change) = from.pop() {
        let back = contents.change(change);
        onto.push(back);
    }
}

/// Makes the changes of a log. It takes no memory.
pub fn redo(contents: &mut Contents, mut log: Log)
    requires { AllReady contents.old log.items }
    ensures lists { contents.new.lists ≡ redone contents.old.lists log.items }
    ensures rooms { contents.new.rooms ≡ rooms_redone contents.old.rooms log.items }
{
    while let Some(change) = log.pop() {
        contents.change(change).discard();
    }
    log.discard();
}

/// Makes the changes of a log, and answers the changes back. They are made also where there is
/// no memory for those.
pub fn turned(contents: &mut Contents, mut log: Log, alloc: Global) -> Result<Log, Memory>
    requires { AllReady contents.old log.items }
    ensures lists { contents.new.lists ≡ redone contents.old.lists log.items }
    ensures rooms { contents.new.rooms ≡ rooms_redone contents.old.rooms log.items }
    ensures back { IfOk result (λ r. redone contents.new.lists r.items ≡ contents.old.lists) }
    ensures ready { IfOk result (λ r. AllReady contents.new r.items) }
    ensures messages { IfOk result (λ r. messages r.items ≡ messages_back log.items) }
{
    let mut back = Log::new(alloc);
    match back.make_room(log.len()) {
        Ok(()) => {
            turn(contents, &mut log, &mut back);
            log.discard();
            Ok(back)
        }
        Err(Memory) => {
            redo(contents, log);
            back.discard();
            Err(Memory)
        }
    }
}
