ghost use Rattle.std.specs.Prelude.{◌≡◌, ◌⊎◌, [], false, map, IfSome, Some};
ghost use Rattle.std.specs.String.{string_bytes};
ghost use Rattle.mqb.specs.Completeness.{Completes};
ghost use Rattle.mqb.specs.Runs.{Asks, DiskCause, Does, IsDiskFaultOf, NetCause, Outside};
ghost use Rattle.mqb.specs.Runs.{Runs, UsageHasCause};
ghost use Rattle.mqb.specs.Uses.{has_input, has_net, has_script};
ghost use Rattle.mqb_connections.specs.Causes.{NetFaultHasCause};
ghost use Rattle.mqb_replay.specs.Devices.{devices};
ghost use Rattle.mqb_commands.specs.Outputs.{ReadFaultHasCause, WriteFaultHasCause};
ghost use Rattle.mqb_words.specs.Formed.{IsFormed};
ghost use Rattle.mqb_words.specs.Stores.{has_store};
ghost use Rattle.mqb_words.specs.Words.{command_of};

use crate::saying::{
    say_called, say_checkpointed, say_formatted, say_listed, say_made, say_peeked,
};
use mqb_commands::{Status, help, show, tell, version};
use mqb_connections::{attend, probe, reach, serve};
use mqb_net::PatientNet;
use mqb_outside::{Clock, Disk, Medium, Power, Sink, Source};
use mqb_replay::{replay, status_of, trial};
use mqb_serving::Errand;
use mqb_shell::run_shell;
use mqb_words::{Command, WordsFault, command_of};
use std::alloc::Global;

/// Does a command.
fn run_command<S: Source, K: Sink, D: Disk, P: Power, M: Medium, N: PatientNet, C: Clock>(
    alloc: Global,
    asked: &Command,
    input: &mut S,
    out: &mut K,
    disk: &mut D,
    first: &mut P,
    second: &mut P,
    medium: &mut M,
    net: &mut N,
    clock: &mut C,
) -> Status
    requires formed { IsFormed asked.now }
    requires medium { M.strings medium.old ≡ [] }
    ensures does { let io : Outside = record {
      held = S.held input.old;
      held_now = S.held input.new;
      taken = K.taken out.old;
      taken_now = K.taken out.new;
      disk = D.view disk.old;
      disk_now = D.view disk.new;
      devices = devices (M.strings medium.old) (P.view first.old) (P.view second.old);
      devices_now = devices (M.strings medium.new) (P.view first.new) (P.view second.new);
      net = record {
        finished = N.finished net.old;
        finished_now = N.finished net.new;
        faults = N.faults net.old;
        faults_now = N.faults net.new;
        lost = N.lost net.old;
        lost_now = N.lost net.new;
        idle = N.idle net.old;
        idle_now = N.idle net.new;
      };
      moment = C.steady clock.old;
      asked = C.asked clock.old;
      asked_now = C.asked clock.new;
    } in
        Does asked.now io result }
    ensures input { has_input asked.now ≡ false → input.new ≡ input.old }
    ensures store { has_store asked.now ≡ false → disk.new ≡ disk.old }
    ensures devices { has_script asked.now ≡ false
        → (first.new ≡ first.old) × (second.new ≡ second.old) × (medium.new ≡ medium.old) }
    ensures net { has_net asked.now ≡ false → net.new ≡ net.old }
    ensures complete { Completes (Some asked.now) (D.view disk.old)
        (devices (M.strings medium.old) (P.view first.old) (P.view second.old))
        (S.held input.old) (record {
          input = S.read_faults input.old;
          output = K.write_faults out.old;
          disk = (D.view disk.old).faults;
          net = N.faults net.old;
          lost = N.lost net.old;
        }) (record {
          input = S.read_faults input.new;
          output = K.write_faults out.new;
          disk = (D.view disk.new).faults;
          net = N.faults net.new;
          lost = N.lost net.new;
        }) result }
    ensures asked { Asks (Some asked.now) (N.finished net.old) (N.finished net.new)
        (C.asked clock.old) (C.asked clock.new) }
    ensures usage { UsageHasCause (Some asked.now) result }
    ensures read_fault { ReadFaultHasCause (S.read_faults input.old) (S.read_faults input.new)
        result }
    ensures write_fault { WriteFaultHasCause (K.write_faults out.old) (K.write_faults out.new)
        result }
    ensures disk_fault { IsDiskFaultOf (DiskCause (Some asked.now)
        (D.view disk.old).faults (D.view disk.new).faults
        (devices (M.strings medium.old) (P.view first.old) (P.view second.old))
        (devices (M.strings medium.new) (P.view first.new) (P.view second.new))) result }
    ensures net_fault { NetFaultHasCause (NetCause (Some asked.now)
        (N.faults net.old) (N.faults net.new) (N.lost net.old) (N.lost net.new)) result }
    ensures unfinished { N.unfinished net.new ≡ N.unfinished net.old }
{
    match asked {
        Command::Replay => status_of(replay(alloc, input, out, first, second, medium)),
        Command::Make { orders } => say_made(alloc, *orders, out),
        Command::Trial { orders } => status_of(trial(alloc, *orders, out, first, second, medium)),
        Command::Show => show(alloc, input, out),
        Command::Init { identity } => say_formatted(alloc, identity, out, disk),
        Command::Call(call) => say_called(alloc, call, out, disk, clock),
        Command::Checkpoint => say_checkpointed(alloc, out, disk),
        Command::List => say_listed(alloc, out, disk),
        Command::Peek { place, count } => say_peeked(alloc, place, *count, out, disk, clock),
        Command::Probe => probe(alloc, input, out, disk, clock),
        Command::Shell => run_shell(alloc, input, out, disk, net, clock),
        Command::Serve { count } => serve(alloc, *count, out, disk, net, clock),
        Command::Attend { seconds } => attend(alloc, *seconds, out, disk, net, clock),
        Command::Push { host, address } => {
            reach(alloc, Errand::Push, *address, host, out, disk, net, clock)
        }
        Command::Fetch { host, address, .. } => {
            reach(alloc, Errand::Fetch, *address, host, out, disk, net, clock)
        }
        Command::Help => tell(out, help(), Status::Done),
        Command::Version => tell(out, version(), Status::Done),
    }
}

/// Does what the words of a command line ask for. `disk` is the store of a command that has
/// one; `first` and `second` are those of alpha and beta in a replay, and `medium`, which is
/// empty, keeps its packets.
pub fn run<S: Source, K: Sink, D: Disk, P: Power, M: Medium, N: PatientNet, C: Clock>(
    alloc: Global,
    words: &[String],
    input: &mut S,
    out: &mut K,
    disk: &mut D,
    first: &mut P,
    second: &mut P,
    medium: &mut M,
    net: &mut N,
    clock: &mut C,
) -> Status
    requires { M.strings medium.old ≡ [] }
    // What is written, by command, and what the disks and the medium are left as; or memory ran out
    // before the words were read, and everything outside is as it was.
    ensures ran { let io : Outside = record {
      held = S.held input.old;
      held_now = S.held input.new;
      taken = K.taken out.old;
      taken_now = K.taken out.new;
      disk = D.view disk.old;
      disk_now = D.view disk.new;
      devices = devices (M.strings medium.old) (P.view first.old) (P.view second.old);
      devices_now = devices (M.strings medium.new) (P.view first.new) (P.view second.new);
      net = record {
        finished = N.finished net.old;
        finished_now = N.finished net.new;
        faults = N.faults net.old;
        faults_now = N.faults net.new;
        lost = N.lost net.old;
        lost_now = N.lost net.new;
        idle = N.idle net.old;
        idle_now = N.idle net.new;
      };
      moment = C.steady clock.old;
      asked = C.asked clock.old;
      asked_now = C.asked clock.new;
    } in
        Runs (command_of (map string_bytes words.now)) io result ⊎ ((result ≡ Status.Memory)
        × (input.new ≡ input.old) × (out.new ≡ out.old) × (disk.new ≡ disk.old)
        × (first.new ≡ first.old) × (second.new ≡ second.old) × (medium.new ≡ medium.old)
        × (net.new ≡ net.old) × (clock.new ≡ clock.old)) }

    // What a command does not use stays as it was.
    ensures input { IfSome (command_of (map string_bytes words.now)) (λ c. has_input c ≡ false)
        → input.new ≡ input.old }
    ensures store { IfSome (command_of (map string_bytes words.now)) (λ c. has_store c ≡ false)
        → disk.new ≡ disk.old }
    ensures devices { IfSome (command_of (map string_bytes words.now)) (λ c. has_script c ≡ false)
        → (first.new ≡ first.old) × (second.new ≡ second.old) × (medium.new ≡ medium.old) }
    ensures net { IfSome (command_of (map string_bytes words.now)) (λ c. has_net c ≡ false)
        → net.new ≡ net.old }

    // Where no device fails and the store is sound, each command ends well, or memory ran out.
    ensures complete { Completes (command_of (map string_bytes words.now)) (D.view disk.old)
        (devices (M.strings medium.old) (P.view first.old) (P.view second.old))
        (S.held input.old) (record {
          input = S.read_faults input.old;
          output = K.write_faults out.old;
          disk = (D.view disk.old).faults;
          net = N.faults net.old;
          lost = N.lost net.old;
        }) (record {
          input = S.read_faults input.new;
          output = K.write_faults out.new;
          disk = (D.view disk.new).faults;
          net = N.faults net.new;
          lost = N.lost net.new;
        }) result }

    // How often the clock is asked.
    ensures asked { Asks (command_of (map string_bytes words.now)) (N.finished net.old)
        (N.finished net.new) (C.asked clock.old) (C.asked clock.new) }

    // Where each fault comes from.
    ensures usage { UsageHasCause (command_of (map string_bytes words.now)) result }
    ensures read_fault { ReadFaultHasCause (S.read_faults input.old) (S.read_faults input.new)
        result }
    ensures write_fault { WriteFaultHasCause (K.write_faults out.old) (K.write_faults out.new)
        result }
    ensures disk_fault { IsDiskFaultOf (DiskCause (command_of (map string_bytes words.now))
        (D.view disk.old).faults (D.view disk.new).faults
        (devices (M.strings medium.old) (P.view first.old) (P.view second.old))
        (devices (M.strings medium.new) (P.view first.new) (P.view second.new))) result }
    ensures net_fault { NetFaultHasCause (NetCause (command_of (map string_bytes words.now))
        (N.faults net.old) (N.faults net.new) (N.lost net.old) (N.lost net.new)) result }

    // Each connection that the net gave is finished.
    ensures unfinished { N.unfinished net.new ≡ N.unfinished net.old }
{
    match command_of(alloc, words) {
        Ok(command) => run_command(
            alloc, &command, input, out, disk, first, second, medium, net, clock,
        ),
        Err(WordsFault::Usage) => tell(out, b"fault: usage\n", Status::Usage),
        Err(WordsFault::Memory) => Status::Memory,
    }
}
