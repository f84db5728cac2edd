//! Which words there are, with an example of each, their forms, and which version this is.
ghost use Rattle.std.specs.Prelude.{◌≡◌};
ghost use Rattle.mqb_commands.specs.Helps.{help_text, version_text};

pub const HELP: &[u8] =
    b"The program mqb replays scripts over two queue managers, and is one queue manager on the file STORE.
Each row is followed by examples, which work in this order where from_alpha.bin has packets.

mqb replay                          replays the script from the input
    mqb replay < examples/one_message.mqb
mqb make N                          makes a script of 1 to 10000 orders
    mqb make 200 > orders.mqb
mqb trial N                         replays the script of 1 to 10000 orders and counts what became of them
    mqb trial 200
mqb init STORE HOST GUID ADDRESS    makes an empty or absent file the store of a manager
    mqb init alpha.store alpha 0a0b0c0d-1112-1314-1516-1718191a1b1c 127.0.0.1
    mqb init beta.store beta 2a2b2c2d-3132-3334-3536-3738393a3b3c 127.0.0.2
mqb peer STORE HOST GUID ADDRESS    adds a manager that it knows
    mqb peer alpha.store beta 2a2b2c2d-3132-3334-3536-3738393a3b3c 127.0.0.2
    mqb peer beta.store alpha 0a0b0c0d-1112-1314-1516-1718191a1b1c 127.0.0.1
mqb create STORE NAME tx|plain QUOTA journal|none [GUID]    creates a queue
    mqb create alpha.store replies tx 100 none
    mqb create beta.store orders tx 100 journal
    mqb create beta.store notes plain 100 none
mqb send STORE express|recoverable PRIORITY SEND            sends a message outside of transactions
    mqb send alpha.store recoverable 3 'send,DIRECT=OS:beta\\PRIVATE$\\notes,-,-,-,-,-,hello'
mqb commit STORE OP ..              makes a transaction of sends and takes
    mqb commit alpha.store 'send,DIRECT=OS:alpha\\PRIVATE$\\replies,-,-,-,-,-,one'
    mqb commit alpha.store 'send,DIRECT=OS:beta\\PRIVATE$\\orders,-,-,-,-,-,two' take,replies
mqb serve STORE COUNT               serves connections of peers one after another, on port 1801
    mqb serve beta.store 1 &
mqb push STORE HOST [ADDRESS]       sends to a peer what waits for it, at another address than its own if one is named
    mqb push alpha.store beta
mqb attend STORE SECONDS            serves peers that come, one after another, until none came for 1 to 3600 seconds
    mqb attend beta.store 3 &
mqb fetch STORE HOST [ADDRESS] [SECONDS]    is a push that takes what waits at the peer, too, until nothing came for 1 to 3600 seconds (5)
    mqb fetch alpha.store beta 2
mqb peek STORE PLACE [COUNT]        shows the first message of a place, or so many, and takes none
    mqb peek beta.store orders 2
mqb take STORE PLACE                takes a message and prints its body in hexadecimal
    mqb take beta.store orders
mqb purge STORE PLACE               empties a place
    mqb purge beta.store 'orders;journal'
mqb tick STORE                      removes what is due
    mqb tick alpha.store
mqb roll STORE COUNT                sets how many messages a sequence has
    mqb roll alpha.store 1000
mqb checkpoint STORE                writes what the manager holds anew, in place of its records
    mqb checkpoint alpha.store
mqb list STORE                      lists what the manager holds
    mqb list alpha.store
mqb shell STORE                     does what the lines of the input ask, each without mqb and STORE, and ends each answer with its status
    printf 'take replies\\nlist\\n' | mqb shell alpha.store
mqb probe STORE                     serves one connection over input and output
    mqb probe beta.store < from_alpha.bin > to_alpha.bin
mqb show                            shows the packets of the input
    mqb show < to_alpha.bin
mqb --help                          says this
    mqb --help
mqb --version                       says which version this is
    mqb --version

Words:
    STORE       a file; one program at a time writes it
    NAME, HOST  1 to 64 bytes from ! to ~, none of them \\ ; = or ,
    PLACE       NAME, a queue; 'NAME;journal', its journal; or ';deadletter', ';deadxact', ';journal' of the manager
    OP          take,NAME or a SEND
    SEND        send,DEST,REACH,LIFE,FLAGS,ADMIN,RESPONSE,TEXT
    DEST        DIRECT=OS:HOST\\PRIVATE$\\NAME, DIRECT=TCP:ADDRESS\\PRIVATE$\\NAME or PUBLIC=GUID
    REACH, LIFE the seconds to reach the queue and to be received, 0 to 4294967294; or - without limit
    FLAGS       letters of djprnm in this order, or -: d dead letter, j journal, p r n m what ADMIN is told
    ADMIN       the queue that is told, as DEST, or -
    RESPONSE    the queue for an answer, as DEST, or -
    TEXT        the body, bytes from ! to ~ without comma; or * and the number of its bytes x, up to 4194304

Environment:
    MQB_PORT    the port, a number from 1 to 65535 (1801)
    MQB_WAIT    the milliseconds that a silent peer is waited for (60000)
    MQB_HOLD    the seconds that a store in use is waited for (10)

Exit statuses, which standard error explains:
    0   the command did its work to the end
    2   the words are no command, or the environment has no number where one is wanted
    3   the script is faulty, or too long
    4   the input failed
    5   the output failed
    6   the disk failed, or the store cannot be opened, or is in use
    7   there was no connection, or it was lost
    8   the file is no store; of init: it is not empty
    9   what came ended badly, or does not fit
    10  memory ran out
    11  refused, and nothing changed
";

pub const VERSION: &[u8] = b"mqb 0.1.0\n";

/// The words that there are, with an example of each, what the environment sets,
/// and the exit statuses.
#[tactic(auto, unfolding(crate::specs::Helps::help_text))]
pub fn help() -> &'static [u8]
    ensures { result.now ≡ help_text }
{
    HELP
}

/// Which version this is.
#[tactic(auto, unfolding(crate::specs::Helps::version_text))]
pub fn version() -> &'static [u8]
    ensures { result.now ≡ version_text }
{
    VERSION
}
