//! An order of alpha to beta: the stores of both, what comes over a connection, and what `list` says of the stores then.
use mqb_base::{Failed, Memory};
use mqb_disk::MemoryDisk;
use mqb_outside::Disk;
use std::alloc::Global;
use std::test::Fail;

/// As many bytes as a store may have.
const ROOM: usize = 16_384;

/// Alpha, which knows beta and has the order `one` for its queue `orders`, committed at 1000.
pub(crate) static ALPHA: [u8; 276] = *b"MQBJ\x01\0\0\0\
\x0D\x0C\x0B\x0A\x12\x11\x14\x13\x15\x16\x17\x18\x19\x1A\x1B\x1C\
\x01\x1B\0\0\0\x01\x05alpha\x0D\x0C\x0B\x0A\x12\x11\x14\x13\x15\x16\x17\x18\x19\x1A\x1B\x1C\x0A\0\0\x01\
\x01\x1A\0\0\0\x02\x04beta\x2D\x2C\x2B\x2A\x32\x31\x34\x33\x35\x36\x37\x38\x39\x3A\x3B\x3C\x0A\0\0\x02\
\x01\xB7\0\0\0\x04\xE8\x03\0\0\x01\x01\xAC\0\0\0\x10\0\0\0LIOR\xAC\0\0\0\xFF\xFF\xFF\xFF\
\x0D\x0C\x0B\x0A\x12\x11\x14\x13\x15\x16\x17\x18\x19\x1A\x1B\x1C\
\x2D\x2C\x2B\x2A\x32\x31\x34\x33\x35\x36\x37\x38\x39\x3A\x3B\x3C\
\xFF\xFF\xFF\xFF\xE8\x03\0\0\x01\0\0\0\x0D\0\0\0\
\x17\0O\0S\0:\0b\0e\0t\0a\0\\\0P\0R\0I\0V\0A\0T\0E\0$\0\\\0o\0r\0d\0e\0r\0s\0\
\0\0\0\0\0\0\0\0\0\0\0\0\0\0\0\0\0\0\0\0\0\0\0\0\0\0\0\0\0\0\0\0\
\x03\0\0\0\x03\0\0\0\0\0\0\0\0\0\0\0\0\0\0\0\0\0\0\0one\0\0";

/// Beta, which knows alpha and has the queue `orders`.
pub(crate) static BETA: [u8; 112] = *b"MQBJ\x01\0\0\0\
\x2D\x2C\x2B\x2A\x32\x31\x34\x33\x35\x36\x37\x38\x39\x3A\x3B\x3C\
\x01\x1A\0\0\0\x01\x04beta\x2D\x2C\x2B\x2A\x32\x31\x34\x33\x35\x36\x37\x38\x39\x3A\x3B\x3C\x0A\0\0\x02\
\x01\x1B\0\0\0\x02\x05alpha\x0D\x0C\x0B\x0A\x12\x11\x14\x13\x15\x16\x17\x18\x19\x1A\x1B\x1C\x0A\0\0\x01\
\x01\x13\0\0\0\x03\x06orders\x01\0\0\0\0\x01\x64\0\0\0\0\0";

/// The front of alpha's Establish to beta at 1000, up to its filler.
static ESTABLISHES: [u8; 60] = *b"\x10\0\x08\0LIOR\x3C\x02\0\0\xFF\xFF\xFF\xFF\x02\0\0\0\
\x0D\x0C\x0B\x0A\x12\x11\x14\x13\x15\x16\x17\x18\x19\x1A\x1B\x1C\
\x2D\x2C\x2B\x2A\x32\x31\x34\x33\x35\x36\x37\x38\x39\x3A\x3B\x3C\
\xE8\x03\0\0\0\0\0\0";

/// The Parameters of a window of 64.
static PARAMETERS: [u8; 32] =
    *b"\x10\0\x08\0LIOR\x20\0\0\0\xFF\xFF\xFF\xFF\x03\0\0\0\x10\x27\0\0\x20\x4E\0\0\0\0\x40\0";

/// The order, as it is sent.
static ORDER: [u8; 208] = *b"\x10\0\x10\0LIOR\xD0\0\0\0\xFF\xFF\xFF\xFF\
\x0D\x0C\x0B\x0A\x12\x11\x14\x13\x15\x16\x17\x18\x19\x1A\x1B\x1C\
\x2D\x2C\x2B\x2A\x32\x31\x34\x33\x35\x36\x37\x38\x39\x3A\x3B\x3C\
\xFF\xFF\xFF\xFF\xE8\x03\0\0\x01\0\0\0\x0F\0\0\0\
\x17\0O\0S\0:\0b\0e\0t\0a\0\\\0P\0R\0I\0V\0A\0T\0E\0$\0\\\0o\0r\0d\0e\0r\0s\0\
\0\0\0\0\x01\0\0\0\xE8\x03\0\0\x01\0\0\0\0\0\0\0\
\0\0\0\0\0\0\0\0\0\0\0\0\0\0\0\0\0\0\0\0\0\0\0\0\0\0\0\0\0\0\0\0\
\x03\0\0\0\x03\0\0\0\0\0\0\0\0\0\0\0\0\0\0\0\0\0\0\0one\0\
\0\0\0\0\0\0\0\0\x01\0\0\0\x40\0\0\0";

/// Writes at most a thousand bytes to an empty disk, and syncs.
pub(crate) fn write<D: Disk>(disk: &mut D, bytes: &[u8]) -> Result<(), Failed> {
    if bytes.len() > 1000 {
        return Err(Failed);
    }
    disk.write_at(0, bytes)?;
    disk.sync()
}

/// A disk that holds a store.
pub(crate) fn disk_of(alloc: Global, store: &[u8]) -> Result<MemoryDisk, Fail> {
    let mut disk = MemoryDisk::new(alloc, ROOM)?;
    if write(&mut disk, store).is_err() {
        drop(disk);
        return Err(Fail::new("no store"));
    }
    Ok(disk)
}

/// What alpha asks beta: 572 and 32 bytes. Beta's answers to it are the same bytes.
pub(crate) fn asking(alloc: Global) -> Result<Vec<u8>, Memory> {
    let mut bytes = Vec::from_slice(alloc, &ESTABLISHES)?;
    bytes.extend_from_slice(&[0x5A; 512])?;
    bytes.extend_from_slice(&PARAMETERS)?;
    Ok(bytes)
}

/// What alpha sends to beta: the same, and the order of 208 bytes.
pub(crate) fn order(alloc: Global) -> Result<Vec<u8>, Memory> {
    let mut bytes = asking(alloc)?;
    bytes.extend_from_slice(&ORDER)?;
    Ok(bytes)
}

/// What a store holds.
pub(crate) const NOTHING_CAME: &str = "beta queue orders\nbeta dead\nbeta deadxact\nbeta journal\n";

pub(crate) const ONE_CAME: &str = "beta queue orders alpha.1\nbeta dead\nbeta deadxact\nbeta journal
beta in alpha DIRECT=OS:beta\\PRIVATE$\\orders 1 1\n";

pub(crate) const WAITS: &str = "alpha dead\nalpha deadxact\nalpha journal
alpha out 1 DIRECT=OS:beta\\PRIVATE$\\orders 1 0 0\n";

pub(crate) const IS_OFFERED: &str = "alpha dead\nalpha deadxact\nalpha journal
alpha out 1 DIRECT=OS:beta\\PRIVATE$\\orders 1 1 0\n";

pub(crate) const IS_ACKNOWLEDGED: &str = "alpha dead\nalpha deadxact\nalpha journal
alpha out 1 DIRECT=OS:beta\\PRIVATE$\\orders 1 1 1\n";
