use crate::bytes::{put, put_again, put_fault, put_value};
use mqb_base::Memory;
use mqb_entries::{Entry, entry_view, put_entry};
use std::alloc::Global;

/// Adds the list of an entry, where it has one: how many members it has, and each; of numbers the
/// first, how many others there are, and each.
fn put_list(alloc: Global, entry: &Entry<'_>, out: &mut Vec<u8>) -> Result<(), Memory> {
    match entry {
        Entry::Commit { ops, .. } => {
            put_value(alloc, &ops.len(), out)?;
            for op in ops.iter() {
                put_value(alloc, &op, out)?;
            }
        }
        Entry::Offered(marks) => {
            put_value(alloc, &marks.len(), out)?;
            for mark in marks.iter() {
                put_value(alloc, &mark, out)?;
            }
        }
        Entry::Arrived { released, .. } => {
            if let Some((first, others)) = released.split_first() {
                put_value(alloc, &first, out)?;
                put_value(alloc, &others.len(), out)?;
                for number in others.iter() {
                    put_value(alloc, &number, out)?;
                }
            }
        }
        _ => {}
    }
    Ok(())
}

/// `entry BYTES`: what is put for the entry, its list, and the entry itself.
pub(crate) fn show_entry(alloc: Global, bytes: &[u8], out: &mut Vec<u8>) -> Result<(), Memory> {
    let entry = match entry_view(bytes) {
        Ok(entry) => entry,
        Err(fault) => return put_fault(alloc, &fault, out),
    };
    let mut again = Vec::new(alloc);
    put_entry(&entry, &mut again)?;
    put_again(again.as_slice(), bytes, out)?;
    put(b" ", out)?;
    put_list(alloc, &entry, out)?;
    put_value(alloc, &entry, out)
}
