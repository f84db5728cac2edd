ghost use Rattle.std.specs.Prelude.{◌≡◌, ◌<◌, ◌++◌, [], ◌∷◌, All, IfOk, OnOk};
ghost use Rattle.mqb_orders.specs.KeptLists.{numbers};

use crate::samples::{REPLIES, SAMPLE, SEQUENCE, Sample, message};
use mqb_base::{DEAD_LETTER, Delivery, JOURNAL, Memory};
use mqb_orders::{Kept, KeptList, OutRow, is_open};
use std::alloc::Global;
use std::test::Fail;

fn kept(alloc: Global, number: u32, journal: u8) -> Result<Kept, Memory>
    ensures { IfOk result (λ kept. kept.number ≡ number) }
{
    let sample = Sample {
        number,
        delivery: Delivery::Transactional,
        journal,
        ..SAMPLE
    };
    let message = message(alloc, &sample)?;
    Ok(Kept { number, message })
}

fn push(list: &mut KeptList, kept: Kept) -> Result<(), Memory>
    requires { All (λ k. k.number < kept.number) list.old.items }
    ensures { OnOk result (list.new.items ≡ list.old.items ++ kept ∷ []) }
{
    match list.push(kept) {
        Ok(()) => Ok(()),
        Err((_, memory)) => Err(memory),
    }
}

fn keep_2_and_9(list: &mut KeptList, alloc: Global, journal: u8) -> Result<(), Memory>
    requires { list.old.items ≡ [] }
    ensures { OnOk result (numbers list.new.items ≡ 2 ∷ 9 ∷ []) }
{
    let first = kept(alloc, 2, journal)?;
    push(list, first)?;
    let second = kept(alloc, 9, 0)?;
    push(list, second)
}

/// The messages 2, with these bits of a journal, and 9.
fn kept_2_and_9(alloc: Global, journal: u8) -> Result<KeptList, Memory>
    ensures { IfOk result (λ list. numbers list.items ≡ 2 ∷ 9 ∷ []) }
{
    let mut list = KeptList::new(alloc);
    match keep_2_and_9(&mut list, alloc, journal) {
        Ok(()) => Ok(list),
        Err(memory) => {
            drop(list);
            Err(memory)
        }
    }
}

fn number_at(list: &KeptList, at: u32) -> u32 {
    if at >= list.len() {
        return 0;
    }
    list.get(at).number
}

/// The first two numbers of a list, and 0 where there is none.
fn numbers_of(list: &KeptList) -> [u32; 2] {
    [number_at(list, 0), number_at(list, 1)]
}

/// Puts 2 before 9.
fn keep_2_before_9(list: &mut KeptList, alloc: Global) -> Result<(), Memory>
    requires { list.old.items ≡ [] }
{
    let second = kept(alloc, 9, 0)?;
    push(list, second)?;
    list.reserve(1)?;
    let first = kept(alloc, 2, 0)?;
    list.insert(0, first);
    Ok(())
}

fn number_of(kept: Kept) -> u32 {
    let number = kept.number;
    drop(kept);
    number
}

fn remove_first(list: &mut KeptList) -> u32 {
    if list.is_empty() {
        return 0;
    }
    number_of(list.remove(0))
}

fn pop(list: &mut KeptList) -> u32 {
    if list.is_empty() {
        return 0;
    }
    number_of(list.pop())
}

#[test]
fn kept_messages_are_put_between(rt: HostRuntime) -> Result<(), Fail> {
    let mut list = KeptList::new(rt.alloc());
    let put = keep_2_before_9(&mut list, rt.alloc());
    let before = numbers_of(&list);
    let first = remove_first(&mut list);
    let behind = numbers_of(&list);
    drop(list);
    put?;
    assert!(rt; before == [2, 9]);
    assert!(rt; first == 2 && behind == [9, 0]);
    Ok(())
}

#[test]
fn kept_messages_come_and_leave(rt: HostRuntime) -> Result<(), Fail> {
    let mut list = kept_2_and_9(rt.alloc(), 0)?;
    list.release(2);
    let last = pop(&mut list);
    let is_empty = list.is_empty();
    drop(list);
    assert!(rt; last == 9 && is_empty);
    Ok(())
}

fn row(peer: u32, acked: u32, kept: KeptList) -> OutRow
    ensures acked { result.acked ≡ acked }
    ensures kept { result.kept ≡ kept }
{
    OutRow {
        peer,
        destination: REPLIES,
        sequence: SEQUENCE,
        committed: 9,
        offered: 9,
        acked,
        kept,
    }
}

#[test]
fn what_is_kept_is_linked(rt: HostRuntime) -> Result<(), Fail> {
    let list = kept_2_and_9(rt.alloc(), 0)?;
    let row = row(0, 1, list);
    let before = [row.link_before(2), row.link_before(9)];
    let next = [row.next_kept(2), row.next_kept(9)];
    drop(row);
    assert!(rt; before == [1, 2]);
    assert!(rt; next == [Some(9), None]);
    Ok(())
}

/// Up to which number all of a row are acknowledged, whether a number waits, and the numbers that
/// are kept.
type Left = (u32, bool, [u32; 2]);

/// The journal bits of 2, the number that is acknowledged, where 1 was before, and what is left.
static ACKNOWLEDGED: [(u8, u32, Left); 5] = [
    (0, 0, (1, true, [2, 9])),
    (0, 2, (2, true, [9, 0])),
    (0, 9, (9, false, [0, 0])),
    (JOURNAL, 5, (5, true, [9, 0])),
    (DEAD_LETTER, 10, (10, false, [2, 0])),
];

/// What is left of a row that keeps 2 and 9.
fn acknowledged(alloc: Global, journal: u8, number: u32) -> Result<Left, Memory> {
    let list = kept_2_and_9(alloc, journal)?;
    let mut row = row(0, 1, list);
    row.acknowledge(number);
    let left = (row.acked, row.has_unacknowledged(), numbers_of(&row.kept));
    drop(row);
    Ok(left)
}

#[test]
fn rows_are_acknowledged(rt: HostRuntime) -> Result<(), Fail> {
    for (journal, number, left) in ACKNOWLEDGED.iter() {
        assert!(rt;
            acknowledged(rt.alloc(), *journal, *number)? == *left,
            "{journal} {number}"
        );
    }
    Ok(())
}

/// The peers of three rows, up to which number each was acknowledged, and which rows are open.
type Rows = ([u32; 3], [u32; 3], [bool; 3]);

static OPEN: [Rows; 4] = [
    ([0, 0, 1], [1, 1, 1], [true, false, true]),
    ([0, 0, 0], [9, 1, 1], [true, true, false]),
    ([0, 0, 0], [9, 9, 9], [true, true, true]),
    ([0, 1, 0], [1, 9, 9], [true, true, false]),
];

fn put_rows(rows: &mut Vec<OutRow>, alloc: Global, of: &Rows) -> Result<(), Memory> {
    for (peer, acked) in of.0.iter().zip(of.1.iter()) {
        let kept = kept_2_and_9(alloc, 0)?;
        rows.push(row(*peer, *acked, kept))?;
    }
    Ok(())
}

fn is_open_at(rows: &[OutRow], k: u32) -> bool {
    (k as usize) < rows.len() && is_open(rows, k)
}

fn opened(rows: &[OutRow]) -> [bool; 3] {
    [
        is_open_at(rows, 0),
        is_open_at(rows, 1),
        is_open_at(rows, 2),
    ]
}

/// Which of the three rows are open.
fn opened_of(alloc: Global, of: &Rows) -> Result<[bool; 3], Memory> {
    let mut rows = Vec::new(alloc);
    let put = put_rows(&mut rows, alloc, of);
    let opened = opened(rows.as_slice());
    drop(rows);
    put?;
    Ok(opened)
}

#[test]
fn rows_are_open_in_turn(rt: HostRuntime) -> Result<(), Fail> {
    for rows in OPEN.iter() {
        assert!(rt; opened_of(rt.alloc(), rows)? == rows.2, "{rows:?}");
    }
    Ok(())
}
