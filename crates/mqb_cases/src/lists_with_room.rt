use mqb_base::{Memory, Roomed};
use std::alloc::Global;
use std::test::Fail;

/// A list of 1, 2 and 3, with room for one more.
fn three(alloc: Global) -> Result<Roomed<u32>, Memory> {
    let mut list = Roomed::new(alloc);
    list.make_room(4)?;
    list.push(1);
    list.push(2);
    list.push(3);
    Ok(list)
}

/// Whether 9 is put behind the first member, and the first and the last one, which leave.
fn moved(list: &mut Roomed<u32>) -> Option<(bool, u32, u32)> {
    if list.as_slice() != [1, 2, 3].as_slice() || list.room() != 4 {
        return None;
    }
    list.insert(1, 9);
    let is_put = list.as_slice() == [1, 9, 2, 3].as_slice();
    let first = list.remove(0);
    let last = list.pop();
    Some((is_put, first, last))
}

/// Whether the second of two members is changed, and stays where the first one is dropped.
fn is_changed(list: &mut Roomed<u32>) -> bool {
    if list.as_slice() != [9, 2].as_slice() {
        return false;
    }
    *list.get_mut(1) = 8;
    list.drop_first(1);
    list.as_slice() == [8].as_slice()
}

#[test]
fn members_come_and_leave(rt: HostRuntime) -> Result<(), Fail> {
    let mut list = three(rt.alloc())?;
    let count = (list.len(), list.is_empty());
    let moved = moved(&mut list);
    let is_changed = is_changed(&mut list);
    drop(list);
    assert!(rt; count == (3, false));
    assert!(rt; moved == Some((true, 1, 3)));
    assert!(rt; is_changed);
    Ok(())
}

/// The room of a list of three that has room for five more, whether all the room that there can be
/// is refused, and what is left where some was given back before.
fn given_back(list: &mut Roomed<u32>) -> Option<(usize, bool, usize)> {
    if list.make_room(5).is_err() {
        return None;
    }
    let room = list.room();
    if list.len() != 3 || room != 8 {
        return None;
    }
    list.give_back(4);
    let is_refused = list.make_room(usize::MAX).is_err();
    Some((room, is_refused, list.room()))
}

#[test]
fn room_is_given_back(rt: HostRuntime) -> Result<(), Fail> {
    let mut list = three(rt.alloc())?;
    let given_back = given_back(&mut list);
    drop(list);
    assert!(rt; given_back == Some((8, true, 4)));
    Ok(())
}
