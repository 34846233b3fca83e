//! Lists of processes in ready order.
ghost use Rattle.std.specs.Prelude.{◌<◌};

use mpm_base::Pid;
use mpm_ready::Lists;
use std::test::Fail;

/// Puts processes into a list, each with its priority, unless it is in one.
fn put_all(lists: &mut Lists, list: u8, rows: &[(u8, u8)])
    requires list { list < 96 }
{
    for (p, priority) in rows {
        let p = Pid(*p % 32);
        if lists.list_of(p).is_none() {
            lists.insert(list, p, *priority);
        }
    }
}

/// Puts a process back after its equals if it is in a list.
fn rotate(lists: &mut Lists, p: Pid, priority: u8) {
    if lists.list_of(p).is_some() {
        lists.rotate(p, priority);
    }
}

/// Whether the list's processes are exactly these, in order; afterwards it is empty.
fn empties(lists: &mut Lists, list: u8, order: &[u8]) -> bool
    requires { list < 96 }
{
    for slot in order {
        let p = Pid(*slot % 32);
        if lists.first(list) != Some(p) || lists.remove(p) != Some(list) {
            return false;
        }
    }
    lists.first(list).is_none()
}

/// Whether a process that runs goes after those that it woke.
fn goes_behind(lists: &mut Lists) -> bool {
    put_all(lists, 0, &[(7, 200), (3, 200), (4, 199)]);
    rotate(lists, Pid(7), 200);
    empties(lists, 0, &[4, 3, 7])
}

/// Whether equals stand in the order of their insertion.
fn stand_in_order(lists: &mut Lists) -> bool {
    put_all(
        lists,
        5,
        &[(9, 100), (1, 255), (2, 100), (31, 0), (0, 100), (6, 255)],
    );
    empties(lists, 5, &[31, 9, 2, 0, 1, 6])
}

/// Whether a rotation takes a new priority.
fn takes_a_priority(lists: &mut Lists) -> bool {
    put_all(lists, 1, &[(10, 50), (11, 60), (12, 70)]);
    rotate(lists, Pid(10), 65);
    rotate(lists, Pid(12), 60);
    empties(lists, 1, &[11, 12, 10])
}

#[test]
fn lists_are_in_ready_order(rt: HostRuntime) -> Result<(), Fail> {
    let mut lists = Lists::new();
    let behind = goes_behind(&mut lists);
    let order = stand_in_order(&mut lists);
    let priority = takes_a_priority(&mut lists);
    assert!(rt; behind && order && priority);
    Ok(())
}

/// Whether a removal leaves the others.
fn leaves_others(lists: &mut Lists) -> bool {
    put_all(lists, 2, &[(20, 8), (21, 8), (22, 8)]);
    put_all(lists, 3, &[(23, 8)]);
    lists.remove(Pid(21)) == Some(2)
        && lists.remove(Pid(21)).is_none()
        && lists.list_of(Pid(21)).is_none()
        && lists.list_of(Pid(23)) == Some(3)
        && empties(lists, 2, &[20, 22])
        && empties(lists, 3, &[23])
}

/// Whether each of ninety-six lists keeps a process.
fn each_keeps_one(lists: &mut Lists) -> bool {
    for list in 0..96 {
        put_all(lists, list, &[(list % 32, 3)]);
        if !empties(lists, list, &[list % 32]) {
            return false;
        }
    }
    true
}

/// Whether one list keeps all processes.
fn one_keeps_all(lists: &mut Lists) -> bool {
    for p in 0..32 {
        put_all(lists, 95, &[(p, 200 - p)]);
    }
    for p in 0..32 {
        if lists.first(95) != Some(Pid(31 - p)) || lists.remove(Pid(31 - p)) != Some(95) {
            return false;
        }
    }
    lists.first(95).is_none()
}

#[test]
fn lists_keep_their_processes(rt: HostRuntime) -> Result<(), Fail> {
    let mut lists = Lists::new();
    let others = leaves_others(&mut lists);
    let each = each_keeps_one(&mut lists);
    let all = one_keeps_all(&mut lists);
    assert!(rt; others && each && all);
    Ok(())
}
