//! Calls of file tables.

use super::sentinels::{begin, end};
use fak_files::{FileEntry, FileField, FilePort, FileTable, Hold, HoldFault};
use std::sync::Wait;

/// Holds of two ports by single attempts.
fn try_holds(first: &mut FilePort<'_>, second: &mut FilePort<'_>) -> bool {
    first.try_read() == Ok(())
        && second.try_write() == Err(HoldFault::Busy(1))
        && first.hold() == Hold::Reading
        && first.end()
        && second.try_write() == Ok(())
        && second.set(0, FileField::Inode, 7)
        && second.set(0, FileField::Uses, 1)
        && second.end()
}

/// Holds of two ports by calls that wait.
fn wait_for_holds<R: Wait>(rt: &R, first: &mut FilePort<'_>, second: &mut FilePort<'_>) -> bool {
    const ENTRY: FileEntry = FileEntry { inode: 7, uses: 1 };
    first.read(rt) == Ok(())
        && first.get(0) == Some(ENTRY)
        && first.end()
        && second.write(rt) == Ok(())
        && second.end()
}

/// Calls of a file table.
pub(super) fn call_ports(rt: &(impl Print + AllocGlobal + Wait)) -> bool {
    let Ok((table, mut seats)) = FileTable::open(rt.alloc(), 1, 2, 10) else {
        return false;
    };
    let Some(seat) = seats.pop() else {
        unreachable!()
    };
    let mut first = FilePort::new(&table, seat);
    let Some(seat) = seats.pop() else {
        unreachable!()
    };
    let mut second = FilePort::new(&table, seat);
    begin(rt);
    let are_as_expected = try_holds(&mut first, &mut second)
        && wait_for_holds(rt, &mut first, &mut second);
    end(
        rt,
        "FilePort: try_read, try_write, read, write, get, set, end, hold",
        are_as_expected,
    );
    true
}
