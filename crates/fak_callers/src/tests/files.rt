//! File tables.

use super::assertions::assert_equal;
use crate::files::{
    close_with_holds_apart, end_lawfully, join_within_seats, read_all_seen, read_newest,
    read_twice, write_alone,
};
use fak_files::{FileField, FileTable};

#[test]
fn what_is_written_is_read_twice(rt: HostRuntime) {
    let (table, mut seats) = FileTable::open(rt.alloc(), 1, 2, 9).expect(&rt, "open");
    let mut b = seats.pop().expect(&rt, "two seats");
    let mut a = seats.pop().expect(&rt, "two seats");
    assert!(rt; write_alone(&table, &mut a));
    table.set(&mut a, 0, FileField::Inode, 7);
    assert!(rt; !read_all_seen(&table, &mut b));
    end_lawfully(&table, &mut a);
    assert!(rt; read_all_seen(&table, &mut b));
    assert_equal(&rt, read_newest(&table, &mut b, 0).inode, 7);
    let (first, second) = read_twice(&table, &mut b, 0);
    assert_equal(&rt, (first.inode, second.inode), (7, 7));
    end_lawfully(&table, &mut b);
    let tally = join_within_seats(&table, a, b);
    assert!(rt; tally.is_whole());
    assert_equal(&rt, close_with_holds_apart(table, tally).get(0).inode, 7);
}
