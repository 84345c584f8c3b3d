//! Items that own memory.

use super::assertions::assert_equal;
use super::steps::open;
use fak_channel::SendFault;
use std::process::Abort;

/// The text of this number.
fn text(rt: &(impl Abort + AllocGlobal), number: u64) -> String {
    format!(in rt.alloc(); "text {number}").expect(rt, "memory")
}

#[test]
fn texts_come_out_as_they_went_in(rt: HostRuntime) {
    let (channel, seats) = open(&rt, 8, 1, 100);
    let mut ends = channel.ends(rt.alloc(), seats).expect(&rt, "memory");
    let mut end = ends.pop().expect(&rt, "an end");
    for number in 0..8 {
        assert_equal(&rt, end.send(&rt, text(&rt, number)).is_ok(), true);
    }
    let back = end.try_send(&rt, text(&rt, 8)).err().expect(&rt, "a fault");
    assert_equal(&rt, back.into_item().as_str(), "text 8");
    for number in 0..4 {
        let text_back = end.receive(&rt).ok().expect(&rt, "a text");
        assert_equal(&rt, text_back.as_str(), text(&rt, number).as_str());
    }
    assert_equal(&rt, end.close(&rt), Ok(true));
    let late = end.send(&rt, text(&rt, 9)).err().expect(&rt, "a fault");
    assert_equal(&rt, matches!(&late, SendFault::Closed { item: _ }), true);
    assert_equal(&rt, late.into_item().as_str(), "text 9");
}
