//! A free list of page frames that processors share: a program to copy.
//!
//! A frame is taken by one attempt that may find the list empty, and given back; no thread waits for a frame. Proved: once
//! all seats are back, the list has each frame of the machine once (`churn_all`).
#![tactic(auto)]

mod frame;
mod free_list;
mod machine;

pub use frame::Frame;
pub use free_list::{give_back, take};
pub use machine::churn_all;
use std::io;

fn main(rt: HostRuntime) -> io::Result<()> {
    let Some(mut free) = churn_all(&rt, rt.alloc(), 16, 1000) else {
        return println!(rt; "no free list");
    };
    let mut sum = 0u64;
    for _ in 0..16 {
        match free.next() {
            Some(frame) => sum = sum.wrapping_add(frame.number),
            None => println!(rt; "a frame was lost")?,
        }
    }
    println!(rt; "16 frames are free again; their numbers add up to {sum}")
}
