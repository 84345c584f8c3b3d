//! A producer and a consumer that pass owned buffers: a program to copy.
//!
//! Buffers go through a `fak_queue::Queue`, and a `fak_sem::Semaphore` before it is the back-pressure: it begins at the number
//! of buffers that may be on their way, and holds back the others, each of which enters the queue once one was received.
//! Nobody sleeps at the semaphore: the buffer does. Proved: what is received is what was sent (`pass`).
#![tactic(auto)]

mod channel;
mod opening;
mod passing;

pub use channel::{Buffer, Channel, Ends};
pub use passing::pass;
use std::io;

fn main(rt: HostRuntime) -> io::Result<()> {
    let mut buffers = Vec::new(rt.alloc());
    for byte in 1..51u8 {
        let bytes = Vec::from_elem(rt.alloc(), byte, 100)?;
        buffers.push(Buffer { bytes })?;
    }
    let Some(received) = pass(&rt, rt.alloc(), buffers, 4) else {
        return println!(rt; "the buffers were not passed");
    };
    let mut sum = 0u64;
    for buffer in received.as_slice() {
        for byte in buffer.bytes.as_slice() {
            sum = sum.wrapping_add(u64::from(*byte));
        }
    }
    println!(rt;
        "{} buffers were received; their bytes add up to {sum}",
        received.len()
    )
}
