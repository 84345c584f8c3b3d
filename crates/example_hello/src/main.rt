//! The smallest program on a queue: one thread passes an owned text to another.
//!
//! Each thread has a port: the queue with a seat of it. A port's calls have no condition. The program is proved without a
//! line of proof.
#![tactic(auto)]

use fak_queue::{Port, Queue};
use std::alloc::Global;
use std::io;
use std::sync::Wait;
use std::thread::{Threads, join};

/// Inserts the text, and waits while the queue is full. False if the insertion was refused.
fn send<R: Wait>(rt: &R, mut port: Port<'_, String>, text: String) -> bool {
    port.wait_insert(rt, text).is_ok()
}

/// Deletes the oldest text, and waits while the queue is empty.
fn receive<R: Wait>(rt: &R, mut port: Port<'_, String>) -> Option<String> {
    match port.wait_delete(rt) {
        Ok((_ticket, text)) => Some(text),
        Err(_) => None,
    }
}

/// Passes the text from one thread to another.
fn pass<R: Threads + Wait + Sync>(rt: &R, alloc: Global, text: String) -> Option<String> {
    let Ok((queue, mut seats)) = Queue::<String>::open(alloc, 4, 2, 100) else {
        return None;
    };
    let Some(seat) = seats.pop() else {
        unreachable!()
    };
    let sender = Port::new(&queue, seat);
    let Some(seat) = seats.pop() else {
        unreachable!()
    };
    let receiver = Port::new(&queue, seat);
    let (sent, received) = join(
        rt,
        move || -> bool { send(rt, sender, text) },
        move || -> Option<String> { receive(rt, receiver) },
    );
    if sent { received } else { None }
}

fn main(rt: HostRuntime) -> io::Result<()> {
    let text = format!(in rt.alloc(); "hello")?;
    match pass(&rt, rt.alloc(), text) {
        Some(text) => println!(rt; "received: {text}"),
        None => println!(rt; "nothing was received"),
    }
}
