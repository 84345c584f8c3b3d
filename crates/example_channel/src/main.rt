//! The smallest program on a channel: one thread sends owned texts, and another receives them until the channel is closed and
//! empty. Each sleeps while it has to wait.
//!
//! Each thread has an end of the channel, whose calls have no condition. The program is proved without a line of proof.
#![tactic(auto)]

use fak_channel::{Channel, End};
use std::alloc::{AllocError, Global};
use std::io;
use std::sync::Wait;
use std::thread::{Threads, join};

/// Sends the texts, and closes the channel. False if a text was refused.
fn send_all<R: Wait>(rt: &R, mut end: End<'_, String>, texts: Vec<String>) -> bool {
    for text in texts {
        if end.send(rt, text).is_err() {
            return false;
        }
    }
    end.close(rt).is_ok()
}

/// Receives until the channel is closed and empty.
fn receive_all<R: Wait>(
    rt: &R,
    alloc: Global,
    mut end: End<'_, String>,
) -> Result<Vec<String>, AllocError> {
    let mut texts = Vec::new(alloc);
    for _ in rt.forever() {
        let Ok(text) = end.receive(rt) else {
            break;
        };
        texts.push(text)?;
    }
    Ok(texts)
}

/// Passes the texts from one thread to another.
fn pass<R: Threads + Wait + Sync>(
    rt: &R,
    alloc: Global,
    texts: Vec<String>,
) -> Option<Vec<String>> {
    let Ok((channel, seats)) = Channel::<String>::open(alloc, 4, 2, 1_000_000) else {
        return None;
    };
    let Ok(mut ends) = channel.ends(alloc, seats) else {
        return None;
    };
    let sender = ends.pop()?;
    let receiver = ends.pop()?;
    let (sent, received) = join(
        rt,
        move || -> bool { send_all(rt, sender, texts) },
        move || -> Option<Vec<String>> { receive_all(rt, alloc, receiver).ok() },
    );
    if sent { received } else { None }
}

fn main(rt: HostRuntime) -> io::Result<()> {
    let alloc = rt.alloc();
    let hello = format!(in alloc; "hello")?;
    let channel = format!(in alloc; "channel")?;
    let texts = vec![in alloc; hello, channel]?;
    let Some(received) = pass(&rt, alloc, texts) else {
        return println!(rt; "nothing was received");
    };
    for text in received {
        println!(rt; "received: {text}")?;
    }
    Ok(())
}
