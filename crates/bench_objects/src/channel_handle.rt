//! The channels that are measured, each as one thread has it: calls that sleep while they wait.

use crate::queue_handle::{QueueHandle, Row};
use crossbeam_channel::{Receiver, Sender};
use fak_channel::End;
use std::alloc::{AllocError, Global};
use std::sync::{Condvar, Mutex, Wait};

/// An end of this repository's channel.
impl<'c> QueueHandle for End<'c, u64> {
    fn put<R: Wait>(&mut self, rt: &R, number: u64) -> bool {
        self.send(rt, number).is_ok()
    }

    fn get<R: Wait>(&mut self, rt: &R) -> Option<u64> {
        self.receive(rt).ok()
    }
}

/// Both sides of the kit's channel.
#[derive(Clone, Copy, Drop)]
pub struct KitEnd<'c> {
    pub sender: &'c Sender<u64>,
    pub receiver: &'c Receiver<u64>,
}

impl<'c> QueueHandle for KitEnd<'c> {
    fn put<R: Wait>(&mut self, rt: &R, number: u64) -> bool {
        self.sender.send(rt, number).is_ok()
    }

    fn get<R: Wait>(&mut self, rt: &R) -> Option<u64> {
        self.receiver.recv(rt).ok()
    }
}

/// A bounded row under a lock, with a condition variable for each side.
#[derive(Drop)]
pub struct LockedChannel {
    row: Mutex<Row<u64>>,
    filled: Condvar,
    emptied: Condvar,
}

impl LockedChannel {
    /// An empty channel with room for this many items.
    pub fn open(alloc: Global, size: usize) -> Result<LockedChannel, AllocError> {
        Ok(LockedChannel {
            row: Mutex::new(Row::open(alloc, size)?),
            filled: Condvar::new(),
            emptied: Condvar::new(),
        })
    }
}

/// A user of such a channel.
#[derive(Clone, Copy, Drop)]
pub struct LockedEnd<'c> {
    pub channel: &'c LockedChannel,
}

impl<'c> QueueHandle for LockedEnd<'c> {
    fn put<R: Wait>(&mut self, rt: &R, number: u64) -> bool {
        let row = self.channel.row.lock(rt);
        let mut row = self
            .channel
            .emptied
            .wait_while(rt, row, |row| row.is_full());
        let is_in = row.push(number).is_ok();
        drop(row);
        self.channel.filled.notify_one();
        is_in
    }

    fn get<R: Wait>(&mut self, rt: &R) -> Option<u64> {
        let row = self.channel.row.lock(rt);
        let mut row = self
            .channel
            .filled
            .wait_while(rt, row, |row| row.is_empty());
        let number = row.pop();
        drop(row);
        self.channel.emptied.notify_one();
        number
    }
}
