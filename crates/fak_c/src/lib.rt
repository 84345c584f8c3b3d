//! Queues, channels, semaphores, rooms, credits and file tables for programs and kernels in C: each handle owns a seat and a share of its
//! object. No call waits.
#![tactic(auto)]

mod exports;
