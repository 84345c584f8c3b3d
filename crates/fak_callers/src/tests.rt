//! Each caller on its happy path.

mod assertions;
mod bundles;
mod cores;
mod files;
mod pipelines;
mod queues;
mod rooms;
mod semaphores;
mod sleepers;
