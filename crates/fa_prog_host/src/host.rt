//! What the program has of the machine that it runs on.
use std::fs::File;
use std::io::Eprint;
use std::rt::Files;
use std::thread::Threads;

/// Files, the memory of the process, threads that read the dies of an array side by side, and standard error, where
/// warnings and the progress of a long command go.
pub trait Host: Files<File = File> + AllocGlobal + Eprint + Threads + Sync {}

impl<R: Files<File = File> + AllocGlobal + Eprint + Threads + Sync> Host for R {}
