//! What a server has of the machine that it runs on.
use fa_prog_clients::Networked;
use fa_prog_host::Host;
use fa_prog_looks::LooksHost;
use std::thread::Threads;

/// What the thread that starts a server has: files, what each thread of a server has, and threads, which may have it too.
pub trait ServerHost: Host + Networked + LooksHost + Threads + Sync {}

impl<R: Host + Networked + LooksHost + Threads + Sync> ServerHost for R {}
