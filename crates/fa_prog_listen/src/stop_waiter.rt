//! Who waits for the stop while clients are served, and then sends them away.
use crate::listening::Listening;
use crate::side_by_side::Starter;
use crate::stop_line::wait_for_stop;
use fa_prog_clients::{Networked, stop_accepting};
use std::io::Read;
use std::net::{TcpListener, TcpStream};
use std::time::Duration;

/// How long clients may take to go at the stop before their connections are cut, in seconds.
const LEAVE_SECONDS: u64 = 2;

/// How long the one who accepts may take to hear of the stop, in seconds.
const WAKE_SECONDS: u64 = 1;

/// Who starts the threads of a server.
#[derive(Drop)]
pub struct StopWaiter<'a, N: Read> {
    pub listening: &'a Listening<'a>,
    /// What says when the server is to end.
    pub input: &'a mut N,
    /// Each thread could be started, and so clients were served.
    pub is_served: bool,
}

impl<'a, R: Networked, N: Read> Starter<R> for StopWaiter<'a, N> {
    /// Lets clients be served until the input says stop, and then sends them away. Where a thread could not be started, which has closed
    /// the queue, no client is waited for.
    fn meanwhile(&mut self, rt: &R) {
        let accept_queue = &self.listening.accept_queue;
        self.is_served = !accept_queue.is_closing(rt);
        if self.is_served {
            wait_for_stop(self.input);
        }
        accept_queue.close(rt);
        wake(rt, self.listening.listener);
        accept_queue.clear(rt, Duration::from_secs(LEAVE_SECONDS));
    }
}

/// Wakes the one who accepts clients, by a connection of the server's own, or where none can be had by ending what the listener does.
fn wake<R: Networked>(rt: &R, listener: &TcpListener) {
    let limit = Duration::from_secs(WAKE_SECONDS);
    let is_woken = match listener.local_addr() {
        Ok(address) => TcpStream::connect_timeout(rt, &address, limit).is_ok(),
        Err(_) => false,
    };
    if !is_woken {
        stop_accepting(listener);
    }
}
