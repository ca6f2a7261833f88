//! The clients between accepting and a session.
use crate::host::Networked;
use std::alloc::{AllocError, Global};
use std::io;
use std::net::{Shutdown, TcpStream};
use std::sync::atomic::{AtomicU64, Ordering};
use std::sync::{Condvar, Mutex};
use std::time::Duration;

/// How many clients are few.
const FEW_CLIENTS: u64 = 2;

/// A client that has come: its socket, with another handle on it.
#[derive(Drop)]
pub(crate) struct Accepted {
    stream: TcpStream,
    handle: TcpStream,
}

impl Accepted {
    /// The client of this socket. The error is the system's, which gives no other handle.
    pub(crate) fn new(stream: TcpStream) -> io::Result<Accepted> {
        let handle = stream.try_clone()?;
        Ok(Accepted { stream, handle })
    }
}

/// The client that waits for a session, and those that are served.
#[derive(Drop)]
struct QueueState {
    waiting: Option<Accepted>,
    /// For each session another handle on its client's socket.
    served: Vec<Option<TcpStream>>,
    is_closing: bool,
}

/// What a session finds in the queue.
enum Found {
    /// A client, which is registered as served.
    Client(TcpStream),
    /// No client waits.
    Nobody,
    /// No client is let in any more.
    Closing,
}

impl QueueState {
    /// Takes the client that waits for a session of this number.
    fn take(&mut self, session: usize) -> Found {
        if self.is_closing {
            return Found::Closing;
        }
        let Some(place) = self.served.get_mut(session) else {
            return Found::Closing;
        };
        let Some(Accepted { stream, handle }) = self.waiting.take() else {
            return Found::Nobody;
        };
        *place = Some(handle);
        Found::Client(stream)
    }

    /// The client of this session has gone.
    fn leave(&mut self, session: usize) {
        if let Some(place) = self.served.get_mut(session) {
            *place = None;
        }
    }

    /// Whether a client is served.
    fn is_serving(&self) -> bool {
        self.served.iter().any(|place| place.is_some())
    }

    /// Shuts the sockets of all clients that are served.
    fn shut(&self, how: Shutdown) {
        for place in &self.served {
            if let Some(handle) = place {
                let _ = handle.shutdown(how);
            }
        }
    }
}

/// The place where clients wait for a session, shared by the one who accepts them, the sessions, and whoever stops the server. At most
/// one client waits here; further ones wait in the system's queue. An accept queue that was closed is never open again.
#[derive(Drop)]
pub struct AcceptQueue {
    state: Mutex<QueueState>,
    changed: Condvar,
    // How many clients are served.
    clients: AtomicU64,
}

impl AcceptQueue {
    /// An open accept queue for this number of sessions, which are numbered from 0. It takes all its memory now. The error is out of
    /// memory.
    pub fn new(alloc: Global, sessions: usize) -> Result<AcceptQueue, AllocError> {
        let mut served = Vec::with_capacity(alloc, sessions)?;
        for _ in 0..sessions {
            served.push(None)?;
        }
        let state = QueueState {
            waiting: None,
            served,
            is_closing: false,
        };
        Ok(AcceptQueue {
            state: Mutex::new(state),
            changed: Condvar::new(),
            clients: AtomicU64::new(0),
        })
    }

    /// The next client for a session of this number, which is waited for. None where the accept queue is closed.
    pub(crate) fn next_client<R: Networked>(&self, rt: &R, session: usize) -> Option<TcpStream> {
        let mut state = self.state.lock(rt);
        for _ in rt.forever() {
            match state.take(session) {
                Found::Client(stream) => {
                    self.clients.fetch_add(1, Ordering::SeqCst);
                    self.changed.notify_all();
                    return Some(stream);
                }
                Found::Closing => return None,
                Found::Nobody => state = self.changed.wait(rt, state),
            }
        }
        unreachable!()
    }

    /// The client of this session has gone.
    pub(crate) fn leave<R: Networked>(&self, rt: &R, session: usize) {
        self.state.lock(rt).leave(session);
        self.clients.fetch_sub(1, Ordering::SeqCst);
        self.changed.notify_all();
    }

    /// How many clients are served.
    pub fn clients(&self) -> u64 {
        self.clients.load(Ordering::SeqCst)
    }

    /// Whether so few clients are served that each may have a core of its own.
    pub(crate) fn has_few_clients(&self) -> bool {
        self.clients() <= FEW_CLIENTS
    }

    /// Lets a client wait for a session, up to the limit. Whether a session took it: one that none took is sent away.
    pub(crate) fn offer<R: Networked>(&self, rt: &R, accepted: Accepted, limit: Duration) -> bool {
        let mut state = self.state.lock(rt);
        if state.is_closing {
            return false;
        }
        state.waiting = Some(accepted);
        self.changed.notify_all();
        let (mut state, _) = self.changed.wait_timeout_while(rt, state, limit, |state| {
            state.waiting.is_some() && !state.is_closing
        });
        state.waiting.take().is_none()
    }

    /// Whether no client is let in any more.
    pub fn is_closing<R: Networked>(&self, rt: &R) -> bool {
        self.state.lock(rt).is_closing
    }

    /// Lets no more clients in, sends the one that waits away, and shuts the others for reading: what was read of them is still answered.
    pub fn close<R: Networked>(&self, rt: &R) {
        let mut state = self.state.lock(rt);
        state.is_closing = true;
        state.waiting = None;
        state.shut(Shutdown::Read);
        drop(state);
        self.changed.notify_all();
    }

    /// Waits until all clients have gone, and shuts those that have not gone within the limit for writing too.
    pub fn clear<R: Networked>(&self, rt: &R, limit: Duration) {
        let state = self.state.lock(rt);
        let (state, _) = self
            .changed
            .wait_timeout_while(rt, state, limit, |state| state.is_serving());
        state.shut(Shutdown::Both);
    }
}
