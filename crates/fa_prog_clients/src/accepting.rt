//! The one who accepts clients.
use crate::accept_queue::{AcceptQueue, Accepted};
use crate::host::Networked;
use fa_prog_host::tell;
use std::net::{SocketAddr, TcpListener, TcpStream};
use std::thread;
use std::time::Duration;

/// How long a client may wait for a session, in seconds.
const WAIT_SECONDS: u64 = 5;

/// How long accepting rests after an error, in milliseconds.
const REST_MILLISECONDS: u64 = 100;

/// Accepts clients one by one until the accept queue is closed: it looks at the queue before it begins, and each time that the listener has
/// given it a client or an error. One for whom no session is free within five seconds is sent away, and that is told on standard error, as
/// is the first of some errors in a row.
pub fn accept_clients<R: Networked>(rt: &R, listener: &TcpListener, accept_queue: &AcceptQueue) {
    if accept_queue.is_closing(rt) {
        return;
    }
    let mut is_refused = false;
    for _ in rt.forever() {
        let accepted = listener.accept();
        if accept_queue.is_closing(rt) {
            break;
        }
        match accepted {
            Ok((stream, address)) => {
                is_refused = false;
                let_in(rt, accept_queue, stream, address);
            }
            Err(refused) => {
                if !is_refused {
                    tell(rt, format_args!("a client cannot be accepted: {refused}"));
                }
                is_refused = true;
                thread::sleep(rt, Duration::from_millis(REST_MILLISECONDS));
            }
        }
    }
}

/// Lets a client wait for a session. One that is sent away for want of one is told of, but at the stop.
fn let_in<R: Networked>(
    rt: &R,
    accept_queue: &AcceptQueue,
    stream: TcpStream,
    address: SocketAddr,
) {
    match Accepted::new(stream) {
        Ok(accepted) => {
            let is_taken = accept_queue.offer(rt, accepted, Duration::from_secs(WAIT_SECONDS));
            if !is_taken && !accept_queue.is_closing(rt) {
                tell(
                    rt,
                    format_args!("{address}: no session is free for this client"),
                );
            }
        }
        Err(refused) => tell(
            rt,
            format_args!("{address}: this client cannot be served: {refused}"),
        ),
    }
}
