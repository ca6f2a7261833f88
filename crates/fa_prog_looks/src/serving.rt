//! The second listener of a server, for those who only look. One thread attends all of them, and waits for none.
use crate::host::LooksHost;
use crate::service::Answering;
use crate::shown::Shown;
use crate::visitor::{Turn, Visitor};
use fa_prog_host::tell;
use mio::net::{TcpListener, TcpStream};
use mio::{Events, Interest, Poll, Token};
use std::alloc::{AllocError, Global};
use std::hash::RandomState;
use std::io::{self, ErrorKind};
use std::net;
use std::time::{Duration, Instant};

/// How many may look at once. Others wait until one has gone, and then nobody may stay long.
const MAX_VISITORS: usize = 64;

/// The listener's name among those that are waited for.
const LISTENER: Token = Token(MAX_VISITORS);

/// How long is waited at most, in milliseconds.
const WAIT_MILLISECONDS: u64 = 100;

/// All who look, and what is needed to wait for them.
#[derive(Drop)]
struct Visitors {
    listener: TcpListener,
    poll: Poll,
    keys: RandomState,
    /// By their names.
    present: Vec<Option<Visitor>>,
}

/// Answers those who ask at the listener how something is that runs, until that is over. It blocks its thread. What keeps it from
/// listening is told on standard error.
pub fn serve_looks<R: LooksHost, T: Shown + Drop>(rt: &R, listener: &net::TcpListener, shown: T) {
    match Visitors::at(rt, listener) {
        Ok(mut visitors) => {
            if let Err(refused) = visitors.serve(rt, &shown) {
                tell(rt, format_args!("status: no more answers: {refused}"));
            }
        }
        Err(refused) => tell(rt, format_args!("status: no answers: {refused}")),
    }
}

impl Visitors {
    /// Nobody has come to the listener yet.
    fn at<R: LooksHost>(rt: &R, listener: &net::TcpListener) -> io::Result<Visitors> {
        let keys = RandomState::new(rt)?;
        let poll = Poll::new(rt)?;
        let listener = registered(&poll, listener)?;
        let present = places(rt.alloc())?;
        Ok(Visitors {
            listener,
            poll,
            keys,
            present,
        })
    }

    /// Answers all who come until what is shown is over. The error is the system's, which waits no more.
    fn serve<R: LooksHost, T: Shown>(&mut self, rt: &R, shown: &T) -> io::Result<()> {
        let mut events: Events = Events::with_capacity(rt.alloc(), MAX_VISITORS + 1)?;
        let wait = Duration::from_millis(WAIT_MILLISECONDS);
        for _ in rt.forever() {
            if shown.is_over() {
                return Ok(());
            }
            shown.sample();
            self.poll.poll(&mut events, Some(wait))?;
            let mut service = Answering { shown };
            for event in events.iter() {
                self.attend(event.token().0, &mut service);
            }
            self.let_in(rt, &mut service);
            self.send_away(rt);
        }
        unreachable!()
    }

    /// Attends the visitor of a name, if there is one.
    fn attend<S: http_server::Service>(&mut self, name: usize, service: &mut S) {
        let Some(place) = self.present.get_mut(name) else {
            return;
        };
        let turn = match place {
            Some(visitor) => visitor.attend(service),
            None => Turn::Stays,
        };
        if matches!(turn, Turn::Leaves) {
            *place = None;
        }
    }

    /// Lets in all who have come and for whom there is a place.
    fn let_in<R: LooksHost, S: http_server::Service>(&mut self, rt: &R, service: &mut S) {
        for name in 0..MAX_VISITORS {
            if self.present.get(name).is_some_and(|place| place.is_some()) {
                continue;
            }
            match self.accept(rt, name) {
                Ok(()) => self.attend(name, service),
                Err(refused) if refused.kind() == ErrorKind::WouldBlock => return,
                Err(_) => {}
            }
        }
    }

    /// Lets one in under this name.
    fn accept<R: LooksHost>(&mut self, rt: &R, name: usize) -> io::Result<()> {
        let came = Instant::now(rt)?;
        let stream = self.next_stream(name)?;
        self.seat(rt.alloc(), name, stream, came);
        Ok(())
    }

    /// The stream of the next one who comes, which is waited for under this name.
    fn next_stream(&mut self, name: usize) -> io::Result<TcpStream> {
        let (mut stream, _) = self.listener.accept()?;
        self.poll.registry().register(
            &mut stream,
            Token(name),
            Interest::READABLE | Interest::WRITABLE,
        )?;
        Ok(stream)
    }

    /// Who came on a stream takes the place of this name.
    fn seat(&mut self, global: Global, name: usize, stream: TcpStream, came: Instant) {
        let keys = self.keys;
        if let Some(place) = self.present.get_mut(name) {
            *place = Some(Visitor::new(global, keys, stream, came));
        }
    }

    /// Sends those away who have stayed too long.
    fn send_away<R: LooksHost>(&mut self, rt: &R) {
        let has_room = self.present.iter().any(|place| place.is_none());
        for place in self.present.iter_mut() {
            let is_late = match place {
                Some(visitor) => visitor.is_late(rt, has_room),
                None => false,
            };
            if is_late {
                *place = None;
            }
        }
    }
}

/// The listener, whose visitors are waited for by this poll.
fn registered(poll: &Poll, listener: &net::TcpListener) -> io::Result<TcpListener> {
    listener.set_nonblocking(true)?;
    let mut listener = TcpListener::from_std(listener.try_clone()?);
    poll.registry()
        .register(&mut listener, LISTENER, Interest::READABLE)?;
    Ok(listener)
}

/// A place for each visitor, and nobody there. The error is out of memory.
fn places(global: Global) -> Result<Vec<Option<Visitor>>, AllocError> {
    let mut places = Vec::with_capacity(global, MAX_VISITORS)?;
    for _ in 0..MAX_VISITORS {
        let _ = places.push(None);
    }
    Ok(places)
}
