//! A session of the server over the array: it serves one client after another, and works for the dies while their requests wait.
use crate::counting_gate::CountingGate;
use fa_core_calls::Events;
use fa_image::Image;
use fa_prog_clients::{ConnectionMemory, Networked, Service, serve_clients};
use fa_prog_counts::CountingStore;
use fa_prog_listen::Listening;
use fa_prog_watch::{Losses, TellingStore, Watched};
use fa_shared::Shared;
use fa_shared_lock::{Hands, Seat};
use fa_shared_store::ArrayBlocks;
use fa_types::Blocks;
use fa_workers::{Helper, HelperMemory};
use fa_workers_making::ImageTable;
use std::alloc::{AllocError, Global};
use std::sync::ledger::Ledger;

/// What a session has of its own. It is made before the session's thread is started.
#[derive(Drop)]
pub(crate) struct Session<'a, L: Ledger> {
    service: Service<'a>,
    seat: Seat<L>,
    // Memory for the jobs that it makes of dies while its requests wait.
    memory: HelperMemory,
    // Memory for what its clients say and are told.
    connection: ConnectionMemory,
}

impl<'a, L: Ledger> Session<'a, L> {
    /// A session that serves clients so, from this seat. It takes memory for what a client says and is told. The error is out of memory.
    pub(crate) fn new(
        global: Global,
        service: Service<'a>,
        seat: Seat<L>,
    ) -> Result<Session<'a, L>, AllocError> {
        let memory = HelperMemory::new(global)?;
        let connection = ConnectionMemory::new(global)?;
        Ok(Session {
            service,
            seat,
            memory,
            connection,
        })
    }
}

/// Serves an array to one client after another until the accept queue is closed, and hands the session's seat back. It blocks its thread:
/// while its clients' requests wait it makes jobs of the dies whose images are in this table.
pub(crate) fn serve_array<R: Networked, L: Ledger, E: Events<Global>, W: Watched, I: Image + Drop>(
    rt: &R,
    listening: &Listening<'_>,
    losses: &Losses<'_>,
    shared: &Shared<L, E>,
    watched: &W,
    image_table: &ImageTable<I>,
    session: Session<'_, L>,
) -> Seat<L> {
    let Session {
        service,
        seat,
        memory,
        connection,
    } = session;
    let gate = CountingGate {
        counts: &listening.counts,
    };
    let helper = Helper::new(rt, rt.alloc(), shared, image_table, &gate, memory);
    serve_with(
        rt, listening, losses, shared, watched, service, connection, seat, helper,
    )
}

/// The same over the shared array, with somebody who makes jobs of its dies while a request waits. It is a function of its own, so that no
/// type is written that has the helper's inside of the store's.
fn serve_with<
    R: Networked,
    L: Ledger,
    E: Events<Global>,
    W: Watched,
    H: Hands<L, E, Global> + Drop,
>(
    rt: &R,
    listening: &Listening<'_>,
    losses: &Losses<'_>,
    shared: &Shared<L, E>,
    watched: &W,
    service: Service<'_>,
    connection: ConnectionMemory,
    seat: Seat<L>,
    hands: H,
) -> Seat<L> {
    let blocks = ArrayBlocks::new(rt, rt.alloc(), shared, seat, hands);
    let blocks = serve_telling(rt, listening, losses, watched, service, connection, blocks);
    blocks.into_seat()
}

/// The same over any store of an array that is watched, which is handed back. No client is told of a lost page before that stands in its
/// file. It knows neither store nor array, so that no type is written that has both within.
fn serve_telling<R: Networked, W: Watched, B: Blocks + Drop>(
    rt: &R,
    listening: &Listening<'_>,
    losses: &Losses<'_>,
    watched: &W,
    service: Service<'_>,
    connection: ConnectionMemory,
    blocks: B,
) -> B {
    let telling = TellingStore::new(rt, watched, losses, blocks);
    serve_counted(rt, listening, service, connection, telling).into_blocks()
}

/// The same over any store, which is handed back. What its clients ask for is counted.
fn serve_counted<R: Networked, B: Blocks + Drop>(
    rt: &R,
    listening: &Listening<'_>,
    service: Service<'_>,
    connection: ConnectionMemory,
    blocks: B,
) -> B {
    let counts = listening.counts.session(service.number);
    let mut store = CountingStore::new(rt, counts, blocks);
    serve_clients(
        rt,
        &listening.accept_queue,
        service,
        counts,
        connection,
        &mut store,
    );
    store.into_blocks()
}
