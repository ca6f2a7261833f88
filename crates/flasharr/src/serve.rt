//! The command `serve`.
ghost use Rattle.std.specs.Prelude.{◌≡◌, IfSome, None};
ghost use Rattle.fa_core.specs.Array.{IsWhole};
ghost use Rattle.fa_map.specs.PageView.{page_view};
ghost use Rattle.flasharr.specs.Serving.{Listens, TellsOn, TellsServe};

use fa_core_calls::Events;
use fa_faults::Fault;
use fa_image::Image;
use fa_map::PageMap;
use fa_map_calls::Map;
use fa_mount::MountedArray;
use fa_mount_headers::{MountFault, Standing};
use fa_prog_array::{Kept, Seen, Served, end_served, keeping, mount, refuse_mount};
use fa_prog_host::printing::{DONE, REFUSED, print, refuse_for_memory};
use fa_prog_host::{
    NotOpened, OpenImages, Opening, open_images, refuse_settings, settings_at, tell,
};
use fa_prog_images::explain;
use fa_prog_listen::{
    Ended, Held, Listeners, ServePlan, ServerHost, bind_looks, listening_text, open_beside,
};
use fa_prog_threads::{ready_of, serve_ready};
use fa_prog_watch::Watched;
use fa_settings::{PlansFile, Settings, Terms};
use fa_shared::{Shared, discard};
use std::alloc::{AllocError, Allocator, Global};
use std::io::{Read, Write};
use std::marker::Brand;
use std::net::TcpListener;
use std::sync::ledger::{Blank, Ledger};

/// How an array is served.
#[derive(Clone, Copy)]
pub struct Serve<'a> {
    /// The path of the settings.
    pub settings: &'a str,
    /// On what terms its images are taken.
    pub terms: Terms,
    /// Clients that come and go are told on standard error.
    pub verbose: bool,
    /// The address at which others may ask how the array is.
    pub status: Option<&'a str>,
    /// The file that plans are written into.
    pub plans: Option<PlansFile<'a>>,
}

/// The command `serve`: serves the array of the settings in the file of this path until the input has the line `stop`, ends or fails.
///
/// It prints where clients can connect, and at the end the last 64 faults that took dies out and how the array was closed. What else an
/// admin wants to know is told on standard error. The status is 0 where the array was closed clean, 2 where the settings cannot be had, and
/// else 1.
pub fn run_serve<R: ServerHost, N: Read, W: Write, A: Allocator + Copy>(
    rt: &R,
    alloc: A,
    serve: Serve<'_>,
    input: &mut N,
    output: &mut W,
) -> u8
    ensures { TellsServe A (W.contents output.old) (W.contents output.new) result }
{
    match settings_at(rt, alloc, serve.settings) {
        Ok(settings) => listen(rt, &settings, serve, input, output),
        Err(refused) => refuse_settings(alloc, refused, output),
    }
}

/// Serves the array of these settings at their address.
fn listen<R: ServerHost, N: Read, W: Write, A: Allocator>(
    rt: &R,
    settings: &Settings<A>,
    serve: Serve<'_>,
    input: &mut N,
    output: &mut W,
) -> u8
    ensures { TellsOn (W.contents output.old) (W.contents output.new) result }
{
    match TcpListener::bind(rt, settings.listen) {
        Ok(listener) => listen_for_looks(rt, &listener, settings, serve, input, output),
        Err(refused) => {
            let address = settings.listen;
            tell(
                rt,
                format_args!(
                    "{address}: {refused}: choose another address for listen, or end who has this one"
                ),
            );
            print(output, REFUSED, b"listen: failed\n")
        }
    }
}

/// Serves the array of these settings, and answers those who ask how it is, where that is wanted.
fn listen_for_looks<R: ServerHost, N: Read, W: Write, A: Allocator>(
    rt: &R,
    listener: &TcpListener,
    settings: &Settings<A>,
    serve: Serve<'_>,
    input: &mut N,
    output: &mut W,
) -> u8
    ensures { TellsOn (W.contents output.old) (W.contents output.new) result }
{
    match bind_looks(rt, serve.status) {
        Ok(looks) => {
            let listeners = Listeners::new(listener, looks.as_ref());
            open(rt, listeners, settings, serve, input, output)
        }
        Err(_) => print(output, REFUSED, b"listen: failed\n"),
    }
}

/// Serves the array of these settings over the images that they name.
fn open<R: ServerHost, N: Read, W: Write, A: Allocator>(
    rt: &R,
    listeners: Listeners<'_>,
    settings: &Settings<A>,
    serve: Serve<'_>,
    input: &mut N,
    output: &mut W,
) -> u8
    ensures { TellsOn (W.contents output.old) (W.contents output.new) result }
{
    let opening = Opening {
        terms: serve.terms,
        syncs: true,
        watched: false,
    };
    match open_images(rt, settings, serve.settings, opening) {
        Ok(OpenImages { images, places }) => {
            let places = places.as_slice();
            match open_beside(rt, serve.settings, serve.plans) {
                Some((lost, plans)) => {
                    let held = Held {
                        images,
                        lost,
                        plans,
                    };
                    serve_on(rt, listeners, held, places, settings, serve, input, output)
                }
                None => refuse_mount(MountFault::ImageFault, output),
            }
        }
        Err(NotOpened::Image) => refuse_mount(MountFault::ImageFault, output),
        Err(NotOpened::PagesLost) => refuse_mount(MountFault::Unclean, output),
        Err(NotOpened::NoMemory) => refuse_for_memory(output),
    }
}

/// Serves the array of these images to those who connect to the listeners. The images are at these places of the settings' paths.
pub fn serve_on<R: ServerHost, I: Image + Send + Drop, N: Read, W: Write, A: Allocator>(
    rt: &R,
    listeners: Listeners<'_>,
    held: Held<I>,
    places: &[usize],
    settings: &Settings<A>,
    serve: Serve<'_>,
    input: &mut N,
    output: &mut W,
) -> u8
    ensures { TellsOn (W.contents output.old) (W.contents output.new) result }
{
    let plan = ServePlan {
        listener: listeners.clients,
        looks: listeners.looks,
        settings,
        path: serve.settings,
        places,
        verbose: serve.verbose,
        plans_every: match serve.plans {
            Some(plans) => Some(u64::from(plans.every.unwrap_or(1))),
            None => None,
        },
    };
    let mut held = held;
    match mount(rt, settings, serve.terms, held.images.as_mut_slice()) {
        Ok(mounted) => serve_mounted::<Brand, R, PageMap, I, N, W, A>(
            rt,
            Blank::new(257),
            mounted,
            held,
            &plan,
            input,
            output,
        ),
        Err(refused) => {
            explain(rt, settings, places, serve.terms, &refused);
            refuse_mount(refused.fault, output)
        }
    }
}

/// What a served array leaves: how its threads ended, and the faults that took its dies out.
type Left<I> = (Result<Ended<I>, AllocError>, Result<Vec<Fault>, AllocError>);

/// Serves an array that was mounted, over a ledger of 257 parts that nothing else names, and closes it.
fn serve_mounted<
    L: Ledger + Send,
    R: ServerHost,
    M: Map + Send + Drop,
    I: Image + Send + Drop,
    N: Read,
    W: Write,
    A: Allocator,
>(
    rt: &R,
    blank: Blank,
    mounted: MountedArray<M>,
    held: Held<I>,
    plan: &ServePlan<'_, A>,
    input: &mut N,
    output: &mut W,
) -> u8
    requires name { blank.name ≡ L.name }
    requires parts { (blank.parts ≡ L.parts) × (blank.parts ≡ 257) }
    requires whole { IsWhole M.view mounted.array }
    ensures { TellsOn (W.contents output.old) (W.contents output.new) result }
{
    let MountedArray { array, dies } = mounted;
    let kept = Kept {
        array: keeping(rt.alloc(), array, plan.plans_every),
    };
    let served = serve_shared::<L, R, Kept<M>, I, N, W, A>(
        rt,
        blank,
        kept,
        dies.as_slice(),
        held,
        plan,
        input,
        output,
    );
    match served {
        Some((Kept { array }, (ended, faults))) => {
            let mounted = MountedArray { array, dies };
            end_served(rt, plan.path, mounted, ended, faults, output)
        }
        None => refuse_for_memory(output),
    }
}

/// Shares an array of any kind, serves it, and takes it back. None where memory is refused before anybody can connect.
fn serve_shared<
    L: Ledger + Send,
    R: ServerHost,
    E: Events<Global> + Seen + Send,
    I: Image + Send + Drop,
    N: Read,
    W: Write,
    A: Allocator,
>(
    rt: &R,
    blank: Blank,
    array: E,
    dies: &[Standing],
    held: Held<I>,
    plan: &ServePlan<'_, A>,
    input: &mut N,
    output: &mut W,
) -> Option<(E, Left<I>)>
    requires name { blank.name ≡ L.name }
    requires parts { (blank.parts ≡ L.parts) × (blank.parts ≡ 257) }
    requires whole { E.whole array }
    ensures whole { IfSome result (λ back. E.whole back.0) }
    ensures listens { IfSome result (λ _. Listens (W.contents output.old) (W.contents output.new)) }
    ensures refused { result ≡ None → W.contents output.new ≡ W.contents output.old }
{
    let shared = match Shared::<L, E>::new(rt.alloc(), blank, array) {
        Ok(shared) => shared,
        Err(array) => {
            discard(array);
            return None;
        }
    };
    let watched = Served::new(rt, &shared);
    let left = serve_lent(rt, &shared, &watched, dies, held, plan, input, output);
    match left {
        Some(left) => Some((shared.into_array(), left)),
        None => {
            shared.discard();
            None
        }
    }
}

/// Serves a shared array, which is watched so, until the input says so. How its threads ended, and the faults that took dies out; none where memory is refused
/// before anybody can connect. It stands apart from whoever owns the array, so that no exit of it drops one.
fn serve_lent<
    L: Ledger + Send,
    R: ServerHost,
    E: Events<Global> + Send,
    S: Watched + Sync,
    I: Image + Send + Drop,
    N: Read,
    W: Write,
    A: Allocator,
>(
    rt: &R,
    shared: &Shared<L, E>,
    watched: &S,
    dies: &[Standing],
    held: Held<I>,
    plan: &ServePlan<'_, A>,
    input: &mut N,
    output: &mut W,
) -> Option<Left<I>>
    requires { L.parts ≡ 257 }
    ensures listens { IfSome result (λ _. Listens (W.contents output.old) (W.contents output.new)) }
    ensures refused { result ≡ None → W.contents output.new ≡ W.contents output.old }
{
    let Ok(line) = listening_text(rt.alloc(), plan.listener, plan.settings.listen) else {
        return None;
    };
    let Ok(ready) = ready_of(rt, shared, watched, dies, held, plan) else {
        return None;
    };
    let _ = print(output, DONE, line.as_bytes());
    let ended = serve_ready(rt, shared, watched, ready, input);
    Some((ended, shared.faults(rt, rt.alloc())))
}
