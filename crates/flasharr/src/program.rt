//! What the program does with its arguments.
ghost use Rattle.std.specs.Prelude.{◌≡◌, ◌⊎◌, Option, Some, [], ◌∷◌, drop, map, string_bytes, IfOk, IfErr};
ghost use Rattle.std.specs.IoError.{error_kind};
ghost use Rattle.std.specs.Process.{exit_status};
ghost use Rattle.std.specs.Vec.Iter.{into_iter_items};
ghost use Rattle.fa_io.specs.Streams.{between};
ghost use Rattle.clap.specs.Values.{kind_of};
ghost use Rattle.fa_prog_host.specs.Printing.{TellsNoMemory};
ghost use Rattle.flasharr.specs.Output.{ShowsUsage, ShowsText, ShowsMistake, RefusesArguments};
ghost use Rattle.fa_settings.specs.CommandLine.{Wanted, IsWanted};
ghost use Rattle.flasharr.specs.Program.{Runs, RunsCommand};

use crate::serve::{Serve, run_serve};
use crate::talk::run_talk_array;
use clap::Error;
use clap::error::ErrorKind as Finding;
use fa_io::send_all;
use fa_prog_host::printing::{DONE, FAULTY, print, refuse_for_memory};
use fa_prog_images::{Asked, Look, run_format, run_look};
use fa_prog_listen::ServerHost;
use fa_prog_looks::{Ask, run_status};
use fa_prog_text::{run_plan, run_talk, run_verify, run_verify_log};
use fa_settings::{Subcommand, command};
use std::alloc::{AllocError, Allocator, Global};
use std::env::Args;
use std::io::{self, Eprint, ErrorKind, Read, Write};
use std::net::{Net, TcpListener, TcpStream};
use std::process::{ExitCode, Termination};

/// What is printed where the arguments cannot be had.
const USAGE: &[u8] =
    b"usage: flasharr format | check | dump | serve | status | plan | talk [--array SETTINGS [--unclean | --recover]] | verify\n";

/// The status with which the program ends. Only this module makes one, so a `main` that ends with one
/// ends as the program's run did.
#[derive(Clone, Copy)]
pub struct Status {
    number: u8,
}

impl Status {
    /// The status of this number.
    fn of(number: u8) -> Status
        ensures { result.number ≡ number }
    {
        Status { number }
    }
}

impl Termination for Status {
    fn report<R: Eprint>(self, _rt: &R) -> ExitCode
        ensures { exit_status result ≡ self.number }
    {
        ExitCode::from(self.number)
    }
}

/// Runs the program with all of its arguments, of which the first is its name, as [`run`] does with
/// those behind it. Where the arguments cannot be had, it prints that memory was refused, with status
/// 1, or else, as where one is no text, a line of usage, with status 2.
pub fn start<
    H: ServerHost + Net<Listener = TcpListener, Stream = TcpStream>,
    R: Read,
    W: Write,
    A: Allocator + Copy,
>(
    rt: &H,
    alloc: A,
    watched: bool,
    arguments: io::Result<Args<A>>,
    input: &mut R,
    output: &mut W,
) -> Status
    ensures given { IfOk arguments (λ all. Runs A (map string_bytes (drop 1 (into_iter_items all)))
        (between (R.remaining input.old) (R.remaining input.new)
        (W.contents output.old) (W.contents output.new)) result.number
        ⊎ TellsNoMemory (W.contents output.old) (W.contents output.new) result.number) }
    ensures refused { IfErr arguments (λ e. RefusesArguments (error_kind e) (W.contents output.old) (W.contents output.new) result.number) }
{
    match arguments {
        Ok(all) => match listed(alloc, all) {
            Ok(list) => Status::of(run(rt, alloc, watched, behind_name(&list), input, output)),
            Err(AllocError) => Status::of(refuse_for_memory(output)),
        },
        Err(error) => Status::of(refuse_arguments(error.kind(), output)),
    }
}

/// Runs the program with these arguments, those behind its name, on an input and an output. Answers the
/// status with which it ends: 0 where the work was done, 1 where it was refused or memory, input or
/// output failed, 2 at a fault of the arguments or of the input's text.
///
/// `format` makes the images of the array of the settings, or with `--die` one die's image as a spare's.
/// `check` prints how the dies of an array are and how many pages were written, and `dump` where each page
/// is; with `--unclean` also of one that was not closed, with `--recover` of such a one whose dies are all there, and
/// with `--json` as one JSON document. These three read nothing of the input, and tell on standard error what an admin
/// has to look at.
///
/// `serve` mounts the array of the settings and serves it over NBD at their address, in many threads, until the
/// input has the line `stop`, ends or fails, and then closes it; with `--unclean` or `--recover` also one that was not
/// closed. It prints where it listens, and at the end the faults that took dies out and how the array was closed. With
/// `--verbose` it tells on standard error of clients that come and go, and with `--status` it answers by HTTP at another address how the
/// array is.
///
/// `status` asks a server at that address, and prints the answer in lines, once or with `--watch` each second.
///
/// `talk` reads lines of hexadecimal digits as the bytes of one NBD client, serves them over a plain
/// store of 64 pages of 512 zero bytes under the name `disk`, and prints the server's bytes, in
/// hexadecimal on one line, and then how the connection ended. With `--array` it serves them over the array of
/// the settings, which it mounts and then closes, with `--unclean` or `--recover` also one that was not closed; it prints the
/// faults that took dies out and how the array was closed besides.
///
/// `plan` reads a batch text, and prints the text of a plan of the least number of rounds with the pages
/// that show that no plan has fewer.
///
/// `verify` reads a batch text and a certificate text, and prints `least R` or the first refusal. With `--log` it checks each
/// plan of a file, reads nothing of the input, and prints how many plans are least and how many are refused; which ones those
/// are it tells on standard error.
///
/// `--help` prints what the program or the command before it does, and `--version` the program's version, with
/// status 0. Other arguments print what is wrong with them, with status 2. All of it goes to the output.
///
/// With `watched` a command that works for seconds on images tells on standard error how far it is.
///
/// The arguments are read by `clap`, which takes its memory of the process.
pub fn run<
    H: ServerHost + Net<Listener = TcpListener, Stream = TcpStream>,
    R: Read,
    W: Write,
    A: Allocator + Copy,
>(rt: &H, alloc: A, watched: bool, arguments: &[String<A>], input: &mut R, output: &mut W) -> u8
    ensures { let streams = between (R.remaining input.old) (R.remaining input.new) (W.contents output.old) (W.contents output.new) in
        Runs A (map string_bytes arguments.now) streams result }
{
    match command(rt.alloc(), arguments) {
        Ok(Some(subcommand)) => obey(rt, alloc, watched, subcommand, input, output),
        Ok(None) => show_usage(output),
        Err(error) => show_text(rt.alloc(), &error, output),
    }
}

/// Runs one command. It stands apart from whoever owns what `clap` found, so that no exit of it drops that.
fn obey<
    H: ServerHost + Net<Listener = TcpListener, Stream = TcpStream>,
    R: Read,
    W: Write,
    A: Allocator + Copy,
>(rt: &H, alloc: A, watched: bool, subcommand: Subcommand<'_>, input: &mut R, output: &mut W) -> u8
    ensures { let streams = between (R.remaining input.old) (R.remaining input.new) (W.contents output.old) (W.contents output.new) in
        (wanted : Option Wanted) → IsWanted (Some subcommand.entry) wanted → RunsCommand A wanted streams result }
{
    match subcommand {
        Subcommand::Format { settings, die } => run_format(rt, alloc, settings, die, output),
        Subcommand::Check {
            settings,
            terms,
            json,
        } => {
            let asked = Asked::Check;
            let look = Look {
                asked,
                terms,
                json,
                watched,
            };
            run_look(rt, alloc, settings, look, output)
        }
        Subcommand::Dump {
            settings,
            terms,
            json,
        } => {
            let asked = Asked::Dump;
            let look = Look {
                asked,
                terms,
                json,
                watched,
            };
            run_look(rt, alloc, settings, look, output)
        }
        Subcommand::Serve {
            settings,
            terms,
            verbose,
            status,
            plans,
        } => {
            let serve = Serve {
                settings,
                terms,
                verbose,
                status,
                plans,
            };
            run_serve(rt, alloc, serve, input, output)
        }
        Subcommand::Status { address, watch } => run_status(rt, Ask { address, watch }, output),
        Subcommand::Plan => run_plan(alloc, input, output),
        Subcommand::Talk => run_talk(alloc, input, output),
        Subcommand::TalkArray { settings, terms } => {
            run_talk_array(rt, alloc, settings, terms, input, output)
        }
        Subcommand::Verify => run_verify(alloc, input, output),
        Subcommand::VerifyLog { file } => run_verify_log(rt, alloc, file, output),
    }
}

/// Prints help, the version or what is wrong with the arguments.
fn show_text<W: Write>(global: Global, error: &Error, output: &mut W) -> u8
    ensures { ShowsText (kind_of error.now) (W.contents output.old) (W.contents output.new) result
        ⊎ TellsNoMemory (W.contents output.old) (W.contents output.new) result }
{
    match (error.kind(), error.to_string(global)) {
        (Finding::OutOfMemory, _) | (_, Err(AllocError)) => refuse_for_memory(output),
        (Finding::DisplayHelp | Finding::DisplayVersion, Ok(text)) => {
            print(output, DONE, text.as_bytes())
        }
        (_, Ok(text)) => show_mistake(&text, output),
    }
}

/// Prints what is wrong with the arguments.
fn show_mistake<W: Write>(text: &str, output: &mut W) -> u8
    ensures { ShowsMistake (W.contents output.old) (W.contents output.new) result }
{
    let _ = send_all(output, text.as_bytes());
    FAULTY
}

/// All of the arguments, as a list.
fn listed<A: Allocator>(alloc: A, mut all: Args<A>) -> Result<Vec<String<A>, A>, AllocError>
    ensures { IfOk result (λ list. list.items ≡ into_iter_items all) }
{
    let mut list = Vec::new(alloc);
    'arguments: while let Some(argument) = all.next() {
        list.push(argument)?;
    }
    Ok(list)
}

/// The arguments behind the program's name.
fn behind_name<A: Allocator>(all: &[String<A>]) -> &[String<A>]
    ensures { result.now ≡ drop 1 all.now }
{
    match all {
        [_name, given @ ..] => given,
        [] => &[],
    }
}

/// What is done where the arguments cannot be had, for an error of this kind.
fn refuse_arguments<W: Write>(kind: ErrorKind, output: &mut W) -> u8
    ensures { RefusesArguments kind (W.contents output.old) (W.contents output.new) result }
{
    match kind {
        ErrorKind::OutOfMemory => refuse_for_memory(output),
        _ => show_usage(output),
    }
}

/// Prints a line of usage.
fn show_usage<W: Write>(output: &mut W) -> u8
    ensures { ShowsUsage (W.contents output.old) (W.contents output.new) result }
{
    let _ = send_all(output, USAGE);
    FAULTY
}
