//! Asks the store for what a request wants: one call of it, with the range, the flags and the data of the request.
#![tactic(auto)]

ghost use Rattle.std.specs.Prelude.{◌≡◌, ◌≢◌, length, IfErr, OnOk};
ghost use Rattle.fa_session_asking.specs.Asking.{WasAsked};
ghost use Rattle.fa_cmds.specs.Requests.{body_length, IsToDo};
ghost use Rattle.fa_types.specs.Store.{Done, Refused};

use fa_cmds::{Command, Request};
use fa_types::{BlockFault, Blocks};

/// Asks the store for what a request with this data wants that is no READ.
pub fn ask<B: Blocks>(blocks: &mut B, request: Request, body: &[u8]) -> Result<(), BlockFault>
    requires no_read { request.command ≢ Command.Read }
    requires to_do { IsToDo request (B.view blocks.old).size }
    requires whole { length body.now ≡ body_length request }
    ensures done { OnOk result (WasAsked B.made request body.now Done blocks.old blocks.new) }
    ensures refused { IfErr result (λ fault. WasAsked B.made request body.now (Refused fault) blocks.old blocks.new) }
    ensures size { (B.view blocks.new).size ≡ (B.view blocks.old).size }
{
    let len = u64::from(request.length);
    let fua = request.is_fua();
    match request.command {
        Command::Write => blocks.write(request.offset, body, fua),
        Command::Flush => blocks.flush(),
        Command::Trim => blocks.trim(request.offset, len, fua),
        Command::WriteZeroes => blocks.zero(request.offset, len, fua, !request.is_no_hole()),
        Command::Read | Command::Disconnect | Command::Other(_) => unreachable!(),
    }
}
