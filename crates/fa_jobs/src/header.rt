//! The job that writes a die's header.
ghost use Rattle.std.specs.Prelude.{◌≡◌, ℕ, Bool, List, [], Some, length};
ghost use Rattle.fa_core_outcome.specs.Outcomes.{outcome_of};
ghost use Rattle.fa_machine.specs.Taking.{Handed};
ghost use Rattle.fa_machine.specs.declared.jobs.Flight.TheVariants.{Header as HeaderJob};
ghost use Rattle.fa_tag.specs.HeaderGrammar.{IsHeader, header_bytes};
ghost use Rattle.fa_jobs.specs.Made.{Ran};
ghost use Rattle.fa_core_outcome.specs.Fits.{header_of};

use crate::gate::{Gate, ImageCallKind};
use fa_core_outcome::Outcome;
use fa_image::{Image, ImageFault};
use fa_tag::{Header, seal_header};
use fa_types::{Die, Geometry};

/// Writes the header of a live die, with no clean mark.
pub(crate) fn run_header<I: Image, G: Gate>(
    die: Die,
    image: &mut I,
    array: &[u8; 16],
    epoch: u64,
    live: u64,
    gate: &G,
) -> Outcome
    requires { IsHeader (header_of (I.view image.old).geometry array.now die.0 epoch live) }
    ensures ran { (payload bytes : List ℕ) (lasting : Bool) → Ran I.made (I.view image.old).geometry array.now die.0
        (record { flight = HeaderJob epoch live; payload = payload; lasting = lasting }) (outcome_of result bytes) image.old image.new }
    ensures geometry { (I.view image.new).geometry ≡ (I.view image.old).geometry }
{
    let header = Header {
        die,
        geometry: image.geometry(),
        clean: false,
        spare: false,
        epoch,
        mask: live,
        array: *array,
    };
    let bytes = seal_header(&header);
    gate.before(die, ImageCallKind::WriteHeader);
    let written = image.write_header(&bytes);
    gate.after(die, ImageCallKind::WriteHeader);
    match written {
        Ok(()) => Outcome::HeaderWritten,
        Err(fault) => Outcome::Fault(fault),
    }
}
