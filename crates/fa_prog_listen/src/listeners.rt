//! Where clients and those who ask how the array is come.
ghost use Rattle.std.specs.Prelude.{◌≡◌, List, ℕ, IfOk, string_bytes};
ghost use Rattle.fa_prog_listen.specs.Address.{address_line};

use crate::host::ServerHost;
use fa_prog_host::tell;
use std::alloc::{AllocError, Global};
use std::io;
use std::net::{SocketAddrV4, TcpListener};

/// Where a server listens.
#[derive(Clone, Copy)]
pub struct Listeners<'a> {
    /// For clients.
    pub clients: &'a TcpListener,
    /// For those who ask how the array is.
    pub looks: Option<&'a TcpListener>,
}

impl<'a> Listeners<'a> {
    /// These listeners.
    pub fn new(clients: &'a TcpListener, looks: Option<&'a TcpListener>) -> Listeners<'a> {
        Listeners { clients, looks }
    }
}

/// Where others may ask how the array is, if that is wanted. It is told on standard error, and so is the error, which is the system's.
pub fn bind_looks<R: ServerHost>(rt: &R, status: Option<&str>) -> io::Result<Option<TcpListener>> {
    let Some(address) = status else {
        return Ok(None);
    };
    match TcpListener::bind(rt, address) {
        Ok(listener) => {
            match listener.local_addr() {
                Ok(address) => tell(rt, format_args!("status at http://{address}/")),
                Err(_) => tell(rt, format_args!("status at http://{address}/")),
            }
            Ok(Some(listener))
        }
        Err(refused) => {
            tell(
                rt,
                format_args!(
                    "{address}: {refused}: choose another address for --status, or end who has this one"
                ),
            );
            Err(refused)
        }
    }
}

/// The line that tells where clients can connect: at the listener's address, or where it does not tell, at this one.
pub fn listening_text(
    global: Global,
    listener: &TcpListener,
    listen: SocketAddrV4,
) -> Result<String, AllocError>
    ensures { IfOk result (λ text. (address : List ℕ) × (string_bytes text ≡ address_line address)) }
{
    match listener.local_addr() {
        Ok(address) => line_of(global, &address.to_string(global)?),
        Err(_) => line_of(global, &listen.to_string(global)?),
    }
}

/// The line of an address.
fn line_of(global: Global, address: &str) -> Result<String, AllocError>
    ensures { IfOk result (λ text. string_bytes text ≡ address_line address.now) }
{
    let mut out = String::new(global);
    out.push_str("listening ")?;
    out.push_str(address)?;
    out.push('\n')?;
    Ok(out)
}
