//! Where a server listens, and how that ends.
ghost use Rattle.std.specs.Prelude.{◌≡◌, ◌⊎◌, IfErr, IfOk};
ghost use Rattle.vmemd.specs.Running.{TellsAddress, TellsAddressOf};

use std::alloc::Global;
use std::io;
use std::marker::Model;
use std::net::{Net, Shutdown, SocketAddr, TcpListener, TcpStream};
use std::os::fd::OwnedFd;
use vmemd_setup::RunFault;

/// What is listened at.
pub trait Bound {
    ghost use Rattle.std.specs.Prelude.{IfOk};
    ghost use Rattle.std.specs.declared.net.socket_addr.SocketAddr.{SocketAddr};

    // which address it may have
    ghost may_have: { Self → SocketAddr → Type 0 };

    /// Its address.
    fn address(&self) -> io::Result<SocketAddr>
        ensures { IfOk result (may_have self.now) };
}

impl Bound for TcpListener {
    ghost use Rattle.std.specs.Prelude.{⊤};

    // (of a socket no contract can say which it has)
    ghost may_have = { λ _ _. ⊤ };

    fn address(&self) -> io::Result<SocketAddr> {
        self.local_addr()
    }
}

/// The line that tells the address of what is listened at.
pub fn line_of<B: Bound>(alloc: Global, bound: &B) -> Result<String, RunFault>
    ensures address { IfOk result (λ line. TellsAddressOf B.may_have bound.now line.bytes.items) }
    ensures told { IfOk result (λ line. TellsAddress line.bytes.items) }
    ensures err { IfErr result (λ fault. (fault ≡ RunFault.Listen) ⊎ (fault ≡ RunFault.Memory)) }
{
    let Ok(address) = bound.address() else {
        return Err(RunFault::Listen);
    };
    match format!(in alloc; "listening {address}\n") {
        Ok(line) => Ok(line),
        Err(_) => Err(RunFault::Memory),
    }
}

/// A listening socket, and the line that tells its address. A contract sees the line.
#[derive(Drop)]
pub struct Listener {
    socket: TcpListener,
    /// The same socket by another descriptor, for the call that a `TcpListener` lacks.
    closing: TcpStream,
    line: String,
}

impl Model for Listener {
    ghost use Rattle.std.specs.Prelude.{ℕ, List};
    ghost use Rattle.vmemd.specs.Running.{TellsAddress};

    ghost Value = { List ℕ };

    ghost view = { λ l. l.line.bytes.items };

    ghost invariant = { λ l. TellsAddress l.line.bytes.items };
}

impl Listener {
    /// Listens at an address.
    pub fn open<R: Net<Listener = TcpListener, Stream = TcpStream> + AllocGlobal>(
        rt: &R,
        address: &str,
    ) -> Result<Listener, RunFault>
        ensures { IfErr result (λ fault. (fault ≡ RunFault.Listen) ⊎ (fault ≡ RunFault.Memory)) }
    {
        let Ok(socket) = TcpListener::bind(rt, address) else {
            return Err(RunFault::Listen);
        };
        let Ok(closing) = same_socket(&socket) else {
            return Err(RunFault::Listen);
        };
        let line = line_of(rt.alloc(), &socket)?;
        Ok(Listener {
            socket,
            closing,
            line,
        })
    }

    /// The socket.
    pub fn socket(&self) -> &TcpListener {
        &self.socket
    }

    /// The line `listening ADDRESS`, with the real port.
    pub fn line(&self) -> &[u8]
        ensures value { result.now ≡ self.now }
        ensures told { TellsAddress self.now }
    {
        self.line.as_bytes()
    }

    /// Shuts the socket down. The system then ends each `accept` of it by an error, those that wait
    /// and all later ones, and takes no connection for it. No connection has to reach the address
    /// for that, so nothing that is in the way of one, as a filter, keeps a server from its end.
    pub fn close(&self) {
        let _ = self.closing.shutdown(Shutdown::Read);
    }
}

/// A socket by another descriptor, taken for a stream.
fn same_socket(socket: &TcpListener) -> io::Result<TcpStream> {
    Ok(TcpStream::from(OwnedFd::from(socket.try_clone()?)))
}
