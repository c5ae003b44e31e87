ghost use Rattle.std.specs.Prelude.{◌≡◌, None, false, IfOk};

use crate::again::accept_again;
use crate::door::Door;
use crate::keeper_error::KeeperError;
use crate::tcp_link::TcpLink;
use crate::traits::Failed;
use std::io::{Error, ErrorKind};
use std::marker::Model;
use std::net::{Ipv4Addr, Net, SocketAddr, SocketAddrV4};

/// A port of this host, as a door that tells nothing of its links.
#[derive(Drop)]
pub struct TcpDoor<N: Net> {
    listener: N::Listener,
    out: bool,
    faults: u64,
}

impl<N: Net> Model for TcpDoor<N> {
    ghost use Rattle.dw_outside.specs.Streams.{Listening};

    ghost Value = { Listening N.Listener };

    ghost view = { λ d. record { inner = d.listener; out = d.out; faults = d.faults } };
}

impl<N: Net> TcpDoor<N> {
    /// Listens on the port of 127.0.0.1.
    pub fn bind(rt: &N, port: u16) -> Result<TcpDoor<N>, KeeperError>
        ensures out { IfOk result (λ d. d.out ≡ false) }
        ensures faults { IfOk result (λ d. d.faults ≡ 0) }
    {
        let address = SocketAddr::V4(SocketAddrV4::new(Ipv4Addr::LOCALHOST, port));
        match rt.bind(address) {
            Ok(listener) => Ok(TcpDoor {
                listener,
                out: false,
                faults: 0,
            }),
            Err(error) => Err(refusal(&error)),
        }
    }
}

fn refusal(error: &Error) -> KeeperError {
    match error.kind() {
        ErrorKind::OutOfMemory => KeeperError::OutOfMemory,
        _ => KeeperError::Failed,
    }
}

impl<N: Net> Door for TcpDoor<N> {
    type L = TcpLink<N::Stream>;

    ghost coming = { λ _. None };

    ghost past = { λ _. None };

    ghost is_out = { λ d. d.out };

    ghost faults = { λ d. d.faults };

    /// Waits for the next connection, and for another after one that was given up before it was had.
    /// Each error counts as a fault.
    fn admit(&mut self) -> Result<Option<TcpLink<N::Stream>>, Failed> {
        let stream = accept_again(&self.listener, &mut self.faults)?;
        self.out = true;
        Ok(Some(TcpLink::new(stream)))
    }

    /// Closes the connection, once its peer had time to take what was sent.
    fn dismiss(&mut self, link: TcpLink<N::Stream>) {
        link.close();
        self.out = false;
    }
}
