//! The host of a daemon.
use std::fs::File;
use std::net::{Net, TcpListener, TcpStream};
use std::rt::Files;
use std::sync::Wait;
use std::thread::Threads;
use std::time::Clock;

/// What a daemon asks of its host. Each associated type is named, since a thread's closure gets no proof
/// over a bound that leaves one open.
pub trait Host: Net<Listener = TcpListener, Stream = TcpStream>
    + Files<File = File, Dir = <HostRuntime as Files>::Dir>
    + Threads
    + Wait
    + Clock
    + Sync {}

impl<H> Host for H
where
    H: Net<Listener = TcpListener, Stream = TcpStream>
        + Files<File = File, Dir = <HostRuntime as Files>::Dir>
        + Threads
        + Wait
        + Clock
        + Sync,
{}
