//! All the sockets of a daemon.
use crate::fault::Fault;
use crate::host::Host;
use sipl_listen::{Address, Listener, expect_socket_or_none, take_lock};
use sipl_observed::Observed;
use sipl_settings::{DaemonSettings, Entrance};
use std::alloc::Global;
use std::fs::File;
use std::io;
use std::rt::Files;

/// The sockets at which a daemon accepts clients, and that of control lines, if it has one.
#[derive(Drop)]
pub struct Listeners {
    /// Those of clients.
    pub clients: Vec<Listener>,
    /// Those of clients that may only ask.
    pub find: Vec<Listener>,
    /// That of control lines.
    pub control: Option<Listener>,
    /// That of who reads the metrics.
    pub metrics: Option<Listener>,
}

// The addresses that are tried before a start: sockets of TCP, and the locks of the paths of Unix sockets.
#[derive(Drop)]
struct Tried {
    sockets: Vec<Listener>,
    locks: Vec<File>,
}

impl Tried {
    fn try_all<H: Host>(
        &mut self,
        host: &H,
        alloc: Global,
        settings: &DaemonSettings,
    ) -> Result<(), Fault> {
        for entrance in &settings.listen {
            self.try_at(host, alloc, entrance)?;
        }
        for entrance in &settings.find {
            self.try_at(host, alloc, entrance)?;
        }
        if let Some(entrance) = &settings.control {
            self.try_at(host, alloc, entrance)?;
        }
        if let Some(entrance) = &settings.metrics {
            self.try_at(host, alloc, entrance)?;
        }
        Ok(())
    }

    fn try_at<H: Host>(
        &mut self,
        host: &H,
        alloc: Global,
        entrance: &Entrance,
    ) -> Result<(), Fault> {
        let address = &entrance.address;
        match address {
            Address::Tcp(_) => self.sockets.push(listen_at(host, alloc, entrance, 0)?)?,
            Address::Unix(path) => {
                self.locks
                    .push(lock_at(host, alloc, address, path.as_str())?)?;
            }
        }
        Ok(())
    }
}

impl Listeners {
    /// Checks that a daemon can listen at all addresses of the settings, before it reads its state: the
    /// archive may have pages of that. None of the addresses is taken afterwards, and no socket is seen at a
    /// path.
    pub fn check<H: Host>(host: &H, alloc: Global, settings: &DaemonSettings) -> Result<(), Fault> {
        let mut tried = Tried {
            sockets: Vec::new(alloc),
            locks: Vec::new(alloc),
        };
        let outcome = tried.try_all(host, alloc, settings);
        drop(tried);
        outcome
    }

    /// Listens at all addresses of the settings, and says so: on standard output, and in the log, which has
    /// edits from then on.
    pub fn open<R, H>(
        rt: &R,
        host: &H,
        settings: &DaemonSettings,
        observed: &Observed,
    ) -> Result<Box<Listeners>, Fault>
    where
        R: Print + AllocGlobal,
        H: Host,
    {
        let alloc = rt.alloc();
        let listeners = Box::new(alloc, Listeners::bind(host, alloc, settings)?)?;
        observed.open();
        listeners.tell(host, observed);
        listeners.print(rt)?;
        Ok(listeners)
    }

    // Listens at all addresses of the settings.
    fn bind<H: Host>(
        host: &H,
        alloc: Global,
        settings: &DaemonSettings,
    ) -> Result<Listeners, Fault> {
        let mut listeners = Listeners {
            clients: Vec::new(alloc),
            find: Vec::new(alloc),
            control: None,
            metrics: None,
        };
        listeners.bind_all(host, alloc, settings)?;
        Ok(listeners)
    }

    fn bind_all<H: Host>(
        &mut self,
        host: &H,
        alloc: Global,
        settings: &DaemonSettings,
    ) -> Result<(), Fault> {
        for entrance in &settings.listen {
            self.clients
                .push(listen_at(host, alloc, entrance, settings.mode)?)?;
        }
        for entrance in &settings.find {
            self.find
                .push(listen_at(host, alloc, entrance, settings.mode)?)?;
        }
        if let Some(entrance) = &settings.control {
            self.control = Some(listen_at(host, alloc, entrance, settings.mode)?);
        }
        if let Some(entrance) = &settings.metrics {
            self.metrics = Some(listen_at(host, alloc, entrance, settings.mode)?);
        }
        Ok(())
    }

    // Prints the addresses: after the others those of clients that may only ask, and that of control lines
    // last.
    fn print<R: Print>(&self, rt: &R) -> io::Result<()> {
        for listener in &self.clients {
            println!(rt; "ready {}", listener.address())?;
        }
        for listener in &self.find {
            println!(rt; "ready {}", listener.address())?;
        }
        if let Some(listener) = &self.control {
            println!(rt; "ready {}", listener.address())?;
        }
        Ok(())
    }

    // Tells the addresses in the log, and that of who reads the metrics, too.
    fn tell<H: Host>(&self, host: &H, observed: &Observed) {
        for listener in &self.clients {
            observed.tell_ready(host, "clients", listener.address());
        }
        for listener in &self.find {
            observed.tell_ready(host, "find", listener.address());
        }
        if let Some(listener) = &self.control {
            observed.tell_ready(host, "control", listener.address());
        }
        if let Some(listener) = &self.metrics {
            observed.tell_ready(host, "metrics", listener.address());
        }
    }

    /// Ends all accepts but those of who reads the metrics.
    pub fn close(&self) {
        for listener in &self.clients {
            listener.close();
        }
        for listener in &self.find {
            listener.close();
        }
        if let Some(listener) = &self.control {
            listener.close();
        }
    }

    /// Removes the files of Unix sockets.
    pub fn remove<H: Host>(&self, host: &H) {
        for listener in &self.clients {
            listener.remove(host);
        }
        for listener in &self.find {
            listener.remove(host);
        }
        if let Some(listener) = &self.control {
            listener.remove(host);
        }
        if let Some(listener) = &self.metrics {
            listener.remove(host);
        }
    }
}

fn listen_at<H: Host>(
    host: &H,
    alloc: Global,
    entrance: &Entrance,
    mode: u32,
) -> Result<Listener, Fault> {
    let address = &entrance.address;
    match Listener::bind(host, alloc, address, entrance.mode.unwrap_or(mode)) {
        Ok(listener) => Ok(listener),
        Err(error) => Err(Fault::Listen(address.dup(alloc)?, error)),
    }
}

// Takes the lock of a path where a Unix socket can be.
fn lock_at<H: Host>(host: &H, alloc: Global, address: &Address, path: &str) -> Result<File, Fault> {
    match lock_path(host, alloc, path) {
        Ok(lock) => Ok(lock),
        Err(error) => Err(Fault::Listen(address.dup(alloc)?, error)),
    }
}

fn lock_path<R: Files<File = File>>(rt: &R, alloc: Global, path: &str) -> io::Result<File> {
    expect_socket_or_none(rt, path)?;
    take_lock(rt, format!(in alloc; "{path}.lock")?.as_str())
}
