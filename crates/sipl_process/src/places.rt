//! The places of all who connect.
use sipl_listen::{Clients, max_clients};
use sipl_settings::DaemonSettings;
use std::alloc::{AllocError, Global};
use std::rt::Files;

// How many control connections there may be at a time.
const MAX_CONTROLS: usize = 8;

/// The places of all who connect: of clients, of control connections, and of those who read the metrics.
#[derive(Drop)]
pub struct Places {
    /// Those of clients.
    pub clients: Clients,
    /// Those of control connections.
    pub controls: Clients,
    /// Those of readers of the metrics.
    pub scrapers: Clients,
}

impl Places {
    /// Those of a daemon with these settings.
    pub fn new<R: Files>(
        rt: &R,
        alloc: Global,
        settings: &DaemonSettings,
    ) -> Result<Places, AllocError> {
        let max = max_clients(rt, alloc, settings.clients, settings.descriptors());
        let clients = Clients::new(alloc, max)?;
        let controls = Clients::new(alloc, MAX_CONTROLS)?;
        let scrapers = Clients::new(alloc, settings.max_scrapers())?;
        Ok(Places {
            clients,
            controls,
            scrapers,
        })
    }
}
