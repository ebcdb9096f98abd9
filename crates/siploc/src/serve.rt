//! Sessions over TCP, each in a thread of its own, over one service.
ghost use Rattle.sipl_lines.specs.Settings.{IsWithinLimits};

use sipl_book::Page;
use sipl_lines::{ServiceDesk, Settings, Tapped, serve};
use sipl_service::{ClaimFault, OpenGate, Pass, Service, ServiceFault, claim};
use std::alloc::{AllocError, Global};
use std::net::{Net, SocketAddr, TcpListener, TcpStream};
use std::sync::{Mutex, Wait};
use std::thread;
use std::thread::Threads;

/// Why a server ends with a fault.
#[derive(Drop)]
pub enum ServerFault {
    /// It cannot listen at its address, or a connection was not accepted.
    Listen,
    /// The service cannot be closed.
    Close(ServiceFault),
    /// The pages do not follow one another, or their events are not the union of the receipts of all
    /// sessions, or an allocation failed.
    Claim(ClaimFault),
    /// An allocation failed before a connection was accepted.
    Memory,
}

impl From<AllocError> for ServerFault {
    fn from(_: AllocError) -> ServerFault {
        ServerFault::Memory
    }
}

// What is left of the sessions that have ended: their passes, and the pages that each turned.
#[derive(Drop)]
struct Remains {
    passes: Vec<Pass>,
    turned: Vec<Vec<Page>>,
}

// What the threads of a server share: the service, and what is left of the sessions that have ended.
#[derive(Drop)]
struct Server {
    alloc: Global,
    service: Service,
    ended: Mutex<Remains>,
}

/// Serves as many connections as the settings say, beside the repair workers. When all sessions have
/// ended, closes the service, and claims the events of all pages with the passes of all sessions. Returns
/// how many events there were. All pages are kept until then.
pub fn serve_connections<H>(alloc: Global, host: &H, settings: Settings) -> Result<u64, ServerFault>
where
    H: Net<Listener = TcpListener, Stream = TcpStream> + Threads + Wait + Sync,
    requires { IsWithinLimits settings }
{
    let Ok(listener) = host.bind(SocketAddr::V4(settings.listen)) else {
        return Err(ServerFault::Listen);
    };
    let (sessions, workers) = (settings.sessions, settings.workers as u64);
    let (limits, tries) = (settings.limits(), settings.tries as u64);
    let server = Server {
        alloc,
        service: Service::new(alloc, settings.abilities, &limits, tries, settings.held)?,
        ended: Mutex::new(Remains::with_capacity(alloc, sessions)?),
    };
    let served = thread::scope(thread::scope_env(), host, |scope| {
        let _ = scope.spawn(|| server.service.run_workers(host, workers, &OpenGate));
        let served = server.accept_all(host, &listener, sessions);
        server.service.stop(host);
        served
    });
    served?;
    server.close()
}

impl Remains {
    // Those of no session, with space for so many, so that none is lost.
    fn with_capacity(alloc: Global, sessions: usize) -> Result<Remains, AllocError> {
        let mut remains = Remains {
            passes: Vec::new(alloc),
            turned: Vec::new(alloc),
        };
        match remains.reserve(sessions) {
            Ok(()) => Ok(remains),
            Err(error) => Err(error),
        }
    }

    fn reserve(&mut self, sessions: usize) -> Result<(), AllocError> {
        self.passes.reserve(sessions)?;
        self.turned.reserve(sessions)
    }

    // Keeps what is left of a session, for which there is space.
    fn keep(&mut self, pass: Pass, pages: Vec<Page>) {
        let _ = self.passes.push(pass);
        let _ = self.turned.push(pages);
    }
}

impl Server {
    // Accepts so many connections, and serves each in a thread, or on this one where none can be made.
    // Waits for the sessions to end.
    fn accept_all<H: Threads + Wait + Sync>(
        &self,
        host: &H,
        listener: &TcpListener,
        sessions: usize,
    ) -> Result<(), ServerFault> {
        thread::scope(thread::scope_env(), host, |scope| {
            for _ in 0..sessions {
                let Ok((stream, _peer)) = listener.accept() else {
                    return Err(ServerFault::Listen);
                };
                if let Err(refused) = scope.spawn(move || self.serve_connection(host, stream)) {
                    let session = refused.value;
                    session();
                }
            }
            Ok(())
        })
    }

    // Serves the session of a connection, and keeps its pass and its pages. A fault ends only this
    // session.
    fn serve_connection<H: Wait>(&self, host: &H, stream: TcpStream) {
        // Without this a short reply may wait until the client has acknowledged the one before.
        let _ = stream.set_nodelay(true);
        let mut desk = ServiceDesk::new(self.alloc, host, &self.service, self.service.pass());
        let mut reader = Tapped::new(&stream);
        let mut writer = Tapped::new(&stream);
        let _ = serve(self.alloc, &mut reader, &mut writer, &mut desk);
        let (pass, pages) = desk.into_parts();
        self.ended.lock(host).keep(pass, pages);
    }

    // Closes the service, and claims the events of all pages. Returns how many there were.
    fn close(self) -> Result<u64, ServerFault> {
        let ended = self.ended.into_inner();
        let last = match self.service.close() {
            Ok(last) => last,
            Err((fault, _service)) => return Err(ServerFault::Close(fault)),
        };
        // The first event has the number 0.
        let events = last.next();
        match claim_all(self.alloc, ended, last) {
            Ok(()) => Ok(events),
            Err(fault) => Err(ServerFault::Claim(fault)),
        }
    }
}

// Claims the events of the pages of all sessions, and of the last page, with the passes of all sessions.
fn claim_all(alloc: Global, ended: Remains, last: Page) -> Result<(), ClaimFault> {
    let Remains { passes, turned } = ended;
    let mut pages = Vec::new(alloc);
    match push_in_order(&mut pages, turned, last) {
        Ok(()) => claim(alloc, pages.as_slice(), passes.as_slice()),
        Err(_) => Err(ClaimFault::Memory),
    }
}

// Appends all pages in their order, and the last one.
fn push_in_order(
    pages: &mut Vec<Page>,
    turned: Vec<Vec<Page>>,
    last: Page,
) -> Result<(), AllocError> {
    push_all(pages, turned)?;
    pages.sort_unstable_by_key(|page| order_of(page));
    pages.push(last)?;
    Ok(())
}

fn push_all(pages: &mut Vec<Page>, turned: Vec<Vec<Page>>) -> Result<(), AllocError> {
    for more in turned {
        pages.extend(more)?;
    }
    Ok(())
}

// By what pages are sorted: a page without events has the first number of the page after it.
fn order_of(page: &Page) -> (u64, u64) {
    (page.first(), page.extent().count)
}
