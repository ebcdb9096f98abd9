//! What the threads of a daemon share.
ghost use Rattle.std.specs.Prelude.{IfOk};
ghost use Rattle.sipl_lines.specs.Settings.{IsWithinLimits};
ghost use Rattle.sipl_service.specs.Passes.{GetsReceipt};
ghost use Rattle.sipl_service.specs.Telling.{IsToldFor, event_of};

use crate::journal::pages::{Pages, board_octets};
use sipl_archive::Archive;
use sipl_book::BookFault;
use sipl_lines::Settings;
use sipl_listen::{Clients, Stop};
use sipl_log::Log;
use sipl_observed::{Counts, Figures, Observed, resident};
use sipl_process::Places;
use sipl_service::{OpenGate, Pass, Service, ServiceFault, Told};
use sipl_settings::{Clocks, DaemonSettings, OnFailure};
use sipl_srv::Draws;
use sipl_state::{Changes, FoundFiles, HostTime, Source};
use sipl_uri::Question;
use std::alloc::Global;
use std::io;
use std::rt::Files;
use std::sync::atomic::{AtomicBool, AtomicU64, Ordering};
use std::sync::{Arc, Mutex, Wait};
use std::time::{Clock, Instant};

/// What the threads of a daemon share.
#[derive(Drop)]
pub(crate) struct Daemon {
    pub(crate) alloc: Global,
    pub(crate) source: Source,
    // Where the pages are kept that were claimed.
    pub(crate) archive: Option<Archive>,
    // How many octets the lines of a zone may have.
    pub(crate) zone_octets: u64,
    pub(crate) pages: Pages,
    pub(crate) stop: Arc<Stop, Global>,
    pub(crate) clients: Clients,
    pub(crate) controls: Clients,
    pub(crate) counts: Counts,
    pub(crate) observed: Observed,
    // Those who read the metrics, and whether no more may.
    pub(crate) scrapers: Clients,
    pub(crate) scrapes_end: Stop,
    // The time of the host, if that is the book's.
    time: Option<HostTime>,
    // The pass of the moves of the clock.
    pub(crate) mover: Mutex<Pass>,
    // What it does where changes can't be written, or pages archived.
    pub(crate) on_failure: OnFailure,
    // For how many seconds a client may send nothing.
    pub(crate) idle: Option<u64>,
    // Whether a thread could not be made without which it does not go on.
    lacks_thread: AtomicBool,
}

// What a daemon has beside its service: its time, the places of all who connect, and what is told of it.
#[derive(Drop)]
struct Surroundings {
    time: Option<HostTime>,
    places: Places,
    observed: Observed,
}

impl Surroundings {
    // Those of a daemon with these settings.
    fn new<R: Clock + Files>(
        rt: &R,
        alloc: Global,
        settings: &DaemonSettings,
        log: &Arc<Log, Global>,
    ) -> io::Result<Surroundings> {
        let time = match settings.clock {
            Clocks::Host => Some(HostTime::new(rt, 0)?),
            Clocks::Lines => None,
        };
        let places = Places::new(rt, alloc, settings)?;
        match Observed::new(rt, alloc, settings, log) {
            Ok(observed) => Ok(Surroundings {
                time,
                places,
                observed,
            }),
            Err(error) => {
                drop(places);
                Err(io::Error::from(error))
            }
        }
    }
}

impl Daemon {
    /// A daemon with these settings, over a service without zones, holds or events.
    pub(crate) fn new<R: Clock + Files>(
        rt: &R,
        alloc: Global,
        settings: &DaemonSettings,
        stop: &Arc<Stop, Global>,
        log: &Arc<Log, Global>,
    ) -> io::Result<Box<Daemon>> {
        let stop = Arc::try_clone(stop)?;
        let surroundings = Surroundings::new(rt, alloc, settings, log)?;
        match new_service(alloc, &settings.service) {
            Ok(service) => {
                let daemon = Daemon::over(service, alloc, settings, stop, surroundings);
                Ok(Box::new(alloc, daemon)?)
            }
            Err(error) => {
                drop(surroundings);
                drop(stop);
                Err(error)
            }
        }
    }

    // A daemon over this service.
    fn over(
        service: Service,
        alloc: Global,
        settings: &DaemonSettings,
        stop: Arc<Stop, Global>,
        surroundings: Surroundings,
    ) -> Daemon {
        let Surroundings {
            time,
            places,
            observed,
        } = surroundings;
        let mover = Mutex::new(service.pass());
        Daemon {
            alloc,
            source: Source::new(alloc, service),
            archive: None,
            zone_octets: settings.zone_octets,
            pages: Pages::new(alloc, settings.service.journal as u64, settings.page_octets),
            stop,
            clients: places.clients,
            controls: places.controls,
            counts: Counts::new(),
            observed,
            scrapers: places.scrapers,
            scrapes_end: Stop::new(),
            time,
            mover,
            on_failure: settings.on_failure,
            idle: settings.idle,
            lacks_thread: AtomicBool::new(false),
        }
    }

    /// Asks for the stop, since a thread could not be made without which the daemon does not go on.
    pub(crate) fn lack_thread<R: Wait>(&self, rt: &R) {
        self.lacks_thread.store(true, Ordering::SeqCst);
        self.stop.ask(rt);
    }

    /// Whether it ends since a thread could not be made.
    pub(crate) fn lacks_thread(&self) -> bool {
        self.lacks_thread.load(Ordering::SeqCst)
    }

    /// Moves the book's time to that of the host, if it is the host's and an endpoint is held. The move is
    /// not among the changes: the next hold or release has the time. A move that is refused is made later.
    pub(crate) fn move_clock<R: Wait + Clock>(&self, rt: &R) {
        let Some(time) = &self.time else {
            return;
        };
        let now = time.now(rt);
        let mut mover = self.mover.lock(rt);
        let tally = self.source.tally.lock(rt);
        let service = &self.source.service;
        if service.held_endpoints(rt) == 0 || now <= service.now(rt) {
            return;
        }
        let moved = service.advance(rt, &mut mover, now);
        drop(tally);
        self.end_move(rt, &mut mover, moved);
    }

    /// Moves the book's time to that of the host, if it is the host's. The move is among the changes, unless
    /// these can't be written.
    pub(crate) fn set_clock<R: Wait + Clock>(&self, rt: &R) {
        let Some(time) = &self.time else {
            return;
        };
        let now = time.now(rt);
        let mut mover = self.mover.lock(rt);
        if self.source.service.now(rt) < now {
            let moved = if self.source.has_failed() {
                self.source.move_time(rt, &mut mover, now)
            } else {
                self.source.advance(rt, &mut mover, now, &AtomicU64::new(0))
            };
            self.end_move(rt, &mut mover, moved);
        }
    }

    // Counts a move that was made, and hands its receipt over.
    fn end_move<R: Wait>(&self, rt: &R, mover: &mut Pass, moved: Result<u64, ServiceFault>) {
        if let Ok(number) = moved {
            self.count_event(rt, number, board_octets(), 0);
        }
        let _ = self.pages.hand_over(rt, mover);
    }

    /// Whether the time is the host's.
    pub(crate) fn has_host_time(&self) -> bool {
        self.time.is_some()
    }

    /// Hands the receipts of the moves of the clock over that were not: at the end, since each move does.
    pub(crate) fn end_moves<R: Wait>(&self, rt: &R) {
        let mut mover = self.mover.lock(rt);
        let _ = self.pages.hand_over(rt, &mut mover);
    }

    /// Goes on from a state that was read: the changes after it are in a file.
    pub(crate) fn put_changes(&mut self, changes: Changes) {
        drop(self.source.changes.replace(changes));
    }

    /// The time of the host goes on from that of the book.
    pub(crate) fn restart_time<R: Wait + Clock>(&mut self, rt: &R) -> io::Result<()> {
        let now = self.source.service.now(rt);
        match &mut self.time {
            Some(time) => time.restart(rt, now),
            None => Ok(()),
        }
    }

    /// The answer to a question. Where the journal is full the page is turned, and it is tried again.
    pub(crate) fn lookup<R: Wait>(
        &self,
        rt: &R,
        pass: &mut Pass,
        question: &Question,
        draws: &Draws,
    ) -> Result<Told, ServiceFault>
        ensures receipt { GetsReceipt (λ told. told.number) event_of pass.old pass.new result }
        ensures told { IfOk result (λ told. IsToldFor question.now self.now.source.service.client
            self.now.source.service.held draws.now told) }
    {
        match self
            .source
            .service
            .lookup(rt, pass, question, draws, &OpenGate)
        {
            Err(ServiceFault::Book(BookFault::JournalFull)) => {}
            told => return told,
        }
        let _ = self.pages.turn_page(rt, &self.source);
        self.source
            .service
            .lookup(rt, pass, question, draws, &OpenGate)
    }

    /// Counts an event that takes so many octets, of a session whose last change ends at this place, and
    /// turns the page if that is due.
    pub(crate) fn count_event<R: Wait>(&self, rt: &R, number: u64, octets: u64, place: u64) {
        self.counts.count_event(number);
        self.pages
            .count_event(rt, &self.source, number, octets, place);
    }

    /// Whether it goes on where changes can't be written, and they can't: they are refused until they can.
    pub(crate) fn refuses_changes(&self) -> bool {
        self.on_failure == OnFailure::Read && self.source.has_failed()
    }

    /// What is counted, as it is now.
    pub(crate) fn figures<R: Files + Wait>(&self, rt: &R) -> Figures {
        let (zones, records, held) = self.totals(rt);
        Figures {
            entries: self.source.service.entry_counts(rt),
            zones,
            records,
            held,
            clients: self.clients.count(rt),
            claimed: self.pages.claimed(),
            waiting: self.pages.waiting(rt) as u64,
            resident: resident(rt, self.alloc),
            refuses_changes: self.refuses_changes(),
        }
    }

    /// Tells what was read of the files of the state from a time on, or that there are none.
    pub(crate) fn tell_read<R: Wait + Clock>(
        &self,
        rt: &R,
        found: &FoundFiles,
        begun: Option<Instant>,
    ) {
        if found.are_there {
            let totals = self.totals(rt);
            self.observed.tell_read(rt, begun, totals, found.commits);
        } else {
            self.observed.tell_empty(rt);
        }
    }

    /// Tells where there may be fewer clients at a time than this, which the settings have.
    pub(crate) fn tell_fewer_clients<R: Wait + Clock>(&self, rt: &R, wanted: usize) {
        let (wanted, allowed) = (wanted as u64, self.clients.max(rt));
        if allowed < wanted {
            self.observed.tell_fewer_clients(rt, wanted, allowed);
        }
    }

    // How many zones there are, how many records they have, and how many endpoints are held.
    fn totals<R: Wait>(&self, rt: &R) -> (u64, u64, u64) {
        let tally = self.source.tally.lock(rt);
        let held = self.source.service.held_endpoints(rt) as u64;
        (tally.zones().len() as u64, tally.records(), held)
    }
}

// A service with these settings, without zones, holds or events.
fn new_service(alloc: Global, settings: &Settings) -> io::Result<Service>
    requires { IsWithinLimits settings.now }
{
    let abilities = settings.abilities.dup(alloc)?;
    let limits = settings.limits();
    let tries = settings.tries as u64;
    Ok(Service::new(alloc, abilities, &limits, tries, settings.held)?)
}
