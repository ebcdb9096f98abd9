//! What is reported of edits of the zones.
use crate::observed::{Observed, with_time};
use sipl_book::{Done, Edit};
use sipl_log::{Level, Line};
use sipl_names::Name;
use sipl_service::ServiceFault;
use std::alloc::{AllocError, Global};
use std::sync::Wait;
use std::time::{Clock, Instant};

/// An edit that is to be reported once it is made or refused.
#[derive(Drop)]
pub struct Story {
    level: Level,
    event: &'static str,
    name: Name,
    records: u64,
    begun: Option<Instant>,
}

impl Story {
    /// That of an edit which begins now. The zone that it unloads, if it does, has so many records.
    pub fn new<R: Clock>(
        rt: &R,
        alloc: Global,
        edit: &Edit,
        unloaded: u64,
    ) -> Result<Story, AllocError> {
        let (level, event, name) = match edit {
            Edit::Load(zone) => (Level::Info, "loaded", zone.apex()),
            Edit::Unload(apex) => (Level::Info, "dropped", apex),
            Edit::Add(record) => (Level::Debug, "added", &record.owner),
            Edit::Remove(record) => (Level::Debug, "removed", &record.owner),
        };
        let records = match edit {
            Edit::Load(zone) => zone.records().len() as u64,
            Edit::Unload(_) => unloaded,
            _ => 1,
        };
        Ok(Story {
            level,
            event,
            name: name.dup(alloc)?,
            records,
            begun: Instant::now(rt).ok(),
        })
    }

    /// Reports that the edit was made, or that it failed.
    pub fn tell<R: Wait + Clock>(
        &self,
        rt: &R,
        observed: &Observed,
        outcome: &Result<Done, ServiceFault>,
    ) {
        match outcome {
            Ok(done) if observed.log.allows(self.level) => {
                let line = self
                    .with_name(observed, observed.line(self.level, self.event))
                    .number("records", self.records)
                    .number("changed", done.changed);
                observed.log.push(rt, with_time(rt, line, self.begun));
            }
            Ok(_) => {}
            Err(fault) => {
                let line = observed
                    .line(Level::Warn, "failed")
                    .text("what", self.event);
                let line = self.with_name(observed, line);
                observed.log.push(rt, line.text("code", fault.code()));
            }
        }
    }

    // The line with the name of a zone, or of a record's owner.
    fn with_name(&self, observed: &Observed, line: Line) -> Line {
        let mut text = Vec::new(observed.alloc);
        match self.name.write(&mut text) {
            Ok(()) => line.text("name", str::from_utf8(&text).unwrap_or("")),
            Err(_) => line,
        }
    }
}
