//! The archive of the settings, and a replay of one.
use crate::fault::Fault;
use crate::host::Host;
use crate::paths::{expect_folder, expect_page, expect_pages};
use sipl_archive::{Archive, Replayed, replay};
use sipl_settings::{DaemonSettings, OnFailure};
use std::alloc::Global;

/// Opens the archive of the settings, if they have one.
pub fn open_archive<H: Host>(
    host: &H,
    alloc: Global,
    settings: &DaemonSettings,
) -> Result<Option<Archive>, Fault> {
    let Some(path) = &settings.archive else {
        return Ok(None);
    };
    expect_folder(host, alloc, path.as_str())?;
    let archive = open_at(host, alloc, settings, path.as_str())?;
    let is_made = settings.on_failure == OnFailure::End;
    match expect_page(host, alloc, path.as_str(), is_made) {
        Ok(()) => Ok(Some(archive)),
        Err(fault) => {
            drop(archive);
            Err(fault)
        }
    }
}

// The archive of a path.
fn open_at<H: Host>(
    host: &H,
    alloc: Global,
    settings: &DaemonSettings,
    path: &str,
) -> Result<Archive, Fault> {
    let own = &settings.service;
    match Archive::open(host, alloc, path, &own.abilities, own.held) {
        Ok(archive) => Ok(archive),
        Err(error) => Err(Fault::Archive(String::from_str(alloc, path)?, error)),
    }
}

/// Replays an archive, and prints a line for each run, and how many events all have.
pub fn print_replay<R, H>(rt: &R, host: &H, folder: &str) -> Result<(), Fault>
where
    R: Print + AllocGlobal,
    H: Host,
{
    expect_pages(host, rt.alloc(), folder)?;
    let runs = replay(host, rt.alloc(), folder)?;
    print_runs(rt, &runs)
}

fn print_runs<R: Print + AllocGlobal>(rt: &R, runs: &[Replayed]) -> Result<(), Fault> {
    let mut all = 0u64;
    for run in runs {
        let (number, events) = (run.number, run.events);
        println!(rt; "run {number:06} {events}")?;
        all = all.saturating_add(events);
    }
    println!(rt; "replayed {all}")?;
    Ok(())
}
