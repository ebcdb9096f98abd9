//! The parameters of a URI (RFC 3261, 19.1.1).
ghost use Rattle.std.specs.Prelude.{◌≡◌, ◌≢◌, true, not, Some, Ok, Err, IfOk, IfErr, OnOk};
ghost use Rattle.std.specs.List.{list_any};
ghost use Rattle.std.specs.Str.{str_to_ascii_lowercase};
ghost use Rattle.std.specs.Option.{option_copied};
ghost use Rattle.sipl_uri.specs.UriParts.{params_in};
ghost use Rattle.sipl_uri.specs.Params.{no_settings, param_of, take_param, take_params, transport_of_value, same_text, with_name};

use crate::fault::UriFault;
use crate::host::read_host;
use crate::question::Target;
use indexmap::IndexSet;
use sipl_choice::Transport;
use sipl_records::split_once;
use std::alloc::{AllocError, Global};
use std::marker::Model;

// What parameters say: their names, the transport, and the target in place of the host.
#[derive(Drop)]
pub(crate) struct Settings {
    // In lower case. The table is allocated where a parameter is taken.
    names: IndexSet<Vec<u8>>,
    transport: Option<Transport>,
    target: Option<Target>,
}

impl Model for Settings {
    ghost use Rattle.sipl_uri.specs.Params.{Settings};
    ghost use Rattle.sipl_uri.specs.SettingsView.{settings_of};

    ghost Value = { Settings };

    ghost view = { settings_of };
}

// Reads the text after the first semicolon: parameters from left to right, up to the first fault.
pub(crate) fn read_params(alloc: Global, text: &[u8]) -> Result<Settings, UriFault>
    ensures read { IfOk result (λ settings.
        take_params (params_in (Some text.now)) no_settings ≡ Ok settings) }
    ensures refused { IfErr result (λ fault. fault ≢ UriFault.Memory
        → take_params (params_in (Some text.now)) no_settings ≡ Err fault) }
{
    let mut settings = Settings::new(alloc);
    let mut rest = Some(text);
    while let Some(params) = rest {
        let (param, after) = split_once(params, b';');
        settings.take(alloc, param)?;
        rest = after;
    }
    Ok(settings)
}

impl Settings {
    fn new(alloc: Global) -> Self
        ensures { result ≡ no_settings }
    {
        Settings {
            names: IndexSet::new(alloc),
            transport: None,
            target: None,
        }
    }

    // The transport, where one is given.
    pub(crate) fn transport(&self) -> Option<Transport>
        ensures { result ≡ self.now.transport }
    {
        self.transport
    }

    // The target, where one is given.
    pub(crate) fn into_target(self) -> Option<Target>
        ensures { result ≡ self.target }
    {
        let Settings { target, .. } = self;
        target
    }

    // Takes one parameter.
    fn take(&mut self, alloc: Global, text: &[u8]) -> Result<(), UriFault>
        ensures ok { OnOk result (take_param (param_of text.now) self.old ≡ Ok self.new) }
        ensures refused { IfErr result (λ fault. fault ≢ UriFault.Memory
            → take_param (param_of text.now) self.old ≡ Err fault) }
    {
        let (name, value) = split_once(text, b'=');
        if name.is_empty() {
            return Err(UriFault::Characters);
        }
        if !self.insert_name(alloc, name)? {
            return Err(UriFault::Repeated);
        }
        if name.eq_ignore_ascii_case(b"transport") {
            self.transport = Some(read_transport(value).ok_or(UriFault::Transport)?);
        } else if name.eq_ignore_ascii_case(b"maddr") {
            let host = value.ok_or(UriFault::Host)?;
            self.target = Some(read_host(alloc, host)?);
        }
        Ok(())
    }

    // Inserts a name in lower case, and returns whether it is new.
    fn insert_name(&mut self, alloc: Global, name: &[u8]) -> Result<bool, AllocError>
        ensures new { IfOk result (λ is_new. is_new
            ≡ not (list_any (same_text (str_to_ascii_lowercase name.now)) self.old.names)) }
        ensures inserted { result ≡ Ok true
            → self.new ≡ with_name (str_to_ascii_lowercase name.now) self.old }
    {
        let name = name.to_ascii_lowercase(alloc)?;
        Ok(self.names.insert(name)?)
    }
}

// Reads the value of `transport`, in either case.
fn read_transport(value: Option<&[u8]>) -> Option<Transport>
    ensures { result ≡ transport_of_value (option_copied value.entry) }
{
    Transport::from_name_ignore_case(value?)
}
