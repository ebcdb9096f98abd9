ghost use Rattle.std.specs.Prelude.{◌≡◌, ◌≢◌, ◌+◌, ◌-◌, ◌^◌, ◌<◌, ◌≤◌, length, IfOk, IfErr, OnOk, Ok, Err};
ghost use Rattle.sipl_names.specs.LabelSlices.{octets_of};
ghost use Rattle.sipl_masterfile.specs.Entries.{entries_of};
ghost use Rattle.sipl_masterfile.specs.Statements.{statement_of};
ghost use Rattle.sipl_masterfile.specs.Zones.{first_reading, after_entries, after_fields};

use crate::entries::Entries;
use crate::fault::{ZoneCause, ZoneFault};
use crate::intake::Intake;
use crate::statement::{Statement, read_statement};
use crate::zone::ZoneText;
use sipl_names::Name;
use std::alloc::{AllocError, Global};
use std::marker::Model;

// A zone's text that is read up to some entry: the origin, the owner of the last record, if there
// was one, and the zone of the entries before.
#[derive(Drop)]
pub(crate) struct Reading {
    origin: Name,
    owner: Option<Name>,
    zone: Intake,
}

impl Model for Reading {
    ghost use Rattle.sipl_masterfile.specs.Zones.{Reading as State};

    ghost Value = { State };

    ghost view = { λ r. record { origin = r.origin; owner = r.owner; zone = r.zone } };
}

impl Reading {
    pub(crate) fn new(alloc: Global, apex: &Name) -> Result<Self, AllocError>
        ensures { IfOk result (λ reading. reading ≡ first_reading apex.now) }
    {
        Ok(Reading {
            origin: apex.dup(alloc)?,
            owner: None,
            zone: Intake::new(alloc, apex.dup(alloc)?),
        })
    }

    // Reads the entries of a text.
    pub(crate) fn read_text(&mut self, alloc: Global, text: &[u8]) -> Result<(), ZoneFault>
        requires { self.old.zone.outside + self.old.zone.repeated + length text.now < 2 ^ 64 }
        ensures read { OnOk result (after_entries (entries_of text.now) self.old ≡ Ok self.new) }
        ensures refused { IfErr result (λ fault. fault.cause ≢ ZoneCause.Memory
            → after_entries (entries_of text.now) self.old ≡ Err fault) }
        ensures memory { IfErr result (λ fault. fault.cause ≡ ZoneCause.Memory → fault.line ≡ 1) }
    {
        let mut fields = Vec::new(alloc);
        self.read_entries(alloc, &mut Entries::new(text), &mut fields)
    }

    // Reads entries one after another, and leaves in `fields` those of one of them.
    fn read_entries<'a>(
        &mut self,
        alloc: Global,
        entries: &mut Entries<'a>,
        fields: &mut Vec<&'a [u8]>,
    ) -> Result<(), ZoneFault>
        requires { self.old.zone.outside + self.old.zone.repeated + length entries.old < 2 ^ 64 }
        ensures read { OnOk result (after_entries entries.old self.old ≡ Ok self.new) }
        ensures refused { IfErr result (λ fault. fault.cause ≢ ZoneCause.Memory
            → after_entries entries.old self.old ≡ Err fault) }
        ensures memory { IfErr result (λ fault. fault.cause ≡ ZoneCause.Memory → fault.line ≡ 1) }
    {
        while let Some(head) = entries.next_entry(fields)? {
            if let Err(cause) = self.read_entry(alloc, head.is_indented, fields) {
                return Err(ZoneFault::at(head.line, cause));
            }
        }
        Ok(())
    }

    // Reads the fields of an entry.
    fn read_entry(
        &mut self,
        alloc: Global,
        is_indented: bool,
        fields: &[&[u8]],
    ) -> Result<(), ZoneCause>
        requires { self.old.zone.outside + self.old.zone.repeated < 2 ^ 64 - 1 }
        ensures read { OnOk result
            (after_fields is_indented (octets_of fields.now) self.old ≡ Ok self.new) }
        ensures left_out { OnOk result (self.new.zone.outside + self.new.zone.repeated
            ≤ self.old.zone.outside + self.old.zone.repeated + 1) }
        ensures refused { IfErr result (λ cause. cause ≢ ZoneCause.Memory
            → after_fields is_indented (octets_of fields.now) self.old ≡ Err cause) }
    {
        match self.read_statement(alloc, is_indented, fields)? {
            Statement::Record(record) => {
                self.owner = Some(record.owner.dup(alloc)?);
                self.zone.take_in(alloc, record)
            }
            Statement::Origin(name) => {
                self.origin = name;
                Ok(())
            }
            Statement::Ttl => Ok(()),
        }
    }

    // What the fields of the next entry state.
    fn read_statement(
        &self,
        alloc: Global,
        is_indented: bool,
        fields: &[&[u8]],
    ) -> Result<Statement, ZoneCause>
        ensures read { IfOk result (λ stated. statement_of is_indented (octets_of fields.now)
            self.now.origin self.now.owner ≡ Ok stated) }
        ensures refused { IfErr result (λ cause. cause ≢ ZoneCause.Memory
            → statement_of is_indented (octets_of fields.now) self.now.origin self.now.owner
            ≡ Err cause) }
    {
        let owner = self.owner.as_ref();
        read_statement(alloc, is_indented, fields, &self.origin, owner)
    }

    // The zone of the entries that were read.
    pub(crate) fn into_zone(self, alloc: Global) -> Result<ZoneText, AllocError>
        ensures { IfOk result (λ zone. zone ≡ self.zone) }
    {
        let Reading { zone, .. } = self;
        zone.into_zone(alloc)
    }
}
