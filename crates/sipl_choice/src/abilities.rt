ghost use Rattle.std.specs.Prelude.{◌≡◌, None, IfOk};
ghost use Rattle.std.specs.Result.{result_err};
ghost use Rattle.std.specs.Cmp.{partial_equiv_from_equiv};
ghost use Rattle.sipl_choice.specs.Abilities.{abilities_fault, repeats_transport, same_client, supports};
ghost use Rattle.sipl_choice.specs.SameClient.{same_client-equivalence};

use crate::families::Families;
use crate::fault::AbilitiesFault;
use crate::transport::Transport;
use std::alloc::{AllocError, Global};
use std::marker::Model;

/// What a client can do (RFC 3263, 4.1 and 4.2): the transports that it supports, in the order in
/// which it prefers them, and the families of addresses that it uses. It supports at least one
/// transport, and lists none twice.
#[derive(Debug, Drop)]
pub struct Abilities {
    // The transports, in the first places.
    kept: [Transport; 4],
    // How many there are.
    count: u8,
    families: Families,
}

impl Model for Abilities {
    ghost use Rattle.std.specs.Prelude.{◌≡◌, ◌≤◌, None, take};
    ghost use Rattle.sipl_choice.specs.Abilities.{Client, abilities_fault};

    ghost Value = { Client };

    ghost view = { λ client. record {
      preference = take client.count client.kept;
      families = client.families;
    } };

    ghost invariant = { λ client.
        (client.count ≤ 4) × (abilities_fault (take client.count client.kept) ≡ None) };
}

impl Abilities {
    /// The abilities of a client that supports these transports, in the order in which it prefers
    /// them. C1 where there is none, C2 where one of them is listed twice. Does not allocate.
    pub fn new(preference: Vec<Transport>, families: Families) -> Result<Self, AbilitiesFault>
        ensures preference { IfOk result (λ abilities. abilities.preference ≡ preference.items) }
        ensures families { IfOk result (λ abilities. abilities.families ≡ families) }
        ensures refused { abilities_fault preference.items ≡ result_err result }
    {
        if preference.is_empty() {
            return Err(AbilitiesFault::EmptyAbilities);
        }
        if repeats_transport(&preference) {
            return Err(AbilitiesFault::RepeatedTransport);
        }
        let count = preference.len();
        let mut kept = [Transport::Udp; 4];
        kept[..count].copy_from_slice(&preference);
        Ok(Abilities {
            kept,
            count: count as u8,
            families,
        })
    }

    /// The transports that the client supports, in the order in which it prefers them.
    pub fn preference(&self) -> &[Transport]
        ensures value { result.now ≡ self.now.preference }
        ensures valid { abilities_fault self.now.preference ≡ None }
    {
        &self.kept[..self.count as usize]
    }

    /// The families of addresses that the client uses.
    pub fn families(&self) -> Families
        ensures { result ≡ self.now.families }
    {
        self.families
    }

    /// Whether the client supports this transport.
    pub fn supports(&self, transport: Transport) -> bool
        ensures { result ≡ supports self.now.preference transport }
    {
        self.preference().contains(&transport)
    }

    /// A copy. Does not allocate.
    pub fn dup(&self, _alloc: Global) -> Result<Self, AllocError>
        ensures { IfOk result (λ copy. copy ≡ self.now) }
    {
        Ok(Abilities {
            kept: self.kept,
            count: self.count,
            families: self.families,
        })
    }
}

impl PartialEq for Abilities {
    ghost eq = { same_client };

    ghost laws = { partial_equiv_from_equiv same_client-equivalence };

    fn eq(&self, other: &Abilities) -> bool {
        self.preference() == other.preference() && self.families == other.families
    }
}

impl Eq for Abilities {
    ghost laws = { same_client-equivalence };
}

// Whether a transport is in the list twice.
fn repeats_transport(transports: &[Transport]) -> bool
    ensures { result ≡ repeats_transport transports.now }
{
    let mut rest = transports;
    while let [transport, others @ ..] = rest {
        if others.contains(transport) {
            return true;
        }
        rest = others;
    }
    false
}
