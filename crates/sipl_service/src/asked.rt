ghost use Rattle.std.specs.Prelude.{◌≡◌, IfOk};

use sipl_choice::Abilities;
use sipl_outages::Held;
use sipl_srv::Draws;
use sipl_uri::Question;
use std::alloc::{AllocError, Global};

/// A question as it is asked, for a client, a policy on held endpoints, and random words.
#[derive(Drop)]
pub(crate) struct Asked {
    pub question: Question,
    pub abilities: Abilities,
    pub held: Held,
    pub draws: Draws,
}

impl Asked {
    // Copies of what is asked, in a box: so an answer is short, and quick to move.
    pub fn of(
        alloc: Global,
        question: &Question,
        abilities: &Abilities,
        held: Held,
        draws: &Draws,
    ) -> Result<Box<Self>, AllocError>
        ensures { IfOk result (λ asked. asked.value ≡ record {
          question = question.now;
          abilities = abilities.now;
          held = held;
          draws = draws.now;
        }) }
    {
        let abilities = abilities.dup(alloc)?;
        let asked = Asked {
            question: question.dup(alloc)?,
            abilities,
            held,
            draws: *draws,
        };
        Ok(Box::new(alloc, asked)?)
    }
}
