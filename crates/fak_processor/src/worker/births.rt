//! Births.

ghost use Rattle.std.specs.Prelude.{◌≡◌, [], ◌∷◌, Bool, ◌-◌, ◌≤◌, IfOk, IfErr, MatchBool};
ghost use Rattle.fak_count.specs.Rooms.{granted_claims, held_amount};
ghost use Rattle.fak_model.specs.declared.room.RoomKind.TheVariants.{Up, Release};
ghost use Rattle.fak_run.specs.Ledger.{nothing};
ghost use Rattle.fak_processor.specs.Events.{refused_claim};
ghost use Rattle.fak_processor.specs.Moving.{Gains};
ghost use Rattle.fak_processor.specs.Processors.{HasNoBirth, IsAlone, IsBorn, GoesTo, lists_of};

use crate::station::Station;
use crate::worker::Worker;
use fak_count::{TirFault, Worn};
use fak_run::Run;

impl<'r, K: Run, P: Station> Worker<'r, K, P> {
    /// Claims a birth, if there is one left.
    ///
    /// # Errors
    ///
    /// `Worn`, if the seat has no claims left.
    pub fn claim_birth(&mut self) -> Result<bool, Worn>
        ensures same { self.new ≡ record self.old { births = self.new.births } }
        ensures held { IfOk result (λ born. MatchBool born (1 ≤ held_amount self.new.births)
            (held_amount self.new.births ≡ held_amount self.old.births)) }
        ensures gains { IfOk result (λ born. MatchBool born
            (Gains K.script self.old self.new (record nothing { births = Up 1 ∷ [] }))
            ((late : Bool) × Gains K.script self.old self.new (record nothing { births = refused_claim late }))) }
        ensures alone { IsAlone K.script self.old
            → IfOk result (λ born. MatchBool born (IsBorn K.script (lists_of K.script self.old) self.new)
            (HasNoBirth K.script (lists_of K.script self.old) self.new)) }
        ensures spent { IfErr result (λ _. granted_claims self.new.births ≡ self.new.births.stint) }
    {
        let objects = self.objects;
        let seats = &mut self.seats;
        match objects.births.tir(&mut seats.births, 1) {
            Ok(_) => return Ok(true),
            Err(TirFault::Worn) => return Err(Worn),
            Err(TirFault::AtBound(_)) => return Ok(false),
        }
    }

    /// Gives a birth back.
    pub fn give_birth_back(&mut self)
        requires held { 1 ≤ held_amount self.old.births }
        ensures same { self.new ≡ record self.old { births = self.new.births } }
        ensures gains { Gains K.script self.old self.new (record nothing { births = Release 1 ∷ [] }) }
        ensures alone { IsAlone K.script self.old → GoesTo K.script self.new (record
            (lists_of K.script self.old) { births = held_amount self.old.births - 1 }) }
    {
        let objects = self.objects;
        let seats = &mut self.seats;
        objects.births.release(&mut seats.births, 1);
    }
}
