//! Downs and ups of a processor.

ghost use Rattle.std.specs.Prelude.{◌≡◌, ◌<◌, [], ◌∷◌, length, IfOk, IfErr, IfSome, MatchOption};
ghost use Rattle.std.specs.List.{Any};
ghost use Rattle.fak_text.specs.Script.{down};
ghost use Rattle.fak_text.specs.Journal.{StandsAt};
ghost use Rattle.fak_processor.specs.Faults.{IsSpentSem};
ghost use Rattle.fak_processor.specs.Processors.{IsAlone, CountFalls, SleepsLast, WakesFirst, WakesNobody, lists_of};
ghost use Rattle.fak_model.specs.declared.credit.CreditKind.TheVariants.{Debit, Credit};
ghost use Rattle.fak_run.specs.Ledger.{nothing};
ghost use Rattle.fak_processor.specs.Moving.{Gains, GainsParked, GainsWoken, at_one};

use crate::station::Station;
use crate::worker::Worker;
use fak_count::Worn;
use fak_run::{Context, Run, Sleeper};
use std::sync::Wait;

impl<'r, K: Run, P: Station> Worker<'r, K, P> {
    /// A down: the sleeper passes, or it is parked.
    ///
    /// # Errors
    ///
    /// `Worn`, if the seat at the semaphore has no calls left.
    pub fn pass_or_park<R: Wait>(
        &mut self,
        rt: &R,
        at: usize,
        sleeper: Sleeper<K>,
    ) -> Result<Option<Sleeper<K>>, Worn>
        requires at { at < length K.script.semaphores }
        requires before { StandsAt K.script sleeper (down at) }
        ensures same { self.new ≡ record self.old { semaphores = self.new.semaphores } }
        ensures passed { IfOk result (λ passed. IfSome passed (λ who. who ≡ sleeper)) }
        ensures gains { IfOk result (λ passed. MatchOption passed (GainsParked K.script at sleeper self.old self.new)
            (λ _. Gains K.script self.old self.new (record nothing { credits = at_one at (Debit ∷ []) }))) }
        ensures alone { IsAlone K.script self.old → IfOk result (λ passed. MatchOption passed
            (SleepsLast K.script (lists_of K.script self.old) at sleeper self.new)
            (λ _. CountFalls K.script (lists_of K.script self.old) at self.new)) }
        ensures spent { IfErr result (λ _. Any IsSpentSem self.new.semaphores) }
    {
        let objects = self.objects;
        let seats = &mut self.seats;
        let semaphore = &objects.semaphores[at];
        let seat = &mut seats.semaphores[at];
        let Ok(passed) = semaphore.down(rt, seat, sleeper) else {
            return Err(Worn);
        };
        Ok(passed)
    }

    /// An up: the first sleeper wakes, or the count rises.
    ///
    /// # Errors
    ///
    /// `Worn`, if the seat at the semaphore has no calls left.
    pub fn wake<R: Wait>(&mut self, rt: &R, at: usize) -> Result<Option<Context<K>>, Worn>
        requires at { at < length K.script.semaphores }
        ensures same { self.new ≡ record self.old { semaphores = self.new.semaphores } }
        ensures gains { IfOk result (λ woken. MatchOption woken
            (Gains K.script self.old self.new (record nothing { credits = at_one at (Credit ∷ []) }))
            (λ q. GainsWoken K.script at q self.old self.new)) }
        ensures alone { IsAlone K.script self.old
            → IfOk result (λ woken. MatchOption woken (WakesNobody K.script (lists_of K.script self.old) at self.new)
            (λ q. WakesFirst K.script (lists_of K.script self.old) at q self.new)) }
        ensures spent { IfErr result (λ _. Any IsSpentSem self.new.semaphores) }
    {
        let objects = self.objects;
        let seats = &mut self.seats;
        let semaphore = &objects.semaphores[at];
        let seat = &mut seats.semaphores[at];
        match semaphore.up(rt, seat) {
            Err(_) => return Err(Worn),
            Ok(None) => return Ok(None),
            Ok(Some(sleeper)) => return Ok(Some(sleeper.rouse())),
        }
    }
}
