// The public calls of a station. Each takes every input: it tests the station that it was handed, then the other refusals
// in document 01's order, and hands the station back as it was where one holds.
ghost use Rattle.std.specs.Prelude.{◌≡◌, IfOk, IfErr, map, length, slice_get, false, true};
ghost use Rattle.refusals.specs.declared.Refusal.TheVariants.{UnsoundState};
ghost use Rattle.ranges.specs.Settings.{standard};
ghost use Rattle.tracker.specs.Steps.{dit_estimate};
ghost use Rattle.rival.specs.View.{view_hyp};
ghost use Rattle.station_model.specs.Counting.{count_of};
ghost use Rattle.station.specs.View.{view};
ghost use Rattle.station.specs.Parts.{Solid};
ghost use Rattle.station.specs.Sound.{sound};
ghost use Rattle.station.specs.Answers.{Begins, Called, glimpse, reads};

use crate::inner::refusing::refuse;
use crate::inner::sound::is_sound;
use crate::inner::{call as known, fresh as begun};
use crate::{Outcome, Rival, Started, Station};
use bank_model::Cause;
use refusals::Refusal;
use rival::TimingHypothesis;
use station_model::Event;
use tracker::inner::speed::dit_estimate;

impl Station {
    // A fresh station; one of width 1 that does not switch, where the width is above 8. What it promises of every list of
    // calls is demand 3.
    pub fn fresh(width: usize, switching: bool) -> Started
        ensures { Begins standard width switching result.told result.station }
    {
        if width <= 8 {
            return Started {
                told: Ok(()),
                station: begun::fresh(width, switching),
            };
        }
        Started {
            told: Err(Refusal::TooWide),
            station: begun::fresh(1, false),
        }
    }

    // One call: one event.
    pub fn call(self, event: Event) -> Outcome
        ensures { Called standard self event result }
    {
        match self.checked() {
            Ok(s) => known::call(s, event),
            Err(why) => refuse(self, why),
        }
    }

    // The station, where it is sound.
    fn checked(&self) -> Result<&Station, Refusal>
        ensures ok { IfOk result (λ s. (s.now ≡ self.now) × (sound standard self.now ≡ true) × Solid self.now) }
        ensures err { IfErr result (λ why. (why ≡ UnsoundState) × (sound standard self.now ≡ false)) }
    {
        if is_sound(*self) {
            return Ok(self);
        }
        Err(Refusal::UnsoundState)
    }

    // Whether the primary is ready.
    pub fn ready(self) -> Result<bool, Refusal>
        ensures { result ≡ reads standard self (view self).primary.pair.ready }
    {
        Ok(self.checked()?.primary.pair.ready)
    }

    // The primary's dit centroid.
    pub fn dit_ms(self) -> Result<f32, Refusal>
        ensures { result ≡ reads standard self (view self).primary.pair.lo }
    {
        Ok(self.checked()?.primary.pair.lo)
    }

    // The primary's dah centroid.
    pub fn dah_ms(self) -> Result<f32, Refusal>
        ensures { result ≡ reads standard self (view self).primary.pair.hi }
    {
        Ok(self.checked()?.primary.pair.hi)
    }

    // The primary's dit estimate.
    pub fn dit_estimate_ms(self) -> Result<f32, Refusal>
        ensures { result ≡ reads standard self (dit_estimate standard (view self).primary) }
    {
        Ok(dit_estimate(self.checked()?.primary))
    }

    // The primary's speed average, if there is one.
    pub fn wpm(self) -> Result<Option<f32>, Refusal>
        ensures { result ≡ reads standard self self.primary.wpm_ema }
    {
        Ok(self.checked()?.primary.wpm_ema)
    }

    // The primary's serial.
    pub fn serial(self) -> Result<u64, Refusal>
        ensures { result ≡ reads standard self (view self).serial }
    {
        Ok(self.checked()?.serial)
    }

    // How many challengers the bank holds.
    pub fn challengers(self) -> Result<u64, Refusal>
        ensures { result ≡ reads standard self (length (view self).bank.challengers) }
    {
        Ok(self.checked()?.bank.challengers_len as u64)
    }

    // How many hypotheses were started.
    pub fn started(self) -> Result<u64, Refusal>
        ensures { result ≡ reads standard self (view self).bank.started }
    {
        Ok(self.checked()?.bank.started)
    }

    // How many calls were accepted.
    pub fn accepted(self) -> Result<u64, Refusal>
        ensures { result ≡ reads standard self (view self).accepted }
    {
        Ok(self.checked()?.accepted)
    }

    // How many left by a cause.
    pub fn departed(self, cause: Cause) -> Result<u64, Refusal>
        ensures { result ≡ reads standard self (count_of cause (view self).counts) }
    {
        Ok(self.checked()?.counts.of(cause))
    }

    // The i-th challenger, in bank order, if there is one.
    #[tactic(auto, using(crate::proofs::Answering::glimpse_all))]
    pub fn challenger(self, i: usize) -> Result<Option<Rival>, Refusal>
        ensures { result ≡ reads standard self (slice_get (map glimpse (view self).bank.challengers) i) }
    {
        let b = self.checked()?.bank;
        Ok(shown(&b.challengers[..b.challengers_len], i))
    }
}

// What is shown of the i-th of them, if there is one.
fn shown(held: &[TimingHypothesis], i: usize) -> Option<Rival>
    ensures { result ≡ slice_get (map (λ h. glimpse (view_hyp h)) held.now) i }
{
    held.get(i).copied().map(Rival::from)
}

// What is shown of a challenger.
impl From<TimingHypothesis> for Rival {
    ghost from_gives = { λ h r. r ≡ glimpse (view_hyp h) };

    fn from(h: TimingHypothesis) -> Rival {
        Rival {
            serial: h.serial,
            dit_ms: h.tracker.pair.lo,
            dah_ms: h.tracker.pair.hi,
            score: h.score,
        }
    }
}
