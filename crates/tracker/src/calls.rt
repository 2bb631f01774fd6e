// The public calls of a tracker. Each takes every input: it tests the state that it was handed, then the other refusals
// in document 01's order, and leaves the state as it was where one holds.
ghost use Rattle.std.specs.Prelude.{◌≡◌, T};
ghost use Rattle.ranges.specs.Limits.{duration_refusal};
ghost use Rattle.ranges.specs.Settings.{standard};
ghost use Rattle.pair.specs.Lock.{boundary};
ghost use Rattle.pair.specs.Readings.{gaps_say_dahs};
ghost use Rattle.tracker.specs.Answers.{
  Answers,
  count,
  done,
  flag,
  number,
  optional,
  reads,
  speed_refusal,
  state_then,
  told,
};
ghost use Rattle.tracker.specs.Model.{view};
ghost use Rattle.tracker.specs.Parts.{blank};
ghost use Rattle.tracker.specs.Sound.{sound};
ghost use Rattle.tracker.specs.Steps.{
  bootstrapped,
  can_begin,
  dit_estimate,
  fresh,
  on_gap,
  on_mark,
  reseeded,
  resolved,
  seeded,
  set_hint,
  settled,
};
ghost use Rattle.pair.specs.Model.{held};
ghost use Rattle.marks.specs.Lists.{list_refusal};

use crate::inner::door::check_speed;
use crate::inner::{begin, gaps, mark, resolve, speed};
use crate::{SoundTracker, SpeedTracker};
use marks::Gaps;
use pair::inner::pair::boundary;
use ranges::Duration;
use refusals::Refusal;

impl SpeedTracker {
    // A fresh tracker.
    pub fn new() -> SpeedTracker
        ensures { (result ≡ blank) × ((view result ≡ fresh) × T (sound standard result)) }
    {
        begin::fresh().tracker
    }

    // Whether it is ready.
    pub fn ready(&self) -> Result<bool, Refusal>
        ensures { told flag result ≡ reads standard self.now (flag (view self.now).pair.ready) }
    {
        SoundTracker::try_from(*self)?;
        Ok(self.pair.ready)
    }

    // The dit centroid.
    pub fn mu_dit_ms(&self) -> Result<f32, Refusal>
        ensures { told number result ≡ reads standard self.now (number (view self.now).pair.lo) }
    {
        SoundTracker::try_from(*self)?;
        Ok(self.pair.lo)
    }

    // The dah centroid.
    pub fn mu_dah_ms(&self) -> Result<f32, Refusal>
        ensures { told number result ≡ reads standard self.now (number (view self.now).pair.hi) }
    {
        SoundTracker::try_from(*self)?;
        Ok(self.pair.hi)
    }

    // The boundary between dits and dahs.
    pub fn boundary_ms(&self) -> Result<f32, Refusal>
        ensures { told number result ≡ reads standard self.now (number (boundary (view self.now).pair)) }
    {
        SoundTracker::try_from(*self)?;
        Ok(boundary(self.pair))
    }

    // The speed average, if there is one.
    pub fn wpm(&self) -> Result<Option<f32>, Refusal>
        ensures { told (λ w. optional (held w)) result ≡ reads standard self.now (optional (view self.now).wpm) }
    {
        SoundTracker::try_from(*self)?;
        Ok(self.wpm_ema)
    }

    // How often the marks' scale was rebuilt.
    pub fn regime(&self) -> Result<u32, Refusal>
        ensures { told count result ≡ reads standard self.now (count (view self.now).regime) }
    {
        SoundTracker::try_from(*self)?;
        Ok(self.regime)
    }

    // The gap centroid, if there is one.
    pub fn mu_egap_ms(&self) -> Result<Option<f32>, Refusal>
        ensures { told (λ g. optional (held g)) result ≡ reads standard self.now (optional (view self.now).egap) }
    {
        SoundTracker::try_from(*self)?;
        Ok(self.mu_egap_ms)
    }

    // The dit estimate.
    pub fn dit_estimate_ms(&self) -> Result<f32, Refusal>
        ensures { told number result ≡ reads standard self.now (number (dit_estimate standard (view self.now))) }
    {
        SoundTracker::try_from(*self)?;
        Ok(speed::dit_estimate(*self))
    }

    // The hint, or none where it is not finite.
    pub fn set_ratio_hint(&mut self, hint: f32) -> Result<(), Refusal>
        ensures { Answers standard (state_then standard self.old 0) self.old done (told (λ u. done) result)
            (set_hint standard (view self.old) hint) self.new }
    {
        let t = SoundTracker::try_from(*self)?;
        *self = gaps::set_ratio_hint(t, hint).tracker;
        Ok(())
    }

    // One element gap.
    pub fn on_element_gap(&mut self, dur_ms: f32) -> Result<(), Refusal>
        ensures { Answers standard (state_then standard self.old (duration_refusal dur_ms)) self.old done
            (told (λ u. done) result) (on_gap standard (view self.old) dur_ms) self.new }
    {
        let t = SoundTracker::try_from(*self)?;
        let d = Duration::try_from(dur_ms)?;
        *self = gaps::on_element_gap(t, d).tracker;
        Ok(())
    }

    // Whether a fragment was recovered from since the last such call.
    #[tactic(auto, unfolding(crate::specs::Steps::settled, crate::specs::Parts::unflagged))]
    pub fn take_badlock_recovered(&mut self) -> Result<bool, Refusal>
        ensures { Answers standard (state_then standard self.old 0) self.old (flag (view self.old).recovered)
            (told flag result) (settled (view self.old)) self.new }
    {
        let t = SoundTracker::try_from(*self)?;
        let recovered = self.badlock_recovered;
        *self = gaps::settle(t).tracker;
        Ok(recovered)
    }

    // A finish: whether it made the tracker ready.
    pub fn bootstrap(&mut self) -> Result<bool, Refusal>
        ensures { Answers standard (state_then standard self.old 0) self.old (flag (can_begin (view self.old)))
            (told flag result) (bootstrapped standard (view self.old)) self.new }
    {
        let t = SoundTracker::try_from(*self)?;
        let Some(begun) = begin::begun(t) else {
            return Ok(false);
        };
        *self = begun.tracker;
        Ok(true)
    }

    // A seed, from a speed.
    pub fn seed_wpm(&mut self, wpm: f32) -> Result<(), Refusal>
        ensures { Answers standard (state_then standard self.old (speed_refusal wpm)) self.old done
            (told (λ u. done) result) (seeded standard (view self.old) wpm) self.new }
    {
        let t = SoundTracker::try_from(*self)?;
        check_speed(wpm)?;
        *self = begin::seed_wpm(t, wpm).tracker;
        Ok(())
    }

    // One mark.
    pub fn on_mark(&mut self, dur_ms: f32) -> Result<(), Refusal>
        ensures { Answers standard (state_then standard self.old (duration_refusal dur_ms)) self.old done
            (told (λ u. done) result) (on_mark standard (view self.old) dur_ms) self.new }
    {
        let t = SoundTracker::try_from(*self)?;
        let d = Duration::try_from(dur_ms)?;
        *self = mark::on_mark(t, d).tracker;
        Ok(())
    }

    // The speed average of a ready tracker begins anew.
    pub fn reseed_wpm_after_warmup(&mut self) -> Result<(), Refusal>
        ensures { Answers standard (state_then standard self.old 0) self.old done (told (λ u. done) result)
            (reseeded standard (view self.old)) self.new }
    {
        let t = SoundTracker::try_from(*self)?;
        *self = begin::reseed_wpm_after_warmup(t).tracker;
        Ok(())
    }

    // Gaps that may say that assumed dits are dahs: whether they do.
    pub fn resolve_unimodal_bootstrap(&mut self, gaps_ms: &[f32]) -> Result<bool, Refusal>
        ensures { Answers standard (state_then standard self.old (list_refusal gaps_ms.now)) self.old
            (flag (gaps_say_dahs standard (view self.old).pair gaps_ms.now)) (told flag result)
            (resolved standard (view self.old) gaps_ms.now) self.new }
    {
        let t = SoundTracker::try_from(*self)?;
        let gaps = Gaps::try_from(gaps_ms)?;
        let Some(turned) = resolve::resolved(t, gaps) else {
            return Ok(false);
        };
        *self = turned.tracker;
        Ok(true)
    }
}
