// The public calls of a bank. Each takes every input: it tests the states that it was handed, then the other refusals
// in document 01's order, and leaves the states as they were where one holds.
ghost use Rattle.std.specs.Prelude.{◌≡◌, ◌+◌, take};
ghost use Rattle.std.specs.List.{slice_get};
ghost use Rattle.std.proofs.Math.ListN.{get_elem?};
ghost use Rattle.ranges.specs.Settings.{standard};
ghost use Rattle.tracker.specs.Model as Tracked;
ghost use Rattle.tracker.specs.Answers.{count, told, unless};
ghost use Rattle.bank_model.specs.Steps.{clear, fresh_bank, on_gap, on_mark, on_ready, take_switch};
ghost use Rattle.bank.specs.View.{view};
ghost use Rattle.bank.specs.Answers.{
  Answers,
  Hears,
  Started,
  Switches,
  bank_then,
  clear_refusal,
  heard_refusal,
  of_shown,
  ready_refusal,
  showing,
  switch_refusal,
};

use crate::inner::door::{count_on, good_list, sound, sound_both, switch_call};
use crate::inner::fresh::fresh;
use crate::inner::{clear, gap, mark, ready, switch};
use crate::{Heard, Switched, TimingBank};
use bank_model::{Departures, SwitchRecord};
use ranges::Duration;
use refusals::Refusal;
use rival::TimingHypothesis;
use tracker::SpeedTracker;

impl TimingBank {
    // A fresh bank; one of width 1 that does not switch, where the width is above 8.
    pub fn new(width: usize, switching: bool) -> Heard
        ensures { Started standard width switching result.told result.bank }
    {
        if width <= 8 {
            return Heard {
                told: Ok(()),
                bank: fresh(width, switching).bank,
            };
        }
        Heard {
            told: Err(Refusal::TooWide),
            bank: fresh(1, false).bank,
        }
    }

    // How many hypotheses live, the primary included.
    pub fn hypotheses(&self) -> Result<u64, Refusal>
        ensures { told count result ≡ unless (bank_then standard self.now 0) (count (1 + self.now.challengers_len)) }
    {
        let s = sound(*self)?;
        Ok((1 + s.bank.challengers_len) as u64)
    }

    // How many marks were scored.
    pub fn marks_seen(&self) -> Result<u64, Refusal>
        ensures { told count result ≡ unless (bank_then standard self.now 0) (count (view self.now).marks) }
    {
        let s = sound(*self)?;
        Ok(s.bank.marks_seen)
    }

    // How many gaps were scored.
    pub fn gaps_seen(&self) -> Result<u64, Refusal>
        ensures { told count result ≡ unless (bank_then standard self.now 0) (count (view self.now).gaps) }
    {
        let s = sound(*self)?;
        Ok(s.bank.gaps_seen)
    }

    // The i-th challenger, in bank order, if there is one.
    pub fn challenger(&self, i: usize) -> Result<Option<TimingHypothesis>, Refusal>
        ensures { of_shown result
            ≡ showing (bank_then standard self.now 0)
            (get_elem? (take self.now.challengers_len self.now.challengers) i) }
    {
        let crew = sound(*self)?;
        let held = &crew.bank.challengers[..crew.bank.challengers_len];
        Ok(nth(held, i))
    }

    // The i-th switch record, oldest first, if there is one.
    pub fn switch_record(&self, i: usize) -> Result<Option<SwitchRecord>, Refusal>
        ensures { of_shown result ≡ showing (bank_then standard self.now 0) (get_elem? (view self.now).log i) }
    {
        let logged = sound(*self)?;
        let log = &logged.bank.log[..logged.bank.log_len];
        Ok(nth(log, i))
    }

    // Every challenger leaves, with all evidence and the choice.
    pub fn clear(&mut self) -> Result<Departures, Refusal>
        ensures { Answers standard (clear_refusal standard self.old) self.old (clear (view self.old)) result self.new }
    {
        let s = sound(*self)?;
        let o = count_on(s)?;
        let c = clear::clear(o.bank);
        *self = c.bank.bank;
        Ok(c.gone)
    }

    // The primary just became ready from marks.
    pub fn on_ready(&mut self, primary: SpeedTracker, marks: &[f32]) -> Result<Departures, Refusal>
        ensures { Answers standard (ready_refusal standard self.old primary marks.now) self.old
            (on_ready standard (view self.old) (Tracked.view primary) marks.now) result self.new }
    {
        let (s, p) = sound_both(*self, primary)?;
        count_on(s)?;
        let list = good_list(marks)?;
        let c = ready::on_ready(s, p, list);
        *self = c.bank.bank;
        Ok(c.gone)
    }

    // One gap, beside the primary.
    pub fn on_gap(&mut self, primary: SpeedTracker, dur_ms: f32) -> Result<(), Refusal>
        ensures { Hears standard (heard_refusal standard self.old primary dur_ms) self.old
            (on_gap standard (view self.old) (Tracked.view primary) dur_ms) result self.new }
    {
        let (s, p) = sound_both(*self, primary)?;
        let o = count_on(s)?;
        let length = Duration::try_from(dur_ms)?;
        *self = gap::on_gap(o, p, length).bank;
        Ok(())
    }

    // One mark, beside the primary, which has learnt it if it is live.
    pub fn on_mark(
        &mut self,
        primary: SpeedTracker,
        dur_ms: f32,
        live: bool,
    ) -> Result<Departures, Refusal>
        ensures { Answers standard (heard_refusal standard self.old primary dur_ms) self.old
            (on_mark standard (view self.old) (Tracked.view primary) dur_ms live) result self.new }
    {
        let (s, p) = sound_both(*self, primary)?;
        let o = count_on(s)?;
        let d = Duration::try_from(dur_ms)?;
        let c = mark::on_mark(o, p, d, live);
        *self = c.bank.bank;
        Ok(c.gone)
    }

    // A switch, where a choice is pending: the challenger and the primary, with its serial, are exchanged.
    pub fn take_switch(self, primary: SpeedTracker, serial: u64) -> Switched
        ensures { Switches standard (switch_refusal standard self primary) self primary serial
            (take_switch (view self) (Tracked.view primary) serial) result }
    {
        match switch_call(self, primary) {
            Ok((s, p)) => {
                let t = switch::take_switch(s, p, serial);
                Switched {
                    flag: Ok(t.switched),
                    bank: t.bank.bank,
                    primary: t.primary.tracker,
                    serial: t.serial,
                }
            }
            Err(r) => Switched {
                flag: Err(r),
                bank: self,
                primary,
                serial,
            },
        }
    }
}

// The i-th of a list, if there is one.
fn nth<A: Copy>(list: &[A], i: usize) -> Option<A>
    ensures { result ≡ slice_get list.now i }
{
    list.get(i).copied()
}
