// A duration (document 01, refusals 5 to 7).
ghost use Rattle.std.specs.Prelude.{◌≡◌, IfOk};
ghost use Rattle.refusals.specs.Refusal.{refusal_of};
ghost use Rattle.ranges.specs.Interval.{In};
ghost use Rattle.ranges.specs.Limits.{duration_min, duration_max, duration_refusal};

use refusals::Refusal;

// A length in milliseconds that refusals 5 to 7 let pass: whoever is handed one has not to ask again.
#[derive(Clone, Copy)]
pub struct Duration {
    pub ms: f32,
    pub ghost held: { In duration_min duration_max ms },
}

impl TryFrom<f32> for Duration {
    type Error = Refusal;

    ghost try_from_gives = { λ x r. (refusal_of r ≡ duration_refusal x) × IfOk r (λ d. d.ms ≡ x) };

    fn try_from(ms: f32) -> Result<Duration, Refusal> {
        // compared, as `is_finite` takes a difference: in a host that unmasks exceptions, an infinity would signal
        if !(ms.abs() < f32::INFINITY) {
            return Err(Refusal::EndlessDuration);
        }
        if ms < 0.015625 {
            return Err(Refusal::ShortDuration);
        }
        if ms > 262144.0 {
            return Err(Refusal::LongDuration);
        }
        Ok(Duration { ms })
    }
}
