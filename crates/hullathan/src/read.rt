// What a display and a log need of the station in a host's memory.
ghost use Rattle.std.specs.Prelude.{◌≡◌, map};
ghost use Rattle.rival.specs.View.{view_hyp};
ghost use Rattle.station.specs.View.{view};
ghost use Rattle.station.specs.Parts.{Solid};
ghost use Rattle.hullathan.specs.Host.{no_reading, no_rival, padded, reads, reading_of, rival_of};

use crate::inner::is_good;
use crate::{PlainReading, PlainRival};
use plain::to::plain_log;
use plain_station::PlainStation;
use plain_station::from::station_from;
use plain_tracker::inner::carried;
use refusals::Refusal;
use rival::TimingHypothesis;
use station::Station;
use tracker::inner::speed::dit_estimate;

// One challenger.
impl From<TimingHypothesis> for PlainRival {
    ghost from_gives = { λ h r. r ≡ rival_of (view_hyp h) };

    fn from(h: TimingHypothesis) -> PlainRival {
        PlainRival {
            serial: h.serial,
            dit_ms: h.tracker.pair.lo,
            dah_ms: h.tracker.pair.hi,
            score: h.score,
            gap_score: h.gap_score,
        }
    }
}

// A place that shows none.
pub(crate) fn no_rival() -> PlainRival
    ensures { result ≡ no_rival }
{
    PlainRival::default()
}

// The challengers.
pub(crate) fn rivals(s: Station) -> [PlainRival; 8]
    requires { Solid s }
    ensures { result ≡ padded no_rival 8 (map rival_of (view s).bank.challengers) }
{
    carried(
        &s.bank.challengers,
        s.bank.challengers_len,
        no_rival(),
        PlainRival::from,
    )
}

// What a sound station shows.
pub(crate) fn read_of(s: Station) -> PlainReading
    requires { Solid s }
    ensures { result ≡ reading_of (view s) }
{
    let p = s.primary;
    let c = s.counts;
    PlainReading {
        code: 0,
        ready: u8::from(p.pair.ready),
        has_wpm: u8::from(p.wpm_ema.is_some()),
        switching: u8::from(s.bank.switching),
        pad_switching: [0; 4],
        width: s.bank.width,
        dit_ms: p.pair.lo,
        dah_ms: p.pair.hi,
        dit_estimate_ms: dit_estimate(p),
        wpm: p.wpm_ema.unwrap_or(0.0),
        score: s.bank.primary_score,
        gap_score: s.bank.primary_gap_score,
        serial: s.serial,
        accepted: s.accepted,
        marks: s.bank.marks_seen,
        gaps: s.bank.gaps_seen,
        started: s.bank.started,
        twins: c.twins,
        outscored: c.outscored,
        aged: c.aged,
        replaced: c.replaced,
        cleared: c.cleared,
        challengers: s.bank.challengers_len,
        rivals: rivals(s),
        log_len: s.bank.log_len,
        log: plain_log(&s.bank.log, s.bank.log_len),
    }
}

// Where there is no sound station.
pub(crate) fn no_reading() -> PlainReading
    ensures { result ≡ no_reading }
{
    PlainReading {
        code: Refusal::UnsoundState.host_code(),
        ..PlainReading::default()
    }
}

// The reading of the station, or a refusal by 1.
pub fn reading(p: PlainStation) -> PlainReading
    ensures { result ≡ reads p }
{
    let s = station_from(p);
    if is_good(p, s) {
        return read_of(s);
    }
    no_reading()
}
