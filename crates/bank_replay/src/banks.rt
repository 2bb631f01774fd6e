// A bank as it is printed: its parts in order, lists with their counts before them, absent numbers left out.
use bank_model::SwitchRecord;
use plain::{PlainBank, PlainHypothesis};
use plain_tracker::from::flag_of;
use replay::{put_code, put_flag, put_float, put_long, put_word};
use shown::inner::{put_list, put_option};
use shown::{put_count, put_held, put_tracker};
use std::io;
use std::io::Write;

pub(crate) fn put_hypothesis<W: Write>(out: &mut W, h: PlainHypothesis) -> io::Result<()> {
    put_long(out, h.serial)?;
    put_float(out, h.score)?;
    put_float(out, h.gap_score)?;
    put_word(out, h.lead_marks)?;
    put_word(out, h.age_marks)?;
    put_code(out, h.origin)?;
    if h.origin == 2 {
        put_word(out, h.retain_marks)?;
    }
    put_flag(out, flag_of(h.reported))?;
    put_float(out, h.ln_lo)?;
    put_float(out, h.ln_hi)?;
    put_tracker(out, &h.tracker)
}

pub(crate) fn put_record<W: Write>(out: &mut W, r: SwitchRecord) -> io::Result<()> {
    put_long(out, r.mark_index)?;
    put_float(out, r.from_dit_ms)?;
    put_float(out, r.to_dit_ms)?;
    put_flag(out, r.applied)
}

// What changes most, after each call.
pub(crate) fn put_short<W: Write>(out: &mut W, b: PlainBank) -> io::Result<()> {
    put_count(out, b.challengers_len)?;
    put_float(out, b.primary_score)?;
    put_float(out, b.primary_gap_score)?;
    put_long(out, b.marks_seen)?;
    put_long(out, b.gaps_seen)?;
    put_option(out, flag_of(b.has_pending).then_some(b.pending), put_count)?;
    put_long(out, b.started)
}

// All of it.
pub(crate) fn put_bank<W: Write>(out: &mut W, b: PlainBank) -> io::Result<()> {
    put_count(out, b.width)?;
    put_flag(out, flag_of(b.switching))?;
    put_short(out, b)?;
    put_list(out, &b.challengers, b.challengers_len, put_hypothesis)?;
    put_list(out, &b.streak, b.streak_len, put_float)?;
    put_list(out, &b.streak_gaps, b.streak_gaps_len, put_float)?;
    let side = flag_of(b.has_side).then_some(flag_of(b.streak_side));
    put_option(out, side, put_flag)?;
    put_held(out, flag_of(b.has_last_gap), b.last_gap)?;
    put_list(
        out,
        &b.log,
        b.log_len,
        |out, r| put_record(out, SwitchRecord::from(r)),
    )
}
