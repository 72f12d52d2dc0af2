ghost use Rattle.std.specs.Prelude.{◌≡◌};
ghost use Rattle.clock.specs.Setting.{setting_of};

use crate::sound::Sound;
use state::{
    AskedMicros, Clock, LAST_MICRO, LAST_SECOND, MAX_ERROR, Micros, OffsetUnits, Outcome,
    PhaseParts, PhaseUnits, Refusal, TIME_BAD,
};

// The clock set to a time; frequency, time constant and kind stay.
pub fn set(c: Clock, seconds: u64, micros: AskedMicros) -> Outcome
    ensures { result ≡ setting_of c seconds micros }
{
    let Some(sound) = Sound::of(c) else {
        return Outcome::refused(c, Refusal::State);
    };
    if !((seconds <= LAST_SECOND as u64) & (micros.0 <= LAST_MICRO as u64)) {
        return Outcome::refused(c, Refusal::Time);
    }
    let none = OffsetUnits(0);
    let (adjustment, remainder) = sound.increments(none);
    Outcome::accepted(Clock {
        seconds: seconds as u32,
        micros: Micros(micros.0 as u32),
        phase: PhaseUnits(0),
        offset: none,
        adjustment,
        updated: 0,
        interval: 0,
        maxerror: Micros(MAX_ERROR),
        esterror: Micros(MAX_ERROR),
        status: TIME_BAD,
        remainder,
        leftover: PhaseParts(0),
        ..c
    })
}
