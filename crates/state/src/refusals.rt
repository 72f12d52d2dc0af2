ghost use Rattle.std.specs.Prelude.{◌≡◌};
ghost use Rattle.state.specs.Limits.{refusal_numbers};

use crate::refusal::Refusal;

// The numbers of the refusals by the names that C has for them, as an answer holds one; 0 is accepted.
pub const REFUSED_STATE: u8 = Refusal::State as u8;

pub const REFUSED_TIME: u8 = Refusal::Time as u8;

pub const REFUSED_LAST: u8 = Refusal::Last as u8;

pub const REFUSED_MODE: u8 = Refusal::Mode as u8;

pub const REFUSED_OFFSET: u8 = Refusal::Offset as u8;

pub const REFUSED_FREQUENCY: u8 = Refusal::Frequency as u8;

pub const REFUSED_ERROR: u8 = Refusal::Error as u8;

pub const REFUSED_STATUS: u8 = Refusal::Status as u8;

pub const REFUSED_CONSTANT: u8 = Refusal::Constant as u8;

pub const REFUSED_ENDED: u8 = Refusal::Ended as u8;

pub const REFUSED_FORM: u8 = Refusal::Form as u8;

pub const REFUSED_FIELD: u8 = Refusal::Field as u8;

pub const REFUSED_BEYOND: u8 = Refusal::Beyond as u8;

pub const REFUSED_ROOM: u8 = Refusal::Room as u8;

pub const REFUSED_LABEL: u8 = Refusal::Label as u8;

pub const REFUSED_CEILING: u8 = Refusal::Ceiling as u8;

pub const REFUSED_SOON: u8 = Refusal::Soon as u8;

pub const REFUSED_PLACE: u8 = Refusal::Place as u8;

pub const REFUSED_TABLE: u8 = Refusal::Table as u8;

// The same numbers, as one value: `refusal_numbers` promises what C's names are worth.
#[derive(Clone, Copy)]
pub struct RefusalNumbers {
    pub state: u8,
    pub time: u8,
    pub last: u8,
    pub mode: u8,
    pub offset: u8,
    pub frequency: u8,
    pub error: u8,
    pub status: u8,
    pub constant: u8,
    pub ended: u8,
    pub form: u8,
    pub field: u8,
    pub beyond: u8,
    pub room: u8,
    pub label: u8,
    pub ceiling: u8,
    pub soon: u8,
    pub place: u8,
    pub table: u8,
}

// Which number stands for what; the constants of these names have the same values.
pub fn refusal_numbers() -> RefusalNumbers
    ensures value { result ≡ refusal_numbers }
    ensures refused_state_value { REFUSED_STATE ≡ refusal_numbers.state }
    ensures refused_time_value { REFUSED_TIME ≡ refusal_numbers.time }
    ensures refused_last_value { REFUSED_LAST ≡ refusal_numbers.last }
    ensures refused_mode_value { REFUSED_MODE ≡ refusal_numbers.mode }
    ensures refused_offset_value { REFUSED_OFFSET ≡ refusal_numbers.offset }
    ensures refused_frequency_value { REFUSED_FREQUENCY ≡ refusal_numbers.frequency }
    ensures refused_error_value { REFUSED_ERROR ≡ refusal_numbers.error }
    ensures refused_status_value { REFUSED_STATUS ≡ refusal_numbers.status }
    ensures refused_constant_value { REFUSED_CONSTANT ≡ refusal_numbers.constant }
    ensures refused_ended_value { REFUSED_ENDED ≡ refusal_numbers.ended }
    ensures refused_form_value { REFUSED_FORM ≡ refusal_numbers.form }
    ensures refused_field_value { REFUSED_FIELD ≡ refusal_numbers.field }
    ensures refused_beyond_value { REFUSED_BEYOND ≡ refusal_numbers.beyond }
    ensures refused_room_value { REFUSED_ROOM ≡ refusal_numbers.room }
    ensures refused_label_value { REFUSED_LABEL ≡ refusal_numbers.label }
    ensures refused_ceiling_value { REFUSED_CEILING ≡ refusal_numbers.ceiling }
    ensures refused_soon_value { REFUSED_SOON ≡ refusal_numbers.soon }
    ensures refused_place_value { REFUSED_PLACE ≡ refusal_numbers.place }
    ensures refused_table_value { REFUSED_TABLE ≡ refusal_numbers.table }
{
    RefusalNumbers {
        state: REFUSED_STATE,
        time: REFUSED_TIME,
        last: REFUSED_LAST,
        mode: REFUSED_MODE,
        offset: REFUSED_OFFSET,
        frequency: REFUSED_FREQUENCY,
        error: REFUSED_ERROR,
        status: REFUSED_STATUS,
        constant: REFUSED_CONSTANT,
        ended: REFUSED_ENDED,
        form: REFUSED_FORM,
        field: REFUSED_FIELD,
        beyond: REFUSED_BEYOND,
        room: REFUSED_ROOM,
        label: REFUSED_LABEL,
        ceiling: REFUSED_CEILING,
        soon: REFUSED_SOON,
        place: REFUSED_PLACE,
        table: REFUSED_TABLE,
    }
}
