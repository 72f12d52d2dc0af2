ghost use Rattle.std.specs.Prelude.{◌≡◌};
ghost use Rattle.state.specs.Refusal.{refusal_number, NumberOf};

use std::error::Error;
use std::fmt;

// Why a call is refused: the table of refusals. A call says which of them it gives.
#[derive(Clone, Copy, Debug, PartialEq, Eq)]
pub enum Refusal {
    // a state field lies outside its range
    State = 1,
    // a setting outside the ranges of seconds or microseconds
    Time = 2,
    // the tick would roll over from second 4,294,967,295
    Last = 3,
    // mode above 63
    Mode = 4,
    // selected offset not within -127,999..127,999
    Offset = 5,
    // selected frequency not strictly between the ends of its range
    Frequency = 6,
    // a selected error above 16,000,000
    Error = 7,
    // selected status above 4
    Status = 8,
    // selected time constant above 4
    Constant = 9,
    // bytes end inside a record or event
    Ended = 10,
    // a number not in its shortest form, or a fifth byte that says more follows
    Form = 11,
    // unknown record version or event code, or record field out of range
    Field = 12,
    // bytes after a record's end, or a history above 65,536 bytes
    Beyond = 13,
    // lent buffer shorter than what is to be written
    Room = 14,
    // not a label
    Label = 15,
    // a ceiling above 65,536 ticks
    Ceiling = 16,
    // an offset fewer than 64 rollovers after the last accepted one
    Soon = 17,
    // a place beyond a rig's table
    Place = 18,
    // a table of more than eight clocks
    Table = 19,
}

impl Refusal {
    // Its number in the table. 0 is no refusal's: it stands for accepted.
    pub fn number(self) -> u8
        ensures { result ≡ refusal_number self }
    {
        self as u8
    }
}

// A number that is no refusal's: 0, or one above the table's last.
#[derive(Clone, Copy, Debug, PartialEq, Eq)]
pub struct NoRefusal(pub u8);

impl TryFrom<u8> for Refusal {
    type Error = NoRefusal;

    ghost try_from_gives = { NumberOf };

    fn try_from(number: u8) -> Result<Self, NoRefusal> {
        match number {
            1 => Ok(Refusal::State),
            2 => Ok(Refusal::Time),
            3 => Ok(Refusal::Last),
            4 => Ok(Refusal::Mode),
            5 => Ok(Refusal::Offset),
            6 => Ok(Refusal::Frequency),
            7 => Ok(Refusal::Error),
            8 => Ok(Refusal::Status),
            9 => Ok(Refusal::Constant),
            10 => Ok(Refusal::Ended),
            11 => Ok(Refusal::Form),
            12 => Ok(Refusal::Field),
            13 => Ok(Refusal::Beyond),
            14 => Ok(Refusal::Room),
            15 => Ok(Refusal::Label),
            16 => Ok(Refusal::Ceiling),
            17 => Ok(Refusal::Soon),
            18 => Ok(Refusal::Place),
            19 => Ok(Refusal::Table),
            _ => Err(NoRefusal(number)),
        }
    }
}

// What a program that meets a refusal can say of it: words for people, which no promise names.
impl fmt::Display for Refusal {
    fn fmt<W: fmt::Write>(&self, f: &mut fmt::Formatter<W>) -> fmt::Result {
        f.write_str(match self {
            Refusal::State => "a field of the clock is out of its range",
            Refusal::Time => "a second or a microsecond that no clock shows",
            Refusal::Last => "the clock is at the end of its last second",
            Refusal::Mode => "a mode above 63",
            Refusal::Offset => "an offset of more than 127,999 us",
            Refusal::Frequency => "a frequency of 100 ppm or more",
            Refusal::Error => "an error above 16,000,000 us",
            Refusal::Status => "a status above 4",
            Refusal::Constant => "a time constant above 4",
            Refusal::Ended => "the bytes end inside a record or an event",
            Refusal::Form => "a number is not in its shortest form",
            Refusal::Field => "the version is unknown or a field out of its range",
            Refusal::Beyond => "bytes follow the record, or the history is too long",
            Refusal::Room => "the buffer is too short",
            Refusal::Label => "not a label",
            Refusal::Ceiling => "more than 65,536 ticks asked for",
            Refusal::Soon => "an offset fewer than 64 rollovers after the last one",
            Refusal::Place => "a place beyond the table",
            Refusal::Table => "more than eight clocks in the table",
        })
    }
}

impl fmt::Display for NoRefusal {
    fn fmt<W: fmt::Write>(&self, f: &mut fmt::Formatter<W>) -> fmt::Result {
        write!(f, "no refusal has the number {}", self.0)
    }
}

impl Error for Refusal {}

impl Error for NoRefusal {}
